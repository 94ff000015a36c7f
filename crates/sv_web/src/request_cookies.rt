//! Cookies that a client sent.

ghost use Rattle.std.specs.Prelude.{◌≡◌, ◌==◌, [], ◌∷◌, position};
ghost use Rattle.std.specs.List.{slice_split};
ghost use Rattle.std.specs.Option.{option_copied};
ghost use Rattle.std.specs.Str.{byte};
ghost use Rattle.sv_login.specs.Cookies.{values_in};
ghost use Rattle.sv_web.specs.SentCookies.{first, first_cookie, pieces_left};

use sv_component::Exchange;
use sv_login::cookie_value;
use sv_message::{Field, trim_blanks};

/// Returns the value of the first cookie of this name that the client sent, or `None` if there is none (RFC 6265,
/// sections 4.2 and 5.4).
///
/// Cookie fields are read in order and split at `;`. Each piece is trimmed of spaces and tabs and split at its first
/// `=`; a piece without `=` is ignored. Names are case-sensitive. Values are not trimmed again, and keep their
/// quotes. A value may contain any bytes.
pub fn cookie<'a>(exchange: &'a Exchange, name: &str) -> Option<&'a [u8]>
    ensures { option_copied result ≡ first_cookie name.now exchange.now.request_fields }
{
    cookie_in_fields(exchange.request_fields(), name)
}

// Returns the value of the first cookie of this name in some fields.
fn cookie_in_fields<'a>(fields: &'a [Field], name: &str) -> Option<&'a [u8]>
    ensures { option_copied result ≡ first_cookie name.now fields.now }
{
    for field in fields {
        if let Some(value) = cookie_in_field(field, name) {
            return Some(value);
        }
    }
    None
}

// Returns the value of the first cookie of this name in a field, if it is a Cookie field.
fn cookie_in_field<'a>(field: &'a Field, name: &str) -> Option<&'a [u8]>
    ensures { option_copied result ≡ first_cookie name.now (field.now ∷ []) }
{
    if !field.is_named("cookie") {
        return None;
    }
    cookie_in_value(field.value.as_bytes(), name)
}

// Returns the value of the first cookie of this name in a Cookie field's value.
fn cookie_in_value<'a>(value: &'a [u8], name: &str) -> Option<&'a [u8]>
    ensures { option_copied result ≡ first (values_in name.now value.now) }
{
    let mut rest = Some(value);
    while let Some(text) = rest {
        let (front, behind) = at_semicolon(text);
        if let Some(found) = cookie_value(name, trim_blanks(front)) {
            return Some(found);
        }
        rest = behind;
    }
    None
}

// Returns the text before the first semicolon, and the text after it if there is one.
fn at_semicolon(text: &[u8]) -> (&[u8], Option<&[u8]>)
    ensures { slice_split (λ b. b == byte ";") text.now ≡ result.0.now ∷ pieces_left (option_copied result.1) }
{
    match first_semicolon(text) {
        Some(place) => (&text[..place], Some(&text[place + 1..])),
        None => (text, None),
    }
}

fn first_semicolon(text: &[u8]) -> Option<usize>
    ensures { result ≡ position (λ b. b == byte ";") text.now }
{
    text.iter().position(|b| *b == b';')
}
