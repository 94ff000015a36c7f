//! The cookies of a request without that of the session.

ghost use Rattle.std.specs.Prelude.{◌≡◌, ◌∷◌, ◌++◌, [], IfOk, None, OnOk, Some, if◌then◌else◌, map, string_bytes};
ghost use Rattle.std.specs.List.{filter};
ghost use Rattle.std.specs.Option.{option_copied};
ghost use Rattle.std.specs.Str.{is_utf8};
ghost use Rattle.sv_application.specs.Cookies as spec;
ghost use Rattle.sv_login.specs.Cookies.{pieces_of};

use std::alloc::Global;
use sv_login::cookie_value;
use sv_message::{Field, trim_blanks};
use sv_text::NoMemory;

/// Returns the cookies of all Cookie fields but those with this name, in order (RFC 6265, sections 4.2 and 5.4). The
/// fields are split at `;`, and blanks around the pieces are removed. A piece that is not UTF-8 is left out.
pub(crate) fn other_cookies<'a>(
    alloc: Global,
    fields: &'a [Field],
    name: &str,
) -> Result<Vec<&'a str>, NoMemory>
    ensures { IfOk result (λ found. map (λ cookie. cookie.now) found.items ≡ spec.other_cookies name.now fields.now) }
{
    let mut found = Vec::new(alloc);
    for field in fields {
        if field.is_named("cookie") {
            push_cookies(&mut found, alloc, field.value.as_bytes(), name)?;
        }
    }
    Ok(found)
}

fn push_cookies<'a>(
    found: &mut Vec<&'a str>,
    alloc: Global,
    value: &'a [u8],
    name: &str,
) -> Result<(), NoMemory>
    ensures { OnOk result (map (λ cookie. cookie.now) found.new.items
        ≡ map (λ cookie. cookie.now) found.old.items ++ spec.others_in name.now value.now) }
{
    for piece in pieces(alloc, value)?.as_slice() {
        push_cookie(found, trim_blanks(*piece), name)?;
    }
    Ok(())
}

fn pieces(alloc: Global, value: &[u8]) -> Result<Vec<&[u8]>, NoMemory>
    ensures { IfOk result (λ pieces. map (λ piece. piece.now) pieces.items ≡ pieces_of value.now) }
{
    Ok(value.split(|b| *b == b';').collect(alloc)?)
}

fn push_cookie<'a>(found: &mut Vec<&'a str>, piece: &'a [u8], name: &str) -> Result<(), NoMemory>
    ensures { OnOk result (map (λ cookie. cookie.now) found.new.items
        ≡ map (λ cookie. cookie.now) found.old.items ++ filter (spec.is_other name.now) (piece.now ∷ [])) }
{
    if let Some(text) = text_of(piece) {
        if cookie_value(name, piece).is_none() {
            found.push(text)?;
        }
    }
    Ok(())
}

/// Returns the bytes as a text, if they are UTF-8.
fn text_of(bytes: &[u8]) -> Option<&str>
    ensures { option_copied result ≡ (if is_utf8 bytes.now then Some bytes.now else None) }
{
    match str::from_utf8(bytes) {
        Ok(text) => Some(text),
        Err(_) => None,
    }
}

/// Returns the cookies as the value of a field, separated by a semicolon and a space.
pub(crate) fn cookies_text(alloc: Global, cookies: &[&str]) -> Result<String, NoMemory>
    ensures { IfOk result (λ text. string_bytes text ≡ spec.cookies_text (map (λ cookie. cookie.now) cookies.now)) }
{
    let Some((cookie, others)) = cookies.split_first() else {
        return Ok(String::new(alloc));
    };
    let mut text = String::from_str(alloc, *cookie)?;
    push_others(&mut text, others)?;
    Ok(text)
}

fn push_others(text: &mut String, cookies: &[&str]) -> Result<(), NoMemory>
    ensures { OnOk result (string_bytes text.new ≡ string_bytes text.old ++ spec.others_text (map (λ cookie. cookie.now) cookies.now)) }
{
    for cookie in cookies {
        text.push_str("; ")?;
        text.push_str(*cookie)?;
    }
    Ok(())
}
