//! The session of a request.

ghost use Rattle.std.specs.Prelude.{◌≡◌, [], ◌∷◌};
ghost use Rattle.std.specs.Option.{option_and_then, option_or};
ghost use Rattle.httparse.specs.Grammar.{trim_ows};
ghost use Rattle.sv_login.specs.Cookies.{value_of, values_in};
ghost use Rattle.sv_login.specs.Held.{first_given, held};
ghost use Rattle.sv_session.specs.Store.{number_of};

use crate::cookie::cookie_value;
use sv_message::{Field, trim_blanks};
use sv_session::Sessions;

/// Returns the number of the session of a request, if any: that of the first cookie with this name whose value is the
/// id of a live session (Jakarta Servlet 6.0, section 7.1.1).
///
/// Cookie fields are read in order and split at `;`. Each piece is trimmed of spaces and tabs and cut at its first `=`;
/// a piece without `=` is not a cookie. Names are case-sensitive. Values are not trimmed again, and quotes belong to
/// them. Only ids in `sessions` count, so those of other contexts do not.
pub fn held(fields: &[Field], name: &str, sessions: &Sessions) -> Option<u64>
    ensures { result ≡ held name.now fields.now sessions.now.store }
{
    for field in fields {
        if let Some(number) = held_by_field(field, name, sessions) {
            return Some(number);
        }
    }
    None
}

/// Returns the number of the session that a field names, or none if it is not a Cookie field.
fn held_by_field(field: &Field, name: &str, sessions: &Sessions) -> Option<u64>
    ensures { result ≡ held name.now (field.now ∷ []) sessions.now.store }
{
    if !field.is_named("cookie") {
        return None;
    }
    held_by_value(field.value.as_bytes(), name, sessions)
}

/// Returns the number of the session that the value of a Cookie field names.
fn held_by_value(value: &[u8], name: &str, sessions: &Sessions) -> Option<u64>
    ensures { result ≡ first_given (λ value. number_of value sessions.now.store) (values_in name.now value.now) }
{
    value.split(|b| *b == b';').fold(
        None,
        |found, piece| held_first(found, piece, name, sessions),
    )
}

/// Returns the session found before, or otherwise the one that a piece of a Cookie field names.
fn held_first(found: Option<u64>, piece: &[u8], name: &str, sessions: &Sessions) -> Option<u64>
    ensures { result ≡ option_or found (option_and_then (λ value. number_of value sessions.now.store) (value_of name.now (trim_ows piece.now))) }
{
    if found.is_some() {
        return found;
    }
    sessions.find(cookie_value(name, trim_blanks(piece))?)
}
