//! Paths in Location fields.

ghost use Rattle.std.specs.Prelude.{IfOk, string_bytes, ◌≡◌};
ghost use Rattle.sv_uri.specs.ContextPath.{shown_context};
ghost use Rattle.sv_uri.specs.LocationField as spec;

use percent_encoding::{AsciiSet, NON_ALPHANUMERIC, ascii_set, percent_encode};
use std::alloc::Global;
use sv_text::NoMemory;

// The bytes below 128 that are written as escapes, as are all bytes from 128 on.
const ESCAPED: AsciiSet = ascii_set!(
    NON_ALPHANUMERIC
        .remove(b'/')
        .remove(b'-')
        .remove(b'.')
        .remove(b'_')
        .remove(b'~')
        .remove(b'!')
        .remove(b'$')
        .remove(b'&')
        .remove(b'\'')
        .remove(b'(')
        .remove(b')')
        .remove(b'*')
        .remove(b'+')
        .remove(b',')
        .remove(b'=')
        .remove(b':')
        .remove(b'@')
);

/// Writes a path for a Location field (RFC 9110, section 10.2.2). ASCII letters, digits and `/-._~!$&'()*+,=:@` stay
/// unchanged, and every other byte becomes `%` with two hexadecimal digits in upper case. The path may be any text. From
/// the location of a canonical path, [`canon`](crate::canon) returns the same path.
///
/// # Errors
/// `NoMemory` if an allocation was refused.
pub fn location(alloc: Global, path: &str) -> Result<String, NoMemory>
    ensures { IfOk result (λ text. string_bytes text ≡ spec.location path.now) }
{
    let mut text = String::with_capacity(alloc, path.len())?;
    percent_encode(path.as_bytes(), ESCAPED).append_to(&mut text)?;
    Ok(text)
}

/// Returns the context path as it is shown: `/` for the root context, whose path is empty (Jakarta Servlet 6.0, section
/// 3.5), and any other path unchanged.
pub fn shown_context(path: &str) -> &str
    ensures { result.now ≡ shown_context path.now }
{
    if path.is_empty() { "/" } else { path }
}
