//! The names of the files of sessions.

ghost use Rattle.std.specs.Prelude.{◌≡◌, IfOk, string_bytes};
ghost use Rattle.sv.specs.SessionName as spec;

use percent_encoding::{AsciiSet, NON_ALPHANUMERIC, ascii_set, percent_encode};
use std::alloc::Global;
use sv_text::NoMemory;

// The bytes below 128 that are written as escapes, as are all bytes from 128 on.
const ESCAPED: AsciiSet = ascii_set!(NON_ALPHANUMERIC.remove(b'-').remove(b'_'));

/// Returns the name of the file of the sessions of the context at this path, without its ending: `ROOT` for the root
/// context, else the path without its first slash. ASCII letters, digits, `-` and `_` are unchanged, and every other
/// byte is `%` with two hexadecimal digits in upper case. The name of a path `/ROOT` is `%52OOT`. So no two context
/// paths have the same name, and none begins with a dot or has a slash.
///
/// # Errors
/// [`NoMemory`].
pub(crate) fn session_name(alloc: Global, path: &str) -> Result<String, NoMemory>
    ensures { IfOk result (λ name. string_bytes name ≡ spec.session_name path.now) }
{
    if path.is_empty() {
        return copied(alloc, "ROOT");
    }
    if path == "/ROOT" {
        return copied(alloc, "%52OOT");
    }
    let (_, rest) = path.as_bytes().split_at(1);
    escaped(alloc, rest)
}

fn copied(alloc: Global, text: &str) -> Result<String, NoMemory>
    ensures { IfOk result (λ copy. string_bytes copy ≡ text.now) }
{
    Ok(String::from_str(alloc, text)?)
}

fn escaped(alloc: Global, bytes: &[u8]) -> Result<String, NoMemory>
    ensures { IfOk result (λ name. string_bytes name ≡ spec.escaped bytes.now) }
{
    let mut name = String::with_capacity(alloc, bytes.len())?;
    percent_encode(bytes, ESCAPED).append_to(&mut name)?;
    Ok(name)
}

/// Two context paths with the same name are the same.
pub fn session_names_differ()
    ensures { spec.NamesDiffer }
{}
