//! The lines of a script.

ghost use Rattle.std.specs.Prelude.{◌≡◌};
ghost use Rattle.sv_script.specs.Line as spec;
ghost use Rattle.sv_script.specs.declared.line.LineFault.TheVariants as fault;
ghost use Rattle.sv_text.specs.Gives.{Gives, GivesAnswer};

use crate::edit_lines::{appending, withdrawing};
use crate::escape::unescaped;
use crate::fields::{at_blank, number};
use std::alloc::{AllocError, AllocFailed, Global};
use sv_policy::Edit;
use sv_text::{Bytes, NoMemory, Text};

/// The request that a line of a script makes.
#[derive(Drop)]
pub enum ScriptLine {
    /// Nothing: the line is empty, or a comment, which begins with `#`.
    Nothing,
    /// `open C`: the connection with this number opens.
    Open(u64),
    /// `send C TEXT`: the bytes of the text, possibly none, arrive on the connection with this number.
    Send(u64, Bytes),
    /// `end C`: the peer of the connection with this number ends its stream.
    End(u64),
    /// `lost C`: the connection with this number is lost.
    Lost(u64),
    /// `tick M`: the time is M, in seconds since 1970.
    Tick(u64),
    /// `append CONTEXT PATTERN METHODS ROLES` and `withdraw CONTEXT N`: the constraints of the context with this path
    /// are edited. The root is written as `/` or as nothing. METHODS is `*`, or names with commas between them, or `!`
    /// and the names of the methods that are left out. ROLES is `open` for everyone, `nobody`, or names. The transport
    /// is absent.
    Edit(Text, Edit),
}

/// Reads a line, which is given without its line feed. Single blanks separate the fields. A number is one or more
/// decimal digits, and is below 2^64. A text is the rest of the line, blanks included.
///
/// # Errors
/// [`LineFault::Unreadable`] if the line has none of the forms, and [`LineFault::NoMemory`].
pub fn read_line(alloc: Global, line: &[u8]) -> Result<ScriptLine, LineFault>
    ensures { Gives spec.line_fault result (spec.asked line.now) }
{
    if is_skipped(line) {
        return Ok(ScriptLine::Nothing);
    }
    match spoken(alloc, line)? {
        Some(asked) => Ok(asked),
        None => Err(LineFault::Unreadable),
    }
}

fn is_skipped(line: &[u8]) -> bool
    ensures { result ≡ spec.is_skipped line.now }
{
    match line.first() {
        Some(first) => *first == b'#',
        None => true,
    }
}

fn spoken(alloc: Global, line: &[u8]) -> Result<Option<ScriptLine>, NoMemory>
    ensures { GivesAnswer result (spec.spoken line.now) }
{
    match at_blank(line) {
        Some((word, rest)) => asked_by(alloc, word, rest),
        None => Ok(None),
    }
}

fn asked_by(alloc: Global, word: &[u8], rest: &[u8]) -> Result<Option<ScriptLine>, NoMemory>
    ensures { GivesAnswer result (spec.asked_by word.now rest.now) }
{
    if word == b"open".as_slice() {
        Ok(number(rest).map(ScriptLine::Open))
    } else if word == b"send".as_slice() {
        piece(alloc, rest)
    } else if word == b"end".as_slice() {
        Ok(number(rest).map(ScriptLine::End))
    } else if word == b"lost".as_slice() {
        Ok(number(rest).map(ScriptLine::Lost))
    } else if word == b"tick".as_slice() {
        Ok(number(rest).map(ScriptLine::Tick))
    } else if word == b"append".as_slice() {
        appending(alloc, rest)
    } else if word == b"withdraw".as_slice() {
        withdrawing(alloc, rest)
    } else {
        Ok(None)
    }
}

fn piece(alloc: Global, rest: &[u8]) -> Result<Option<ScriptLine>, NoMemory>
    ensures { GivesAnswer result (spec.piece rest.now) }
{
    let Some((connection, text)) = at_blank(rest) else {
        return Ok(None);
    };
    let Some(connection) = number(connection) else {
        return Ok(None);
    };
    let Some(bytes) = unescaped(alloc, text)? else {
        return Ok(None);
    };
    Ok(Some(ScriptLine::Send(connection, bytes)))
}

/// The reason why a line of a script cannot be read.
#[derive(Clone, Copy, Debug, PartialEq, Eq)]
pub enum LineFault {
    /// The line has none of the forms of a script's lines.
    Unreadable,
    /// Memory ran out.
    NoMemory,
}

impl From<NoMemory> for LineFault {
    ghost from_gives = { λ _ e. e ≡ fault.NoMemory };

    fn from(_refusal: NoMemory) -> LineFault {
        LineFault::NoMemory
    }
}
