//! Parses the commands of the control socket.

ghost use Rattle.std.specs.Prelude.{◌≡◌, string_bytes, take, IfOk, Ok, Some};
ghost use Rattle.sv_readiness.specs.Asking as spec;
ghost use Rattle.sv_script.specs.Fields as fields;
ghost use Rattle.sv_script.specs.Line as script;
ghost use Rattle.sv_text.specs.Gives.{GivesAnswer};

use crate::limits::MAX_LINE_BYTES;
use std::alloc::{AllocError, Global};
use std::fmt;
use sv_connection::Figures;
use sv_policy::Edit;
use sv_script::{LineFault, ScriptLine, at_blank, read_line, text_of};
use sv_text::{Bytes, NoMemory, Text};

/// A command other than `stop`.
#[derive(Drop)]
pub(crate) enum Ask {
    /// Show the status.
    Status,
    /// List the methods that the security constraints leave uncovered.
    Uncovered,
    /// List the security constraints in force.
    Constraints,
    /// Explain what would happen to a request with this method and target, from this user or without a caller.
    Explain(Text, Bytes, Option<Text>),
    /// Edit the security constraints of the context with this path.
    Edit(Text, Edit),
    /// Any other line.
    Unknown,
}

/// Returns the place of the first line end, if it is within the first [`MAX_LINE_BYTES`] bytes.
pub(crate) fn line_end(bytes: &[u8]) -> Option<usize>
    ensures { result ≡ spec.line_end bytes.now }
{
    front_of(bytes).iter().position(|b| *b == b'\n')
}

// Returns the first `MAX_LINE_BYTES` bytes, or all bytes if there are fewer.
fn front_of(bytes: &[u8]) -> &[u8]
    ensures { result.now ≡ take MAX_LINE_BYTES bytes.now }
{
    if bytes.len() <= MAX_LINE_BYTES {
        return bytes;
    }
    bytes.split_at(MAX_LINE_BYTES).0
}

/// Whether a line, given without its line end, is the command `stop`.
pub(crate) fn asks_to_stop(line: &[u8]) -> bool
    ensures { result ≡ spec.asks_to_stop line.now }
{
    line == b"stop".as_slice()
}

/// Returns the command of any other line, given without its line end.
///
/// # Errors
/// Memory ran out.
pub(crate) fn ask_of(alloc: Global, line: &[u8]) -> Result<Ask, NoMemory>
    ensures { GivesAnswer result (spec.ask_of line.now) }
{
    if line == b"status".as_slice() {
        return Ok(Ask::Status);
    }
    if line == b"uncovered".as_slice() {
        return Ok(Ask::Uncovered);
    }
    if line == b"constraints".as_slice() {
        return Ok(Ask::Constraints);
    }
    match explain_of(alloc, line) {
        Ok(Some(ask)) => Ok(ask),
        Ok(None) => edit_of(alloc, line),
        Err(NoMemory) => Err(NoMemory),
    }
}

// Parses `explain METHOD TARGET` or `explain METHOD TARGET USER`.
fn explain_of(alloc: Global, line: &[u8]) -> Result<Option<Ask>, NoMemory>
    ensures { GivesAnswer result (spec.explain_of line.now) }
{
    let Some((word, rest)) = at_blank(line) else {
        return Ok(None);
    };
    if word != b"explain".as_slice() {
        return Ok(None);
    }
    explaining(alloc, rest)
}

// Parses the arguments of `explain`.
fn explaining(alloc: Global, rest: &[u8]) -> Result<Option<Ask>, NoMemory>
    ensures { GivesAnswer result (spec.explaining rest.now) }
{
    let Some((method, rest)) = at_blank(rest) else {
        return Ok(None);
    };
    let Some(method) = copied(alloc, method)? else {
        return Ok(None);
    };
    explaining_of(alloc, method, rest)
}

// Parses the target and the user of `explain`, which follow the method.
fn explaining_of(alloc: Global, method: Text, rest: &[u8]) -> Result<Option<Ask>, NoMemory>
    ensures { GivesAnswer result (spec.explaining_of method rest.now (fields.at_blank rest.now)) }
{
    let Some((target, user)) = at_blank(rest) else {
        let target = Bytes::copy_of(alloc, rest)?;
        return Ok(Some(Ask::Explain(method, target, None)));
    };
    let Some(user) = copied(alloc, user)? else {
        return Ok(None);
    };
    let target = Bytes::copy_of(alloc, target)?;
    Ok(Some(Ask::Explain(method, target, Some(user))))
}

// Returns a copy of the bytes as text, if they are UTF-8.
fn copied(alloc: Global, bytes: &[u8]) -> Result<Option<Text>, NoMemory>
    ensures { GivesAnswer result (fields.text_of bytes.now) }
{
    let Some(text) = text_of(bytes) else {
        return Ok(None);
    };
    Ok(Some(Text::copy_of(alloc, text)?))
}

// Parses `append` and `withdraw`, which have the syntax of a script.
fn edit_of(alloc: Global, line: &[u8]) -> Result<Ask, NoMemory>
    ensures { GivesAnswer result (spec.script_ask (script.asked line.now)) }
{
    match read_line(alloc, line) {
        Ok(read) => Ok(script_ask(read)),
        Err(LineFault::Unreadable) => Ok(Ask::Unknown),
        Err(LineFault::NoMemory) => Err(NoMemory),
    }
}

// Accepts only the edits among the lines of a script.
fn script_ask(line: ScriptLine) -> Ask
    ensures { result ≡ spec.script_ask (Ok line) }
{
    match line {
        ScriptLine::Edit(path, edit) => Ask::Edit(path, edit),
        ScriptLine::Nothing => Ask::Unknown,
        ScriptLine::Open(_) => Ask::Unknown,
        ScriptLine::Send(..) => Ask::Unknown,
        ScriptLine::End(_) => Ask::Unknown,
        ScriptLine::Lost(_) => Ask::Unknown,
        ScriptLine::Tick(_) => Ask::Unknown,
    }
}

/// Returns the figures of the connections and the offset of the wall clock in seconds, each after its name.
///
/// # Errors
/// Memory ran out.
pub(crate) fn figures_text(
    alloc: Global,
    figures: Figures,
    offset: i64,
) -> Result<String, AllocError>
    ensures { IfOk result (λ text. string_bytes text ≡ spec.figures_text figures offset) }
{
    let shown = Shown(figures, offset);
    format!(in alloc; "{shown}")
}

// Displays the figures of the connections and the offset of the wall clock.
#[derive(Clone, Copy)]
struct Shown(Figures, i64);

impl fmt::Display for Shown {
    ghost output = { λ shown. Some (spec.figures_text shown.0 shown.1) };

    fn fmt<W: fmt::Write>(&self, f: &mut fmt::Formatter<W>) -> fmt::Result {
        let Figures {
            connections,
            writing,
            held,
            opened,
        } = self.0;
        let offset = self.1;
        write!(
            f,
            "connections {connections} writing {writing} held {held} opened {opened} clock {offset}"
        )
    }
}
