//! Replies to the commands at the control socket.

ghost use Rattle.std.specs.Prelude.{◌≡◌, ◌+◌, ◌++◌, ◌≤◌, [], length, vec_capacity};
ghost use Rattle.std.specs.Fmt.{decimal};
ghost use Rattle.sv_readiness.specs.Asking as spec;
ghost use Rattle.sv_script.specs.Printed as printed;
ghost use Rattle.sv_text.specs.Gives.{GivesAnswer};

use crate::control_commands::{Ask, ask_of, figures_text};
use itoa::Buffer;
use std::alloc::Global;
use sv_connection::{Figures, Queries};
use sv_policy::{Edit, EditFault};
use sv_run::{EventHandler, Happening, StepFault};
use sv_text::{Bytes, NoMemory, Text};

// Capacity for the reply to an edit, which has at most 34 bytes.
const EDITED_ROOM: usize = 64;

/// Returns the reply to a line other than `stop`, given without its line end. The handler takes an edit once, and the
/// reply is its number or the reason for its refusal. No other line is an event. The status shows the offset, which is
/// by how many seconds the wall clock is ahead. If memory for the reply runs out, the inner result is an error and the
/// handler has taken no event.
///
/// # Errors
/// The handler's [`StepFault`] for the edit.
pub(crate) fn reply<R: EventHandler + Queries>(
    alloc: Global,
    line: &[u8],
    figures: Figures,
    offset: i64,
    handler: &mut R,
) -> Result<Result<Bytes, NoMemory>, StepFault>
    ensures { spec.RepliesTo handler.old R.steps R.explains R.uncovers R.constrains R.stands figures offset (spec.ask_of line.now) result handler.new }
{
    match ask_of(alloc, line) {
        Ok(Ask::Status) => Ok(standing_text(alloc, figures, offset, handler)),
        Ok(Ask::Uncovered) => Ok(uncovered_text(alloc, handler)),
        Ok(Ask::Constraints) => Ok(constraints_text(alloc, handler)),
        Ok(Ask::Edit(path, edit)) => edit_reply(alloc, path.as_str(), &edit, handler),
        Ok(Ask::Explain(method, target, user)) => Ok(explain_text(
            alloc, &method, &target, &user, handler,
        )),
        Ok(Ask::Unknown) => Ok(Bytes::copy_of(alloc, b"unknown\n")),
        Err(NoMemory) => Ok(Err(NoMemory)),
    }
}

/// Returns the reply to a line when the handler takes no more events.
///
/// # Errors
/// Memory ran out.
pub(crate) fn last_text(
    alloc: Global,
    line: &[u8],
    figures: Figures,
    offset: i64,
) -> Result<Bytes, NoMemory>
    ensures { GivesAnswer result (spec.last_text line.now figures offset) }
{
    if line == b"status".as_slice() {
        return status_text(alloc, figures, offset, &None);
    }
    Bytes::copy_of(alloc, b"stopping\n")
}

// Returns the status of the connections, of the clock and of the handler.
fn standing_text<R: Queries>(
    alloc: Global,
    figures: Figures,
    offset: i64,
    handler: &R,
) -> Result<Bytes, NoMemory>
    ensures { GivesAnswer result (spec.status_line figures offset (R.stands handler.now)) }
{
    let stands = handler.standing(alloc)?;
    status_text(alloc, figures, offset, &stands)
}

// Formats the status line.
fn status_text(
    alloc: Global,
    figures: Figures,
    offset: i64,
    stands: &Option<Bytes>,
) -> Result<Bytes, NoMemory>
    ensures { GivesAnswer result (spec.status_line figures offset stands.now) }
{
    let mut line = figures_text(alloc, figures, offset)?.into_bytes();
    if let Some(text) = stands {
        line.extend_from_slice(text.as_slice())?;
    }
    line.push(b'\n')?;
    Ok(Bytes::from_vec(line))
}

// Returns the handler's list of uncovered methods.
fn uncovered_text<R: Queries>(alloc: Global, handler: &R) -> Result<Bytes, NoMemory>
    ensures { GivesAnswer result (spec.known_text (R.uncovers handler.now)) }
{
    known_text(alloc, handler.uncovered(alloc)?)
}

// Returns the handler's list of constraints.
fn constraints_text<R: Queries>(alloc: Global, handler: &R) -> Result<Bytes, NoMemory>
    ensures { GivesAnswer result (spec.known_text (R.constrains handler.now)) }
{
    known_text(alloc, handler.constraints(alloc)?)
}

// Returns the text, or `unknown` if there is none.
fn known_text(alloc: Global, said: Option<Bytes>) -> Result<Bytes, NoMemory>
    ensures { GivesAnswer result (spec.known_text said) }
{
    match said {
        Some(text) => Ok(text),
        None => Bytes::copy_of(alloc, b"unknown\n"),
    }
}

// Returns the handler's explanation of a request.
fn explain_text<R: Queries>(
    alloc: Global,
    method: &Text,
    target: &Bytes,
    user: &Option<Text>,
    handler: &R,
) -> Result<Bytes, NoMemory>
    ensures { GivesAnswer result (spec.known_text (R.explains handler.now method.now target.now user.now)) }
{
    let user = match user {
        Some(user) => Some(user.as_str()),
        None => None,
    };
    match handler.explain(alloc, method.as_str(), target.as_slice(), user) {
        Ok(said) => known_text(alloc, said),
        Err(NoMemory) => Err(NoMemory),
    }
}

// Passes an edit to the handler. The memory for the reply is reserved first.
fn edit_reply<R: EventHandler + Queries>(
    alloc: Global,
    path: &str,
    edit: &Edit,
    handler: &mut R,
) -> Result<Result<Bytes, NoMemory>, StepFault>
    ensures { spec.EditsTo handler.old R.steps path.now edit.now result handler.new }
{
    let Ok(mut text) = Vec::with_capacity(alloc, EDITED_ROOM) else {
        return Ok(Err(NoMemory));
    };
    let context = path;
    match handler.step(Happening::Edit { context, edit }) {
        Ok(reaction) => {
            push_edited(&mut text, reaction.edited);
            Ok(Ok(Bytes::from_vec(text)))
        }
        Err(fault) => Err(fault),
    }
}

// Appends the reply to an edit.
fn push_edited(text: &mut Vec<u8>, edited: Option<Result<u64, EditFault>>)
    requires none { text.old.items ≡ [] }
    requires room { EDITED_ROOM ≤ vec_capacity text.old }
    ensures { text.new.items ≡ printed.edited_lines edited }
{
    match edited {
        None => {}
        Some(Ok(number)) => push_number(text, b"edited ", number),
        Some(Err(fault)) => push_number(text, b"edit refused ", edit_code(fault)),
    }
}

// Appends a line of a word and a number.
fn push_number(text: &mut Vec<u8>, word: &[u8], number: u64)
    requires none { text.old.items ≡ [] }
    requires short { length word.now ≤ 16 }
    requires room { EDITED_ROOM ≤ vec_capacity text.old }
    ensures { text.new.items ≡ printed.line_of (word.now ++ decimal number) }
{
    let mut digits = Buffer::new();
    push_all(text, word);
    push_all(text, digits.format(number).as_bytes());
    push_all(text, b"\n");
}

// Appends bytes within the reserved capacity.
fn push_all(text: &mut Vec<u8>, bytes: &[u8])
    requires { length text.old.items + length bytes.now ≤ vec_capacity text.old }
    ensures items { text.new.items ≡ text.old.items ++ bytes.now }
    ensures room { vec_capacity text.old ≤ vec_capacity text.new }
{
    // The capacity suffices, so this cannot fail.
    let _room = text.extend_from_slice(bytes);
}

// Returns the number that reports a fault of an edit.
fn edit_code(fault: EditFault) -> u64
    ensures { result ≡ printed.edit_code fault }
{
    match fault {
        EditFault::NoSuch => 1,
        EditFault::TooMany => 2,
        EditFault::NumberSpent => 3,
        EditFault::NoMemory => 4,
    }
}
