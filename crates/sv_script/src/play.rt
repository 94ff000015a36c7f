//! Plays one line of a script, and writes the text of its reaction.

ghost use Rattle.std.specs.Prelude.{◌<◌, ◌^◌, ◌≤◌};
ghost use Rattle.sv_run.specs.Seen.{happening_of};
ghost use Rattle.sv_script.specs.Asked.{reaction_text};
ghost use Rattle.sv_script.specs.PlaySteps.{PlaysLine, Prints, Reads, TakesEvent};

use crate::events::{event_of, moment_behind};
use crate::line::{LineFault, ScriptLine, read_line};
use crate::printed_texts::event_text;
use crate::replay_fault::{ReplayFault, fault_of};
use std::alloc::Global;
use sv_run::{EventHandler, Happening, Reaction};
use sv_streams::{Sink, write_all};

/// Plays a line: the handler handles the event that the line asks for, and the text of its reaction is written.
///
/// # Errors
/// A [`ReplayFault`]. The course must not be used afterwards.
pub(crate) fn play<R: EventHandler, O: Sink>(
    alloc: Global,
    course: &mut Course,
    handler: &mut R,
    line: &[u8],
    output: &mut O,
) -> Result<(), ReplayFault>
    requires room { course.old.lines < 2 ^ 63 }
    requires counted { course.old.events ≤ course.old.lines }
    ensures { PlaysLine R.steps O.makes course.old handler.old output.old line.now result course.new handler.new output.new }
{
    let said = match said_in(alloc, line, course.lines + 1) {
        Ok(said) => said,
        Err(fault) => return Err(fault),
    };
    let accepted = match event_of(&said, course.moment) {
        Some(event) => match take_event(alloc, course, handler, event, output) {
            Ok(()) => 1,
            Err(fault) => return Err(fault),
        },
        None => 0,
    };
    *course = Course {
        moment: moment_behind(&said, course.moment),
        lines: course.lines + 1,
        events: course.events + accepted,
    };
    Ok(())
}

// Reads the line with that number.
fn said_in(alloc: Global, line: &[u8], number: u64) -> Result<ScriptLine, ReplayFault>
    ensures { Reads number line.now result }
{
    match read_line(alloc, line) {
        Ok(said) => Ok(said),
        Err(LineFault::Unreadable) => Err(ReplayFault::Script(number)),
        Err(LineFault::NoMemory) => Err(ReplayFault::NoMemory),
    }
}

// Lets the handler handle an event, and writes the text of the reaction.
fn take_event<R: EventHandler, O: Sink>(
    alloc: Global,
    course: &Course,
    handler: &mut R,
    event: Happening,
    output: &mut O,
) -> Result<(), ReplayFault>
    requires room { course.now.lines < 2 ^ 63 }
    requires counted { course.now.events ≤ course.now.lines }
    ensures { TakesEvent R.steps O.makes course.now handler.old output.old (happening_of event.entry) result handler.new output.new }
{
    match handler.step(event) {
        Ok(reaction) => print(alloc, course.events + 1, &reaction, output),
        Err(refusal) => Err(fault_of(course.lines + 1, refusal)),
    }
}

// Writes the text of an accepted event with its number.
fn print<O: Sink>(
    alloc: Global,
    number: u64,
    reaction: &Reaction,
    output: &mut O,
) -> Result<(), ReplayFault>
    ensures { Prints O.makes (reaction_text number reaction.now) output.old result output.new }
{
    let Ok(sends) = reaction.sends.copied(alloc) else {
        return Err(ReplayFault::NoMemory);
    };
    let text = match event_text(
        alloc,
        number,
        reaction.journal.entries(),
        sends.as_slice(),
        reaction.closes,
        reaction.edited,
    ) {
        Ok(text) => text,
        Err(_) => return Err(ReplayFault::NoMemory),
    };
    match write_all(output, text.as_slice()) {
        Ok(()) => Ok(()),
        Err(_) => Err(ReplayFault::Output),
    }
}

/// The progress of a replay. It begins with zeros.
#[derive(Clone, Copy)]
pub(crate) struct Course {
    /// The last time that a line set, in seconds since 1970.
    pub moment: u64,
    /// The number of lines played.
    pub lines: u64,
    /// The number of events accepted.
    pub events: u64,
}
