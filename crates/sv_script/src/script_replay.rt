//! The replay of a script.

ghost use Rattle.sv_script.specs.Replay.{Replays};

use crate::play::{Course, play};
use crate::replay_fault::ReplayFault;
use std::alloc::Global;
use sv_run::EventHandler;
use sv_streams::{LineReader, LinesFault, Sink, Source};

/// Replays a script: reads its lines in order, lets the handler handle each event that they ask for, and writes the
/// text of each accepted event before it reads the next line. The time of a piece is the last one that a line set, or
/// 0.
///
/// # Errors
/// A [`ReplayFault`].
pub fn replay<R: EventHandler, I: Source, O: Sink>(
    alloc: Global,
    handler: &mut R,
    script: &mut I,
    output: &mut O,
) -> Result<(), ReplayFault>
    ensures { Replays R.steps I.makes O.makes handler.old script.old output.old result handler.new script.new output.new }
{
    let mut lines = LineReader::new(alloc);
    let mut course = Course {
        moment: 0,
        lines: 0,
        events: 0,
    };
    loop {
        match lines.next_line(script) {
            Ok(Some(line)) => match play(alloc, &mut course, handler, line.as_slice(), output) {
                Ok(()) => {}
                Err(fault) => return Err(fault),
            },
            Ok(None) => return Ok(()),
            Err(LinesFault::ReadFailed) => return Err(ReplayFault::Script(course.lines + 1)),
            Err(LinesFault::TooManyReads) => return Err(ReplayFault::Script(course.lines + 1)),
            Err(LinesFault::NoMemory) => return Err(ReplayFault::NoMemory),
        }
    }
}
