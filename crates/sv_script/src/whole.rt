//! The run of a script over a started handler.

ghost use Rattle.sv_script.specs.Whole.{PlaysOnce, RunsWhole};

use crate::print::{print_start, print_stop};
use crate::replay_fault::ReplayFault;
use crate::script_replay::replay;
use std::alloc::Global;
use sv_journal::Journal;
use sv_run::EventHandler;
use sv_streams::{Sink, Source};

/// A handler of a container's events that can be stopped.
pub trait Stops: EventHandler + Sized {
    ghost use Rattle.sv_journal.specs.Journal.{JournalState};

    /// The relation between the handler and the journal of its stop.
    ghost stops: { Self → JournalState → Type 0 };

    /// Stops, and returns the journal of the stop. A failed allocation does not interrupt it, but the journal is then
    /// broken.
    fn stop(self) -> Journal
        ensures { stops self result };
}

/// Runs a script over a handler that was started with that journal: writes the text of the start, replays the script,
/// stops the handler, and writes the text of the stop. It stops the handler in every case.
///
/// # Errors
/// A [`ReplayFault`]. After [`ReplayFault::Script`], which blames the script, the text of the stop is written.
/// Nothing is written after a failed write or after memory has run out.
pub fn run_started<R: Stops, I: Source, O: Sink>(
    alloc: Global,
    started: &Journal,
    handler: R,
    script: &mut I,
    output: &mut O,
) -> Result<(), ReplayFault>
    ensures { RunsWhole R.steps R.stops I.makes O.makes started.now handler script.old output.old result script.new output.new }
{
    let mut handler = handler;
    let begun = print_start(alloc, started, output);
    let played = play_once(alloc, begun, &mut handler, script, output);
    let stopped = handler.stop();
    print_stop(alloc, played, &stopped, output)
}

// Replays the script, if the text of the start was written.
fn play_once<R: EventHandler, I: Source, O: Sink>(
    alloc: Global,
    begun: Result<(), ReplayFault>,
    handler: &mut R,
    script: &mut I,
    output: &mut O,
) -> Result<(), ReplayFault>
    ensures { PlaysOnce R.steps I.makes O.makes begun handler.old script.old output.old result handler.new script.new output.new }
{
    match begun {
        Ok(()) => replay(alloc, handler, script, output),
        Err(fault) => Err(fault),
    }
}
