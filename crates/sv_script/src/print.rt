//! Writes the texts of a start and of a stop.

ghost use Rattle.std.specs.Prelude.{◌≡◌, true};
ghost use Rattle.sv_script.specs.Printed as texts;
ghost use Rattle.sv_script.specs.Whole.{Prints, PrintsOf, PrintsStop};

use crate::printed_texts::{shutdown_text, start_text};
use crate::replay_fault::ReplayFault;
use std::alloc::Global;
use sv_journal::{Entry, Journal};
use sv_streams::{Sink, write_all};

/// Writes the text of a start from its journal.
///
/// # Errors
/// `Output` if a write failed: part of the text may have been written. `NoMemory` if the journal is broken or memory
/// for the text ran out: nothing is written.
pub fn print_start<O: Sink>(
    alloc: Global,
    started: &Journal,
    output: &mut O,
) -> Result<(), ReplayFault>
    ensures { PrintsOf O.makes texts.start_text started.now output.old result output.new }
{
    if !started.whole() {
        return Err(ReplayFault::NoMemory);
    }
    print_start_of(alloc, started.entries(), output)
}

fn print_start_of<O: Sink>(
    alloc: Global,
    entries: &[Entry],
    output: &mut O,
) -> Result<(), ReplayFault>
    ensures { Prints O.makes (texts.start_text entries.now) output.old result output.new }
{
    let Ok(text) = start_text(alloc, entries) else {
        return Err(ReplayFault::NoMemory);
    };
    print(text.as_slice(), output)
}

/// Writes the text of a stop from its journal, unless the replay ended with a failed write or ran out of memory.
pub(crate) fn print_stop<O: Sink>(
    alloc: Global,
    played: Result<(), ReplayFault>,
    stopped: &Journal,
    output: &mut O,
) -> Result<(), ReplayFault>
    ensures { PrintsStop O.makes played stopped.now output.old result output.new }
{
    match played {
        Ok(()) => print_stopped(alloc, stopped, output),
        Err(ReplayFault::Script(line)) => match print_stopped(alloc, stopped, output) {
            Ok(()) => Err(ReplayFault::Script(line)),
            Err(fault) => Err(fault),
        },
        Err(ReplayFault::Output) => Err(ReplayFault::Output),
        Err(ReplayFault::NoMemory) => Err(ReplayFault::NoMemory),
    }
}

fn print_stopped<O: Sink>(
    alloc: Global,
    stopped: &Journal,
    output: &mut O,
) -> Result<(), ReplayFault>
    ensures { PrintsOf O.makes texts.shutdown_text stopped.now output.old result output.new }
{
    if !stopped.whole() {
        return Err(ReplayFault::NoMemory);
    }
    print_stop_of(alloc, stopped.entries(), output)
}

fn print_stop_of<O: Sink>(
    alloc: Global,
    entries: &[Entry],
    output: &mut O,
) -> Result<(), ReplayFault>
    ensures { Prints O.makes (texts.shutdown_text entries.now) output.old result output.new }
{
    let Ok(text) = shutdown_text(alloc, entries) else {
        return Err(ReplayFault::NoMemory);
    };
    print(text.as_slice(), output)
}

fn print<O: Sink>(text: &[u8], output: &mut O) -> Result<(), ReplayFault>
    ensures { Prints O.makes text.now output.old result output.new }
{
    match write_all(output, text) {
        Ok(()) => Ok(()),
        Err(_) => Err(ReplayFault::Output),
    }
}
