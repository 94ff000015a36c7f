//! Runs a script.

ghost use Rattle.sv_component.specs.Steps.{steps_of};
ghost use Rattle.std.specs.Prelude.{◌≡◌};
ghost use Rattle.sv_container.specs.Script.{EndsUnstarted, PrintsRefused, RunsScript, ended_by, fault_of};

use crate::container::Container;
use crate::running::Running;
use std::alloc::Global;
use sv_component::{Filter, Listener, Servlet};
use sv_journal::{Journal, NewCode, StartCode};
use sv_lifecycle::Deployment;
use sv_run::{CountedWords, RunFault};
use sv_script::{ReplayFault, print_start, run_started};
use sv_streams::{Sink, Source};
use sv_text::Text;

/// Runs a script. It starts a container of the deployments with [`CountedWords`], writes the text of the start, replays
/// the script, shuts the container down, and writes the text of the shutdown (Jakarta Servlet 6.0, sections 2.3, 11.3.3
/// and 11.3.4).
///
/// # Errors
/// [`RunFault`]. However the run ends, everything that was started is shut down. After `Script`, the text of the
/// shutdown is written; after `Start`, only the text of the start. Nothing is written after a failed write or after
/// memory has run out.
pub fn run_script<S: Servlet, F: Filter, L: Listener, I: Source, O: Sink>(
    alloc: Global,
    script: &mut I,
    output: &mut O,
    deployments: Vec<Deployment<S, F, L>>,
) -> Result<(), RunFault>
    ensures { RunsScript (steps_of S.servlet_step F.filter_step L.listener_step) I.makes O.makes deployments.items script.old output.old result script.new output.new }
{
    let mut started = Journal::new(alloc);
    match Container::new(alloc, deployments, CountedWords::new(), &mut started) {
        Ok(container) => {
            let running = Running { container };
            ended_by(run_started(alloc, &started, running, script, output))
        }
        Err(fault) => {
            let (code, context) = fault.into_cause();
            refuse(alloc, code, context, &started, output)
        }
    }
}

// Writes the text of a refused start, unless it ran out of memory.
fn refuse<O: Sink>(
    alloc: Global,
    code: NewCode,
    context: Text,
    started: &Journal,
    output: &mut O,
) -> Result<(), RunFault>
    ensures { EndsUnstarted O.makes code context started.now output.old result output.new }
{
    match code {
        NewCode::Start(StartCode::NoMemory) => Err(RunFault::NoMemory),
        NewCode::Start(StartCode::PartsMismatch) => {
            print_refused(alloc, code, context, started, output)
        }
        NewCode::Start(StartCode::InitFailed(_)) => {
            print_refused(alloc, code, context, started, output)
        }
        NewCode::DuplicateContext => print_refused(alloc, code, context, started, output),
        NewCode::TooManyContexts => print_refused(alloc, code, context, started, output),
    }
}

fn print_refused<O: Sink>(
    alloc: Global,
    code: NewCode,
    context: Text,
    started: &Journal,
    output: &mut O,
) -> Result<(), RunFault>
    ensures { PrintsRefused O.makes code context started.now output.old result output.new }
{
    match print_start(alloc, started, output) {
        Ok(()) => Err(RunFault::Start(code, context)),
        Err(fault) => Err(fault_of(fault)),
    }
}

// Returns the result of a run from the result of the replay of its script.
fn ended_by(played: Result<(), ReplayFault>) -> Result<(), RunFault>
    ensures { result ≡ ended_by played }
{
    match played {
        Ok(()) => Ok(()),
        Err(fault) => Err(fault_of(fault)),
    }
}

// Returns the fault of a run from the fault of the replay of its script.
fn fault_of(fault: ReplayFault) -> RunFault
    ensures { result ≡ fault_of fault }
{
    match fault {
        ReplayFault::Script(line) => RunFault::Script(line),
        ReplayFault::Output => RunFault::Output,
        ReplayFault::NoMemory => RunFault::NoMemory,
    }
}
