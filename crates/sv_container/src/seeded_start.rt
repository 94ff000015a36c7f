//! Starts a container with the random words of a seed.

ghost use Rattle.sv_component.specs.Steps.{steps_of};
ghost use Rattle.std.specs.Prelude.{◌≡◌, length};
ghost use Rattle.sv_container.specs.SeededStart as spec;

use crate::container::Container;
use crate::suspension::Suspension;
use std::alloc::Global;
use sv_component::{Filter, Listener, Servlet};
use sv_journal::{Journal, NewCode, StartCode};
use sv_lifecycle::{Deployment, SuspendedContext};
use sv_program::CommandFault;
use sv_run::SeededWords;
use sv_text::Text;

/// Starts a container with deployments and the random words of a seed of 32 bytes.
///
/// # Errors
/// [`CommandFault::Start`] or [`CommandFault::NoMemory`]. The contexts that had started are stopped.
pub fn start<S: Servlet, F: Filter, L: Listener>(
    alloc: Global,
    deployments: Vec<Deployment<S, F, L>>,
    seed: &[u8],
) -> Result<Container<S, F, L, SeededWords>, CommandFault>
    requires { length seed.now ≡ 32 }
    ensures { spec.StartsWith (steps_of S.servlet_step F.filter_step L.listener_step) deployments.items seed.now result }
{
    let mut journal = Journal::new(alloc);
    let started = Container::new(
        alloc,
        deployments,
        SeededWords::from_seed(seed),
        &mut journal,
    );
    journal.let_go();
    match started {
        Ok(container) => Ok(container),
        Err(fault) => {
            let (code, context) = fault.into_cause();
            Err(start_fault(code, context))
        }
    }
}

/// Starts a container as [`start`] does, and resumes it with what remains of an earlier one. Returns it with the suspended
/// contexts of which no context took anything.
///
/// # Errors
/// Those of [`start`]. The suspension is dropped.
pub fn start_resumed<S: Servlet, F: Filter, L: Listener>(
    alloc: Global,
    deployments: Vec<Deployment<S, F, L>>,
    seed: &[u8],
    suspension: Suspension,
) -> Result<(Container<S, F, L, SeededWords>, Vec<SuspendedContext>), CommandFault>
    requires { length seed.now ≡ 32 }
    ensures { spec.ResumesWith (steps_of S.servlet_step F.filter_step L.listener_step) deployments.items seed.now suspension result }
{
    let mut journal = Journal::new(alloc);
    let started = Container::resume(
        alloc,
        deployments,
        suspension,
        SeededWords::from_seed(seed),
        &mut journal,
    );
    journal.let_go();
    match started {
        Ok(resumed) => Ok(resumed),
        Err(fault) => {
            let (code, context) = fault.into_cause();
            Err(start_fault(code, context))
        }
    }
}

// Returns the fault of a container that did not start.
fn start_fault(code: NewCode, context: Text) -> CommandFault
    ensures { result ≡ spec.start_fault code context }
{
    match code {
        NewCode::Start(StartCode::NoMemory) => CommandFault::NoMemory,
        NewCode::Start(StartCode::PartsMismatch) => CommandFault::Start { code, context },
        NewCode::Start(StartCode::InitFailed(_)) => CommandFault::Start { code, context },
        NewCode::DuplicateContext => CommandFault::Start { code, context },
        NewCode::TooManyContexts => CommandFault::Start { code, context },
    }
}
