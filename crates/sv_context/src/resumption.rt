//! What contexts resume with, taken from suspended ones.

ghost use Rattle.std.specs.Prelude.{IfOk, IfSome, OnErr, length, ◌<◌, ◌≡◌};
ghost use Rattle.sv_context.specs.Resuming.{IsOf, Takes, TakesAll, constraints_resumed, place_of_path};
ghost use Rattle.sv_policy.specs.Resuming.{Resumes as ResumesConstraints};

use std::alloc::Global;
use sv_component::{Filter, Listener, Servlet};
use sv_descriptor::Descriptor;
use sv_lifecycle::{Deployment, SuspendedContext};
use sv_policy::{EditFault, EditedConstraints, Policy};
use sv_realm::Realm;
use sv_session::Sessions;
use sv_text::NoMemory;

/// What a context resumes with: the sessions of a suspended context, the users that their callers are, and compiled
/// constraints.
#[derive(Drop)]
pub struct Resumption {
    /// The users when it was suspended.
    pub users: Realm,
    /// The constraints, compiled.
    pub policy: Policy,
    /// The sessions.
    pub sessions: Sessions,
}

impl Resumption {
    /// Takes from the list what remains of a context with the path of a deployment: the first with this path, and
    /// compiles the constraints with which it resumes. Returns `None` if there is none, or if its constraints do not fit
    /// beside those that the descriptor declares now; then nothing is taken.
    ///
    /// # Errors
    /// `NoMemory` if an allocation fails; then nothing is taken.
    pub fn take<S: Servlet, F: Filter, L: Listener>(
        alloc: Global,
        deployment: &Deployment<S, F, L>,
        suspended: &mut Vec<SuspendedContext>,
    ) -> Result<Option<Resumption>, NoMemory>
        ensures taken { IfOk result (λ taken. Takes deployment.now suspended.old.items taken suspended.new.items) }
        ensures refused { OnErr result (suspended.new.items ≡ suspended.old.items) }
    {
        let Some(place) = place_of(suspended.as_slice(), deployment.path.as_str()) else {
            return Ok(None);
        };
        match constraints_of(alloc, &deployment.descriptor, &suspended[place]) {
            Ok(policy) => Ok(Some(with(policy, suspended.remove(place)))),
            Err(EditFault::NoMemory) => Err(NoMemory),
            Err(_) => Ok(None),
        }
    }
}

// Returns the index of the first suspended context with this path.
fn place_of(suspended: &[SuspendedContext], path: &str) -> Option<usize>
    ensures bound { IfSome result (λ place. place < length suspended.now) }
    ensures place { result ≡ place_of_path path.now suspended.now }
{
    suspended.iter().position(|one| one.path.as_str() == path)
}

// Compiles the constraints with which a context of the descriptor resumes.
fn constraints_of(
    alloc: Global,
    descriptor: &Descriptor,
    suspended: &SuspendedContext,
) -> Result<Policy, EditFault>
    ensures { ResumesConstraints (constraints_resumed descriptor.now suspended.now) result }
{
    let app = descriptor.web_app();
    let edited = EditedConstraints {
        declared: suspended.declared.as_slice(),
        constraints: suspended.constraints.as_slice(),
        greatest: suspended.greatest,
    };
    Policy::resume(alloc, app.constraints.as_slice(), &app.rules, edited)
}

// Returns the resumption with these constraints.
fn with(policy: Policy, suspended: SuspendedContext) -> Resumption
    ensures { IsOf suspended policy result }
{
    Resumption {
        users: suspended.users,
        policy,
        sessions: suspended.sessions,
    }
}

/// Takes what remains of the contexts of deployments, one after another. The rest is left in the list.
///
/// # Errors
/// `NoMemory` if an allocation fails; then some may have been taken, and are dropped.
pub fn take_all<S: Servlet, F: Filter, L: Listener>(
    alloc: Global,
    deployments: &[Deployment<S, F, L>],
    suspended: &mut Vec<SuspendedContext>,
) -> Result<Vec<Option<Resumption>>, NoMemory>
    ensures { IfOk result (λ taken. TakesAll deployments.now suspended.old.items taken.items suspended.new.items) }
{
    let mut taken = Vec::with_capacity(alloc, deployments.len())?;
    for deployment in deployments {
        taken.push(Resumption::take(alloc, deployment, suspended)?)?;
    }
    Ok(taken)
}
