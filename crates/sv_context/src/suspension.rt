//! Suspending a context.

ghost use Rattle.std.specs.Prelude.{List, length, vec_capacity, ◌++◌, ◌+◌, ◌≡◌, ◌≤◌};
ghost use Rattle.sv_component.specs.Steps.{steps_of};
ghost use Rattle.sv_context.specs.Room.{HasRoomToStop};
ghost use Rattle.sv_context.specs.Suspending.{Suspends, SuspendsAll};
ghost use Rattle.sv_lifecycle.specs.declared.suspended_context.SuspendedContext.{SuspendedContext as SuspendedData};
ghost use Rattle.sv_live.specs.declared.live.Parts.{Parts as PartsData};

use crate::context::Context;
use crate::responder::Responder;
use crate::room::StopRoom;
use crate::several::push;
use std::alloc::Global;
use std::collections::VecDeque;
use sv_component::{Filter, Listener, Servlet};
use sv_constraints::Constraint;
use sv_descriptor::Descriptor;
use sv_journal::Journal;
use sv_lifecycle::SuspendedContext;
use sv_live::Parts;
use sv_session::Sessions;
use sv_text::Listed;

impl<S: Servlet, F: Filter, L: Listener> Context<S, F, L> {
    /// Suspends a context: stops it, and returns its components, as the calls left them, and what a context of the same
    /// path can resume with. The components are destroyed and the listeners are notified of the stop, but no session
    /// ends (Jakarta Servlet 6.0, sections 2.3.4, 6.2.1 and 11.3.4). It allocates only for the journal; if that breaks,
    /// the stop continues.
    pub fn suspend(self, alloc: Global, journal: &mut Journal) -> (Parts<S, F, L>, SuspendedContext)
        ensures { Suspends (steps_of S.servlet_step F.filter_step L.listener_step) self journal.old result.0 result.1 journal.new }
    {
        let Context {
            responder,
            users,
            policy,
            sessions,
        } = self;
        let Responder {
            site,
            live,
            exchange: _,
        } = responder;
        let mut none = Sessions::new(alloc, 0, 0);
        let parts = live.stop(alloc, &mut none, journal);
        let (path, descriptor, _) = site.into_parts();
        let greatest = policy.greatest();
        let suspended = SuspendedContext {
            path,
            users,
            declared: declared_in(descriptor),
            constraints: Listed::from_vec(policy.into_constraints()),
            greatest,
            sessions,
        };
        (parts, suspended)
    }
}

// Returns the constraints that a descriptor declares.
fn declared_in(descriptor: Descriptor) -> Listed<Constraint>
    ensures { result ≡ descriptor.constraints }
{
    descriptor.into_web_app().constraints
}

/// The components of suspended contexts, what remains of them, and the journal.
#[derive(Drop)]
pub struct SuspendedContexts<S, F, L> {
    /// The components of each context, as the calls left them.
    pub parts: Vec<Parts<S, F, L>>,
    /// What contexts of the same paths can resume with.
    pub remains: Vec<SuspendedContext>,
    /// The journal of all calls and events. If it breaks, the contexts are suspended nevertheless.
    pub journal: Journal,
}

/// Suspends contexts in their order, with memory reserved for their stop. It allocates only for the journal, and
/// continues if an allocation fails.
pub fn suspend_all<S: Servlet, F: Filter, L: Listener>(
    alloc: Global,
    contexts: Vec<Context<S, F, L>>,
    stop: StopRoom<S, F, L>,
    journal: Journal,
) -> SuspendedContexts<S, F, L>
    requires { HasRoomToStop (length contexts.items) stop }
    ensures { SuspendsAll (steps_of S.servlet_step F.filter_step L.listener_step) contexts.items journal result.parts.items result.remains.items result.journal }
{
    let StopRoom {
        back: _,
        mut parts,
        mut remains,
    } = stop;
    let mut journal = journal;
    suspend_each(alloc, contexts, &mut parts, &mut remains, &mut journal);
    SuspendedContexts {
        parts,
        remains,
        journal,
    }
}

// Suspends contexts in their order, and appends their components and what remains of them to lists, which must have
// capacity for them.
fn suspend_each<S: Servlet, F: Filter, L: Listener>(
    alloc: Global,
    contexts: Vec<Context<S, F, L>>,
    parts: &mut Vec<Parts<S, F, L>>,
    remains: &mut Vec<SuspendedContext>,
    journal: &mut Journal,
)
    requires parts { length parts.old.items + length contexts.items ≤ vec_capacity parts.old }
    requires remains { length remains.old.items + length contexts.items ≤ vec_capacity remains.old }
    ensures { (stopped : List (PartsData S F L)) × (suspended : List SuspendedData)
        × SuspendsAll (steps_of S.servlet_step F.filter_step L.listener_step) contexts.items journal.old stopped suspended journal.new
        × (parts.new.items ≡ parts.old.items ++ stopped) × (remains.new.items ≡ remains.old.items ++ suspended) }
{
    let mut waiting = VecDeque::from_vec(contexts);
    while let Some(context) = waiting.pop_front() {
        let (stopped, suspended) = context.suspend(alloc, journal);
        push(parts, stopped);
        push(remains, suspended);
    }
}
