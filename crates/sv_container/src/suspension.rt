//! Suspends a container.

ghost use Rattle.sv_component.specs.Steps.{steps_of};
ghost use Rattle.std.specs.Prelude.{None, ◌≡◌};
ghost use Rattle.sv_container.specs.Container.{state_of};
ghost use Rattle.sv_container.specs.Suspending.{Suspends};

use crate::container::Container;
use std::alloc::Global;
use sv_component::{Filter, Listener, Servlet};
use sv_context::{Shutdown, SuspendedContexts, suspend_all};
use sv_journal::Journal;
use sv_lifecycle::SuspendedContext;
use sv_live::Parts;

/// What a later container can resume with, in this program or another one.
#[derive(Drop)]
pub struct Suspension {
    /// The time of the container, in seconds since 1970. No session was accessed later.
    pub moment: u64,
    /// What remains of its contexts.
    pub contexts: Vec<SuspendedContext>,
}

/// The components and the journal of a suspended container, and what a later one can resume with.
#[derive(Drop)]
pub struct Suspended<S, F, L> {
    /// The components of each context, as the calls left them.
    pub parts: Vec<Parts<S, F, L>>,
    /// What a later container can resume with. None if an event ran out of memory.
    pub suspension: Option<Suspension>,
    /// The journal of all calls and events. It is broken if an event ran out of memory.
    pub journal: Journal,
}

impl<S: Servlet, F: Filter, L: Listener> Suspended<S, F, L> {
    /// Returns what a later container can resume with, and drops the rest.
    pub fn into_suspension(self) -> Option<Suspension>
        ensures { result ≡ self.suspension }
    {
        self.suspension
    }
}

impl<S: Servlet, F: Filter, L: Listener, W: Drop> Container<S, F, L, W> {
    /// Stops the contexts in order, as [`shutdown`](Container::shutdown) does, but no session ends: components are
    /// destroyed and listeners are notified that contexts stop, and of no session (Jakarta Servlet 6.0, sections 2.3.4,
    /// 6.2.1 and 11.3.4). Returns what a later container can resume with: users, constraints as edits left them,
    /// sessions and the time. It allocates only for the journal, and a failed allocation does not interrupt it. After an
    /// event that ran out of memory, it is a shutdown, and nothing remains.
    pub fn suspend(self) -> Suspended<S, F, L>
        ensures { Suspends (steps_of S.servlet_step F.filter_step L.listener_step) (state_of self) result.parts.items result.suspension result.journal }
    {
        if self.host.is_stopped() {
            return nothing_remains(self.shutdown());
        }
        let Container { alloc, host, stop } = self;
        let moment = host.moment();
        let contexts = host.into_contexts();
        let SuspendedContexts {
            parts,
            remains,
            journal,
        } = suspend_all(alloc, contexts, stop, Journal::new(alloc));
        Suspended {
            parts,
            suspension: Some(Suspension {
                moment,
                contexts: remains,
            }),
            journal,
        }
    }
}

// Returns the result of a shutdown of which nothing remains.
fn nothing_remains<S, F, L>(shutdown: Shutdown<S, F, L>) -> Suspended<S, F, L>
    ensures parts { result.parts ≡ shutdown.parts }
    ensures suspension { result.suspension ≡ None }
    ensures journal { result.journal ≡ shutdown.journal }
{
    let Shutdown { parts, journal } = shutdown;
    Suspended {
        parts,
        suspension: None,
        journal,
    }
}
