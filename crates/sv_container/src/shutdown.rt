//! Stops a container.

ghost use Rattle.sv_component.specs.Steps.{steps_of};
ghost use Rattle.std.specs.Prelude.{◌≡◌, map};
ghost use Rattle.sv_container.specs.Container.{state_of};
ghost use Rattle.sv_container.specs.Stopping.{ShutsDown, contexts_to_stop, journal_to_stop};
ghost use Rattle.sv_context.specs.Forgetting.{without_sessions};
ghost use Rattle.sv_run.specs.Host as hosts;

use crate::container::Container;
use std::alloc::Global;
use sv_component::{Filter, Listener, Servlet};
use sv_context::{Context, Shutdown, undeploy_all};
use sv_journal::Journal;
use sv_mapping::HasContextPath;
use sv_run::Host;
use sv_text::NoMemory;

impl<S: Servlet, F: Filter, L: Listener, W: Drop> Container<S, F, L, W> {
    /// Stops the contexts in order, and returns their components (Jakarta Servlet 6.0, sections 2.3.4, 6.2.1 and
    /// 11.3.4). It allocates only for the journal, and a failed allocation does not interrupt it. After an event that
    /// ran out of memory, it notifies nothing about sessions.
    pub fn shutdown(self) -> Shutdown<S, F, L>
        ensures { ShutsDown (steps_of S.servlet_step F.filter_step L.listener_step) (state_of self) result.parts.items result.journal }
    {
        let Container { alloc, host, stop } = self;
        let journal = journal_to_stop(alloc, &host);
        let contexts = contexts_to_stop(alloc, host);
        undeploy_all(alloc, contexts, stop, journal)
    }
}

// Returns the journal of a shutdown, a broken one if an event ran out of memory.
fn journal_to_stop<C: HasContextPath, W>(alloc: Global, host: &Host<C, W>) -> Journal
    ensures { result ≡ journal_to_stop (hosts.state_of host.now).stopped }
{
    let mut journal = Journal::new(alloc);
    if host.is_stopped() {
        journal.note(Err(NoMemory));
    }
    journal
}

// Returns the contexts to stop, without their sessions if an event ran out of memory.
fn contexts_to_stop<S: Servlet, F: Filter, L: Listener, W: Drop>(
    alloc: Global,
    host: Host<Context<S, F, L>, W>,
) -> Vec<Context<S, F, L>>
    ensures { result.items ≡ contexts_to_stop (hosts.state_of host).stopped (hosts.state_of host).world.contexts }
{
    if !host.is_stopped() {
        return host.into_contexts();
    }
    let mut contexts = host.into_contexts();
    forget_sessions(alloc, contexts.as_mut_slice());
    contexts
}

// Ends the sessions of contexts without notifying listeners.
fn forget_sessions<S: Servlet, F: Filter, L: Listener>(
    alloc: Global,
    contexts: &mut [Context<S, F, L>],
)
    ensures { contexts.new ≡ map without_sessions contexts.old }
{
    for place in 0..contexts.len() {
        contexts[place].forget_sessions(alloc);
    }
}
