//! The theorem over every run, for our contexts.

ghost use Rattle.sv_component.specs.Steps.{steps_of};
ghost use Rattle.sv_headline.specs.Record.{EveryLawfulRunIsARun, EveryRunIsLawful};
ghost use Rattle.sv_headline.specs.Until.{EveryRunIsLawfulUntilRefused};

use sv_component::{Filter, Listener, Servlet, runs_are_journalled, runs_move_components};
use sv_context::Context;
use sv_login::just_one_case_holds;
use sv_run::{Words, want_of_memory_stops};

/// Every run over a list of events is lawful, until memory runs out. Its events have transitions, one after another:
///
/// - First the sessions that have expired end, in every context, and each end is notified to the listeners.
/// - Then each message that the bytes complete is answered. The context whose path serves its target handles it, as that
///   context is at that moment. The message enters exactly if its path is not hidden, it is no login post, and the
///   constraints allow it: the combined constraints of that moment, applied to its method, its path and the caller of its
///   session (Jakarta Servlet 6.0, section 13.8). Every other message has a named cause. Bytes are refused only if they
///   have that fault.
/// - An edit changes the constraints of its context. Nothing else does.
///
/// The journal notes the outcome of each message and then its calls, and nothing else. The bytes that are sent are the
/// texts of the responses. The sessions are those that accesses, expiries, logins and the exchanges of requests leave. Each
/// component is moved by exactly its calls, in their order.
pub fn every_run_is_lawful<S: Servlet, F: Filter, L: Listener, W: Words>()
    ensures { EveryRunIsLawful (steps_of S.servlet_step F.filter_step L.listener_step) W.draws }
{
    runs_are_journalled::<S, F, L>();
    runs_move_components::<S, F, L>();
    just_one_case_holds();
}

/// Every run that starts with a running container is lawful as a whole, or it is lawful up to an event that ran out of
/// memory. That event broke off and stopped the container. Its own entries and response are lost, and each later event
/// is refused.
pub fn every_run_is_lawful_until_memory_is_refused<S: Servlet, F: Filter, L: Listener, W: Words>()
    ensures { EveryRunIsLawfulUntilRefused (steps_of S.servlet_step F.filter_step L.listener_step) W.draws }
{
    every_run_is_lawful::<S, F, L, W>();
    want_of_memory_stops::<Context<S, F, L>, W>();
}

/// A lawful run is a run. So the record of a lawful run leaves out nothing that the definition of a run says, and every
/// law of runs holds of lawful runs.
pub fn every_lawful_run_is_a_run<S: Servlet, F: Filter, L: Listener, W: Words>()
    ensures { EveryLawfulRunIsARun (steps_of S.servlet_step F.filter_step L.listener_step) W.draws }
{
    runs_are_journalled::<S, F, L>();
    just_one_case_holds();
}
