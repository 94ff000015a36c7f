//! What listeners are notified, over whole lives of containers. Each law is the contract of a function that only calls other laws.

ghost use Rattle.sv_component.specs.Steps.{steps_of};
ghost use Rattle.sv_headline.specs.Listeners.{ListenersHearExactly, NoSessionEventAfterRunningOutOfMemory};

use sv_component::{Filter, Listener, Servlet};
use sv_container::stopped_containers_stop_quietly;
use sv_context::Context;
use sv_login::just_one_case_holds;
use sv_run::{Words, want_of_memory_stops};

/// From the start of a container, over any run, to its stop, the listeners of each context are notified of exactly these
/// events, in this order: the start of the context, the events of requests and of sessions, the end of each session that
/// is left, and the stop. Each event is notified to each listener once, in the order of the specification. The end of an
/// expired session is notified before the message that finds it expired. A request is notified of before and after all calls of
/// its filters and servlets, and a change of its session directly after the call that made it (Jakarta Servlet 6.0,
/// sections 11.3.3 and 11.3.4).
pub fn listeners_hear_exactly<S: Servlet, F: Filter, L: Listener, W: Words>()
    ensures { ListenersHearExactly (steps_of S.servlet_step F.filter_step L.listener_step) W.draws }
{
    just_one_case_holds();
}

/// After an event has run out of memory, each later event is refused and changes nothing. Listeners are notified of no session
/// any more: they are notified once, in reverse order, that their context stops.
pub fn no_session_event_after_running_out_of_memory<S: Servlet, F: Filter, L: Listener, W: Words>()
    ensures { NoSessionEventAfterRunningOutOfMemory (steps_of S.servlet_step F.filter_step L.listener_step) W.draws }
{
    just_one_case_holds();
    want_of_memory_stops::<Context<S, F, L>, W>();
    stopped_containers_stop_quietly::<S, F, L, W>();
}
