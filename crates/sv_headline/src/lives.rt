//! The laws of the lives of components. Each is the contract of a function that does nothing.

ghost use Rattle.sv_component.specs.Steps.{steps_of};
ghost use Rattle.sv_headline.specs.Ends.{EachIsDestroyedOnce};
ghost use Rattle.sv_headline.specs.Lives.{ComponentsAreDestroyedOnce};

use sv_component::{Filter, Listener, Servlet};

/// Over any number of events, the components of each context are moved only by calls. An event may be accepted or
/// refused, and alters the contexts as a step of the container may. A servlet that was gone before is not called. A
/// servlet that becomes gone is destroyed, once and last. No other servlet is destroyed, and no filter is (Jakarta
/// Servlet 6.0, sections 2.3.3.2 and 2.3.4).
pub fn components_are_destroyed_once<S: Servlet, F: Filter, L: Listener>()
    ensures { ComponentsAreDestroyedOnce (steps_of S.servlet_step F.filter_step L.listener_step) }
{}

/// From the start of a container over any number of events, accepted or refused, to its stop, even after memory has
/// run out: each component that the start initialized is destroyed, once and last. The event that puts it out of
/// service for good destroys it, or the stop does. No other component is called (Jakarta Servlet 6.0, sections
/// 2.3.3.2, 2.3.4 and 6.2.1). Refused starts have a law of their own
/// ([`undone_starts_mirror`](sv_lifecycle::undone_starts_mirror)).
pub fn each_component_is_destroyed_once<S: Servlet, F: Filter, L: Listener, W>()
    ensures { EachIsDestroyedOnce (steps_of S.servlet_step F.filter_step L.listener_step) W }
{}
