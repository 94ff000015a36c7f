//! Runs that are not lawful: a lawful run with one thing altered in a message, or in the answer to an event. Each law is the
//! contract of a function that only calls other laws.

ghost use Rattle.sv_component.specs.Steps.{steps_of};
ghost use Rattle.sv_headline.specs.UnlawfulRuns.{AlteredEventsAreInNoRun, AlteredMessagesAreInNoRun, RunsAreLawfulInParts};

use sv_component::{Filter, Listener, Servlet, runs_are_journalled, runs_move_components};
use sv_login::just_one_case_holds;
use sv_run::{Words, feedings_may_be_cut};
use sv_wire::readings_are_unique;

/// Each message that a context handles in a lawful run is lawful, and its context is the one to which the run has led. No
/// lawful run has this message without the call of its servlet or of its first filter, or with another exchange. None has it
/// with its login in another session, with the constraints or callers of another context, with another outcome, or with
/// other notifications (Jakarta Servlet 6.0, sections 6.2, 11.3.3, 13.6.3 and 13.8).
pub fn altered_messages_are_in_no_run<S: Servlet, F: Filter, L: Listener, W: Words>()
    ensures { AlteredMessagesAreInNoRun (steps_of S.servlet_step F.filter_step L.listener_step) W.draws }
{
    just_one_case_holds();
}

/// A run is lawful exactly if its first events are a lawful run up to some state, and the other ones are a lawful run from
/// that state on.
pub fn runs_are_lawful_in_parts<S: Servlet, F: Filter, L: Listener, W: Words>()
    ensures { RunsAreLawfulInParts (steps_of S.servlet_step F.filter_step L.listener_step) W.draws }
{
    runs_are_journalled::<S, F, L>();
    runs_move_components::<S, F, L>();
    just_one_case_holds();
}

/// Each event of a lawful run is lawful in the state to which the run has come. The run is lawful no more if a session
/// expires in silence, if other notifications are made at a tick, if the first message of the event is swallowed, or
/// refused as bytes that are no message, if the response of another request is sent, or if the items of its piece have other
/// answers. It is not lawful whatever comes after that event (Jakarta Servlet 6.0, sections 7.5 and 11.3.4; RFC 9112,
/// sections 2.2 and 9.2).
pub fn altered_events_are_in_no_run<S: Servlet, F: Filter, L: Listener, W: Words>()
    ensures { AlteredEventsAreInNoRun (steps_of S.servlet_step F.filter_step L.listener_step) W.draws }
{
    runs_are_journalled::<S, F, L>();
    runs_move_components::<S, F, L>();
    just_one_case_holds();
    feedings_may_be_cut();
    readings_are_unique();
}
