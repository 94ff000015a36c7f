//! Requests that are handed over to an application behind a proxy. Each law is the contract of a function that only calls
//! other laws.

ghost use Rattle.sv_component.specs.Steps.{steps_of};
ghost use Rattle.sv_headline.specs.HandedOver.{EntriesAreHandedOver, OnlyEntriesAreDispatched, OtherDispatchesHandNothingOver, RedirectsAreOfEntries, RedirectsInRunsAreOfEntries, StepsHandOverOnlyEntries};
ghost use Rattle.sv_headline.specs.ProgramHandsOver.{TheProgramHandsOverOnlyEntries, TheProgramUndoesNoLogins};

use crate::unlawful::entries_call_their_servlet;
use sv_component::{Filter, Listener, Servlet, runs_move_components};
use sv_deployments::{ProgramFilter, ProgramListener, ProgramServlet};
use sv_run::Words;

/// A request that enters and goes to a servlet which takes the steps of the class `Application`, without filters, is
/// handed over with the canonical path and the query about which the container decided, with the caller of its session,
/// and with its cookies except that of the session (Jakarta Servlet 6.0, sections 3.5, 9.1 and 13.8).
pub fn entries_are_handed_over<S: Servlet, F: Filter, L: Listener>()
    ensures { EntriesAreHandedOver (steps_of S.servlet_step F.filter_step L.listener_step) }
{
    runs_move_components::<S, F, L>();
    entries_call_their_servlet::<S, F, L>();
}

/// Whatever the message, such a servlet hands nothing over in any other dispatch: not in a forward to a login page, not in
/// an error page, not in an include (Jakarta Servlet 6.0, sections 9.3, 9.4, 10.9.2 and 13.6.3).
pub fn other_dispatches_hand_nothing_over<S: Servlet, F: Filter, L: Listener>()
    ensures { OtherDispatchesHandNothingOver (steps_of S.servlet_step F.filter_step L.listener_step) }
{
    runs_move_components::<S, F, L>();
}

/// A servlet is called with a dispatch of a request only if the message enters: its path is not hidden, it is no login
/// post, and the constraints allow it (Jakarta Servlet 6.0, sections 10.9.2, 13.6.3 and 13.8).
pub fn only_entries_are_dispatched<S: Servlet, F: Filter, L: Listener>()
    ensures { OnlyEntriesAreDispatched (steps_of S.servlet_step F.filter_step L.listener_step) }
{}

/// If the other components of a message leave the fields that a proxy reads, its response names an internal location only
/// if the request enters, and a servlet which takes the steps of the class `Application` was called with the dispatch of
/// the request. The target and the cookies in the response are then those about which the container decided. Its caller
/// and roles are those of the session, if the other components undo no login either (Jakarta Servlet 6.0, sections 3.5,
/// 9.1, 9.4, 10.9.2, 13.6.3 and 13.8).
pub fn redirects_are_of_entries<S: Servlet, F: Filter, L: Listener>()
    ensures { RedirectsAreOfEntries (steps_of S.servlet_step F.filter_step L.listener_step) }
{
    runs_move_components::<S, F, L>();
    only_entries_are_dispatched::<S, F, L>();
}

/// The same of each message that a context handles in a lawful run.
pub fn redirects_in_runs_are_of_entries<S: Servlet, F: Filter, L: Listener, W: Words>()
    ensures { RedirectsInRunsAreOfEntries (steps_of S.servlet_step F.filter_step L.listener_step) W.draws }
{
    redirects_are_of_entries::<S, F, L>();
}

/// The same if all steps of the other components leave these fields: then nothing is presumed about a single message.
pub fn steps_hand_over_only_entries<S: Servlet, F: Filter, L: Listener, W: Words>()
    ensures { StepsHandOverOnlyEntries (steps_of S.servlet_step F.filter_step L.listener_step) W.draws }
{
    redirects_in_runs_are_of_entries::<S, F, L, W>();
}

/// In a lawful run of a container with the classes of the program, a response names an internal location only if the
/// request enters, and a servlet of the class `Application` was called with the dispatch of the request. The target and
/// the cookies in the response are then those about which the container decided. Its caller and roles are those of the
/// session, if no other component undoes the login in this message (Jakarta Servlet 6.0, sections 3.5, 9.1, 9.4, 10.9.2,
/// 13.6.3 and 13.8).
pub fn the_program_hands_over_only_entries<W: Words>()
    ensures { TheProgramHandsOverOnlyEntries W.draws }
{
    steps_hand_over_only_entries::<ProgramServlet, ProgramFilter, ProgramListener, W>();
}

/// In a message of a lawful run in which no servlet of the class `Bye` or `Out` serves, no component but a servlet of the
/// class `Application` changes the caller. So a logout path beside the application's own paths takes nothing away from
/// the law above.
pub fn the_program_undoes_no_logins<W: Words>()
    ensures { TheProgramUndoesNoLogins W.draws }
{}
