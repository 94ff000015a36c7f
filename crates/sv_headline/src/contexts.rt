//! The requirements that runs of a container have on its contexts, proved for our contexts.

ghost use Rattle.sv_component.specs.Steps.{steps_of};
ghost use Rattle.sv_headline.specs.Order.{SessionsStayInOrder};
ghost use Rattle.sv_context.specs.Theory.{theory};
ghost use Rattle.sv_run.specs.Lawful.{ChangesConstraintsByEdits, ChangesSessionsByCalls, EndsExpired, GivesCallersByLogin, TellsOutcomes};

use sv_admission::no_admission_leaves_an_expired_session;
use sv_component::{Filter, Listener, Servlet, runs_are_journalled};
use sv_context::{an_expiry_leaves_none_expired, an_expiry_of_none_is_nothing};
use sv_run::Words;
use sv_session::{callers_are_entered, components_keep_the_sessions, sessions_stay_in_order};
use sv_tree::{answers_move_the_sessions, moved_sessions_are_kept};

/// A session of a context ends if it has expired, and expiry ends no other session. No request leaves a session that
/// has expired at its time (Jakarta Servlet 6.0, section 7.5).
pub fn contexts_end_expired_sessions<S: Servlet, F: Filter, L: Listener, W: Words>()
    ensures { EndsExpired (theory (steps_of S.servlet_step F.filter_step L.listener_step) W.draws) }
{
    an_expiry_leaves_none_expired::<S, F, L>();
    an_expiry_of_none_is_nothing::<S, F, L>();
    no_admission_leaves_an_expired_session();
    answers_move_the_sessions();
    moved_sessions_are_kept();
}

/// The first entry that a request notes is its outcome, and it notes no other outcome. The expiry of sessions notes no
/// outcome.
pub fn contexts_tell_outcomes<S: Servlet, F: Filter, L: Listener, W: Words>()
    ensures { TellsOutcomes (theory (steps_of S.servlet_step F.filter_step L.listener_step) W.draws) }
{
    runs_are_journalled::<S, F, L>();
}

/// A session of a context gets a caller only by a login, as the user whose name and password the login sent (Jakarta
/// Servlet 6.0, section 13.6.3).
pub fn callers_come_by_login<S: Servlet, F: Filter, L: Listener, W: Words>()
    ensures { GivesCallersByLogin (theory (steps_of S.servlet_step F.filter_step L.listener_step) W.draws) }
{
    callers_are_entered();
    answers_move_the_sessions();
    moved_sessions_are_kept();
}

/// The sessions of a context change only by calls of the session store, at each request and each expiry (Jakarta Servlet
/// 6.0, chapter 7).
pub fn sessions_of_contexts_change_by_calls<S: Servlet, F: Filter, L: Listener, W: Words>()
    ensures { ChangesSessionsByCalls (theory (steps_of S.servlet_step F.filter_step L.listener_step) W.draws) }
{
    answers_move_the_sessions();
}

/// The sessions of a context are in the order of their numbers, at first and after each request and each expiry
/// (Jakarta Servlet 6.0, chapter 7). So no two sessions have the same number, and a lookup by number finds the session
/// that holds a caller.
pub fn sessions_of_contexts_stay_in_order<S: Servlet, F: Filter, L: Listener>()
    ensures { SessionsStayInOrder (steps_of S.servlet_step F.filter_step L.listener_step) }
{
    sessions_stay_in_order();
    components_keep_the_sessions();
    answers_move_the_sessions();
}

/// An edit changes the current constraints of a context as its outcome says. Requests and expiry do not change them.
pub fn edits_alone_change_the_constraints<S: Servlet, F: Filter, L: Listener, W: Words>()
    ensures { ChangesConstraintsByEdits (theory (steps_of S.servlet_step F.filter_step L.listener_step) W.draws) }
{}
