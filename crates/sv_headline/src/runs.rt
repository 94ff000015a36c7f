//! The laws of runs, for a container with our contexts.

ghost use Rattle.sv_component.specs.Steps.{steps_of};
ghost use Rattle.sv_headline.specs.Start.{CallersLoggedInSinceTheStart};
ghost use Rattle.sv_context.specs.Theory.{theory};
ghost use Rattle.sv_run.specs.Laws.{CallersLoggedIn, CallersStayOrLogIn, ConstraintsChangeByEditsAlone, OrdersAreAlike, PiecesMayBeCut, PiecesMayComeInParts, RequestsEnterExactlyWhereAllowed, SessionsChangeByCalls};
ghost use Rattle.sv_run.specs.Orders.{OrdersAreTakenAlike, PiecesAreTakenInParts};

use crate::contexts::{
    callers_come_by_login, contexts_end_expired_sessions, contexts_tell_outcomes,
    edits_alone_change_the_constraints, sessions_of_contexts_change_by_calls,
};
use sv_component::{Filter, Listener, Servlet};
use sv_context::Context;
use sv_run::Words;

/// Over every list of events, the journal reports the outcome of each message once, in order. A request enters exactly
/// if the combined constraints allow it (Jakarta Servlet 6.0, section 13.8).
pub fn requests_enter_exactly_where_allowed<S: Servlet, F: Filter, L: Listener, W: Words>()
    ensures { RequestsEnterExactlyWhereAllowed (theory (steps_of S.servlet_step F.filter_step L.listener_step) W.draws) }
{
    contexts_tell_outcomes::<S, F, L, W>();
    sv_run::requests_enter_exactly_where_allowed::<Context<S, F, L>, W>();
}

/// Over every list of events, until memory runs out, a session holds a new caller only by a login to it as that caller.
/// No later message has undone that login (Jakarta Servlet 6.0, section 13.6.3).
pub fn callers_logged_in<S: Servlet, F: Filter, L: Listener, W: Words>()
    ensures { CallersLoggedIn (theory (steps_of S.servlet_step F.filter_step L.listener_step) W.draws) }
{
    callers_come_by_login::<S, F, L, W>();
    sv_run::callers_logged_in::<Context<S, F, L>, W>();
}

/// Over every list of events, until memory runs out, a session that holds a caller held it before, and throughout, or got
/// it by a login to it as that caller, which no later message has undone (Jakarta Servlet 6.0, section 13.6.3).
pub fn callers_stay_or_log_in<S: Servlet, F: Filter, L: Listener, W: Words>()
    ensures { CallersStayOrLogIn (theory (steps_of S.servlet_step F.filter_step L.listener_step) W.draws) }
{
    callers_come_by_login::<S, F, L, W>();
    sv_run::callers_stay_or_log_in::<Context<S, F, L>, W>();
}

/// Over every list of events, until memory runs out, the sessions of each context change only by calls of the session
/// store (Jakarta Servlet 6.0, chapter 7).
pub fn sessions_change_by_calls<S: Servlet, F: Filter, L: Listener, W: Words>()
    ensures { SessionsChangeByCalls (theory (steps_of S.servlet_step F.filter_step L.listener_step) W.draws) }
{
    sessions_of_contexts_change_by_calls::<S, F, L, W>();
    sv_run::sessions_change_by_calls::<Context<S, F, L>, W>();
}

/// In a run that begins without sessions, every caller has logged in. Newly deployed contexts have no sessions
/// ([`sessions_of_contexts_stay_in_order`](crate::sessions_of_contexts_stay_in_order)).
pub fn callers_logged_in_since_the_start<S: Servlet, F: Filter, L: Listener, W: Words>()
    ensures { CallersLoggedInSinceTheStart (theory (steps_of S.servlet_step F.filter_step L.listener_step) W.draws) }
{
    callers_logged_in::<S, F, L, W>();
}

/// A piece of input has the same effect as its two parts at the same time: the same bytes, entries and state.
pub fn pieces_may_be_cut<S: Servlet, F: Filter, L: Listener, W: Words>()
    ensures { PiecesMayBeCut (theory (steps_of S.servlet_step F.filter_step L.listener_step) W.draws) }
{
    contexts_end_expired_sessions::<S, F, L, W>();
    sv_run::pieces_may_be_cut::<Context<S, F, L>, W>();
}

/// A piece of input has the same effect as its parts at the same time, however many they are.
pub fn pieces_may_come_in_parts<S: Servlet, F: Filter, L: Listener, W: Words>()
    ensures { PiecesMayComeInParts (theory (steps_of S.servlet_step F.filter_step L.listener_step) W.draws) }
{
    contexts_end_expired_sessions::<S, F, L, W>();
    sv_run::pieces_may_come_in_parts::<Context<S, F, L>, W>();
}

/// A piece that completes no item and an event of another connection have the same effect in either order, if neither
/// advances the time.
pub fn orders_are_alike<S: Servlet, F: Filter, L: Listener, W: Words>()
    ensures { OrdersAreAlike (theory (steps_of S.servlet_step F.filter_step L.listener_step) W.draws) }
{
    contexts_end_expired_sessions::<S, F, L, W>();
    sv_run::orders_are_alike::<Context<S, F, L>, W>();
}

/// At the same time, a piece and its parts, however many they are, have the same answers and lead to the same states.
/// The piece is refused exactly if each part is refused for the same cause. Events that run out of memory are
/// excluded.
pub fn pieces_are_taken_in_parts<S: Servlet, F: Filter, L: Listener, W: Words>()
    ensures { PiecesAreTakenInParts (theory (steps_of S.servlet_step F.filter_step L.listener_step) W.draws) }
{
    contexts_end_expired_sessions::<S, F, L, W>();
    sv_run::pieces_are_taken_in_parts::<Context<S, F, L>, W>();
}

/// A piece that completes no item and an event of another connection allow the same answers, entries and end states in
/// either order, if neither advances the time. This holds whichever of them is refused. Events that run out of memory
/// are excluded.
pub fn orders_are_taken_alike<S: Servlet, F: Filter, L: Listener, W: Words>()
    ensures { OrdersAreTakenAlike (theory (steps_of S.servlet_step F.filter_step L.listener_step) W.draws) }
{
    contexts_end_expired_sessions::<S, F, L, W>();
    sv_run::orders_are_taken_alike::<Context<S, F, L>, W>();
}

/// Over every list of events, until memory runs out, the constraints of a context are those that its own edits
/// produce, one after another. Edits of other contexts do not matter (Jakarta Servlet 6.0, section 13.8).
pub fn constraints_change_by_edits_alone<S: Servlet, F: Filter, L: Listener, W: Words>()
    ensures { ConstraintsChangeByEditsAlone (theory (steps_of S.servlet_step F.filter_step L.listener_step) W.draws) }
{
    edits_alone_change_the_constraints::<S, F, L, W>();
    sv_run::constraints_change_by_edits_alone::<Context<S, F, L>, W>();
}
