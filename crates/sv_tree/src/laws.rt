//! The laws of dispatches. Each law is the contract of an empty function.

ghost use Rattle.std.specs.Prelude.{◌≡◌, ◌-◌, ◌^◌};
ghost use Rattle.sv_tree.specs.Laws.{AnswersMoveSessions, AnswersOnce, CallsAreCounted, CallsDecide, DispatchesEnd, DispatchesNest, EndingsAreKept, EventsAreTold, FiltersAreClosed, ForwardsBeginEmpty, IncludesEndInNoError, IncludesKeep, MovedFindNoCaller, MovedGiveNoCaller, MovedLeaveNoneExpired, MovesJoin, OnlyServingAreCalled, RequestsAreBounded, StepsMoveSessions, TellingsFollow};
ghost use Rattle.sv_tree.specs.Site.{Site};
ghost use Rattle.sv_tree.specs.declared.limits.TheConstants.{FOUND, INTERNAL_SERVER_ERROR, GREATEST_MOMENT, LEAST_ERROR, MAX_CALLS, MAX_ERROR, MAX_NESTING, METHOD_NOT_ALLOWED, NOT_FOUND, SERVICE_UNAVAILABLE};

use sv_exchange::{changes_are_calls, changes_move_the_sessions};
use sv_session::{callers_are_entered, components_keep_the_sessions};

/// The calls of a dispatch determine the state that it leaves and its outcome.
pub fn calls_decide()
    ensures { (site : Site) → CallsDecide site }
{}

/// Each filter that passed is called exactly once more within its dispatch, in reverse order.
pub fn filters_are_closed()
    ensures { (site : Site) → FiltersAreClosed site }
{}

/// A servlet that is gone or away is not called. The calls of a dispatch determine the availability of each servlet
/// after it.
pub fn only_serving_are_called()
    ensures { (site : Site) → OnlyServingAreCalled site }
{}

/// Each call of `before` and of `service` is counted, and no call exceeds the limit.
pub fn calls_are_counted()
    ensures { (site : Site) → CallsAreCounted site }
{}

/// No call is nested in more dispatches than the limit allows.
pub fn dispatches_nest()
    ensures { (site : Site) → DispatchesNest site }
{}

/// A request takes at most 1,024 counted calls, at most 16 dispatches deep. Its error page is included.
pub fn requests_are_bounded()
    ensures { (site : Site) → RequestsAreBounded site }
{}

/// A response is made by one dispatch, followed by at most one dispatch to an error page.
pub fn answers_have_one_page()
    ensures { (site : Site) → AnswersOnce site }
{}

/// A dispatch that ends restores the request as the exchange showed it before.
pub fn dispatches_end()
    ensures { (site : Site) → DispatchesEnd site }
{}

/// An include changes neither the status nor the header fields.
pub fn includes_keep()
    ensures { (site : Site) → IncludesKeep site }
{}

/// An include never ends in an error.
pub fn includes_end_in_no_error()
    ensures { (site : Site) → IncludesEndInNoError site }
{}

/// The error kept for the response is the one that ended the dispatch.
pub fn endings_are_kept()
    ensures { (site : Site) → EndingsAreKept site }
{}

/// The buffer is empty when a forward begins.
pub fn forwards_begin_empty()
    ensures { (site : Site) → ForwardsBeginEmpty site }
{}

/// Listeners are notified of session events as soon as the call that caused them returns.
pub fn events_are_told()
    ensures { (site : Site) → EventsAreTold site }
{}

/// The notifications of the session events of a filter or servlet call follow it directly. Listeners receive no others.
pub fn tellings_follow()
    ensures { (site : Site) → TellingsFollow site }
{}

/// Everything done to answer a request keeps the time and moves the sessions only as components may, even if memory
/// runs out. This holds for each step and for steps in sequence.
pub fn answers_move_the_sessions()
    ensures answers { (site : Site) → AnswersMoveSessions site }
    ensures steps { StepsMoveSessions }
    ensures join { MovesJoin }
{
    changes_are_calls();
    changes_move_the_sessions();
    components_keep_the_sessions();
}

/// Moving the sessions in this way makes no session expired and gives no session a caller that it did not have.
pub fn moved_sessions_are_kept()
    ensures unexpired { MovedLeaveNoneExpired }
    ensures callers { MovedGiveNoCaller }
    ensures found { MovedFindNoCaller }
{
    callers_are_entered();
    components_keep_the_sessions();
}

/// The limits of this crate. Definitions and code cite the same constants, so that a change applies to both.
pub fn limits_are_as_stated()
    ensures calls { MAX_CALLS ≡ 1024 }
    ensures nesting { MAX_NESTING ≡ 16 }
    ensures last_moment { GREATEST_MOMENT ≡ 2 ^ 64 - 1 }
    ensures least_error { LEAST_ERROR ≡ 400 }
    ensures greatest_error { MAX_ERROR ≡ 599 }
    ensures found { FOUND ≡ 302 }
    ensures not_found { NOT_FOUND ≡ 404 }
    ensures not_allowed { METHOD_NOT_ALLOWED ≡ 405 }
    ensures failed { INTERNAL_SERVER_ERROR ≡ 500 }
    ensures unavailable { SERVICE_UNAVAILABLE ≡ 503 }
{}
