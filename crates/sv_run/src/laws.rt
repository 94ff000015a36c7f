//! The laws of runs. Each is the contract of a function that does nothing.

ghost use Rattle.std.specs.Prelude.{◌≡◌};
ghost use Rattle.sv_run.specs.Contexts.{theory_of};
ghost use Rattle.sv_run.specs.Lawful.{ChangesConstraintsByEdits, ChangesSessionsByCalls, EndsExpired, GivesCallersByLogin, TellsOutcomes};
ghost use Rattle.sv_run.specs.Laws.{CallersLoggedIn, CallersStayOrLogIn, ConstraintsChangeByEditsAlone, EndedReadingsStay, FeedingsMayBeCut, OrdersAreAlike, OthersStay, PiecesMayBeCut, PiecesMayComeInParts, RefusedEventsChangeNothing, RequestsEnterExactlyWhereAllowed, RunsJoin, RunsSplit, SessionsChangeByCalls, WantOfMemoryStops};
ghost use Rattle.sv_run.specs.Orders.{OrdersAreTakenAlike, PiecesAreTakenInParts};

use crate::context::{Context, Words};
use crate::limits::{LAST_MOMENT, MAX_CONNECTIONS};
use sv_login::a_message_enters_exactly_by_an_open_verdict;

/// States the limits as numbers. Definitions and code cite only the constants, so a change to a constant would change
/// both.
pub fn limits_are_as_stated()
    ensures moment { LAST_MOMENT ≡ 253402300799 }
    ensures connections { MAX_CONNECTIONS ≡ 1024 }
{}

/// If contexts report the outcomes of their requests, then for every list of events the journal reports the outcome of
/// each message once, in order. A request enters exactly if the combined constraints allow it.
pub fn requests_enter_exactly_where_allowed<C: Context, W: Words>()
    ensures { TellsOutcomes (theory_of C.path_of C.conduct W.draws) → RequestsEnterExactlyWhereAllowed (theory_of C.path_of C.conduct W.draws) }
{
    a_message_enters_exactly_by_an_open_verdict();
}

/// If sessions get callers only by logins, then for every list of events, as long as no event runs out of memory, a
/// session that holds a caller held it before, and throughout, or gained it by a successful login that nothing has undone
/// since.
pub fn callers_stay_or_log_in<C: Context, W: Words>()
    ensures { GivesCallersByLogin (theory_of C.path_of C.conduct W.draws) → CallersStayOrLogIn (theory_of C.path_of C.conduct W.draws) }
{}

/// If sessions get callers only by logins, then for every list of events, as long as no event runs out of memory, a
/// session gains a caller only by a successful login that nothing has undone since.
pub fn callers_logged_in<C: Context, W: Words>()
    ensures { GivesCallersByLogin (theory_of C.path_of C.conduct W.draws) → CallersLoggedIn (theory_of C.path_of C.conduct W.draws) }
{}

/// If requests and expiry change sessions only by calls, then for every list of events, as long as no event runs out of
/// memory, the sessions of each context change only by calls.
pub fn sessions_change_by_calls<C: Context, W: Words>()
    ensures { ChangesSessionsByCalls (theory_of C.path_of C.conduct W.draws) → SessionsChangeByCalls (theory_of C.path_of C.conduct W.draws) }
{}

/// Once an item has ended the reading of a connection, further bytes change nothing.
pub fn ended_readings_stay()
    ensures { EndedReadingsStay }
{}

/// Reading a piece equals reading its two parts one after the other.
pub fn feedings_may_be_cut()
    ensures { FeedingsMayBeCut }
{}

/// If exactly the expired sessions end, then a piece and its two parts, received at one time, have the same result: the
/// same bytes, entries and state.
pub fn pieces_may_be_cut<C: Context, W: Words>()
    ensures { EndsExpired (theory_of C.path_of C.conduct W.draws) → PiecesMayBeCut (theory_of C.path_of C.conduct W.draws) }
{}

/// If exactly the expired sessions end, then a piece and any number of parts of it, received at one time, have the same
/// result.
pub fn pieces_may_come_in_parts<C: Context, W: Words>()
    ensures { EndsExpired (theory_of C.path_of C.conduct W.draws) → PiecesMayComeInParts (theory_of C.path_of C.conduct W.draws) }
{}

/// If exactly the expired sessions end, then a piece that completes no item commutes with an event of another
/// connection, provided that neither of them raises the time.
pub fn orders_are_alike<C: Context, W: Words>()
    ensures { EndsExpired (theory_of C.path_of C.conduct W.draws) → OrdersAreAlike (theory_of C.path_of C.conduct W.draws) }
{}

/// If exactly the expired sessions end, then a piece and any number of parts of it, received at one time, have the same
/// answers and lead to the same states. The piece is refused exactly if each part is refused, for the same reason. The
/// law excludes running out of memory.
pub fn pieces_are_taken_in_parts<C: Context, W: Words>()
    ensures { EndsExpired (theory_of C.path_of C.conduct W.draws) → PiecesAreTakenInParts (theory_of C.path_of C.conduct W.draws) }
{}

/// If exactly the expired sessions end, then a piece that completes no item commutes with an event of another
/// connection, provided that neither of them raises the time. Either order allows the same answers, entries and final
/// states, even if one of the two events is refused. The law excludes running out of memory.
pub fn orders_are_taken_alike<C: Context, W: Words>()
    ensures { EndsExpired (theory_of C.path_of C.conduct W.draws) → OrdersAreTakenAlike (theory_of C.path_of C.conduct W.draws) }
{}

/// A refused event changes nothing, unless it ran out of memory.
pub fn refused_events_change_nothing<C: Context, W: Words>()
    ensures { RefusedEventsChangeNothing (theory_of C.path_of C.conduct W.draws) }
{}

/// After an event has run out of memory, each later event is refused as `Stopped`, and nothing changes.
pub fn want_of_memory_stops<C: Context, W: Words>()
    ensures { WantOfMemoryStops (theory_of C.path_of C.conduct W.draws) }
{}

/// If an event runs out of memory, a context that was given no request is unchanged apart from the end of its expired
/// sessions. Requests to other contexts call nothing in it.
pub fn others_stay<C: Context, W: Words>()
    ensures { OthersStay (theory_of C.path_of C.conduct W.draws) }
{}

/// A run followed by another run is a run.
pub fn runs_join<C: Context, W: Words>()
    ensures { RunsJoin (theory_of C.path_of C.conduct W.draws) }
{}

/// A run over two lists of events is a run over the first list followed by a run over the second.
pub fn runs_split<C: Context, W: Words>()
    ensures { RunsSplit (theory_of C.path_of C.conduct W.draws) }
{}

/// If only edits change the constraints, then for every list of events, as long as no event runs out of memory, the
/// constraints of a context are the result of its own edits, in order. Edits of other contexts do not affect them.
pub fn constraints_change_by_edits_alone<C: Context, W: Words>()
    ensures { ChangesConstraintsByEdits (theory_of C.path_of C.conduct W.draws) → ConstraintsChangeByEditsAlone (theory_of C.path_of C.conduct W.draws) }
{}
