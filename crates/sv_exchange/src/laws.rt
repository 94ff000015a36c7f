//! Laws about the definitions.

ghost use Rattle.sv_exchange.specs.Laws.{ChangesAreCalls, ChangesKeepTheRequest, ChangesMoveTheSessions, IncludesKeepTheHead};

use sv_session::components_keep_the_sessions;

/// The law that `Reaches` holds exactly if a list of changing calls leads from one exchange to the other.
pub fn changes_are_calls()
    ensures { ChangesAreCalls }
{}

/// The law that changing calls keep the request, the active dispatches, the kept error and the count of calls.
pub fn changes_keep_the_request()
    ensures { ChangesKeepTheRequest }
{}

/// The law that changing calls within an include leave the status and the fields unchanged.
pub fn includes_keep_the_head()
    ensures { IncludesKeepTheHead }
{}

/// The law that changing calls move the sessions of the context by calls at the time of the request, and that none of
/// these enters a caller.
pub fn changes_move_the_sessions()
    ensures { ChangesMoveTheSessions }
{
    components_keep_the_sessions();
}
