//! The laws of admissions, each the contract of a function that cites the laws of outcomes and of sessions.

ghost use Rattle.std.specs.Prelude.{◌≡◌};
ghost use Rattle.sv_admission.specs.Laws.{EntersExactlyByAnOpenVerdict, LeavesNoneExpired};

use crate::answer::{FORBIDDEN, SEE_OTHER};
use sv_login::a_message_enters_exactly_by_an_open_verdict;
use sv_session::no_call_leaves_an_expired_session;

/// The journal entry of a message says that it entered exactly if its path is not hidden, it is no login post, and the
/// verdict is open.
pub fn an_entry_says_entered_exactly_by_an_open_verdict()
    ensures { EntersExactlyByAnOpenVerdict }
{
    a_message_enters_exactly_by_an_open_verdict();
}

/// If no session has expired at the time of a message, its admission leaves none that has.
pub fn no_admission_leaves_an_expired_session()
    ensures { LeavesNoneExpired }
{
    no_call_leaves_an_expired_session();
}

/// The values of this crate's constants, which both the definitions and the code use.
pub fn limits_are_as_stated()
    ensures see_other { SEE_OTHER ≡ 303 }
    ensures forbidden { FORBIDDEN ≡ 403 }
{}
