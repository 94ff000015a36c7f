//! Theorems about the login step, each the contract of a function that at most calls theorems about sessions.

ghost use Rattle.sv_login.specs.Laws.{PassedHasANewId, PassedHoldsTheUser, RefusalChangesNothing};
ghost use Rattle.sv_login.specs.OutcomeLaws.{EntersExactlyByAnOpenVerdict, JustOneCaseHolds};

use sv_session::{no_id_is_given_twice, sessions_stay_in_order};

/// A login step that does not pass leaves the sessions unchanged.
pub fn a_refused_login_changes_nothing()
    ensures { RefusalChangesNothing }
{}

/// The session of a login step that passes holds the user whose name and password were sent.
pub fn a_passed_login_holds_its_user()
    ensures { PassedHoldsTheUser }
{}

/// After any earlier calls, a login step that passes gives its session an id that the context has never given before.
pub fn a_passed_login_has_a_new_id()
    ensures { PassedHasANewId }
{
    no_id_is_given_twice();
    sessions_stay_in_order();
}

/// Each case has a condition that does not depend on the order of the cases. Exactly one of them holds for a message:
/// that of its outcome.
pub fn just_one_case_holds()
    ensures { JustOneCaseHolds }
{}

/// A message enters exactly if its path is not protected, it is not a login post, and the verdict is open.
pub fn a_message_enters_exactly_by_an_open_verdict()
    ensures { EntersExactlyByAnOpenVerdict }
{}
