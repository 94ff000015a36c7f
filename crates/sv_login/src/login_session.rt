//! The session of a login.

ghost use Rattle.std.specs.Prelude.{◌≡◌, [], MatchResult};
ghost use Rattle.sv_session.specs.Calls.{RefusesCall};
ghost use Rattle.sv_login.specs.Session.{living, session_faults, session_number, with_session};

use sv_session::{SessionFault, Sessions};

/// Gives the held session a new id if it is live, or otherwise opens a session, and returns its number (Jakarta Servlet
/// 6.0, section 7.1).
///
/// # Errors
/// The fault of the rename or of the opening. The sessions are unchanged.
pub fn renewed(
    sessions: &mut Sessions,
    held: Option<u64>,
    words: (u64, u64),
    now: u64,
) -> Result<u64, SessionFault>
    ensures { MatchResult result
        (λ number. (session_faults held sessions.old.store ≡ []) × (number ≡ session_number held sessions.old.store)
        × (sessions.new ≡ record sessions.old { store = with_session held words now sessions.old.store }))
        (λ fault. RefusesCall (session_faults held sessions.old.store) fault sessions.old sessions.new) }
{
    let Some(number) = living(sessions, held) else {
        return sessions.open(words, now);
    };
    match sessions.rename(number, words) {
        Ok(()) => Ok(number),
        Err(fault) => Err(fault),
    }
}

/// Returns the number of the held session if it is live.
fn living(sessions: &Sessions, held: Option<u64>) -> Option<u64>
    ensures { result ≡ living held sessions.now.store }
{
    let number = held?;
    sessions.id(number)?;
    Some(number)
}
