//! What remains of a context that was suspended.

use sv_constraints::Constraint;
use sv_realm::Realm;
use sv_session::Sessions;
use sv_text::{Listed, Text};

/// What remains of a context that was suspended: its sessions, with the users that their callers are, and its
/// constraints as edits left them. A context of the same path can resume with it, in this program or a later one.
#[derive(Drop)]
pub struct SuspendedContext {
    /// The context path.
    pub path: Text,
    /// The users when it was suspended. The callers of the sessions are their numbers.
    pub users: Realm,
    /// The constraints that its descriptor declared.
    pub declared: Listed<Constraint>,
    /// Its constraints, in their order.
    pub constraints: Listed<Constraint>,
    /// The greatest number that a constraint was assigned.
    pub greatest: u64,
    /// The sessions.
    pub sessions: Sessions,
}
