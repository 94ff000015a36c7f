//! A context without its sessions.

ghost use Rattle.std.specs.Prelude.{◌≡◌};
ghost use Rattle.sv_saved_sessions.specs.Saving.{suspended};

use sv_constraints::Constraint;
use sv_lifecycle::SuspendedContext;
use sv_realm::Realm;

/// The context whose file is written, without its sessions. The fields are those of [`SuspendedContext`].
#[derive(Clone, Copy)]
pub struct SavedHead<'a> {
    /// The context path.
    pub path: &'a str,
    /// The users. The callers of the sessions are their numbers.
    pub users: &'a Realm,
    /// The constraints that its descriptor declares.
    pub declared: &'a [Constraint],
    /// Its constraints, in their order.
    pub constraints: &'a [Constraint],
    /// The greatest number that a constraint was assigned.
    pub greatest: u64,
}

impl<'a> SavedHead<'a> {
    /// Returns the head of a context that was suspended.
    pub fn of(context: &'a SuspendedContext) -> SavedHead<'a>
        ensures { suspended result context.now.sessions ≡ context.now }
    {
        SavedHead {
            path: context.path.as_str(),
            users: &context.users,
            declared: context.declared.as_slice(),
            constraints: context.constraints.as_slice(),
            greatest: context.greatest,
        }
    }
}
