//! A context that was read from a file.

use sv_lifecycle::SuspendedContext;

/// A context that was read from a file, and when it was suspended.
#[derive(Drop)]
pub struct SavedContext {
    /// The time of the suspension, in seconds.
    pub moment: u64,
    /// The context.
    pub context: SuspendedContext,
}
