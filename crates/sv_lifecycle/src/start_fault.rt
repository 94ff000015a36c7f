//! A context that did not start.

use sv_journal::StartCode;
use sv_live::Parts;

/// A context that did not start, with its components.
#[derive(Drop)]
pub struct StartFault<S, F, L> {
    /// The reason why it did not start.
    pub code: StartCode,
    /// All components, in the state after the calls.
    pub parts: Parts<S, F, L>,
}
