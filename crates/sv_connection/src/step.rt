//! The result of one step of a connection.

use crate::close_reason::CloseReason;

/// The result of one step of a connection.
#[derive(Clone, Copy, Debug, PartialEq, Eq)]
pub(crate) enum Step {
    /// Another step may follow.
    GoesOn,
    /// The next call would block, or the stream was armed.
    Rests,
    /// The connection ends for this reason.
    IsOver(CloseReason),
}
