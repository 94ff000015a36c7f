//! Faults of restoring a session.

/// The reason why a session was not restored. Nothing has changed.
#[derive(Clone, Copy, Debug, PartialEq, Eq)]
pub enum RestoreFault {
    /// Memory ran out.
    NoMemory,
    /// The session cannot follow the others. Its number is not above theirs, its number or its id is not of a serial that
    /// has been used, or another session has its id.
    Unfit,
}
