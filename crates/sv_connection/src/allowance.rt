//! The work that is allowed for a connection in one turn.

ghost use Rattle.std.specs.Prelude.{◌≡◌};

use crate::limits::{BYTES_A_PIECE, BYTES_AT_ONCE, CALLS_AT_ONCE};

/// The work that is still allowed for a connection before others are served.
#[derive(Clone, Copy, Debug, PartialEq, Eq)]
pub(crate) struct Allowance {
    /// The number of reads and writes.
    pub calls: u32,
    /// The number of bytes that all writes take together. A piece that is passed to the handler costs [`BYTES_A_PIECE`]
    /// of them.
    pub bytes: usize,
}

impl Allowance {
    ghost use Rattle.std.specs.Prelude.{◌≡◌, ◌-◌, ◌<◌, false};

    /// Returns the allowance with which a turn begins.
    pub fn whole() -> Allowance
        ensures { result ≡ record { calls = CALLS_AT_ONCE; bytes = BYTES_AT_ONCE } }
    {
        Allowance {
            calls: CALLS_AT_ONCE,
            bytes: BYTES_AT_ONCE,
        }
    }

    /// Returns whether the allowance is spent, so that others are served.
    pub fn is_spent(self) -> bool
        ensures calls { result ≡ false → 0 < self.calls }
        ensures bytes { result ≡ false → 0 < self.bytes }
    {
        self.calls == 0 || self.bytes == 0
    }

    /// Deducts the cost of a piece.
    pub fn take_piece(&mut self)
        ensures calls { self.new.calls ≡ self.old.calls }
        ensures bytes { self.new.bytes ≡ self.old.bytes - BYTES_A_PIECE }
    {
        self.bytes = self.bytes.saturating_sub(BYTES_A_PIECE);
    }
}
