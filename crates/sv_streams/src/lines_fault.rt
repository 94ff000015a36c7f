//! Faults of reading lines.

ghost use Rattle.std.specs.Prelude.{◌≡◌};
ghost use Rattle.sv_streams.specs.declared.lines_fault.LinesFault.TheVariants as fault;

use crate::stream::ReadFailed;
use std::alloc::AllocError;

/// The reason why no line was read. The reader keeps the bytes that it has read.
#[derive(Clone, Copy, Debug, PartialEq, Eq)]
pub enum LinesFault {
    /// A read failed.
    ReadFailed,
    /// The limit of reads is reached.
    TooManyReads,
    /// Memory ran out.
    NoMemory,
}

impl From<ReadFailed> for LinesFault {
    ghost from_gives = { λ _ e. e ≡ fault.ReadFailed };

    fn from(_failed: ReadFailed) -> LinesFault {
        LinesFault::ReadFailed
    }
}

impl From<AllocError> for LinesFault {
    ghost from_gives = { λ _ e. e ≡ fault.NoMemory };

    fn from(_error: AllocError) -> LinesFault {
        LinesFault::NoMemory
    }
}
