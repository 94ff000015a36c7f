//! Why a file could not be read.

ghost use Rattle.std.specs.Prelude.{◌≡◌};
ghost use Rattle.sv_saved_sessions.specs.declared.reading_fault.ReadingFault.TheVariants as faults;

/// Why a file could not be read.
#[derive(Clone, Copy, Debug, PartialEq, Eq)]
pub enum ReadingFault {
    /// Memory ran out.
    NoMemory,
    /// The code at the end is not that of the bytes before it: the file is cut, changed, or of another key.
    Foreign,
    /// The code is right, but the content is none of this format.
    Damaged,
}

impl From<sv_text::NoMemory> for ReadingFault {
    ghost from_gives = { λ _ fault. fault ≡ faults.NoMemory };

    fn from(_refused: sv_text::NoMemory) -> ReadingFault {
        ReadingFault::NoMemory
    }
}
