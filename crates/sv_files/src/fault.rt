//! Faults of a list of files.

ghost use Rattle.std.specs.Prelude.{◌≡◌, Some};
ghost use Rattle.sv_files.specs.Fault.{fault_number, fault_text};

use std::error::Error;
use std::fmt;
use sv_text::NoMemory;

/// The reason why [`Files::from_list`](crate::Files::from_list) returned no files. If a list has several faults, the
/// one with the lowest number is returned, whatever its position. A fault is printed as its name; `NoMemory` is printed
/// as `no memory`.
#[derive(Clone, Copy, Debug, PartialEq, Eq)]
pub enum FilesFault {
    /// A path is not the canonical path of its own location, or ends in `/`.
    BadPath = 1,
    /// Two files have the same path.
    Duplicate = 2,
    /// There are more files than [`MAX_FILES`](crate::MAX_FILES).
    TooMany = 3,
    /// A file has more bytes than [`MAX_FILE_BYTES`](crate::MAX_FILE_BYTES).
    TooLarge = 4,
    /// Memory ran out. The same call may succeed later.
    NoMemory = 5,
}

impl FilesFault {
    /// Returns the number of the fault, from 1 to 5.
    pub fn number(self) -> u8
        ensures { result ≡ fault_number self }
    {
        self as u8
    }
}

impl fmt::Display for FilesFault {
    ghost output = { λ fault. Some (fault_text fault) };

    fn fmt<W: fmt::Write>(&self, f: &mut fmt::Formatter<W>) -> fmt::Result {
        f.write_str(match self {
            FilesFault::BadPath => "BadPath",
            FilesFault::Duplicate => "Duplicate",
            FilesFault::TooMany => "TooMany",
            FilesFault::TooLarge => "TooLarge",
            FilesFault::NoMemory => "no memory",
        })
    }
}

impl Error for FilesFault {}

impl From<NoMemory> for FilesFault {
    ghost use Rattle.std.specs.Prelude.{◌≡◌};
    ghost use Rattle.sv_files.specs.declared.fault.FilesFault.TheVariants as fault;

    ghost from_gives = { λ _ e. e ≡ fault.NoMemory };

    fn from(_refused: NoMemory) -> FilesFault {
        Self::NoMemory
    }
}
