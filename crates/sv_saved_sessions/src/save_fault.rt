//! Why a file could not be written.

/// Why a file could not be written.
#[derive(Clone, Copy, Debug, PartialEq, Eq)]
pub enum SaveFault {
    /// Memory ran out. The sink has taken a front of the file, and no write failed.
    NoMemory,
    /// A write failed, and no other followed it. The sink has taken a front of the file.
    WriteFailed,
    /// The realm has more users than a realm can have. Nothing was written.
    TooManyUsers,
}
