//! Why a file, a directory or an address is not available.

ghost use Rattle.std.specs.Prelude.{◌≡◌};
ghost use Rattle.sv_program.specs.Unavailable.{reason_of, reason_text};

use std::io::ErrorKind;
use sv_text::Text;

/// Why a file, a directory or an address is not available.
#[derive(Clone, Copy, Debug, PartialEq, Eq)]
pub enum Unavailable {
    /// There is no such file or directory.
    Missing,
    /// The system denies access.
    Denied,
    /// It is a directory, and a file is needed.
    IsDirectory,
    /// It is not a directory, and one is needed.
    NotDirectory,
    /// It is neither a regular file nor a directory.
    SpecialFile,
    /// It is a symbolic link, and none is followed.
    Link,
    /// Its name leads through too many symbolic links, as one does that leads to itself.
    LinkLoop,
    /// It has more bytes than [`MAX_FILE_BYTES`](crate::MAX_FILE_BYTES).
    TooLarge,
    /// Its text is not UTF-8.
    NotUtf8,
    /// Its name is too long.
    LongName,
    /// Its name has a NUL.
    BadName,
    /// The directory has an entry whose name is not UTF-8.
    NamelessEntry,
    /// It exists and is no socket.
    NotSocket,
    /// The file system has no space.
    NoSpace,
    /// The file system is read-only.
    ReadOnly,
    /// Another socket has the address.
    AddressInUse,
    /// No interface of this machine has the address.
    NoSuchAddress,
    /// No program listens at the socket.
    NoListener,
    /// It is no open descriptor of signals.
    NoSignals,
    /// The system reported another error.
    Other,
}

impl Unavailable {
    /// Returns the reason that an error of this kind gives.
    pub fn of(kind: ErrorKind) -> Unavailable
        ensures { result ≡ reason_of kind }
    {
        match kind {
            ErrorKind::NotFound => Unavailable::Missing,
            ErrorKind::PermissionDenied => Unavailable::Denied,
            ErrorKind::IsADirectory => Unavailable::IsDirectory,
            ErrorKind::NotADirectory => Unavailable::NotDirectory,
            ErrorKind::Unsupported => Unavailable::SpecialFile,
            ErrorKind::FilesystemLoop => Unavailable::LinkLoop,
            ErrorKind::FileTooLarge => Unavailable::TooLarge,
            ErrorKind::InvalidData => Unavailable::NotUtf8,
            ErrorKind::InvalidInput => Unavailable::BadName,
            ErrorKind::InvalidFilename => Unavailable::LongName,
            ErrorKind::AlreadyExists => Unavailable::NotSocket,
            ErrorKind::StorageFull => Unavailable::NoSpace,
            ErrorKind::ReadOnlyFilesystem => Unavailable::ReadOnly,
            ErrorKind::AddrInUse => Unavailable::AddressInUse,
            ErrorKind::AddrNotAvailable => Unavailable::NoSuchAddress,
            ErrorKind::ConnectionRefused => Unavailable::NoListener,
            _ => Unavailable::Other,
        }
    }

    /// Returns the reason in words.
    pub fn text(self) -> &'static str
        ensures { result.now ≡ reason_text self }
    {
        match self {
            Unavailable::Missing => "no such file or directory",
            Unavailable::Denied => "permission denied",
            Unavailable::IsDirectory => "it is a directory",
            Unavailable::NotDirectory => "it is not a directory",
            Unavailable::SpecialFile => "it is neither a regular file nor a directory",
            Unavailable::Link => "it is a symbolic link",
            Unavailable::LinkLoop => "it leads through too many symbolic links",
            Unavailable::TooLarge => "it has more than 134,217,728 bytes",
            Unavailable::NotUtf8 => "it is not UTF-8",
            Unavailable::LongName => "its name is too long",
            Unavailable::BadName => "its name has a NUL",
            Unavailable::NamelessEntry => "it has an entry whose name is not UTF-8",
            Unavailable::NotSocket => "it exists and is no socket",
            Unavailable::NoSpace => "the file system has no space",
            Unavailable::ReadOnly => "the file system is read-only",
            Unavailable::AddressInUse => "the address is in use",
            Unavailable::NoSuchAddress => "this machine does not have the address",
            Unavailable::NoListener => "no program listens there",
            Unavailable::NoSignals => "no descriptor of signals is open there",
            Unavailable::Other => "the system reports an error",
        }
    }
}

/// An entry of a directory, or of one below it, that is not available.
#[derive(Drop)]
pub struct UnavailableEntry {
    /// The path of the entry within the directory. It begins with `/`, and is empty if the directory itself is not
    /// available.
    pub path: Text,
    /// The reason.
    pub why: Unavailable,
}
