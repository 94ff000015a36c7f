//! The limits of the commands.

ghost use Rattle.std.specs.Prelude.{◌≡◌};

/// Maximum number of bytes that the command `first` reads: the limit of a request's head.
pub const MAX_INPUT_BYTES: u64 = 65_536;

/// Maximum number of bytes of a configuration file: 128 MiB.
pub const MAX_FILE_BYTES: u64 = 134_217_728;

/// Maximum number of characters shown of a text.
pub const MAX_SHOWN_CHARACTERS: usize = 80;

/// Maximum number of bytes of a file in which the line of a fault is found, whatever its lines are.
pub const MAX_LOCATED_BYTES: usize = 65_536;

/// Maximum number of bytes of a file in which the line of a fault is searched for: 4 MiB.
pub const MAX_SEARCHED_BYTES: usize = 4_194_304;

/// Maximum number of the lines from a header to the next, times the bytes of a file of more than [`MAX_LOCATED_BYTES`].
pub const MAX_SEARCHED_LINES: usize = 33_554_432;

/// Maximum number of bytes of the places that are tried for the column of a fault, times the bytes of the file.
pub const MAX_SAMPLED_BYTES: usize = 8_388_608;

/// The limits of this crate as numbers.
pub fn limits_are_as_stated()
    ensures input { MAX_INPUT_BYTES ≡ 65536 }
    ensures file { MAX_FILE_BYTES ≡ 134217728 }
{}

/// At most 80 characters of a text are shown. The line of a fault is found in files of at most 64 KiB. It is searched
/// for in files of at most 4 MiB, if the lines of a table times the bytes of the file are at most 32 Mi. Its column is
/// searched for in lines whose bytes times those of the file are at most 8 MiB.
pub fn limits_of_the_second_line()
    ensures characters { MAX_SHOWN_CHARACTERS ≡ 80 }
    ensures bytes { MAX_LOCATED_BYTES ≡ 65536 }
    ensures searched { MAX_SEARCHED_BYTES ≡ 4194304 }
    ensures lines { MAX_SEARCHED_LINES ≡ 33554432 }
    ensures samples { MAX_SAMPLED_BYTES ≡ 8388608 }
{}
