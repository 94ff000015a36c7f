//! The faults of a body.

ghost use Rattle.std.specs.Prelude.{Some};
ghost use Rattle.sv_wire.specs.BodyFault.{name_of};

use std::error::Error;
use std::fmt;

/// Why a body is refused.
#[derive(Clone, Copy, Debug)]
pub enum BodyFault {
    /// A size line is malformed or too long, or no CRLF follows a chunk's bytes (RFC 9112, section 7.1).
    BadChunk = 1,
    /// The sizes of the chunks exceed the limit of a body (RFC 9110, section 15.5.14).
    TooLarge = 2,
    /// The trailer section does not end within its limit (RFC 9112, section 7.1.2).
    TrailerTooLarge = 3,
}

impl fmt::Display for BodyFault {
    ghost output = { λ fault. Some (name_of fault) };

    fn fmt<W: fmt::Write>(&self, f: &mut fmt::Formatter<W>) -> fmt::Result {
        f.write_str(match self {
            BodyFault::BadChunk => "BadChunk",
            BodyFault::TooLarge => "TooLarge",
            BodyFault::TrailerTooLarge => "TrailerTooLarge",
        })
    }
}

impl Error for BodyFault {}
