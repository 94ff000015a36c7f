//! Faults of request targets.

use std::alloc::AllocError;
use std::error::Error;
use std::fmt;
use sv_text::NoMemory;

/// A fault of a request target (Jakarta Servlet 6.0, section 3.5.2). It is printed as its name. If there are several,
/// the first is reported: `Fragment`, then `NoSlash`, then the fault of the least number in the first faulty segment
/// from the left, and last `Climbs`.
#[derive(Clone, Copy, Debug, PartialEq, Eq)]
pub enum PathFault {
    /// A `#` occurs in the target, including its query.
    Fragment = 1,
    /// The target is empty or does not begin with `/`.
    NoSlash = 2,
    /// A `%` is not followed by two hexadecimal digits. This test and those up to `NotUtf8` apply to the part of a
    /// segment before its first `;`.
    BadEscape = 3,
    /// An escape of `/`.
    EncodedSlash = 4,
    /// A `\`, escaped or not.
    Backslash = 5,
    /// A byte below 32 or the byte 127, escaped or not.
    Control = 6,
    /// The decoded bytes are not UTF-8.
    NotUtf8 = 7,
    /// A `.` or `..` that was written with an escape or has a parameter.
    DotSegment = 8,
    /// An empty segment with a parameter.
    EmptyParameter = 9,
    /// A `..` has no name before it to remove.
    Climbs = 10,
}

impl PathFault {
    ghost use Rattle.std.specs.Prelude.{◌≡◌};
    ghost use Rattle.sv_uri.specs.Fault.{fault_number};

    /// Returns the number of the fault, from 1 to 10.
    pub fn number(self) -> u8
        ensures { result ≡ fault_number self }
    {
        self as u8
    }
}

impl fmt::Display for PathFault {
    ghost use Rattle.std.specs.Prelude.{Some};
    ghost use Rattle.sv_uri.specs.Fault.{fault_name};

    ghost output = { λ fault. Some (fault_name fault) };

    fn fmt<W: fmt::Write>(&self, f: &mut fmt::Formatter<W>) -> fmt::Result {
        f.write_str(match self {
            PathFault::Fragment => "Fragment",
            PathFault::NoSlash => "NoSlash",
            PathFault::BadEscape => "BadEscape",
            PathFault::EncodedSlash => "EncodedSlash",
            PathFault::Backslash => "Backslash",
            PathFault::Control => "Control",
            PathFault::NotUtf8 => "NotUtf8",
            PathFault::DotSegment => "DotSegment",
            PathFault::EmptyParameter => "EmptyParameter",
            PathFault::Climbs => "Climbs",
        })
    }
}

impl Error for PathFault {}

/// The reason why `canon` returned no canonical path.
#[derive(Clone, Copy, Debug, PartialEq, Eq)]
pub enum CanonFault {
    /// The target has no canonical path.
    Path(PathFault),
    /// An allocation was refused. The same call may succeed later.
    NoMemory,
}

impl fmt::Display for CanonFault {
    ghost use Rattle.std.specs.Prelude.{Some};
    ghost use Rattle.sv_uri.specs.Fault.{refusal_text};

    ghost output = { λ fault. Some (refusal_text fault) };

    fn fmt<W: fmt::Write>(&self, f: &mut fmt::Formatter<W>) -> fmt::Result {
        match self {
            CanonFault::Path(fault) => write!(f, "{fault}"),
            CanonFault::NoMemory => write!(f, "no memory"),
        }
    }
}

impl Error for CanonFault {}

impl From<NoMemory> for CanonFault {
    ghost use Rattle.std.specs.Prelude.{◌≡◌};
    ghost use Rattle.sv_uri.specs.declared.fault.CanonFault.TheVariants as fault;

    ghost from_gives = { λ _ e. e ≡ fault.NoMemory };

    fn from(_error: NoMemory) -> CanonFault {
        Self::NoMemory
    }
}

impl From<AllocError> for CanonFault {
    ghost use Rattle.std.specs.Prelude.{◌≡◌};
    ghost use Rattle.sv_uri.specs.declared.fault.CanonFault.TheVariants as fault;

    ghost from_gives = { λ _ e. e ≡ fault.NoMemory };

    fn from(_error: AllocError) -> CanonFault {
        Self::from(NoMemory)
    }
}
