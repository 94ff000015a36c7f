//! Faults of parsing URL patterns.

ghost use Rattle.std.specs.Prelude.{Some};
ghost use Rattle.sv_mapping.specs.Fault.{pattern_fault_text};

use std::error::Error;
use std::fmt;
use sv_text::NoMemory;

/// The reason why [`Pattern::parse`](crate::Pattern::parse) returned no pattern. `BadPattern` is printed as its name,
/// and `NoMemory` as `no memory`.
#[derive(Clone, Copy, Debug, PartialEq, Eq)]
pub enum PatternFault {
    /// The text is not a URL pattern. This is reported even if there is no memory.
    BadPattern = 1,
    /// The text is a URL pattern, but there is no memory for a copy. The same call may succeed later.
    NoMemory = 2,
}

impl fmt::Display for PatternFault {
    ghost output = { λ fault. Some (pattern_fault_text fault) };

    fn fmt<W: fmt::Write>(&self, f: &mut fmt::Formatter<W>) -> fmt::Result {
        f.write_str(match self {
            PatternFault::BadPattern => "BadPattern",
            PatternFault::NoMemory => "no memory",
        })
    }
}

impl Error for PatternFault {}

impl From<NoMemory> for PatternFault {
    ghost use Rattle.std.specs.Prelude.{◌≡◌};
    ghost use Rattle.sv_mapping.specs.declared.fault.PatternFault.TheVariants as fault;

    ghost from_gives = { λ _ e. e ≡ fault.NoMemory };

    fn from(_refused: NoMemory) -> PatternFault {
        Self::NoMemory
    }
}
