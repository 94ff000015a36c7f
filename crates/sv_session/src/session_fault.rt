//! Faults of the calls on the sessions of a context.

ghost use Rattle.std.specs.Prelude.{◌≡◌, Some};
ghost use Rattle.sv_session.specs.Fault.{fault_name, fault_number};
ghost use Rattle.sv_session.specs.declared.session_fault.SessionFault.TheVariants as fault;

use std::error::Error;
use std::fmt;
use sv_text::NoMemory as OutOfMemory;

/// The reason why a call on the sessions of a context was refused. A refused call changes nothing. If several faults
/// apply, the first is returned, in the order `NoSuch`, `TooLarge`, `TooMany`, `SerialSpent`, `NoMemory`. A fault is
/// printed as its name, and `NoMemory` as `no memory`.
#[derive(Clone, Copy, Debug, PartialEq, Eq)]
pub enum SessionFault {
    /// The limit of live sessions is reached.
    TooMany = 1,
    /// The greatest serial has been used.
    SerialSpent = 2,
    /// No live session has the number.
    NoSuch = 3,
    /// Memory ran out.
    NoMemory = 4,
    /// The name or the value is too long, or the session has the maximum number of attributes but none of this name.
    TooLarge = 5,
}

impl SessionFault {
    /// Returns the number of the fault, from 1 to 5.
    pub fn number(self) -> u8
        ensures { result ≡ fault_number self }
    {
        self as u8
    }
}

impl fmt::Display for SessionFault {
    ghost output = { λ fault. Some (fault_name fault) };

    fn fmt<W: fmt::Write>(&self, f: &mut fmt::Formatter<W>) -> fmt::Result {
        f.write_str(match self {
            SessionFault::TooMany => "TooMany",
            SessionFault::SerialSpent => "SerialSpent",
            SessionFault::NoSuch => "NoSuch",
            SessionFault::NoMemory => "no memory",
            SessionFault::TooLarge => "TooLarge",
        })
    }
}

impl Error for SessionFault {}

impl From<OutOfMemory> for SessionFault {
    ghost from_gives = { λ _ refusal. refusal ≡ fault.NoMemory };

    fn from(_refused: OutOfMemory) -> SessionFault {
        SessionFault::NoMemory
    }
}
