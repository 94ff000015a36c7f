//! Reasons why an edit is refused.

ghost use Rattle.std.specs.Prelude.{◌≡◌, Some};
ghost use Rattle.sv_policy.specs.EditFault.{edit_fault_number, edit_fault_text};

use std::error::Error;
use std::fmt;
use sv_text::NoMemory;

/// The reason why an edit was refused: the first that applies. The policy is unchanged. The reason is printed as its
/// name, except `NoMemory`, which is printed as `no memory`.
#[derive(Clone, Copy, Debug, PartialEq, Eq)]
pub enum EditFault {
    /// No constraint has the number.
    NoSuch = 1,
    /// The policy has its maximum number of constraints, or the new one lists too many patterns.
    TooMany = 2,
    /// The greatest possible number has been assigned.
    NumberSpent = 3,
    /// Memory ran out; the same call may succeed later.
    NoMemory = 4,
}

impl EditFault {
    /// Returns the number of the fault, from 1 to 4.
    pub fn number(self) -> u8
        ensures { result ≡ edit_fault_number self }
    {
        self as u8
    }
}

impl fmt::Display for EditFault {
    ghost output = { λ fault. Some (edit_fault_text fault) };

    fn fmt<W: fmt::Write>(&self, f: &mut fmt::Formatter<W>) -> fmt::Result {
        f.write_str(match self {
            EditFault::NoSuch => "NoSuch",
            EditFault::TooMany => "TooMany",
            EditFault::NumberSpent => "NumberSpent",
            EditFault::NoMemory => "no memory",
        })
    }
}

impl Error for EditFault {}

impl From<NoMemory> for EditFault {
    ghost use Rattle.std.specs.Prelude.{◌≡◌};
    ghost use Rattle.sv_policy.specs.declared.edit_fault.EditFault.TheVariants as fault;

    ghost from_gives = { λ _ e. e ≡ fault.NoMemory };

    fn from(_refused: NoMemory) -> EditFault {
        Self::NoMemory
    }
}
