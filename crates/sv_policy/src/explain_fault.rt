//! Reasons for a missing explanation.

ghost use Rattle.std.specs.Prelude.{◌≡◌, Some};
ghost use Rattle.sv_policy.specs.Fault.{fault_name, fault_number};
ghost use Rattle.sv_policy.specs.declared.explain_fault.ExplainFault.TheVariants as fault;

use std::error::Error;
use std::fmt;
use sv_text::NoMemory;

/// The reason why [`explain_request`](crate::explain_request) gave no explanation. It is printed as its name.
#[derive(Clone, Copy, Debug)]
pub enum ExplainFault {
    /// The method is not a token (RFC 9110, section 5.6.2).
    BadMethod = 1,
    /// The realm of the context has no user with this name.
    NoSuchUser = 2,
    /// Memory ran out. The request is not explained.
    NoMemory = 3,
}

impl ExplainFault {
    /// Returns the number of the fault, from 1 to 3.
    pub fn number(self) -> u8
        ensures { result ≡ fault_number self }
    {
        self as u8
    }
}

impl fmt::Display for ExplainFault {
    ghost output = { λ fault. Some (fault_name fault) };

    fn fmt<W: fmt::Write>(&self, f: &mut fmt::Formatter<W>) -> fmt::Result {
        f.write_str(match self {
            ExplainFault::BadMethod => "BadMethod",
            ExplainFault::NoSuchUser => "NoSuchUser",
            ExplainFault::NoMemory => "NoMemory",
        })
    }
}

impl Error for ExplainFault {}

impl From<NoMemory> for ExplainFault {
    ghost from_gives = { λ _ given. given ≡ fault.NoMemory };

    fn from(_: NoMemory) -> ExplainFault {
        ExplainFault::NoMemory
    }
}
