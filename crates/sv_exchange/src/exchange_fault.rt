//! The faults of changing calls.

ghost use Rattle.std.specs.Prelude.{◌≡◌, Some};
ghost use Rattle.sv_exchange.specs.declared.exchange_fault.ExchangeFault.TheVariants as faults;
ghost use Rattle.sv_exchange.specs.Fault.{fault_name, fault_number, fault_status};
ghost use Rattle.sv_exchange.specs.Sessions.{fault_of};

use std::alloc::{AllocError, AllocFailed};
use std::error::Error;
use std::fmt;
use sv_session::SessionFault;
use sv_text::NoMemory;

/// The reason why a changing call was refused. Nothing changes on a fault. Of several faults, a call returns the first
/// of `Committed`, `BadHeader`, `NoSession`, `TooLarge`, `TooManySessions`, `SerialSpent` and `NoMemory`. A call that
/// would be ignored has no fault. A fault is printed as its name.
#[derive(Clone, Copy, Debug, PartialEq, Eq)]
pub enum ExchangeFault {
    /// A session cannot be opened after the response is committed, since its cookie could not be set.
    Committed = 1,
    /// The context has the maximum number of sessions.
    TooManySessions = 2,
    /// The greatest serial of the context's sessions is used up.
    SerialSpent = 3,
    /// The request has no session that is alive.
    NoSession = 4,
    /// An allocation failed. The same call may succeed later.
    NoMemory = 5,
    /// The name or the value is not valid for a field (RFC 9110, sections 5.1 and 5.5).
    BadHeader = 6,
    /// The body would be longer than [`MAX_RESPONSE_BODY_LEN`](crate::MAX_RESPONSE_BODY_LEN); or the name or the value of a session
    /// attribute is too long, or the session has the maximum number of other attributes.
    TooLarge = 7,
}

impl ExchangeFault {
    /// Returns the number of the fault, from 1 to 7.
    pub fn number(self) -> u8
        ensures { result ≡ fault_number self }
    {
        self as u8
    }

    /// Returns the status with which a component can respond to the request after the fault (RFC 9110, section 15.6).
    /// It is 503 for `TooManySessions` and `NoMemory`, when the server is full for now, and 500 for all other faults.
    pub fn status(self) -> u16
        ensures { result ≡ fault_status self }
    {
        match self {
            ExchangeFault::TooManySessions | ExchangeFault::NoMemory => 503,
            _ => 500,
        }
    }
}

impl fmt::Display for ExchangeFault {
    ghost output = { λ fault. Some (fault_name fault) };

    fn fmt<W: fmt::Write>(&self, f: &mut fmt::Formatter<W>) -> fmt::Result {
        f.write_str(match self {
            ExchangeFault::Committed => "Committed",
            ExchangeFault::TooManySessions => "TooManySessions",
            ExchangeFault::SerialSpent => "SerialSpent",
            ExchangeFault::NoSession => "NoSession",
            ExchangeFault::NoMemory => "NoMemory",
            ExchangeFault::BadHeader => "BadHeader",
            ExchangeFault::TooLarge => "TooLarge",
        })
    }
}

impl Error for ExchangeFault {}

impl From<SessionFault> for ExchangeFault {
    ghost from_gives = { λ refused fault. fault ≡ fault_of refused };

    fn from(refused: SessionFault) -> ExchangeFault {
        match refused {
            SessionFault::TooMany => ExchangeFault::TooManySessions,
            SessionFault::SerialSpent => ExchangeFault::SerialSpent,
            SessionFault::NoSuch => ExchangeFault::NoSession,
            SessionFault::NoMemory => ExchangeFault::NoMemory,
            SessionFault::TooLarge => ExchangeFault::TooLarge,
        }
    }
}

impl From<NoMemory> for ExchangeFault {
    ghost from_gives = { λ _ fault. fault ≡ faults.NoMemory };

    fn from(_error: NoMemory) -> ExchangeFault {
        ExchangeFault::NoMemory
    }
}

impl From<AllocError> for ExchangeFault {
    ghost from_gives = { λ _ fault. fault ≡ faults.NoMemory };

    fn from(_error: AllocError) -> ExchangeFault {
        ExchangeFault::NoMemory
    }
}

impl<T: Drop> From<AllocFailed<T>> for ExchangeFault {
    ghost from_gives = { λ _ fault. fault ≡ faults.NoMemory };

    fn from(_error: AllocFailed<T>) -> ExchangeFault {
        ExchangeFault::NoMemory
    }
}
