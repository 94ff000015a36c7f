//! Why a message is refused.

ghost use Rattle.std.specs.Prelude.{◌≡◌, Some};
ghost use Rattle.sv_wire.specs.WireFault.{fault_name, fault_number, fault_of, fault_status};

use crate::body_fault::BodyFault;
use std::error::Error;
use std::fmt;

/// Why a message is refused. A refusal is the last item of a stream: nothing after it is read.
#[derive(Clone, Copy, Debug)]
pub enum WireFault {
    /// The head is not in the form of a request (RFC 9112, section 2.1).
    BadHead = 1,
    /// The Host field is missing, repeated or invalid (RFC 9112, section 3.2).
    BadHost = 2,
    /// The length of the body cannot be determined (RFC 9112, section 6).
    BadFraming = 3,
    /// The body has a coding other than `chunked` (RFC 9112, section 6.1).
    UnknownCoding = 4,
    /// The head or the trailer section is too long (RFC 6585, section 5).
    HeadTooLarge = 5,
    /// The body is too long (RFC 9110, section 15.5.14).
    BodyTooLarge = 6,
    /// The expectation is not `100-continue` (RFC 9110, section 10.1.1).
    BadExpect = 7,
    /// The target is in no form that is served (RFC 9112, section 3.2).
    BadTarget = 8,
}

impl WireFault {
    /// Returns the number of the fault, from 1 to 8.
    pub fn number(self) -> u8
        ensures { result ≡ fault_number self }
    {
        self as u8
    }

    /// Returns the fault of a message whose body has this fault.
    pub fn of_body(fault: BodyFault) -> WireFault
        ensures { result ≡ fault_of fault }
    {
        match fault {
            BodyFault::BadChunk => WireFault::BadFraming,
            BodyFault::TooLarge => WireFault::BodyTooLarge,
            BodyFault::TrailerTooLarge => WireFault::HeadTooLarge,
        }
    }

    /// Returns the status of the response to a message refused for this fault.
    pub fn status(self) -> u16
        ensures { result ≡ fault_status self }
    {
        match self {
            WireFault::UnknownCoding => 501,
            WireFault::HeadTooLarge => 431,
            WireFault::BodyTooLarge => 413,
            WireFault::BadExpect => 417,
            WireFault::BadHead
            | WireFault::BadHost
            | WireFault::BadFraming
            | WireFault::BadTarget => 400,
        }
    }
}

impl fmt::Display for WireFault {
    ghost output = { λ fault. Some (fault_name fault) };

    fn fmt<W: fmt::Write>(&self, f: &mut fmt::Formatter<W>) -> fmt::Result {
        f.write_str(match self {
            WireFault::BadHead => "BadHead",
            WireFault::BadHost => "BadHost",
            WireFault::BadFraming => "BadFraming",
            WireFault::UnknownCoding => "UnknownCoding",
            WireFault::HeadTooLarge => "HeadTooLarge",
            WireFault::BodyTooLarge => "BodyTooLarge",
            WireFault::BadExpect => "BadExpect",
            WireFault::BadTarget => "BadTarget",
        })
    }
}

impl Error for WireFault {}
