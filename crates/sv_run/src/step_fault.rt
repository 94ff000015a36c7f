//! Reasons to refuse an event.

ghost use Rattle.std.specs.Prelude.{◌≡◌, Some};
ghost use Rattle.sv_run.specs.StepFault.{fault_name, fault_number};
ghost use Rattle.sv_run.specs.declared.step_fault.StepFault.TheVariants as fault;

use std::error::Error;
use std::fmt;
use sv_text::NoMemory as OutOfMemory;

/// The reason why a container refuses an event. If several faults apply, the first one is reported. A fault is printed
/// as its name, `NoMemory` as `no memory`.
#[derive(Clone, Copy, Debug, PartialEq, Eq)]
pub enum StepFault {
    /// The container is stopped. Nothing has changed.
    Stopped = 1,
    /// The connection is not known, or is opened although it is known already. Nothing has changed, not even the time.
    BadConnection = 2,
    /// The maximum number of connections is known. Nothing has changed.
    TooManyConnections = 3,
    /// An allocation failed, or a component ran out of memory. The container is stopped, and the reaction to the event
    /// is lost. The expired sessions have ended, the event itself broke off, and the calls made so far have changed the
    /// components of the contexts.
    NoMemory = 4,
}

impl StepFault {
    /// Returns the number of the fault, from 1 to 4.
    pub fn number(self) -> u8
        ensures { result ≡ fault_number self }
    {
        self as u8
    }
}

impl fmt::Display for StepFault {
    ghost output = { λ fault. Some (fault_name fault) };

    fn fmt<W: fmt::Write>(&self, f: &mut fmt::Formatter<W>) -> fmt::Result {
        f.write_str(match self {
            StepFault::Stopped => "Stopped",
            StepFault::BadConnection => "BadConnection",
            StepFault::TooManyConnections => "TooManyConnections",
            StepFault::NoMemory => "no memory",
        })
    }
}

impl Error for StepFault {}

impl From<OutOfMemory> for StepFault {
    ghost from_gives = { λ _ refusal. refusal ≡ fault.NoMemory };

    fn from(_refused: OutOfMemory) -> StepFault {
        StepFault::NoMemory
    }
}
