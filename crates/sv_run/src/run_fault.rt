//! Faults that end a run early.

ghost use Rattle.std.specs.Prelude.{◌≡◌, Some};
ghost use Rattle.sv_run.specs.RunFault as spec;
ghost use Rattle.sv_run.specs.declared.run_fault.RunFault.TheVariants as fault;

use crate::step_fault::StepFault;
use std::error::Error;
use std::fmt;
use sv_journal::NewCode;
use sv_text::{NoMemory as OutOfMemory, Text};
use sv_uri::shown_context;

/// The reason why a run ended early. The fault is printed as the program names it.
#[derive(Debug, Drop)]
pub enum RunFault {
    /// The line with this number, counted from 1, cannot be read, or asks for an event that the container refuses for a
    /// reason other than memory. The text of the shutdown is written.
    Script(u64),
    /// The container did not start for a reason other than memory: the code, and the context path that goes with it.
    /// The text of the start is written, if one is promised.
    Start(NewCode, Text),
    /// A write of the output failed. Part of the text may have been written.
    Output,
    /// Memory ran out. The bytes written are the beginning of the text.
    NoMemory,
    /// No connection was available, or an event of one was refused for a reason other than memory.
    Connection,
}

impl RunFault {
    /// Returns the number of the fault, from 1 to 5.
    pub fn number(&self) -> u8
        ensures { result ≡ spec.number self.now }
    {
        match self {
            RunFault::Script(_) => 1,
            RunFault::Start(_, _) => 2,
            RunFault::Output => 3,
            RunFault::NoMemory => 4,
            RunFault::Connection => 5,
        }
    }

    /// Returns the exit status of a program whose run ended with this fault.
    pub fn status(&self) -> u8
        ensures { result ≡ spec.status self.now }
    {
        match self {
            RunFault::Script(_) => 2,
            RunFault::Start(_, _) => 1,
            RunFault::Output => 1,
            RunFault::NoMemory => 3,
            RunFault::Connection => 1,
        }
    }

    /// Returns the fault of a run over connections in which an event was refused.
    pub fn of_step(fault: StepFault) -> RunFault
        ensures { result ≡ spec.of_step fault }
    {
        match fault {
            StepFault::NoMemory => RunFault::NoMemory,
            StepFault::Stopped => RunFault::Connection,
            StepFault::BadConnection => RunFault::Connection,
            StepFault::TooManyConnections => RunFault::Connection,
        }
    }
}

impl fmt::Display for RunFault {
    ghost output = { λ fault. Some (spec.fault_text fault) };

    fn fmt<W: fmt::Write>(&self, f: &mut fmt::Formatter<W>) -> fmt::Result {
        match self {
            RunFault::Script(line) => write!(f, "script {line}"),
            RunFault::Start(code, context) => write!(
                f,
                "start {} {}",
                code.number(),
                shown_context(context.as_str())
            ),
            RunFault::Output => f.write_str("file stdout"),
            RunFault::NoMemory => f.write_str("no memory"),
            RunFault::Connection => f.write_str("socket"),
        }
    }
}

impl Error for RunFault {}

impl From<OutOfMemory> for RunFault {
    ghost from_gives = { λ _ refusal. refusal ≡ fault.NoMemory };

    fn from(_refused: OutOfMemory) -> RunFault {
        RunFault::NoMemory
    }
}
