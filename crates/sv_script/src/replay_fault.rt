//! Faults that end a replay early.

ghost use Rattle.std.specs.Prelude.{◌≡◌, Some};
ghost use Rattle.sv_script.specs.ReplayFault as spec;

use std::error::Error;
use std::fmt;
use sv_run::StepFault;

/// The fault that ends a replay before the end of its script. The output is the text of the events accepted before.
#[derive(Clone, Copy, Debug, PartialEq, Eq)]
pub enum ReplayFault {
    /// The line with this number, counted from 1, has none of the forms. Or it was being read when a read failed, or
    /// when the maximum number of reads had been made. Or its event was refused because the connection is not known, is
    /// known already, or would exceed the maximum number of connections.
    Script(u64),
    /// A write failed. The event of the text was accepted, and part of that text may have been written.
    Output,
    /// Memory ran out. Or the event was refused because memory ran out, or because the handler is stopped. Nothing of
    /// that event was written, although it may have been accepted.
    NoMemory,
}

impl fmt::Display for ReplayFault {
    ghost output = { λ fault. Some (spec.fault_text fault) };

    fn fmt<W: fmt::Write>(&self, f: &mut fmt::Formatter<W>) -> fmt::Result {
        match self {
            ReplayFault::Script(line) => write!(f, "script {line}"),
            ReplayFault::Output => f.write_str("output"),
            ReplayFault::NoMemory => f.write_str("no memory"),
        }
    }
}

impl Error for ReplayFault {}

/// Returns the fault of a refused event, by the number of its line.
pub(crate) fn fault_of(line: u64, refusal: StepFault) -> ReplayFault
    ensures { result ≡ spec.fault_of line refusal }
{
    match refusal {
        StepFault::BadConnection | StepFault::TooManyConnections => ReplayFault::Script(line),
        StepFault::Stopped | StepFault::NoMemory => ReplayFault::NoMemory,
    }
}
