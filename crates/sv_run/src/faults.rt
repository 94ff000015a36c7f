//! The faults that refuse an event, and the time after an event.

ghost use Rattle.std.specs.Prelude.{◌≡◌};
ghost use Rattle.sv_run.specs.Connections.{connections_of};
ghost use Rattle.sv_run.specs.Events.{fault_of, moment_after, opening_fault, unknown_fault};
ghost use Rattle.sv_run.specs.Seen.{happening_of};

use crate::connections::Connections;
use crate::happening::Happening;
use crate::limits::{LAST_MOMENT, MAX_CONNECTIONS};
use crate::step_fault::StepFault;

/// Returns the time after an event that is not refused.
pub fn moment_after(before: u64, happening: Happening) -> u64
    ensures { result ≡ moment_after before (happening_of happening.entry) }
{
    match happening {
        Happening::Piece { moment, .. } => before.max(moment).min(LAST_MOMENT),
        Happening::Tick { moment } => before.max(moment).min(LAST_MOMENT),
        _ => before,
    }
}

/// Returns the fault that refuses an event of a running container, if any, apart from running out of memory.
#[inline(always)]
pub fn fault_of(connections: &Connections, happening: Happening) -> Option<StepFault>
    ensures { result ≡ fault_of (connections_of connections.now) (happening_of happening.entry) }
{
    match happening {
        Happening::Opened { connection } => opening_fault(connections, connection),
        Happening::Piece { connection, .. } => unknown_fault(connections, connection),
        Happening::Ended { connection } => unknown_fault(connections, connection),
        Happening::Lost { connection } => unknown_fault(connections, connection),
        Happening::Tick { .. } => None,
        Happening::Edit { .. } => None,
    }
}

/// Returns the fault of an opening, if any.
fn opening_fault(connections: &Connections, number: u64) -> Option<StepFault>
    ensures { result ≡ opening_fault ((connections_of connections.now).held number) (connections_of connections.now).known }
{
    if connections.is_known(number) {
        Some(StepFault::BadConnection)
    } else if connections.len() >= MAX_CONNECTIONS {
        Some(StepFault::TooManyConnections)
    } else {
        None
    }
}

/// Returns the fault of an event that requires a known connection, if any.
fn unknown_fault(connections: &Connections, number: u64) -> Option<StepFault>
    ensures { result ≡ unknown_fault ((connections_of connections.now).held number) }
{
    if connections.is_known(number) {
        None
    } else {
        Some(StepFault::BadConnection)
    }
}
