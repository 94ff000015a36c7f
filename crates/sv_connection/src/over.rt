//! The end of a connection.

ghost use Rattle.std.specs.Prelude.{◌≡◌};
ghost use Rattle.sv_connection.specs.TurnSteps.{TellsOver};

use sv_run::{EventHandler, Happening, StepFault};

/// How a connection ended.
#[derive(Clone, Copy, Debug, PartialEq, Eq)]
pub enum Over {
    /// The peer ended its stream, or a reaction closed the connection. All bytes to send were written.
    Closed,
    /// A read or a write failed, or the limit of reads was met. Part of the bytes to send may have been written.
    Lost,
}

/// Passes the event of a connection's end to the handler.
pub(crate) fn tell_over<R: EventHandler>(
    handler: &mut R,
    connection: u64,
    over: Over,
) -> Result<Over, StepFault>
    ensures { TellsOver R.steps connection handler.old over result handler.new }
{
    let event = match over {
        Over::Closed => Happening::Ended { connection },
        Over::Lost => Happening::Lost { connection },
    };
    match handler.step(event) {
        Ok(_) => Ok(over),
        Err(fault) => Err(fault),
    }
}
