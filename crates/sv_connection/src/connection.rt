//! Serving one connection.

ghost use Rattle.std.specs.Prelude.{◌<◌, length};
ghost use Rattle.sv_connection.specs.Connection.{Connects, RunsConnection};

use crate::over::{Over, tell_over};
use crate::turn::take_turn;
use sv_run::{EventHandler, Happening, RunFault, StepFault};
use sv_streams::{Clock, MAX_READS, Sink, Source};

/// Serves one connection, under this number, from its opening to its end. Each read gives one piece, which is passed to
/// the handler with the time that the clock gives after the read. The bytes of its reaction are written before the next
/// read. Reads use the buffer, which must not be empty.
///
/// The connection ends when the stream ends, a reaction closes it, a read or a write fails, or [`MAX_READS`] reads were
/// made. The handler then takes the event of this end.
///
/// # Errors
/// The handler refused the opening, a piece, or the end: [`RunFault::NoMemory`] if memory ran out, else
/// [`RunFault::Connection`]. No event follows a refused one. The bytes of earlier reactions are written.
pub fn run_connection<R: EventHandler, S: Source + Sink, C: Clock>(
    handler: &mut R,
    connection: u64,
    stream: &mut S,
    clock: &mut C,
    buffer: &mut [u8],
) -> Result<Over, RunFault>
    requires { 0 < length buffer.old }
    ensures { RunsConnection R.steps S.makes C.tells connection handler.old stream.old clock.old result handler.new stream.new clock.new }
{
    match connect(handler, connection, stream, clock, buffer) {
        Ok(over) => Ok(over),
        Err(fault) => Err(RunFault::of_step(fault)),
    }
}

/// Serves one connection as [`run_connection`] does. The error is the fault of the refused event.
pub(crate) fn connect<R: EventHandler, S: Source + Sink, C: Clock>(
    handler: &mut R,
    connection: u64,
    stream: &mut S,
    clock: &mut C,
    buffer: &mut [u8],
) -> Result<Over, StepFault>
    requires { 0 < length buffer.old }
    ensures { Connects R.steps S.makes C.tells connection handler.old stream.old clock.old result handler.new stream.new clock.new }
{
    match handler.step(Happening::Opened { connection }) {
        Ok(_) => {}
        Err(fault) => return Err(fault),
    }
    for _ in 0..MAX_READS {
        match take_turn(handler, connection, stream, clock, buffer) {
            None => {}
            Some(result) => return result,
        }
    }
    tell_over(handler, connection, Over::Lost)
}
