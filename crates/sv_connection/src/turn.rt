//! One read of a connection, and its reaction.

ghost use Rattle.std.specs.Prelude.{◌<◌, ◌++◌, length};
ghost use Rattle.sv_streams.specs.Calls.{WritesAll};
ghost use Rattle.sv_connection.specs.TurnSteps.{Sends, TakesTurn};

use crate::over::{Over, tell_over};
use sv_message::Segments;
use sv_run::{EventHandler, Happening, Reaction, StepFault};
use sv_streams::{Clock, Sink, Source, WriteFailed, write_all};

/// Reads once, passes the piece to the handler with the time that the clock then gives, and writes the bytes of the
/// reaction. Returns none if the connection continues.
pub(crate) fn take_turn<R: EventHandler, S: Source + Sink, C: Clock>(
    handler: &mut R,
    connection: u64,
    stream: &mut S,
    clock: &mut C,
    buffer: &mut [u8],
) -> Option<Result<Over, StepFault>>
    requires { 0 < length buffer.old }
    ensures { TakesTurn R.steps connection S.makes C.tells handler.old stream.old clock.old result handler.new stream.new clock.new }
{
    let count = match stream.read(buffer) {
        Ok(count) => count,
        Err(_) => return Some(tell_over(handler, connection, Over::Lost)),
    };
    if count == 0 {
        return Some(tell_over(handler, connection, Over::Closed));
    }
    let moment = clock.now();
    let piece = Happening::Piece {
        connection,
        bytes: buffer.split_at(count).0,
        moment,
    };
    match handler.step(piece) {
        Ok(reaction) => send(handler, connection, stream, &reaction),
        Err(fault) => Some(Err(fault)),
    }
}

// Writes the bytes of a reaction. The connection ends if the write fails or the reaction closes it.
fn send<R: EventHandler, S: Sink>(
    handler: &mut R,
    connection: u64,
    stream: &mut S,
    reaction: &Reaction,
) -> Option<Result<Over, StepFault>>
    ensures { Sends R.steps connection S.makes handler.old stream.old reaction.now result handler.new stream.new }
{
    match write_segments(stream, &reaction.sends) {
        Ok(()) => {}
        Err(_) => return Some(tell_over(handler, connection, Over::Lost)),
    }
    if reaction.closes {
        return Some(tell_over(handler, connection, Over::Closed));
    }
    None
}

// Writes all segments in their order. If a write fails, no other write follows it.
fn write_segments<S: Sink>(stream: &mut S, segments: &Segments) -> Result<(), WriteFailed>
    ensures { WritesAll S.makes segments.now stream.old result stream.new }
{
    let (first, shared, last) = segments.slices();
    write_both(stream, first, shared)?;
    write_all(stream, last)
}

// Writes all bytes of both slices, the first one before the second. If a write fails, no other write follows it.
fn write_both<S: Sink>(stream: &mut S, first: &[u8], second: &[u8]) -> Result<(), WriteFailed>
    ensures { WritesAll S.makes (first.now ++ second.now) stream.old result stream.new }
{
    write_all(stream, first)?;
    write_all(stream, second)
}
