//! Closing the stream of a connection.

ghost use Rattle.std.specs.Prelude.{◌≡◌, ◌<◌, ◌≤◌, length, IfOk};
ghost use Rattle.std.specs.Io.KnownBytes.{ReadConsumes};
ghost use Rattle.sv_listening.specs.Parting.{Drops, DropsAtMost};
ghost use Rattle.sv_readiness.specs.declared.limits.TheConstants.{MAX_DROPPED_BYTES};

use crate::time::{milliseconds, time_left};
use std::io;
use std::io::{ErrorKind, Read};
use std::net::{OpenStream, Shutdown};
use std::time::Clock;
use sv_readiness::{DROPPED_READ_BYTES, LINGER_SECONDS, MAX_DROPPED_BYTES};

/// Ends the writing of a stream, reads and drops the bytes that its peer still sends, and closes it. A close with
/// unread bytes would reset the connection, and the peer could lose the last bytes written (RFC 9112, section 9.6).
pub(crate) fn part_from<T: Read + OpenStream + Drop, H: Clock>(clock: &H, stream: T) {
    let mut stream = stream;
    // If the shutdown fails, the peer is gone.
    if stream.shutdown(Shutdown::Write).is_ok() {
        drop_rest(clock, &mut stream);
    }
}

// Reads and drops bytes, until the stream ends or fails, enough of them were dropped, or the time is up.
fn drop_rest<T: Read + OpenStream, H: Clock>(clock: &H, stream: &mut T)
    ensures { DropsAtMost (T.remaining stream.old) MAX_DROPPED_BYTES (T.remaining stream.new) }
{
    let Ok(begin) = milliseconds(clock) else {
        return;
    };
    let until = begin.saturating_add(LINGER_SECONDS * 1000);
    let mut buffer = [0; DROPPED_READ_BYTES];
    let mut left = MAX_DROPPED_BYTES;
    for _ in 0..MAX_DROPPED_BYTES {
        if !drop_once(clock, stream, until, &mut buffer, &mut left) {
            return;
        }
    }
}

// Reads once, and returns whether more bytes may follow.
fn drop_once<T: Read + OpenStream, H: Clock>(
    clock: &H,
    stream: &mut T,
    until: u64,
    buffer: &mut [u8],
    left: &mut usize,
) -> bool
    requires { 0 < length buffer.old }
    ensures bytes { Drops (T.remaining stream.old) left.old left.new (T.remaining stream.new) }
    ensures buffer { length buffer.new ≡ length buffer.old }
{
    let most = buffer.len().min(*left);
    if most == 0 {
        return false;
    }
    match read_until(clock, stream, until, buffer.split_at_mut(most).0) {
        Ok(0) => false,
        Ok(count) => {
            *left -= count;
            true
        }
        Err(error) => error.kind() == ErrorKind::Interrupted,
    }
}

// Reads once, if there is time left until `until`.
fn read_until<T: Read + OpenStream, H: Clock>(
    clock: &H,
    stream: &mut T,
    until: u64,
    buffer: &mut [u8],
) -> io::Result<usize>
    ensures within { IfOk result (λ count. count ≤ length buffer.new) }
    ensures room { length buffer.new ≡ length buffer.old }
    ensures bytes { ReadConsumes (T.remaining stream.old) (T.remaining stream.new) result buffer.new }
{
    let now = milliseconds(clock)?;
    let wait = time_left(until.saturating_sub(now))?;
    stream.set_read_timeout(Some(wait))?;
    stream.read(buffer)
}
