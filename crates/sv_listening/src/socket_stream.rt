//! The stream of a socket, whose calls have timeouts.

ghost use Rattle.std.specs.Prelude.{◌≡◌, ◌<◌, ◌≤◌, length, IfOk};
ghost use Rattle.std.specs.Io.KnownBytes.{ReadConsumes, WriteAppends};
ghost use Rattle.sv_streams.specs.Standard.{IsCallOf};

use crate::pace::Pace;
use crate::time::{milliseconds, time_left};
use std::io;
use std::io::{ErrorKind, Read, Write};
use std::net::OpenStream;
use std::time::Clock;
use sv_streams::{ReadFailed, Sink, Source, Stream, WriteFailed};

/// The stream of a socket. A call fails if its connection was idle for
/// [`SERVE_IDLE_SECONDS`](crate::SERVE_IDLE_SECONDS), or if fewer than
/// [`BYTES_A_WINDOW`](sv_connection::BYTES_A_WINDOW) bytes move within
/// [`WINDOW_SECONDS`](sv_connection::WINDOW_SECONDS). The window of reads begins with the first bytes received, and
/// that of writes with the first write. An interrupted call is repeated, and a write that takes nothing fails.
#[derive(Drop)]
pub struct SocketStream<'a, T, H> {
    stream: T,
    clock: &'a H,
    pace: Pace,
}

impl<'a, T: Read + Write + OpenStream, H: Clock> SocketStream<'a, T, H> {
    /// Creates the stream of this socket, by the time of a clock.
    pub fn new(stream: T, clock: &'a H) -> SocketStream<'a, T, H>
        ensures { result.stream ≡ stream }
    {
        SocketStream {
            stream,
            clock,
            pace: Pace::new(),
        }
    }

    /// Returns the socket.
    pub fn into_stream(self) -> T
        ensures { result ≡ self.entry.stream }
    {
        self.stream
    }

    // Reads once, if there is time left.
    fn try_read(&mut self, buffer: &mut [u8]) -> io::Result<usize>
        ensures within { IfOk result (λ count. count ≤ length buffer.new) }
        ensures room { length buffer.new ≡ length buffer.old }
        ensures bytes { ReadConsumes (T.remaining self.old.stream) (T.remaining self.new.stream) result buffer.new }
    {
        let now = milliseconds(self.clock)?;
        let wait = time_left(self.pace.wait_to_read(now))?;
        self.stream.set_read_timeout(Some(wait))?;
        let count = self.stream.read(buffer)?;
        let then = milliseconds(self.clock).unwrap_or(now);
        self.pace.has_read(then, count);
        Ok(count)
    }

    // Writes once, if there is time left.
    fn try_write(&mut self, bytes: &[u8]) -> io::Result<usize>
        ensures within { IfOk result (λ count. count ≤ length bytes.now) }
        ensures bytes { WriteAppends (T.contents self.old.stream) (T.contents self.new.stream) result bytes.now }
    {
        let now = milliseconds(self.clock)?;
        let wait = time_left(self.pace.wait_to_write(now))?;
        self.stream.set_write_timeout(Some(wait))?;
        let count = self.stream.write(bytes)?;
        let then = milliseconds(self.clock).unwrap_or(now);
        self.pace.has_written(then, count);
        Ok(count)
    }
}

impl<T: Read + Write + OpenStream, H: Clock> Stream for SocketStream<'_, T, H> {
    ghost makes = { λ before call after. IsCallOf (T.remaining before.stream) (T.contents before.stream) call (T.remaining after.stream) (T.contents after.stream) };
}

impl<T: Read + Write + OpenStream, H: Clock> Source for SocketStream<'_, T, H> {
    fn read(&mut self, buffer: &mut [u8]) -> Result<usize, ReadFailed> {
        for _ in 0..u64::MAX {
            match self.try_read(buffer) {
                Ok(count) => return Ok(count),
                Err(error) if error.kind() == ErrorKind::Interrupted => {}
                Err(_) => return Err(ReadFailed),
            }
        }
        Err(ReadFailed)
    }
}

impl<T: Read + Write + OpenStream, H: Clock> Sink for SocketStream<'_, T, H> {
    fn write(&mut self, bytes: &[u8]) -> Result<usize, WriteFailed> {
        for _ in 0..u64::MAX {
            match self.try_write(bytes) {
                Ok(0) => return Err(WriteFailed),
                Ok(count) => return Ok(count),
                Err(error) if error.kind() == ErrorKind::Interrupted => {}
                Err(_) => return Err(WriteFailed),
            }
        }
        Err(WriteFailed)
    }
}
