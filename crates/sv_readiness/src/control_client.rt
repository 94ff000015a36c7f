//! A client of the control socket.

ghost use Rattle.std.specs.Prelude.{◌≡◌, ◌≤◌, drop, length};
ghost use Rattle.sv_readiness.specs.Polling.{IsLine};
ghost use Rattle.sv_readiness.specs.declared.control_client.Progress.TheVariants.{Asks};
ghost use Rattle.sv_readiness.specs.declared.control_line.Heard.TheVariants.{Whole};

use crate::calls::try_write;
use crate::control_line::{Heard, read_part};
use mio::net::UnixStream;
use mio::{Interest, Registry, Token};
use std::alloc::Global;
use std::mem;
use sv_connection::Tried;
use sv_text::Bytes;

const UNKNOWN: &[u8] = b"unknown\n";

/// What a client has come to.
#[derive(Clone, Copy, PartialEq, Eq)]
pub(crate) enum Progress {
    /// It goes on when its stream is ready again.
    Waits,
    /// Its line is whole.
    Asks,
    /// It has its reply, or is gone.
    Ends,
}

/// A client of the control socket: its stream, its line so far, and what is left of its reply. It is closed when it is
/// dropped.
#[derive(Drop)]
pub(crate) struct ControlClient {
    stream: UnixStream,
    token: Token,
    line: Vec<u8>,
    reply: Vec<u8>,
    until: u64,
}

impl ControlClient {
    /// Returns a client with this stream, which must send its line before the second `until`. Returns none if the
    /// registry cannot report the readiness of its stream, which is then closed.
    pub fn new(
        alloc: Global,
        registry: &Registry,
        stream: UnixStream,
        token: Token,
        until: u64,
    ) -> Option<ControlClient> {
        let mut stream = stream;
        match registry.register(&mut stream, token, Interest::READABLE) {
            Ok(()) => Some(ControlClient {
                stream,
                token,
                line: Vec::new(alloc),
                reply: Vec::new(alloc),
                until,
            }),
            Err(_) => None,
        }
    }

    /// Returns the second in which its time ends.
    pub fn until(&self) -> u64 {
        self.until
    }

    /// Returns its line so far.
    pub fn line(&self) -> &[u8]
        ensures { result.now ≡ self.now.line.items }
    {
        self.line.as_slice()
    }

    /// Takes its line.
    pub fn take_line(&mut self) -> Vec<u8>
        ensures { result ≡ self.old.line }
    {
        let none = Vec::new(*self.line.allocator());
        mem::replace(&mut self.line, none)
    }

    /// Reads its line, or writes more of its reply, until its line is whole, the next call would block, or it ends. A
    /// line that is too long is answered at once.
    pub fn proceed(&mut self, registry: &Registry) -> Progress
        ensures { result ≡ Asks → IsLine self.new.line.items }
    {
        if !self.reply.is_empty() {
            return self.write_on(registry);
        }
        match self.read_on() {
            Heard::Whole => Progress::Asks,
            Heard::Part | Heard::UntilPaused => Progress::Waits,
            Heard::TooLong => {
                self.say(UNKNOWN);
                Progress::Ends
            }
            Heard::End => Progress::Ends,
        }
    }

    // Reads until its line is whole or the next read would block.
    fn read_on(&mut self) -> Heard
        ensures { result ≡ Whole → IsLine self.new.line.items }
    {
        for _ in 0..u64::MAX {
            match read_part(&mut self.stream, &mut self.line) {
                Heard::Part => {}
                heard => return heard,
            }
        }
        Heard::UntilPaused
    }

    /// Writes a reply that may be longer than one write accepts, and must be read before the second `until`.
    pub fn answer(&mut self, text: Bytes, until: u64, registry: &Registry) -> Progress {
        self.reply = text.into_vec();
        self.until = until;
        self.write_on(registry)
    }

    /// Writes a short reply. It fits into the send buffer of a stream that was not written to.
    pub fn say(&mut self, words: &[u8]) {
        // A client that is gone misses the reply.
        let _ = try_write(&mut self.stream, words);
    }

    // Writes the rest of its reply until the next write would block.
    fn write_on(&mut self, registry: &Registry) -> Progress
        ensures { result ≡ Asks → IsLine self.new.line.items }
    {
        for _ in 0..u64::MAX {
            if self.reply.is_empty() {
                return Progress::Ends;
            }
            match try_write(&mut self.stream, self.reply.as_slice()) {
                Tried::Done(count) => skip(&mut self.reply, count),
                Tried::WouldBlock => return self.await_room(registry),
                Tried::Failed => return Progress::Ends,
            }
        }
        Progress::Ends
    }

    // Arms the stream for writing.
    fn await_room(&mut self, registry: &Registry) -> Progress
        ensures { result ≡ Asks → IsLine self.new.line.items }
    {
        match registry.reregister(&mut self.stream, self.token, Interest::WRITABLE) {
            Ok(()) => Progress::Waits,
            Err(_) => Progress::Ends,
        }
    }
}

// Removes the first `count` bytes.
fn skip(bytes: &mut Vec<u8>, count: usize)
    requires { count ≤ length bytes.old.items }
    ensures { bytes.new.items ≡ drop count bytes.old.items }
{
    let len = bytes.len();
    bytes.copy_within(count..len, 0);
    bytes.truncate(len - count);
}
