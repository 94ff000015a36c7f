//! The nonblocking stream of a connection.

ghost use Rattle.std.specs.Prelude.{◌≡◌, ◌&&◌, ◌⊎◌, false, nat_le, true};
ghost use Rattle.sv_readiness.specs.declared.limits.TheConstants.{MAX_SENT_AT_ONCE};

use crate::calls::{try_gathered, try_read, try_write};
use crate::gathering::GatheringWrite;
use crate::limits::MAX_SENT_AT_ONCE;
use mio::event::Source;
use mio::{Interest, Registry, Token};
use std::io::Read;
use sv_connection::{Peer, Tried};

/// A stream whose readiness is reported under a token. It is registered with the system at the first call that would
/// block. A connection that gets its response and closes before that is never registered.
///
/// A read that does not fill its buffer has taken all input that had arrived. The next read returns that it would
/// block, without a system call. A write that would block, or arming the stream, ends this state: a connection pauses
/// only there. The system reports input that arrives after such a read. The poller delivers an end that arrived with
/// the input twice (see `Ready`). Write readiness is reported only after a first write that would block. Most
/// responses fit into the send buffer, and a new connection would be reported as writable before any input.
#[derive(Drop)]
pub struct StreamPeer<'a, T> {
    stream: T,
    registry: &'a Registry,
    token: Token,
    is_drained: bool,
    is_reported: bool,
    is_told_of_room: bool,
    written: usize,
}

impl<'a, T: Source> StreamPeer<'a, T> {
    /// Returns the peer of a stream. The registry reports its readiness under the token.
    pub fn new(stream: T, registry: &'a Registry, token: Token) -> StreamPeer<'a, T>
        ensures stream { result.stream ≡ stream }
        ensures token { result.token ≡ token }
        ensures drained { result.is_drained ≡ false }
        ensures reported { result.is_reported ≡ false }
        ensures written { result.written ≡ 0 }
    {
        StreamPeer {
            stream,
            registry,
            token,
            is_drained: false,
            is_reported: false,
            is_told_of_room: false,
            written: 0,
        }
    }

    /// Whether the last read took all input that had arrived, and the output is small enough to be sent at once.
    pub fn is_settled(&self) -> bool
        ensures { result ≡ (self.now.is_drained && nat_le self.now.written MAX_SENT_AT_ONCE) }
    {
        self.is_drained && self.written <= MAX_SENT_AT_ONCE
    }

    /// Returns the stream.
    pub fn into_stream(self) -> T
        ensures { result ≡ self.entry.stream }
    {
        self.stream
    }

    /// Arms the stream for reading if it is not registered yet. Arming also reports input that arrived before. Returns
    /// whether the stream is registered.
    pub(crate) fn arm_for_reading(&mut self) -> bool
        ensures kept { (self.new.stream ≡ self.old.stream) ⊎ T.keeps self.old.stream self.new.stream }
        ensures reported { result ≡ self.new.is_reported }
        ensures known { self.old.is_reported ≡ true → self.new ≡ self.old }
    {
        if !self.is_reported {
            self.ask_for(Interest::READABLE);
        }
        self.is_reported
    }

    // Arms the stream for these interests, including readiness from before. Returns whether that succeeded.
    fn ask_for(&mut self, interests: Interest) -> bool
        ensures { T.keeps self.old.stream self.new.stream }
    {
        let asked = if self.is_reported {
            self.registry
                .reregister(&mut self.stream, self.token, interests)
        } else {
            self.registry
                .register(&mut self.stream, self.token, interests)
        };
        self.is_reported = self.is_reported || asked.is_ok();
        asked.is_ok()
    }

    // Arms the stream for reading and writing, including readiness from before.
    fn ask_for_both(&mut self) -> bool
        ensures { T.keeps self.old.stream self.new.stream }
    {
        self.is_drained = false;
        self.is_told_of_room = self.ask_for(Interest::READABLE | Interest::WRITABLE);
        self.is_told_of_room
    }

    // Waits for more input. If arming fails, the connection ends when its time limit expires.
    fn wait_for_more(&mut self)
        ensures { (self.new.stream ≡ self.old.stream) ⊎ T.keeps self.old.stream self.new.stream }
    {
        self.is_drained = false;
        self.arm_for_reading();
    }

    // Waits until the stream is writable. If arming fails, the connection ends when its time limit expires.
    fn wait_for_room(&mut self)
        ensures { (self.new.stream ≡ self.old.stream) ⊎ T.keeps self.old.stream self.new.stream }
    {
        self.is_drained = false;
        if !self.is_told_of_room {
            self.ask_for_both();
        }
    }
}

impl<T: Read + GatheringWrite + Source> Peer for StreamPeer<'_, T> {
    ghost use Rattle.std.specs.Prelude.{◌≡◌, ◌⊎◌};
    ghost use Rattle.sv_readiness.specs.Calls.{Blocks};
    ghost use Rattle.sv_streams.specs.Standard.{IsCallOf};

    ghost ways = { record {
      makes = λ before call after. IsCallOf (T.remaining before.stream) (T.contents before.stream) call (T.remaining after.stream) (T.contents after.stream);
      blocks = λ before after. Blocks (T.remaining before.stream) (T.contents before.stream) (T.remaining after.stream) (T.contents after.stream)
          ⊎ ((between : T) × Blocks (T.remaining before.stream) (T.contents before.stream) (T.remaining between) (T.contents between)
          × T.keeps between after.stream);
      arms = λ before after. T.keeps before.stream after.stream;
    } };

    fn read(&mut self, buffer: &mut [u8]) -> Tried {
        if self.is_drained {
            self.wait_for_more();
            return Tried::WouldBlock;
        }
        let tried = try_read(&mut self.stream, buffer);
        self.is_drained = leaves_room(tried, buffer.len());
        if tried == Tried::WouldBlock {
            self.wait_for_more();
        }
        tried
    }

    fn would_block(&mut self) -> bool {
        if !self.is_drained {
            return false;
        }
        self.wait_for_more();
        true
    }

    #[inline(always)]
    fn write_slices(&mut self, first: &[u8], second: &[u8], third: &[u8]) -> Tried {
        let tried = if second.is_empty() && third.is_empty() {
            try_write(&mut self.stream, first)
        } else {
            try_gathered(&mut self.stream, first, second, third)
        };
        match tried {
            Tried::Done(count) => self.written = self.written.saturating_add(count),
            Tried::WouldBlock => self.wait_for_room(),
            Tried::Failed => {}
        }
        tried
    }

    fn arm(&mut self) -> bool {
        self.ask_for_both()
    }
}

// Whether a read returned fewer bytes than its buffer holds, but at least one.
fn leaves_room(tried: Tried, len: usize) -> bool {
    matches!(tried, Tried::Done(count) if 0 < count && count < len)
}
