//! Nonblocking streams.

ghost use Rattle.std.specs.Prelude.{◌<◌, ◌++◌, length};
ghost use Rattle.sv_connection.specs.Ways.{TellsWait, TriesRead, TriesWrite, Ways};

/// The result of a nonblocking call.
#[derive(Clone, Copy, Debug, PartialEq, Eq)]
pub enum Tried {
    /// The number of bytes that were read or written. A read gives no bytes only at the end of the stream.
    Done(usize),
    /// The call would block. No bytes were read or written.
    WouldBlock,
    /// The call failed. No bytes were read or written.
    Failed,
}

/// The stream of a connection, whose calls do not block.
pub trait Peer {
    /// The model of its calls.
    ghost ways: { Ways Self };

    /// Reads into a buffer that is not empty. The bytes read are at its front.
    fn read(&mut self, buffer: &mut [u8]) -> Tried
        requires { 0 < length buffer.old }
        ensures { TriesRead ways self.old result buffer.new self.new };

    /// Returns whether a read is known to block, without trying it. The call forgets this knowledge.
    fn would_block(&mut self) -> bool
        ensures { TellsWait ways self.old result self.new };

    /// Writes the bytes of three slices in their order, at least one byte. The first of them are taken.
    fn write_slices(&mut self, first: &[u8], second: &[u8], third: &[u8]) -> Tried
        requires { 0 < length (first.now ++ second.now ++ third.now) }
        ensures { TriesWrite ways self.old result (first.now ++ second.now ++ third.now) self.new };

    /// Asks for readiness to be reported again, also if the stream was ready before. Returns whether this succeeded.
    fn arm(&mut self) -> bool
        ensures { ways.arms self.old self.new };
}
