//! Accepting connections one after another.

use sv_streams::{Sink, Source};

/// The error of an accept that failed.
#[derive(Clone, Copy, Debug, PartialEq, Eq)]
pub struct AcceptFailed;

/// Accepts connections one after another.
pub trait Acceptor {
    ghost use Rattle.std.specs.Prelude.{Result};
    ghost use Rattle.sv_connection.specs.declared.acceptor.AcceptFailed.{AcceptFailed};

    /// The stream of a connection.
    type Peer: Source + Sink + Drop;

    /// The model of an accept: the acceptor before it, the result, and the acceptor after it. By default an accept may
    /// give anything.
    ghost accepts: { Self → Result Self.Peer AcceptFailed → Self → Type 0 } = { λ _ _ _. Unit {0} };

    /// The model of a close: the acceptor before it, the stream, and the acceptor after it. By default a close may do
    /// anything.
    ghost parts: { Self → Self.Peer → Self → Type 0 } = { λ _ _ _. Unit {0} };

    /// Accepts the next connection.
    ///
    /// # Errors
    /// No connection could be accepted.
    fn accept(&mut self) -> Result<Self::Peer, AcceptFailed>
        ensures { accepts self.old result self.new };

    /// Closes the stream of a connection that has ended. Bytes that its peer may still send reach no handler.
    fn part(&mut self, peer: Self::Peer)
        ensures { parts self.old peer self.new };
}
