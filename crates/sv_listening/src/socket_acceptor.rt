//! Accepting the connections of a listener.

ghost use Rattle.std.specs.Prelude.{◌≡◌};

use crate::part_stream::PartStream;
use crate::socket_stream::SocketStream;
use crate::stream_close::part_from;
use std::io::{ErrorKind, Read, Write};
use std::net::{OpenListener, OpenStream};
use std::time::Clock;
use sv_connection::{AcceptFailed, Acceptor};

/// Accepts the connections of a listener. An accept that was interrupted, or whose peer is already gone, is repeated.
/// Connections are read in parts, and each is read on for a while after its end.
#[derive(Clone, Copy)]
pub struct SocketAcceptor<'a, N, H> {
    listener: &'a N,
    clock: &'a H,
}

impl<'a, N: OpenListener, H: Clock> SocketAcceptor<'a, N, H> {
    /// Creates an acceptor for this listener, by the time of a clock.
    pub fn new(listener: &'a N, clock: &'a H) -> SocketAcceptor<'a, N, H>
        ensures listener { result.listener ≡ listener.entry }
        ensures clock { result.clock ≡ clock.entry }
    {
        SocketAcceptor { listener, clock }
    }
}

impl<'a, N: OpenListener, H: Clock> Acceptor for SocketAcceptor<'a, N, H>
where
    N::Stream: Read + Write + OpenStream,
{
    type Peer = PartStream<SocketStream<'a, N::Stream, H>>;

    fn accept(&mut self) -> Result<PartStream<SocketStream<'a, N::Stream, H>>, AcceptFailed> {
        for _ in 0..u64::MAX {
            match self.listener.accept() {
                Ok((stream, _)) => return Ok(connection(stream, self.clock)),
                Err(error) if is_passing(error.kind()) => {}
                Err(_) => return Err(AcceptFailed),
            }
        }
        Err(AcceptFailed)
    }

    fn part(&mut self, peer: PartStream<SocketStream<'a, N::Stream, H>>) {
        part_from(self.clock, peer.into_stream().into_stream());
    }
}

/// Returns whether another accept may give a connection.
pub(crate) fn is_passing(kind: ErrorKind) -> bool {
    matches!(kind, ErrorKind::Interrupted | ErrorKind::ConnectionAborted)
}

/// Returns the connection of a socket.
pub(crate) fn connection<T: Read + Write + OpenStream + Drop, H: Clock>(
    stream: T,
    clock: &H,
) -> PartStream<SocketStream<'_, T, H>> {
    // A response is written in one piece. If the system still delays it, it arrives later and unchanged.
    let _ = stream.set_nodelay(true);
    PartStream::new(SocketStream::new(stream, clock))
}
