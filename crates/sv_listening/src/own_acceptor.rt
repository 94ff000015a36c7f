//! Accepting the connection of one client.

ghost use Rattle.std.specs.Prelude.{◌≡◌};

use crate::limits::MAX_SELF_TEST_ACCEPTS;
use crate::part_stream::PartStream;
use crate::socket_acceptor::{connection, is_passing};
use crate::socket_stream::SocketStream;
use std::io::{ErrorKind, Read, Write};
use std::net::{OpenListener, OpenStream, SocketAddr};
use std::time::{Clock, Duration};
use sv_connection::{AcceptFailed, Acceptor};

/// Accepts the connection of one client, by its address, and closes those of strangers. It accepts at most
/// [`MAX_SELF_TEST_ACCEPTS`] times.
#[derive(Clone, Copy)]
pub struct OwnAcceptor<'a, N, H> {
    listener: &'a N,
    clock: &'a H,
    client: SocketAddr,
}

impl<'a, N: OpenListener, H: Clock> OwnAcceptor<'a, N, H> {
    /// Creates an acceptor for the client with this address, by the time of a clock. The listener must be nonblocking
    /// (`set_nonblocking`).
    pub fn new(listener: &'a N, clock: &'a H, client: SocketAddr) -> OwnAcceptor<'a, N, H>
        ensures listener { result.listener ≡ listener.entry }
        ensures clock { result.clock ≡ clock.entry }
        ensures client { result.client ≡ client }
    {
        OwnAcceptor {
            listener,
            clock,
            client,
        }
    }

    // Accepts once. Returns the client's connection, or none yet.
    fn accept_once(&self) -> Result<Option<N::Stream>, AcceptFailed> {
        match self.listener.accept() {
            Ok((stream, address)) => Ok(self.own(stream, address)),
            Err(error) if is_passing(error.kind()) => Ok(None),
            Err(error) if error.kind() == ErrorKind::WouldBlock => {
                self.clock.sleep(Duration::from_millis(10));
                Ok(None)
            }
            Err(_) => Err(AcceptFailed),
        }
    }

    // Returns the connection if it is the client's, and closes a stranger's.
    fn own(&self, stream: N::Stream, address: SocketAddr) -> Option<N::Stream> {
        if address == self.client {
            return Some(stream);
        }
        drop(stream);
        None
    }
}

impl<'a, N: OpenListener, H: Clock> Acceptor for OwnAcceptor<'a, N, H>
where
    N::Stream: Read + Write + OpenStream,
{
    type Peer = PartStream<SocketStream<'a, N::Stream, H>>;

    fn accept(&mut self) -> Result<PartStream<SocketStream<'a, N::Stream, H>>, AcceptFailed> {
        for _ in 0..MAX_SELF_TEST_ACCEPTS {
            match self.accept_once() {
                Ok(Some(stream)) => return Ok(connection(stream, self.clock)),
                Ok(None) => {}
                Err(failed) => return Err(failed),
            }
        }
        Err(AcceptFailed)
    }

    // There is nothing to read on: the client waits for the end, and sends nothing more.
    fn part(&mut self, peer: PartStream<SocketStream<'a, N::Stream, H>>) {
        drop(peer);
    }
}
