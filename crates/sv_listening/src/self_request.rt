//! A request that a program sends to itself.

use crate::own_acceptor::OwnAcceptor;
use crate::self_test::{ask, first_line};
use crate::sockets::{fault_of_run, listen};
use std::alloc::Global;
use std::io;
use std::io::ErrorKind;
use std::net::{Net, OpenListener, OpenStream, SocketAddr};
use std::time::Clock;
use sv_connection::{READ_BYTES, serve_connections};
use sv_program::{CommandFault, SocketFault};
use sv_run::EventHandler;
use sv_streams::SystemClock;

/// Listens at the port on this machine, connects to it, sends a `HEAD` request for the root path, serves only this
/// connection, and returns the first line of the response. Port 0 selects any free port. No call waits forever.
///
/// # Errors
/// [`CommandFault::Socket`] or [`CommandFault::NoMemory`].
pub fn own_answer<H: Net + Clock, R: EventHandler>(
    alloc: Global,
    host: &H,
    port: u16,
    handler: &mut R,
) -> Result<Vec<u8>, CommandFault> {
    let listener = listen(host, port)?;
    let Ok((client, address)) = connected(host, &listener) else {
        return Err(CommandFault::Socket(SocketFault::Connection));
    };
    let mut acceptor = OwnAcceptor::new(&listener, host, address);
    let mut clock = SystemClock::new(host);
    let mut buffer = [0; READ_BYTES];
    match serve_connections(handler, &mut acceptor, &mut clock, 1, &mut buffer) {
        Ok(()) => answered(alloc, client),
        Err(fault) => Err(fault_of_run(fault)),
    }
}

// Returns a connection to the listener and its address. The listener is then nonblocking.
fn connected<H: Net>(host: &H, listener: &H::Listener) -> io::Result<(H::Stream, SocketAddr)> {
    let client = ask(host, listener.local_addr()?)?;
    let address = client.local_addr()?;
    listener.set_nonblocking(true)?;
    Ok((client, address))
}

fn answered<T: io::Read + Drop>(alloc: Global, client: T) -> Result<Vec<u8>, CommandFault> {
    match first_line(alloc, client) {
        Ok(line) => Ok(line),
        Err(error) if error.kind() == ErrorKind::OutOfMemory => Err(CommandFault::NoMemory),
        Err(_) => Err(CommandFault::Socket(SocketFault::Connection)),
    }
}
