//! Serving the connections of a listener.

use crate::socket_acceptor::SocketAcceptor;
use std::alloc::Global;
use std::io::{Read, Write};
use std::net::{OpenListener, OpenStream};
use sv_connection::{READ_BYTES, serve_connections};
use sv_run::{EventHandler, RunFault};
use sv_streams::{Clock, Sink, write_all};
use sv_text::{NoMemory, Text};

/// Writes the line `listening PORT`, accepts `count` connections of the listener one after another, serves each until
/// it ends, and writes the line `served COUNT`. The timeouts of a connection use the host's monotonic clock, and the
/// times of its pieces use `clock`.
///
/// # Errors
/// [`RunFault::Output`] if a line could not be written, [`RunFault::NoMemory`] if memory ran out, and
/// [`RunFault::Connection`] if the listener has no address, no connection could be accepted, or an event was refused
/// for a reason other than memory. No connection is accepted after a fault.
pub fn serve_on<N: OpenListener, H: std::time::Clock, R: EventHandler, C: Clock, O: Sink>(
    alloc: Global,
    listener: &N,
    host: &H,
    count: u64,
    handler: &mut R,
    clock: &mut C,
    output: &mut O,
) -> Result<(), RunFault>
where
    N::Stream: Read + Write + OpenStream,
{
    let mut buffer = [0; READ_BYTES];
    let Ok(address) = listener.local_addr() else {
        return Err(RunFault::Connection);
    };
    print(output, line(alloc, "listening", u64::from(address.port())))?;
    let mut acceptor = SocketAcceptor::new(listener, host);
    serve_connections(handler, &mut acceptor, clock, count, &mut buffer)?;
    print(output, line(alloc, "served", count))
}

fn line(alloc: Global, word: &str, number: u64) -> Result<Text, NoMemory> {
    Ok(Text::from_string(format!(in alloc; "{word} {number}\n")?))
}

fn print<O: Sink>(output: &mut O, line: Result<Text, NoMemory>) -> Result<(), RunFault> {
    let line = line?;
    match write_all(output, line.as_bytes()) {
        Ok(()) => Ok(()),
        Err(_) => Err(RunFault::Output),
    }
}
