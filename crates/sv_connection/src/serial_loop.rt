//! Connections that are accepted and served one after another.

ghost use Rattle.std.specs.Prelude.{◌<◌, length};
ghost use Rattle.sv_connection.specs.Serving.{Serves, ServesNext};

use crate::acceptor::Acceptor;
use crate::connection::connect;
use sv_run::{EventHandler, RunFault};
use sv_streams::Clock;

/// Accepts `count` connections one after another, numbered from 1. Each is served until it ends and its stream is
/// closed, before the next is accepted. A lost connection ends only itself. Reads use the buffer, which must not be
/// empty.
///
/// # Errors
/// [`RunFault::Connection`] if no connection could be accepted, or the handler refused an event for a reason other than
/// memory, and [`RunFault::NoMemory`] if memory ran out. No connection is accepted after a fault, and the accepted
/// streams are closed.
pub fn serve_connections<R: EventHandler, A: Acceptor, C: Clock>(
    handler: &mut R,
    acceptor: &mut A,
    clock: &mut C,
    count: u64,
    buffer: &mut [u8],
) -> Result<(), RunFault>
    requires { 0 < length buffer.old }
    ensures { Serves R.steps A.accepts A.parts A.Peer.makes C.tells count handler.old acceptor.old clock.old result handler.new acceptor.new clock.new }
{
    for served in 0..count {
        match serve_next(handler, acceptor, clock, served + 1, buffer) {
            Ok(()) => {}
            Err(fault) => return Err(fault),
        }
    }
    Ok(())
}

// Accepts a connection, serves it under this number until it ends, and closes its stream.
fn serve_next<R: EventHandler, A: Acceptor, C: Clock>(
    handler: &mut R,
    acceptor: &mut A,
    clock: &mut C,
    number: u64,
    buffer: &mut [u8],
) -> Result<(), RunFault>
    requires { 0 < length buffer.old }
    ensures { ServesNext R.steps A.accepts A.parts A.Peer.makes C.tells number handler.old acceptor.old clock.old result handler.new acceptor.new clock.new }
{
    let mut peer = match acceptor.accept() {
        Ok(peer) => peer,
        Err(_) => return Err(RunFault::Connection),
    };
    let served = connect(handler, number, &mut peer, clock, buffer);
    acceptor.part(peer);
    match served {
        Ok(_) => Ok(()),
        Err(refusal) => Err(RunFault::of_step(refusal)),
    }
}
