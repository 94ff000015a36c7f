//! Serving the connections of a port one after another.

use crate::serve::serve_on;
use crate::sockets::{fault_of_run, listen};
use std::alloc::Global;
use std::io::Write;
use std::net::Net;
use std::time::Clock;
use sv_program::CommandFault;
use sv_run::EventHandler;
use sv_streams::{SystemClock, WriteSink};

/// Listens at the port on this machine and writes the line `listening PORT`. Port 0 selects any free port. Then serves
/// `count` connections one after another, and writes the line `served COUNT`.
///
/// # Errors
/// [`CommandFault::Socket`], [`CommandFault::Output`] or [`CommandFault::NoMemory`], as the run meets them.
pub fn listen_and_serve<H: Net + Clock, W: Write, R: EventHandler>(
    alloc: Global,
    host: &H,
    writer: &mut W,
    port: u16,
    count: u64,
    handler: &mut R,
) -> Result<(), CommandFault> {
    let listener = listen(host, port)?;
    let mut clock = SystemClock::new(host);
    let mut output = WriteSink::new(writer);
    match serve_on(
        alloc,
        &listener,
        host,
        count,
        handler,
        &mut clock,
        &mut output,
    ) {
        Ok(()) => Ok(()),
        Err(fault) => Err(fault_of_run(fault)),
    }
}
