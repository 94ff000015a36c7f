//! Serving all connections of an address at once.

use crate::sockets::{address_fault, fault_of_run, signals_fault, socket_file_fault};
use std::alloc::Global;
use std::cell::Cell;
use std::io::Write;
use std::net::{Net, SocketAddr};
use std::rt::Files;
use std::time::Clock;
use sv_connection::{Limits, LoopEnd, Queries, WithoutQueries, run_event_loop};
use sv_program::{CommandFault, SocketFault, print_line};
use sv_readiness::{LastAccepted, Listening, RoundClock, Sockets};
use sv_run::{EventHandler, RunFault};

/// The address that a server listens on, the limits of its connections, its control socket, its signals, and the place
/// for the addresses of its clients.
#[derive(Clone, Copy)]
pub struct ListenOptions<'a> {
    /// The address. Port 0 selects any free port.
    pub address: SocketAddr,
    /// The limits of all connections.
    pub limits: Limits,
    /// The name of the control socket file, if there is one.
    pub control: Option<&'a str>,
    /// The number of the descriptor at which the signals of the process are read, if there is one.
    pub signals: Option<u32>,
    /// Where the address of the client that was accepted last is noted.
    pub last: &'a LastAccepted,
}

/// Listens at the address and writes the line `listening ADDRESS:PORT`. Port 0 selects any free port. Then serves all
/// connections until the process is ended from outside, within the limits of a site that sets none. No connection waits
/// for another. Returns the handler.
///
/// # Errors
/// [`CommandFault::Socket`], [`CommandFault::Output`] or [`CommandFault::NoMemory`], as the run meets them.
pub fn listen_and_run<H: Net + Clock, W: Write, R: EventHandler>(
    alloc: Global,
    host: &H,
    writer: &mut W,
    address: SocketAddr,
    handler: R,
) -> (Result<(), CommandFault>, R) {
    let listening = match Listening::at(host, address) {
        Ok(listening) => listening,
        Err(error) => return (Err(address_fault(address, error)), handler),
    };
    let last = LastAccepted::new();
    let serving = Serving {
        listening,
        limits: Limits::standard(),
        last: &last,
    };
    let without_queries = WithoutQueries::new(handler);
    let (served, handler) = tell_and_run(alloc, host, writer, serving, without_queries);
    (served, handler.into_within())
}

/// Serves as [`listen_and_run`] does, with these options. If a socket file is named, it also answers queries there,
/// passes the edits sent there to the handler, and ends when the line `stop` is sent there. If a descriptor of signals is
/// given, it also ends at SIGTERM or SIGINT. Then the bytes that wait are written for at most 5 seconds, and the bytes
/// that peers still send are read and dropped for 2 more seconds.
///
/// # Errors
/// [`CommandFault::Socket`]; then [`CommandFault::File`] for a descriptor of signals, or for a socket file, that cannot be
/// used; then those of [`listen_and_run`].
pub fn run_controlled<H: Net + Clock + Files, W: Write, R: EventHandler + Queries>(
    alloc: Global,
    host: &H,
    writer: &mut W,
    options: ListenOptions<'_>,
    handler: R,
) -> (Result<(), CommandFault>, R) {
    let mut listening = match Listening::at(host, options.address) {
        Ok(listening) => listening,
        Err(error) => return (Err(address_fault(options.address, error)), handler),
    };
    if let Err(fault) = take_signals(alloc, &mut listening, options.signals) {
        return (Err(fault), handler);
    }
    match take_lines(alloc, host, &mut listening, options.control) {
        Ok(()) => {
            let serving = Serving {
                listening,
                limits: options.limits,
                last: options.last,
            };
            tell_and_run(alloc, host, writer, serving, handler)
        }
        Err(fault) => (Err(fault), handler),
    }
}

// A listener, the limits of its connections, and the place for the addresses of its clients.
#[derive(Drop)]
struct Serving<'a> {
    listening: Listening,
    limits: Limits,
    last: &'a LastAccepted,
}

// Writes the address of the listener, and serves.
fn tell_and_run<H: Net + Clock, W: Write, R: EventHandler + Queries>(
    alloc: Global,
    host: &H,
    writer: &mut W,
    serving: Serving<'_>,
    handler: R,
) -> (Result<(), CommandFault>, R) {
    match tell_address(alloc, writer, &serving.listening) {
        Ok(()) => run_listening(alloc, host, serving, handler),
        Err(fault) => (Err(fault), handler),
    }
}

// Takes signals at the descriptor, if one is given.
fn take_signals(
    alloc: Global,
    listening: &mut Listening,
    signals: Option<u32>,
) -> Result<(), CommandFault> {
    let Some(descriptor) = signals else {
        return Ok(());
    };
    match listening.take_signals_at(descriptor) {
        Ok(()) => Ok(()),
        Err(_) => Err(signals_fault(alloc, descriptor)),
    }
}

// Takes lines at the socket file, if one is named.
fn take_lines<H: Net + Files>(
    alloc: Global,
    host: &H,
    listening: &mut Listening,
    control: Option<&str>,
) -> Result<(), CommandFault> {
    let Some(name) = control else {
        return Ok(());
    };
    match listening.take_lines_at(host, name) {
        Ok(()) => Ok(()),
        Err(error) => Err(socket_file_fault(alloc, name, error)),
    }
}

// Writes the address of the listener.
fn tell_address<W: Write>(
    alloc: Global,
    writer: &mut W,
    listening: &Listening,
) -> Result<(), CommandFault> {
    let Ok(address) = listening.address() else {
        return Err(CommandFault::Socket(SocketFault::Poll));
    };
    let line = format!(in alloc; "listening {address}")?;
    print_line(writer, line.as_str())
}

// Serves the connections of a listener.
fn run_listening<H: Net + Clock, R: EventHandler + Queries>(
    alloc: Global,
    host: &H,
    serving: Serving<'_>,
    handler: R,
) -> (Result<(), CommandFault>, R) {
    let Serving {
        listening,
        limits,
        last,
    } = serving;
    let Ok(registry) = listening.registry() else {
        return (Err(CommandFault::Socket(SocketFault::Poll)), handler);
    };
    let moment = Cell::new(0);
    match Sockets::new(alloc, host, &registry, listening, &moment, last) {
        Ok(sockets) => run_sockets(alloc, &moment, sockets, limits, handler),
        Err(_) => (Err(CommandFault::NoMemory), handler),
    }
}

// Serves the connections of a poller, and runs lingering close to its end.
fn run_sockets<H: Clock, R: EventHandler + Queries>(
    alloc: Global,
    moment: &Cell<u64>,
    sockets: Sockets<'_, H>,
    limits: Limits,
    handler: R,
) -> (Result<(), CommandFault>, R) {
    let LoopEnd {
        result,
        handler,
        mut poller,
        ..
    } = run_event_loop(alloc, limits, handler, sockets, RoundClock::new(moment));
    poller.read_out();
    let served = match result {
        Ok(()) if poller.has_failed() => Err(CommandFault::Socket(SocketFault::Poll)),
        Ok(()) => Ok(()),
        Err(fault) => Err(fault_of_run(RunFault::of_step(fault))),
    };
    (served, handler)
}
