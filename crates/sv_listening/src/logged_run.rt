//! Serving all connections of an address at once, with an access log.

use crate::recorded_run::run_recorded;
use crate::server::{ListenOptions, run_controlled};
use crate::sockets::file_fault;
use std::alloc::Global;
use std::collections::HashMap;
use std::fs::{OpenOptions, metadata};
use std::io;
use std::io::{ErrorKind, Write};
use std::net::{IpAddr, Net};
use std::os::unix::fs::{FileTypeExt, OpenOptionsExt};
use std::rt::Files;
use std::time::Clock;
use sv_access_log::{
    AccessLog, AccessSource, Addresses, LogFormat, LogWriter, LossAlarm, MonotonicClock,
};
use sv_connection::Queries;
use sv_program::CommandFault;
use sv_readiness::LastAccepted;
use sv_run::EventHandler;
use sv_streams::WriteSink;

// The file mode of a new access log: its owner writes it, and its group may read it.
const LOG_MODE: u32 = 0o640;

/// The access log of a run.
#[derive(Clone, Copy)]
pub struct AccessLogOptions<'a> {
    /// The name of its file.
    pub name: &'a str,
    /// The format of its lines.
    pub format: LogFormat,
}

/// Serves as [`run_journaled`] does, appends a line for each answered message to an access log, and returns the handler.
/// The handler must list the accesses of its events. If lines cannot be written, they are lost, and serving goes on.
///
/// # Errors
/// [`CommandFault::File`] if the access log cannot be opened, or is a FIFO, whose reader could delay all requests; then
/// those of [`run_journaled`].
pub fn run_logged<H: Net + Clock + Files + Eprint, W: Write, R: AccessSource + Queries>(
    alloc: Global,
    host: &H,
    writer: &mut W,
    options: ListenOptions<'_>,
    journal: Option<&str>,
    log: AccessLogOptions<'_>,
    handler: R,
) -> (Result<(), CommandFault>, R) {
    let file = match open_log(host, log.name) {
        Ok(file) => file,
        Err(error) => return (Err(file_fault(alloc, log.name, error)), handler),
    };
    let alarm = StandardError {
        host,
        name: log.name,
    };
    let lines = LogWriter::new(alloc, log.format, WriteSink::new(file), alarm);
    let addresses = ClientAddresses::new(alloc, options.last);
    let logged = AccessLog::new(alloc, handler, lines, addresses, MonotonicClock::new(host));
    let (served, logged) = run_journaled(alloc, host, writer, options, journal, logged);
    (served, logged.into_within())
}

/// Serves as [`run_recorded`] does if a journal is named, and else as [`run_controlled`] does.
///
/// # Errors
/// Those of [`run_recorded`], or of [`run_controlled`].
pub fn run_journaled<H: Net + Clock + Files + Eprint, W: Write, R: EventHandler + Queries>(
    alloc: Global,
    host: &H,
    writer: &mut W,
    options: ListenOptions<'_>,
    journal: Option<&str>,
    handler: R,
) -> (Result<(), CommandFault>, R) {
    match journal {
        Some(name) => run_recorded(alloc, host, writer, options, name, handler),
        None => run_controlled(alloc, host, writer, options, handler),
    }
}

// Opens a log to append to it, and creates it if it is missing.
fn open_log<H: Files>(host: &H, name: &str) -> io::Result<H::File> {
    if is_fifo(host, name) {
        return Err(io::Error::from(ErrorKind::Unsupported));
    }
    OpenOptions::new()
        .append(true)
        .create(true)
        .mode(LOG_MODE)
        .open(host, name)
}

fn is_fifo<H: Files>(host: &H, name: &str) -> bool {
    match metadata(host, name) {
        Ok(found) => found.file_type().is_fifo(),
        Err(_) => false,
    }
}

// Reports lost lines on standard error.
#[derive(Drop)]
struct StandardError<'a, H> {
    host: &'a H,
    // The name of the log.
    name: &'a str,
}

impl<H: Eprint> LossAlarm for StandardError<'_, H> {
    fn is_losing(&mut self) {
        // If standard error cannot be written either, nothing is reported.
        let _ = eprintln!(self.host;
            "sv: access log\n  {}: it cannot be written; its lines are lost until it can",
            self.name
        );
    }
}

// The addresses of the clients of open connections.
#[derive(Drop)]
struct ClientAddresses<'a> {
    last: &'a LastAccepted,
    known: HashMap<u64, IpAddr>,
}

impl<'a> ClientAddresses<'a> {
    fn new(alloc: Global, last: &'a LastAccepted) -> ClientAddresses<'a> {
        ClientAddresses {
            last,
            known: HashMap::new(alloc),
        }
    }
}

impl Addresses for ClientAddresses<'_> {
    fn open(&mut self, connection: u64) {
        let Some(address) = self.last.address() else {
            return;
        };
        // If memory runs out, the address is not known.
        let _ = self.known.insert(connection, address.ip());
    }

    fn close(&mut self, connection: u64) {
        self.known.remove(&connection);
    }

    fn address(&self, connection: u64) -> Option<IpAddr> {
        self.known.get(&connection).copied()
    }
}
