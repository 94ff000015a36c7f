//! An event handler that writes an access log.

use crate::access_source::AccessSource;
use crate::log_writer::{Client, LogWriter, LossAlarm};
use crate::timing::{MicroClock, Timer};
use std::alloc::Global;
use std::net::IpAddr;
use sv_connection::Queries;
use sv_journal::{Entry, Journal};
use sv_run::{EventHandler, Happening, Reaction, StepFault};
use sv_streams::Sink;
use sv_text::{Bytes, NoMemory};
use sv_wire::Awaited;

/// An event handler that passes its events to an inner handler, and writes a line for each message that they answer.
#[derive(Drop)]
pub struct AccessLog<R, O, A, D, C> {
    within: R,
    writer: LogWriter<O, A>,
    addresses: D,
    timer: Timer<C>,
}

impl<R: AccessSource, O: Sink, A: LossAlarm, D: Addresses, C: MicroClock> AccessLog<R, O, A, D, C> {
    ghost use Rattle.std.specs.Prelude.{◌≡◌};
    ghost use Rattle.sv_access_log.specs.Writing.{Writes};

    /// Wraps a handler, to log what its events answer.
    pub fn new(
        alloc: Global,
        within: R,
        writer: LogWriter<O, A>,
        addresses: D,
        clock: C,
    ) -> AccessLog<R, O, A, D, C>
        ensures within { result.within ≡ within }
        ensures writer { result.writer ≡ writer }
    {
        AccessLog {
            within,
            writer,
            addresses,
            timer: Timer::new(alloc, clock),
        }
    }

    // Writes the lines of an event.
    fn log(&mut self, connection: Option<u64>, journal: &[Entry])
        ensures within { self.new.within ≡ self.old.within }
        ensures writes { Writes O.makes (R.answered self.old.within) journal.now self.old.writer self.new.writer }
    {
        if !self.within.accesses().is_empty() {
            let client = client_of(connection, &mut self.timer, &self.addresses);
            self.writer.write(&self.within, journal, client);
        }
    }
}

impl<R, O: Drop, A: Drop, D: Drop, C: Drop> AccessLog<R, O, A, D, C> {
    ghost use Rattle.std.specs.Prelude.{◌≡◌};

    /// Returns the inner handler.
    pub fn into_within(self) -> R
        ensures { result ≡ self.within }
    {
        self.within
    }
}

impl<R, O, A, D, C> AccessLog<R, O, A, D, C> {
    ghost use Rattle.std.specs.Prelude.{◌≡◌};

    /// Returns the inner handler.
    pub fn within(&self) -> &R
        ensures { result.now ≡ self.now.within }
    {
        &self.within
    }

    /// Returns the number of lines that were lost.
    pub fn lost(&self) -> u64
        ensures { result ≡ self.now.writer.lost }
    {
        self.writer.lost()
    }
}

impl<R: AccessSource, O: Sink, A: LossAlarm, D: Addresses, C: MicroClock> EventHandler
    for AccessLog<R, O, A, D, C> {
    ghost use Rattle.sv_access_log.specs.Writing.{Logs};

    ghost steps = { λ before happening result after.
        R.steps before.within happening result after.within
        × Logs O.makes (R.answered after.within) happening result before.writer after.writer };

    ghost awaited = { λ log connection. R.awaited log.within connection };

    fn step(&mut self, happening: Happening) -> Result<Reaction, StepFault> {
        let connection = connection_of(happening);
        note_address(happening, &mut self.addresses);
        begin(happening, &mut self.timer, &self.within);
        self.writer.reach(happening);
        match self.within.step(happening) {
            Ok(reaction) => {
                self.log(connection, reaction.journal.entries());
                Ok(reaction)
            }
            Err(fault) => Err(fault),
        }
    }

    fn awaits(&self, connection: u64) -> Awaited {
        self.within.awaits(connection)
    }

    fn recycle(&self, bytes: Vec<u8>, journal: Journal) {
        self.within.recycle(bytes, journal);
    }
}

impl<R: Queries, O, A, D, C> Queries for AccessLog<R, O, A, D, C> {
    ghost explains = { λ log method target user. R.explains log.within method target user };

    ghost uncovers = { λ log. R.uncovers log.within };

    ghost constrains = { λ log. R.constrains log.within };

    ghost stands = { λ log. R.stands log.within };

    fn explain(
        &self,
        alloc: Global,
        method: &str,
        target: &[u8],
        user: Option<&str>,
    ) -> Result<Option<Bytes>, NoMemory> {
        self.within.explain(alloc, method, target, user)
    }

    fn uncovered(&self, alloc: Global) -> Result<Option<Bytes>, NoMemory> {
        self.within.uncovered(alloc)
    }

    fn constraints(&self, alloc: Global) -> Result<Option<Bytes>, NoMemory> {
        self.within.constraints(alloc)
    }

    fn standing(&self, alloc: Global) -> Result<Option<Bytes>, NoMemory> {
        self.within.standing(alloc)
    }
}

// Returns the connection of an event that has bytes of one.
fn connection_of(happening: Happening) -> Option<u64> {
    match happening {
        Happening::Piece { connection, .. } => Some(connection),
        _ => None,
    }
}

// Notes the address of a connection that opens, and forgets that of one that ends.
fn note_address<D: Addresses>(happening: Happening, addresses: &mut D) {
    match happening {
        Happening::Opened { connection } => addresses.open(connection),
        Happening::Ended { connection } => addresses.close(connection),
        Happening::Lost { connection } => addresses.close(connection),
        _ => {}
    }
}

// Begins the time of an event.
fn begin<R: EventHandler, C: MicroClock>(happening: Happening, timer: &mut Timer<C>, within: &R) {
    match happening {
        Happening::Piece { connection, .. } => timer.begin(connection, within.awaits(connection)),
        Happening::Ended { connection } => timer.forget(connection),
        Happening::Lost { connection } => timer.forget(connection),
        _ => {}
    }
}

// Returns the client of an event that answered messages.
fn client_of<D: Addresses, C: MicroClock>(
    connection: Option<u64>,
    timer: &mut Timer<C>,
    addresses: &D,
) -> Client {
    match connection {
        Some(connection) => {
            let durations = timer.finish(connection);
            Client {
                address: addresses.address(connection),
                first_micros: durations.first,
                later_micros: durations.later,
            }
        }
        None => Client {
            address: None,
            first_micros: 0,
            later_micros: 0,
        },
    }
}

/// The addresses of connections. Contracts assume nothing about them.
pub trait Addresses {
    /// Notes the address of a connection that opens.
    fn open(&mut self, connection: u64);

    /// Forgets the address of a connection that ends.
    fn close(&mut self, connection: u64);

    /// Returns the IP address of a connection's client, if it is known.
    fn address(&self, connection: u64) -> Option<IpAddr>;
}
