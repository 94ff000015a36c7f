//! The table of connections.

ghost use Rattle.std.specs.Prelude.{◌≡◌};
ghost use Rattle.sv_connection.specs.Figures.{figures_of, writing};
ghost use Rattle.sv_connection.specs.Finishing.{WritesOutOne};
ghost use Rattle.sv_connection.specs.Holding.{IsWithin, StaysWithin, held};
ghost use Rattle.sv_connection.specs.Known.{DropsAccepted, ForgetsOne, OpensNext, found, most_open, none_left};
ghost use Rattle.sv_connection.specs.Steps.{DrivesOne};

use crate::close_reason::CloseReason;
use crate::limits::Limits;
use crate::open_connection::Connection;
use crate::peer::Peer;
use crate::pending_bytes::Sent;
use crate::queries::Figures;
use std::alloc::Global;
use std::collections::HashMap;
use std::marker::Model;
use sv_run::{EventHandler, MAX_CONNECTIONS, StepFault};
use sv_streams::Clock;
use sv_text::NoMemory;

/// The open connections by number, their limits, the next number, the stream that was accepted under it, and how often
/// a connection was opened or driven. This count orders the turns within a second. No number is used twice.
#[derive(Drop)]
pub(crate) struct ConnectionTable<P> {
    alloc: Global,
    limits: Limits,
    next: u64,
    accepted: Option<P>,
    turns: u64,
    connections: HashMap<u64, Connection<P>>,
}

impl<P> Model for ConnectionTable<P> {
    ghost use Rattle.std.specs.Prelude.{◌<◌, ◌-◌, ◌^◌, IsSome};
    ghost use Rattle.sv_connection.specs.Known.{AreBelow, Known};

    ghost Value = { Known P };

    ghost view = { λ f. record { limits = f.limits; next = f.next; accepted = f.accepted; entries = f.connections.entries } };

    ghost invariant = { λ f. (IsSome f.accepted → f.next < 2 ^ 64 - 1) × AreBelow f.next f.connections.entries };
}

impl<P: Peer + Drop> ConnectionTable<P> {
    ghost use Rattle.std.specs.Prelude.{[], ◌<◌, ◌≤◌, ◌+◌, ◌-◌, ◌^◌, IfNone, IfSome, IsTrue, IsSome, Some, None, is_some, false, length, ltb};
    ghost use Rattle.sv_connection.specs.States.{ConnectionState, is_writing};

    /// Creates an empty table.
    pub fn new(alloc: Global, limits: Limits) -> ConnectionTable<P>
        ensures { result ≡ none_left limits 0 }
    {
        ConnectionTable {
            alloc,
            limits,
            next: 0,
            accepted: None,
            turns: 0,
            connections: HashMap::new(alloc),
        }
    }

    /// Returns whether one more connection may be open.
    pub fn has_room(&self) -> bool
        ensures { result ≡ ltb (length self.now.entries) (most_open self.now.limits) }
    {
        let most = self.limits.connections.min(MAX_CONNECTIONS);
        self.connections.len() < most
    }

    /// Returns whether one more stream may be accepted: there is room for its connection, or an idle connection can
    /// make room.
    pub fn may_accept(&self) -> bool
        ensures { IsTrue result → self.now.next < 2 ^ 64 - 1 }
    {
        self.next < u64::MAX && (self.has_room() || self.longest_idle().is_some())
    }

    /// Returns whether a stream was accepted whose connection is not opened yet.
    pub fn has_accepted(&self) -> bool
        ensures { result ≡ is_some self.now.accepted }
    {
        self.accepted.is_some()
    }

    /// Keeps the stream that was accepted under the next number.
    pub fn keep_accepted(&mut self, stream: P)
        requires free { self.old.accepted ≡ None }
        requires unused { self.old.next < 2 ^ 64 - 1 }
        ensures { self.new ≡ record self.old { accepted = Some stream } }
    {
        self.accepted = Some(stream);
    }

    /// Takes out the accepted stream, if any, whose connection will not be opened. Its number is used.
    pub fn drop_accepted(&mut self) -> Option<P>
        ensures { DropsAccepted self.old result self.new }
    {
        let stream = self.accepted.take()?;
        self.next += 1;
        Some(stream)
    }

    /// Opens the connection of the accepted stream in second `now`, if there is such a stream. Returns whether there
    /// was one.
    ///
    /// # Errors
    /// Memory ran out. Nothing has changed.
    pub fn open(&mut self, now: u64) -> Result<bool, NoMemory>
        ensures opens { OpensNext self.old result self.new }
        ensures within { StaysWithin self.old self.new }
    {
        let Some(stream) = self.accepted.take() else {
            return Ok(false);
        };
        self.turns = self.turns.saturating_add(1);
        let idle_seconds = self.limits.idle_seconds;
        let connection = Connection::new(self.alloc, stream, now, idle_seconds, self.turns);
        match self.connections.insert(self.next, connection) {
            Ok(_) => {}
            Err(failed) => {
                self.accepted = Some(failed.value.1.into_stream());
                return Err(NoMemory);
            }
        }
        self.next += 1;
        Ok(true)
    }

    /// Returns whether no connection is open.
    pub fn is_empty(&self) -> bool
        ensures { IsTrue result → self.now.entries ≡ [] }
    {
        self.connections.is_empty()
    }

    /// Returns the figures of the connections.
    pub fn figures(&self) -> Figures
        ensures { result ≡ figures_of self.now }
    {
        Figures {
            connections: self.connections.len(),
            writing: self.writing(),
            held: self.held(),
            opened: self.next,
        }
    }

    // Returns the number of connections that have bytes to write.
    fn writing(&self) -> usize
        ensures { result ≡ writing self.now }
    {
        self.connections
            .values()
            .filter(|it| it.is_writing())
            .count()
    }

    /// Returns the number of the next connection.
    pub fn next(&self) -> u64
        ensures { result ≡ self.now.next }
    {
        self.next
    }

    // Returns the number of bytes that all connections hold together.
    fn held(&self) -> u64
        ensures { result ≡ held self.now }
    {
        self.connections
            .values()
            .fold(0, |sum: u64, it| sum.saturating_add(it.weight()))
    }

    /// Returns whether all connections together hold at most as many bytes as they may.
    pub fn is_within(&self) -> bool
        ensures { IsTrue result → IsWithin self.now }
    {
        self.held() <= self.limits.held_bytes
    }

    /// Returns the connection whose timeout expires first, among those that hold bytes.
    pub fn slowest(&self) -> Option<u64> {
        let mut found = None;
        let mut least = u64::MAX;
        for (number, connection) in self.connections.iter() {
            if connection.weight() > 0 && (found.is_none() || connection.until() < least) {
                least = connection.until();
                found = Some(*number);
            }
        }
        found
    }

    /// Drives the connection of a number, if it is open. Sets `grows` to whether it then holds more bytes than before.
    ///
    /// # Errors
    /// The fault of a refused piece, or out of memory.
    pub fn drive<R: EventHandler, C: Clock>(
        &mut self,
        number: u64,
        handler: &mut R,
        clock: &mut C,
        now: u64,
        grows: &mut bool,
    ) -> Result<Option<CloseReason>, StepFault>
        ensures drives { DrivesOne P.ways R.steps R.awaited C.tells number handler.old clock.old self.old result handler.new clock.new self.new }
        ensures within { grows.new ≡ false → StaysWithin self.old self.new }
    {
        *grows = false;
        self.turns = self.turns.saturating_add(1);
        let turn = self.turns;
        match self.connections.get_mut(&number) {
            Some(connection) => {
                let before = connection.weight();
                let driven = connection.drive_at(now, turn, number, handler, clock);
                *grows = connection.weight() > before;
                return driven;
            }
            None => {}
        }
        Ok(None)
    }

    /// Removes the connection of a number, if it is open.
    pub fn remove(&mut self, number: u64) -> Option<Connection<P>>
        ensures gives { result ≡ found self.old number }
        ensures below { IsSome result → number < self.old.next }
        ensures none { IfNone result (self.new ≡ self.old) }
        ensures fewer { IfSome result (λ _. length self.old.entries ≡ length self.new.entries + 1) }
        ensures within { StaysWithin self.old self.new }
        ensures forgets { ForgetsOne number self.old self.new }
    {
        self.connections.remove(&number)
    }

    /// Writes the bytes that wait to the connection of a number, if it is open, as far as this is possible without
    /// blocking.
    pub fn write_out(&mut self, number: u64) -> Option<Sent>
        ensures { WritesOutOne P.ways number self.old result self.new }
    {
        match self.connections.get_mut(&number) {
            Some(connection) => return Some(connection.send_out()),
            None => {}
        }
        None
    }

    /// Returns the number of an open connection, if any.
    pub fn any(&self) -> Option<u64>
        ensures open { IfSome result (λ number. IsSome (found self.now number)) }
        ensures none { IfNone result (self.now.entries ≡ []) }
    {
        match self.connections.keys().next() {
            Some(number) => Some(*number),
            None => None,
        }
    }

    /// Returns a connection that has nothing to write.
    pub fn written(&self) -> Option<u64>
        ensures { IfSome result (λ number. (at : ConnectionState P) → found self.now number ≡ Some at → is_writing at ≡ false) }
    {
        for (number, connection) in self.connections.iter() {
            if !connection.is_writing() {
                return Some(*number);
            }
        }
        None
    }

    /// Returns a connection whose timeout has expired.
    pub fn due(&self, now: u64) -> Option<u64> {
        for (number, connection) in self.connections.iter() {
            if connection.until() <= now {
                return Some(*number);
            }
        }
        None
    }

    /// Returns the longest idle connection.
    pub fn longest_idle(&self) -> Option<u64> {
        let mut found = None;
        let mut least = u64::MAX;
        for (number, connection) in self.connections.iter() {
            if connection.is_between_requests() && connection.rested() < least {
                least = connection.rested();
                found = Some(*number);
            }
        }
        found
    }
}
