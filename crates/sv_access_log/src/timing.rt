//! The durations of messages. Contracts assume nothing about them.

use std::alloc::Global;
use std::collections::HashMap;
use std::time;
use sv_wire::Awaited;

const MICROSECONDS_A_SECOND: u64 = 1_000_000;

/// A clock that nothing sets, in microseconds since an arbitrary time.
pub trait MicroClock {
    /// Returns the time.
    fn micros(&self) -> u64;
}

/// The monotonic clock of the operating system. It gives 0 if it cannot be read.
#[derive(Clone, Copy)]
pub struct MonotonicClock<'a, C> {
    clock: &'a C,
}

impl<'a, C: time::Clock> MonotonicClock<'a, C> {
    ghost use Rattle.std.specs.Prelude.{◌≡◌};

    /// Returns the monotonic clock of a host.
    pub fn new(clock: &'a C) -> MonotonicClock<'a, C>
        ensures { result.clock ≡ clock.entry }
    {
        MonotonicClock { clock }
    }
}

impl<C: time::Clock> MicroClock for MonotonicClock<'_, C> {
    fn micros(&self) -> u64 {
        match self.clock.monotonic() {
            Ok(time) => {
                let whole = time.as_secs().saturating_mul(MICROSECONDS_A_SECOND);
                whole.saturating_add(u64::from(time.subsec_micros()))
            }
            Err(_) => 0,
        }
    }
}

/// The microseconds that the messages of an event took.
#[derive(Clone, Copy, Debug)]
pub(crate) struct Durations {
    /// Of the first message.
    pub(crate) first: u64,
    /// Of each later message.
    pub(crate) later: u64,
}

/// The times at which messages began that are not answered yet. A message begins with the event that has the first byte
/// of its head, and is answered by the event that has its response.
#[derive(Drop)]
pub(crate) struct Timer<C> {
    clock: C,
    // The time of the event.
    event: u64,
    // The time at which the message of a connection began.
    begun: HashMap<u64, u64>,
}

impl<C: MicroClock> Timer<C> {
    pub(crate) fn new(alloc: Global, clock: C) -> Timer<C> {
        Timer {
            clock,
            event: 0,
            begun: HashMap::new(alloc),
        }
    }

    /// Begins an event that has bytes of a connection, of which this was awaited. If memory runs out, the next duration
    /// is 0.
    pub(crate) fn begin(&mut self, connection: u64, awaited: Awaited) {
        self.event = self.clock.micros();
        if let Awaited::Message = awaited {
            self.set_begun(connection);
        }
    }

    /// Forgets a connection.
    pub(crate) fn forget(&mut self, connection: u64) {
        self.begun.remove(&connection);
    }

    /// Returns the durations of the messages that the event answered. A further message of the connection, if any,
    /// began with the event.
    pub(crate) fn finish(&mut self, connection: u64) -> Durations {
        let now = self.clock.micros();
        let begun = match self.begun.get(&connection) {
            Some(begun) => *begun,
            None => now,
        };
        self.set_begun(connection);
        Durations {
            first: now.saturating_sub(begun),
            later: now.saturating_sub(self.event),
        }
    }

    fn set_begun(&mut self, connection: u64) {
        if self.begun.insert(connection, self.event).is_err() {
            self.begun.remove(&connection);
        }
    }
}
