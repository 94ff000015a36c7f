//! The events that the system reported and the caller has not received yet.

use crate::limits::EVENTS_AT_ONCE;
use mio::Events;

/// The tokens of the events of one wait, and how many of them were delivered. An event that says that the peer has
/// closed or failed is delivered twice. So the input before the end is read first, and the end after it.
#[derive(Drop)]
pub(crate) struct Ready {
    tokens: [usize; EVENTS_AT_ONCE],
    again: [bool; EVENTS_AT_ONCE],
    count: usize,
    told: usize,
}

impl Ready {
    /// Returns an empty list of events.
    pub fn new() -> Ready {
        Ready {
            tokens: [0; EVENTS_AT_ONCE],
            again: [false; EVENTS_AT_ONCE],
            count: 0,
            told: 0,
        }
    }

    /// Returns the token of the next event, if any is left.
    pub fn next(&mut self) -> Option<usize> {
        if self.told >= self.count {
            return None;
        }
        let token = self.tokens.get(self.told).copied();
        self.pass();
        token
    }

    // Moves on to the next event, unless this one is due a second time.
    fn pass(&mut self) {
        match self.again.get_mut(self.told) {
            Some(again) if *again => *again = false,
            _ => self.told = self.told.saturating_add(1),
        }
    }

    /// Whether an event is left.
    pub fn has_next(&self) -> bool {
        self.told < self.count
    }

    /// Whether the last wait reported at most one event.
    pub fn is_single(&self) -> bool {
        self.count <= 1
    }

    /// Replaces the events by those of a wait.
    pub fn refill(&mut self, events: &Events) {
        self.told = 0;
        self.count = 0;
        let places = self.tokens.iter_mut().zip(self.again.iter_mut());
        for ((token, again), event) in places.zip(events.iter()) {
            *token = event.token().0;
            *again = event.is_read_closed() || event.is_error();
            self.count = self.count.saturating_add(1);
        }
    }
}
