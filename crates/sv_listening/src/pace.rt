//! The timeouts of a connection's calls.

ghost use Rattle.std.specs.Prelude.{◌≡◌, ◌-◌};
ghost use Rattle.sv_listening.specs.Pacing as spec;

use crate::limits::SERVE_IDLE_SECONDS;
use sv_connection::{BYTES_A_WINDOW, WINDOW_SECONDS};

/// The activity of a connection.
#[derive(Clone, Copy, Debug, PartialEq, Eq)]
pub(crate) enum Doing {
    /// Nothing was received or sent yet.
    Rests,
    /// Bytes are received.
    Reads,
    /// Bytes are sent.
    Writes,
}

/// The activity of a connection, the number of bytes moved in its window, and the end of this window in milliseconds.
#[derive(Clone, Copy, Debug)]
pub(crate) struct Pace {
    doing: Doing,
    moved: usize,
    until: u64,
}

impl Pace {
    /// Creates the pace of a new connection.
    pub fn new() -> Pace
        ensures { result ≡ spec.resting }
    {
        Pace {
            doing: Doing::Rests,
            moved: 0,
            until: 0,
        }
    }

    /// Returns how many milliseconds a read may wait at time `now`; 0 if its window has ended.
    pub fn wait_to_read(&self, now: u64) -> u64
        ensures { result ≡ spec.wait_to_read self.now now }
    {
        match self.doing {
            Doing::Reads => self.until.saturating_sub(now),
            Doing::Rests | Doing::Writes => SERVE_IDLE_SECONDS * 1000,
        }
    }

    /// Returns how many milliseconds a write may wait at time `now`; 0 if its window has ended. The first write begins
    /// a window.
    pub fn wait_to_write(&mut self, now: u64) -> u64
        ensures pace { self.new ≡ spec.writing self.old now }
        ensures wait { result ≡ self.new.until - now }
    {
        if self.doing != Doing::Writes {
            *self = begun(Doing::Writes, now);
        }
        self.until.saturating_sub(now)
    }

    /// Records that `count` bytes were read at time `now`.
    pub fn has_read(&mut self, now: u64, count: usize)
        ensures { self.new ≡ spec.has_read self.old now count }
    {
        if self.doing == Doing::Reads {
            *self = moved_on(*self, now, count);
        } else {
            *self = begun(Doing::Reads, now);
        }
    }

    /// Records that `count` bytes were written at time `now`.
    pub fn has_written(&mut self, now: u64, count: usize)
        ensures { self.new ≡ spec.moved_on self.old now count }
    {
        *self = moved_on(*self, now, count);
    }
}

// Begins a window.
fn begun(doing: Doing, now: u64) -> Pace
    ensures { result ≡ spec.begun doing now }
{
    Pace {
        doing,
        moved: 0,
        until: now.saturating_add(WINDOW_SECONDS * 1000),
    }
}

// Records that `count` bytes moved. If they are enough, another window begins.
fn moved_on(pace: Pace, now: u64, count: usize) -> Pace
    ensures { result ≡ spec.moved_on pace now count }
{
    let moved = pace.moved.saturating_add(count);
    if moved >= BYTES_A_WINDOW {
        return begun(pace.doing, now);
    }
    Pace { moved, ..pace }
}
