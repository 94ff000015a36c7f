//! The timeouts of a connection.

use crate::limits::{BYTES_A_WINDOW, WINDOW_SECONDS};

/// The timeouts of a connection, in seconds.
///
/// | Connection | Given up |
/// |---|---|
/// | idle | `idle_seconds` after its last response was written, or after it was opened |
/// | receiving a message, or sending a response | [`WINDOW_SECONDS`] after its window began |
///
/// Once [`BYTES_A_WINDOW`] bytes have moved in a window, another begins. Empty lines that a peer sends between two
/// requests do not extend the idle timeout.
#[derive(Drop)]
pub(crate) struct Timeouts {
    idle_seconds: u64,
    idle_until: u64,
    idle_since: u64,
    has_written: bool,
    window: Option<Window>,
}

/// A window: until it ends, a message must be received and answered, or enough bytes of it must move.
#[derive(Clone, Copy, Drop)]
struct Window {
    until: u64,
    moved: usize,
}

impl Timeouts {
    /// Creates the timeouts of a connection that is opened in second `now` and turn `turn`, and may be idle for
    /// `idle_seconds`.
    pub fn new(now: u64, idle_seconds: u64, turn: u64) -> Timeouts {
        Timeouts {
            idle_seconds,
            idle_until: after(now, idle_seconds),
            idle_since: turn,
            has_written: false,
            window: None,
        }
    }

    /// Returns the time in seconds when the connection is given up.
    pub fn until(&self) -> u64 {
        match &self.window {
            Some(window) => window.until,
            None => self.idle_until,
        }
    }

    /// Returns the turn when the connection became idle. It has a meaning only while the connection is idle.
    pub fn idle_since(&self) -> u64 {
        self.idle_since
    }

    /// Records that `count` bytes were read.
    #[inline(always)]
    pub fn note_read(&mut self, count: usize) {
        if let Some(window) = &mut self.window {
            window.moved = window.moved.saturating_add(count);
        }
    }

    /// Records that `count` bytes were written.
    #[inline(always)]
    pub fn note_written(&mut self, count: usize) {
        self.has_written = true;
        self.note_read(count);
    }

    /// Records that the connection is idle in second `now` and turn `turn`. The idle timeout begins anew only after a
    /// write.
    #[inline(always)]
    pub fn rest(&mut self, now: u64, turn: u64) {
        self.window = None;
        if self.has_written {
            self.has_written = false;
            self.idle_until = after(now, self.idle_seconds);
            self.idle_since = turn;
        }
    }

    /// Records that the connection receives a message or sends a response in second `now`.
    #[inline(always)]
    pub fn go_on(&mut self, now: u64) {
        match &self.window {
            Some(window) if window.moved < BYTES_A_WINDOW => {}
            _ => {
                self.window = Some(Window {
                    until: after(now, WINDOW_SECONDS),
                    moved: 0,
                });
            }
        }
    }
}

// Returns the first second when `seconds` whole seconds have passed, since `now` has already begun.
fn after(now: u64, seconds: u64) -> u64 {
    now.saturating_add(seconds).saturating_add(1)
}
