//! The streams of closed connections whose peers may still send (lingering close; RFC 9112, section 9.6).

use crate::drain::{Dropped, drop_some};
use crate::limits::{LINGER_SECONDS, MAX_DROPPED_BYTES, MAX_LINGERING};
use mio::event::Source;
use mio::{Interest, Registry, Token};
use std::alloc::Global;
use std::io::Read;
use std::marker::Model;

/// A stream in lingering close. It stays registered under the number of its connection, which no other connection
/// gets.
#[derive(Drop)]
struct Lingerer<T> {
    number: u64,
    stream: T,
    left: usize,
    until: u64,
}

impl<T: Read + Source> Lingerer<T> {
    ghost use Rattle.std.specs.Prelude.{◌≡◌};

    // Drops the available input, and returns whether more may be reported.
    fn read_on(&mut self, registry: &Registry) -> bool
        ensures { self.new.number ≡ self.old.number }
    {
        match drop_some(&mut self.stream, &mut self.left) {
            Dropped::All => false,
            Dropped::UntilPaused => true,
            Dropped::Some => self.arm(registry),
        }
    }

    // Arms the stream, which also reports input that arrived before.
    fn arm(&mut self, registry: &Registry) -> bool
        ensures { self.new.number ≡ self.old.number }
    {
        let token = Token(self.number as usize);
        registry
            .reregister(&mut self.stream, token, Interest::READABLE)
            .is_ok()
    }
}

/// The streams in lingering close, oldest first. Contracts see their number.
#[derive(Drop)]
pub(crate) struct Lingering<T> {
    streams: Vec<Lingerer<T>>,
}

impl<T> Model for Lingering<T> {
    ghost use Rattle.std.specs.Prelude.{ℕ, ◌≤◌, vec_len};
    ghost use Rattle.sv_readiness.specs.declared.limits.TheConstants.{MAX_LINGERING};

    ghost Value = { ℕ };

    ghost view = { λ l. vec_len l.streams };

    ghost invariant = { λ l. vec_len l.streams ≤ MAX_LINGERING };
}

impl<T: Read + Source + Drop> Lingering<T> {
    ghost use Rattle.std.specs.Prelude.{◌≡◌, ◌==◌, ◌≤◌, ◌<◌, ◌+◌, false, IfSome};
    ghost use Rattle.sv_readiness.specs.declared.limits.TheConstants.{MAX_LINGERING};

    /// Returns a set without streams.
    pub fn new(alloc: Global) -> Lingering<T>
        ensures { result ≡ 0 }
    {
        Lingering {
            streams: Vec::new(alloc),
        }
    }

    /// Whether there are no streams.
    pub fn is_empty(&self) -> bool
        ensures { result ≡ (self.now == 0) }
    {
        self.streams.is_empty()
    }

    /// Drops the available input of a stream and keeps the stream if more may arrive. If the limit of streams is
    /// reached, the oldest is closed. If memory for the new one runs out, it is closed itself.
    pub fn take(&mut self, number: u64, stream: T, now: u64, registry: &Registry)
        ensures { self.new ≤ self.old + 1 }
    {
        let mut lingerer = Lingerer {
            number,
            stream,
            left: MAX_DROPPED_BYTES,
            until: now.saturating_add(LINGER_SECONDS),
        };
        if lingerer.read_on(registry) {
            self.keep(lingerer);
        }
    }

    fn keep(&mut self, lingerer: Lingerer<T>)
        ensures bound { self.new ≤ MAX_LINGERING }
        ensures one { self.new ≤ self.old + 1 }
    {
        if self.streams.len() >= MAX_LINGERING {
            drop(self.streams.remove(0));
        }
        match self.streams.push(lingerer) {
            Ok(()) => {}
            Err(refused) => drop(refused),
        }
    }

    /// Drops the available input of the stream with this number, if it is kept. Closes the stream if nothing more can
    /// be read from it. Returns whether it was kept.
    pub fn read_on(&mut self, number: u64, registry: &Registry) -> bool
        ensures fewer { self.new ≤ self.old }
        ensures one { self.old ≤ self.new + 1 }
        ensures unknown { result ≡ false → self.new ≡ self.old }
    {
        let Some(place) = self.place_of(number) else {
            return false;
        };
        if !self.streams[place].read_on(registry) {
            drop(self.streams.remove(place));
        }
        true
    }

    fn place_of(&self, number: u64) -> Option<usize>
        ensures { IfSome result (λ place. place < self.now) }
    {
        self.streams.iter().position(|it| it.number == number)
    }

    /// Closes the streams whose time has expired.
    pub fn expire(&mut self, now: u64)
        ensures { self.new ≤ self.old }
    {
        self.streams.retain(|it| now < it.until);
    }
}
