//! A cached clock, read once for all events of a report.

ghost use Rattle.std.specs.Prelude.{◌≡◌};

use std::cell::Cell;
use sv_streams::Clock;

/// A clock that returns the time in a cell. [`Sockets`](crate::Sockets) sets the cell when it reads the clocks of the
/// system, once for a group of events. Contracts assume nothing about this time.
#[derive(Clone, Copy)]
pub struct RoundClock<'a> {
    moment: &'a Cell<u64>,
}

impl<'a> RoundClock<'a> {
    /// Returns the clock of a cell.
    pub fn new(moment: &'a Cell<u64>) -> RoundClock<'a>
        ensures { result.moment ≡ moment.entry }
    {
        RoundClock { moment }
    }
}

impl Clock for RoundClock<'_> {
    fn now(&mut self) -> u64 {
        self.moment.get()
    }
}
