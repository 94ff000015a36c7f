//! Clocks.

use std::time::SystemTime;

/// A clock that gives the time in seconds since 1970.
pub trait Clock {
    ghost use Rattle.std.specs.Prelude.{ℕ};

    /// The model of a reading: the clock before it, the time, and the clock after it. By default a reading may give any
    /// time.
    ghost tells: { Self → ℕ → Self → Type 0 } = { λ _ _ _. Unit {0} };

    /// Returns the time.
    fn now(&mut self) -> u64
        ensures { tells self.old result self.new };
}

/// The clock of the operating system. No contract says which time it gives. It gives 0 if it cannot be read or is
/// before 1970.
#[derive(Clone, Copy)]
pub struct SystemClock<'a, C> {
    clock: &'a C,
}

impl<'a, C: std::time::Clock> SystemClock<'a, C> {
    ghost use Rattle.std.specs.Prelude.{◌≡◌};

    /// Creates a handle that reads this clock.
    pub fn new(clock: &'a C) -> SystemClock<'a, C>
        ensures { result.clock ≡ clock.entry }
    {
        SystemClock { clock }
    }
}

impl<C: std::time::Clock> Clock for SystemClock<'_, C> {
    fn now(&mut self) -> u64 {
        let Ok(now) = SystemTime::now(self.clock) else {
            return 0;
        };
        match now.duration_since(SystemTime::UNIX_EPOCH) {
            Ok(since) => since.as_secs(),
            Err(_) => 0,
        }
    }
}
