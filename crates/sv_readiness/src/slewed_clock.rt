//! The time of a container, which is slewed towards the wall clock.

ghost use Rattle.std.specs.Prelude.{◌≡◌, ◌-◌, ◌/◌, ◌≤◌};
ghost use Rattle.sv_readiness.specs.Slewing as spec;

use crate::limits::SLEW_DIVISOR;

/// The number of milliseconds in a second.
pub(crate) const MILLISECONDS_A_SECOND: u64 = 1000;

/// One reading of the clocks of the system, in milliseconds.
#[derive(Clone, Copy)]
pub struct Reading {
    /// The boot time: the time since the start of the machine. It includes the time while the machine was suspended.
    pub boot: u64,
    /// The wall clock: the time since 1970. Setting the clock of the machine changes it.
    pub wall: u64,
}

/// The time of a container in milliseconds since 1970. It begins at the wall clock and advances with the boot time, so
/// that setting the wall clock does not move it. It is slewed towards the wall clock: it advances by at most one part in
/// [`SLEW_DIVISOR`] more or less than the boot time, until both agree.
#[derive(Clone, Copy)]
pub struct SlewedClock {
    // The greatest boot time that was read, and the wall clock that was read last.
    boot: u64,
    wall: u64,
    time: u64,
}

impl SlewedClock {
    /// Returns the clock at a first reading. Its time is the wall clock.
    pub fn new(first: Reading) -> SlewedClock
        ensures { result ≡ spec.started first }
    {
        SlewedClock {
            boot: first.boot,
            wall: first.wall,
            time: first.wall,
        }
    }

    /// Advances the time to a reading. A boot time that is less than an earlier one counts as that one.
    pub fn advance(&mut self, reading: Reading)
        ensures { self.new ≡ spec.slewed self.old reading }
    {
        let boot = self.boot.max(reading.boot);
        let slew = slew_between(self.boot, boot);
        let passed = boot - self.boot;
        let least = self.time.saturating_add(passed - slew);
        let most = self.time.saturating_add(passed).saturating_add(slew);
        self.time = reading.wall.clamp(least, most);
        self.wall = reading.wall;
        self.boot = boot;
    }

    /// Returns the time in seconds since 1970.
    pub fn seconds(&self) -> u64
        ensures { result ≡ self.now.time / 1000 }
    {
        self.time / MILLISECONDS_A_SECOND
    }

    /// Returns by how many whole seconds the wall clock is ahead of the time. The number is negative if the wall clock is
    /// slower.
    pub fn offset(&self) -> i64
        ensures { result ≡ spec.offset self.now }
    {
        let seconds = (self.wall.abs_diff(self.time) / MILLISECONDS_A_SECOND) as i64;
        if self.wall < self.time {
            -seconds
        } else {
            seconds
        }
    }

    /// Returns the boot time and the wall clock that the time was last advanced to.
    pub fn reading(&self) -> Reading
        ensures { result ≡ spec.last_reading self.now }
    {
        Reading {
            boot: self.boot,
            wall: self.wall,
        }
    }
}

// Returns how far the time may be slewed while the boot time advances: by one millisecond at each multiple of
// `SLEW_DIVISOR`. So the sum over several readings does not depend on their number.
fn slew_between(before: u64, after: u64) -> u64
    requires { before ≤ after }
    ensures slew { result ≡ spec.slew before after }
    ensures less { result ≤ after - before }
{
    after / SLEW_DIVISOR - before / SLEW_DIVISOR
}
