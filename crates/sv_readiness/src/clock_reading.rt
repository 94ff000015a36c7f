//! Reads the clocks of the system.

use crate::slewed_clock::{MILLISECONDS_A_SECOND, Reading};
use libc::types::timespec;
use std::time::{Clock, Duration};

/// `CLOCK_BOOTTIME` of Linux. Nothing sets it, and it goes on while the machine is suspended.
const BOOT_TIME: i32 = 7;

/// Reads the boot time and the wall clock. A clock that cannot be read keeps its value of the last reading.
pub(crate) fn read_clocks<C: Clock>(clock: &C, last: Reading) -> Reading {
    let boot = match boot_time() {
        Some(time) => milliseconds_of(time),
        None => last.boot,
    };
    let wall = match clock.since_1970() {
        Ok(time) => milliseconds_of(time),
        Err(_) => last.wall,
    };
    Reading { boot, wall }
}

// Returns the time since the machine was started.
fn boot_time() -> Option<Duration> {
    let mut time = timespec {
        tv_sec: 0,
        tv_nsec: 0,
    };
    if libc::clock_gettime(BOOT_TIME, &mut time) != 0 {
        return None;
    }
    let seconds = Duration::from_secs(time.tv_sec.unsigned_abs());
    Some(seconds.saturating_add(Duration::from_nanos(time.tv_nsec.unsigned_abs())))
}

fn milliseconds_of(time: Duration) -> u64 {
    let whole = time.as_secs().saturating_mul(MILLISECONDS_A_SECOND);
    whole.saturating_add(u64::from(time.subsec_millis()))
}
