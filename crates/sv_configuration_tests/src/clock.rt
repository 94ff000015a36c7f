//! The clock of the operating system.

use std::test::Fail;
use sv_streams::{Clock, SystemClock};

/// The first second of 2020, in seconds since 1970.
const OF_2020: u64 = 1_577_836_800;

/// The first second of 2126, in seconds since 1970.
const OF_2126: u64 = 4_922_899_200;

#[test]
fn the_clock_returns_the_seconds_since_1970(rt: HostRuntime) -> Result<(), Fail> {
    let mut clock = SystemClock::new(&rt);
    let now = clock.now();
    assert!(rt; OF_2020 <= now && now < OF_2126, "{now}");
    Ok(())
}
