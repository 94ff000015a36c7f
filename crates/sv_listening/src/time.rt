//! Monotonic time.

use std::io;
use std::io::ErrorKind;
use std::time::{Clock, Duration};

/// Returns the number of milliseconds since some fixed point.
///
/// # Errors
/// The clock's error.
pub(crate) fn milliseconds<H: Clock>(clock: &H) -> io::Result<u64> {
    let time = clock.monotonic()?;
    let rest = u64::from(time.subsec_millis());
    Ok(time.as_secs().saturating_mul(1000).saturating_add(rest))
}

/// Returns this many milliseconds as a duration.
///
/// # Errors
/// `TimedOut` if there are none.
pub(crate) fn time_left(milliseconds: u64) -> io::Result<Duration> {
    if milliseconds == 0 {
        return Err(io::Error::from(ErrorKind::TimedOut));
    }
    Ok(Duration::from_millis(milliseconds))
}
