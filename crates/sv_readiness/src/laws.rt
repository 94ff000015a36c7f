//! The limits as numbers, and theorems about signals and the slewed clock, each the contract of a function with an empty body.

ghost use Rattle.std.specs.Prelude.{◌≡◌};
ghost use Rattle.sv_readiness.specs.Signals.{ShortReadsAskForNothing, StopsHaveARecord};
ghost use Rattle.sv_readiness.specs.SlewingLaws.{
  ComesToTheWallClock,
  FollowsTheWallClock,
  KeepsPace,
  NeverGoesBack,
};

use crate::limits::{
    ASKED_AT_ONCE, DROPPED_READ_BYTES, EVENTS_AT_ONCE, FIRST_DROPPED_READ_BYTES, LINGER_SECONDS,
    MAX_ASKING_SECONDS, MAX_CONTROL_CLIENTS, MAX_DROPPED_BYTES, MAX_DROPPED_READS, MAX_LINE_BYTES,
    MAX_LINGERING, MAX_READY_BEFORE_ACCEPT, MAX_READY_BEFORE_READING, MAX_SENT_AT_ONCE,
    SIGNAL_BYTES_AT_ONCE, SIGNAL_RECORD_BYTES, SLEW_DIVISOR,
};

/// States the limits of this crate as numbers. By them a closed connection drops at most 1 MiB at a time and 16 MiB in
/// total.
pub fn limits_are_as_stated()
    ensures events { EVENTS_AT_ONCE ≡ 256 }
    ensures ready { MAX_READY_BEFORE_ACCEPT ≡ 128 }
    ensures told { MAX_READY_BEFORE_READING ≡ 16 }
    ensures sent { MAX_SENT_AT_ONCE ≡ 4096 }
    ensures streams { MAX_LINGERING ≡ 256 }
    ensures clients { MAX_CONTROL_CLIENTS ≡ 256 }
    ensures seconds { LINGER_SECONDS ≡ 2 }
    ensures bytes { MAX_DROPPED_BYTES ≡ 16777216 }
    ensures reads { MAX_DROPPED_READS ≡ 64 }
    ensures line { MAX_LINE_BYTES ≡ 8192 }
    ensures asked { ASKED_AT_ONCE ≡ 1024 }
    ensures asking { MAX_ASKING_SECONDS ≡ 2 }
    ensures read { DROPPED_READ_BYTES ≡ 16384 }
    ensures first { FIRST_DROPPED_READ_BYTES ≡ 256 }
    ensures signals { SIGNAL_BYTES_AT_ONCE ≡ 1024 }
    ensures signal { SIGNAL_RECORD_BYTES ≡ 128 }
    ensures slew { SLEW_DIVISOR ≡ 20 }
{}

/// Bytes that ask for a stop have a whole record of SIGTERM or SIGINT, after any number of other records.
pub fn a_stop_has_a_record()
    ensures { StopsHaveARecord }
{}

/// Fewer bytes than a record ask for nothing.
pub fn a_short_read_asks_for_nothing()
    ensures { ShortReadsAskForNothing }
{}

/// The time of the container never goes back, for any readings of the boot time and of the wall clock.
pub fn time_never_goes_back()
    ensures { NeverGoesBack }
{}

/// The time of the container advances as the boot time does, up to one part in [`SLEW_DIVISOR`], rounded up to a
/// millisecond, for any readings of the wall clock. At the greatest number it stays.
pub fn time_keeps_pace()
    ensures { KeepsPace }
{}

/// A time that agrees with the wall clock follows it as long as the wall clock is not set.
pub fn time_follows_the_wall_clock()
    ensures { FollowsTheWallClock }
{}

/// After the wall clock was set, the time of the container agrees with it once the boot time has advanced by
/// [`SLEW_DIVISOR`] times the difference, if the wall clock is not set again.
pub fn time_comes_to_the_wall_clock()
    ensures { ComesToTheWallClock }
{}
