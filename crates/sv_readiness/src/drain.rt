//! Reads and drops the input of a closed connection.

ghost use Rattle.std.specs.Prelude.{◌≡◌, ◌<◌, length};
ghost use Rattle.sv_readiness.specs.Dropping.{Drops};

use crate::calls::try_read;
use crate::limits::{DROPPED_READ_BYTES, FIRST_DROPPED_READ_BYTES, MAX_DROPPED_READS};
use std::io::Read;
use sv_connection::Tried;

/// The outcome of reading on.
#[derive(Clone, Copy, Debug, PartialEq, Eq)]
pub(crate) enum Dropped {
    /// Nothing more is read: the stream has ended or failed, or the limit of dropped bytes is reached.
    All,
    /// The next read would block.
    UntilPaused,
    /// The next read may return more.
    Some,
}

/// Reads input and drops it. Makes at most [`MAX_DROPPED_READS`] reads and drops at most `left` bytes.
pub(crate) fn drop_some<R: Read>(reader: &mut R, left: &mut usize) -> Dropped
    ensures { Drops (R.remaining reader.old) left.old left.new (R.remaining reader.new) }
{
    let mut buffer = [0; FIRST_DROPPED_READ_BYTES];
    match drop_once(reader, &mut buffer, left) {
        Dropped::Some => drop_more(reader, left),
        Dropped::UntilPaused => Dropped::UntilPaused,
        Dropped::All => Dropped::All,
    }
}

// Reads on after a first read that returned bytes. Makes at most the remaining `MAX_DROPPED_READS - 1` reads.
fn drop_more<R: Read>(reader: &mut R, left: &mut usize) -> Dropped
    ensures { Drops (R.remaining reader.old) left.old left.new (R.remaining reader.new) }
{
    let mut buffer = [0; DROPPED_READ_BYTES];
    for _ in 1..MAX_DROPPED_READS {
        match drop_once(reader, &mut buffer, left) {
            Dropped::Some => {}
            Dropped::UntilPaused => return Dropped::UntilPaused,
            Dropped::All => return Dropped::All,
        }
    }
    Dropped::Some
}

// Reads once.
fn drop_once<R: Read>(reader: &mut R, buffer: &mut [u8], left: &mut usize) -> Dropped
    requires { 0 < length buffer.old }
    ensures bytes { Drops (R.remaining reader.old) left.old left.new (R.remaining reader.new) }
    ensures buffer { length buffer.new ≡ length buffer.old }
{
    let most = buffer.len().min(*left);
    if most == 0 {
        return Dropped::All;
    }
    match try_read(reader, buffer.split_at_mut(most).0) {
        Tried::Done(0) => Dropped::All,
        Tried::Done(count) => {
            *left -= count;
            Dropped::Some
        }
        Tried::WouldBlock => Dropped::UntilPaused,
        Tried::Failed => Dropped::All,
    }
}
