//! Nonblocking reads and writes.

ghost use Rattle.std.specs.Prelude.{◌<◌, ◌++◌, length};
ghost use Rattle.sv_readiness.specs.Calls.{ReadsSome, WritesSome};

use crate::gathering::GatheringWrite;
use std::io::{ErrorKind, IoSlice, Read, Write};
use sv_connection::Tried;

/// Reads once. An interrupted read is retried.
#[inline(always)]
pub(crate) fn try_read<R: Read>(reader: &mut R, buffer: &mut [u8]) -> Tried
    requires { 0 < length buffer.old }
    ensures { ReadsSome (R.remaining reader.old) result buffer.new (R.remaining reader.new) }
{
    for _ in 0..u64::MAX {
        match reader.read(buffer) {
            Ok(count) => return Tried::Done(count),
            Err(error) if error.kind() == ErrorKind::Interrupted => {}
            Err(error) if error.kind() == ErrorKind::WouldBlock => return Tried::WouldBlock,
            Err(_) => return Tried::Failed,
        }
    }
    Tried::Failed
}

/// Writes once. An interrupted write is retried, and a write of zero bytes counts as failed.
#[inline(always)]
pub(crate) fn try_write<W: Write>(writer: &mut W, bytes: &[u8]) -> Tried
    ensures { WritesSome (W.contents writer.old) result bytes.now (W.contents writer.new) }
{
    for _ in 0..u64::MAX {
        match writer.write(bytes) {
            Ok(0) => return Tried::Failed,
            Ok(count) => return Tried::Done(count),
            Err(error) if error.kind() == ErrorKind::Interrupted => {}
            Err(error) if error.kind() == ErrorKind::WouldBlock => return Tried::WouldBlock,
            Err(_) => return Tried::Failed,
        }
    }
    Tried::Failed
}

/// Writes once, the bytes of three slices in their order, as [`try_write`] writes those of one.
pub(crate) fn try_gathered<W: GatheringWrite>(
    writer: &mut W,
    first: &[u8],
    second: &[u8],
    third: &[u8],
) -> Tried
    ensures { WritesSome (W.contents writer.old) result (first.now ++ second.now ++ third.now) (W.contents writer.new) }
{
    let slices = [
        IoSlice::new(first),
        IoSlice::new(second),
        IoSlice::new(third),
    ];
    for _ in 0..u64::MAX {
        match writer.write_gathered(&slices) {
            Ok(count) if 0 < count => return Tried::Done(count),
            Ok(_) => return Tried::Failed,
            Err(error) if error.kind() == ErrorKind::Interrupted => {}
            Err(error) if error.kind() == ErrorKind::WouldBlock => return Tried::WouldBlock,
            Err(_) => return Tried::Failed,
        }
    }
    Tried::Failed
}
