//! Writes that gather several slices in one call.

ghost use Rattle.std.specs.Io.{WritesAtMost};
ghost use Rattle.std.specs.Io.KnownBytes.{WriteAppends};
ghost use Rattle.std.specs.Io.Slices.{io_slices_bytes};

use mio::net::TcpStream;
use std::io::{self, IoSlice, Write};

/// A writer that takes several slices in one call of the system, as `writev(2)` does.
pub trait GatheringWrite: Write {
    /// Writes the bytes of the slices in their order, as [`Write::write`] writes those of one.
    fn write_gathered(&mut self, slices: &[IoSlice<'_>]) -> io::Result<usize>
        ensures bound { WritesAtMost result (io_slices_bytes slices.now) }
        ensures bytes { WriteAppends (Self.contents self.old) (Self.contents self.new) result (io_slices_bytes slices.now) };
}

impl GatheringWrite for TcpStream {
    fn write_gathered(&mut self, slices: &[IoSlice<'_>]) -> io::Result<usize> {
        // The stream's own method is one call of the system; that of `Write` is one for each slice.
        TcpStream::write_vectored(&*self, slices)
    }
}
