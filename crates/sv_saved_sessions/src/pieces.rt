//! Bytes that are written in pieces, with the code of all of them.

ghost use Rattle.std.specs.Prelude.{◌≡◌, ◌++◌, ◌<◌, ◌^◌, ℕ, List, [], OnOk, length};
ghost use Rattle.std.specs.List.{AllByRecursion, flat_map};
ghost use Rattle.sv_saved_sessions.specs.Encoding.{list_bytes, number_bytes};
ghost use Rattle.sv_saved_sessions.specs.Hmac.{HoldsMessage, hmac_sha256};
ghost use Rattle.sv_saved_sessions.specs.Saved.{AreAll, IsNumber};
ghost use Rattle.sv_saved_sessions.specs.Saving.{Passes, WritesRest};

use crate::encoding::{Written, append_number};
use crate::hmac::Hmac;
use crate::save_fault::SaveFault;
use std::alloc::Global;
use sv_streams::{Sink, write_all};

/// The length at which a piece is written, in bytes.
const PIECE_BYTES: usize = 65_536;

/// The bytes that are not yet written, and the code of those that are.
#[derive(Drop)]
pub(crate) struct Pieces {
    pub(crate) hmac: Hmac,
    pub(crate) buffer: Vec<u8>,
}

impl Pieces {
    /// Begins with no bytes.
    pub(crate) fn new(alloc: Global, key: &[u8; 32]) -> Pieces
        ensures hmac { HoldsMessage key.now result.hmac [] }
        ensures buffer { result.buffer.items ≡ [] }
    {
        Pieces {
            hmac: Hmac::new(key),
            buffer: Vec::new(alloc),
        }
    }

    /// Writes the bytes of the buffer.
    fn flush<O: Sink>(&mut self, sink: &mut O) -> Result<(), SaveFault>
        ensures passes { Passes O.makes [] self.old sink.old result self.new sink.new }
        ensures empty { OnOk result (self.new.buffer.items ≡ []) }
    {
        let Ok(()) = write_all(sink, self.buffer.as_slice()) else {
            return Err(SaveFault::WriteFailed);
        };
        self.hmac.update(self.buffer.as_slice());
        self.buffer.clear();
        Ok(())
    }

    /// Writes the bytes of the buffer if there are enough for a piece.
    pub(crate) fn flush_if_full<O: Sink>(&mut self, sink: &mut O) -> Result<(), SaveFault>
        ensures { Passes O.makes [] self.old sink.old result self.new sink.new }
    {
        if self.buffer.len() < PIECE_BYTES {
            return Ok(());
        }
        self.flush(sink)
    }

    /// Adds a value.
    pub(crate) fn put<T: Written, O: Sink>(
        &mut self,
        sink: &mut O,
        value: &T,
    ) -> Result<(), SaveFault>
        ensures passes { Passes O.makes (T.bytes value.now) self.old sink.old result self.new sink.new }
        ensures fits { OnOk result (T.fits value.now) }
    {
        let Ok(()) = value.append(&mut self.buffer) else {
            return Err(SaveFault::NoMemory);
        };
        self.flush_if_full(sink)
    }

    /// Adds a number.
    pub(crate) fn put_number<O: Sink>(&mut self, sink: &mut O, number: u64) -> Result<(), SaveFault>
        ensures passes { Passes O.makes (number_bytes number) self.old sink.old result self.new sink.new }
        ensures fits { IsNumber number }
    {
        let Ok(()) = append_number(&mut self.buffer, number) else {
            return Err(SaveFault::NoMemory);
        };
        self.flush_if_full(sink)
    }

    /// Adds a list.
    pub(crate) fn put_list<T: Written, O: Sink>(
        &mut self,
        sink: &mut O,
        items: &[T],
    ) -> Result<(), SaveFault>
        requires { length items.now < 2 ^ 64 }
        ensures passes { Passes O.makes (list_bytes T.bytes items.now) self.old sink.old result self.new sink.new }
        ensures fits { OnOk result (AreAll T.fits items.now) }
    {
        self.put_number(sink, items.len() as u64)?;
        self.put_items(sink, items)
    }

    /// Adds values one after another.
    fn put_items<T: Written, O: Sink>(&mut self, sink: &mut O, items: &[T]) -> Result<(), SaveFault>
        ensures passes { Passes O.makes (flat_map T.bytes items.now) self.old sink.old result self.new sink.new }
        ensures fits { OnOk result (AllByRecursion T.fits items.now) }
    {
        for item in items {
            self.put(sink, item)?;
        }
        Ok(())
    }

    /// Writes all that is left, and the code of the whole.
    pub(crate) fn finish<O: Sink>(mut self, sink: &mut O) -> Result<(), SaveFault>
        ensures { (key message : List ℕ) → HoldsMessage key self.hmac message
            → WritesRest O.makes (self.buffer.items ++ hmac_sha256 key (message ++ self.buffer.items)) sink.old result sink.new }
    {
        self.flush(sink)?;
        let Pieces { hmac, buffer: _ } = self;
        let code = hmac.finalize();
        let Ok(()) = write_all(sink, &code) else {
            return Err(SaveFault::WriteFailed);
        };
        Ok(())
    }
}
