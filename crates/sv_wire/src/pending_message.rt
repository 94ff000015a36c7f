//! A body that is being read, with its head.

ghost use Rattle.std.specs.Prelude.{◌≡◌, true, false, [], ◌++◌, IfOk};
ghost use Rattle.sv_wire.specs.Reads.{item_of};

use crate::body_reader::{BodyEnd, BodyReader, Progress};
use crate::history::{History, Piece};
use crate::item::Item;
use crate::owed_head::OwedHead;
use crate::wire_fault::WireFault;
use std::alloc::Global;
use std::marker::Model;
use sv_text::NoMemory;

/// A head whose body is being read.
#[derive(Drop)]
pub(crate) struct Pending {
    pub(crate) owed: OwedHead,
    /// Whether the body was asked for by `100 Continue`.
    pub(crate) is_asked: bool,
    /// The bytes of the head, unless the body was asked for.
    pub(crate) head: History,
    pub(crate) reader: BodyReader,
}

/// A [`Pending`] in a box, since it is moved with each piece of a stream. Types that contain it stay small.
#[derive(Drop)]
pub(crate) struct PendingBox {
    inner: Box<Pending>,
}

impl Model for PendingBox {
    ghost use Rattle.sv_wire.specs.declared.pending_message.Pending.{Pending};

    ghost Value = { Pending };

    ghost view = { λ boxed. boxed.inner.value };
}

impl PendingBox {
    ghost use Rattle.sv_wire.specs.Pending.{Begins, ReadsPiece};

    /// Returns the body of a head that asks for `100 Continue`, before its first byte.
    pub(crate) fn asked(alloc: Global, owed: OwedHead) -> Result<PendingBox, NoMemory>
        ensures { IfOk result (Begins true [] owed) }
    {
        let pending = Pending {
            reader: BodyReader::new(alloc, owed.framing),
            owed,
            is_asked: true,
            head: History::new(),
        };
        Ok(PendingBox {
            inner: Box::new(alloc, pending)?,
        })
    }

    /// Returns the body of a head that it follows directly, before its first byte.
    pub(crate) fn behind(alloc: Global, owed: OwedHead, head: &[u8]) -> Result<PendingBox, NoMemory>
        ensures { IfOk result (Begins false head.now owed) }
    {
        let pending = Pending {
            reader: BodyReader::new(alloc, owed.framing),
            owed,
            is_asked: false,
            head: History::new().and(&Piece { bytes: head }),
        };
        Ok(PendingBox {
            inner: Box::new(alloc, pending)?,
        })
    }

    /// Reads a piece, up to the end of the body if the piece contains it.
    // Inlined: for pieces of a single byte, calls are most of the cost.
    #[inline(always)]
    pub(crate) fn read(&mut self, piece: &[u8]) -> Result<Progress, NoMemory>
        ensures { IfOk result (λ progress. ReadsPiece self.old piece.now progress self.new) }
    {
        self.inner.reader.read(piece)
    }

    /// Returns the item for the head and the end of its body.
    pub(crate) fn into_item(self, end: BodyEnd) -> Item
        ensures { result ≡ item_of self.owed end }
    {
        match end {
            BodyEnd::Complete(body) => Item::Message(
                Box::into_inner(self.inner).owed.message.with_body(body),
            ),
            BodyEnd::Broken(fault) => Item::Refuse(WireFault::of_body(fault)),
        }
    }
}
