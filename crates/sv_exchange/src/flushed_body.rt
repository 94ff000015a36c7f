//! The flushed part of a body.

ghost use Rattle.std.specs.Prelude.{◌≡◌, ◌^◌, ◌-◌, ◌++◌, [], OnOk, OnErr, length, min};
ghost use Rattle.sv_exchange.specs.Beginning.{body_of, last_piece};
ghost use Rattle.sv_message.specs.Chunking.{joined, piece_of};

use std::alloc::Global;
use std::marker::Model;
use sv_message::{Body, Pieces, Segments};
use sv_text::{Bytes, NoMemory};

/// The flushed pieces of a body, and their total length. Contracts see the list of pieces.
#[derive(Drop)]
pub(crate) struct Flushed {
    pieces: Vec<Bytes>,
    /// The number of bytes in all pieces, at most the maximum `usize`.
    total: usize,
}

impl Model for Flushed {
    ghost use Rattle.std.specs.Prelude.{ℕ, List, ◌≡◌, ◌^◌, ◌-◌, length, min};
    ghost use Rattle.sv_message.specs.Chunking.{joined};

    ghost Value = { List (List ℕ) };

    ghost view = { λ flushed. flushed.pieces.items };

    ghost invariant = { λ flushed. flushed.total ≡ min (length (joined flushed.pieces.items)) (2 ^ 64 - 1) };
}

impl Flushed {
    /// Returns the value before the first flush.
    pub(crate) fn new(alloc: Global) -> Flushed
        ensures { result ≡ [] }
    {
        Flushed {
            pieces: Vec::new(alloc),
            total: 0,
        }
    }

    /// Returns the number of bytes in all pieces, at most the maximum `usize`.
    pub(crate) fn total(&self) -> usize
        ensures { result ≡ min (length (joined self.now)) (2 ^ 64 - 1) }
    {
        self.total
    }

    /// Moves the written bytes, if any, into a new piece. After [`NoMemory`] nothing has changed.
    pub(crate) fn take_piece(
        &mut self,
        alloc: Global,
        written: &mut Segments,
    ) -> Result<(), NoMemory>
        ensures taken { OnOk result (self.new ≡ self.old ++ piece_of written.old) }
        ensures emptied { OnOk result (written.new ≡ []) }
        ensures refused { OnErr result (self.new ≡ self.old) }
        ensures stays { OnErr result (written.new ≡ written.old) }
    {
        if written.is_empty() {
            return Ok(());
        }
        self.pieces.reserve(1)?;
        let total = self.total.saturating_add(written.len());
        let piece = written.take(alloc)?;
        self.pieces.push(Bytes::from_vec(piece)).unwrap();
        self.total = total;
        Ok(())
    }
}

/// Returns the body of a response: whole if the response is not committed, and otherwise in pieces. The last piece is
/// the bytes written since the last flush, unless the response is truncated.
pub(crate) fn body_of(
    committed: bool,
    flushed: Flushed,
    buffer: Segments,
    chunked: bool,
    broken: bool,
) -> Body
    ensures { result ≡ body_of committed flushed buffer chunked broken }
{
    if !committed {
        return Body::Whole(buffer);
    }
    let Flushed { pieces, .. } = flushed;
    let rest = unbroken(buffer, broken);
    Body::Flushed {
        pieces: Pieces::of(pieces, rest),
        chunked,
        broken,
    }
}

// Returns the bytes written since the last flush, and none if the response is truncated.
fn unbroken(buffer: Segments, broken: bool) -> Segments
    ensures { piece_of result ≡ last_piece broken buffer }
{
    let mut rest = buffer;
    if broken {
        rest.clear();
    }
    rest
}
