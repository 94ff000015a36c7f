//! Bytes that were read ahead.

ghost use Rattle.std.specs.Prelude.{◌≡◌, ◌<◌, ◌≤◌, [], length, vec_items, OnErr};
ghost use Rattle.sv_streams.specs.Calls.{read_result};

use crate::lines_fault::LinesFault;
use crate::stream::{ReadFailed, Source};
use std::alloc::Global;
use std::marker::Model;

/// The number of bytes that each read may give.
const PIECE_BYTES: usize = 8192;

/// Bytes that were read and not yet searched. Contracts see their list.
#[derive(Drop)]
pub(crate) struct Ahead {
    piece: Vec<u8>,
    at: usize,
}

impl Model for Ahead {
    ghost use Rattle.std.specs.Prelude.{ℕ, List, drop, ◌≤◌, vec_len};

    ghost Value = { List ℕ };

    ghost view = { λ a. drop a.at a.piece.items };

    ghost invariant = { λ a. a.at ≤ vec_len a.piece };
}

impl Ahead {
    ghost use Rattle.std.specs.Prelude.{◌≡◌, ◌≤◌, [], length, drop};
    ghost use Rattle.sv_streams.specs.LineSteps.{Refills};

    /// Creates an empty list of bytes.
    pub fn new(alloc: Global) -> Ahead
        ensures { result ≡ [] }
    {
        Ahead {
            piece: Vec::new(alloc),
            at: 0,
        }
    }

    /// Returns the bytes.
    pub fn as_slice(&self) -> &[u8]
        ensures { result.now ≡ self.now }
    {
        self.piece.as_slice().split_at(self.at).1
    }

    /// Drops the first `count` bytes.
    pub fn skip(&mut self, count: usize)
        requires { count ≤ length self.old }
        ensures { self.new ≡ drop count self.old }
    {
        self.at += count;
    }

    /// Drops all bytes.
    pub fn clear(&mut self)
        ensures { self.new ≡ [] }
    {
        self.piece.clear();
        self.at = 0;
    }

    /// Reads once. All bytes must have been dropped before. Holds no bytes after an error.
    pub fn refill<S: Source>(&mut self, source: &mut S) -> Result<(), LinesFault>
        requires { self.old ≡ [] }
        ensures { Refills S.makes source.old result source.new self.new }
    {
        self.piece.clear();
        self.at = 0;
        self.piece.resize(PIECE_BYTES, 0)?;
        match read_piece(source, &mut self.piece) {
            Ok(()) => Ok(()),
            Err(_) => Err(LinesFault::ReadFailed),
        }
    }
}

// Reads once into a piece and truncates it to the bytes read.
fn read_piece<S: Source>(source: &mut S, piece: &mut Vec<u8>) -> Result<(), ReadFailed>
    requires { 0 < length (vec_items piece.old) }
    ensures made { S.makes source.old (read_result result (vec_items piece.new)) source.new }
    ensures nothing { OnErr result (vec_items piece.new ≡ []) }
    ensures within { length (vec_items piece.new) ≤ length (vec_items piece.old) }
{
    match source.read(piece.as_mut_slice()) {
        Ok(count) => {
            piece.truncate(count);
            Ok(())
        }
        Err(failed) => {
            piece.clear();
            Err(failed)
        }
    }
}
