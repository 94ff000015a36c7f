//! The pieces of a body.

ghost use Rattle.std.specs.Prelude.{◌≡◌, ◌++◌, ℕ, List, OnOk};
ghost use Rattle.sv_message.specs.Chunking.{chunk, chunks, joined, piece_of, size_line};

use crate::segments::Segments;
use std::alloc::{AllocError, Global};
use std::marker::Model;
use sv_text::Bytes;

/// The pieces of a body, in the order in which they are sent. Contracts see their list.
#[derive(Drop)]
pub struct Pieces {
    flushed: Vec<Bytes>,
    rest: Segments,
}

impl Model for Pieces {
    ghost use Rattle.std.specs.Prelude.{ℕ, List, ◌++◌};
    ghost use Rattle.sv_message.specs.Chunking.{piece_of};

    ghost Value = { List (List ℕ) };

    ghost view = { λ pieces. pieces.flushed.items ++ piece_of pieces.rest };
}

impl Pieces {
    /// Returns the flushed pieces, followed by the bytes written since the last flush, without taking memory. If
    /// nothing was written since, there is no last piece.
    pub fn of(flushed: Vec<Bytes>, rest: Segments) -> Pieces
        ensures { result ≡ flushed.items ++ piece_of rest }
    {
        Pieces { flushed, rest }
    }

    /// Appends the pieces, concatenated. On an error, some of them may have been appended.
    pub(crate) fn push_joined(&self, text: &mut Vec<u8>) -> Result<(), AllocError>
        ensures { OnOk result (text.new.items ≡ text.old.items ++ joined self.now) }
    {
        push_all(text, self.flushed.as_slice())?;
        self.rest.push_to(text)
    }

    /// Appends the pieces as chunks. On an error, some of them may have been appended.
    pub(crate) fn push_chunks(&self, alloc: Global, text: &mut Vec<u8>) -> Result<(), AllocError>
        ensures { OnOk result (text.new.items ≡ text.old.items ++ chunks self.now) }
    {
        push_all_chunks(alloc, text, self.flushed.as_slice())?;
        push_rest(alloc, text, &self.rest)
    }
}

// Appends pieces.
fn push_all(text: &mut Vec<u8>, pieces: &[Bytes]) -> Result<(), AllocError>
    ensures { OnOk result (text.new.items ≡ text.old.items ++ joined pieces.now) }
{
    for piece in pieces {
        text.extend_from_slice(piece.as_slice())?;
    }
    Ok(())
}

// Appends pieces as chunks.
fn push_all_chunks(alloc: Global, text: &mut Vec<u8>, pieces: &[Bytes]) -> Result<(), AllocError>
    ensures { OnOk result (text.new.items ≡ text.old.items ++ chunks pieces.now) }
{
    for piece in pieces {
        push_chunk(alloc, text, piece.as_slice())?;
    }
    Ok(())
}

// Appends a piece as a chunk.
fn push_chunk(alloc: Global, text: &mut Vec<u8>, piece: &[u8]) -> Result<(), AllocError>
    ensures { OnOk result (text.new.items ≡ text.old.items ++ chunk piece.now) }
{
    if piece.is_empty() {
        return Ok(());
    }
    push_size_line(alloc, text, piece.len())?;
    text.extend_from_slice(piece)?;
    text.extend_from_slice(b"\r\n")?;
    Ok(())
}

// Appends the bytes written since the last flush as a chunk.
fn push_rest(alloc: Global, text: &mut Vec<u8>, rest: &Segments) -> Result<(), AllocError>
    ensures { OnOk result (text.new.items ≡ text.old.items ++ chunk rest.now) }
{
    if rest.is_empty() {
        return Ok(());
    }
    push_size_line(alloc, text, rest.len())?;
    rest.push_to(text)?;
    text.extend_from_slice(b"\r\n")?;
    Ok(())
}

// Appends the line with a chunk's size.
fn push_size_line(alloc: Global, text: &mut Vec<u8>, size: usize) -> Result<(), AllocError>
    ensures { OnOk result (text.new.items ≡ text.old.items ++ size_line size) }
{
    let line = format!(in alloc; "{size:x}\r\n")?;
    text.extend_from_slice(line.as_bytes())
}
