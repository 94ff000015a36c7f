//! Long streams, and the amount that is read from them.

ghost use Rattle.std.specs.Prelude.{◌<◌};

use crate::reading::Reading;
use std::alloc::Global;
use sv_rows::{Asks, Draft, add_unescaped, cell};
use sv_text::NoMemory;

/// Answers with the amount that is read from a row's stream, in pieces of several sizes.
#[derive(Drop)]
pub struct Counts {
    /// The bytes before the row's stream.
    pub head: &'static [u8],
}

impl Asks for Counts {
    const QUESTION: usize = 1;

    fn answer(&self, alloc: Global, row: &str, answer: &mut Vec<u8>) -> Result<(), NoMemory> {
        let mut stream = Draft::new(alloc);
        stream.add_bytes(self.head);
        add_unescaped(&mut stream, cell(row, 0));
        let stream = stream.finish()?;
        self.found(alloc, stream.as_slice())?.add_to(answer)
    }
}

impl Counts {
    /// Returns the length of the stream after the head and the result of reading it, with a note if it depends on the
    /// sizes of the pieces.
    fn found(&self, alloc: Global, stream: &[u8]) -> Result<Draft, NoMemory> {
        let (front, back) = stream.split_at(stream.len().saturating_sub(8));
        // The stream arrives as one piece, except for its last eight bytes, which arrive one by one.
        let told = told(alloc, front, back, 1)?;
        let mut found = Draft::new(alloc);
        found.add_shown(&stream.len().saturating_sub(self.head.len()));
        found.add(" | ");
        found.add_bytes(told.as_slice());
        if !is_told(alloc, stream, told.as_slice()) {
            found.add(" but not in pieces of each size");
        }
        Ok(found)
    }
}

/// Returns whether reading a stream in pieces of equal size gives this result. The sizes are 1 byte (1,000 bytes for a
/// stream of 100,000 bytes or more), 65,535 and 65,536 bytes.
fn is_told(alloc: Global, stream: &[u8], wanted: &[u8]) -> bool {
    let least = if stream.len() < 100_000 { 1 } else { 1000 };
    is_told_of(alloc, stream, least, wanted)
        && is_told_of(alloc, stream, 65_535, wanted)
        && is_told_of(alloc, stream, 65_536, wanted)
}

/// Returns whether reading a stream in pieces of this size gives this result.
fn is_told_of(alloc: Global, stream: &[u8], size: usize, wanted: &[u8]) -> bool
    requires { 0 < size }
{
    match told(alloc, b"", stream, size) {
        Ok(told) => told.as_slice() == wanted,
        Err(_) => false,
    }
}

/// Returns the refusal, or else the number of messages and of bytes in bodies; and, after a bar, the meaning of the
/// end. The stream has two parts, the second in pieces of this size.
fn told(alloc: Global, front: &[u8], back: &[u8], size: usize) -> Result<Vec<u8>, NoMemory>
    requires { 0 < size }
{
    let reading = Reading::of(alloc, front, back, size);
    let mut told = Draft::new(alloc);
    match &reading.refusal {
        Some(fault) => told.add_shown(fault),
        None => add_counts(&mut told, &reading),
    }
    told.add(" | ");
    told.add(reading.end);
    told.finish()
}

fn add_counts(told: &mut Draft, reading: &Reading) {
    told.add_shown(&reading.messages);
    told.add(" read, ");
    told.add_shown(&reading.content);
    told.add(" in bodies");
}
