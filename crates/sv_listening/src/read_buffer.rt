//! Bytes that were read and not yet returned.

ghost use Rattle.std.specs.Prelude.{◌≡◌, ◌≤◌, length, take};

use crate::part_len::fitting_len;
use std::marker::Model;
use sv_connection::READ_BYTES;
use sv_streams::{ReadFailed, Source};

/// Bytes that were read and not yet returned. Contracts see their list.
#[derive(Drop)]
pub(crate) struct Kept {
    bytes: [u8; READ_BYTES],
    start: usize,
    end: usize,
}

impl Model for Kept {
    ghost use Rattle.std.specs.Prelude.{ℕ, List, take, drop, ◌≤◌};
    ghost use Rattle.sv_connection.specs.declared.limits.TheConstants.{READ_BYTES};

    ghost Value = { List ℕ };

    ghost view = { λ k. drop k.start (take k.end k.bytes) };

    ghost invariant = { λ k. (k.start ≤ k.end) × (k.end ≤ READ_BYTES) };
}

impl Kept {
    ghost use Rattle.std.specs.Prelude.{◌≡◌, ◌≤◌, ◌<◌, ◌==◌, ◌++◌, [], length, take, drop, OnErr};
    ghost use Rattle.sv_streams.specs.Calls.{read_result};
    ghost use Rattle.sv_listening.specs.Parts.{IsPart};

    /// Creates an empty buffer.
    pub fn new() -> Kept
        ensures { result ≡ [] }
    {
        Kept {
            bytes: [0; READ_BYTES],
            start: 0,
            end: 0,
        }
    }

    /// Returns whether the buffer is empty.
    pub fn is_empty(&self) -> bool
        ensures { result ≡ (length self.now == 0) }
    {
        self.as_slice().is_empty()
    }

    fn as_slice(&self) -> &[u8]
        ensures { result.now ≡ self.now }
    {
        &self.bytes[self.start..self.end]
    }

    /// Reads once into an empty buffer.
    ///
    /// # Errors
    /// The read failed, and the buffer is still empty.
    pub fn refill<S: Source>(&mut self, source: &mut S) -> Result<(), ReadFailed>
        requires { self.old ≡ [] }
        ensures made { S.makes source.old (read_result result self.new) source.new }
        ensures none { OnErr result (self.new ≡ []) }
    {
        self.start = 0;
        self.end = 0;
        match source.read(&mut self.bytes) {
            Ok(count) => {
                self.end = count;
                Ok(())
            }
            Err(failed) => Err(failed),
        }
    }

    /// Moves the first part of the bytes to the front of `buffer`, as far as it fits. Returns the number of bytes
    /// moved.
    pub fn give(&mut self, buffer: &mut [u8]) -> usize
        requires { 0 < length buffer.old }
        ensures within { result ≤ length buffer.new }
        ensures front { self.old ≡ take result buffer.new ++ self.new }
        ensures part { 0 < length self.old → IsPart (take result buffer.new) }
    {
        if self.is_empty() {
            return 0;
        }
        let kept = self.as_slice();
        let count = fitting_len(kept, buffer.len());
        copy_front(buffer, kept, count);
        self.skip(count);
        count
    }

    // Skips `count` bytes.
    fn skip(&mut self, count: usize)
        requires { count ≤ length self.old }
        ensures { self.new ≡ drop count self.old }
    {
        self.start += count;
    }
}

// Copies the first `count` bytes to the front of a buffer.
fn copy_front(buffer: &mut [u8], bytes: &[u8], count: usize)
    requires room { count ≤ length buffer.old }
    requires enough { count ≤ length bytes.now }
    ensures length { length buffer.new ≡ length buffer.old }
    ensures front { take count buffer.new ≡ take count bytes.now }
{
    buffer
        .split_at_mut(count)
        .0
        .copy_from_slice(bytes.split_at(count).0);
}
