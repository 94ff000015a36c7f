//! A stream in memory that can be set to fail.

ghost use Rattle.std.specs.Prelude.{◌≡◌, ◌<◌, ◌≤◌, [], ◌++◌, length, take, drop};

use crate::stream::{ReadFailed, Sink, Source, Stream, WriteFailed};
use std::alloc::Global;
use std::marker::Model;

/// A stream in memory, for tests of readers and writers. Each call gives or takes a limited number of bytes, and one
/// chosen call fails. A write also fails if memory runs out.
#[derive(Drop)]
pub struct MemoryStream {
    input: Vec<u8>,
    at: usize,
    output: Vec<u8>,
    piece: usize,
    calls: u64,
    failing: u64,
}

impl Model for MemoryStream {
    ghost use Rattle.std.specs.Prelude.{drop, ◌≤◌, ◌<◌, vec_len};
    ghost use Rattle.sv_streams.specs.Memory.{MemoryState};

    ghost Value = { MemoryState };

    ghost view = { λ m. record { unread = drop m.at m.input.items; written = m.output.items; piece = m.piece; calls = m.calls; failing = m.failing } };

    ghost invariant = { λ m. (m.at ≤ vec_len m.input) × (0 < m.piece) };
}

impl MemoryStream {
    ghost use Rattle.std.specs.Prelude.{◌≡◌, ◌<◌, [], vec_items};
    ghost use Rattle.sv_streams.specs.Memory.{called, is_failing};

    /// Creates a stream with this input. Each call gives or takes at most `piece` bytes. The call of the number
    /// `failing`, counted from 1, fails; 0 means none.
    pub fn new(alloc: Global, input: Vec<u8>, piece: usize, failing: u64) -> MemoryStream
        requires { 0 < piece }
        ensures { result ≡ record { unread = vec_items input; written = []; piece = piece; calls = 0; failing = failing } }
    {
        MemoryStream {
            input,
            at: 0,
            output: Vec::new(alloc),
            piece,
            calls: 0,
            failing,
        }
    }

    /// Returns the bytes written.
    pub fn written(&self) -> &[u8]
        ensures { result.now ≡ self.now.written }
    {
        self.output.as_slice()
    }

    /// Returns the number of calls, up to the greatest `u64`.
    pub fn calls(&self) -> u64
        ensures { result ≡ self.now.calls }
    {
        self.calls
    }

    // Counts a call and returns whether it must fail.
    fn is_failing(&mut self) -> bool
        ensures counts { self.new ≡ called self.old }
        ensures told { result ≡ is_failing self.old }
    {
        self.calls = self.calls.saturating_add(1);
        self.calls == self.failing
    }
}

impl Stream for MemoryStream {
    ghost use Rattle.sv_streams.specs.Memory.{IsMade};

    ghost makes = { IsMade };
}

impl Source for MemoryStream {
    fn read(&mut self, buffer: &mut [u8]) -> Result<usize, ReadFailed> {
        if self.is_failing() {
            return Err(ReadFailed);
        }
        let unread = self.input.as_slice().split_at(self.at).1;
        let count = give(unread, self.piece, buffer);
        self.at += count;
        Ok(count)
    }
}

impl Sink for MemoryStream {
    fn write(&mut self, bytes: &[u8]) -> Result<usize, WriteFailed> {
        if self.is_failing() {
            return Err(WriteFailed);
        }
        let count = bytes.len().min(self.piece);
        match self.output.extend_from_slice(&bytes[..count]) {
            Ok(()) => Ok(count),
            Err(_) => Err(WriteFailed),
        }
    }
}

// Copies bytes to the front of the buffer: at most `piece`, and as many as fit. Returns their number.
fn give(bytes: &[u8], piece: usize, buffer: &mut [u8]) -> usize
    requires some { 0 < piece }
    requires room { 0 < length buffer.old }
    ensures within { result ≤ length buffer.new }
    ensures at_once { result ≤ piece }
    ensures front { bytes.now ≡ take result buffer.new ++ drop result bytes.now }
    ensures none { result ≡ 0 → bytes.now ≡ [] }
{
    let count = bytes.len().min(piece).min(buffer.len());
    copy_front(buffer, bytes, count);
    count
}

// Copies the first `count` bytes to the front of a buffer.
fn copy_front(buffer: &mut [u8], bytes: &[u8], count: usize)
    requires room { count ≤ length buffer.old }
    requires enough { count ≤ length bytes.now }
    ensures { take count buffer.new ≡ take count bytes.now }
{
    for place in 0..count {
        buffer[place] = bytes[place];
    }
}
