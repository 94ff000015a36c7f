//! Buffers of bytes that wait.

ghost use Rattle.std.specs.Prelude.{[], drop, length, vec_items, ◌<◌, ◌≡◌, ◌≤◌};
ghost use Rattle.sv_connection.specs.Ways.{TriesRead};

use crate::limits::FIRST_READ_BYTES;
use crate::peer::{Peer, Tried};
use std::alloc::Global;
use std::marker::Model;
use sv_text::NoMemory;

/// A buffer of bytes that wait to be passed to the handler or to be written. Contracts see their list. It keeps at most
/// twice as many bytes as wait, or the size of a first read. After these bytes follows the rest of the read buffer,
/// which is initialized once.
#[derive(Drop)]
pub(crate) struct Pending {
    bytes: Vec<u8>,
    at: usize,
    end: usize,
}

impl Model for Pending {
    ghost use Rattle.std.specs.Prelude.{ℕ, List, drop, take, ◌+◌, ◌≤◌, vec_len};

    ghost Value = { List ℕ };

    ghost view = { λ p. drop p.at (take p.end p.bytes.items) };

    ghost invariant = { λ p. (p.at + p.at ≤ p.end) × (p.end ≤ vec_len p.bytes) };
}

impl Pending {
    ghost use Rattle.std.specs.Prelude.{◌≡◌, ◌≤◌, ◌==◌, ◌<◌, [], length, drop, take};
    ghost use Rattle.sv_connection.specs.Ways.{Refills};

    /// Creates an empty buffer.
    pub fn new(alloc: Global) -> Pending
        ensures { result ≡ [] }
    {
        Pending {
            bytes: Vec::new(alloc),
            at: 0,
            end: 0,
        }
    }

    /// Creates a buffer of all bytes of a vector.
    pub fn of(bytes: Vec<u8>) -> Pending
        ensures { result ≡ bytes.items }
    {
        let end = bytes.len();
        Pending { bytes, at: 0, end }
    }

    /// Returns its memory.
    pub fn into_vec(self) -> Vec<u8> {
        self.bytes
    }

    /// Returns whether no bytes wait.
    #[inline(always)]
    pub fn is_empty(&self) -> bool
        ensures { result ≡ (length self.now == 0) }
    {
        self.as_slice().is_empty()
    }

    /// Returns the number of bytes that wait.
    pub fn len(&self) -> usize
        ensures { result ≡ length self.now }
    {
        self.as_slice().len()
    }

    /// Returns the bytes that wait.
    #[inline(always)]
    pub fn as_slice(&self) -> &[u8]
        ensures { result.now ≡ self.now }
    {
        let bytes = self.bytes.as_slice().split_at(self.end).0;
        bytes.split_at(self.at).1
    }

    /// Skips `count` bytes. When more than half of the buffer is skipped, its memory is freed, except the size of a
    /// first read.
    #[inline(always)]
    pub fn skip(&mut self, count: usize)
        requires { count ≤ length self.old }
        ensures { self.new ≡ drop count self.old }
    {
        let at = self.at + count;
        if at == self.end && self.bytes.capacity() <= FIRST_READ_BYTES {
            self.at = 0;
            self.end = 0;
        } else if at > self.end - at {
            self.bytes.truncate(self.end);
            keep_rest(&mut self.bytes, at);
            self.at = 0;
            self.end = self.bytes.len();
        } else {
            self.at = at;
        }
    }

    /// Reads once into an empty buffer, at most `most` bytes. If the read is known to block, no memory is allocated for
    /// it.
    ///
    /// # Errors
    /// Memory ran out, and nothing was read.
    #[inline(always)]
    pub fn refill<P: Peer>(&mut self, peer: &mut P, most: usize) -> Result<Tried, NoMemory>
        requires idle { self.old ≡ [] }
        requires room { 0 < most }
        ensures { Refills P.ways peer.old result peer.new self.new }
    {
        self.at = 0;
        self.end = 0;
        if peer.would_block() {
            return Ok(Tried::WouldBlock);
        }
        self.bytes.resize(most, 0)?;
        match read_into(peer, &mut self.bytes) {
            Tried::Done(count) => {
                self.end = count;
                Ok(Tried::Done(count))
            }
            Tried::WouldBlock => Ok(Tried::WouldBlock),
            Tried::Failed => Ok(Tried::Failed),
        }
    }
}

// Drops the first `at` bytes, and frees their memory if the buffer is larger than a first read.
fn keep_rest(bytes: &mut Vec<u8>, at: usize)
    requires { at ≤ length (vec_items bytes.old) }
    ensures { vec_items bytes.new ≡ drop at (vec_items bytes.old) }
{
    let len = bytes.len();
    bytes.copy_within(at..len, 0);
    bytes.truncate(len - at);
    if bytes.capacity() > FIRST_READ_BYTES {
        bytes.shrink_to_fit();
    }
}

// Reads once into the whole vector. The bytes read are at its front. If the read blocks or fails, the memory is freed.
#[inline(always)]
fn read_into<P: Peer>(peer: &mut P, room: &mut Vec<u8>) -> Tried
    requires { 0 < length (vec_items room.old) }
    ensures { TriesRead P.ways peer.old result (vec_items room.new) peer.new }
{
    match peer.read(room.as_mut_slice()) {
        Tried::Done(count) => Tried::Done(count),
        Tried::WouldBlock => {
            *room = Vec::new(*room.allocator());
            Tried::WouldBlock
        }
        Tried::Failed => {
            *room = Vec::new(*room.allocator());
            Tried::Failed
        }
    }
}

/// The result of writing the bytes that wait for a connection.
#[derive(Clone, Copy, Debug, PartialEq, Eq)]
pub(crate) enum Sent {
    /// All bytes were written.
    All,
    /// Bytes still wait: the next write would block, or the stream was armed.
    Waits,
    /// A write failed, or the stream could not be armed.
    Fails,
}
