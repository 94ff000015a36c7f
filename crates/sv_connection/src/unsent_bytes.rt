//! Bytes that wait to be written.

ghost use Rattle.std.specs.Prelude.{◌≡◌, ◌==◌, ◌++◌, ◌≤◌, [], drop, length, take};

use crate::pending_bytes::Pending;
use bytes::Bytes;
use std::alloc::Global;
use std::marker::Model;
use std::mem;
use sv_message::Segments;

/// Bytes that wait to be written: owned ones, then shared ones, then owned ones. Contracts see the list of all.
#[derive(Drop)]
pub(crate) struct Unsent {
    first: Pending,
    shared: Bytes,
    last: Pending,
}

impl Model for Unsent {
    ghost use Rattle.std.specs.Prelude.{ℕ, List, ◌++◌, ◌<◌, ◌^◌, length};

    ghost Value = { List ℕ };

    ghost view = { λ unsent. unsent.first ++ unsent.shared ++ unsent.last };

    ghost invariant = { λ unsent. length (unsent.first ++ unsent.shared ++ unsent.last) < 2 ^ 64 };
}

impl Unsent {
    /// Returns no bytes. Takes no memory.
    pub fn new(alloc: Global) -> Unsent
        ensures { result ≡ [] }
    {
        Unsent {
            first: Pending::new(alloc),
            shared: Bytes::new(),
            last: Pending::new(alloc),
        }
    }

    /// Replaces the bytes. Returns memory that is needed no more.
    #[inline(always)]
    pub fn replace(&mut self, bytes: Segments) -> Vec<u8>
        ensures { self.new ≡ bytes }
    {
        let (first, shared, last) = bytes.into_parts();
        let room = mem::replace(&mut self.first, Pending::of(first)).into_vec();
        self.shared = shared;
        self.last = Pending::of(last);
        room
    }

    /// Returns whether no bytes wait.
    #[inline(always)]
    pub fn is_empty(&self) -> bool
        ensures { result ≡ (length self.now == 0) }
    {
        self.first.is_empty() && self.shared.is_empty() && self.last.is_empty()
    }

    /// Returns the number of bytes that wait.
    pub fn len(&self) -> usize
        ensures { result ≡ length self.now }
    {
        self.first.len() + self.shared.len() + self.last.len()
    }

    /// Returns the first of the bytes, at most `most` of them, in three slices of which some may be empty.
    #[inline(always)]
    #[tactic(auto, using(crate::proofs::UnsentLemmas::take_three))]
    pub fn front(&self, most: usize) -> (&[u8], &[u8], &[u8])
        ensures { result.0.now ++ result.1.now ++ result.2.now ≡ take most self.now }
    {
        let first = cut(self.first.as_slice(), most);
        let left = most - first.len();
        let shared = cut(self.shared.as_slice(), left);
        let last = cut(self.last.as_slice(), left - shared.len());
        (first, shared, last)
    }

    /// Skips `count` bytes. Shared bytes are let go of when all of them are skipped.
    #[inline(always)]
    #[tactic(auto, using(crate::proofs::UnsentLemmas::drop_three))]
    pub fn skip(&mut self, count: usize)
        requires { count ≤ length self.old }
        ensures { self.new ≡ drop count self.old }
    {
        let of_first = count.min(self.first.len());
        self.first.skip(of_first);
        let left = count - of_first;
        let of_shared = left.min(self.shared.len());
        skip_shared(&mut self.shared, of_shared);
        self.last.skip(left - of_shared);
    }
}

// Skips shared bytes.
#[inline(always)]
fn skip_shared(bytes: &mut Bytes, count: usize)
    requires { count ≤ length bytes.old }
    ensures { bytes.new ≡ drop count bytes.old }
{
    if count == 0 {
        return;
    }
    if count == bytes.len() {
        *bytes = Bytes::new();
    } else {
        bytes.advance(count);
    }
}

// Returns the first of the bytes, at most `most` of them.
#[inline(always)]
fn cut(bytes: &[u8], most: usize) -> &[u8]
    ensures { result.now ≡ take most bytes.now }
{
    if bytes.len() <= most {
        return bytes;
    }
    bytes.split_at(most).0
}
