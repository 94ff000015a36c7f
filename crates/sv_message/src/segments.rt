//! Bytes in segments, of which one may have further owners.

ghost use Rattle.std.specs.Prelude.{◌≡◌, ◌==◌, ◌++◌, ◌^◌, ◌-◌, [], IfOk, OnOk, OnErr, length, vec_capacity};

use bytes::Bytes;
use std::alloc::{AllocError, Global};
use std::marker::Model;
use std::mem;
use sv_text::NoMemory;

/// The least number of bytes that are shared instead of copied.
pub const MIN_SHARED_BYTES: usize = 16_384;

/// Bytes in at most three segments: owned bytes, then bytes that have further owners, then owned bytes. Contracts see
/// the list of all bytes. A value without shared bytes is a vector and one more word.
pub struct Segments {
    first: Vec<u8>,
    behind: Option<Box<Behind>>,
}

/// The segments behind the first one.
#[derive(Drop)]
struct Behind {
    shared: Bytes,
    last: Vec<u8>,
}

impl Model for Segments {
    ghost use Rattle.std.specs.Prelude.{ℕ, List, ◌++◌, ◌<◌, ◌^◌, length};
    ghost use Rattle.sv_message.specs.Segments.{bytes_behind};

    ghost Value = { List ℕ };

    ghost view = { λ segments. segments.first.items ++ bytes_behind segments.behind };

    ghost invariant = { λ segments. length (segments.first.items ++ bytes_behind segments.behind) < 2 ^ 64 };
}

impl Segments {
    /// Returns no bytes. Takes no memory.
    pub fn new(alloc: Global) -> Segments
        ensures { result ≡ [] }
    {
        Segments::from_vec(Vec::new(alloc))
    }

    /// Makes a vector the first segment, without taking memory.
    pub fn from_vec(first: Vec<u8>) -> Segments
        ensures { result ≡ first.items }
    {
        Segments {
            first,
            behind: None,
        }
    }

    /// Returns whether there are no bytes.
    pub fn is_empty(&self) -> bool
        ensures { result ≡ (length self.now == 0) }
    {
        let (first, shared, last) = self.slices();
        first.is_empty() && shared.is_empty() && last.is_empty()
    }

    /// Returns the number of bytes.
    pub fn len(&self) -> usize
        ensures { result ≡ length self.now }
    {
        match &self.behind {
            Some(behind) => self.first.len() + behind.shared.len() + behind.last.len(),
            None => self.first.len(),
        }
    }

    /// Returns the three segments, some of which may be empty.
    #[inline(always)]
    pub fn slices(&self) -> (&[u8], &[u8], &[u8])
        ensures { result.0.now ++ result.1.now ++ result.2.now ≡ self.now }
    {
        match &self.behind {
            Some(behind) => (
                self.first.as_slice(),
                behind.shared.as_slice(),
                behind.last.as_slice(),
            ),
            None => (self.first.as_slice(), &[], &[]),
        }
    }

    /// Returns the three segments by value, some of which may be empty.
    pub fn into_parts(self) -> (Vec<u8>, Bytes, Vec<u8>)
        ensures { result.0.items ++ result.1 ++ result.2.items ≡ self }
    {
        let Segments { first, behind } = self;
        let alloc = *first.allocator();
        match behind {
            Some(behind) => {
                let Behind { shared, last } = Box::into_inner(behind);
                (first, shared, last)
            }
            None => (first, Bytes::new(), Vec::new(alloc)),
        }
    }

    /// Removes all bytes, and keeps the memory of the first segment.
    pub fn clear(&mut self)
        ensures { self.new ≡ [] }
    {
        self.first.clear();
        self.behind = None;
    }

    /// Copies bytes to the end. After [`AllocError`] nothing has changed.
    #[inline(always)]
    pub fn extend_from_slice(&mut self, bytes: &[u8]) -> Result<(), AllocError>
        ensures ok { OnOk result (self.new ≡ self.old ++ bytes.now) }
        ensures err { OnErr result (self.new ≡ self.old) }
    {
        match &mut self.behind {
            Some(behind) => {
                let held = self.first.len() + behind.shared.len() + behind.last.len();
                if held.checked_add(bytes.len()).is_none() {
                    return Err(AllocError);
                }
                behind.last.extend_from_slice(bytes)
            }
            None => self.first.extend_from_slice(bytes),
        }
    }

    /// Appends bytes without copying them, if they are at least [`MIN_SHARED_BYTES`] and no bytes are shared yet. Else
    /// it copies them. After [`NoMemory`] nothing has changed.
    pub fn push_shared(&mut self, alloc: Global, bytes: &Bytes) -> Result<(), NoMemory>
        ensures ok { OnOk result (self.new ≡ self.old ++ bytes.now) }
        ensures err { OnErr result (self.new ≡ self.old) }
    {
        match &self.behind {
            None if MIN_SHARED_BYTES <= bytes.len() => {
                self.behind = Some(behind_of(alloc, bytes)?);
            }
            _ => self.extend_from_slice(bytes.as_slice())?,
        }
        Ok(())
    }

    /// Appends the bytes of another value: without copying them if there are none yet. After [`NoMemory`] nothing has
    /// changed.
    pub fn append(&mut self, text: Segments) -> Result<(), NoMemory>
        ensures ok { OnOk result (self.new ≡ self.old ++ text) }
        ensures err { OnErr result (self.new ≡ self.old) }
    {
        if self.is_empty() {
            *self = text;
            return Ok(());
        }
        if self.len().checked_add(text.len()).is_none() {
            return Err(NoMemory);
        }
        match &mut self.behind {
            Some(behind) => text.push_to(&mut behind.last)?,
            None => text.push_to(&mut self.first)?,
        }
        Ok(())
    }

    /// Returns these bytes behind a head. Shared bytes are shared again, and the others are copied behind the head.
    pub fn with_head(&self, alloc: Global, head: Vec<u8>) -> Result<Segments, NoMemory>
        ensures { IfOk result (λ text. text ≡ head.items ++ self.now) }
    {
        let mut first = head;
        let Some(_) = first.len().checked_add(self.len()) else {
            return Err(NoMemory);
        };
        first.extend_from_slice(&self.first)?;
        let behind = match &self.behind {
            Some(behind) => Some(behind.again(alloc)?),
            None => None,
        };
        Ok(Segments { first, behind })
    }

    /// Appends the bytes to a vector. After [`AllocError`] the bytes and the capacity of the vector are unchanged.
    pub fn push_to(&self, output: &mut Vec<u8>) -> Result<(), AllocError>
        ensures ok { OnOk result (output.new.items ≡ output.old.items ++ self.now) }
        ensures err { OnErr result (output.new.items ≡ output.old.items) }
        ensures room { OnErr result (vec_capacity output.new ≡ vec_capacity output.old) }
    {
        let (first, shared, last) = self.slices();
        output.reserve(self.len())?;
        output.extend_from_slice(first).unwrap();
        output.extend_from_slice(shared).unwrap();
        output.extend_from_slice(last).unwrap();
        Ok(())
    }

    /// Copies all bytes into a vector.
    pub fn copied(&self, alloc: Global) -> Result<Vec<u8>, NoMemory>
        ensures { IfOk result (λ bytes. bytes.items ≡ self.now) }
    {
        let mut bytes = Vec::new(alloc);
        self.push_to(&mut bytes)?;
        Ok(bytes)
    }

    /// Takes all bytes out. An only segment is not copied. After [`NoMemory`] nothing has changed.
    pub fn take(&mut self, alloc: Global) -> Result<Vec<u8>, NoMemory>
        ensures taken { IfOk result (λ bytes. bytes.items ≡ self.old) }
        ensures emptied { OnOk result (self.new ≡ []) }
        ensures err { OnErr result (self.new ≡ self.old) }
    {
        match &self.behind {
            Some(_) => {
                let bytes = self.copied(alloc)?;
                self.clear();
                Ok(bytes)
            }
            None => Ok(mem::replace(&mut self.first, Vec::new(alloc))),
        }
    }

    /// Returns the memory of the first segment, emptied.
    pub fn into_room(self) -> Vec<u8>
        ensures { result.items ≡ [] }
    {
        let Segments { first, behind } = self;
        drop(behind);
        let mut room = first;
        room.clear();
        room
    }

    /// Gives an empty first segment without memory room for this many bytes. The bytes stay.
    pub fn reserve_first(&mut self, count: usize) -> Result<(), AllocError>
        ensures { self.new ≡ self.old }
    {
        if self.first.capacity() == 0 {
            self.first.reserve(count)?;
        }
        Ok(())
    }
}

impl Behind {
    // Returns the same segments, with a further owner of the shared bytes.
    fn again(&self, alloc: Global) -> Result<Box<Behind>, NoMemory>
        ensures { IfOk result (λ copy. (copy.value.shared ≡ self.now.shared) × (copy.value.last.items ≡ self.now.last.items)) }
    {
        let mut copy = behind_of(alloc, &self.shared)?;
        copy.last.extend_from_slice(&self.last)?;
        Ok(copy)
    }
}

// Returns the segments that begin with shared bytes.
fn behind_of(alloc: Global, bytes: &Bytes) -> Result<Box<Behind>, NoMemory>
    ensures { IfOk result (λ behind. (behind.value.shared ≡ bytes.now) × (behind.value.last.items ≡ [])) }
{
    let behind = Behind {
        shared: bytes.clone()?,
        last: Vec::new(alloc),
    };
    Ok(Box::new(alloc, behind)?)
}

// Implemented by hand, so that types with segments in them drop them by a call.
impl Drop for Segments {
    fn drop(self) {
        let Segments { first: _, behind } = self;
        if let Some(behind) = behind {
            drop(behind);
        }
    }
}
