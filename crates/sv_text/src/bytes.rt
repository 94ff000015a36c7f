//! A byte string with the list of its bytes as its model.

ghost use Rattle.std.specs.Prelude.{◌≡◌, ℕ, List};
ghost use Rattle.sv_text.specs.Gives.{GivesAnswer};

use crate::no_memory::NoMemory;
use std::alloc::Global;
use std::marker::Model;

/// A byte string. Contracts see the list of its bytes, so a struct with a `Bytes` field is plain data to them.
#[derive(Debug, Drop)]
pub struct Bytes {
    inner: Vec<u8>,
}

impl Model for Bytes {
    ghost Value = { List ℕ };

    ghost view = { λ b. b.inner.items };
}

impl Bytes {
    /// Wraps a vector, without allocating memory.
    pub fn from_vec(inner: Vec<u8>) -> Bytes
        ensures { result ≡ inner.items }
    {
        Bytes { inner }
    }

    /// Copies bytes.
    pub fn copy_of(alloc: Global, bytes: &[u8]) -> Result<Bytes, NoMemory>
        ensures { GivesAnswer result bytes.now }
    {
        let mut inner = Vec::with_capacity(alloc, bytes.len())?;
        inner.extend_from_slice(bytes)?;
        Ok(Bytes { inner })
    }

    /// Returns the bytes.
    pub fn as_slice(&self) -> &[u8]
        ensures { result.now ≡ self.now }
    {
        self.inner.as_slice()
    }

    /// Returns the vector, without allocating memory.
    pub fn into_vec(self) -> Vec<u8>
        ensures { result.items ≡ self }
    {
        let Bytes { inner } = self;
        inner
    }
}
