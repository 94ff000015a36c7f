//! The ids of the live sessions, for lookups.

ghost use Rattle.std.specs.Prelude.{◌≡◌, ℕ, List, IfOk, None, OnErr, OnOk, Some, if◌then◌else◌};
ghost use Rattle.std.specs.Str.{bytes_eq};
ghost use Rattle.sv_session.specs.Ids.{number_at, number_in};

use crate::index::Index;
use std::alloc::Global;
use sv_text::NoMemory;

/// Maps ids to session numbers. The index is allocated in a box with the first id: the sessions are lent by value, so
/// they must stay small.
pub(crate) struct Ids {
    index: Option<Box<Index>>,
}

impl Ids {
    /// Creates an empty map. Takes no memory.
    pub(crate) fn new() -> Ids
        ensures { (id : List ℕ) → number_in result id ≡ None }
    {
        Ids { index: None }
    }

    /// Returns the number of the session with this id.
    pub(crate) fn get(&self, id: &[u8]) -> Option<u64>
        ensures { result ≡ number_in self.now id.now }
    {
        match &self.index {
            Some(index) => index.get(id),
            None => None,
        }
    }

    /// Enters the number of an id. If memory runs out, no entry changes.
    pub(crate) fn enter(&mut self, alloc: Global, id: &str, number: u64) -> Result<(), NoMemory>
        ensures entered { OnOk result ((other : List ℕ) → number_in self.new other ≡ (if bytes_eq id.now other then Some number else number_in self.old other)) }
        ensures refused { OnErr result ((other : List ℕ) → number_in self.new other ≡ number_in self.old other) }
    {
        if let Some(index) = &mut self.index {
            return index.enter(alloc, id, number);
        }
        self.index = Some(first(alloc, id, number)?);
        Ok(())
    }

    /// Removes an id.
    pub(crate) fn remove(&mut self, id: &str)
        ensures { (other : List ℕ) → number_in self.new other ≡ (if bytes_eq id.now other then None else number_in self.old other) }
    {
        if let Some(index) = &mut self.index {
            index.remove(id);
        }
    }
}

impl Drop for Ids {
    fn drop(self) {
        let Ids { index } = self;
        drop(index);
    }
}

// Creates an index of one id.
fn first(alloc: Global, id: &str, number: u64) -> Result<Box<Index>, NoMemory>
    ensures { IfOk result (λ index. (other : List ℕ) → number_at index.value other ≡ (if bytes_eq id.now other then Some number else None)) }
{
    let mut index = Index::new(alloc);
    index.enter(alloc, id, number)?;
    Ok(Box::new(alloc, index)?)
}
