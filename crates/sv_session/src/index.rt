//! An index of ids, for lookups.

ghost use Rattle.std.specs.Prelude.{◌≡◌, ℕ, List, None, OnErr, OnOk, Some, if◌then◌else◌};
ghost use Rattle.std.specs.Str.{bytes_eq};
ghost use Rattle.sv_session.specs.Ids.{number_at};

use std::alloc::Global;
use std::collections::HashMap;
use sv_text::NoMemory;

/// Maps ids to session numbers. Lookup time does not depend on the number of ids, since no client chooses an id that is
/// kept.
#[derive(Drop)]
pub(crate) struct Index {
    numbers: HashMap<Vec<u8>, u64>,
}

impl Index {
    /// Creates an empty index. Takes no memory.
    pub(crate) fn new(alloc: Global) -> Index
        ensures { (id : List ℕ) → number_at result id ≡ None }
    {
        Index {
            numbers: HashMap::new(alloc),
        }
    }

    /// Returns the number of the session with this id.
    pub(crate) fn get(&self, id: &[u8]) -> Option<u64>
        ensures { result ≡ number_at self.now id.now }
    {
        self.numbers.get(id).copied()
    }

    /// Enters the number of an id. If memory runs out, no entry changes.
    pub(crate) fn enter(&mut self, alloc: Global, id: &str, number: u64) -> Result<(), NoMemory>
        ensures entered { OnOk result ((other : List ℕ) → number_at self.new other ≡ (if bytes_eq id.now other then Some number else number_at self.old other)) }
        ensures refused { OnErr result ((other : List ℕ) → number_at self.new other ≡ number_at self.old other) }
    {
        let key = Vec::from_slice(alloc, id.as_bytes())?;
        let Ok(_) = self.numbers.insert(key, number) else {
            return Err(NoMemory);
        };
        Ok(())
    }

    /// Removes an id.
    pub(crate) fn remove(&mut self, id: &str)
        ensures { (other : List ℕ) → number_at self.new other ≡ (if bytes_eq id.now other then None else number_at self.old other) }
    {
        self.numbers.remove(id.as_bytes());
    }
}
