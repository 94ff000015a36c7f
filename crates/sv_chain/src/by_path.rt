//! The cached chains of one kind of dispatch.

ghost use Rattle.std.specs.Prelude.{◌≡◌, ◌≤◌, ◌+◌, ◌<◌, ◌^◌, ℕ, List, None, Some, OnErr, OnOk, if◌then◌else◌};
ghost use Rattle.std.specs.BTreeMap.{btree_map_len};
ghost use Rattle.std.specs.Option.{option_copied};
ghost use Rattle.std.specs.Str.{bytes_eq};
ghost use Rattle.sv_chain.specs.Kept.{found_in};

use crate::shared_chain::Chain;
use std::alloc::Global;
use std::collections::BTreeMap;
use sv_text::{NoMemory, Text};

/// The cached chains of one kind of dispatch, one for each path: in a context a path has one servlet.
#[derive(Drop)]
pub(crate) struct ByPath {
    pub(crate) chains: BTreeMap<String, KeptChain>,
}

/// A cached chain, and the servlet that it is for.
#[derive(Drop)]
pub(crate) struct KeptChain {
    pub(crate) servlet: Text,
    pub(crate) chain: Chain,
}

impl ByPath {
    /// Creates an empty cache.
    pub(crate) fn new(alloc: Global) -> ByPath
        ensures none { (path servlet : List ℕ) → found_in result path servlet ≡ None }
        ensures count { btree_map_len result.chains ≡ 0 }
    {
        ByPath {
            chains: BTreeMap::new(alloc),
        }
    }

    /// Returns the number of cached chains.
    pub(crate) fn count(&self) -> usize
        ensures { result ≡ btree_map_len self.now.chains }
    {
        self.chains.len()
    }

    /// Returns the cached chain for the path and the servlet, if any.
    pub(crate) fn find(&self, path: &str, servlet: &str) -> Option<&Chain>
        ensures { option_copied result ≡ found_in self.now path.now servlet.now }
    {
        match self.chains.get(path) {
            Some(kept) => {
                if kept.servlet.as_str() == servlet {
                    Some(&kept.chain)
                } else {
                    None
                }
            }
            None => None,
        }
    }

    /// Drops all chains.
    pub(crate) fn clear(&mut self)
        ensures none { (path servlet : List ℕ) → found_in self.new path servlet ≡ None }
        ensures count { btree_map_len self.new.chains ≡ 0 }
    {
        self.chains.clear();
    }

    /// Caches the chain of a path and a servlet. It replaces the chain that was cached for the path, if any.
    ///
    /// # Errors
    /// `NoMemory` if an allocation fails; the cache is then unchanged.
    pub(crate) fn keep(
        &mut self,
        alloc: Global,
        path: &str,
        servlet: &str,
        chain: Chain,
    ) -> Result<(), NoMemory>
        ensures kept { OnOk result ((other name : List ℕ) → found_in self.new other name
            ≡ (if bytes_eq path.now other then (if bytes_eq servlet.now name then Some chain else None) else found_in self.old other name)) }
        ensures unchanged { OnErr result ((other name : List ℕ) → found_in self.new other name ≡ found_in self.old other name) }
        ensures count { btree_map_len self.new.chains ≤ btree_map_len self.old.chains + 1 }
    {
        let key = String::from_str(alloc, path)?;
        let servlet = Text::copy_of(alloc, servlet)?;
        self.chains.insert(key, KeptChain { servlet, chain })?;
        Ok(())
    }
}
