//! The cached chains of all kinds of dispatches.

ghost use Rattle.std.specs.Option.{option_copied};
ghost use Rattle.std.specs.Prelude.{List, None, OnErr, OnOk, ℕ, ◌+◌, ◌≡◌, ◌≤◌};
ghost use Rattle.sv_chain.specs.Kept.{count, found, found_after};
ghost use Rattle.sv_chain.specs.declared.chain_cache.TheConstants.{MAX_CACHED_CHAINS};
ghost use Rattle.sv_mapping.specs.declared.kind.Kind.{Kind};

use crate::by_path::ByPath;
use crate::shared_chain::Chain;
use std::alloc::Global;
use sv_descriptor::Kind;
use sv_text::NoMemory;

/// The cached chains, by kind, path and servlet.
#[derive(Drop)]
pub(crate) struct KeptChains {
    pub(crate) request: ByPath,
    pub(crate) forward: ByPath,
    pub(crate) include: ByPath,
    pub(crate) error: ByPath,
}

impl KeptChains {
    /// Creates an empty cache.
    pub(crate) fn new(alloc: Global) -> KeptChains
        ensures none { (path servlet : List ℕ) (kind : Kind) → found result path servlet kind ≡ None }
        ensures count { count result ≡ 0 }
    {
        KeptChains {
            request: ByPath::new(alloc),
            forward: ByPath::new(alloc),
            include: ByPath::new(alloc),
            error: ByPath::new(alloc),
        }
    }

    /// Returns the number of cached chains.
    pub(crate) fn count(&self) -> usize
        requires { count self.now ≤ MAX_CACHED_CHAINS }
        ensures { result ≡ count self.now }
    {
        self.request.count() + self.forward.count() + self.include.count() + self.error.count()
    }

    /// Returns the cached chain for the path, the servlet and the kind, if any.
    pub(crate) fn find(&self, path: &str, servlet: &str, kind: Kind) -> Option<&Chain>
        ensures { option_copied result ≡ found self.now path.now servlet.now kind }
    {
        match kind {
            Kind::Request => self.request.find(path, servlet),
            Kind::Forward => self.forward.find(path, servlet),
            Kind::Include => self.include.find(path, servlet),
            Kind::Error => self.error.find(path, servlet),
        }
    }

    /// Drops all chains.
    pub(crate) fn clear(&mut self)
        ensures none { (path servlet : List ℕ) (kind : Kind) → found self.new path servlet kind ≡ None }
        ensures count { count self.new ≡ 0 }
    {
        self.request.clear();
        self.forward.clear();
        self.include.clear();
        self.error.clear();
    }

    /// Caches the chain of a path, a servlet and a kind. It replaces the chain that was cached for the path and the
    /// kind, if any.
    ///
    /// # Errors
    /// `NoMemory` if an allocation fails; the cache is then unchanged.
    pub(crate) fn keep(
        &mut self,
        alloc: Global,
        path: &str,
        servlet: &str,
        kind: Kind,
        chain: Chain,
    ) -> Result<(), NoMemory>
        ensures kept { OnOk result ((other name : List ℕ) (sort : Kind) → found self.new other name sort
            ≡ found_after self.old path.now servlet.now kind chain other name sort) }
        ensures unchanged { OnErr result ((other name : List ℕ) (sort : Kind) → found self.new other name sort ≡ found self.old other name sort) }
        ensures count { count self.new ≤ count self.old + 1 }
    {
        match kind {
            Kind::Request => self.request.keep(alloc, path, servlet, chain),
            Kind::Forward => self.forward.keep(alloc, path, servlet, chain),
            Kind::Include => self.include.keep(alloc, path, servlet, chain),
            Kind::Error => self.error.keep(alloc, path, servlet, chain),
        }
    }
}

/// Maximum number of cached chains. When the cache is full, all are dropped before the next one is added.
pub const MAX_CACHED_CHAINS: usize = 1_024;

/// Maximum number of bytes of a path and the name of its servlet, together, for their chain to be cached.
pub const MAX_CACHED_KEY_BYTES: usize = 1_024;
