//! The chains of a descriptor, computed on demand and cached.

ghost use Rattle.std.specs.Prelude.{◌≡◌, ◌&&◌, ◌+◌, ◌<◌, ◌≤◌, ℕ, List, IfOk, IfSome, IsSome, IsTrue, false, length, ◌↔◌};
ghost use Rattle.std.specs.List.{All};
ghost use Rattle.std.specs.Str.{bytes_eq};
ghost use Rattle.sv_chain.specs.FilterChain.{filter_chain, is_same_kind};
ghost use Rattle.sv_chain.specs.Kept.{IsKeptOf, IsKeptOrThis, count, found};
ghost use Rattle.sv_chain.specs.declared.chain_cache.TheConstants.{MAX_CACHED_KEY_BYTES, MAX_CACHED_CHAINS};
ghost use Rattle.sv_mapping.specs.declared.kind.Kind.{Kind};
ghost use Rattle.sv_text.specs.Gives.{GivesAnswer};

use crate::chain::chain_plain;
use crate::chain_cache::{KeptChains, MAX_CACHED_CHAINS, MAX_CACHED_KEY_BYTES};
use crate::compiled_chains::Compiled;
use crate::shared_chain::Chain;
use std::alloc::Global;
use std::marker::Model;
use sv_descriptor::{Descriptor, Kind};
use sv_text::NoMemory;

/// The chains of a descriptor, each computed on first use and then cached. At most [`MAX_CACHED_CHAINS`] are cached, and
/// only if the path and the servlet's name have at most [`MAX_CACHED_KEY_BYTES`] together. Results do not depend on the
/// cache. Contracts see the descriptor.
#[derive(Drop)]
pub struct Chains {
    compiled: Compiled,
    kept: KeptChains,
}

impl Model for Chains {
    ghost use Rattle.sv_chain.specs.Kept.{IsKeptOf};
    ghost use Rattle.sv_descriptor.specs.declared.web_app.WebApp.{WebApp};

    ghost Value = { WebApp };

    ghost view = { λ chains. chains.compiled.app };

    ghost invariant = { λ chains. IsKeptOf chains.compiled.app chains.kept };
}

impl Chains {
    /// Creates the chains of a descriptor, with an empty cache and without allocating.
    pub fn compile(alloc: Global, descriptor: &Descriptor) -> Chains
        ensures { result ≡ descriptor.now }
    {
        Chains {
            compiled: Compiled::of(descriptor),
            kept: KeptChains::new(alloc),
        }
    }

    /// Returns the filters that a dispatch passes, as indices (Jakarta Servlet 6.0, section 6.2.4): the result of
    /// [`chain_plain`] for the descriptor, which must be the one that was compiled. A cached chain is shared and not
    /// computed again.
    ///
    /// # Errors
    /// `NoMemory` if an allocation that the chain needs fails. A failure to cache the chain is ignored.
    #[tactic(auto, using(crate::proofs::Growing::chain_in))]
    pub fn of(
        &mut self,
        alloc: Global,
        descriptor: &Descriptor,
        path: &str,
        servlet: &str,
        kind: Kind,
    ) -> Result<Chain, NoMemory>
        requires { descriptor.now ≡ self.old }
        ensures chain { GivesAnswer result (filter_chain descriptor.now path.now servlet.now kind) }
        ensures places { IfOk result (λ chain. All (λ place. place < length descriptor.now.filters) chain) }
        ensures stays { self.new ≡ self.old }
    {
        found_or_kept(&mut self.kept, alloc, descriptor, path, servlet, kind)
    }

    /// Returns the number of cached chains.
    pub fn count(&self) -> usize
        ensures { result ≤ MAX_CACHED_CHAINS }
    {
        self.kept.count()
    }
}

/// Returns the cached chain, or computes it from the descriptor and caches it if its path and servlet are short enough.
fn found_or_kept(
    kept: &mut KeptChains,
    alloc: Global,
    descriptor: &Descriptor,
    path: &str,
    servlet: &str,
    kind: Kind,
) -> Result<Chain, NoMemory>
    requires { IsKeptOf descriptor.now kept.old }
    ensures chain { GivesAnswer result (filter_chain descriptor.now path.now servlet.now kind) }
    ensures right { IsKeptOf descriptor.now kept.new }
    ensures hit { IsSome (found kept.old path.now servlet.now kind) → kept.new ≡ kept.old }
{
    if let Some(chain) = kept.find(path, servlet, kind) {
        return chain.share();
    }
    let places = chain_plain(alloc, descriptor, path, servlet, kind)?;
    let chain = Chain::of(alloc, places)?;
    if is_short(path, servlet) {
        if let Ok(shared) = chain.share() {
            keep_within_limit(kept, alloc, path, servlet, kind, shared);
        }
    }
    Ok(chain)
}

/// Returns whether this path and this servlet are short enough for their chain to be cached.
fn is_short(path: &str, servlet: &str) -> bool
    ensures { IsTrue result ↔ (length path.now + length servlet.now ≤ MAX_CACHED_KEY_BYTES) }
{
    path.len() <= MAX_CACHED_KEY_BYTES && servlet.len() <= MAX_CACHED_KEY_BYTES - path.len()
}

/// Caches a chain, unless memory runs out. If the cache is full, all its chains are dropped first.
fn keep_within_limit(
    kept: &mut KeptChains,
    alloc: Global,
    path: &str,
    servlet: &str,
    kind: Kind,
    chain: Chain,
)
    requires { count kept.old ≤ MAX_CACHED_CHAINS }
    ensures few { count kept.new ≤ MAX_CACHED_CHAINS }
    ensures right { (other name : List ℕ) (sort : Kind) → IfSome (found kept.new other name sort)
        (IsKeptOrThis kept.old path.now servlet.now kind chain other name sort) }
    ensures room { count kept.old < MAX_CACHED_CHAINS → (other name : List ℕ) (sort : Kind) → (is_same_kind kind sort && bytes_eq path.now other) ≡ false
        → found kept.new other name sort ≡ found kept.old other name sort }
{
    if kept.count() == MAX_CACHED_CHAINS {
        kept.clear();
    }
    match kept.keep(alloc, path, servlet, kind, chain) {
        Ok(()) => {}
        Err(NoMemory) => {}
    }
}
