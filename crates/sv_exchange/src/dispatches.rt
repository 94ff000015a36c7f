//! The active dispatches.

ghost use Rattle.std.specs.Prelude.{◌≡◌, ◌≤◌, [], ◌∷◌, ◌++◌, OnErr, OnOk, take, vec_capacity, vec_len, ◌<◌};

use crate::dispatch::{Dispatch, PathTexts, Paths};
use crate::error::ToldError;
use std::alloc::Global;
use std::marker::Model;
use sv_mapping::Kind;
use sv_message::Rare;
use sv_text::NoMemory;

/// The active dispatches, the innermost last. A dispatch that ends keeps its slot, and the next one in that slot reuses
/// its memory. Contracts see the list of active dispatches.
#[derive(Drop)]
pub(crate) struct Dispatches {
    list: Vec<Dispatch>,
    /// The number of active dispatches, which come first in the list.
    depth: usize,
}

impl Model for Dispatches {
    ghost use Rattle.std.specs.Prelude.{List, ◌≤◌, take, vec_len};
    ghost use Rattle.sv_exchange.specs.declared.dispatch.Dispatch.{Dispatch};

    ghost Value = { List Dispatch };

    ghost view = { λ dispatches. take dispatches.depth dispatches.list.items };

    ghost invariant = { λ dispatches. dispatches.depth ≤ vec_len dispatches.list };
}

impl Dispatches {
    ghost use Rattle.std.specs.Prelude.{◌<◌, length};
    ghost use Rattle.sv_exchange.specs.Dispatches.{LeavesOne};

    /// Returns no dispatches. Takes no memory.
    pub(crate) fn new(alloc: Global) -> Dispatches
        ensures { result ≡ [] }
    {
        Dispatches {
            list: Vec::new(alloc),
            depth: 0,
        }
    }

    /// Returns the active dispatches.
    #[inline(always)]
    pub(crate) fn as_slice(&self) -> &[Dispatch]
        ensures { result.now ≡ self.now }
    {
        self.list.as_slice().split_at(self.depth).0
    }

    /// Ends all dispatches.
    pub(crate) fn clear(&mut self)
        ensures { self.new ≡ [] }
    {
        self.depth = 0;
    }

    /// Begins a dispatch to these paths. After [`NoMemory`] nothing has changed.
    #[inline(always)]
    pub(crate) fn push(
        &mut self,
        alloc: Global,
        kind: Kind,
        paths: &PathTexts<'_, '_>,
        error: Rare<ToldError>,
    ) -> Result<(), NoMemory>
        ensures pushed { OnOk result (self.new ≡ self.old ++ (record { kind = kind; paths = paths.now; error = error }) ∷ []) }
        ensures refused { OnErr result (self.new ≡ self.old) }
    {
        add_slot(alloc, &mut self.list, self.depth)?;
        self.list[self.depth].set(alloc, kind, paths, error)?;
        self.depth += 1;
        Ok(())
    }

    /// Ends the last dispatch, without taking memory.
    pub(crate) fn pop(&mut self)
        requires { 0 < length self.old }
        ensures { LeavesOne self.old self.new }
    {
        self.depth -= 1;
    }
}

// Adds a slot at index `depth`, unless there is one.
#[inline(always)]
fn add_slot(alloc: Global, list: &mut Vec<Dispatch>, depth: usize) -> Result<(), NoMemory>
    requires { depth ≤ vec_len list.old }
    ensures kept { take depth list.new.items ≡ take depth list.old.items }
    ensures still { depth ≤ vec_len list.new }
    ensures there { OnOk result (depth < vec_len list.new) }
{
    if depth == list.len() {
        make_room(list)?;
        list.push_reserved(Dispatch {
            kind: Kind::Request,
            paths: Paths::empty(alloc),
            error: Rare::none(),
        });
    }
    Ok(())
}

// Makes room for one more dispatch. The first one gets exactly its own room, since most requests have no other and a
// dispatch is large.
fn make_room(dispatches: &mut Vec<Dispatch>) -> Result<(), NoMemory>
    ensures stays { dispatches.new.items ≡ dispatches.old.items }
    ensures room { OnOk result (vec_len dispatches.new < vec_capacity dispatches.new) }
{
    if dispatches.capacity() == 0 {
        dispatches.reserve_exact(1)?;
    } else {
        dispatches.reserve(1)?;
    }
    Ok(())
}
