//! The C handle of an engine.

ghost use Rattle.std.specs.Prelude.{◌≡◌, Option, None, Some};
ghost use Rattle.std.specs.Option.{MatchOption};
ghost use Rattle.sv_policy_c.specs.Holding.{holding};
ghost use Rattle.sv_policy_c.specs.declared.engine.Engine.{Engine};

use crate::engine::Engine;
use crate::loose::Loose;
use std::alloc::Global;
use std::marker::Model;
use std::mem;
use std::ptr::null_mut;

/// The C handle of an engine: a pointer, which is null if it holds none. Contracts see the engine.
///
/// Dropping the handle does not free the engine. Only the box that [`PolicyHandle::take`] returns frees it.
#[derive(Drop)]
#[repr(C)]
pub struct PolicyHandle {
    at: *mut u8,
    pub ghost value: { Option Engine },
}

impl Model for PolicyHandle {
    ghost also_owns = { λ h. holding h.value h.at };
}

impl PolicyHandle {
    /// Creates a handle that holds nothing.
    fn none() -> PolicyHandle
        ensures { result.value ≡ None }
    {
        PolicyHandle { at: null_mut() }
    }

    fn of(value: Loose<Engine, Global>) -> PolicyHandle
        ensures { result.value ≡ Some value.value }
    {
        let Loose { at, alloc: _ } = value;
        PolicyHandle { at: at as *mut u8 }
    }

    fn into_loose(self, alloc: Global) -> Option<Loose<Engine, Global>>
        ensures { MatchOption result (self.value ≡ None) (λ loose. self.value ≡ Some loose.value) }
    {
        let PolicyHandle { at } = self;
        if at.is_null() {
            None
        } else {
            Some(Loose {
                at: at as *mut Engine,
                alloc,
            })
        }
    }

    /// Takes the engine out of the handle, which then holds nothing.
    pub(crate) fn take(&mut self, alloc: Global) -> Option<Box<Engine>>
        ensures left { self.new.value ≡ None }
        ensures taken { MatchOption result (self.old.value ≡ None) (λ engine. self.old.value ≡ Some engine.value) }
    {
        let held = mem::replace(self, PolicyHandle::none());
        match held.into_loose(alloc) {
            Some(loose) => Some(loose.into_box()),
            None => None,
        }
    }

    /// Holds the engine. An engine held before is not freed; call [`PolicyHandle::take`] first.
    pub(crate) fn hold(&mut self, engine: Box<Engine>)
        ensures { self.new.value ≡ Some engine.value }
    {
        *self = PolicyHandle::of(Loose::of(engine));
    }
}
