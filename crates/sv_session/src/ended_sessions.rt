//! The sessions of a context that ended together.

ghost use Rattle.std.specs.Option.{option_map};
ghost use Rattle.std.specs.Prelude.{List, drop, length, map, slice_get, ◌≡◌};
ghost use Rattle.std.specs.Vec.Iter.{into_iter_items, into_iter_len};
ghost use Rattle.sv_session.specs.Calls.{ended};
ghost use Rattle.sv_session.specs.Slots.{living};
ghost use Rattle.sv_session.specs.declared.ended_sessions.EndedSession.{EndedSession};

use crate::slot::{Attribute, Slot};
use std::alloc::Global;
use std::marker::Model;
use std::vec::IntoIter;
use sv_text::Listed;

/// Sessions that ended together, returned one after another to notify their listeners.
#[derive(Drop)]
pub struct EndedSessions {
    alloc: Global,
    slots: IntoIter<Slot, Global>,
}

impl Model for EndedSessions {
    ghost Value = { List EndedSession };

    ghost view = { λ s. map ended (living (into_iter_items s.slots)) };

    ghost invariant = { λ s. into_iter_len s.slots ≡ length (into_iter_items s.slots) };
}

impl EndedSessions {
    /// Ends the live sessions of the slots.
    pub(crate) fn of(alloc: Global, slots: Vec<Slot>) -> EndedSessions
        ensures { result ≡ map ended (living slots.items) }
    {
        EndedSessions {
            alloc,
            slots: slots.into_iter(),
        }
    }

    /// Returns the next session that ended, if any.
    pub fn next(&mut self) -> Option<EndedSession>
        ensures next { result ≡ slice_get self.old 0 }
        ensures left { self.new ≡ drop 1 self.old }
    {
        let mut slot = next_living(&mut self.slots)?;
        Some(slot.kept.end(self.alloc))
    }
}

// Returns the next slot with a live session.
fn next_living(slots: &mut IntoIter<Slot, Global>) -> Option<Slot>
    requires { into_iter_len slots.old ≡ length (into_iter_items slots.old) }
    ensures whole { into_iter_len slots.new ≡ length (into_iter_items slots.new) }
    ensures next { option_map (λ slot. slot.kept) result ≡ slice_get (living (into_iter_items slots.old)) 0 }
    ensures left { living (into_iter_items slots.new) ≡ drop 1 (living (into_iter_items slots.old)) }
{
    while let Some(slot) = slots.next() {
        if slot.live {
            return Some(slot);
        }
    }
    None
}

/// A session that has ended, as its listeners see it.
#[derive(Drop)]
pub struct EndedSession {
    /// The session's number.
    pub number: u64,
    /// Its attributes, in the order in which they were first set.
    pub attributes: Listed<Attribute>,
}

/// The result of an expiry: the session that it ended, if any, and the number of records judged.
#[derive(Drop)]
pub struct Counted {
    /// The session that ended.
    pub ended: Option<EndedSession>,
    /// The number of records judged so far. It stays at the maximum once it has reached it.
    pub judged: u64,
}
