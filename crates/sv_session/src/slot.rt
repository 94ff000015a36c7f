//! The slot of a session.

ghost use Rattle.std.specs.Option.{option_copied, option_map};
ghost use Rattle.std.specs.Prelude.{IfOk, IfSome, MatchOption, None, OnErr, OnOk, [], false, filter, find, length, map, nat_lt, vec_capacity, vec_len, ℕ, ◌++◌, ◌<◌, ◌≤◌, ◌∷◌, ◌≡◌};
ghost use Rattle.sv_session.specs.Calls.{ended};
ghost use Rattle.sv_session.specs.Slots.{IsFirstFrom, IsPlace, SlotsRise, due_of, living};
ghost use Rattle.sv_session.specs.Store.{is_numbered};
ghost use Rattle.sv_session.specs.declared.limits.TheConstants.{GREATEST_SERIAL};

use crate::due::Due;
use crate::ended_sessions::EndedSession;
use crate::expiry_queue::Queue;
use crate::stored_session::StoredSession;
use std::alloc::Global;
use sv_text::{NoMemory, Text};

/// A live session, or one that has ended, whose number keeps its place in the order.
#[derive(Drop)]
pub(crate) struct Slot {
    pub(crate) live: bool,
    pub(crate) kept: StoredSession,
}

impl Slot {
    /// Ends the session of the slot and returns it for its listeners.
    pub(crate) fn end(&mut self, alloc: Global) -> EndedSession
        ensures told { result ≡ ended self.old.kept }
        ensures left { self.new ≡ record { live = false; kept = record self.old.kept { id = []; saved = None; attributes = [] } } }
    {
        self.live = false;
        self.kept.end(alloc)
    }
}

/// Returns the index of the live session of a number.
pub(crate) fn place_of(slots: &[Slot], number: u64) -> Option<usize>
    ensures bound { IfSome result (λ place. place < length slots.now) }
    ensures place { (high : ℕ) → SlotsRise 0 high slots.now
        → MatchOption result (find (is_numbered number) (living slots.now) ≡ None) (λ place. IsPlace number slots.now place) }
{
    let place = first_from(slots, number);
    if place >= slots.len() {
        return None;
    }
    let slot = &slots[place];
    if slot.kept.number() != number {
        return None;
    }
    if slot.live {
        return Some(place);
    }
    None
}

/// Returns the first index whose slot has this number or a greater one, or the length.
fn first_from(slots: &[Slot], number: u64) -> usize
    ensures bound { result ≤ length slots.now }
    ensures first { (high : ℕ) → SlotsRise 0 high slots.now → IsFirstFrom number slots.now result }
{
    let mut low = 0;
    let mut high = slots.len();
    while low < high {
        let middle = low + (high - low) / 2;
        let slot = &slots[middle];
        if slot.kept.number() < number {
            low = middle + 1;
        } else {
            high = middle;
        }
    }
    low
}

/// Returns the first slot of a live session with a greater number.
pub(crate) fn living_after(slots: &[Slot], number: u64) -> Option<&Slot>
    ensures { (high : ℕ) → high ≤ GREATEST_SERIAL → SlotsRise 0 high slots.now
        → option_map (λ slot. slot.kept) (option_copied result) ≡ find (λ session. nat_lt number session.number) (living slots.now) }
{
    let next = number.checked_add(1)?;
    let place = first_from(slots, next);
    first_living(&slots[place..])
}

/// Returns the first slot of a live session.
pub(crate) fn first_living(slots: &[Slot]) -> Option<&Slot>
    ensures { option_copied result ≡ find (λ slot. slot.live) slots.now }
{
    slots.iter().find(|slot| slot.live)
}

/// Appends a slot. The vector must have spare capacity.
pub(crate) fn push(slots: &mut Vec<Slot>, slot: Slot)
    requires { vec_len slots.old < vec_capacity slots.old }
    ensures { slots.new.items ≡ slots.old.items ++ slot ∷ [] }
{
    // The vector has spare capacity.
    let _room = slots.push(slot);
}

/// Removes the slots of ended sessions, and their entries in the queue. `count` is the number of live sessions. If memory
/// runs out, nothing changes.
pub(crate) fn close_gaps(
    alloc: Global,
    count: usize,
    slots: &mut Vec<Slot>,
    queue: &mut Queue,
) -> Result<(), NoMemory>
    requires counted { count ≡ length (living slots.old.items) }
    requires wait { queue.old ≡ map due_of slots.old.items }
    ensures slots { OnOk result (slots.new.items ≡ filter (λ slot. slot.live) slots.old.items) }
    ensures queue { OnOk result (queue.new ≡ map due_of (filter (λ slot. slot.live) slots.old.items)) }
    ensures refused { OnErr result ((slots.new ≡ slots.old) × (queue.new ≡ queue.old)) }
{
    if slots.len() == count {
        return Ok(());
    }
    let closed = gathered(alloc, slots.as_slice())?;
    slots.retain(|slot| slot.live);
    *queue = closed;
    Ok(())
}

/// Builds the queue of the live sessions, at the indices that they have once the empty slots are removed.
fn gathered(alloc: Global, slots: &[Slot]) -> Result<Queue, NoMemory>
    ensures { IfOk result (λ queue. queue ≡ map due_of (filter (λ slot. slot.live) slots.now)) }
{
    let mut queue = Queue::new(alloc);
    for slot in slots {
        if slot.live {
            queue.push(slot.kept.due())?;
        }
    }
    Ok(queue)
}

/// A named value of a session (Jakarta Servlet 6.0, section 7.4).
#[derive(Drop)]
pub struct Attribute {
    /// The name, at most `MAX_ATTRIBUTE_NAME_BYTES` long.
    pub name: Text,
    /// The value, at most `MAX_VALUE_BYTES` long.
    pub value: Text,
}
