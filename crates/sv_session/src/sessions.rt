//! The sessions of a context.

ghost use Rattle.std.specs.Prelude.{◌≡◌, ◌↔◌, ◌+◌, ◌<◌, ◌≤◌, ◌++◌, ◌∷◌, [], ℕ, true, MatchOption, MatchResult, None, OnErr, OnOk, Some, is_some, length, map, slice_get};
ghost use Rattle.std.specs.Option.{option_copied};

use crate::due::Due;
use crate::ended_sessions::{Counted, EndedSession, EndedSessions};
use crate::expiry_queue::Queue;
use crate::id::{ID_BYTES, id_of};
use crate::id_serial::is_given;
use crate::ids::Ids;
use crate::limits::{GREATEST_SERIAL, MAX_ATTRIBUTE_NAME_BYTES, MAX_ATTRIBUTES, MAX_VALUE_BYTES};
use crate::restore_fault::RestoreFault;
use crate::session_fault::SessionFault;
use crate::slot::{Attribute, Slot, close_gaps, first_living, living_after, place_of, push};
use crate::stored_session::StoredSession;
use std::alloc::Global;
use std::marker::Model;
use std::mem;
use sv_text::{NoMemory, Text};

/// The sessions of a context (Jakarta Servlet 6.0, chapter 7). A session is identified by its number, which is the
/// serial that it was opened with. Clients send its id. Each open and each rename takes the next serial, so no id is
/// given twice. Contracts see a `SessionsState`.
#[derive(Drop)]
pub struct Sessions {
    alloc: Global,
    limit: usize,
    interval: u32,
    serial: u64,
    count: usize,
    slots: Vec<Slot>,
    ids: Ids,
    queue: Queue,
    judged: u64,
}

impl Model for Sessions {
    ghost use Rattle.sv_session.specs.Store.{SessionsState};

    ghost Value = { SessionsState };

    ghost use Rattle.sv_session.specs.Slots.{AreKept, living};

    ghost view = { λ s. record {
      store = record { limit = s.limit; interval = s.interval; serial = s.serial; sessions = living s.slots.items };
      judged = s.judged;
    } };

    ghost invariant = { λ s. AreKept s.serial s.count s.slots.items s.ids s.queue };
}

impl Sessions {
    ghost use Rattle.sv_session.specs.Calls as calls;
    ghost use Rattle.sv_session.specs.Id.{id_text};
    ghost use Rattle.sv_session.specs.Calls.{RefusesCall, ended};
    ghost use Rattle.sv_session.specs.Restoring.{CanBeRestored, CanFollow, RefusesRestore, session_after, used_up_to, with_last, with_used};
    ghost use Rattle.sv_session.specs.Store.{IsOrderly, attributes_of, empty_store, is_numbered, number_of, numbered};

    /// Creates a store of at most `limit` live sessions. A session expires `interval` seconds after its last access, or
    /// never if `interval` is 0. Takes no memory.
    pub fn new(alloc: Global, limit: usize, interval: u32) -> Sessions
        ensures { result ≡ record { store = empty_store limit interval; judged = 0 } }
    {
        Sessions::without_sessions(alloc, limit, interval, 0)
    }

    /// Creates a store of no session, in which the serials up to `serial` have been used. Its limit and its interval are
    /// 0 until [`set_limits`](Sessions::set_limits). Returns `None` if `serial` is above [`GREATEST_SERIAL`]. Takes no
    /// memory.
    pub fn used_up_to(alloc: Global, serial: u64) -> Option<Sessions>
        ensures { MatchOption result (GREATEST_SERIAL < serial)
            (λ sessions. (serial ≤ GREATEST_SERIAL) × (sessions ≡ record { store = used_up_to serial; judged = 0 })) }
    {
        if serial > GREATEST_SERIAL {
            return None;
        }
        Some(Sessions::without_sessions(alloc, 0, 0, serial))
    }

    /// Creates a store of no session.
    fn without_sessions(alloc: Global, limit: usize, interval: u32, serial: u64) -> Sessions
        requires { serial ≤ GREATEST_SERIAL }
        ensures { result ≡ record { store = record { limit = limit; interval = interval; serial = serial; sessions = [] }; judged = 0 } }
    {
        Sessions {
            alloc,
            limit,
            interval,
            serial,
            count: 0,
            slots: Vec::new(alloc),
            ids: Ids::new(),
            queue: Queue::new(alloc),
            judged: 0,
        }
    }

    /// Sets the greatest number of live sessions, and the interval in seconds after which a session expires, or 0 for
    /// never. Sessions above the limit stay.
    pub fn set_limits(&mut self, limit: usize, interval: u32)
        ensures { self.new ≡ record self.old { store = record self.old.store { limit = limit; interval = interval } } }
    {
        self.limit = limit;
        self.interval = interval;
    }

    /// Opens a session at the time `now`, in seconds, with two random words for its id. Returns its number.
    ///
    /// # Errors
    /// [`SessionFault::TooMany`], [`SessionFault::SerialSpent`], [`SessionFault::NoMemory`], in that order; nothing has
    /// changed.
    pub fn open(&mut self, words: (u64, u64), now: u64) -> Result<u64, SessionFault>
        ensures { MatchResult result
            (λ number. (calls.opening_faults self.old.store ≡ []) × (number ≡ self.old.store.serial + 1)
            × (self.new ≡ record self.old { store = calls.opened words now self.old.store }))
            (λ fault. RefusesCall (calls.opening_faults self.old.store) fault self.old self.new) }
    {
        if let Some(fault) = self.opening_fault() {
            return Err(fault);
        }
        let Ok(()) = self.gather() else {
            return Err(SessionFault::NoMemory);
        };
        let serial = self.serial + 1;
        let Ok(kept) = StoredSession::open(self.alloc, words, serial, now) else {
            return Err(SessionFault::NoMemory);
        };
        let Ok(()) = self.add(kept) else {
            return Err(SessionFault::NoMemory);
        };
        Ok(serial)
    }

    /// Returns the number of the live session with this id. The bytes come from a client and need not be text.
    pub fn find(&self, id: &[u8]) -> Option<u64>
        ensures { result ≡ number_of id.now self.now.store }
    {
        let ids = &self.ids;
        // Bytes of another length are no id. They are not hashed, since a client may send many.
        if id.len() != ID_BYTES {
            return None;
        }
        ids.get(id)
    }

    /// Returns the id of a session.
    pub fn id(&self, number: u64) -> Option<&str>
        ensures { option_copied result ≡ calls.id_of number self.now.store }
    {
        let session = self.session(number)?;
        Some(session.id())
    }

    /// Returns the id of the session that [`open`](Sessions::open) would open with these random words.
    ///
    /// # Errors
    /// Those of [`open`](Sessions::open), in the same order.
    pub fn next_id(&self, words: (u64, u64)) -> Result<Text, SessionFault>
        ensures { MatchResult result
            (λ id. (calls.opening_faults self.now.store ≡ []) × (id ≡ id_text words (self.now.store.serial + 1)))
            (λ fault. RefusesCall (calls.opening_faults self.now.store) fault self.now self.now) }
    {
        if let Some(fault) = self.opening_fault() {
            return Err(fault);
        }
        let Ok(id) = id_of(self.alloc, words, self.serial + 1) else {
            return Err(SessionFault::NoMemory);
        };
        Ok(id)
    }

    /// Returns the lowest number of a live session.
    pub fn least(&self) -> Option<u64>
        ensures { result ≡ calls.least_number self.now.store }
    {
        let slot = first_living(self.slots.as_slice())?;
        Some(slot.kept.number())
    }

    /// Returns the live session with the lowest number above `number`. Takes a time that is logarithmic in the number of
    /// sessions, if few of them have ended.
    pub fn after(&self, number: u64) -> Option<&StoredSession>
        ensures { option_copied result ≡ session_after number self.now.store }
    {
        let slot = living_after(self.slots.as_slice(), number)?;
        Some(&slot.kept)
    }

    /// Returns the last serial that was used. The sessions can be restored in a store that has used it.
    pub fn serial(&self) -> u64
        ensures value { result ≡ self.now.store.serial }
        ensures order { IsOrderly self.now.store }
        ensures restorable { CanBeRestored self.now.store }
    {
        self.serial
    }

    /// Counts all serials up to `serial` as used, but none above [`GREATEST_SERIAL`].
    pub fn use_serials(&mut self, serial: u64)
        ensures { self.new ≡ record self.old { store = with_used serial self.old.store } }
    {
        self.serial = self.serial.max(serial).min(GREATEST_SERIAL);
    }

    /// Appends a session, with its number and its id. The serial stays, and the limit does not count.
    ///
    /// # Errors
    /// [`RestoreFault::Unfit`] if the session cannot follow the others, or [`RestoreFault::NoMemory`]; nothing has
    /// changed.
    pub fn restore(&mut self, session: StoredSession) -> Result<(), RestoreFault>
        ensures { MatchResult result
            (λ _. CanFollow self.old.store session × (self.new ≡ record self.old { store = with_last session self.old.store }))
            (λ fault. (self.new ≡ self.old) × RefusesRestore self.old.store session fault) }
    {
        if !self.can_follow(&session) {
            return Err(RestoreFault::Unfit);
        }
        let Ok(()) = self.append(session) else {
            return Err(RestoreFault::NoMemory);
        };
        Ok(())
    }

    /// Records an access to a session at the time `now`, in seconds. Returns `false` if no live session has the number.
    pub fn touch(&mut self, number: u64, now: u64) -> bool
        ensures found { result ≡ is_some (numbered number self.old.store) }
        ensures left { self.new ≡ record self.old { store = calls.touched number now self.old.store } }
    {
        let Some(place) = place_of(self.slots.as_slice(), number) else {
            return false;
        };
        self.slots[place].kept.touch(now);
        let due = Due {
            last_access: now,
            number,
        };
        self.queue.put(place, Some(due));
        true
    }

    /// Ends the first session that has expired at the time `now`, in seconds, by deadline and then by number. Returns
    /// `None` if none has expired. The count of judged records grows by one if there is a session, up to the maximum.
    pub fn expire(&mut self, now: u64) -> Option<EndedSession>
        ensures ended { result ≡ calls.expiring now self.old.store }
        ensures left { self.new ≡ record {
          store = calls.left_by_expiry now self.old.store;
          judged = calls.judged_by_expiry self.old.store self.old.judged;
        } }
    {
        let Counted { ended, judged } = self.expire_counted(now, self.judged);
        self.judged = judged;
        ended
    }

    /// Ends a session as [`expire`](Sessions::expire) does, but continues a count of the caller instead of its own, which
    /// stays. `judged` is the caller's count so far. It grows by one if there is a session, up to the maximum.
    pub fn expire_counted(&mut self, now: u64, judged: u64) -> Counted
        ensures ended { result.ended ≡ calls.expiring now self.old.store }
        ensures judged { result.judged ≡ calls.judged_by_expiry self.old.store judged }
        ensures left { self.new ≡ record self.old { store = calls.left_by_expiry now self.old.store } }
    {
        let Some(due) = self.queue.least() else {
            return Counted {
                ended: None,
                judged,
            };
        };
        let judged = judged.saturating_add(1);
        if !due.has_waited(self.interval, now) {
            return Counted {
                ended: None,
                judged,
            };
        }
        let ended = self.end(due.number);
        Counted { ended, judged }
    }

    /// Ends a session and returns it. Returns `None` if no live session has the number.
    pub fn end(&mut self, number: u64) -> Option<EndedSession>
        ensures ended { result ≡ calls.ending number self.old.store }
        ensures left { self.new ≡ record self.old { store = calls.without number self.old.store } }
    {
        let place = place_of(self.slots.as_slice(), number)?;
        self.ids.remove(self.slots[place].kept.id());
        self.queue.put(place, None);
        self.count -= 1;
        Some(self.slots[place].end(self.alloc))
    }

    /// Ends all sessions and returns them in the order of their numbers.
    pub fn end_all(&mut self) -> EndedSessions
        ensures ended { result ≡ map ended self.old.store.sessions }
        ensures order { IsOrderly self.old.store }
        ensures left { self.new ≡ record self.old { store = record self.old.store { sessions = [] } } }
    {
        self.count = 0;
        self.ids = Ids::new();
        self.queue = Queue::new(self.alloc);
        let slots = mem::replace(&mut self.slots, Vec::new(self.alloc));
        EndedSessions::of(self.alloc, slots)
    }

    /// Gives a session a new id, made of two random words and the next serial. Its number stays.
    ///
    /// # Errors
    /// [`SessionFault::NoSuch`], [`SessionFault::SerialSpent`], [`SessionFault::NoMemory`], in that order; nothing has
    /// changed.
    pub fn rename(&mut self, number: u64, words: (u64, u64)) -> Result<(), SessionFault>
        ensures { MatchResult result
            (λ _. (calls.renaming_faults number self.old.store ≡ []) × (self.new ≡ record self.old { store = calls.renamed number words self.old.store }))
            (λ fault. RefusesCall (calls.renaming_faults number self.old.store) fault self.old self.new) }
    {
        let Some(place) = place_of(self.slots.as_slice(), number) else {
            return Err(SessionFault::NoSuch);
        };
        if self.serial == GREATEST_SERIAL {
            return Err(SessionFault::SerialSpent);
        }
        let serial = self.serial + 1;
        let Ok(id) = id_of(self.alloc, words, serial) else {
            return Err(SessionFault::NoMemory);
        };
        let Ok(()) = self.ids.enter(self.alloc, id.as_str(), number) else {
            return Err(SessionFault::NoMemory);
        };
        self.ids.remove(self.slots[place].kept.id());
        self.slots[place].kept.rename(id);
        self.serial = serial;
        Ok(())
    }

    /// Sets the caller of a session to a user of the realm, by number, or clears it. Returns `false` if no live session
    /// has the number.
    pub fn enter_caller(&mut self, number: u64, caller: Option<u32>) -> bool
        ensures found { result ≡ is_some (numbered number self.old.store) }
        ensures left { self.new ≡ record self.old { store = calls.with_caller number caller self.old.store } }
    {
        let Some(place) = place_of(self.slots.as_slice(), number) else {
            return false;
        };
        self.slots[place].kept.enter_caller(caller);
        true
    }

    /// Returns the caller of a session, as the number of a user of the realm.
    pub fn caller(&self, number: u64) -> Option<u32>
        ensures { result ≡ calls.caller_of number self.now.store }
    {
        let session = self.session(number)?;
        session.caller()
    }

    /// Saves the target of the request that a login interrupted. It replaces an earlier one. Returns `false` if no live
    /// session has the number.
    pub fn save(&mut self, number: u64, target: Text) -> bool
        ensures found { result ≡ is_some (numbered number self.old.store) }
        ensures left { self.new ≡ record self.old { store = calls.with_saved number (Some target) self.old.store } }
    {
        let Some(place) = place_of(self.slots.as_slice(), number) else {
            return false;
        };
        self.slots[place].kept.save(target);
        true
    }

    /// Removes the saved target of a session and returns it.
    pub fn take_saved(&mut self, number: u64) -> Option<Text>
        ensures taken { result ≡ calls.saved_of number self.old.store }
        ensures left { self.new ≡ record self.old { store = calls.with_saved number None self.old.store } }
    {
        let place = place_of(self.slots.as_slice(), number)?;
        self.slots[place].kept.take_saved()
    }

    /// Returns the value of an attribute of a session (Jakarta Servlet 6.0, section 7.4).
    pub fn get(&self, number: u64, name: &str) -> Option<&str>
        ensures { option_copied result ≡ calls.value_of number name.now self.now.store }
    {
        let session = self.session(number)?;
        session.value(name)
    }

    /// Sets an attribute of a session and returns its previous value. An existing attribute keeps its place in the
    /// order.
    ///
    /// # Errors
    /// [`SessionFault::NoSuch`], [`SessionFault::TooLarge`], [`SessionFault::NoMemory`], in that order; nothing has
    /// changed.
    pub fn set(
        &mut self,
        number: u64,
        name: &str,
        value: &str,
    ) -> Result<Option<Text>, SessionFault>
        ensures { MatchResult result
            (λ old. (calls.setting_faults number name.now value.now self.old.store ≡ []) × (old ≡ calls.value_of number name.now self.old.store)
            × (self.new ≡ record self.old { store = calls.with_attribute number name.now value.now self.old.store }))
            (λ fault. RefusesCall (calls.setting_faults number name.now value.now self.old.store) fault self.old self.new) }
    {
        let Some(place) = place_of(self.slots.as_slice(), number) else {
            return Err(SessionFault::NoSuch);
        };
        if self.slots[place].kept.is_too_large(name, value) {
            return Err(SessionFault::TooLarge);
        }
        let Ok(old) = self.slots[place].kept.set_value(self.alloc, name, value) else {
            return Err(SessionFault::NoMemory);
        };
        Ok(old)
    }

    /// Returns the reason, other than memory, why [`set`](Sessions::set) would be refused.
    pub fn setting_fault(&self, number: u64, name: &str, value: &str) -> Option<SessionFault>
        ensures { result ≡ slice_get (calls.setting_faults number name.now value.now self.now.store) 0 }
    {
        match self.session(number) {
            None => Some(SessionFault::NoSuch),
            Some(session) if session.is_too_large(name, value) => Some(SessionFault::TooLarge),
            Some(_) => None,
        }
    }

    /// Returns the attributes of a session, in the order in which they were first set. Returns none if no live session
    /// has the number.
    pub fn attributes(&self, number: u64) -> &[Attribute]
        ensures { result.now ≡ attributes_of number self.now.store }
    {
        match self.session(number) {
            Some(session) => session.attributes.as_slice(),
            None => &[],
        }
    }

    /// Removes an attribute of a session and returns its value.
    pub fn remove(&mut self, number: u64, name: &str) -> Option<Text>
        ensures value { result ≡ calls.value_of number name.now self.old.store }
        ensures left { self.new ≡ record self.old { store = calls.without_attribute number name.now self.old.store } }
    {
        let place = place_of(self.slots.as_slice(), number)?;
        self.slots[place].kept.remove_value(name)
    }

    /// Returns the number of live sessions.
    pub fn count(&self) -> usize
        ensures { result ≡ length self.now.store.sessions }
    {
        self.count
    }

    /// Returns the number of records that [`expire`](Sessions::expire) has judged. It stays at the maximum once it has
    /// reached it.
    pub fn judged(&self) -> u64
        ensures { result ≡ self.now.judged }
    {
        self.judged
    }

    /// Returns the reason, other than memory, why no session can be opened, if there is one.
    fn opening_fault(&self) -> Option<SessionFault>
        ensures { result ≡ slice_get (calls.opening_faults self.now.store) 0 }
    {
        if self.count >= self.limit {
            return Some(SessionFault::TooMany);
        }
        if self.serial == GREATEST_SERIAL {
            return Some(SessionFault::SerialSpent);
        }
        None
    }

    /// Returns the live session of a number.
    fn session(&self, number: u64) -> Option<&StoredSession>
        ensures { option_copied result ≡ numbered number self.now.store }
    {
        let place = place_of(self.slots.as_slice(), number)?;
        Some(&self.slots[place].kept)
    }

    /// Appends a session that has the next serial.
    fn add(&mut self, kept: StoredSession) -> Result<(), NoMemory>
        requires opened { (words : ℕ × ℕ) × (now : ℕ) × (kept ≡ calls.session_opened words (self.old.store.serial + 1) now) }
        requires fits { calls.opening_faults self.old.store ≡ [] }
        ensures added { OnOk result (self.new ≡ record self.old {
          store = record self.old.store { serial = self.old.store.serial + 1; sessions = self.old.store.sessions ++ kept ∷ [] };
        }) }
        ensures refused { OnErr result (self.new ≡ self.old) }
    {
        // The count is below the limit, so the next count does not overflow.
        let _limit = self.limit;
        self.slots.reserve(1)?;
        self.ids.enter(self.alloc, kept.id(), kept.number())?;
        let Ok(()) = self.queue.push(kept.due()) else {
            self.ids.remove(kept.id());
            return Err(NoMemory);
        };
        push(&mut self.slots, Slot { live: true, kept });
        self.count += 1;
        self.serial += 1;
        Ok(())
    }

    /// Returns whether a session can follow those of the store.
    fn can_follow(&self, session: &StoredSession) -> bool
        ensures { result ≡ true ↔ CanFollow self.now.store session.now }
    {
        let Some(below) = session.number().checked_sub(1) else {
            return false;
        };
        if self.after(below).is_some() {
            return false;
        }
        if self.find(session.id().as_bytes()).is_some() {
            return false;
        }
        session.number() <= self.serial && is_given(session.id(), self.serial)
    }

    /// Appends a session that can follow the others.
    fn append(&mut self, session: StoredSession) -> Result<(), NoMemory>
        requires { CanFollow self.old.store session }
        ensures added { OnOk result (self.new ≡ record self.old { store = with_last session self.old.store }) }
        ensures refused { OnErr result (self.new ≡ self.old) }
    {
        // An empty slot may have a greater number than the session.
        close_gaps(self.alloc, self.count, &mut self.slots, &mut self.queue)?;
        let Ok(()) = self.slots.reserve(1) else {
            return Err(NoMemory);
        };
        let Ok(()) = self.ids.enter(self.alloc, session.id(), session.number()) else {
            return Err(NoMemory);
        };
        let Ok(()) = self.queue.push(session.due()) else {
            self.ids.remove(session.id());
            return Err(NoMemory);
        };
        let slot = Slot {
            live: true,
            kept: session,
        };
        push(&mut self.slots, slot);
        self.count = self.slots.len();
        Ok(())
    }

    /// Removes the slots of ended sessions if they outnumber the live sessions by at least 32.
    fn gather(&mut self) -> Result<(), NoMemory>
        ensures { self.new ≡ self.old }
    {
        if self.slots.len() / 2 < self.count.saturating_add(16) {
            return Ok(());
        }
        close_gaps(self.alloc, self.count, &mut self.slots, &mut self.queue)?;
        Ok(())
    }
}
