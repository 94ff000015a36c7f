//! The journal.

ghost use Rattle.std.specs.Prelude.{◌≡◌, cond};
ghost use Rattle.sv_text.specs.Gives.{GivesAnswer};

use crate::entry::Entry;
use std::alloc::Global;
use std::marker::Model;
use sv_text::NoMemory;

/// A journal. It breaks at an entry that could not be made or stored for lack of memory, and takes no more entries.
#[derive(Drop)]
pub struct Journal {
    entries: Vec<Entry>,
    whole: bool,
}

impl Model for Journal {
    ghost use Rattle.sv_journal.specs.Journal.{JournalState};

    ghost Value = { JournalState };

    ghost view = { λ j. record { entries = j.entries.items; whole = j.whole } };
}

impl Journal {
    ghost use Rattle.sv_journal.specs.Journal.{Notes, Takes, new_journal, with_entry};
    ghost use Rattle.sv_journal.specs.declared.entry.Entry.{Entry as EntryData};

    /// Returns an empty journal.
    pub fn new(alloc: Global) -> Journal
        ensures { result ≡ new_journal }
    {
        Journal {
            entries: Vec::new(alloc),
            whole: true,
        }
    }

    /// Returns whether no entry is missing.
    pub fn whole(&self) -> bool
        ensures { result ≡ self.now.whole }
    {
        self.whole
    }

    /// Returns the entries in order. A broken journal has the entries that were noted before it broke.
    pub fn entries(&self) -> &[Entry]
        ensures { result.now ≡ self.now.entries }
    {
        self.entries.as_slice()
    }

    /// Returns an empty journal that reuses the memory of this one.
    pub fn emptied(self) -> Journal
        ensures { result ≡ new_journal }
    {
        let Journal { mut entries, .. } = self;
        if !entries.is_empty() {
            entries.clear();
        }
        Journal {
            entries,
            whole: true,
        }
    }

    /// Adds the entry, or breaks the journal if the entry could not be made or stored. A broken journal does not
    /// change.
    #[inline(always)]
    pub fn note(&mut self, entry: Result<Entry, NoMemory>)
        ensures notes { Notes self.old entry self.new }
        ensures takes { (meant : EntryData) → GivesAnswer entry meant → Takes self.old meant self.new }
    {
        self.do_note(entry)
    }

    /// Drops the journal, so that callers need no proof about dropping its entries.
    pub fn let_go(self) {}

    #[inline(always)]
    fn do_note(&mut self, entry: Result<Entry, NoMemory>)
        ensures { Notes self.old entry self.new }
    {
        if !self.whole {
            let_go(entry);
            return;
        }
        match entry {
            Ok(entry) => self.whole = self.finds_room(entry),
            Err(_) => self.whole = false,
        }
    }

    // Adds the entry and returns true, or drops it and returns false if there is no memory for it.
    #[inline(always)]
    fn finds_room(&mut self, entry: Entry) -> bool
        ensures { cond result (self.new ≡ with_entry entry self.old) (self.new ≡ self.old) }
    {
        let Err(failed) = self.entries.push(entry) else {
            return true;
        };
        let_go(failed);
        false
    }
}

// Drops a value that may hold an entry. A separate function, so that an entry that is noted is moved as a whole.
#[cold]
#[inline(never)]
fn let_go<T: Drop>(_value: T) {}
