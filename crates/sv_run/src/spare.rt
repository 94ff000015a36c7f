//! Memory of earlier events, kept for the next.

ghost use Rattle.std.specs.Prelude.{◌≡◌, []};
ghost use Rattle.sv_journal.specs.Journal.{new_journal};

use crate::limits::{MAX_KEPT_ENTRIES, MAX_KEPT_SENT_BYTES};
use std::alloc::Global;
use std::cell::Cell;
use sv_journal::Journal;

/// Small buffers and journals of earlier events. Their contents are never read, so contracts do not mention them.
#[derive(Drop)]
pub(crate) struct Spare {
    room: Cell<Vec<u8>>,
    journal: Cell<Journal>,
}

impl Spare {
    /// Creates an empty store of spare memory. It does not allocate.
    pub(crate) fn new(alloc: Global) -> Spare {
        Spare {
            room: Cell::new(Vec::new(alloc)),
            journal: Cell::new(Journal::new(alloc)),
        }
    }

    /// Keeps the buffer and the journal if they are small, and drops the contents of the entries.
    pub(crate) fn keep(&self, room: Vec<u8>, journal: Journal) {
        if room.capacity() <= MAX_KEPT_SENT_BYTES {
            self.room.set(room);
        }
        if journal.entries().len() <= MAX_KEPT_ENTRIES {
            self.journal.set(journal.emptied());
        }
    }

    /// Returns a buffer with unspecified contents.
    pub(crate) fn take_room(&self, alloc: Global) -> Vec<u8> {
        self.room.replace(Vec::new(alloc))
    }

    /// Returns an empty journal.
    pub(crate) fn take_journal(&self, alloc: Global) -> Journal
        ensures { result ≡ new_journal }
    {
        self.journal.replace(Journal::new(alloc)).emptied()
    }
}
