//! An event handler that records its events.

use crate::record::Record;
use std::alloc::Global;
use sv_connection::Queries;
use sv_journal::Journal;
use sv_run::{EventHandler, Happening, Reaction, StepFault};
use sv_streams::Sink;
use sv_text::{Bytes, NoMemory};
use sv_wire::Awaited;

/// An event handler that passes its events to an inner handler, and records their entries.
#[derive(Drop)]
pub struct Recorder<R, O, A> {
    within: R,
    notes: Record<O, A>,
}

impl<R: EventHandler, O: Sink, A: Alarm> Recorder<R, O, A> {
    ghost use Rattle.std.specs.Prelude.{◌≡◌};

    /// Wraps a handler, to record its events.
    pub fn new(within: R, notes: Record<O, A>) -> Recorder<R, O, A>
        ensures within { result.within ≡ within }
        ensures notes { result.notes ≡ notes }
    {
        Recorder { within, notes }
    }
}

impl<R, O: Drop, A: Drop> Recorder<R, O, A> {
    ghost use Rattle.std.specs.Prelude.{◌≡◌};

    /// Returns the inner handler.
    pub fn into_within(self) -> R
        ensures { result ≡ self.within }
    {
        self.within
    }
}

impl<R: EventHandler, O: Sink, A: Alarm> EventHandler for Recorder<R, O, A> {
    ghost use Rattle.sv_listening.specs.Recording.{Records};

    ghost steps = { λ before happening result after.
        R.steps before.within happening result after.within × Records O.makes happening result before.notes after.notes };

    ghost awaited = { λ recorder connection. R.awaited recorder.within connection };

    fn step(&mut self, happening: Happening) -> Result<Reaction, StepFault> {
        let connection = happening.connection();
        self.notes.reach(&happening);
        match self.within.step(happening) {
            Ok(reaction) => {
                self.notes.write(connection, reaction.journal.entries());
                Ok(reaction)
            }
            Err(fault) => Err(fault),
        }
    }

    fn awaits(&self, connection: u64) -> Awaited {
        self.within.awaits(connection)
    }

    fn recycle(&self, bytes: Vec<u8>, journal: Journal) {
        self.within.recycle(bytes, journal);
    }
}

impl<R: Queries, O, A> Queries for Recorder<R, O, A> {
    ghost explains = { λ recorder method target user. R.explains recorder.within method target user };

    ghost uncovers = { λ recorder. R.uncovers recorder.within };

    ghost constrains = { λ recorder. R.constrains recorder.within };

    ghost stands = { λ recorder. R.stands recorder.within };

    fn explain(
        &self,
        alloc: Global,
        method: &str,
        target: &[u8],
        user: Option<&str>,
    ) -> Result<Option<Bytes>, NoMemory> {
        self.within.explain(alloc, method, target, user)
    }

    fn uncovered(&self, alloc: Global) -> Result<Option<Bytes>, NoMemory> {
        self.within.uncovered(alloc)
    }

    fn constraints(&self, alloc: Global) -> Result<Option<Bytes>, NoMemory> {
        self.within.constraints(alloc)
    }

    fn standing(&self, alloc: Global) -> Result<Option<Bytes>, NoMemory> {
        self.within.standing(alloc)
    }
}

/// An alarm for lost journal entries.
pub trait Alarm {
    /// Reports that the entries of an event are lost, for the first time since a complete write.
    fn is_losing(&mut self);
}
