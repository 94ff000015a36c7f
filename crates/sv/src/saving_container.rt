//! A container whose sessions are written while it runs.

use crate::asked_container::AskedContainer;
use crate::saver::Saver;
use std::alloc::Global;
use std::rt::Files;
use sv_access_log::AccessSource;
use sv_component::{Filter, Listener, Servlet};
use sv_connection::Queries;
use sv_journal::Journal;
use sv_run::{Access, EventHandler, Happening, Reaction, StepFault, Words};
use sv_text::{Bytes, NoMemory};
use sv_wire::Awaited;

// The greatest number of sessions that are copied or written after a tick, and after any other event.
const TICK_PART: usize = 2_000;

const EVENT_PART: usize = 100;

/// A container that takes each event as the one inside does. After each event that is not refused, a part of its sessions
/// is copied or written.
pub(crate) struct SavingContainer<'a, S, F, L, W, H: Files> {
    asked: AskedContainer<S, F, L, W>,
    saver: Saver<'a, H>,
}

impl<'a, S, F, L, W, H: Files + Eprint> SavingContainer<'a, S, F, L, W, H> {
    ghost use Rattle.std.specs.Prelude.{◌≡◌};

    /// Wraps a container, to write its sessions.
    pub fn new(
        asked: AskedContainer<S, F, L, W>,
        saver: Saver<'a, H>,
    ) -> SavingContainer<'a, S, F, L, W, H>
        ensures { result.asked ≡ asked }
    {
        SavingContainer { asked, saver }
    }

    /// Returns the container. A file that is not whole is removed.
    pub fn into_asked(self) -> AskedContainer<S, F, L, W>
        ensures { result ≡ self.entry.asked }
    {
        let SavingContainer { asked, saver } = self;
        saver.end();
        asked
    }
}

impl<S: Servlet, F: Filter, L: Listener, W: Words, H: Files + Eprint> EventHandler
    for SavingContainer<'_, S, F, L, W, H> {
    ghost steps = { λ before happening result after.
        ⟦<AskedContainer<S, F, L, W> as EventHandler>⟧.steps before.asked happening result after.asked };

    ghost awaited = { λ saving connection. ⟦<AskedContainer<S, F, L, W> as EventHandler>⟧.awaited saving.asked connection };

    fn step(&mut self, happening: Happening) -> Result<Reaction, StepFault> {
        let part = part_after(&happening);
        match self.asked.step(happening) {
            Ok(reaction) => {
                self.saver.go_on(self.asked.container(), part);
                Ok(reaction)
            }
            Err(fault) => Err(fault),
        }
    }

    fn awaits(&self, connection: u64) -> Awaited {
        self.asked.awaits(connection)
    }

    fn recycle(&self, bytes: Vec<u8>, journal: Journal) {
        self.asked.recycle(bytes, journal);
    }
}

impl<S: Servlet, F: Filter, L: Listener, W: Words, H: Files + Eprint> AccessSource
    for SavingContainer<'_, S, F, L, W, H> {
    ghost answered = { λ saving. ⟦<AskedContainer<S, F, L, W> as AccessSource>⟧.answered saving.asked };

    fn accesses(&self) -> &[Access] {
        self.asked.accesses()
    }

    fn user_name(&self, context: usize, number: u32) -> Option<&str> {
        self.asked.user_name(context, number)
    }

    fn context_path(&self, context: usize) -> Option<&str> {
        self.asked.context_path(context)
    }
}

impl<S, F, L, W, H: Files> Queries for SavingContainer<'_, S, F, L, W, H> {
    ghost explains = { λ saving method target user.
        ⟦<AskedContainer<S, F, L, W> as Queries>⟧.explains saving.asked method target user };

    ghost uncovers = { λ saving. ⟦<AskedContainer<S, F, L, W> as Queries>⟧.uncovers saving.asked };

    ghost constrains = { λ saving. ⟦<AskedContainer<S, F, L, W> as Queries>⟧.constrains saving.asked };

    ghost stands = { λ saving. ⟦<AskedContainer<S, F, L, W> as Queries>⟧.stands saving.asked };

    fn explain(
        &self,
        alloc: Global,
        method: &str,
        target: &[u8],
        user: Option<&str>,
    ) -> Result<Option<Bytes>, NoMemory> {
        self.asked.explain(alloc, method, target, user)
    }

    fn uncovered(&self, alloc: Global) -> Result<Option<Bytes>, NoMemory> {
        self.asked.uncovered(alloc)
    }

    fn constraints(&self, alloc: Global) -> Result<Option<Bytes>, NoMemory> {
        self.asked.constraints(alloc)
    }

    fn standing(&self, alloc: Global) -> Result<Option<Bytes>, NoMemory> {
        self.asked.standing(alloc)
    }
}

fn part_after(happening: &Happening<'_>) -> usize {
    match happening {
        Happening::Tick { .. } => TICK_PART,
        _ => EVENT_PART,
    }
}
