//! An event handler without a control interface.

use crate::queries::Queries;
use std::alloc::Global;
use sv_journal::Journal;
use sv_run::{EventHandler, Happening, Reaction, StepFault};
use sv_text::{Bytes, NoMemory};
use sv_wire::Awaited;

/// An event handler without a control interface. It takes events as the inner handler does, and answers no query.
#[derive(Drop)]
pub struct WithoutQueries<R> {
    within: R,
}

impl<R> WithoutQueries<R> {
    ghost use Rattle.std.specs.Prelude.{◌≡◌};

    /// Wraps a handler.
    pub fn new(within: R) -> WithoutQueries<R>
        ensures { result.within ≡ within }
    {
        WithoutQueries { within }
    }

    /// Returns the inner handler.
    pub fn into_within(self) -> R
        ensures { result ≡ self.within }
    {
        self.within
    }
}

impl<R: EventHandler> EventHandler for WithoutQueries<R> {
    ghost steps = { λ before happening result after. R.steps before.within happening result after.within };

    ghost awaited = { λ without_queries connection. R.awaited without_queries.within connection };

    fn step(&mut self, happening: Happening) -> Result<Reaction, StepFault> {
        self.within.step(happening)
    }

    fn awaits(&self, connection: u64) -> Awaited {
        self.within.awaits(connection)
    }

    fn recycle(&self, bytes: Vec<u8>, journal: Journal) {
        self.within.recycle(bytes, journal);
    }
}

impl<R> Queries for WithoutQueries<R> {
    ghost use Rattle.std.specs.Prelude.{None};

    ghost explains = { λ without_queries method target user. None };

    ghost uncovers = { λ without_queries. None };

    ghost constrains = { λ without_queries. None };

    ghost stands = { λ without_queries. None };

    fn explain(
        &self,
        _alloc: Global,
        _method: &str,
        _target: &[u8],
        _user: Option<&str>,
    ) -> Result<Option<Bytes>, NoMemory> {
        Ok(None)
    }

    fn uncovered(&self, _alloc: Global) -> Result<Option<Bytes>, NoMemory> {
        Ok(None)
    }

    fn constraints(&self, _alloc: Global) -> Result<Option<Bytes>, NoMemory> {
        Ok(None)
    }

    fn standing(&self, _alloc: Global) -> Result<Option<Bytes>, NoMemory> {
        Ok(None)
    }
}
