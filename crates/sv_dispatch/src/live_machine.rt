//! The machine over a started context, the exchange of a request and their journal.

use crate::machine::Machine;
use crate::parts::{
    ErrorField, done_of, empty, enter, gate_of, keep_error, made, moment_after, offer, retired,
    step_of, unless_broken,
};
use crate::session_events::tell_events;
use bytes::Bytes;
use std::alloc::Global;
use sv_component::{Exchange, Filter, Gate, Listener, Servlet, Standing, Step};
use sv_journal::Journal;
use sv_live::Live;
use sv_mapping::Kind;
use sv_text::NoMemory;
use sv_tree::{Chosen, MAX_CALLS};
use sv_uri::path::Canon;

/// A started context, with the exchange of a request and their journal.
#[derive(Drop)]
pub(crate) struct Running<'a, S, F, L> {
    pub(crate) alloc: Global,
    pub(crate) live: &'a mut Live<S, F, L>,
    pub(crate) exchange: &'a mut Exchange,
    pub(crate) journal: &'a mut Journal,
}

impl<S: Servlet, F: Filter, L: Listener> Machine for Running<'_, S, F, L> {
    ghost use Rattle.sv_component.specs.Steps.{steps_of};
    ghost use Rattle.std.specs.Prelude.{length};
    ghost use Rattle.sv_component.specs.Runs.{IsRun};
    ghost use Rattle.sv_dispatch.specs.Running.{state_of};
    ghost use Rattle.sv_live.specs.Standing.{live_world};

    ghost state = { λ m. state_of m.live.now m.exchange.now };

    ghost frame = { λ m. record {
      context = m.live.now.context;
      servlets = length m.live.now.parts.servlets.items;
      filters = length m.live.now.parts.filters.items;
      listeners = length m.live.now.parts.listeners.items;
      initialised = m.live.now.initialised;
      live = m.live.ghost_name;
      exchange = m.exchange.ghost_name;
      journal = m.journal.ghost_name;
      whole = m.journal.now.whole;
    } };

    ghost ran = { λ from calls to. IsRun (steps_of S.servlet_step F.filter_step L.listener_step)
        (live_world from.live.now from.journal.now) calls (live_world to.live.now to.journal.now) };

    fn is_committed(&self) -> bool {
        self.exchange.committed()
    }

    fn is_within_include(&self) -> bool {
        self.exchange.is_within_include()
    }

    fn is_full(&self) -> bool {
        MAX_CALLS <= self.exchange.calls() as usize
    }

    fn moment(&self) -> u64 {
        self.exchange.moment()
    }

    fn method(&self) -> &str {
        self.exchange.method()
    }

    fn standing(&self, place: usize) -> Standing {
        self.live.standing(place).at(self.exchange.moment())
    }

    fn enter(&mut self, kind: Kind, chosen: &Chosen, canon: &Canon) -> Result<(), NoMemory> {
        enter(self.exchange, kind, chosen, canon)
    }

    fn leave(&mut self) {
        self.exchange.leave();
    }

    fn count(&mut self) {
        self.exchange.count_call();
    }

    fn keep_error(
        &mut self,
        status: u16,
        text: &str,
        servlet: &str,
        field: ErrorField,
    ) -> Result<(), NoMemory> {
        keep_error(self.alloc, self.exchange, status, text, servlet, field)
    }

    fn set_status(&mut self, status: u16) -> Result<(), NoMemory> {
        made(self.exchange.set_status(status))
    }

    fn set_header(&mut self, name: &str, value: &str) -> Result<(), NoMemory> {
        made(self.exchange.set_header(name, value))
    }

    fn offer(&mut self, bytes: &Bytes) -> Result<bool, NoMemory> {
        offer(self.exchange.write_shared(bytes))
    }

    fn empty(&mut self) {
        empty(self.exchange);
    }

    fn before(&mut self, place: usize) -> Result<Gate, NoMemory> {
        let gate = self
            .live
            .before(self.alloc, place, self.exchange, self.journal);
        tell_events(self.alloc, self.live, self.exchange, self.journal);
        unless_broken(self.journal, gate_of(gate))
    }

    fn after(&mut self, place: usize) -> Result<bool, NoMemory> {
        let done = self
            .live
            .after(self.alloc, place, self.exchange, self.journal);
        tell_events(self.alloc, self.live, self.exchange, self.journal);
        unless_broken(self.journal, done_of(done))
    }

    fn service(&mut self, place: usize, turn: u32) -> Result<Step, NoMemory> {
        let step = self
            .live
            .service(self.alloc, place, self.exchange, turn, self.journal);
        tell_events(self.alloc, self.live, self.exchange, self.journal);
        unless_broken(self.journal, step_of(step))
    }

    fn retire(&mut self, place: usize) -> Result<(), NoMemory> {
        self.live.retire(self.alloc, place, self.journal);
        retired(self.journal.whole())
    }

    fn away(&mut self, place: usize, seconds: u32) {
        let until = moment_after(self.exchange.moment(), u64::from(seconds));
        self.live.away(place, until);
    }
}
