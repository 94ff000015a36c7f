//! Calls of the components of a started context by index.

ghost use Rattle.sv_component.specs.Steps.{steps_of};
ghost use Rattle.std.specs.Prelude.{◌≡◌, ◌<◌, false, is_ok, length, Some};
ghost use Rattle.sv_text.specs.Gives.{GivesAnswer};
ghost use Rattle.sv_component.specs.Runs.{Runs};
ghost use Rattle.sv_exchange.specs.Changing.{Reaches};
ghost use Rattle.sv_listeners.specs.Telling.{told};
ghost use Rattle.sv_live.specs.Calling.{Enters, Leaves, Retires, Serves, StandsAsBefore, StandsBut, unless_broken};
ghost use Rattle.sv_journal.specs.declared.answer.Answer.{Answer as AnswerData};
ghost use Rattle.sv_component.specs.declared.answers.Gate.TheVariants as gates;
ghost use Rattle.sv_component.specs.declared.answers.Step.TheVariants as steps;
ghost use Rattle.sv_component.specs.Standing.{is_gone};
ghost use Rattle.sv_live.specs.Standing.{live_world, standing_at};
ghost use Rattle.sv_component.specs.declared.standing.Standing.TheVariants as standings;

use crate::live::Live;
use std::alloc::Global;
use sv_component::{
    Event, Exchange, Filter, Gate, Listener, Servlet, Standing, Step, gate_answer, step_answer,
};
use sv_journal::{Answer, CallName, Entry, Journal, Place};
use sv_text::NoMemory;

impl<S: Servlet, F: Filter, L: Listener> Live<S, F, L> {
    /// Returns the number of servlets.
    pub fn servlets(&self) -> usize
        ensures { result ≡ length self.now.parts.servlets.items }
    {
        self.parts.servlets.len()
    }

    /// Returns the number of filters.
    pub fn filters(&self) -> usize
        ensures { result ≡ length self.now.parts.filters.items }
    {
        self.parts.filters.len()
    }

    /// Returns the number of listeners.
    pub fn listeners(&self) -> usize
        ensures { result ≡ length self.now.parts.listeners.items }
    {
        self.parts.listeners.len()
    }

    /// Returns the availability of the servlet at this index.
    pub fn standing(&self, place: usize) -> Standing
        requires { place < length self.now.parts.servlets.items }
        ensures { result ≡ standing_at self.now.standings place }
    {
        self.standings[place]
    }

    /// Calls the servlet at this index for one turn of the exchange (Jakarta Servlet 6.0, section 2.3.3). Returns
    /// `NoMemory` instead of the servlet's result if the journal is broken.
    pub fn service(
        &mut self,
        alloc: Global,
        place: usize,
        exchange: &mut Exchange,
        turn: u32,
        journal: &mut Journal,
    ) -> Step
        requires there { place < length self.old.parts.servlets.items }
        requires not_gone { is_gone (standing_at self.old.standings place) ≡ false }
        ensures serves { Serves (steps_of S.servlet_step F.filter_step L.listener_step)
            self.old journal.old place turn exchange.old result self.new journal.new exchange.new }
        ensures reached { Reaches exchange.old exchange.new }
    {
        let named = &mut self.parts.servlets[place];
        let step = named.component.service(alloc, exchange, turn);
        let noted = some_answer(step_answer(alloc, &step));
        let context = self.context.as_str();
        let name = named.name.as_str();
        journal.note(Entry::of_servlet(alloc, context, name, CallName::Service(turn), noted));
        unless_broken(journal, step, Step::NoMemory)
    }

    /// Calls `before` of the filter at this index (Jakarta Servlet 6.0, section 6.2.1). Returns `NoMemory` instead of
    /// the filter's result if the journal is broken.
    pub fn before(
        &mut self,
        alloc: Global,
        place: usize,
        exchange: &mut Exchange,
        journal: &mut Journal,
    ) -> Gate
        requires { place < length self.old.parts.filters.items }
        ensures enters { Enters (steps_of S.servlet_step F.filter_step L.listener_step)
            self.old journal.old place exchange.old result self.new journal.new exchange.new }
        ensures reached { Reaches exchange.old exchange.new }
    {
        let named = &mut self.parts.filters[place];
        let gate = named.component.before(alloc, exchange);
        let noted = some_answer(gate_answer(alloc, &gate));
        let context = self.context.as_str();
        let name = named.name.as_str();
        journal.note(Entry::of_filter(alloc, context, name, CallName::Before, noted));
        unless_broken(journal, gate, Gate::NoMemory)
    }

    /// Calls `after` of the filter at this index (Jakarta Servlet 6.0, section 6.2.1). Returns `NoMemory` if the filter
    /// does, or if the journal is broken.
    pub fn after(
        &mut self,
        alloc: Global,
        place: usize,
        exchange: &mut Exchange,
        journal: &mut Journal,
    ) -> Result<(), NoMemory>
        requires { place < length self.old.parts.filters.items }
        ensures leaves { Leaves (steps_of S.servlet_step F.filter_step L.listener_step)
            self.old journal.old place exchange.old result self.new journal.new exchange.new }
        ensures reached { Reaches exchange.old exchange.new }
    {
        let named = &mut self.parts.filters[place];
        let done = named.component.after(alloc, exchange);
        let context = self.context.as_str();
        let name = named.name.as_str();
        journal.note(Entry::of_filter(alloc, context, name, CallName::After, Ok(None)));
        unless_broken(journal, done, Err(NoMemory))
    }

    /// Destroys the servlet at this index, which is then gone (Jakarta Servlet 6.0, section 2.3.3.2).
    pub fn retire(&mut self, alloc: Global, place: usize, journal: &mut Journal)
        requires there { place < length self.old.parts.servlets.items }
        requires not_gone { is_gone (standing_at self.old.standings place) ≡ false }
        ensures { Retires (steps_of S.servlet_step F.filter_step L.listener_step) self.old journal.old place self.new journal.new }
    {
        self.parts.destroy(alloc, self.context.as_str(), Place::Servlet(place), journal);
        self.standings[place] = Standing::Gone;
    }

    /// Takes the servlet at this index out of service until a time, in seconds since 1970 (Jakarta Servlet 6.0, section
    /// 2.3.3.2).
    pub fn away(&mut self, place: usize, until: u64)
        requires there { place < length self.old.parts.servlets.items }
        requires not_gone { is_gone (standing_at self.old.standings place) ≡ false }
        ensures stands { StandsBut place (standings.Away until) self.old self.new }
        ensures parts { self.new.parts ≡ self.old.parts }
    {
        self.standings[place] = Standing::Away(until);
    }

    /// Notifies each listener of the event, in notification order (Jakarta Servlet 6.0, section 11.3.3).
    pub fn tell_all(&mut self, alloc: Global, event: &Event, journal: &mut Journal)
        ensures made { Runs (steps_of S.servlet_step F.filter_step L.listener_step)
            (live_world self.old journal.old) (told event.now (length self.old.parts.listeners.items)) (live_world self.new journal.new) }
        ensures stands { StandsAsBefore self.old self.new }
    {
        self.parts
            .tell(alloc, self.context.as_str(), event, journal);
    }
}

// Returns the result of a component, or the out-of-memory result if the journal is broken.
fn unless_broken<A: Drop>(journal: &Journal, answer: A, no_memory: A) -> A
    ensures { result ≡ unless_broken journal.now no_memory answer }
{
    if journal.whole() { answer } else { no_memory }
}

// Wraps a result for a journal entry.
fn some_answer(answer: Result<Answer, NoMemory>) -> Result<Option<Answer>, NoMemory>
    ensures { (known : AnswerData) → GivesAnswer answer known → GivesAnswer result (Some known) }
{
    match answer {
        Ok(answer) => Ok(Some(answer)),
        Err(refusal) => Err(refusal),
    }
}
