//! Components that count their calls.

use std::alloc::Global;
use std::cell::Cell;
use std::rc::Rc;
use sv_component::{Config, Event, Exchange, Filter, Gate, Init, Listener, Servlet, Step};
use sv_text::NoMemory;

/// A component that counts the calls of another one, in a cell that it shares with the test.
#[derive(Drop)]
pub struct Counted<C> {
    tally: Rc<Cell<Tally>>,
    component: C,
}

/// The counts of a component.
#[derive(Clone, Copy)]
struct Tally {
    calls: u64,
    /// The calls of `init` that made the component ready, or the starts that a listener was notified of.
    starts: u64,
    /// The calls of `destroy`, or the ends that a listener was notified of.
    ends: u64,
    /// The events of sessions that a listener was notified of.
    session_events: u64,
}

/// The counts of all components.
#[derive(Drop)]
pub struct Counts {
    alloc: Global,
    counts: Vec<Count>,
}

/// The counts of a component, with the text that its entries begin with.
#[derive(Drop)]
pub struct Count {
    pub front: String,
    tally: Rc<Cell<Tally>>,
}

impl Counts {
    /// Creates an empty list.
    pub fn new(alloc: Global) -> Counts {
        Counts {
            alloc,
            counts: Vec::new(alloc),
        }
    }

    /// Returns the component, with its calls counted. Its entries begin with `front`.
    pub fn counted<C: Drop>(
        &mut self,
        front: String,
        component: C,
    ) -> Result<Counted<C>, NoMemory> {
        let tally = self.tally(front)?;
        Ok(Counted { tally, component })
    }

    fn tally(&mut self, front: String) -> Result<Rc<Cell<Tally>>, NoMemory> {
        let none = Tally {
            calls: 0,
            starts: 0,
            ends: 0,
            session_events: 0,
        };
        let tally = Rc::new(self.alloc, Cell::new(none))?;
        let shared = tally.clone()?;
        self.counts.push(Count { front, tally })?;
        Ok(shared)
    }

    /// Returns the counts of each component.
    pub fn as_slice(&self) -> &[Count] {
        self.counts.as_slice()
    }

    /// Returns whether there are components, and each was started once.
    pub fn all_started(&self) -> bool {
        let mut all = !self.counts.is_empty();
        for count in self.counts.as_slice() {
            all = all && count.tally.get().starts == 1;
        }
        all
    }

    /// Returns whether each component was started at most once, and has ended as often as it was started.
    pub fn all_ended(&self) -> bool {
        let mut all = true;
        for count in self.counts.as_slice() {
            let Tally { starts, ends, .. } = count.tally.get();
            all = all && starts <= 1 && ends == starts;
        }
        all
    }

    /// Returns the number of session events that listeners were notified of, each counted once for each listener.
    pub fn session_events(&self) -> u64 {
        let mut events = 0u64;
        for count in self.counts.as_slice() {
            events = events.saturating_add(count.tally.get().session_events);
        }
        events
    }
}

impl Count {
    /// Returns the number of calls.
    pub fn calls(&self) -> u64 {
        self.tally.get().calls
    }
}

impl<C> Counted<C> {
    fn count(&self) {
        let mut tally = self.tally.get();
        tally.calls = tally.calls.saturating_add(1);
        self.tally.set(tally);
    }

    fn count_init(&self, answer: Init) {
        self.count();
        if answer == Init::Ready {
            self.count_start();
        }
    }

    fn count_start(&self) {
        let mut tally = self.tally.get();
        tally.starts = tally.starts.saturating_add(1);
        self.tally.set(tally);
    }

    fn count_end(&self) {
        let mut tally = self.tally.get();
        tally.ends = tally.ends.saturating_add(1);
        self.tally.set(tally);
    }

    fn count_session_event(&self) {
        let mut tally = self.tally.get();
        tally.session_events = tally.session_events.saturating_add(1);
        self.tally.set(tally);
    }
}

impl<S: Servlet> Servlet for Counted<S> {
    fn init(&mut self, alloc: Global, config: &Config) -> Init {
        let answer = self.component.init(alloc, config);
        self.count_init(answer);
        answer
    }

    fn service(&mut self, alloc: Global, exchange: &mut Exchange, turn: u32) -> Step {
        self.count();
        self.component.service(alloc, exchange, turn)
    }

    fn destroy(&mut self) {
        self.count();
        self.count_end();
        self.component.destroy();
    }
}

impl<F: Filter> Filter for Counted<F> {
    fn init(&mut self, alloc: Global, config: &Config) -> Init {
        let answer = self.component.init(alloc, config);
        self.count_init(answer);
        answer
    }

    fn before(&mut self, alloc: Global, exchange: &mut Exchange) -> Gate {
        self.count();
        self.component.before(alloc, exchange)
    }

    fn after(&mut self, alloc: Global, exchange: &mut Exchange) -> Result<(), NoMemory> {
        self.count();
        self.component.after(alloc, exchange)
    }

    fn destroy(&mut self) {
        self.count();
        self.count_end();
        self.component.destroy();
    }
}

impl<L: Listener> Listener for Counted<L> {
    fn hear(&mut self, event: &Event) {
        self.count();
        match event {
            Event::ContextInitialized => self.count_start(),
            Event::ContextDestroyed => self.count_end(),
            Event::RequestInitialized | Event::RequestDestroyed => {}
            _ => self.count_session_event(),
        }
        self.component.hear(event);
    }
}
