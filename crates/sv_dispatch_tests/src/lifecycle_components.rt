//! Components that answer `init` as a row says.

use std::alloc::Global;
use sv_component::{Config, Event, Exchange, Filter, Gate, Init, Listener, Servlet, Step};
use sv_lifecycle::StartFault;
use sv_live::{Live, Named, Parts};
use sv_text::{NoMemory, Text};

/// A servlet or a filter with a fixed answer to `init`.
#[derive(Drop)]
pub struct Probe {
    answer: Init,
}

/// A listener that does nothing.
#[derive(Drop)]
pub struct Quiet {}

pub type TestParts = Parts<Probe, Probe, Quiet>;

pub type TestLive = Live<Probe, Probe, Quiet>;

pub type TestFault = StartFault<Probe, Probe, Quiet>;

impl Servlet for Probe {
    fn init(&mut self, _alloc: Global, _config: &Config) -> Init {
        self.answer
    }

    fn service(&mut self, _alloc: Global, _exchange: &mut Exchange, _turn: u32) -> Step {
        Step::Done
    }

    fn destroy(&mut self) {}
}

impl Filter for Probe {
    fn init(&mut self, _alloc: Global, _config: &Config) -> Init {
        self.answer
    }

    fn before(&mut self, _alloc: Global, _exchange: &mut Exchange) -> Gate {
        Gate::Pass
    }

    fn after(&mut self, _alloc: Global, _exchange: &mut Exchange) -> Result<(), NoMemory> {
        Ok(())
    }

    fn destroy(&mut self) {}
}

impl Listener for Quiet {
    fn hear(&mut self, _event: &Event) {}
}

/// Returns the components that these words name, and this number of listeners.
pub fn parts(
    alloc: Global,
    servlets: &str,
    filters: &str,
    listeners: usize,
) -> Result<TestParts, NoMemory> {
    let mut heard = Vec::with_capacity(alloc, listeners)?;
    for _ in 0..listeners {
        heard.push(Quiet {})?;
    }
    Ok(Parts {
        servlets: named(alloc, servlets)?,
        filters: named(alloc, filters)?,
        listeners: heard,
    })
}

fn named(alloc: Global, words: &str) -> Result<Vec<Named<Probe>>, NoMemory> {
    let mut all = Vec::new(alloc);
    for word in words.split_ascii_whitespace() {
        all.push(named_probe(alloc, word)?)?;
    }
    Ok(all)
}

/// Returns the component of a word, `NAME[=NUMBER][!ANSWER]`. ANSWER is its answer to `init`, by default `Ready`.
fn named_probe(alloc: Global, word: &str) -> Result<Named<Probe>, NoMemory> {
    let (word, answer) = word.split_once('!').unwrap_or((word, "Ready"));
    let (name, _) = word.split_once('=').unwrap_or((word, ""));
    let name = Text::copy_of(alloc, name)?;
    let answer = answer_of(answer);
    Ok(Named {
        name,
        component: Probe { answer },
    })
}

fn answer_of(word: &str) -> Init {
    match word {
        "Unavailable" => Init::Unavailable,
        "Failed" => Init::Failed,
        "NoMemory" => Init::NoMemory,
        _ => Init::Ready,
    }
}
