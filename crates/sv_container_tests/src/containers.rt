//! The container of a row.

use crate::counted_components::Counts;
use crate::deployments::{TestContainer, TestFault, deployments, shown};
use std::alloc::Global;
use sv_container::{Container, NewCode};
use sv_journal::Journal;
use sv_rows::{Draft, cell};
use sv_run::CountedWords;
use sv_text::{NoMemory, Text};

/// An action on the container of a row.
pub trait Does {
    /// Acts on the container and adds the result. May note entries, one per line.
    fn act(
        &self,
        alloc: Global,
        row: &str,
        container: &mut TestContainer,
        told: &mut Draft,
        entries: &mut Draft,
    );
}

/// The end of a row's container.
#[derive(Drop)]
pub enum Ending {
    /// It was shut down. The components of this number of contexts were returned.
    Stopped(usize),
    /// It did not start: the code, the context path that goes with it, and the number of returned deployments.
    Unstarted(NewCode, Text, usize),
}

/// Starts a container with the deployments of the first cell, acts on it and shuts it down. Adds the number of contexts
/// whose components were returned. If the start fails, adds the reason, the number of returned deployments, and the
/// entries of the start.
pub fn answer_with<D: Does>(
    alloc: Global,
    row: &str,
    does: &D,
    answer: &mut Vec<u8>,
) -> Result<(), NoMemory> {
    let mut counts = Counts::new(alloc);
    let mut told = Draft::new(alloc);
    let mut entries = Draft::new(alloc);
    let ending = live(alloc, row, does, &mut counts, &mut told, &mut entries)?;
    let entries = entries.finish()?;
    let lines = str::from_utf8(entries.as_slice()).unwrap_or("");
    tell_ending(&ending, lines, &mut told);
    told.add_to(answer)
}

/// Starts a container with the deployments of the first cell, acts on it and shuts it down. Notes the entries of the
/// start and of the shutdown, one per line.
pub fn live<D: Does>(
    alloc: Global,
    row: &str,
    does: &D,
    counts: &mut Counts,
    told: &mut Draft,
    entries: &mut Draft,
) -> Result<Ending, NoMemory> {
    let deployments = deployments(alloc, cell(row, 0), counts)?;
    let mut journal = Journal::new(alloc);
    let started = Container::new(alloc, deployments, CountedWords::new(), &mut journal);
    note(&journal, entries);
    Ok(match started {
        Ok(container) => run(alloc, row, container, does, told, entries),
        Err(fault) => unstarted(fault),
    })
}

fn run<D: Does>(
    alloc: Global,
    row: &str,
    mut container: TestContainer,
    does: &D,
    told: &mut Draft,
    entries: &mut Draft,
) -> Ending {
    does.act(alloc, row, &mut container, told, entries);
    let shutdown = container.shutdown();
    note(&shutdown.journal, entries);
    let contexts = shutdown.parts.len();
    shutdown.let_go();
    Ending::Stopped(contexts)
}

fn unstarted(fault: TestFault) -> Ending {
    let deployments = fault.deployments.len();
    let (code, context) = fault.into_cause();
    Ending::Unstarted(code, context, deployments)
}

/// Notes the entries of a journal, one per line.
pub fn note(journal: &Journal, entries: &mut Draft) {
    if !journal.whole() {
        entries.fail();
    }
    for entry in journal.entries() {
        entries.add_shown(entry);
        entries.add("\n");
    }
}

fn tell_ending(ending: &Ending, entries: &str, told: &mut Draft) {
    match ending {
        Ending::Stopped(contexts) => {
            told.add(" | ");
            told.add_shown(contexts);
        }
        Ending::Unstarted(code, context, deployments) => {
            told.add_shown(code);
            told.add(" ");
            tell_cause(*code, context.as_str(), told);
            told.add(" | ");
            told.add_shown(deployments);
            tell_entries(entries, told);
        }
    }
}

/// Adds the number of a code, and the context path that goes with it.
pub fn tell_cause(code: NewCode, context: &str, told: &mut Draft) {
    told.add_shown(&code.number());
    told.add(" ");
    told.add(shown(context));
}

/// Adds entries, given one per line, separated by `, `.
fn tell_entries(entries: &str, told: &mut Draft) {
    told.add(" | ");
    for (place, entry) in entries.lines().enumerate() {
        if place > 0 {
            told.add(", ");
        }
        told.add(entry);
    }
}
