//! Contexts that are started, called and stopped.

use crate::by_place::make_all;
use crate::entries::add_entries;
use crate::lifecycle_components::{TestFault, TestLive, TestParts, parts};
use crate::lifecycle_descriptors::descriptor;
use std::alloc::Global;
use sv_component::Standing;
use sv_descriptor::Descriptor;
use sv_journal::Journal;
use sv_rows::Draft;
use sv_session::{SessionFault, Sessions};

/// The components of a context, the calls on them, and the sessions at its stop.
#[derive(Clone, Copy)]
pub struct Life<'a> {
    /// Names of the servlets, with their numbers and answers.
    pub servlets: &'a str,
    /// Names of the filters, with their answers.
    pub filters: &'a str,
    /// Number of listeners that the descriptor declares.
    pub declared: usize,
    /// Number of listeners that the context is started with.
    pub handed: usize,
    /// Names of the calls.
    pub calls: &'a str,
    /// Names of the attributes of the second of two sessions, or `-` for no sessions.
    pub attributes: &'a str,
}

/// Adds the answers to the calls and the states of the servlets after them, or the reason why the context does not
/// start. Then adds all entries; those of the stop come last.
pub fn add_life(alloc: Global, life: &Life<'_>, told: &mut Draft) {
    let mut journal = Journal::new(alloc);
    live_by(alloc, life, &mut journal, told);
    told.add(" | ");
    add_entries(told, alloc, &journal);
}

fn live_by(alloc: Global, life: &Life<'_>, journal: &mut Journal, told: &mut Draft) {
    match descriptor(alloc, life.servlets, life.filters, life.declared) {
        Some(descriptor) => start(alloc, life, &descriptor, journal, told),
        None => told.fail(),
    }
}

fn start(
    alloc: Global,
    life: &Life<'_>,
    descriptor: &Descriptor,
    journal: &mut Journal,
    told: &mut Draft,
) {
    match parts(alloc, life.servlets, life.filters, life.handed) {
        Ok(handed) => start_with(alloc, life, handed, descriptor, journal, told),
        Err(_) => told.fail(),
    }
}

fn start_with(
    alloc: Global,
    life: &Life<'_>,
    handed: TestParts,
    descriptor: &Descriptor,
    journal: &mut Journal,
    told: &mut Draft,
) {
    match sv_lifecycle::start(alloc, "", handed, descriptor, journal) {
        Ok(live) => run(alloc, life, live, journal, told),
        Err(fault) => add_fault(told, &fault),
    }
}

fn run(
    alloc: Global,
    life: &Life<'_>,
    mut live: TestLive,
    journal: &mut Journal,
    told: &mut Draft,
) {
    make_all(alloc, life.calls, &mut live, journal, told);
    add_standings(told, &live);
    stop(alloc, life.attributes, live, journal, told);
}

fn add_standings(told: &mut Draft, live: &TestLive) {
    for place in 0..live.servlets() {
        told.add(if place == 0 { "" } else { " " });
        told.add(word_of(live.standing(place)));
    }
}

/// Returns the state of a servlet as the rows write it.
fn word_of(standing: Standing) -> &'static str {
    match standing {
        Standing::Serving => "Serving",
        Standing::Gone => "Gone",
        Standing::Away(_) => "Away",
    }
}

fn stop(alloc: Global, attributes: &str, live: TestLive, journal: &mut Journal, told: &mut Draft) {
    let mut sessions = Sessions::new(alloc, 2, 0);
    if attributes != "-" && open_two(&mut sessions, attributes).is_err() {
        told.fail();
    }
    let _parts = live.stop(alloc, &mut sessions, journal);
}

/// Opens two sessions and sets attributes of these names in the second.
fn open_two(sessions: &mut Sessions, attributes: &str) -> Result<(), SessionFault> {
    sessions.open((0, 0), 0)?;
    let second = sessions.open((0, 0), 0)?;
    for name in attributes.split_ascii_whitespace() {
        let _ = sessions.set(second, name, "v")?;
    }
    Ok(())
}

fn add_fault(told: &mut Draft, fault: &TestFault) {
    told.add_shown(&fault.code.number());
    told.add(" ");
    told.add_shown(&fault.code);
    told.add(" ");
    told.add_shown(&fault.parts.servlets.len());
    told.add(" ");
    told.add_shown(&fault.parts.filters.len());
    told.add(" ");
    told.add_shown(&fault.parts.listeners.len());
}
