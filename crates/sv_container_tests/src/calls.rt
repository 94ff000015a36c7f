//! The number of calls of each component over the events of a container.

use crate::containers::{Does, Ending, live, note, tell_cause};
use crate::counted_components::{Count, Counts};
use crate::deployments::TestContainer;
use crate::happenings::step;
use std::alloc::Global;
use sv_rows::{Asks, Draft, Strays, cell, hold};
use sv_run::{Reaction, StepFault};
use sv_text::NoMemory;

/// Answers with the refusals of events, the end of the container, and the number of calls of each component, which must
/// equal the number of its entries.
struct Calls;

impl Does for Calls {
    fn act(
        &self,
        alloc: Global,
        row: &str,
        container: &mut TestContainer,
        told: &mut Draft,
        entries: &mut Draft,
    ) {
        for event in cell(row, 1).split(", ") {
            keep(step(alloc, event, container), told, entries);
        }
    }
}

impl Asks for Calls {
    const QUESTION: usize = 2;

    fn answer(&self, alloc: Global, row: &str, answer: &mut Vec<u8>) -> Result<(), NoMemory> {
        let mut counts = Counts::new(alloc);
        let mut told = Draft::new(alloc);
        let mut entries = Draft::new(alloc);
        let ending = live(alloc, row, self, &mut counts, &mut told, &mut entries)?;
        let entries = entries.finish()?;
        tell_ending(&ending, &mut told);
        told.add(" | ");
        tell_counts(
            &counts,
            str::from_utf8(entries.as_slice()).unwrap_or(""),
            &mut told,
        );
        told.add_to(answer)
    }
}

/// Notes the entries of an event, or adds the reason for its refusal.
fn keep(taken: Result<Reaction, StepFault>, told: &mut Draft, entries: &mut Draft) {
    match taken {
        Ok(reaction) => note(&reaction.journal, entries),
        Err(fault) => {
            told.add_shown(&fault);
            told.add(", ");
        }
    }
}

fn tell_ending(ending: &Ending, told: &mut Draft) {
    match ending {
        Ending::Stopped(_) => told.add("end"),
        Ending::Unstarted(code, context, _) => {
            told.add("start ");
            tell_cause(*code, context.as_str(), told);
        }
    }
}

/// Adds the number of calls of each component, and the number of its entries if they differ.
fn tell_counts(counts: &Counts, journal: &str, told: &mut Draft) {
    let mut front = "";
    for count in counts.as_slice() {
        told.add(front);
        front = ", ";
        tell_count(count, journal, told);
    }
}

fn tell_count(count: &Count, journal: &str, told: &mut Draft) {
    let calls = count.calls();
    let entries = entries_of(journal, count.front.as_str());
    told.add(count.front.as_str());
    told.add_shown(&calls);
    if entries != calls {
        told.add(" but entries ");
        told.add_shown(&entries);
    }
}

/// Returns the number of lines that begin with `front`.
fn entries_of(journal: &str, front: &str) -> u64 {
    let mut entries = 0u64;
    for line in journal.lines() {
        if line.starts_with(front) {
            entries = entries.saturating_add(1);
        }
    }
    entries
}

/// The columns: deployments; events; end of the container, and the calls of each component.
const CALLS: &str = r#"
-- Jakarta Servlet 6.0, section 7.5: of two sessions that expire each listener hears the end and the attribute's, behind what their requests told
demo@ two@/two | open 1, send 1 GET /keep HTTP/1.1\r\nHost: h\r\n\r\n, send 1 GET /keep HTTP/1.1\r\nHost: h\r\n\r\n, send 1 GET /two/keep HTTP/1.1\r\nHost: h\r\n\r\n, tick 59, tick 60, send 1 GET /two/keep HTTP/1.1\r\nHost: h\r\nCookie: JSESSIONID=000000000000000000000000000000030000000000000001\r\n\r\n | end | called / servlet who 2, called / servlet nest 2, called / servlet go 2, called / servlet keep 4, called / filter mark 2, told / 1 14, told / 2 14, called /two servlet keep 4
-- section 9.3: a servlet that includes itself is called three times
demo@ two@/two | open 1, send 1 GET /nest HTTP/1.1\r\nHost: h\r\n\r\n | end | called / servlet who 2, called / servlet nest 5, called / servlet go 2, called / servlet keep 2, called / filter mark 2, told / 1 4, told / 2 4, called /two servlet keep 2
-- sections 2.3.2 and 6.2.1: a filter that fails to start is not destroyed
bad@ | open 1 | start 12 / | called / filter f1 2, called / filter f2 1, told / 1 2, told / 2 2
-- section 12.1: two contexts of one path, and nothing is called
who@/a who@/a | open 1 | start 1 /a | called /a servlet who 0, told /a 1 0, called /a servlet who 0, told /a 1 0
-- section 11.3.4: two sessions that the shutdown ends
demo@ two@/two | open 1, send 1 GET /keep HTTP/1.1\r\nHost: h\r\n\r\n, send 1 GET /keep HTTP/1.1\r\nHost: h\r\n\r\n | end | called / servlet who 2, called / servlet nest 2, called / servlet go 2, called / servlet keep 4, called / filter mark 2, told / 1 14, told / 2 14, called /two servlet keep 2
"#;

#[test]
fn each_component_is_called_once_per_journal_entry(rt: HostRuntime) -> Result<(), Strays> {
    hold(&rt, &[CALLS], &Calls)
}
