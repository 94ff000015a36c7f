//! A journal, and the answers of calls that allocate, with enough memory.

use std::alloc::Global;
use sv_journal::{Answer, CallName, Entry, Journal};
use sv_rows::{Asks, Draft, Strays, cell, hold};
use sv_session::Event;
use sv_text::NoMemory;

/// The columns: `broken` if the entry between two others could not be made; lines of the journal.
const ROWS: &str = r#"
-- formats of entries; an entry that could not be made breaks the journal, which keeps those before it and takes no more
whole  | told / 1 SessionCreated 3. called / servlet who init Ready. whole
broken | told / 1 SessionCreated 3. broken
"#;

#[test]
fn a_journal_keeps_its_entries_until_it_breaks(rt: HostRuntime) -> Result<(), Strays> {
    hold(&rt, &[ROWS], &Journals)
}

/// Answers with the lines of a journal, each followed by a full stop, and whether the journal is whole.
struct Journals;

impl Asks for Journals {
    const QUESTION: usize = 1;

    fn answer(&self, alloc: Global, row: &str, answer: &mut Vec<u8>) -> Result<(), NoMemory> {
        let mut lines = Draft::new(alloc);
        match Event::copy_of(alloc, &Event::SessionCreated(3)) {
            Ok(event) => add_lines(alloc, &event, cell(row, 0) == "broken", &mut lines),
            Err(_) => lines.fail(),
        }
        lines.add_to(answer)
    }
}

fn add_lines(alloc: Global, event: &Event, breaks: bool, lines: &mut Draft) {
    let journal = journal(alloc, event, breaks);
    for entry in journal.entries() {
        lines.add_shown(entry);
        lines.add(". ");
    }
    lines.add(if journal.whole() { "whole" } else { "broken" });
}

fn journal(alloc: Global, event: &Event, breaks: bool) -> Journal {
    let mut journal = Journal::new(alloc);
    journal.note(Entry::told(alloc, "", 0, event));
    if breaks {
        journal.note(Err(NoMemory));
    }
    let ready = Ok(Some(Answer::Ready));
    journal.note(Entry::of_servlet(alloc, "", "who", CallName::Init, ready));
    journal
}
