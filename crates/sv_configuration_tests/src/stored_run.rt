//! The texts of a run with one servlet, one listener and one request.

use std::alloc::Global;
use sv_journal::{Answer, CallName, Component, Entry};
use sv_policy::EditFault;
use sv_rows::Strays;
use sv_script::{event_text, shutdown_text, start_text};
use sv_session::Event;
use sv_text::{Bytes, NoMemory, Text};

/// Returns the entry of an event for the listener of the root context.
fn told(alloc: Global, event: Event) -> Result<Entry, NoMemory> {
    Ok(Entry::Told(Text::copy_of(alloc, "")?, 1, event))
}

/// Returns the entry of a call of the root context's servlet.
fn called(alloc: Global, call: CallName, answer: Option<Answer>) -> Result<Entry, NoMemory> {
    let servlet = Component::Servlet(Text::copy_of(alloc, "who")?);
    Ok(Entry::Called(Text::copy_of(alloc, "")?, servlet, call, answer))
}

/// Fails if the text differs from the expected one.
fn expect(text: &Bytes, wanted: &str) -> Result<(), Strays> {
    if text.as_slice() == wanted.as_bytes() {
        Ok(())
    } else {
        Err(Strays::Rows(1))
    }
}

const STARTED: &str = "start\ntold / 1 ContextInitialized\ncalled / servlet who init Ready\n";

#[test]
fn a_start_is_printed(rt: HostRuntime) -> Result<(), Strays> {
    let alloc = rt.alloc();
    let mut entries = Draft::new(alloc);
    entries.add(told(alloc, Event::ContextInitialized));
    entries.add(called(alloc, CallName::Init, Some(Answer::Ready)));
    let text = start_text(alloc, entries.finish()?.as_slice())?;
    expect(&text, STARTED)
}

const STOPPED: &str = "shutdown\ncalled / servlet who destroy\ntold / 1 ContextDestroyed\n";

#[test]
fn a_shutdown_is_printed(rt: HostRuntime) -> Result<(), Strays> {
    let alloc = rt.alloc();
    let mut entries = Draft::new(alloc);
    entries.add(called(alloc, CallName::Destroy, None));
    entries.add(told(alloc, Event::ContextDestroyed));
    let text = shutdown_text(alloc, entries.finish()?.as_slice())?;
    expect(&text, STOPPED)
}

const ANSWERED: &str =
    "event 2\nentered / /who\ntold / 1 RequestInitialized\ncalled / servlet who service 0 Done\ntold / 1 RequestDestroyed\nsends HTTP/1.1 200 OK\\r\\ndate: Thu, 01 Jan 1970 00:00:00 GMT\\r\\ncontent-type: text/plain\\r\\ncontent-length: 9\\r\\nconnection: close\\r\\n\\r\\ncaller -\\n\ncloses\n";

const SENT: &str =
    "HTTP/1.1 200 OK\r\ndate: Thu, 01 Jan 1970 00:00:00 GMT\r\ncontent-type: text/plain\r\ncontent-length: 9\r\nconnection: close\r\n\r\ncaller -\n";

#[test]
fn an_event_is_printed(rt: HostRuntime) -> Result<(), Strays> {
    let alloc = rt.alloc();
    let mut entries = Draft::new(alloc);
    entries.add(entered(alloc));
    entries.add(told(alloc, Event::RequestInitialized));
    entries.add(called(alloc, CallName::Service(0), Some(Answer::Done)));
    entries.add(told(alloc, Event::RequestDestroyed));
    let text = event_text(
        alloc,
        2,
        entries.finish()?.as_slice(),
        SENT.as_bytes(),
        true,
        None,
    )?;
    expect(&text, ANSWERED)
}

/// Returns the entry of a message that enters the root context.
fn entered(alloc: Global) -> Result<Entry, NoMemory> {
    Ok(Entry::Entered(Text::copy_of(alloc, "")?, Text::copy_of(alloc, "/who")?))
}

#[test]
fn an_event_may_print_only_its_number(rt: HostRuntime) -> Result<(), Strays> {
    let text = event_text(rt.alloc(), 1, &[], b"", false, None)?;
    expect(&text, "event 1\n")
}

#[test]
fn the_answer_to_an_edit_is_printed(rt: HostRuntime) -> Result<(), Strays> {
    let alloc = rt.alloc();
    let text = event_text(alloc, 3, &[], b"", false, Some(Ok(2)))?;
    expect(&text, "event 3\nedited 2\n")?;
    let greatest = event_text(alloc, 4, &[], b"", false, Some(Err(EditFault::NumberSpent)))?;
    expect(&greatest, "event 4\nedit refused 3\n")
}

/// A growing list of entries, which reports at its end if memory ran out.
#[derive(Drop)]
struct Draft {
    entries: Vec<Entry>,
    is_whole: bool,
}

impl Draft {
    fn new(alloc: Global) -> Draft {
        Draft {
            entries: Vec::new(alloc),
            is_whole: true,
        }
    }

    fn add(&mut self, entry: Result<Entry, NoMemory>) {
        match entry {
            Ok(entry) => {
                if self.entries.push(entry).is_err() {
                    self.is_whole = false;
                }
            }
            Err(_) => self.is_whole = false,
        }
    }

    fn finish(self) -> Result<Vec<Entry>, NoMemory> {
        if self.is_whole {
            Ok(self.entries)
        } else {
            Err(NoMemory)
        }
    }
}
