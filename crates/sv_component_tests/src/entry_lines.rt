//! The lines of the journal, and the numbers of causes.

use crate::entries::{cause, entry};
use std::alloc::Global;
use sv_journal::Journal;
use sv_rows::{Asks, Draft, Strays, cell, hold};
use sv_text::NoMemory;

/// The columns: what happened; context path; content of the entry in two columns; its line, followed by a full stop.
const LINES: &str = r#"
entered         | ""   | /who               | ""         | entered / /who.
entered         | /two | /                  | ""         | entered /two /.
login           | /two | /a/*               | 2          | login /two pattern=/a/* constraint=2 cause=NeedsCaller.
login           | ""   | ""                 | 1          | login / pattern= constraint=1 cause=NeedsCaller.
login           | ""   | -                  | -          | login / pattern=- constraint=- cause=NeedsCaller.
refused         | ""   | BadHead            | ""         | refused BadHead.
refused         | ""   | BadTarget          | ""         | refused BadTarget.
refused         | ""   | Fragment           | ""         | refused Fragment.
refused         | ""   | Climbs             | ""         | refused Climbs.
refused         | ""   | Star               | ""         | refused Star.
refused         | ""   | LoggedIn           | ""         | refused LoggedIn.
refused         | ""   | LoginFailed        | ""         | refused LoginFailed.
refused         | ""   | NoSession          | ""         | refused NoSession.
refused         | ""   | Denied             | ""         | refused Denied pattern=/a/* constraint=2 cause=NeedsCaller.
refused         | ""   | NoLogin            | ""         | refused NoLogin pattern=/a/* constraint=2 cause=NeedsCaller.
hidden          | ""   | NoContext          | ""         | hidden NoContext.
hidden          | ""   | Protected          | ""         | hidden Protected.
told            | ""   | ContextInitialized | ""         | told / 1 ContextInitialized.
told            | ""   | ContextDestroyed   | ""         | told / 1 ContextDestroyed.
told            | ""   | RequestInitialized | ""         | told / 1 RequestInitialized.
told            | /two | RequestDestroyed   | ""         | told /two 1 RequestDestroyed.
told            | ""   | SessionCreated     | 1          | told / 1 SessionCreated 1.
told            | ""   | SessionDestroyed   | 18446744073709551615 | told / 1 SessionDestroyed 18446744073709551615.
told            | ""   | SessionIdChanged   | 2          | told / 1 SessionIdChanged 2.
told            | ""   | AttributeAdded     | 1          | told / 1 AttributeAdded 1 n.
told            | ""   | AttributeReplaced  | 1          | told / 1 AttributeReplaced 1 n.
told            | ""   | AttributeRemoved   | 1          | told / 1 AttributeRemoved 1 n.
servlet init    | ""   | Ready              | ""         | called / servlet who init Ready.
servlet init    | /two | Unavailable        | ""         | called /two servlet who init Unavailable.
service         | ""   | Done               | ""         | called / servlet who service 0 Done.
service         | ""   | Forward            | /a?b       | called / servlet who service 0 Forward /a?b.
service         | ""   | Include            | ""         | called / servlet who service 0 Include .
service         | ""   | Error              | 700        | called / servlet who service 0 Error 700.
service         | ""   | Failed             | K          | called / servlet who service 0 Failed K.
service         | ""   | Failed             | ""         | called / servlet who service 0 Failed .
service         | ""   | Unavailable        | ""         | called / servlet who service 0 Unavailable.
service         | ""   | NoMemory           | ""         | called / servlet who service 0 NoMemory.
servlet destroy | ""   | ""                 | ""         | called / servlet who destroy.
filter init     | ""   | InitFailed         | ""         | called / filter f1 init Failed.
before          | ""   | Pass               | ""         | called / filter f1 before Pass.
before          | ""   | Stop               | ""         | called / filter f1 before Stop.
after           | ""   | ""                 | ""         | called / filter f1 after.
filter destroy  | ""   | ""                 | ""         | called / filter f1 destroy.
"#;

#[test]
fn an_entry_is_printed_as_its_journal_line(rt: HostRuntime) -> Result<(), Strays> {
    hold(&rt, &[LINES], &Lines)
}

/// Answers with the line of an entry.
struct Lines;

impl Asks for Lines {
    const QUESTION: usize = 4;

    fn answer(&self, alloc: Global, row: &str, answer: &mut Vec<u8>) -> Result<(), NoMemory> {
        let mut line = Draft::new(alloc);
        add_line(alloc, row, &mut line);
        line.add_to(answer)
    }
}

fn add_line(alloc: Global, row: &str, line: &mut Draft) {
    let mut journal = Journal::new(alloc);
    journal.note(entry(alloc, row));
    for entry in journal.entries() {
        line.add_shown(entry);
    }
    line.add(".");
}

/// The columns: cause; its number.
const NUMBERS: &str = r#"
BadHead     | 1
BadTarget   | 8
Fragment    | 11
Climbs      | 20
Star        | 21
NoContext   | 22
Protected   | 23
LoggedIn    | 24
LoginFailed | 25
NoSession   | 26
Denied      | 27
NoLogin     | 28
"#;

#[test]
fn a_cause_has_its_number(rt: HostRuntime) -> Result<(), Strays> {
    hold(&rt, &[NUMBERS], &Numbers)
}

/// Answers with the number of a cause.
struct Numbers;

impl Asks for Numbers {
    const QUESTION: usize = 1;

    fn answer(&self, alloc: Global, row: &str, answer: &mut Vec<u8>) -> Result<(), NoMemory> {
        let mut number = Draft::new(alloc);
        match cause(alloc, cell(row, 0)) {
            Ok(cause) => number.add_shown(&cause.number()),
            Err(_) => number.fail(),
        }
        number.add_to(answer)
    }
}
