//! The replay of scripts.

use crate::echo::Echo;
use std::alloc::Global;
use sv_rows::{Asks, Draft, Strays, cell, hold, unescaped};
use sv_script::replay;
use sv_streams::MemoryStream;
use sv_text::NoMemory;

/// Answers with the end of a script's replay, the bytes written, and the number of reads and writes.
struct Replays;

impl Asks for Replays {
    const QUESTION: usize = 5;

    fn answer(&self, alloc: Global, row: &str, answer: &mut Vec<u8>) -> Result<(), NoMemory> {
        let text = unescaped(alloc, cell(row, 0))?;
        let mut script = MemoryStream::new(alloc, text, count(row, 1).max(1), number(row, 2));
        let mut output = MemoryStream::new(
            alloc,
            Vec::new(alloc),
            count(row, 3).max(1),
            number(row, 4),
        );
        let mut echo = Echo::new(alloc);
        let mut told = Draft::new(alloc);
        match replay(alloc, &mut echo, &mut script, &mut output) {
            Ok(()) => told.add("end"),
            Err(fault) => told.add_shown(&fault),
        }
        told.add(" | ");
        told.add_bytes(output.written());
        told.add(" | ");
        told.add_shown(&script.calls());
        told.add(" | ");
        told.add_shown(&output.calls());
        told.add_to(answer)
    }
}

fn count(row: &str, place: usize) -> usize {
    cell(row, place).parse::<usize>().unwrap_or(1)
}

fn number(row: &str, place: usize) -> u64 {
    cell(row, place).parse::<u64>().unwrap_or(0)
}

/// The columns: script; bytes per read; failing read; bytes per write; failing write; end; bytes written; number of
/// reads; number of writes.
const ROWS: &str = r#"
""                                  | 100 | 0 | 100 | 0 | end         | ""                                  | 1 | 0
# a comment\n\nopen 1\n             | 100 | 0 | 100 | 0 | end         | event 1\n                           | 2 | 1
open 1\nopen 2                      | 100 | 0 | 100 | 0 | end         | event 1\nevent 2\n                  | 2 | 2
send 1 ab\n                         | 100 | 0 | 100 | 0 | end         | event 1\nsends <ab@0>\n             | 2 | 1
send 1 a*\n                         | 100 | 0 | 100 | 0 | end         | event 1\nrefused Star\nsends <a*@0>\n | 2 | 1
send 1 a!\n                         | 100 | 0 | 100 | 0 | end         | event 1\nsends <a!@0>\ncloses\n     | 2 | 1
send 1 .\n                          | 100 | 0 | 100 | 0 | end         | event 1\n                           | 2 | 1
send 1 \\xff\\r\\n\n                | 100 | 0 | 100 | 0 | end         | event 1\nsends <\\xFF\\r\\n@0>\n    | 2 | 1
end 1\nlost 2\n                     | 100 | 0 | 100 | 0 | end         | event 1\ncloses\nevent 2\n          | 2 | 2
-- the moment of a piece is the last one that was told
tick 7\nsend 1 a\ntick 5\nsend 1 b\n | 100 | 0 | 100 | 0 | end        | event 1\nevent 2\nsends <a@7>\nevent 3\nevent 4\nsends <b@5>\n | 2 | 4
-- edits are answered
append / /q * open\nwithdraw / 9\n | 100 | 0 | 100 | 0 | end        | event 1\nedited 7\nevent 2\nedited 9\n | 2 | 2
withdraw / 901\nwithdraw / 902\n   | 100 | 0 | 100 | 0 | end        | event 1\nedit refused 1\nevent 2\nedit refused 2\n | 2 | 2
withdraw / 903\nappend / q * open\n | 100 | 0 | 100 | 0 | script 2  | event 1\nedit refused 3\n         | 1 | 1
-- a line that cannot be read is told by its number among all lines
open 1\nopen x\nopen 2\n            | 100 | 0 | 100 | 0 | script 2    | event 1\n                           | 1 | 1
# a\n\nx\n                          | 100 | 0 | 100 | 0 | script 3    | ""                                  | 1 | 0
open 1\nopen                        | 100 | 0 | 100 | 0 | script 2    | event 1\n                           | 2 | 1
-- so is one whose event is refused for its connection, which has no text
open 1\nopen 902\nopen 2\n          | 100 | 0 | 100 | 0 | script 2    | event 1\n                           | 1 | 1
open 1\n\nopen 903\n                | 100 | 0 | 100 | 0 | script 3    | event 1\n                           | 1 | 1
send 1 ?2\n                         | 100 | 0 | 100 | 0 | script 1    | ""                                  | 1 | 0
end 912\n                           | 100 | 0 | 100 | 0 | script 1    | ""                                  | 1 | 0
lost 923\n                          | 100 | 0 | 100 | 0 | script 1    | ""                                  | 1 | 0
-- an event that wants memory, or finds what takes it stopped, is want of memory
open 1\nopen 904\nopen 2\n          | 100 | 0 | 100 | 0 | no memory   | event 1\n                           | 1 | 1
open 1\nsend 1 ?1\n                 | 100 | 0 | 100 | 0 | no memory   | event 1\n                           | 1 | 1
-- the text of a line is written before more is read
open 1\nopen 2\n                    | 1   | 0 | 100 | 0 | end         | event 1\nevent 2\n                  | 15 | 2
-- each read fails in turn: the line under way is the one that cannot be read
open 1\nopen 2\n                    | 7   | 1 | 100 | 0 | script 1    | ""                                  | 1 | 0
open 1\nopen 2\n                    | 7   | 2 | 100 | 0 | script 2    | event 1\n                           | 2 | 1
open 1\nopen 2\n                    | 7   | 3 | 100 | 0 | script 3    | event 1\nevent 2\n                  | 3 | 2
open 1\nopen 2                      | 10  | 2 | 100 | 0 | script 2    | event 1\n                           | 2 | 1
-- each write fails in turn, and no event follows
open 1\nopen 2\n                    | 100 | 0 | 4   | 1 | output      | ""                                  | 1 | 1
open 1\nopen 2\n                    | 100 | 0 | 4   | 2 | output      | even                                | 1 | 2
open 1\nopen 2\n                    | 100 | 0 | 4   | 3 | output      | event 1\n                           | 1 | 3
open 1\nopen 2\n                    | 100 | 0 | 4   | 4 | output      | event 1\neven                       | 1 | 4
open 1\nopen 2\n                    | 100 | 0 | 4   | 5 | end         | event 1\nevent 2\n                  | 2 | 4
"#;

#[test]
fn a_script_is_replayed_until_it_ends_or_fails(rt: HostRuntime) -> Result<(), Strays> {
    hold(&rt, &[ROWS], &Replays)
}

/// The same columns, at the maximum number of reads.
const MANY: &str = r#"
open 1\n#\{999992*a}   | 1 | 0 | 100 | 0 | script 2 | event 1\n | 1000000 | 1
open 1\n#\{999991*a}   | 1 | 0 | 100 | 0 | end      | event 1\n | 1000000 | 1
"#;

#[test]
fn a_script_is_read_in_at_most_a_million_reads(rt: HostRuntime) -> Result<(), Strays> {
    hold(&rt, &[MANY], &Replays)
}
