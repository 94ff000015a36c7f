//! The lines of a stream.

use std::alloc::Global;
use sv_rows::{Asks, Draft, Strays, cell, hold, unescaped};
use sv_streams::{LineReader, LinesFault, MemoryStream};
use sv_text::NoMemory;

/// Answers with the lines of a stream in angle brackets, the reason for their end, and the number of reads.
struct Lines;

impl Asks for Lines {
    const QUESTION: usize = 3;

    fn answer(&self, alloc: Global, row: &str, answer: &mut Vec<u8>) -> Result<(), NoMemory> {
        let text = unescaped(alloc, cell(row, 0))?;
        let piece = cell(row, 1).parse::<usize>().unwrap_or(1).max(1);
        let failing = cell(row, 2).parse::<u64>().unwrap_or(0);
        let mut stream = MemoryStream::new(alloc, text, piece, failing);
        let mut told = Draft::new(alloc);
        tell_lines(alloc, &mut stream, &mut told);
        told.add(" | ");
        told.add_shown(&stream.calls());
        told.add_to(answer)
    }
}

fn tell_lines(alloc: Global, stream: &mut MemoryStream, told: &mut Draft) {
    let mut lines = LineReader::new(alloc);
    for _ in 0..1000 {
        match lines.next_line(stream) {
            Ok(Some(line)) => {
                told.add("<");
                told.add_bytes(line.as_slice());
                told.add(">");
            }
            Ok(None) => {
                told.add(" end");
                return;
            }
            Err(LinesFault::ReadFailed) => {
                told.add(" failed");
                return;
            }
            Err(LinesFault::TooManyReads) => {
                told.add(" too many");
                return;
            }
            Err(LinesFault::NoMemory) => {
                told.fail();
                return;
            }
        }
    }
}

/// The columns: text; bytes per read; failing read; lines and end; number of reads.
const ROWS: &str = r#"
a\nb\n        | 100 | 0 | <a><b> end     | 2
a\nb          | 100 | 0 | <a><b> end     | 2
""            | 100 | 0 | \x20end        | 1
\n            | 100 | 0 | <> end         | 2
\n\n          | 100 | 0 | <><> end       | 2
a\n\nb        | 100 | 0 | <a><><b> end   | 2
-- a carriage return belongs to the line
a\r\nb\r      | 100 | 0 | <a\r><b\r> end | 2
-- a line is read in as many reads as it needs, and the source no more than that
ab\nc         | 1   | 0 | <ab><c> end    | 5
ab\nc\n       | 1   | 0 | <ab><c> end    | 6
ab\nc         | 2   | 0 | <ab><c> end    | 3
ab\nc         | 3   | 0 | <ab><c> end    | 3
-- each read fails in turn
ab\nc         | 1   | 1 | \x20failed     | 1
ab\nc         | 1   | 2 | \x20failed     | 2
ab\nc         | 1   | 3 | \x20failed     | 3
ab\nc         | 1   | 4 | <ab> failed    | 4
ab\nc         | 1   | 5 | <ab> failed    | 5
ab\nc         | 1   | 6 | <ab><c> end    | 5
"#;

#[test]
fn lines_are_the_input_split_at_line_feeds(rt: HostRuntime) -> Result<(), Strays> {
    hold(&rt, &[ROWS], &Lines)
}

/// The columns: text; bytes per read; failing read; lines and end; number of reads.
const MANY: &str = r#"
\{999998*a}\n     | 1 | 0 | <\{999998*a}> end | 1000000
\{999999*a}\n     | 1 | 0 | <\{999999*a}> too many | 1000000
\{1000000*a}\n    | 1 | 0 | \x20too many      | 1000000
"#;

#[test]
fn a_stream_is_read_at_most_a_million_times(rt: HostRuntime) -> Result<(), Strays> {
    hold(&rt, &[MANY], &Lines)
}
