//! Writing a text to a stream.

use std::alloc::Global;
use sv_rows::{Asks, Draft, Strays, cell, hold, unescaped};
use sv_streams::{MemoryStream, write_all};
use sv_text::NoMemory;

/// Answers with the bytes that a stream took of a text, whether the text was written, and the number of writes.
struct Writes;

impl Asks for Writes {
    const QUESTION: usize = 3;

    fn answer(&self, alloc: Global, row: &str, answer: &mut Vec<u8>) -> Result<(), NoMemory> {
        let text = unescaped(alloc, cell(row, 0))?;
        let piece = cell(row, 1).parse::<usize>().unwrap_or(1).max(1);
        let failing = cell(row, 2).parse::<u64>().unwrap_or(0);
        let mut stream = MemoryStream::new(alloc, Vec::new(alloc), piece, failing);
        let is_written = write_all(&mut stream, text.as_slice()).is_ok();
        let mut told = Draft::new(alloc);
        told.add_bytes(stream.written());
        told.add(if is_written {
            " | written | "
        } else {
            " | failed | "
        });
        told.add_shown(&stream.calls());
        told.add_to(answer)
    }
}

/// The columns: text; bytes per write; failing write; bytes taken; whether the text was written; number of writes.
const ROWS: &str = r#"
abc | 100 | 0 | abc | written | 1
abc | 3   | 0 | abc | written | 1
abc | 2   | 0 | abc | written | 2
abc | 1   | 0 | abc | written | 3
""  | 1   | 0 | ""  | written | 0
""  | 1   | 1 | ""  | written | 0
-- each write fails in turn
abc | 1   | 1 | ""  | failed  | 1
abc | 1   | 2 | a   | failed  | 2
abc | 1   | 3 | ab  | failed  | 3
abc | 1   | 4 | abc | written | 3
abc | 2   | 2 | ab  | failed  | 2
"#;

#[test]
fn a_text_is_written_until_a_write_fails(rt: HostRuntime) -> Result<(), Strays> {
    hold(&rt, &[ROWS], &Writes)
}
