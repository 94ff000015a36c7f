//! The form of tables and their rows.

use std::alloc::Global;
use sv_rows::{Asks, Strays, cell, hold, unescaped};
use sv_text::NoMemory;

/// Answers with the first cell of a row, its escapes read, and `-`.
struct Echo;

impl Asks for Echo {
    const QUESTION: usize = 1;

    fn answer(&self, alloc: Global, row: &str, answer: &mut Vec<u8>) -> Result<(), NoMemory> {
        answer.extend_from_slice(unescaped(alloc, cell(row, 0))?.as_slice())?;
        answer.extend_from_slice(b" | -")?;
        Ok(())
    }
}

#[test]
fn cells_and_escapes_are_read(rt: HostRuntime) -> Result<(), Strays> {
    let rows = r#"
-- no row
a b                  |  a b  | -
"a"                  | "a"   | -
""                   | ""    | -
a\r\n\t\\x4\x4a\xFFb | a\x0D\x0A\x09\x5Cx4J\xfFb | -
a\{3*b\n}c\{2*d}    | ab\nb\nb\ncdd | -
a{3*b}               | a{3*b} | -
"#;
    hold(&rt, &[rows, "x | x | -"], &Echo)
}

#[test]
fn a_row_with_another_answer_is_reported(rt: HostRuntime) {
    let held = hold(&rt, &["a | a | -\nb | c | -\nb | b", "-- x"], &Echo);
    assert!(rt; matches!(held, Err(Strays::Rows(3))));
}
