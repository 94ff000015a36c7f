//! Comparing the rows of tables with their answers.

use crate::cells::{is_row, shown};
use crate::draft::Draft;
use crate::escapes::add_unescaped;
use std::alloc::Global;
use sv_text::NoMemory;

/// A question that a test asks for each row of a table.
pub trait Asks {
    /// Number of cells in a row's question. The expected answer is in the cells after them.
    const QUESTION: usize;

    /// Writes the answer to a row's question: its cells, separated by ` | `.
    fn answer(&self, alloc: Global, row: &str, answer: &mut Vec<u8>) -> Result<(), NoMemory>;
}

/// The reason why a test of tables fails.
#[derive(Clone, Copy, Debug)]
pub enum Strays {
    /// The number of rows with an unexpected answer. A table without rows counts as one.
    Rows(u64),
    /// Memory ran out.
    NoMemory,
}

impl From<NoMemory> for Strays {
    fn from(_: NoMemory) -> Strays {
        Strays::NoMemory
    }
}

/// Asks for the answer to each row of the tables, and prints the rows with an unexpected answer, each with its answer.
pub fn hold<R: Eprint + AllocGlobal, A: Asks>(
    rt: &R,
    tables: &[&str],
    asked: &A,
) -> Result<(), Strays> {
    let mut strays = 0u64;
    for table in tables {
        strays = strays.saturating_add(strays_of(rt, table, asked)?);
    }
    if strays == 0 {
        Ok(())
    } else {
        Err(Strays::Rows(strays))
    }
}

/// Returns the number of rows of a table with an unexpected answer, or 1 if the table has no rows.
fn strays_of<R: Eprint + AllocGlobal, A: Asks>(
    rt: &R,
    table: &str,
    asked: &A,
) -> Result<u64, NoMemory> {
    let mut rows = 0u64;
    let mut strays = 0u64;
    for row in table.lines() {
        if is_row(row) {
            rows = rows.saturating_add(1);
            strays = strays.saturating_add(u64::from(is_stray(rt, row, asked)?));
        }
    }
    Ok(if rows == 0 { 1 } else { strays })
}

/// Returns whether the answer to a row is unexpected, and prints it if so.
fn is_stray<R: Eprint + AllocGlobal, A: Asks>(
    rt: &R,
    row: &str,
    asked: &A,
) -> Result<bool, NoMemory> {
    let mut answer = Vec::new(rt.alloc());
    asked.answer(rt.alloc(), row, &mut answer)?;
    let wanted = wanted(rt.alloc(), row, A::QUESTION)?;
    let is_stray = answer.as_slice() != wanted.as_slice();
    if is_stray {
        tell(rt, row, answer.as_slice());
    }
    Ok(is_stray)
}

/// Prints a row and its answer. If printing fails, the row is still counted.
fn tell<R: Eprint + AllocGlobal>(rt: &R, row: &str, answer: &[u8]) {
    if let Ok(answer) = String::from_utf8_lossy(rt.alloc(), answer) {
        let _ = eprintln!(rt; "{row} but {answer}");
    }
}

/// Returns the expected answer of a row.
fn wanted(alloc: Global, row: &str, question: usize) -> Result<Vec<u8>, NoMemory> {
    let mut wanted = Draft::new(alloc);
    for (place, cell) in row.split('|').skip(question).enumerate() {
        if place > 0 {
            wanted.add(" | ");
        }
        add_unescaped(&mut wanted, shown(cell));
    }
    wanted.finish()
}
