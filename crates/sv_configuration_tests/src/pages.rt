//! The pages for errors.

use std::alloc::Global;
use sv_descriptor::{Descriptor, read_descriptor};
use sv_error_pages::page_for;
use sv_rows::{Asks, Strays, cell, hold};
use sv_text::NoMemory;

/// Answers with the page for a status and a kind, or `-` for none.
#[derive(Drop)]
struct Pages(Descriptor);

impl Asks for Pages {
    const QUESTION: usize = 2;

    fn answer(&self, _alloc: Global, row: &str, answer: &mut Vec<u8>) -> Result<(), NoMemory> {
        let status = cell(row, 0).parse::<u16>().unwrap_or(0);
        let page = page_for(&self.0, status, kind_of(cell(row, 1)));
        answer.extend_from_slice(page.unwrap_or("-").as_bytes())?;
        Ok(())
    }
}

/// Returns the kind of a cell, if it has one.
fn kind_of(cell: &str) -> Option<&str> {
    if cell == "-" { None } else { Some(cell) }
}

/// Compares the rows with the pages of the descriptor.
fn hold_of<R: Eprint + AllocGlobal>(rt: &R, descriptor: &str, rows: &str) -> Result<(), Strays> {
    match read_descriptor(rt.alloc(), descriptor) {
        Ok(descriptor) => hold(rt, &[rows], &Pages(descriptor)),
        Err(_) => Err(Strays::NoMemory),
    }
}

const SEVERAL: &str = r#"
error-page = [
    { location = "/any" },
    { error-code = 404, location = "/missing?x=1" },
    { error-code = 404, location = "/later" },
    { exception-type = "K", location = "/k" },
    { exception-type = "K", location = "/k2" },
    { error-code = 500, location = "/failed" },
    { location = "/any2" },
]
"#;

/// The columns: status; kind; page.
const SEVERAL_ROWS: &str = r#"
-- Servlet, section 10.9.2: by the type of the exception, else by the status, else the page with neither; of several the first
404 | -     | /missing?x=1
500 | -     | /failed
503 | -     | /any
400 | -     | /any
500 | K     | /k
404 | K     | /k
500 | L     | /failed
503 | L     | /any
500 | k     | /failed
500 | KK    | /failed
500 | ""    | /failed
"#;

#[test]
fn an_error_page_is_chosen_by_kind_then_status_then_default(rt: HostRuntime) -> Result<(), Strays> {
    hold_of(&rt, SEVERAL, SEVERAL_ROWS)
}

const TWO: &str = r#"
error-page = [
    { error-code = 404, location = "/missing" },
    { exception-type = "K", location = "/k" },
]
"#;

/// The columns: status; kind; page.
const TWO_ROWS: &str = r#"
404 | -     | /missing
404 | L     | /missing
500 | -     | -
500 | L     | -
503 | -     | -
-- the kind goes before the status, wherever the page stands, and an error that is no fault has none
404 | K     | /k
503 | K     | /k
"#;

#[test]
fn an_error_may_have_no_page(rt: HostRuntime) -> Result<(), Strays> {
    hold_of(&rt, TWO, TWO_ROWS)
}
