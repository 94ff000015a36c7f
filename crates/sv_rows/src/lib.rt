//! Test tables: rows of plain text, and the comparison of each with its answer.
#![tactic(auto)]

mod cells;
mod descriptors;
mod draft;
mod escapes;
mod run;

pub use cells::cell;
pub use descriptors::{BAD, DEMO, TWO};
pub use draft::Draft;
pub use escapes::{add_unescaped, unescaped, unescaped_text};
pub use run::{Asks, Strays, hold};
