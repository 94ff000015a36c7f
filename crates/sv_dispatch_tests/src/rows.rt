//! Dispatches in tables.

use crate::answers::{Asking, answer_all};
use std::alloc::Global;
use sv_rows::{Asks, Strays, cell, hold};
use sv_text::NoMemory;

/// Answers with the results of dispatched requests. The first three cells of a row declare the context.
pub struct Dispatches;

impl Asks for Dispatches {
    const QUESTION: usize = 4;

    fn answer(&self, alloc: Global, row: &str, answer: &mut Vec<u8>) -> Result<(), NoMemory> {
        answer_all(alloc, row, cell(row, 3), Asking::Dispatched, answer)
    }
}

/// Answers with the responses to requests, including their error pages.
pub struct Answers;

impl Asks for Answers {
    const QUESTION: usize = 4;

    fn answer(&self, alloc: Global, row: &str, answer: &mut Vec<u8>) -> Result<(), NoMemory> {
        answer_all(alloc, row, cell(row, 3), Asking::Answered, answer)
    }
}
