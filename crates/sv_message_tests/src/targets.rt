//! The canonical paths of targets.

use std::alloc::Global;
use sv_rows::{Asks, cell, unescaped};
use sv_text::{NoMemory, Text};
use sv_uri::canon;
use sv_uri::fault::CanonFault;

/// Answers with the canonical path of a target and its query, or `-` for none; or with its fault and `-`.
pub struct Targets;

impl Asks for Targets {
    const QUESTION: usize = 1;

    fn answer(&self, alloc: Global, row: &str, answer: &mut Vec<u8>) -> Result<(), NoMemory> {
        let read = read(alloc, cell(row, 0))?;
        answer.extend_from_slice(read.as_bytes())?;
        Ok(())
    }
}

/// Returns the path of a target or its fault and, after a bar, its query, or `-` for none.
fn read(alloc: Global, target: &str) -> Result<String, NoMemory> {
    let target = unescaped(alloc, target)?;
    match canon(alloc, target.as_slice()) {
        Ok(canon) => {
            let query = canon.query.as_ref().map_or("-", Text::as_str);
            Ok(format!(in alloc; "{} | {query}", canon.path)?)
        }
        Err(CanonFault::Path(fault)) => Ok(format!(in alloc; "{fault} | -")?),
        Err(CanonFault::NoMemory) => Err(NoMemory),
    }
}

/// Answers with the canonical path of a target or its fault, and `-` if that is the standard's answer in the cells
/// after the target. Otherwise the reason of the row follows.
pub struct Compared;

impl Asks for Compared {
    const QUESTION: usize = 3;

    fn answer(&self, alloc: Global, row: &str, answer: &mut Vec<u8>) -> Result<(), NoMemory> {
        let read = read(alloc, cell(row, 0))?;
        let (ours, _) = read.as_str().split_once(" | ").unwrap_or(("", ""));
        answer.extend_from_slice(ours.as_bytes())?;
        answer.extend_from_slice(b" | ")?;
        answer.extend_from_slice(reason(row, ours).as_bytes())?;
        Ok(())
    }
}

/// Returns `-` if our answer is the standard's, or else the reason that the row gives for the difference.
fn reason<'a>(row: &'a str, ours: &str) -> &'a str {
    let reason = cell(row, 4);
    if is_standard_answer(ours, cell(row, 1), cell(row, 2)) {
        "-"
    } else if reason == "-" {
        "a reason is wanted"
    } else {
        reason
    }
}

/// Returns whether our answer is the standard's: a refusal if the target is suspicious, or else the same path.
fn is_standard_answer(ours: &str, path: &str, suspicious: &str) -> bool {
    if suspicious == "400" {
        !ours.starts_with('/')
    } else {
        ours == path
    }
}
