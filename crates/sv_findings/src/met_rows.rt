//! The rows of an access table that requests meet.

ghost use Rattle.std.specs.Prelude.{◌≡◌, IfOk, filter, map};
ghost use Rattle.sv_text.specs.Gives.{GivesAnswer};
ghost use Rattle.sv_findings.specs.MetRows as spec;

use crate::dead::decides_nothing;
use crate::listed_patterns::ListedPatterns;
use crate::reach::{Reach, Reaches};
use std::alloc::Global;
use sv_audit::Row;
use sv_text::{NoMemory, Text};

/// Returns the rows of the patterns that some requests may reach and have as their best match, given the patterns of all
/// constraints.
pub fn met_rows<'a>(
    alloc: Global,
    reaches: &Reaches<'_>,
    listed: &ListedPatterns<'_>,
    rows: &'a [Row],
) -> Result<Vec<&'a Row>, NoMemory>
    ensures { IfOk result (λ met. map (λ row. row.now) met.items ≡ filter (spec.is_row_met reaches.now.0 reaches.now.1 listed.now) rows.now) }
{
    let mut met = Vec::new(alloc);
    for row in rows {
        if is_pattern_met(alloc, reaches, listed, &row.pattern)? {
            met.push(row)?;
        }
    }
    Ok(met)
}

fn is_pattern_met(
    alloc: Global,
    reaches: &Reaches<'_>,
    listed: &ListedPatterns<'_>,
    pattern: &Option<Text>,
) -> Result<bool, NoMemory>
    ensures { GivesAnswer result (spec.is_pattern_met reaches.now.0 reaches.now.1 listed.now pattern.now) }
{
    match pattern {
        Some(pattern) => is_met(alloc, reaches, listed, pattern.as_str()),
        None => Ok(false),
    }
}

/// Returns whether some requests may reach a pattern of a context and have it as their best match, given the patterns
/// of all constraints.
///
/// # Errors
/// `NoMemory` if memory runs out.
pub fn is_met(
    alloc: Global,
    reaches: &Reaches<'_>,
    listed: &ListedPatterns<'_>,
    pattern: &str,
) -> Result<bool, NoMemory>
    ensures { GivesAnswer result (spec.is_met reaches.now.0 reaches.now.1 listed.now pattern.now) }
{
    if decides_nothing(listed, pattern) {
        Ok(false)
    } else {
        reaches.is_reached(alloc, pattern)
    }
}

/// Returns whether requests meet a pattern of a context, given the patterns of all constraints. They do unless no
/// canonical path has it as its best match, or the pattern is not reached.
///
/// # Errors
/// `NoMemory` if memory runs out.
pub fn row_reach(
    alloc: Global,
    reaches: &Reaches<'_>,
    listed: &ListedPatterns<'_>,
    pattern: &str,
) -> Result<Reach, NoMemory>
    ensures { GivesAnswer result (spec.row_reach reaches.now.0 reaches.now.1 listed.now pattern.now) }
{
    if decides_nothing(listed, pattern) {
        Ok(Reach::Unmatched)
    } else {
        reaches.reach(alloc, pattern)
    }
}
