//! The additions of a report to the rows of an access table: an example, the servlet that answers it, what answers the other
//! paths of the row, and the patterns that are chosen before that of the row.

ghost use Rattle.std.specs.Prelude.{◌≡◌, ◌++◌, OnOk, map};
ghost use Rattle.sv_audit.specs.Examples as examples;
ghost use Rattle.sv_text.specs.Gives.{GivesAnswer};
ghost use Rattle.sv_audit_command.specs.RowPaths as spec;

use crate::context_patterns::{ContextPatterns, servlet_at};
use crate::row_answers::{AnsweredPaths, answered_paths, answers_at, borrowed};
use std::alloc::Global;
use sv_audit::{Narrower, Row, example_of, matches_nothing, narrower};
use sv_findings::{ListedPatterns, Reach, Reaches, row_reach};
use sv_mapping::PatternTable;
use sv_report::ReportedRow;
use sv_text::{Listed, NoMemory, Text};

/// The greatest number of patterns of a table whose rows list the patterns that are chosen before theirs.
pub(crate) const MAX_COMPARED_PATTERNS: usize = 2000;

/// The greatest number of patterns that a row lists.
pub(crate) const MAX_NARROWER: usize = 3;

/// The context of rows, next to the other contexts.
#[derive(Drop)]
pub(crate) struct RowPlace<'a> {
    /// The patterns that requests reach.
    pub(crate) reaches: Reaches<'a>,
    /// The patterns of its constraints.
    pub(crate) listed: ListedPatterns<'a>,
    /// The paths of the other contexts within this one, without the path of this one.
    pub(crate) nested: &'a [Text],
}

/// Returns the rows with these additions, given the patterns of the context.
pub(crate) fn reported_rows(
    alloc: Global,
    patterns: &ContextPatterns,
    place: &RowPlace<'_>,
    rows: Listed<Row>,
) -> Result<Listed<ReportedRow>, NoMemory>
    ensures { GivesAnswer result (spec.reported_rows patterns.now place.now.reaches place.now.listed place.now.nested.now rows) }
{
    let answered = answered_paths(alloc, patterns)?;
    let texts = row_patterns(alloc, rows.as_slice())?;
    let others = borrowed(alloc, texts.as_slice())?;
    rows_with(alloc, patterns, &answered, others.as_slice(), place, rows)
}

fn rows_with(
    alloc: Global,
    patterns: &ContextPatterns,
    answered: &Option<AnsweredPaths>,
    others: &[&str],
    place: &RowPlace<'_>,
    rows: Listed<Row>,
) -> Result<Listed<ReportedRow>, NoMemory>
    ensures { GivesAnswer result (map (spec.reported_row patterns.now answered.now (map (λ other. other.now) others.now) place.now.reaches place.now.listed place.now.nested.now) rows) }
{
    let mut reported = Vec::new(alloc);
    for row in rows.into_vec() {
        let row = reported_row(alloc, patterns, answered, others, place, row)?;
        reported.push(row)?;
    }
    Ok(Listed::from_vec(reported))
}

fn reported_row(
    alloc: Global,
    patterns: &ContextPatterns,
    answered: &Option<AnsweredPaths>,
    others: &[&str],
    place: &RowPlace<'_>,
    row: Row,
) -> Result<ReportedRow, NoMemory>
    ensures { GivesAnswer result (spec.reported_row patterns.now answered.now (map (λ other. other.now) others.now) place.now.reaches place.now.listed place.now.nested.now row) }
{
    let example = row_example(alloc, &patterns.constraints, place.nested, &row.pattern)?;
    let servlet = servlet_of(alloc, patterns, &example)?;
    let answers = answers_at(alloc, answered, &row.pattern)?;
    let narrower = row_narrower(alloc, others, &row.pattern)?;
    let reach = reach_at(alloc, place, &row.pattern)?;
    Ok(ReportedRow {
        row,
        example,
        servlet,
        answers,
        narrower,
        reach,
    })
}

/// Returns whether requests meet a pattern. Without a pattern they do.
fn reach_at(alloc: Global, place: &RowPlace<'_>, pattern: &Option<Text>) -> Result<Reach, NoMemory>
    ensures { GivesAnswer result (spec.reach_at place.now.reaches place.now.listed pattern.now) }
{
    match pattern {
        Some(pattern) => row_reach(alloc, &place.reaches, &place.listed, pattern.as_str()),
        None => Ok(Reach::Reached),
    }
}

fn row_example(
    alloc: Global,
    patterns: &PatternTable,
    nested: &[Text],
    pattern: &Option<Text>,
) -> Result<Option<Text>, NoMemory>
    ensures { GivesAnswer result (examples.example patterns.now nested.now pattern.now) }
{
    match pattern {
        Some(pattern) => example_of(alloc, patterns, nested, Some(pattern.as_str())),
        None => example_of(alloc, patterns, nested, None),
    }
}

/// Returns the name of the servlet that answers a path. There is none if there is no path, or if files answer it.
fn servlet_of(
    alloc: Global,
    patterns: &ContextPatterns,
    path: &Option<Text>,
) -> Result<Option<Text>, NoMemory>
    ensures { GivesAnswer result (spec.servlet_of patterns.now path.now) }
{
    match path {
        Some(path) => servlet_at(alloc, patterns, path.as_str()),
        None => Ok(None),
    }
}

/// Returns the patterns that are chosen before this one. In a large table, and without a pattern, none are listed.
fn row_narrower(
    alloc: Global,
    others: &[&str],
    pattern: &Option<Text>,
) -> Result<Narrower, NoMemory>
    ensures { GivesAnswer result (spec.narrower_of (map (λ other. other.now) others.now) pattern.now) }
{
    match pattern {
        Some(pattern) => narrower_in(alloc, others, pattern.as_str()),
        None => Ok(none_listed(alloc)),
    }
}

fn narrower_in(alloc: Global, others: &[&str], pattern: &str) -> Result<Narrower, NoMemory>
    ensures { GivesAnswer result (spec.narrower_in (map (λ other. other.now) others.now) pattern.now) }
{
    if others.len() > MAX_COMPARED_PATTERNS {
        return Ok(none_listed(alloc));
    }
    narrower(alloc, others, pattern, MAX_NARROWER)
}

fn none_listed(alloc: Global) -> Narrower
    ensures { result ≡ spec.none_listed }
{
    Narrower {
        patterns: Listed::from_vec(Vec::new(alloc)),
        are_all: false,
    }
}

/// Copies the patterns of rows.
fn row_patterns(alloc: Global, rows: &[Row]) -> Result<Listed<Text>, NoMemory>
    ensures { GivesAnswer result (spec.row_patterns rows.now) }
{
    let mut patterns = Vec::new(alloc);
    for row in rows {
        push_row_pattern(&mut patterns, alloc, row)?;
    }
    Ok(Listed::from_vec(patterns))
}

/// Appends the pattern of a row, unless it matches no canonical path.
fn push_row_pattern(patterns: &mut Vec<Text>, alloc: Global, row: &Row) -> Result<(), NoMemory>
    ensures { OnOk result (patterns.new.items ≡ patterns.old.items ++ spec.row_pattern row.now) }
{
    let Some(pattern) = &row.pattern else {
        return Ok(());
    };
    if !matches_nothing(pattern.as_str()) {
        patterns.push(Text::copy_of(alloc, pattern.as_str())?)?;
    }
    Ok(())
}
