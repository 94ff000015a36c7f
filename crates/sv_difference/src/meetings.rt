//! Paths with their rows in two access tables.

ghost use Rattle.std.specs.Prelude.{◌≡◌, ◌++◌, [], IfOk, OnOk, fold};
ghost use Rattle.std.specs.List.{list_any};
ghost use Rattle.sv_mapping.specs.BestMatch.{best_pattern};
ghost use Rattle.sv_text.specs.Gives.{GivesAnswer};
ghost use Rattle.sv_difference.specs.Differences as spec;

use crate::difference::Side;
use std::alloc::Global;
use sv_audit::{Row, best_text, is_same};
use sv_mapping::{Pattern, PatternFault, PatternTable};
use sv_text::{NoMemory, Text};

/// A path with the patterns of its rows in two tables.
#[derive(Drop)]
pub(crate) struct Meeting {
    /// What follows the context path in the path of a request.
    pub(crate) path: Text,
    /// The pattern of its row before, or none if no pattern matches.
    pub(crate) before: Option<Text>,
    /// The pattern of its row after, or none if no pattern matches.
    pub(crate) after: Option<Text>,
}

/// Returns each pair of rows that share one of the paths, with the first of these.
pub(crate) fn meetings(
    alloc: Global,
    paths: &[Text],
    befores: &[Row],
    afters: &[Row],
) -> Result<Vec<Meeting>, NoMemory>
    ensures { IfOk result (λ found. found.items ≡ spec.meetings (spec.url_patterns befores.now) (spec.url_patterns afters.now) paths.now) }
{
    let before = PatternTable::compile(alloc, url_patterns(alloc, befores)?.as_slice())?;
    let after = PatternTable::compile(alloc, url_patterns(alloc, afters)?.as_slice())?;
    meetings_at(alloc, &before, &after, paths)
}

/// Returns the URL patterns of the rows of both tables.
pub(crate) fn patterns_of(
    alloc: Global,
    before: &Side,
    after: &Side,
) -> Result<Vec<Pattern>, NoMemory>
    ensures { IfOk result (λ patterns. patterns.items ≡ spec.patterns_of before.now after.now) }
{
    let mut patterns = url_patterns(alloc, before.table.rows.as_slice())?;
    push_url_patterns(&mut patterns, alloc, after.table.rows.as_slice())?;
    Ok(patterns)
}

/// Returns the patterns of the rows whose texts are URL patterns.
fn url_patterns(alloc: Global, rows: &[Row]) -> Result<Vec<Pattern>, NoMemory>
    ensures { IfOk result (λ patterns. patterns.items ≡ spec.url_patterns rows.now) }
{
    let mut patterns = Vec::new(alloc);
    push_url_patterns(&mut patterns, alloc, rows)?;
    Ok(patterns)
}

fn push_url_patterns(
    patterns: &mut Vec<Pattern>,
    alloc: Global,
    rows: &[Row],
) -> Result<(), NoMemory>
    ensures { OnOk result (patterns.new.items ≡ patterns.old.items ++ spec.url_patterns rows.now) }
{
    for row in rows {
        push_url_pattern(patterns, alloc, row)?;
    }
    Ok(())
}

fn push_url_pattern(patterns: &mut Vec<Pattern>, alloc: Global, row: &Row) -> Result<(), NoMemory>
    ensures { OnOk result (patterns.new.items ≡ patterns.old.items ++ spec.url_pattern row.now) }
{
    let Some(text) = &row.pattern else {
        return Ok(());
    };
    match Pattern::parse(alloc, text.as_str()) {
        Ok(pattern) => {
            patterns.push(pattern)?;
            Ok(())
        }
        Err(PatternFault::NoMemory) => Err(NoMemory),
        Err(PatternFault::BadPattern) => Ok(()),
    }
}

/// Returns the first of the paths of each pair of rows.
fn meetings_at(
    alloc: Global,
    before: &PatternTable,
    after: &PatternTable,
    paths: &[Text],
) -> Result<Vec<Meeting>, NoMemory>
    ensures { IfOk result (λ found. found.items ≡ fold (spec.met before.now after.now) [] paths.now) }
{
    let mut meetings = Vec::new(alloc);
    for path in paths {
        push_meeting(&mut meetings, alloc, before, after, path.as_str())?;
    }
    Ok(meetings)
}

/// Appends the meeting of a path, unless its rows have met.
fn push_meeting(
    meetings: &mut Vec<Meeting>,
    alloc: Global,
    before: &PatternTable,
    after: &PatternTable,
    path: &str,
) -> Result<(), NoMemory>
    ensures { OnOk result (meetings.new.items ≡ spec.met before.now after.now meetings.old.items path.now) }
{
    let meeting = meeting_of(alloc, before, after, path)?;
    if !have_met(meetings.as_slice(), &meeting) {
        meetings.push(meeting)?;
    }
    Ok(())
}

/// Returns whether the rows of the meeting are among those of the others.
fn have_met(meetings: &[Meeting], meeting: &Meeting) -> bool
    ensures { result ≡ list_any (spec.same_rows meeting.now) meetings.now }
{
    meetings.iter().any(|other| same_rows(meeting, other))
}

fn same_rows(meeting: &Meeting, other: &Meeting) -> bool
    ensures { result ≡ spec.same_rows meeting.now other.now }
{
    is_same(&meeting.before, &other.before) && is_same(&meeting.after, &other.after)
}

fn meeting_of(
    alloc: Global,
    before: &PatternTable,
    after: &PatternTable,
    path: &str,
) -> Result<Meeting, NoMemory>
    ensures { GivesAnswer result (spec.meeting_of before.now after.now path.now) }
{
    Ok(Meeting {
        path: Text::copy_of(alloc, path)?,
        before: copied_best(alloc, before, row_path(path))?,
        after: copied_best(alloc, after, row_path(path))?,
    })
}

/// Returns the path within a context of a request, by what follows the context path (Jakarta Servlet 6.0, section 3.5).
fn row_path(path: &str) -> &str
    ensures { result.now ≡ spec.row_path path.now }
{
    if path.is_empty() { "/" } else { path }
}

/// Copies the text of the best match for a path, if there is one.
fn copied_best(alloc: Global, patterns: &PatternTable, path: &str) -> Result<Option<Text>, NoMemory>
    ensures { GivesAnswer result (best_pattern patterns.now path.now) }
{
    match best_text(patterns, path) {
        Some(text) => Ok(Some(Text::copy_of(alloc, text)?)),
        None => Ok(None),
    }
}
