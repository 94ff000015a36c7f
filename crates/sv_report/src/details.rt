//! What the row of an access table means for paths.

ghost use Rattle.std.specs.Prelude.{◌≡◌, ◌++◌, OnOk, string_bytes};
ghost use Rattle.std.specs.List.{flat_map};
ghost use Rattle.sv_text.specs.Gives.{GivesAnswer};
ghost use Rattle.sv_report.specs.Details as spec;

use crate::answer_words::{elsewhere_text, servlet_text};
use crate::parts::{joined, push_all};
use crate::report::ReportedRow;
use crate::words::shown_pattern;
use std::alloc::Global;
use sv_audit::Narrower;
use sv_text::{NoMemory, Text};
use sv_uri::location;

/// Returns the line of an example, of what answers the paths and of the exceptions of a row, or nothing if there are none.
pub fn detail_line(alloc: Global, context: &str, row: &ReportedRow) -> Result<Text, NoMemory>
    ensures { GivesAnswer result (spec.detail_line context.now row.now) }
{
    let text = detail_text(alloc, context, row)?;
    if text.as_str().is_empty() {
        return Ok(text);
    }
    joined(alloc, &["  ", text.as_str(), "\n"])
}

/// Returns an example of a row with what answers it, what answers its other paths, and the exceptions.
#[tactic(auto, unfolding(crate::specs::Details::detail_text))]
fn detail_text(alloc: Global, context: &str, row: &ReportedRow) -> Result<Text, NoMemory>
    ensures { GivesAnswer result (spec.detail_text context.now row.now) }
{
    let example = answered_example(alloc, context, row)?;
    let elsewhere = elsewhere_text(alloc, row)?;
    let answers = both(alloc, example.as_str(), elsewhere.as_str())?;
    let exceptions = exceptions_text(alloc, &row.narrower)?;
    both(alloc, answers.as_str(), exceptions.as_str())
}

/// Returns an example and the exceptions of a row, separated by a semicolon.
///
/// # Errors
/// `NoMemory` if memory runs out.
#[tactic(auto, unfolding(crate::specs::Details::paths_text))]
pub fn paths_text(alloc: Global, context: &str, row: &ReportedRow) -> Result<Text, NoMemory>
    ensures { GivesAnswer result (spec.paths_text context.now row.now) }
{
    let example = example_location(alloc, context, &row.example)?;
    let example = example_text(alloc, &example)?;
    let exceptions = exceptions_text(alloc, &row.narrower)?;
    both(alloc, example.as_str(), exceptions.as_str())
}

/// Joins two parts, with a semicolon between them if neither is empty.
#[tactic(auto, unfolding(crate::specs::Details::both))]
fn both<'a>(alloc: Global, first: &'a str, second: &'a str) -> Result<Text, NoMemory>
    ensures { GivesAnswer result (spec.both first.now second.now) }
{
    let between = between(first, second);
    joined(alloc, &[first, between, second])
}

fn between<'a>(first: &'a str, second: &'a str) -> &'a str
    ensures { result.now ≡ spec.between first.now second.now }
{
    if first.is_empty() || second.is_empty() {
        ""
    } else {
        "; "
    }
}

fn answered_example(alloc: Global, context: &str, row: &ReportedRow) -> Result<Text, NoMemory>
    ensures { GivesAnswer result (spec.answered_example context.now row.now) }
{
    let example = example_location(alloc, context, &row.example)?;
    answered_text(alloc, &example, &row.servlet)
}

/// Returns the path of a row as a client requests it, with the path of its context.
pub fn example_location(
    alloc: Global,
    context: &str,
    example: &Option<Text>,
) -> Result<Option<Text>, NoMemory>
    ensures { GivesAnswer result (spec.example_location context.now example.now) }
{
    let Some(path) = example else {
        return Ok(None);
    };
    let path = joined(alloc, &[context, path.as_str()])?;
    let place = location(alloc, path.as_str())?;
    Ok(Some(Text::from_string(place)))
}

fn example_text(alloc: Global, example: &Option<Text>) -> Result<Text, NoMemory>
    ensures { GivesAnswer result (spec.example_text example.now) }
{
    match example {
        None => Text::copy_of(alloc, ""),
        Some(place) => joined(alloc, &["such as ", place.as_str()]),
    }
}

fn answered_text(
    alloc: Global,
    example: &Option<Text>,
    servlet: &Option<Text>,
) -> Result<Text, NoMemory>
    ensures { GivesAnswer result (spec.answered_text example.now servlet.now) }
{
    match example {
        None => Text::copy_of(alloc, ""),
        Some(place) => answered_place(alloc, place.as_str(), servlet),
    }
}

fn answered_place(alloc: Global, place: &str, servlet: &Option<Text>) -> Result<Text, NoMemory>
    ensures { GivesAnswer result (spec.answered_text (Some place.now) servlet.now) }
{
    let servlet = servlet_text(alloc, servlet)?;
    joined(
        alloc,
        &["such as ", place, ", answered by ", servlet.as_str()],
    )
}

/// Returns the patterns that are chosen before the pattern of a row.
fn exceptions_text(alloc: Global, narrower: &Narrower) -> Result<Text, NoMemory>
    ensures { GivesAnswer result (spec.exceptions_text narrower.now) }
{
    let Some((pattern, others)) = narrower.patterns.as_slice().split_first() else {
        return Text::copy_of(alloc, "");
    };
    let pattern = shown_pattern(alloc, pattern.as_str())?;
    let others = other_patterns(alloc, others)?;
    joined(
        alloc,
        &[
            "except ",
            pattern.as_str(),
            others.as_str(),
            ending(narrower.are_all),
        ],
    )
}

fn ending(are_all: bool) -> &'static str
    ensures { result.now ≡ spec.ending are_all }
{
    if are_all { "" } else { ", .." }
}

/// Returns patterns, each after a comma.
fn other_patterns(alloc: Global, others: &[Text]) -> Result<Text, NoMemory>
    ensures { GivesAnswer result (flat_map spec.other_pattern others.now) }
{
    let mut text = String::new(alloc);
    for other in others {
        let pattern = shown_pattern(alloc, other.as_str())?;
        push_all(&mut text, &[", ", pattern.as_str()])?;
    }
    Ok(Text::from_string(text))
}
