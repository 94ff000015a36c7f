//! The notes on findings that a page does not list, and on those that are not looked for.

ghost use Rattle.std.specs.Prelude.{◌≡◌, ◌++◌, OnOk, string_bytes};
ghost use Rattle.std.specs.List.{flat_map};
ghost use Rattle.sv_text.specs.Gives.{GivesAnswer};
ghost use Rattle.sv_page.specs.LeftOut as spec;

use crate::markup::html_text;
use crate::shares::{MAX_LISTED_FINDINGS, first_of};
use std::alloc::Global;
use sv_findings::Unsearched;
use sv_report::{ContextReport, ReportedFinding, joined, number_text, unsearched_text};
use sv_text::{NoMemory, Text};
use sv_uri::shown_context;

/// Returns a note for each context of which the page does not list all findings, and one for each kind of findings that is
/// not looked for in it.
pub(crate) fn notes_html(alloc: Global, contexts: &[ContextReport]) -> Result<Text, NoMemory>
    ensures { GivesAnswer result (spec.notes_html contexts.now) }
{
    let mut text = String::new(alloc);
    let mut left = MAX_LISTED_FINDINGS;
    for context in contexts {
        let findings = context.findings.as_slice();
        push_note(&mut text, alloc, context, first_of(findings, left))?;
        left = left.saturating_sub(findings.len());
    }
    Ok(Text::from_string(text))
}

/// Appends a note if these are not all findings of a context, and the notes on those that are not looked for.
#[tactic(auto, unfolding(crate::specs::LeftOut::note_of))]
fn push_note(
    text: &mut String,
    alloc: Global,
    context: &ContextReport,
    findings: &[ReportedFinding],
) -> Result<(), NoMemory>
    ensures { OnOk result (string_bytes text.new ≡ string_bytes text.old ++ spec.note_of context.now findings.now) }
{
    let path = shown_context(context.path.as_str());
    let note = left_out_html(
        alloc,
        path,
        findings.len(),
        context.findings.as_slice().len(),
    )?;
    text.push_str(note.as_str())?;
    push_unsearched(text, alloc, path, context.unsearched.as_slice())
}

/// Appends a note for each kind of findings that is not looked for in the context with this path.
fn push_unsearched(
    text: &mut String,
    alloc: Global,
    path: &str,
    kinds: &[Unsearched],
) -> Result<(), NoMemory>
    ensures { OnOk result (string_bytes text.new ≡ string_bytes text.old ++ flat_map (spec.unsearched_html path.now) kinds.now) }
{
    for kind in kinds {
        let note = unsearched_html(alloc, path, kind)?;
        text.push_str(note.as_str())?;
    }
    Ok(())
}

#[tactic(auto, unfolding(crate::specs::LeftOut::unsearched_html))]
fn unsearched_html(alloc: Global, path: &str, kind: &Unsearched) -> Result<Text, NoMemory>
    ensures { GivesAnswer result (spec.unsearched_html path.now kind.now) }
{
    let path = html_text(alloc, path)?;
    joined(
        alloc,
        &[
            "<p>Not looked for in <code>",
            path.as_str(),
            "</code>: ",
            unsearched_text(kind),
            ".</p>\n",
        ],
    )
}

/// Returns a note if not all findings of a context are listed, given how many are listed and how many there are.
fn left_out_html(alloc: Global, path: &str, listed: usize, count: usize) -> Result<Text, NoMemory>
    ensures { GivesAnswer result (spec.left_out_html path.now listed count) }
{
    if listed == count {
        Text::copy_of(alloc, "")
    } else if listed == 0 {
        none_listed(alloc, path, count)
    } else {
        first_listed(alloc, path, listed, count)
    }
}

#[tactic(auto, unfolding(crate::specs::LeftOut::none_listed))]
fn none_listed(alloc: Global, path: &str, count: usize) -> Result<Text, NoMemory>
    ensures { GivesAnswer result (spec.none_listed path.now count) }
{
    let path = html_text(alloc, path)?;
    let count = number_text(alloc, count as u64)?;
    let most = number_text(alloc, MAX_LISTED_FINDINGS as u64)?;
    joined(
        alloc,
        &[
            "<p>None of the ",
            count.as_str(),
            " findings of <code>",
            path.as_str(),
            "</code> are listed: the page lists ",
            most.as_str(),
            " findings at most.</p>\n",
        ],
    )
}

#[tactic(auto, unfolding(crate::specs::LeftOut::first_listed))]
fn first_listed(alloc: Global, path: &str, listed: usize, count: usize) -> Result<Text, NoMemory>
    ensures { GivesAnswer result (spec.first_listed path.now listed count) }
{
    let path = html_text(alloc, path)?;
    let listed = number_text(alloc, listed as u64)?;
    let count = number_text(alloc, count as u64)?;
    joined(
        alloc,
        &[
            "<p>Only the first ",
            listed.as_str(),
            " of ",
            count.as_str(),
            " findings of <code>",
            path.as_str(),
            "</code> are listed.</p>\n",
        ],
    )
}
