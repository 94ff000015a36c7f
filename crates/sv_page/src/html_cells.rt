//! The cells of access tables in HTML.

ghost use Rattle.std.specs.Prelude.{◌≡◌, ◌++◌, [], OnOk, string_bytes};
ghost use Rattle.std.specs.List.{flat_map};
ghost use Rattle.sv_text.specs.Gives.{GivesAnswer};
ghost use Rattle.sv_page.specs.HtmlCells as spec;
ghost use Rattle.sv_page.specs.Markup.{html_text as html};
ghost use Rattle.sv_report.specs.AnswerWords as words;
ghost use Rattle.sv_report.specs.Details as row_details;

use crate::cell_words::{class_for, explanation, reason};
use crate::markup::html_text;
use std::alloc::Global;
use sv_audit::Group;
use sv_findings::Reach;
use sv_report::{
    ContextReport, ReportedRow, Viewer, answers_text, context_text, entry_text, hidden_text,
    joined, methods_text, paths_text, pattern_text, unmatched_text,
};
use sv_text::{NoMemory, Text};

/// Returns the row of a pattern: with an example, its exceptions, what answers it and a cell for each group of methods,
/// or with the reason why no request meets it.
#[tactic(auto, unfolding(crate::specs::HtmlCells::row_html))]
pub fn row_html(alloc: Global, context: &ContextReport, row: &ReportedRow) -> Result<Text, NoMemory>
    ensures { GivesAnswer result (spec.row_html context.now row.now) }
{
    let pattern = pattern_text(alloc, &row.row.pattern)?;
    let pattern = html_text(alloc, pattern.as_str())?;
    match &row.reach {
        Reach::Reached => reached_html(alloc, context, row, pattern.as_str()),
        Reach::Hidden => hidden_row(alloc, &context.viewer, pattern.as_str()),
        Reach::Elsewhere(path) => foreign_row(alloc, path.as_str(), pattern.as_str()),
        Reach::Unmatched => unmatched_row(alloc, pattern.as_str()),
    }
}

fn reached_html(
    alloc: Global,
    context: &ContextReport,
    row: &ReportedRow,
    pattern: &str,
) -> Result<Text, NoMemory>
    ensures { GivesAnswer result (spec.reached_html context.now row.now pattern.now) }
{
    let details = paths_html(alloc, context.path.as_str(), row)?;
    let answers = answers_html(alloc, row)?;
    let cells = cells_html(alloc, context, row.row.groups.as_slice())?;
    row_of(
        alloc,
        pattern,
        details.as_str(),
        answers.as_str(),
        cells.as_str(),
    )
}

fn paths_html(alloc: Global, context: &str, row: &ReportedRow) -> Result<Text, NoMemory>
    ensures { GivesAnswer result (html (row_details.paths_text context.now row.now)) }
{
    let paths = paths_text(alloc, context, row)?;
    html_text(alloc, paths.as_str())
}

fn answers_html(alloc: Global, row: &ReportedRow) -> Result<Text, NoMemory>
    ensures { GivesAnswer result (html (words.answers_text row.now.example row.now.servlet row.now.answers)) }
{
    let answers = answers_text(alloc, row)?;
    html_text(alloc, answers.as_str())
}

/// Returns the row of folders that are never served. The pattern is HTML.
pub fn hidden_row(alloc: Global, viewer: &Option<Viewer>, pattern: &str) -> Result<Text, NoMemory>
    ensures { GivesAnswer result (spec.unanswered_row pattern.now (spec.hidden_cell viewer.now)) }
{
    let cell = cell_html(
        alloc,
        "hidden",
        "all",
        hidden_text(viewer),
        "The container never serves these folders (sections 10.5 and 10.6).",
    )?;
    unanswered_row(alloc, pattern, cell.as_str())
}

/// Returns the row of paths that belong to the context with this path. The pattern is HTML.
pub fn foreign_row(alloc: Global, path: &str, pattern: &str) -> Result<Text, NoMemory>
    ensures { GivesAnswer result (spec.unanswered_row pattern.now (spec.foreign_cell path.now)) }
{
    let who = context_text(alloc, path)?;
    let cell = cell_html(
        alloc,
        "hidden",
        "all",
        who.as_str(),
        "Another context answers these paths (section 12.1).",
    )?;
    unanswered_row(alloc, pattern, cell.as_str())
}

/// Returns the row of a pattern that is the best match of no canonical path. The pattern is HTML.
fn unmatched_row(alloc: Global, pattern: &str) -> Result<Text, NoMemory>
    ensures { GivesAnswer result (spec.unanswered_row pattern.now spec.unmatched_cell) }
{
    let cell = cell_html(
        alloc,
        "hidden",
        "all",
        unmatched_text(),
        "The pattern is the best match of no canonical path (sections 3.5.2 and 12.1).",
    )?;
    unanswered_row(alloc, pattern, cell.as_str())
}

/// Returns a row without an example and without answers. The parts are HTML.
pub fn unanswered_row(alloc: Global, pattern: &str, cell: &str) -> Result<Text, NoMemory>
    ensures { GivesAnswer result (spec.unanswered_row pattern.now cell.now) }
{
    row_of(alloc, pattern, "", "", cell)
}

/// Returns a row of these parts, which are HTML.
#[tactic(auto, unfolding(crate::specs::HtmlCells::row_of))]
fn row_of(
    alloc: Global,
    pattern: &str,
    details: &str,
    answers: &str,
    cells: &str,
) -> Result<Text, NoMemory>
    ensures { GivesAnswer result (spec.row_of pattern.now details.now answers.now cells.now) }
{
    joined(
        alloc,
        &[
            "<tr><th scope=\"row\"><code>",
            pattern,
            "</code><small>",
            details,
            "</small></th><td class=\"by\">",
            answers,
            "</td><td>",
            cells,
            "</td></tr>\n",
        ],
    )
}

fn cells_html(alloc: Global, context: &ContextReport, groups: &[Group]) -> Result<Text, NoMemory>
    ensures { GivesAnswer result (flat_map (spec.group_html context.now) groups.now) }
{
    let mut text = String::new(alloc);
    for group in groups {
        push_group(&mut text, alloc, context, group)?;
    }
    Ok(Text::from_string(text))
}

fn push_group(
    text: &mut String,
    alloc: Global,
    context: &ContextReport,
    group: &Group,
) -> Result<(), NoMemory>
    ensures { OnOk result (string_bytes text.new ≡ string_bytes text.old ++ spec.group_html context.now group.now) }
{
    let cell = group_html(alloc, context, group)?;
    Ok(text.push_str(cell.as_str())?)
}

#[tactic(auto, unfolding(crate::specs::HtmlCells::group_html))]
fn group_html(alloc: Global, context: &ContextReport, group: &Group) -> Result<Text, NoMemory>
    ensures { GivesAnswer result (spec.group_html context.now group.now) }
{
    let access = &group.cell.access;
    let methods = methods_text(alloc, &group.methods)?;
    let who = entry_text(alloc, &context.viewer, context.has_login, access)?;
    let why = why_text(alloc, context, group)?;
    cell_html(
        alloc,
        class_for(&context.viewer, context.has_login, access),
        methods.as_str(),
        who.as_str(),
        why.as_str(),
    )
}

#[tactic(auto, unfolding(crate::specs::HtmlCells::why_text))]
fn why_text(alloc: Global, context: &ContextReport, group: &Group) -> Result<Text, NoMemory>
    ensures { GivesAnswer result (spec.why_text context.now group.now) }
{
    let reason = reason(context.has_login, &group.cell.access);
    explanation(
        alloc,
        context.lines.as_slice(),
        reason,
        group.cell.constraint,
    )
}

/// Returns a cell of these texts, in the color of its class.
#[tactic(auto, unfolding(crate::specs::HtmlCells::cell_html))]
pub fn cell_html(
    alloc: Global,
    class: &str,
    methods: &str,
    who: &str,
    why: &str,
) -> Result<Text, NoMemory>
    ensures { GivesAnswer result (spec.cell_html class.now methods.now who.now why.now) }
{
    let methods = html_text(alloc, methods)?;
    let who = html_text(alloc, who)?;
    let why = html_text(alloc, why)?;
    joined(
        alloc,
        &[
            "<details class=\"",
            class,
            "\"><summary><b>",
            methods.as_str(),
            "</b> ",
            who.as_str(),
            "</summary>",
            why.as_str(),
            "</details>",
        ],
    )
}
