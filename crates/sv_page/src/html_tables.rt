//! Access tables in HTML.

ghost use Rattle.std.specs.Prelude.{◌≡◌, ◌++◌, OnOk, string_bytes};
ghost use Rattle.std.specs.List.{flat_map};
ghost use Rattle.sv_text.specs.Gives.{GivesAnswer};
ghost use Rattle.sv_page.specs.HtmlCells as cells;
ghost use Rattle.sv_page.specs.HtmlTables as spec;

use crate::html_cells::{cell_html, foreign_row, hidden_row, row_html, unanswered_row};
use crate::markup::html_text;
use crate::shares::MAX_SHOWN_ROWS;
use std::alloc::Global;
use sv_report::{ContextReport, ReportedRow, Viewer, has_tls, joined, number_text, viewer_title};
use sv_text::{NoMemory, Text};
use sv_uri::shown_context;

/// Returns the part of a page on a context: its path, its file, and its table with these rows.
#[tactic(auto, unfolding(crate::specs::HtmlTables::section_html))]
pub fn section_html(
    alloc: Global,
    context: &ContextReport,
    rows: &[ReportedRow],
) -> Result<Text, NoMemory>
    ensures { GivesAnswer result (spec.section_html context.now rows.now) }
{
    let heading = heading_html(alloc, context)?;
    let title = title_html(alloc, &context.viewer)?;
    let shown = rows_html(alloc, context, rows)?;
    let others = other_rows(alloc, context)?;
    let transport = transport_html(alloc, context)?;
    let note = note_html(alloc, rows.len(), context.rows.as_slice().len())?;
    joined(
        alloc,
        &[
            heading.as_str(),
            title.as_str(),
            shown.as_str(),
            others.as_str(),
            "</table>\n</div>\n",
            transport.as_str(),
            note.as_str(),
            "</section>\n",
        ],
    )
}

fn heading_html(alloc: Global, context: &ContextReport) -> Result<Text, NoMemory>
    ensures { GivesAnswer result (spec.heading_html context.now) }
{
    let path = shown_context(context.path.as_str());
    heading_of(alloc, path, context.file.as_str())
}

#[tactic(auto, unfolding(crate::specs::HtmlTables::heading_of))]
fn heading_of(alloc: Global, path: &str, file: &str) -> Result<Text, NoMemory>
    ensures { GivesAnswer result (spec.heading_of path.now file.now) }
{
    let path = html_text(alloc, path)?;
    let file = html_text(alloc, file)?;
    joined(
        alloc,
        &[
            "<section>\n<h2><code>",
            path.as_str(),
            "</code> <small>",
            file.as_str(),
            "</small></h2>\n",
        ],
    )
}

fn title_html(alloc: Global, viewer: &Option<Viewer>) -> Result<Text, NoMemory>
    ensures { GivesAnswer result (spec.title_html viewer.now) }
{
    let title = viewer_title(alloc, viewer)?;
    let title = html_text(alloc, title.as_str())?;
    joined(
        alloc,
        &[
            "<div class=\"table\">\n<table>\n<tr><th scope=\"col\">pattern</th><th scope=\"col\">answered by</th><th scope=\"col\">",
            title.as_str(),
            "</th></tr>\n",
        ],
    )
}

fn rows_html(alloc: Global, context: &ContextReport, rows: &[ReportedRow]) -> Result<Text, NoMemory>
    ensures { GivesAnswer result (flat_map (cells.row_html context.now) rows.now) }
{
    let mut text = String::new(alloc);
    for row in rows {
        push_row(&mut text, alloc, context, row)?;
    }
    Ok(Text::from_string(text))
}

fn push_row(
    text: &mut String,
    alloc: Global,
    context: &ContextReport,
    row: &ReportedRow,
) -> Result<(), NoMemory>
    ensures { OnOk result (string_bytes text.new ≡ string_bytes text.old ++ cells.row_html context.now row.now) }
{
    let row = row_html(alloc, context, row)?;
    Ok(text.push_str(row.as_str())?)
}

/// Returns the rows of the protected folders, of the login post and of other contexts.
fn other_rows(alloc: Global, context: &ContextReport) -> Result<Text, NoMemory>
    ensures { GivesAnswer result (spec.other_rows context.now) }
{
    let hidden = hidden_row(alloc, &context.viewer, "/WEB-INF/*, /META-INF/*")?;
    let login = login_html(alloc, context.has_login)?;
    let others = foreign_rows(alloc, context.path.as_str(), context.others.as_slice())?;
    joined(alloc, &[hidden.as_str(), login.as_str(), others.as_str()])
}

fn foreign_rows(alloc: Global, context: &str, others: &[Text]) -> Result<Text, NoMemory>
    ensures { GivesAnswer result (flat_map (spec.foreign_html context.now) others.now) }
{
    let mut text = String::new(alloc);
    for other in others {
        push_foreign(&mut text, alloc, context, other.as_str())?;
    }
    Ok(Text::from_string(text))
}

fn push_foreign(
    text: &mut String,
    alloc: Global,
    context: &str,
    other: &str,
) -> Result<(), NoMemory>
    ensures { OnOk result (string_bytes text.new ≡ string_bytes text.old ++ spec.foreign_html context.now other.now) }
{
    let path = joined(alloc, &[context, other])?;
    let other = html_text(alloc, other)?;
    let pattern = joined(alloc, &[other.as_str(), "/*"])?;
    let row = foreign_row(alloc, path.as_str(), pattern.as_str())?;
    Ok(text.push_str(row.as_str())?)
}

fn login_html(alloc: Global, has_login: bool) -> Result<Text, NoMemory>
    ensures { GivesAnswer result (spec.login_html has_login) }
{
    if !has_login {
        return Text::copy_of(alloc, "");
    }
    let cell = cell_html(
        alloc,
        "post",
        "POST",
        "login post",
        "The container answers the login form (section 13.6.3.1).",
    )?;
    unanswered_row(alloc, "*/j_security_check", cell.as_str())
}

/// Returns a note if some requests need TLS.
fn transport_html(alloc: Global, context: &ContextReport) -> Result<Text, NoMemory>
    ensures { GivesAnswer result (spec.transport_html context.now) }
{
    let note = if has_tls(context) {
        "<p>Some requests need TLS: --secure shows who enters then, and its findings.</p>\n"
    } else {
        ""
    };
    Text::copy_of(alloc, note)
}

/// Returns a note if not all rows are shown, given how many are shown and how many there are.
fn note_html(alloc: Global, shown: usize, count: usize) -> Result<Text, NoMemory>
    ensures { GivesAnswer result (spec.note_html shown count) }
{
    if shown == count {
        Text::copy_of(alloc, "")
    } else if shown == 0 {
        none_shown(alloc, count)
    } else {
        first_shown(alloc, shown, count)
    }
}

fn none_shown(alloc: Global, count: usize) -> Result<Text, NoMemory>
    ensures { GivesAnswer result (spec.none_shown count) }
{
    let count = number_text(alloc, count as u64)?;
    let most = number_text(alloc, MAX_SHOWN_ROWS as u64)?;
    joined(
        alloc,
        &[
            "<p>None of its ",
            count.as_str(),
            " rows are shown: the page shows ",
            most.as_str(),
            " rows at most.</p>\n",
        ],
    )
}

fn first_shown(alloc: Global, shown: usize, count: usize) -> Result<Text, NoMemory>
    ensures { GivesAnswer result (spec.first_shown shown count) }
{
    let shown = number_text(alloc, shown as u64)?;
    let count = number_text(alloc, count as u64)?;
    joined(
        alloc,
        &[
            "<p>Only the first ",
            shown.as_str(),
            " of ",
            count.as_str(),
            " rows are shown.</p>\n",
        ],
    )
}
