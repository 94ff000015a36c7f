//! The page of a report.

ghost use Rattle.std.specs.Prelude.{◌≡◌, ◌++◌, OnOk, map, string_bytes};
ghost use Rattle.std.specs.List.{flat_map};
ghost use Rattle.sv_text.specs.Gives.{GivesAnswer};
ghost use Rattle.sv_page.specs.HtmlTables as tables;
ghost use Rattle.sv_page.specs.Page as spec;

use crate::html_tables::section_html;
use crate::left_out::notes_html;
use crate::markup::html_text;
use crate::ranks::RANKED_KINDS;
use crate::shares::{MAX_LISTED_FINDINGS, MAX_SHOWN_ROWS, first_of};
use std::alloc::Global;
use sv_report::{
    ContextReport, ReportedFinding, ReportedRow, heading, joined, kind_name, place_text,
    problem_text, remedy,
};
use sv_text::{NoMemory, Text};
use sv_uri::shown_context;

/// The page up to its findings. It needs no other file and no script.
const PAGE_START: &str = r#"<!doctype html>
<html lang="en">
<head>
<meta charset="utf-8">
<meta name="viewport" content="width=device-width, initial-scale=1">
<title>Who may reach what</title>
<style>
:root { color-scheme: light dark; --ink: #1b1f24; --paper: #ffffff; --line: #d0d7de; --faint: #57606a; --code: #f6f8fa;
  --open: #dafbe1; --login: #ddf4ff; --nobody: #eaeef2; --uncovered: #b3261e; --tls: #fff8c5; --post: #fbefff; }
@media (prefers-color-scheme: dark) {
  :root { --ink: #e6edf3; --paper: #0d1117; --line: #30363d; --faint: #9198a1; --code: #161b22;
    --open: #12361f; --login: #0c2d4d; --nobody: #21262d; --uncovered: #c93c37; --tls: #3d2f00; --post: #37204d; }
}
* { box-sizing: border-box; }
body { margin: 0 auto; max-width: 72rem; padding: 1rem; color: var(--ink); background: var(--paper);
  font: 15px/1.5 system-ui, sans-serif; }
h1 { font-size: 1.5rem; margin: 0.5rem 0; }
h2 { font-size: 1.15rem; margin: 2rem 0 0.5rem; }
small { color: var(--faint); font-weight: normal; }
small, details { overflow-wrap: anywhere; }
code { font: 0.92em ui-monospace, monospace; overflow-wrap: anywhere; }
ul { list-style: none; margin: 0; padding: 0; }
li { margin: 0.5rem 0; padding: 0.5rem 0.75rem; border-left: 4px solid var(--uncovered); background: var(--code);
  overflow-wrap: anywhere; }
li.accepted { border-color: var(--line); color: var(--faint); }
.table { overflow-x: auto; }
table { width: 100%; border-collapse: collapse; }
th, td { padding: 0.4rem 0.6rem; border: 1px solid var(--line); text-align: left; vertical-align: top; }
th[scope="row"] { width: 30%; font-weight: normal; }
th small { display: block; }
.by { color: var(--faint); font-size: 0.83em; overflow-wrap: anywhere; }
.by:not(:empty) { width: 18%; }
details { display: inline-block; vertical-align: top; max-width: 24rem; margin: 0.1rem 0.2rem 0.1rem 0;
  padding: 0.15rem 0.6rem; border: 1px solid var(--line); border-radius: 0.3rem; }
summary { cursor: pointer; }
.open { background: var(--open); }
.login { background: var(--login); }
.nobody, .hidden { background: var(--nobody); }
.hidden { color: var(--faint); border-style: dashed; }
.uncovered { background: var(--uncovered); color: #ffffff; font-weight: bold; }
.tls { background: var(--tls); }
.post { background: var(--post); }
@media screen and (max-width: 40rem) { body { padding: 0.4rem; } table, tbody, tr, th, td { display: block; }
  tr { padding: 0.3rem 0; border-bottom: 1px solid var(--line); } th, td { padding: 0 0.35rem; border: 0; }
  th[scope="row"], .by:not(:empty) { width: auto; } th[scope="col"] { display: inline-block; }
  .by:empty { display: none; } .by::before { content: "answered by "; } }
@media print { body { max-width: none; padding: 0; font-size: 10px; } .table { overflow: visible; }
  tr, li { break-inside: avoid; } * { print-color-adjust: exact; } }
</style>
</head>
<body>
<h1>Who may reach what</h1>
"#;

/// Returns the access tables and the findings of contexts as a page of HTML, with the findings first, the most dangerous
/// ones of all contexts on top. The page needs no other file and no script. It shows at most [`crate::MAX_SHOWN_ROWS`] rows and [`crate::MAX_LISTED_FINDINGS`] findings, the
/// first ones of all contexts, and says so for each context that has more: of findings before the first one, of rows after
/// those of the context.
///
/// # Errors
/// `NoMemory` if memory runs out.
pub fn audit_html(alloc: Global, contexts: &[ContextReport]) -> Result<Text, NoMemory>
    ensures { GivesAnswer result (spec.audit_html contexts.now) }
{
    let notes = notes_html(alloc, contexts)?;
    let items = items_html(alloc, contexts)?;
    let list = list_html(alloc, items.as_str())?;
    let tables = tables_html(alloc, contexts)?;
    joined(
        alloc,
        &[
            PAGE_START,
            notes.as_str(),
            list.as_str(),
            tables.as_str(),
            "</body>\n</html>\n",
        ],
    )
}

/// Returns the list of these items, or a sentence if there are none.
fn list_html(alloc: Global, items: &str) -> Result<Text, NoMemory>
    ensures { GivesAnswer result (spec.list_html items.now) }
{
    if items.is_empty() {
        return Text::copy_of(alloc, "<p>There are no findings.</p>\n");
    }
    joined(alloc, &["<ul>\n", items, "</ul>\n"])
}

/// Returns the items of the findings that the page lists, the most dangerous kind first.
fn items_html(alloc: Global, contexts: &[ContextReport]) -> Result<Text, NoMemory>
    ensures { GivesAnswer result (spec.items_html contexts.now) }
{
    items_of_kinds(alloc, contexts, &RANKED_KINDS)
}

/// Returns the items of the findings of some kinds that the page lists, kind by kind.
fn items_of_kinds(
    alloc: Global,
    contexts: &[ContextReport],
    kinds: &[&str],
) -> Result<Text, NoMemory>
    ensures { GivesAnswer result (flat_map (spec.items_of_kind contexts.now) (map (λ kind. kind.now) kinds.now)) }
{
    let mut text = String::new(alloc);
    for kind in kinds {
        push_kind(&mut text, alloc, contexts, *kind)?;
    }
    Ok(Text::from_string(text))
}

/// Appends the items of the findings of one kind that the page lists.
fn push_kind(
    text: &mut String,
    alloc: Global,
    contexts: &[ContextReport],
    kind: &str,
) -> Result<(), NoMemory>
    ensures { OnOk result (string_bytes text.new ≡ string_bytes text.old ++ spec.items_of_kind contexts.now kind.now) }
{
    let items = items_of_kind(alloc, contexts, kind)?;
    Ok(text.push_str(items.as_str())?)
}

/// Returns the items of the findings of one kind that the page lists.
fn items_of_kind(alloc: Global, contexts: &[ContextReport], kind: &str) -> Result<Text, NoMemory>
    ensures { GivesAnswer result (spec.items_of_kind contexts.now kind.now) }
{
    let mut text = String::new(alloc);
    let mut left = MAX_LISTED_FINDINGS;
    for context in contexts {
        let findings = context.findings.as_slice();
        push_items(&mut text, alloc, context, first_of(findings, left), kind)?;
        left = left.saturating_sub(findings.len());
    }
    Ok(Text::from_string(text))
}

/// Appends the items of those of these findings of a context that are of the kind.
#[tactic(auto, unfolding(crate::specs::Page::kind_items))]
fn push_items(
    text: &mut String,
    alloc: Global,
    context: &ContextReport,
    findings: &[ReportedFinding],
    kind: &str,
) -> Result<(), NoMemory>
    ensures { OnOk result (string_bytes text.new ≡ string_bytes text.old ++ spec.kind_items kind.now context.now findings.now) }
{
    for finding in findings {
        if kind_name(&finding.finding) == kind {
            push_item(text, alloc, context, finding)?;
        }
    }
    Ok(())
}

fn push_item(
    text: &mut String,
    alloc: Global,
    context: &ContextReport,
    finding: &ReportedFinding,
) -> Result<(), NoMemory>
    ensures { OnOk result (string_bytes text.new ≡ string_bytes text.old ++ spec.item_html context.now finding.now) }
{
    let item = item_html(alloc, context, finding)?;
    Ok(text.push_str(item.as_str())?)
}

/// Returns the item of a finding: its context, what it is and what to write.
#[tactic(auto, unfolding(crate::specs::Page::item_html))]
fn item_html(
    alloc: Global,
    context: &ContextReport,
    finding: &ReportedFinding,
) -> Result<Text, NoMemory>
    ensures { GivesAnswer result (spec.item_html context.now finding.now) }
{
    let path = html_text(alloc, shown_context(context.path.as_str()))?;
    let problem = located_problem(alloc, context, finding)?;
    let remedy = html_text(alloc, remedy(&finding.finding))?;
    let heading = heading(finding.is_accepted);
    joined(
        alloc,
        &[
            "<li class=\"",
            heading,
            "\"><b>",
            heading,
            "</b> <code>",
            path.as_str(),
            "</code> ",
            problem.as_str(),
            "<br>",
            remedy.as_str(),
            "</li>\n",
        ],
    )
}

fn located_problem(
    alloc: Global,
    context: &ContextReport,
    finding: &ReportedFinding,
) -> Result<Text, NoMemory>
    ensures { GivesAnswer result (spec.located_problem context.now finding.now) }
{
    let problem = problem_text(alloc, context.has_login, &finding.finding)?;
    let place = place_text(alloc, context.file.as_str(), finding.line)?;
    let text = joined(alloc, &[problem.as_str(), place.as_str()])?;
    html_text(alloc, text.as_str())
}

/// Returns the tables with the rows that the page shows.
fn tables_html(alloc: Global, contexts: &[ContextReport]) -> Result<Text, NoMemory>
    ensures { GivesAnswer result (spec.tables_html contexts.now) }
{
    let mut text = String::new(alloc);
    let mut left = MAX_SHOWN_ROWS;
    for context in contexts {
        let rows = context.rows.as_slice();
        push_section(&mut text, alloc, context, first_of(rows, left))?;
        left = left.saturating_sub(rows.len());
    }
    Ok(Text::from_string(text))
}

fn push_section(
    text: &mut String,
    alloc: Global,
    context: &ContextReport,
    rows: &[ReportedRow],
) -> Result<(), NoMemory>
    ensures { OnOk result (string_bytes text.new ≡ string_bytes text.old ++ tables.section_html context.now rows.now) }
{
    let section = section_html(alloc, context, rows)?;
    Ok(text.push_str(section.as_str())?)
}
