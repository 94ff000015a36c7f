//! The text of access tables.

ghost use Rattle.std.specs.Prelude.{◌≡◌, ◌++◌, [], OnOk, chars, codes, length, replicate, string_bytes};
ghost use Rattle.std.specs.List.{flat_map};
ghost use Rattle.sv_text.specs.Gives.{GivesAnswer};
ghost use Rattle.sv_report.specs.Details as details;
ghost use Rattle.sv_report.specs.Text as spec;
ghost use Rattle.sv_report.specs.Viewers as words;

use crate::details::detail_line;
use crate::escaped::escaped;
use crate::finding_lines::{push_findings, push_unsearched};
use crate::folded_lines::folded;
use crate::parts::{joined, push_all};
use crate::places::constraint_text;
use crate::report::{ContextReport, ReportedRow, Viewer};
use crate::transport::push_transport;
use crate::viewers::{context_text, entry_text, hidden_text, unmatched_text, viewer_title};
use crate::words::{methods_text, pattern_text};
use std::alloc::Global;
use sv_audit::Group;
use sv_findings::Reach;
use sv_text::{NoMemory, Text};
use sv_uri::shown_context;

/// The width of the column of patterns, in characters.
pub const PATTERN_WIDTH: usize = 28;

/// The width of the column of methods, in characters.
pub const METHODS_WIDTH: usize = 28;

/// The width of the column of callers, in characters.
pub const WHO_WIDTH: usize = 30;

/// The columns of a line.
#[derive(Clone, Copy)]
struct Columns<'a> {
    pattern: &'a str,
    methods: &'a str,
    who: &'a str,
    constraint: &'a str,
}

/// Returns the text of the access tables of contexts: a line for each group of methods, one for an example, the answers
/// and the exceptions of each row, lines for the folders that are never served, for the login post and for other contexts, a
/// line if some requests need TLS, two lines for each finding, and one for each kind of findings that is not looked for.
/// A row that no request meets has one line. Control characters are escaped, and no line has more than 100 characters
/// (see `folded`).
///
/// # Errors
/// `NoMemory` if memory runs out.
pub fn audit_text(alloc: Global, contexts: &[ContextReport]) -> Result<Text, NoMemory>
    ensures { GivesAnswer result (spec.audit_text contexts.now) }
{
    let mut text = String::new(alloc);
    push_contexts(&mut text, alloc, contexts)?;
    folded(alloc, text.as_str())
}

fn push_contexts(
    text: &mut String,
    alloc: Global,
    contexts: &[ContextReport],
) -> Result<(), NoMemory>
    ensures { OnOk result (string_bytes text.new ≡ string_bytes text.old ++ spec.contexts_text contexts.now) }
{
    let Some((context, others)) = contexts.split_first() else {
        return Ok(());
    };
    push_context(text, alloc, context)?;
    push_other_contexts(text, alloc, others)
}

/// Appends the lines of contexts, each after an empty line.
fn push_other_contexts(
    text: &mut String,
    alloc: Global,
    others: &[ContextReport],
) -> Result<(), NoMemory>
    ensures { OnOk result (string_bytes text.new ≡ string_bytes text.old ++ flat_map (λ other. codes "\n" ++ spec.context_lines other) others.now) }
{
    for other in others {
        text.push_str("\n")?;
        push_context(text, alloc, other)?;
    }
    Ok(())
}

fn push_context(text: &mut String, alloc: Global, context: &ContextReport) -> Result<(), NoMemory>
    ensures { OnOk result (string_bytes text.new ≡ string_bytes text.old ++ spec.context_lines context.now) }
{
    push_heading(text, alloc, context)?;
    push_title(text, alloc, &context.viewer)?;
    push_rows(text, alloc, context, context.rows.as_slice())?;
    push_hidden(text, &context.viewer)?;
    push_login(text, context.has_login)?;
    push_others(
        text,
        alloc,
        context.path.as_str(),
        context.others.as_slice(),
    )?;
    push_transport(text, context)?;
    push_findings(text, alloc, context, context.findings.as_slice())?;
    push_unsearched(text, context.unsearched.as_slice())
}

fn push_heading(text: &mut String, alloc: Global, context: &ContextReport) -> Result<(), NoMemory>
    ensures { OnOk result (string_bytes text.new ≡ string_bytes text.old ++ spec.heading_line context.now) }
{
    let path = escaped(alloc, shown_context(context.path.as_str()))?;
    let file = escaped(alloc, context.file.as_str())?;
    push_all(
        text,
        &["context ", path.as_str(), " (", file.as_str(), ")\n"],
    )
}

fn push_title(text: &mut String, alloc: Global, viewer: &Option<Viewer>) -> Result<(), NoMemory>
    ensures { OnOk result (string_bytes text.new ≡ string_bytes text.old ++ spec.title_line viewer.now) }
{
    let who = viewer_title(alloc, viewer)?;
    push_line(
        text,
        Columns {
            pattern: "pattern",
            methods: "methods",
            who: who.as_str(),
            constraint: "constraint",
        },
    )
}

fn push_hidden(text: &mut String, viewer: &Option<Viewer>) -> Result<(), NoMemory>
    ensures { OnOk result (string_bytes text.new ≡ string_bytes text.old ++ spec.hidden_line viewer.now) }
{
    push_unreached(text, "/WEB-INF/*, /META-INF/*", hidden_text(viewer))
}

/// Appends the line of a pattern whose constraints are never asked.
fn push_unreached(text: &mut String, pattern: &str, who: &str) -> Result<(), NoMemory>
    ensures { OnOk result (string_bytes text.new ≡ string_bytes text.old ++ spec.unreached_line pattern.now who.now) }
{
    push_line(
        text,
        Columns {
            pattern,
            methods: "all",
            who,
            constraint: "-",
        },
    )
}

/// Appends a line for each other context within the one with this path.
fn push_others(
    text: &mut String,
    alloc: Global,
    context: &str,
    others: &[Text],
) -> Result<(), NoMemory>
    ensures { OnOk result (string_bytes text.new ≡ string_bytes text.old ++ flat_map (spec.other_line context.now) others.now) }
{
    for other in others {
        push_other(text, alloc, context, other.as_str())?;
    }
    Ok(())
}

fn push_other(text: &mut String, alloc: Global, context: &str, other: &str) -> Result<(), NoMemory>
    ensures { OnOk result (string_bytes text.new ≡ string_bytes text.old ++ spec.other_line context.now other.now) }
{
    let path = joined(alloc, &[context, other])?;
    let other = escaped(alloc, other)?;
    let pattern = joined(alloc, &[other.as_str(), "/*"])?;
    push_foreign(text, alloc, pattern.as_str(), path.as_str())
}

/// Appends the line of a pattern whose paths belong to another context.
fn push_foreign(text: &mut String, alloc: Global, pattern: &str, path: &str) -> Result<(), NoMemory>
    ensures { OnOk result (string_bytes text.new ≡ string_bytes text.old ++ spec.unreached_line pattern.now (words.context_text path.now)) }
{
    let who = context_text(alloc, path)?;
    push_unreached(text, pattern, who.as_str())
}

fn push_login(text: &mut String, has_login: bool) -> Result<(), NoMemory>
    ensures { OnOk result (string_bytes text.new ≡ string_bytes text.old ++ spec.login_line has_login) }
{
    if !has_login {
        return Ok(());
    }
    push_line(
        text,
        Columns {
            pattern: "*/j_security_check",
            methods: "POST",
            who: "login post",
            constraint: "-",
        },
    )
}

fn push_rows(
    text: &mut String,
    alloc: Global,
    context: &ContextReport,
    rows: &[ReportedRow],
) -> Result<(), NoMemory>
    ensures { OnOk result (string_bytes text.new ≡ string_bytes text.old ++ flat_map (spec.row_lines context.now) rows.now) }
{
    for row in rows {
        push_row(text, alloc, context, row)?;
    }
    Ok(())
}

fn push_row(
    text: &mut String,
    alloc: Global,
    context: &ContextReport,
    row: &ReportedRow,
) -> Result<(), NoMemory>
    ensures { OnOk result (string_bytes text.new ≡ string_bytes text.old ++ spec.row_lines context.now row.now) }
{
    let pattern = pattern_text(alloc, &row.row.pattern)?;
    match &row.reach {
        Reach::Reached => push_reached(text, alloc, context, pattern.as_str(), row),
        Reach::Hidden => push_unreached(text, pattern.as_str(), hidden_text(&context.viewer)),
        Reach::Elsewhere(path) => push_foreign(text, alloc, pattern.as_str(), path.as_str()),
        Reach::Unmatched => push_unreached(text, pattern.as_str(), unmatched_text()),
    }
}

/// Appends the lines of a row that requests reach.
fn push_reached(
    text: &mut String,
    alloc: Global,
    context: &ContextReport,
    pattern: &str,
    row: &ReportedRow,
) -> Result<(), NoMemory>
    ensures { OnOk result (string_bytes text.new ≡ string_bytes text.old ++ (spec.group_lines context.now pattern.now row.now.row.groups ++ details.detail_line context.now.path row.now)) }
{
    push_pattern(text, alloc, context, pattern, row.row.groups.as_slice())?;
    let details = detail_line(alloc, context.path.as_str(), row)?;
    Ok(text.push_str(details.as_str())?)
}

/// Appends the lines of groups. The first has the pattern.
fn push_pattern(
    text: &mut String,
    alloc: Global,
    context: &ContextReport,
    pattern: &str,
    groups: &[Group],
) -> Result<(), NoMemory>
    ensures { OnOk result (string_bytes text.new ≡ string_bytes text.old ++ spec.group_lines context.now pattern.now groups.now) }
{
    let Some((group, others)) = groups.split_first() else {
        return Ok(());
    };
    push_group(text, alloc, context, pattern, group)?;
    push_groups(text, alloc, context, others)
}

/// Appends the lines of groups without their pattern.
fn push_groups(
    text: &mut String,
    alloc: Global,
    context: &ContextReport,
    groups: &[Group],
) -> Result<(), NoMemory>
    ensures { OnOk result (string_bytes text.new ≡ string_bytes text.old ++ flat_map (spec.group_line context.now []) groups.now) }
{
    for group in groups {
        push_group(text, alloc, context, "", group)?;
    }
    Ok(())
}

fn push_group(
    text: &mut String,
    alloc: Global,
    context: &ContextReport,
    pattern: &str,
    group: &Group,
) -> Result<(), NoMemory>
    ensures { OnOk result (string_bytes text.new ≡ string_bytes text.old ++ spec.group_line context.now pattern.now group.now) }
{
    let methods = methods_text(alloc, &group.methods)?;
    let who = entry_text(
        alloc,
        &context.viewer,
        context.has_login,
        &group.cell.access,
    )?;
    let constraint = constraint_text(alloc, context.lines.as_slice(), group.cell.constraint)?;
    push_line(
        text,
        Columns {
            pattern,
            methods: methods.as_str(),
            who: who.as_str(),
            constraint: constraint.as_str(),
        },
    )
}

#[tactic(auto, unfolding(crate::specs::Text::line_text))]
fn push_line(text: &mut String, columns: Columns<'_>) -> Result<(), NoMemory>
    ensures { OnOk result (string_bytes text.new ≡ string_bytes text.old ++ spec.line_text columns.entry.pattern.now columns.entry.methods.now columns.entry.who.now columns.entry.constraint.now) }
{
    push_padded(text, columns.pattern, PATTERN_WIDTH)?;
    push_padded(text, columns.methods, METHODS_WIDTH)?;
    push_padded(text, columns.who, WHO_WIDTH)?;
    text.push_str(columns.constraint)?;
    Ok(text.push_str("\n")?)
}

/// Appends a text and the spaces up to the next column.
fn push_padded(text: &mut String, column: &str, width: usize) -> Result<(), NoMemory>
    ensures { OnOk result (string_bytes text.new ≡ string_bytes text.old ++ spec.padded width column.now) }
{
    text.push_str(column)?;
    push_spaces(text, gap_after(width, character_count(column)))
}

fn gap_after(width: usize, used: usize) -> usize
    ensures { result ≡ spec.gap_after width used }
{
    if used < width { width - used } else { 2 }
}

fn character_count(text: &str) -> usize
    ensures { result ≡ length (chars text.now) }
{
    text.chars().count()
}

fn push_spaces(text: &mut String, count: usize) -> Result<(), NoMemory>
    ensures { OnOk result (string_bytes text.new ≡ string_bytes text.old ++ replicate count 32) }
{
    for _place in 0..count {
        text.push_str(" ")?;
    }
    Ok(())
}
