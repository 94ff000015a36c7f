//! Reports on contexts.

ghost use Rattle.std.specs.Prelude.{◌≡◌, ◌++◌, ℕ, List, OnOk, map, position};
ghost use Rattle.std.specs.Str.{bytes_eq};
ghost use Rattle.sv_audited_contexts.specs.LineFile.{lines_of};
ghost use Rattle.sv_descriptor.specs.Names.{HaveSame};
ghost use Rattle.sv_policy.specs.Groups.{IsGrouped};
ghost use Rattle.sv_text.specs.Gives.{GivesAnswer};
ghost use Rattle.sv_audit_command.specs.ContextReports as spec;

use crate::accepted::{accepted_lines, is_accepted};
use crate::access_options::Asked;
use crate::context_patterns::{ContextPatterns, context_patterns};
use crate::key::{constraint_of, key_of};
use crate::row_paths::{RowPlace, reported_rows};
use crate::shown_rows::shown_rows;
use crate::viewer::viewer_in;
use std::alloc::Global;
use sv_audit::{Row, Table, table_of};
use sv_audited_contexts::{AuditedContext, Source};
use sv_descriptor::Names;
use sv_findings::{
    Finding, ListedPatterns, Reaches, Surroundings, Unsearched, findings_of, unsearched_of,
};
use sv_mapping::{PatternTable, is_at_or_below, path_within};
use sv_policy::{Groups, grouped};
use sv_report::{ContextReport, ReportedFinding, ReportedRow, Viewer, line_at, line_of};
use sv_text::{Listed, NoMemory, Text};

/// The questions to contexts: the caller whose access is shown, and the text of the accepting file.
#[derive(Clone, Copy)]
pub(crate) struct Asking<'a> {
    /// The caller, if one is asked for.
    pub(crate) viewer: Option<Asked<'a>>,
    /// The text of the accepting file, which is empty if there is none.
    pub(crate) accepted: &'a str,
}

/// Returns the reports on contexts, in order.
pub(crate) fn context_reports(
    alloc: Global,
    contexts: Listed<AuditedContext>,
    asking: Asking<'_>,
) -> Result<Listed<ContextReport>, NoMemory>
    ensures { GivesAnswer result (map (spec.context_report asking.entry.viewer asking.entry.accepted.now) contexts) }
{
    let mut reports = Vec::new(alloc);
    for context in contexts.into_vec() {
        reports.push(context_report(alloc, context, asking)?)?;
    }
    Ok(Listed::from_vec(reports))
}

fn context_report(
    alloc: Global,
    context: AuditedContext,
    asking: Asking<'_>,
) -> Result<ContextReport, NoMemory>
    ensures { GivesAnswer result (spec.context_report asking.entry.viewer asking.entry.accepted.now context) }
{
    let audit = audit_of(alloc, &context, asking)?;
    let Source { path, file, lines } = context.source;
    Ok(ContextReport {
        path,
        file,
        has_login: context.has_login,
        viewer: audit.viewer,
        others: audit.others,
        rows: audit.rows,
        findings: audit.findings,
        unsearched: audit.unsearched,
        lines: lines.constraints,
    })
}

/// The consequences of the constraints of a context.
#[derive(Drop)]
struct Audit {
    viewer: Option<Viewer>,
    others: Listed<Text>,
    rows: Listed<ReportedRow>,
    findings: Listed<ReportedFinding>,
    unsearched: Listed<Unsearched>,
}

fn audit_of(alloc: Global, context: &AuditedContext, asking: Asking<'_>) -> Result<Audit, NoMemory>
    ensures { GivesAnswer result (spec.audit_of asking.entry.viewer asking.entry.accepted.now context.now) }
{
    let table = table_in(alloc, context)?;
    let patterns = patterns_in(alloc, context)?;
    audit_with(alloc, context, asking, &patterns, table)
}

fn table_in(alloc: Global, context: &AuditedContext) -> Result<Table, NoMemory>
    ensures { GivesAnswer result (spec.table_in context.now) }
{
    table_of(alloc, context.constraints.as_slice(), &context.rules)
}

fn patterns_in(alloc: Global, context: &AuditedContext) -> Result<ContextPatterns, NoMemory>
    ensures { GivesAnswer result (spec.patterns_in context.now) }
{
    let constraints = context.constraints.as_slice();
    context_patterns(alloc, constraints, context.mappings.as_slice())
}

/// Returns the consequences of the constraints of a context, given its patterns and its access table.
fn audit_with(
    alloc: Global,
    context: &AuditedContext,
    asking: Asking<'_>,
    patterns: &ContextPatterns,
    table: Table,
) -> Result<Audit, NoMemory>
    ensures { GivesAnswer result (spec.audit_with asking.entry.viewer asking.entry.accepted.now context.now patterns.now table) }
{
    let accepted = asking.accepted;
    let constraints = context.constraints.as_slice();
    let others = others_in(alloc, &context.surroundings)?;
    let viewer = viewer_in(alloc, asking.viewer, &context.realm)?;
    let findings = findings_in(alloc, context, &patterns.constraints, accepted, &table)?;
    let rows = shown_rows(alloc, context, &viewer, table)?;
    Ok(Audit {
        viewer,
        findings,
        unsearched: unsearched_of(alloc, constraints, &context.surroundings)?,
        rows: rows_in(alloc, context, patterns, others.as_slice(), rows)?,
        others,
    })
}

fn rows_in(
    alloc: Global,
    context: &AuditedContext,
    patterns: &ContextPatterns,
    nested: &[Text],
    rows: Listed<Row>,
) -> Result<Listed<ReportedRow>, NoMemory>
    ensures { GivesAnswer result (spec.rows_in context.now patterns.now nested.now rows) }
{
    let surroundings = &context.surroundings;
    let place = RowPlace {
        reaches: Reaches::of(
            alloc,
            surroundings.contexts.as_slice(),
            surroundings.path.as_str(),
        )?,
        listed: ListedPatterns::of(alloc, context.constraints.as_slice())?,
        nested,
    };
    reported_rows(alloc, patterns, &place, rows)
}

fn others_in(alloc: Global, surroundings: &Surroundings) -> Result<Listed<Text>, NoMemory>
    ensures { GivesAnswer result (spec.nested_paths surroundings.now.contexts surroundings.now.path) }
{
    let paths = surroundings.contexts.as_slice();
    nested_paths(alloc, paths, surroundings.path.as_str())
}

/// Returns the paths of the other contexts within the one with this path, without the path of this one.
fn nested_paths(alloc: Global, paths: &[Text], path: &str) -> Result<Listed<Text>, NoMemory>
    ensures { GivesAnswer result (spec.nested_paths paths.now path.now) }
{
    let mut nested = Vec::new(alloc);
    for other in paths {
        push_nested(&mut nested, alloc, path, other.as_str())?;
    }
    Ok(Listed::from_vec(nested))
}

fn push_nested(
    nested: &mut Vec<Text>,
    alloc: Global,
    path: &str,
    other: &str,
) -> Result<(), NoMemory>
    ensures { OnOk result (nested.new.items ≡ nested.old.items ++ spec.nested_of path.now other.now) }
{
    if other == path {
        return Ok(());
    }
    if is_at_or_below(path, other) {
        nested.push(Text::copy_of(alloc, path_within(path, other))?)?;
    }
    Ok(())
}

fn findings_in(
    alloc: Global,
    context: &AuditedContext,
    patterns: &PatternTable,
    accepted: &str,
    table: &Table,
) -> Result<Listed<ReportedFinding>, NoMemory>
    ensures { GivesAnswer result (spec.findings_in context.now patterns.now accepted.now table.now) }
{
    let constraints = context.constraints.as_slice();
    let findings = findings_of(
        alloc,
        constraints,
        &context.rules,
        table,
        &context.surroundings,
    )?;
    reported_findings(alloc, context, patterns, accepted, findings)
}

fn reported_findings(
    alloc: Global,
    context: &AuditedContext,
    patterns: &PatternTable,
    accepted: &str,
    findings: Listed<Finding>,
) -> Result<Listed<ReportedFinding>, NoMemory>
    ensures { GivesAnswer result (map (spec.reported_finding context.now patterns.now accepted.now) findings) }
{
    let groups = grouped(alloc, context.constraints.as_slice())?;
    let lines = accepted_lines(alloc, accepted)?;
    let mut reported = Vec::new(alloc);
    for finding in findings.into_vec() {
        let finding = reported_finding(alloc, context, &groups, patterns, &lines, finding)?;
        reported.push(finding)?;
    }
    Ok(Listed::from_vec(reported))
}

/// Returns the report on a finding, given the constraints by pattern, their patterns, and the lines of the
/// accepting file.
fn reported_finding(
    alloc: Global,
    context: &AuditedContext,
    groups: &Groups<'_>,
    patterns: &PatternTable,
    lines: &Names<'_>,
    finding: Finding,
) -> Result<ReportedFinding, NoMemory>
    ensures { (accepted : List ℕ) → IsGrouped context.now.constraints groups.now → HaveSame lines.now (lines_of accepted) →
        GivesAnswer result (spec.reported_finding context.now patterns.now accepted finding) }
{
    let constraints = context.constraints.as_slice();
    let key = key_of(alloc, context.source.path.as_str(), constraints, &finding)?;
    let constraint = constraint_of(constraints, groups, patterns, &finding);
    let line = finding_line(context, constraint, &finding);
    let is_accepted = is_accepted(lines, key.as_str());
    Ok(ReportedFinding {
        finding,
        key,
        constraint,
        line,
        is_accepted,
    })
}

/// Returns the line on which the constraint begins, or the role that no constraint names.
fn finding_line(context: &AuditedContext, constraint: Option<u64>, finding: &Finding) -> Option<u64>
    ensures { result ≡ spec.finding_line context.now constraint finding.now }
{
    match finding {
        Finding::UnusedRole(role) => role_line(context, role.as_str()),
        _ => line_of(context.source.lines.constraints.as_slice(), constraint),
    }
}

/// Returns the line on which the declaration of a role begins.
fn role_line(context: &AuditedContext, role: &str) -> Option<u64>
    ensures { result ≡ spec.role_line context.now role.now }
{
    match place_of(context.rules.declared.as_slice(), role) {
        Some(place) => line_at(context.source.lines.roles.as_slice(), place as u64 + 1),
        None => None,
    }
}

/// Returns the place of a name among names.
fn place_of(names: &[Text], name: &str) -> Option<usize>
    ensures { result ≡ position (λ one. bytes_eq one name.now) names.now }
{
    names.iter().position(|one| one.as_str() == name)
}
