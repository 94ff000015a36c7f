//! The report of the command `audit`, from the texts of the files.

ghost use Rattle.std.specs.List.{flat_map};
ghost use Rattle.std.specs.Prelude.{◌≡◌, ◌++◌, IfOk, OnOk, filter, length, map, option_copied};
ghost use Rattle.sv_text.specs.Gives.{Gives, GivesAnswer};
ghost use Rattle.sv_program.specs.CommandFault.{command_fault};
ghost use Rattle.sv_audit_command.specs.Report as spec;

use crate::access_options::{AccessOptions, Format};
use crate::compared_servers;
use crate::compared_servers::{difference, opened_count, other_server};
use crate::context_reports::{Asking, context_reports};
use crate::explained_request::explained;
use crate::further_files::{FurtherFiles, OtherFiles, asked_text};
use crate::kinds::lists_kind;
use crate::viewer::check_viewer;
use std::alloc::Global;
use sv_audited_contexts::{AuditedContext, ContextOptions, audited_contexts, located};
use sv_deployments::FoundContext;
use sv_page::audit_html;
use sv_program::CommandFault;
use sv_report::{ContextReport, ReportedFinding, audit_json, audit_text, keys_text, kind_name};
use sv_text::{Listed, NoMemory, Text};

/// A report on access.
#[derive(Drop)]
pub struct Report {
    /// The text of the report.
    pub text: Text,
    /// The number of the findings that must not be there.
    pub count: u64,
}

/// Returns the report on contexts of which this was found, and from these further files.
///
/// # Errors
/// The first fault: of the descriptor and the users of each context, of the accepting file, of the file of lines, then
/// [`CommandFault::User`] if no context has the user, or [`CommandFault::Role`] if none knows the role, and then
/// [`CommandFault::Method`] if the method of the request that is explained is not a token, or the fault of the other
/// server file or of the files of its contexts. Or [`CommandFault::NoMemory`].
pub(crate) fn report_on(
    alloc: Global,
    found: &[FoundContext],
    files: &FurtherFiles,
    options: &AccessOptions<'_>,
) -> Result<Report, CommandFault>
    ensures { Gives command_fault result (spec.report_on options.now found.now files.now) }
{
    let contexts = audited_contexts(alloc, found, context_options(options))?;
    let accepted = asked_text(alloc, options.accept, &files.accept)?;
    let lines = asked_text(alloc, options.lines, &files.lines)?;
    check_viewer(alloc, options.viewer, contexts.as_slice())?;
    let contexts = located(alloc, options.lines, lines.as_str(), contexts)?;
    report_by(alloc, contexts, accepted.as_str(), &files.other, options)
}

/// Returns how contexts are read: the descriptors are kept if the report is on one request.
fn context_options(options: &AccessOptions<'_>) -> ContextOptions
    ensures { result ≡ spec.context_options options.now }
{
    ContextOptions {
        is_secure: options.is_secure,
        keeps_descriptor: options.path.is_some(),
        has_unknown_files: options.has_unknown_files,
    }
}

/// Returns the report on one request if its target is named, otherwise the one on differences if another server file is
/// named, and otherwise the one on all access.
fn report_by(
    alloc: Global,
    contexts: Listed<AuditedContext>,
    accepted: &str,
    other: &OtherFiles,
    options: &AccessOptions<'_>,
) -> Result<Report, CommandFault>
    ensures { Gives command_fault result (spec.report_by options.now (option_copied options.now.path) accepted.now other.now contexts) }
{
    match options.path {
        Some(target) => explanation_report(alloc, contexts, target, options),
        None => access_report(alloc, contexts, accepted, other, options),
    }
}

fn access_report(
    alloc: Global,
    contexts: Listed<AuditedContext>,
    accepted: &str,
    other: &OtherFiles,
    options: &AccessOptions<'_>,
) -> Result<Report, CommandFault>
    ensures { Gives command_fault result (spec.access_report options.now (option_copied options.now.diff) accepted.now other.now contexts) }
{
    match options.diff {
        Some(name) => difference_report(alloc, contexts, name, other, options),
        None => Ok(report_of(alloc, contexts, accepted, options)?),
    }
}

/// Returns the report on the differences between the contexts and those of the other server, whose file has this name.
fn difference_report(
    alloc: Global,
    contexts: Listed<AuditedContext>,
    name: &str,
    other: &OtherFiles,
    options: &AccessOptions<'_>,
) -> Result<Report, CommandFault>
    ensures { Gives command_fault result (spec.difference_report options.now name.now other.now contexts) }
{
    let others = other_server(alloc, options.is_secure, name, other)?;
    let found = difference(alloc, contexts, others.as_slice())?;
    Ok(Report {
        text: compared_servers::written(alloc, options.format, &found)?,
        count: opened_count(options.fail_on, &found),
    })
}

fn explanation_report(
    alloc: Global,
    contexts: Listed<AuditedContext>,
    target: &str,
    options: &AccessOptions<'_>,
) -> Result<Report, CommandFault>
    ensures { Gives command_fault result (spec.explanation_report options.now target.now contexts) }
{
    Ok(Report {
        text: explained(alloc, contexts, target, options)?,
        count: 0,
    })
}

fn report_of(
    alloc: Global,
    contexts: Listed<AuditedContext>,
    accepted: &str,
    options: &AccessOptions<'_>,
) -> Result<Report, NoMemory>
    ensures { GivesAnswer result (spec.report_of options.now accepted.now contexts) }
{
    let asking = Asking {
        viewer: options.viewer,
        accepted,
    };
    let reports = context_reports(alloc, contexts, asking)?;
    Ok(Report {
        text: written(alloc, reports.as_slice(), options.format)?,
        count: failing_count(alloc, reports.as_slice(), options.fail_on)?,
    })
}

/// Returns the reports in this form.
fn written(alloc: Global, reports: &[ContextReport], format: Format) -> Result<Text, NoMemory>
    ensures { GivesAnswer result (spec.written format reports.now) }
{
    match format {
        Format::Text => audit_text(alloc, reports),
        Format::Json => audit_json(alloc, reports),
        Format::Html => audit_html(alloc, reports),
        Format::Keys => keys_text(alloc, reports),
    }
}

/// Returns the number of findings that are of these kinds and not accepted. Without kinds there are none.
fn failing_count(
    alloc: Global,
    reports: &[ContextReport],
    kinds: Option<&str>,
) -> Result<u64, NoMemory>
    ensures { GivesAnswer result (spec.failing_count (option_copied kinds.entry) reports.now) }
{
    let Some(kinds) = kinds else {
        return Ok(0);
    };
    Ok(failing(alloc, reports, kinds)?.len() as u64)
}

/// Returns the findings that are of these kinds and not accepted.
fn failing<'a>(
    alloc: Global,
    reports: &'a [ContextReport],
    kinds: &str,
) -> Result<Vec<&'a ReportedFinding>, NoMemory>
    ensures { IfOk result (λ failing. map (λ finding. finding.now) failing.items ≡ spec.failing kinds.now reports.now) }
{
    let mut failing = Vec::new(alloc);
    for report in reports {
        push_failing(&mut failing, report.findings.as_slice(), kinds)?;
    }
    Ok(failing)
}

fn push_failing<'a>(
    failing: &mut Vec<&'a ReportedFinding>,
    findings: &'a [ReportedFinding],
    kinds: &str,
) -> Result<(), NoMemory>
    ensures { OnOk result (map (λ finding. finding.now) failing.new.items ≡ map (λ finding. finding.now) failing.old.items ++ filter (spec.fails kinds.now) findings.now) }
{
    for finding in findings {
        if fails(kinds, finding) {
            failing.push(finding)?;
        }
    }
    Ok(())
}

/// Returns whether the finding is of these kinds and not accepted.
fn fails(kinds: &str, finding: &ReportedFinding) -> bool
    ensures { result ≡ spec.fails kinds.now finding.now }
{
    !finding.is_accepted && lists_kind(kinds, kind_name(&finding.finding))
}
