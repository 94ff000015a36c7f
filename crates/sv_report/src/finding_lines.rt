//! The lines that report findings.

ghost use Rattle.std.specs.Prelude.{◌≡◌, ◌++◌, OnOk, string_bytes};
ghost use Rattle.std.specs.List.{flat_map};
ghost use Rattle.sv_report.specs.FindingText as spec;

use crate::finding_words::{heading, problem_text, remedy, unsearched_text};
use crate::parts::push_all;
use crate::places::place_text;
use crate::report::{ContextReport, ReportedFinding};
use std::alloc::Global;
use sv_findings::Unsearched;
use sv_text::NoMemory;

/// Appends two lines for each finding of a context: what it is, and what to write.
pub fn push_findings(
    text: &mut String,
    alloc: Global,
    context: &ContextReport,
    findings: &[ReportedFinding],
) -> Result<(), NoMemory>
    ensures { OnOk result (string_bytes text.new ≡ string_bytes text.old ++ flat_map (spec.finding_lines context.now) findings.now) }
{
    for finding in findings {
        push_finding(text, alloc, context, finding)?;
    }
    Ok(())
}

fn push_finding(
    text: &mut String,
    alloc: Global,
    context: &ContextReport,
    finding: &ReportedFinding,
) -> Result<(), NoMemory>
    ensures { OnOk result (string_bytes text.new ≡ string_bytes text.old ++ spec.finding_lines context.now finding.now) }
{
    let problem = problem_text(alloc, context.has_login, &finding.finding)?;
    let place = place_text(alloc, context.file.as_str(), finding.line)?;
    push_all(
        text,
        &[
            heading(finding.is_accepted),
            ": ",
            problem.as_str(),
            place.as_str(),
            "\n  ",
            remedy(&finding.finding),
            "\n",
        ],
    )
}

/// Appends a line for each kind of findings that is not looked for.
pub fn push_unsearched(text: &mut String, kinds: &[Unsearched]) -> Result<(), NoMemory>
    ensures { OnOk result (string_bytes text.new ≡ string_bytes text.old ++ flat_map spec.unsearched_line kinds.now) }
{
    for kind in kinds {
        push_unsearched_kind(text, kind)?;
    }
    Ok(())
}

#[tactic(auto, unfolding(crate::specs::FindingText::unsearched_line))]
fn push_unsearched_kind(text: &mut String, kind: &Unsearched) -> Result<(), NoMemory>
    ensures { OnOk result (string_bytes text.new ≡ string_bytes text.old ++ spec.unsearched_line kind.now) }
{
    push_all(text, &["not looked for: ", unsearched_text(kind), "\n"])
}
