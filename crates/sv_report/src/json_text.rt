//! Access tables and their findings as JSON, written value by value.

ghost use Rattle.std.specs.Prelude.{◌≡◌, ◌++◌, false, OnOk, codes, map, string_bytes};
ghost use Rattle.std.specs.List.{flat_map};
ghost use Rattle.serde_json.specs.Data.{array, boolean, string};
ghost use Rattle.serde_json.specs.View.{items_of, view};
ghost use Rattle.serde_json.specs.Written.{compact_text, has_float};
ghost use Rattle.sv_uri.specs.ContextPath.{shown_context};
ghost use Rattle.sv_text.specs.Gives.{GivesAnswer};
ghost use Rattle.sv_report.specs.FindingJson.{finding_value as value_of};
ghost use Rattle.sv_report.specs.Json as spec;
ghost use Rattle.sv_report.specs.JsonParts.{strings as strings_of, unsearched_value};

use crate::finding_values::finding_value;
use crate::members::{strings, unsearched_names};
use crate::report::{ContextReport, ReportedFinding, ReportedRow, Viewer};
use crate::values::{row_value, viewer_value};
use serde_json::Value;
use std::alloc::Global;
use sv_findings::Unsearched;
use sv_text::{NoMemory, Text};
use sv_uri::shown_context;

/// Returns the access tables and the findings of contexts as one line of JSON (RFC 8259). The members of objects are in
/// byte order of their names. At most one row or finding is a value at a time.
///
/// # Errors
/// `NoMemory` if memory runs out.
pub fn audit_json(alloc: Global, contexts: &[ContextReport]) -> Result<Text, NoMemory>
    ensures { GivesAnswer result (spec.audit_json contexts.now) }
{
    let mut text = String::new(alloc);
    text.push_str("{\"contexts\":")?;
    push_contexts(&mut text, alloc, contexts)?;
    text.push_str("}\n")?;
    Ok(Text::from_string(text))
}

fn push_contexts(
    text: &mut String,
    alloc: Global,
    contexts: &[ContextReport],
) -> Result<(), NoMemory>
    ensures { OnOk result (string_bytes text.new ≡ string_bytes text.old ++ compact_text (array (items_of (map spec.context_value contexts.now)))) }
{
    let Some((context, others)) = contexts.split_first() else {
        return Ok(text.push_str("[]")?);
    };
    text.push_str("[")?;
    push_context(text, alloc, context)?;
    push_other_contexts(text, alloc, others)?;
    Ok(text.push_str("]")?)
}

/// Appends contexts, each after a comma.
fn push_other_contexts(
    text: &mut String,
    alloc: Global,
    others: &[ContextReport],
) -> Result<(), NoMemory>
    ensures { OnOk result (string_bytes text.new ≡ string_bytes text.old ++ flat_map (λ other. codes "," ++ compact_text (spec.context_value other)) others.now) }
{
    for other in others {
        text.push_str(",")?;
        push_context(text, alloc, other)?;
    }
    Ok(())
}

fn push_context(text: &mut String, alloc: Global, context: &ContextReport) -> Result<(), NoMemory>
    ensures { OnOk result (string_bytes text.new ≡ string_bytes text.old ++ compact_text (spec.context_value context.now)) }
{
    push_start(text, alloc, context)?;
    push_findings(text, alloc, context, context.findings.as_slice())?;
    push_facts(text, alloc, context)?;
    push_rows(text, alloc, context, context.rows.as_slice())?;
    push_end(text, alloc, context)
}

/// Appends the members of a context before its findings.
fn push_start(text: &mut String, alloc: Global, context: &ContextReport) -> Result<(), NoMemory>
    ensures { OnOk result (string_bytes text.new ≡ string_bytes text.old ++ (codes "{\"context\":" ++ compact_text (string (shown_context context.now.path))
        ++ codes ",\"file\":" ++ compact_text (string context.now.file) ++ codes ",\"findings\":")) }
{
    text.push_str("{\"context\":")?;
    push_text(text, alloc, shown_context(context.path.as_str()))?;
    text.push_str(",\"file\":")?;
    push_text(text, alloc, context.file.as_str())?;
    Ok(text.push_str(",\"findings\":")?)
}

/// Appends the members of a context between its findings and its rows.
fn push_facts(text: &mut String, alloc: Global, context: &ContextReport) -> Result<(), NoMemory>
    ensures { OnOk result (string_bytes text.new ≡ string_bytes text.old ++ (codes ",\"hidden\":[\"/WEB-INF/*\",\"/META-INF/*\"],\"login\":" ++ compact_text (boolean context.now.has_login)
        ++ codes ",\"loginPost\":" ++ compact_text (boolean context.now.has_login) ++ codes ",\"otherContexts\":" ++ compact_text (strings_of context.now.others) ++ codes ",\"rows\":")) }
{
    text.push_str(",\"hidden\":[\"/WEB-INF/*\",\"/META-INF/*\"],\"login\":")?;
    text.push_str(truth_word(context.has_login))?;
    text.push_str(",\"loginPost\":")?;
    text.push_str(truth_word(context.has_login))?;
    text.push_str(",\"otherContexts\":")?;
    push_strings(text, alloc, context.others.as_slice())?;
    Ok(text.push_str(",\"rows\":")?)
}

fn push_strings(text: &mut String, alloc: Global, texts: &[Text]) -> Result<(), NoMemory>
    ensures { OnOk result (string_bytes text.new ≡ string_bytes text.old ++ compact_text (strings_of texts.now)) }
{
    let value = strings(alloc, texts)?;
    push_value(text, alloc, &value)
}

/// Appends the members of a context after its rows.
fn push_end(text: &mut String, alloc: Global, context: &ContextReport) -> Result<(), NoMemory>
    ensures { OnOk result (string_bytes text.new ≡ string_bytes text.old ++ (codes ",\"unsearched\":" ++ compact_text (unsearched_value context.now.unsearched)
        ++ codes ",\"viewer\":" ++ compact_text (spec.viewer_value context.now.viewer) ++ codes "}")) }
{
    text.push_str(",\"unsearched\":")?;
    push_unsearched(text, alloc, context.unsearched.as_slice())?;
    text.push_str(",\"viewer\":")?;
    push_viewer(text, alloc, &context.viewer)?;
    Ok(text.push_str("}")?)
}

fn push_unsearched(text: &mut String, alloc: Global, kinds: &[Unsearched]) -> Result<(), NoMemory>
    ensures { OnOk result (string_bytes text.new ≡ string_bytes text.old ++ compact_text (unsearched_value kinds.now)) }
{
    let value = unsearched_names(alloc, kinds)?;
    push_value(text, alloc, &value)
}

fn truth_word(holds: bool) -> &'static str
    ensures { result.now ≡ compact_text (boolean holds) }
{
    if holds { "true" } else { "false" }
}

fn push_findings(
    text: &mut String,
    alloc: Global,
    context: &ContextReport,
    findings: &[ReportedFinding],
) -> Result<(), NoMemory>
    ensures { OnOk result (string_bytes text.new ≡ string_bytes text.old ++ compact_text (array (items_of (map (value_of context.now) findings.now)))) }
{
    let Some((finding, others)) = findings.split_first() else {
        return Ok(text.push_str("[]")?);
    };
    text.push_str("[")?;
    push_finding(text, alloc, context, finding)?;
    push_other_findings(text, alloc, context, others)?;
    Ok(text.push_str("]")?)
}

/// Appends findings, each after a comma.
fn push_other_findings(
    text: &mut String,
    alloc: Global,
    context: &ContextReport,
    others: &[ReportedFinding],
) -> Result<(), NoMemory>
    ensures { OnOk result (string_bytes text.new ≡ string_bytes text.old ++ flat_map (λ other. codes "," ++ compact_text (value_of context.now other)) others.now) }
{
    for other in others {
        text.push_str(",")?;
        push_finding(text, alloc, context, other)?;
    }
    Ok(())
}

fn push_finding(
    text: &mut String,
    alloc: Global,
    context: &ContextReport,
    finding: &ReportedFinding,
) -> Result<(), NoMemory>
    ensures { OnOk result (string_bytes text.new ≡ string_bytes text.old ++ compact_text (value_of context.now finding.now)) }
{
    let value = finding_value(alloc, context, finding)?;
    push_value(text, alloc, &value)
}

fn push_rows(
    text: &mut String,
    alloc: Global,
    context: &ContextReport,
    rows: &[ReportedRow],
) -> Result<(), NoMemory>
    ensures { OnOk result (string_bytes text.new ≡ string_bytes text.old ++ compact_text (array (items_of (map (spec.row_value context.now) rows.now)))) }
{
    let Some((row, others)) = rows.split_first() else {
        return Ok(text.push_str("[]")?);
    };
    text.push_str("[")?;
    push_row(text, alloc, context, row)?;
    push_other_rows(text, alloc, context, others)?;
    Ok(text.push_str("]")?)
}

/// Appends rows, each after a comma.
fn push_other_rows(
    text: &mut String,
    alloc: Global,
    context: &ContextReport,
    others: &[ReportedRow],
) -> Result<(), NoMemory>
    ensures { OnOk result (string_bytes text.new ≡ string_bytes text.old ++ flat_map (λ other. codes "," ++ compact_text (spec.row_value context.now other)) others.now) }
{
    for other in others {
        text.push_str(",")?;
        push_row(text, alloc, context, other)?;
    }
    Ok(())
}

fn push_row(
    text: &mut String,
    alloc: Global,
    context: &ContextReport,
    row: &ReportedRow,
) -> Result<(), NoMemory>
    ensures { OnOk result (string_bytes text.new ≡ string_bytes text.old ++ compact_text (spec.row_value context.now row.now)) }
{
    let value = row_value(alloc, context, row)?;
    push_value(text, alloc, &value)
}

fn push_viewer(text: &mut String, alloc: Global, viewer: &Option<Viewer>) -> Result<(), NoMemory>
    ensures { OnOk result (string_bytes text.new ≡ string_bytes text.old ++ compact_text (spec.viewer_value viewer.now)) }
{
    let value = viewer_value(alloc, viewer)?;
    push_value(text, alloc, &value)
}

fn push_text(text: &mut String, alloc: Global, part: &str) -> Result<(), NoMemory>
    ensures { OnOk result (string_bytes text.new ≡ string_bytes text.old ++ compact_text (string part.now)) }
{
    let value = Value::try_from_str(alloc, part)?;
    push_value(text, alloc, &value)
}

/// Appends a value without floats.
fn push_value(text: &mut String, alloc: Global, value: &Value) -> Result<(), NoMemory>
    ensures { OnOk result (has_float (view value.now) ≡ false → string_bytes text.new ≡ string_bytes text.old ++ compact_text (view value.now)) }
{
    let written = value.to_string(alloc)?;
    Ok(text.push_str(written.as_str())?)
}
