//! What two servers decide differently as JSON.

ghost use Rattle.std.specs.Prelude.{◌≡◌, IfOk, OnOk, codes, map};
ghost use Rattle.std.specs.Option.{option_map};
ghost use Rattle.serde_json.specs.Data.{array, put as with_member, string};
ghost use Rattle.serde_json.specs.View.{items_of, members_view, view};
ghost use Rattle.sv_text.specs.Gives.{GivesAnswer};
ghost use Rattle.sv_report.specs.JsonParts as parts;
ghost use Rattle.sv_difference.specs.DifferenceJson as spec;
ghost use Rattle.sv_difference.specs.DifferenceText.{example_of, has_login};

use crate::contexts::{ContextDifference, ContextSide, ServerDifference};
use crate::difference::Difference;
use crate::lines::{example_of, has_login, kind_word};
use crate::opened_first::opened_first;
use serde_json::{Map, Value, json};
use std::alloc::Global;
use sv_audit::Access;
use sv_report::{
    are_excepted, enters, names_in, put_text, put_text_if, put_texts, put_truth, put_truth_if,
    put_value, roles_in,
};
use sv_text::{NoMemory, Text};
use sv_uri::shown_context;

/// Returns a report as one line of JSON (RFC 8259). Contexts in which something may have been opened come first. The
/// members of objects are in byte order of their names.
///
/// # Errors
/// `NoMemory` if memory runs out.
pub fn difference_json(alloc: Global, report: &ServerDifference) -> Result<Text, NoMemory>
    ensures { GivesAnswer result (spec.difference_json report.now) }
{
    let value = report_value(alloc, report)?;
    let mut text = value.to_string(alloc)?;
    text.push_str("\n")?;
    Ok(Text::from_string(text))
}

fn report_value(alloc: Global, report: &ServerDifference) -> Result<Value, NoMemory>
    ensures { IfOk result (λ value. view value ≡ spec.report_value report.now) }
{
    let ordered = opened_first(alloc, report.contexts.as_slice())?;
    let contexts = context_values(alloc, ordered.as_slice())?;
    Ok(json!(in alloc; {"contexts": contexts})?)
}

fn context_values(alloc: Global, contexts: &[&ContextDifference]) -> Result<Value, NoMemory>
    ensures { IfOk result (λ value. view value ≡ array (items_of (map spec.context_value (map (λ context. context.now) contexts.now)))) }
{
    let mut values = Vec::with_capacity(alloc, contexts.len())?;
    for context in contexts {
        values.push(context_value(alloc, context)?)?;
    }
    Ok(Value::Array(values))
}

fn context_value(alloc: Global, context: &ContextDifference) -> Result<Value, NoMemory>
    ensures { IfOk result (λ value. view value ≡ spec.context_value context.now) }
{
    let path = shown_context(context.path.as_str());
    let differences = difference_values(alloc, context, context.differences.as_slice())?;
    let mut members = Map::new(alloc);
    put_text(&mut members, alloc, "context", path)?;
    put_value(&mut members, alloc, "differences", differences)?;
    put_file(&mut members, alloc, "fileAfter", &context.after)?;
    put_file(&mut members, alloc, "fileBefore", &context.before)?;
    put_truth_if(&mut members, alloc, "loginAfter", login_in(&context.after))?;
    put_truth_if(
        &mut members,
        alloc,
        "loginBefore",
        login_in(&context.before),
    )?;
    Ok(Value::Object(members))
}

/// Puts the file of a side, or null.
fn put_file(
    members: &mut Map<String, Value>,
    alloc: Global,
    name: &str,
    side: &Option<ContextSide>,
) -> Result<(), NoMemory>
    ensures { OnOk result (members_view members.new.entries ≡ with_member name.now (parts.text_value (spec.file_in side.now)) (members_view members.old.entries)) }
{
    match side {
        None => put_text_if(members, alloc, name, &None),
        Some(side) => put_text(members, alloc, name, side.file.as_str()),
    }
}

fn login_in(side: &Option<ContextSide>) -> Option<bool>
    ensures { result ≡ spec.login_in side.now }
{
    match side {
        None => None,
        Some(side) => Some(side.has_login),
    }
}

fn difference_values(
    alloc: Global,
    context: &ContextDifference,
    differences: &[Difference],
) -> Result<Value, NoMemory>
    ensures { IfOk result (λ value. view value ≡ array (items_of (map (spec.difference_value context.now) differences.now))) }
{
    let mut values = Vec::with_capacity(alloc, differences.len())?;
    for difference in differences {
        values.push(difference_value(alloc, context, difference)?)?;
    }
    Ok(Value::Array(values))
}

fn difference_value(
    alloc: Global,
    context: &ContextDifference,
    difference: &Difference,
) -> Result<Value, NoMemory>
    ensures { IfOk result (λ value. view value ≡ spec.difference_value context.now difference.now) }
{
    let mut members = Map::new(alloc);
    put_access(
        &mut members,
        alloc,
        "after",
        has_login(&context.after),
        &difference.becomes,
    )?;
    put_access(
        &mut members,
        alloc,
        "before",
        has_login(&context.before),
        &difference.was,
    )?;
    put_requests(&mut members, alloc, context.path.as_str(), difference)?;
    Ok(Value::Object(members))
}

/// Puts who enters.
fn put_access(
    members: &mut Map<String, Value>,
    alloc: Global,
    name: &str,
    can_log_in: bool,
    access: &Access,
) -> Result<(), NoMemory>
    ensures { OnOk result (members_view members.new.entries ≡ with_member name.now (spec.access_value can_log_in access.now) (members_view members.old.entries)) }
{
    let value = access_value(alloc, can_log_in, access)?;
    put_value(members, alloc, name, value)
}

fn access_value(alloc: Global, can_log_in: bool, access: &Access) -> Result<Value, NoMemory>
    ensures { IfOk result (λ value. view value ≡ spec.access_value can_log_in access.now) }
{
    let mut members = Map::new(alloc);
    put_text(&mut members, alloc, "enters", enters(can_log_in, access))?;
    put_texts(&mut members, alloc, "roles", roles_in(access))?;
    Ok(Value::Object(members))
}

/// Puts the requests of a difference.
fn put_requests(
    members: &mut Map<String, Value>,
    alloc: Global,
    context: &str,
    difference: &Difference,
) -> Result<(), NoMemory>
    ensures { OnOk result (members_view members.new.entries ≡ spec.with_requests context.now difference.now (members_view members.old.entries)) }
{
    let example = example_of(alloc, context, difference)?;
    put_text(members, alloc, "example", example.as_str())?;
    put_text(members, alloc, "kind", kind_word(difference.kind))?;
    put_texts(members, alloc, "methods", names_in(&difference.methods))?;
    put_truth(members, alloc, "others", are_excepted(&difference.methods))?;
    put_text_if(members, alloc, "patternAfter", &difference.after)?;
    put_text_if(members, alloc, "patternBefore", &difference.before)
}
