//! Rows of access tables as JSON values.

ghost use Rattle.std.specs.Prelude.{◌≡◌, IfOk, OnOk, map};
ghost use Rattle.serde_json.specs.Data.{array};
ghost use Rattle.serde_json.specs.View.{items_of, members_view, view};
ghost use Rattle.sv_report.specs.Json as spec;

use crate::details::example_location;
use crate::json_words::{are_excepted, because, enters, names_in, roles_in};
use crate::members::{
    put_number, put_text, put_text_if, put_texts, put_truth, put_truth_if, put_value,
};
use crate::places::line_of;
use crate::report::{Answers, ContextReport, ReportedRow, Viewer};
use crate::viewers::may_enter;
use serde_json::{Map, Value};
use std::alloc::Global;
use sv_audit::{Access, Group};
use sv_findings::Reach;
use sv_text::NoMemory;

/// Returns the viewer as a value, or null.
pub fn viewer_value(alloc: Global, viewer: &Option<Viewer>) -> Result<Value, NoMemory>
    ensures { IfOk result (λ value. view value ≡ spec.viewer_value viewer.now) }
{
    match viewer {
        None => Ok(Value::Null),
        Some(viewer) => named_viewer(alloc, viewer),
    }
}

fn named_viewer(alloc: Global, viewer: &Viewer) -> Result<Value, NoMemory>
    ensures { IfOk result (λ value. view value ≡ spec.named_viewer viewer.now) }
{
    let mut members = Map::new(alloc);
    put_text(&mut members, alloc, "name", viewer.name.as_str())?;
    put_texts(&mut members, alloc, "roles", viewer.roles.as_slice())?;
    Ok(Value::Object(members))
}

/// Returns a row as a value. One that no request meets shows nobody who enters, and nothing that answers.
#[tactic(auto, unfolding(crate::specs::Json::row_value))]
pub fn row_value(
    alloc: Global,
    context: &ContextReport,
    row: &ReportedRow,
) -> Result<Value, NoMemory>
    ensures { IfOk result (λ value. view value ≡ spec.row_value context.now row.now) }
{
    match &row.reach {
        Reach::Reached => met_value(alloc, context, row),
        Reach::Hidden => unmet_value(alloc, row),
        Reach::Elsewhere(_) => unmet_value(alloc, row),
        Reach::Unmatched => unmet_value(alloc, row),
    }
}

fn met_value(alloc: Global, context: &ContextReport, row: &ReportedRow) -> Result<Value, NoMemory>
    ensures { IfOk result (λ value. view value ≡ spec.met_value context.now row.now) }
{
    let groups = group_values(alloc, context, row.row.groups.as_slice())?;
    let example = example_location(alloc, context.path.as_str(), &row.example)?;
    let other = elsewhere(alloc, &row.reach)?;
    let answers = answers_value(alloc, &row.answers)?;
    let narrower = row.narrower.patterns.as_slice();
    let mut members = Map::new(alloc);
    put_value(&mut members, alloc, "answers", answers)?;
    put_value(&mut members, alloc, "context", other)?;
    put_text_if(&mut members, alloc, "example", &example)?;
    put_value(&mut members, alloc, "groups", groups)?;
    put_texts(&mut members, alloc, "narrower", narrower)?;
    put_truth(
        &mut members,
        alloc,
        "narrowerComplete",
        row.narrower.are_all,
    )?;
    put_text_if(&mut members, alloc, "pattern", &row.row.pattern)?;
    put_text(&mut members, alloc, "reach", reach_word(&row.reach))?;
    put_text_if(&mut members, alloc, "servlet", &row.servlet)?;
    Ok(Value::Object(members))
}

fn unmet_value(alloc: Global, row: &ReportedRow) -> Result<Value, NoMemory>
    ensures { IfOk result (λ value. view value ≡ spec.unmet_value row.now) }
{
    let other = elsewhere(alloc, &row.reach)?;
    let mut members = Map::new(alloc);
    put_value(&mut members, alloc, "answers", Value::Null)?;
    put_value(&mut members, alloc, "context", other)?;
    put_value(&mut members, alloc, "example", Value::Null)?;
    put_texts(&mut members, alloc, "groups", &[])?;
    put_texts(&mut members, alloc, "narrower", &[])?;
    put_truth(&mut members, alloc, "narrowerComplete", true)?;
    put_text_if(&mut members, alloc, "pattern", &row.row.pattern)?;
    put_text(&mut members, alloc, "reach", reach_word(&row.reach))?;
    put_value(&mut members, alloc, "servlet", Value::Null)?;
    Ok(Value::Object(members))
}

/// Returns what answers the paths of a row as a value, or null.
fn answers_value(alloc: Global, answers: &Option<Answers>) -> Result<Value, NoMemory>
    ensures { IfOk result (λ value. view value ≡ spec.answers_value answers.now) }
{
    match answers {
        None => Ok(Value::Null),
        Some(answers) => listed_answers(alloc, answers),
    }
}

fn listed_answers(alloc: Global, answers: &Answers) -> Result<Value, NoMemory>
    ensures { IfOk result (λ value. view value ≡ spec.listed_answers answers.now) }
{
    let mut members = Map::new(alloc);
    put_truth(&mut members, alloc, "files", answers.has_files)?;
    put_texts(&mut members, alloc, "servlets", answers.servlets.as_slice())?;
    Ok(Value::Object(members))
}

fn reach_word(reach: &Reach) -> &'static str
    ensures { result.now ≡ spec.reach_word reach.now }
{
    match reach {
        Reach::Reached => "reached",
        Reach::Hidden => "hidden",
        Reach::Elsewhere(_) => "elsewhere",
        Reach::Unmatched => "unmatched",
    }
}

/// Returns the path of the context that has the paths of a pattern instead, or null.
fn elsewhere(alloc: Global, reach: &Reach) -> Result<Value, NoMemory>
    ensures { IfOk result (λ value. view value ≡ spec.elsewhere reach.now) }
{
    match reach {
        Reach::Reached => Ok(Value::Null),
        Reach::Hidden => Ok(Value::Null),
        Reach::Elsewhere(path) => Ok(Value::try_from_str(alloc, path.as_str())?),
        Reach::Unmatched => Ok(Value::Null),
    }
}

fn group_values(alloc: Global, context: &ContextReport, groups: &[Group]) -> Result<Value, NoMemory>
    ensures { IfOk result (λ value. view value ≡ array (items_of (map (spec.group_value context.now) groups.now))) }
{
    let mut values = Vec::with_capacity(alloc, groups.len())?;
    for group in groups {
        values.push(group_value(alloc, context, group)?)?;
    }
    Ok(Value::Array(values))
}

fn group_value(alloc: Global, context: &ContextReport, group: &Group) -> Result<Value, NoMemory>
    ensures { IfOk result (λ value. view value ≡ spec.group_value context.now group.now) }
{
    let constraint = group.cell.constraint;
    let line = line_of(context.lines.as_slice(), constraint);
    let mut members = Map::new(alloc);
    put_access(&mut members, alloc, context, &group.cell.access)?;
    put_number(&mut members, alloc, "constraint", constraint)?;
    put_number(&mut members, alloc, "line", line)?;
    put_texts(&mut members, alloc, "methods", names_in(&group.methods))?;
    put_truth(&mut members, alloc, "others", are_excepted(&group.methods))?;
    Ok(Value::Object(members))
}

/// Puts who may enter, and why.
fn put_access(
    members: &mut Map<String, Value>,
    alloc: Global,
    context: &ContextReport,
    access: &Access,
) -> Result<(), NoMemory>
    ensures { OnOk result (members_view members.new.entries ≡ spec.with_access context.now access.now (members_view members.old.entries)) }
{
    let has_login = context.has_login;
    let viewer_enters = viewer_enters(&context.viewer, has_login, access);
    put_text(members, alloc, "because", because(has_login, access))?;
    put_text(members, alloc, "enters", enters(has_login, access))?;
    put_texts(members, alloc, "roles", roles_in(access))?;
    put_truth_if(members, alloc, "viewerEnters", viewer_enters)
}

fn viewer_enters(viewer: &Option<Viewer>, has_login: bool, access: &Access) -> Option<bool>
    ensures { result ≡ spec.viewer_enters viewer.now has_login access.now }
{
    match viewer {
        None => None,
        Some(viewer) => Some(may_enter(viewer, has_login, access)),
    }
}
