//! Findings as JSON.

ghost use Rattle.std.specs.Prelude.{◌≡◌, IfOk, OnOk, codes};
ghost use Rattle.serde_json.specs.Data.{put as with_member, string};
ghost use Rattle.serde_json.specs.View.{members_view, view};
ghost use Rattle.sv_report.specs.FindingJson as spec;

use crate::finding_words::kind_name;
use crate::json_words::{are_excepted, enters, names_in, roles_in};
use crate::members::{put_number, put_text, put_texts, put_truth};
use crate::report::{ContextReport, ReportedFinding};
use serde_json::{Map, Value};
use std::alloc::Global;
use sv_audit::Access;
use sv_constraints::Methods;
use sv_findings::Finding;
use sv_text::NoMemory;

/// Returns a finding of a context as a value.
pub fn finding_value(
    alloc: Global,
    context: &ContextReport,
    finding: &ReportedFinding,
) -> Result<Value, NoMemory>
    ensures { IfOk result (λ value. view value ≡ spec.finding_value context.now finding.now) }
{
    let kind = kind_name(&finding.finding);
    let mut members = Map::new(alloc);
    put_subject(&mut members, alloc, context.has_login, &finding.finding)?;
    put_truth(&mut members, alloc, "accepted", finding.is_accepted)?;
    put_number(&mut members, alloc, "constraint", finding.constraint)?;
    put_text(&mut members, alloc, "key", finding.key.as_str())?;
    put_text(&mut members, alloc, "kind", kind)?;
    put_number(&mut members, alloc, "line", finding.line)?;
    Ok(Value::Object(members))
}

/// Puts what a finding is about.
fn put_subject(
    members: &mut Map<String, Value>,
    alloc: Global,
    has_login: bool,
    finding: &Finding,
) -> Result<(), NoMemory>
    ensures { OnOk result (members_view members.new.entries ≡ spec.with_subject has_login finding.now (members_view members.old.entries)) }
{
    match finding {
        Finding::Opened(pattern, methods, opening, guarded) => {
            put_opened(
                members,
                alloc,
                pattern.as_str(),
                methods,
                *opening,
                *guarded,
            )
        }
        Finding::Uncovered(pattern, methods) => {
            put_methods(members, alloc, pattern.as_str(), methods)
        }
        Finding::ReadOtherwise(pattern, methods, other) => {
            put_other(members, alloc, pattern.as_str(), methods, other.as_str())
        }
        Finding::HeadDiffers(pattern, get, head) => {
            put_head(members, alloc, has_login, pattern.as_str(), get, head)
        }
        Finding::Dead(_) => Ok(()),
        Finding::DeadPattern(_, pattern) => put_text(members, alloc, "pattern", pattern.as_str()),
        Finding::Overruled(_) => Ok(()),
        Finding::Unreached(_, pattern) => put_text(members, alloc, "pattern", pattern.as_str()),
        Finding::Unserved(_, pattern) => put_text(members, alloc, "pattern", pattern.as_str()),
        Finding::Escaped(_, pattern) => put_text(members, alloc, "pattern", pattern.as_str()),
        Finding::LoginNeeds(path) => put_text(members, alloc, "path", path.as_str()),
        Finding::UnknownRole(_, role) => put_text(members, alloc, "role", role.as_str()),
        Finding::UnheldRole(role) => put_text(members, alloc, "role", role.as_str()),
        Finding::UnusedRole(role) => put_text(members, alloc, "role", role.as_str()),
    }
}

/// Puts the methods at a pattern, the constraint that opens it and one that restricts it.
fn put_opened(
    members: &mut Map<String, Value>,
    alloc: Global,
    pattern: &str,
    methods: &Methods,
    opening: u64,
    guarded: u64,
) -> Result<(), NoMemory>
    ensures { OnOk result (members_view members.new.entries ≡ spec.with_opened pattern.now methods.now opening guarded (members_view members.old.entries)) }
{
    put_number(members, alloc, "openConstraint", Some(opening))?;
    put_number(members, alloc, "roleConstraint", Some(guarded))?;
    put_methods(members, alloc, pattern, methods)
}

/// Puts the methods at a pattern, and another pattern.
fn put_other(
    members: &mut Map<String, Value>,
    alloc: Global,
    pattern: &str,
    methods: &Methods,
    other: &str,
) -> Result<(), NoMemory>
    ensures { OnOk result (members_view members.new.entries ≡ spec.with_methods pattern.now methods.now (with_member (codes "otherPattern") (string other.now) (members_view members.old.entries))) }
{
    put_text(members, alloc, "otherPattern", other)?;
    put_methods(members, alloc, pattern, methods)
}

/// Puts the callers to whom GET and HEAD are open at a pattern.
fn put_head(
    members: &mut Map<String, Value>,
    alloc: Global,
    has_login: bool,
    pattern: &str,
    get: &Access,
    head: &Access,
) -> Result<(), NoMemory>
    ensures { OnOk result (members_view members.new.entries ≡ spec.with_head has_login pattern.now get.now head.now (members_view members.old.entries)) }
{
    put_text(members, alloc, "get", enters(has_login, get))?;
    put_texts(members, alloc, "getRoles", roles_in(get))?;
    put_text(members, alloc, "head", enters(has_login, head))?;
    put_texts(members, alloc, "headRoles", roles_in(head))?;
    put_text(members, alloc, "pattern", pattern)
}

/// Puts the methods at a pattern.
fn put_methods(
    members: &mut Map<String, Value>,
    alloc: Global,
    pattern: &str,
    methods: &Methods,
) -> Result<(), NoMemory>
    ensures { OnOk result (members_view members.new.entries ≡ spec.with_methods pattern.now methods.now (members_view members.old.entries)) }
{
    put_texts(members, alloc, "methods", names_in(methods))?;
    put_truth(members, alloc, "others", are_excepted(methods))?;
    put_text(members, alloc, "pattern", pattern)
}
