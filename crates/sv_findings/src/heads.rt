//! Patterns at which some visitor fares differently with GET and with HEAD.

ghost use Rattle.std.specs.Prelude.{◌≡◌, ◌++◌, OnOk, codes, map};
ghost use Rattle.std.specs.List.{flat_map};
ghost use Rattle.sv_constraints.specs.Covering.{covers_method};
ghost use Rattle.sv_audit.specs.Callers.{has_method};
ghost use Rattle.sv_text.specs.Gives.{GivesAnswer};
ghost use Rattle.sv_findings.specs.Heads as spec;
ghost use Rattle.sv_findings.specs.declared.finding.Finding.TheVariants as finding;

use crate::finding::Finding;
use std::alloc::Global;
use sv_audit::{Access, Group, Logins, Row, copied_access, same_fates};
use sv_constraints::{Methods, lists};
use sv_text::{NoMemory, Text};

/// Appends the patterns of the rows at which some visitor fares differently with GET and with HEAD, in a context with or
/// without a login configuration.
pub fn push_heads(
    findings: &mut Vec<Finding>,
    alloc: Global,
    has_login: bool,
    rows: &[&Row],
) -> Result<(), NoMemory>
    ensures { OnOk result (findings.new.items ≡ findings.old.items ++ flat_map (λ row. spec.head_at has_login row.pattern row.groups) (map (λ row. row.now) rows.now)) }
{
    for row in rows {
        push_head(
            findings,
            alloc,
            has_login,
            &row.pattern,
            row.groups.as_slice(),
        )?;
    }
    Ok(())
}

fn push_head(
    findings: &mut Vec<Finding>,
    alloc: Global,
    has_login: bool,
    pattern: &Option<Text>,
    groups: &[Group],
) -> Result<(), NoMemory>
    ensures { OnOk result (findings.new.items ≡ findings.old.items ++ spec.head_at has_login pattern.now groups.now) }
{
    let Some(pattern) = pattern else {
        return Ok(());
    };
    push_gets(findings, alloc, has_login, pattern.as_str(), groups)
}

/// Appends a pattern for each group of GET, if some visitor fares differently with HEAD.
fn push_gets(
    findings: &mut Vec<Finding>,
    alloc: Global,
    has_login: bool,
    pattern: &str,
    groups: &[Group],
) -> Result<(), NoMemory>
    ensures { OnOk result (findings.new.items ≡ findings.old.items ++ spec.head_on has_login pattern.now groups.now) }
{
    for get in groups {
        if is_method_of("GET", get) {
            push_straying(
                findings,
                alloc,
                has_login,
                pattern,
                &get.cell.access,
                groups,
            )?;
        }
    }
    Ok(())
}

/// Appends the pattern, if some visitor fares differently with HEAD than with GET of this access.
fn push_straying(
    findings: &mut Vec<Finding>,
    alloc: Global,
    has_login: bool,
    pattern: &str,
    get: &Access,
    groups: &[Group],
) -> Result<(), NoMemory>
    ensures { OnOk result (findings.new.items ≡ findings.old.items ++ spec.straying has_login pattern.now groups.now get.now) }
{
    for head in groups {
        if strays(has_login, get, head) {
            findings.push(head_differs(alloc, pattern, get, &head.cell.access)?)?;
        }
    }
    Ok(())
}

fn head_differs(
    alloc: Global,
    pattern: &str,
    get: &Access,
    head: &Access,
) -> Result<Finding, NoMemory>
    ensures { GivesAnswer result (finding.HeadDiffers pattern.now get.now head.now) }
{
    Ok(Finding::HeadDiffers(
        Text::copy_of(alloc, pattern)?,
        copied_access(alloc, get)?,
        copied_access(alloc, head)?,
    ))
}

/// Returns whether the group has HEAD, and some visitor fares differently with it than with GET.
fn strays(has_login: bool, get: &Access, head: &Group) -> bool
    ensures { result ≡ spec.strays has_login get.now head.now }
{
    let logins = Logins {
        before: has_login,
        after: has_login,
    };
    is_method_of("HEAD", head) && !same_fates(logins, get, &head.cell.access)
}

fn is_method_of(method: &str, group: &Group) -> bool
    ensures { result ≡ has_method method.now group.now }
{
    covers_method(&group.methods, method)
}

/// Returns whether the method is among the methods.
pub fn covers_method(methods: &Methods, method: &str) -> bool
    ensures { result ≡ covers_method methods.now method.now }
{
    match methods {
        Methods::All => true,
        Methods::Only(names) => lists(names.as_slice(), method),
        Methods::Except(names) => !lists(names.as_slice(), method),
    }
}
