//! Roles that are named, declared or held, but not all three.

ghost use Rattle.std.specs.Prelude.{◌≡◌, ◌++◌, IfOk, OnOk, filter, map};
ghost use Rattle.std.specs.List.{flat_map};
ghost use Rattle.sv_constraints.specs.Covering as covering;
ghost use Rattle.sv_policy.specs.Patterns.{different, kept_once};
ghost use Rattle.sv_findings.specs.RoleFindings as spec;
ghost use Rattle.sv_findings.specs.declared.finding.Finding.TheVariants as finding;

use crate::finding::Finding;
use std::alloc::Global;
use sv_audit::{is_among, push_meant, sorted};
use sv_constraints::{Auth, Constraint, EVERY_CALLER, EVERY_ROLE, lists};
use sv_text::{Listed, NoMemory, Text};

/// Appends the roles that are not declared, those that no user has, and those that no constraint names, given the
/// declared roles and those that users have, if users are known.
pub fn push_by_role(
    findings: &mut Vec<Finding>,
    alloc: Global,
    declared: &[Text],
    held: &Option<Listed<Text>>,
    constraints: &[Constraint],
) -> Result<(), NoMemory>
    ensures { OnOk result (findings.new.items ≡ findings.old.items ++ spec.role_findings declared.now held.now constraints.now) }
{
    push_unknown(findings, alloc, declared, constraints)?;
    push_unheld(findings, alloc, declared, held, constraints)?;
    push_unused(findings, alloc, declared, constraints)
}

/// Appends the roles that are not declared, each role of a constraint once.
fn push_unknown(
    findings: &mut Vec<Finding>,
    alloc: Global,
    declared: &[Text],
    constraints: &[Constraint],
) -> Result<(), NoMemory>
    ensures { OnOk result (findings.new.items ≡ findings.old.items ++ spec.unknown_among declared.now constraints.now) }
{
    for constraint in constraints {
        push_unknown_roles(
            findings,
            alloc,
            declared,
            constraint.number,
            &constraint.auth,
        )?;
    }
    Ok(())
}

fn push_unknown_roles(
    findings: &mut Vec<Finding>,
    alloc: Global,
    declared: &[Text],
    number: u64,
    auth: &Auth,
) -> Result<(), NoMemory>
    ensures { OnOk result (findings.new.items ≡ findings.old.items ++ spec.unknown_roles declared.now number auth.now) }
{
    match auth {
        Auth::Absent => Ok(()),
        Auth::Roles(names) => push_unknown_names(
            findings,
            alloc,
            declared,
            number,
            names.as_slice(),
        ),
    }
}

fn push_unknown_names(
    findings: &mut Vec<Finding>,
    alloc: Global,
    declared: &[Text],
    number: u64,
    names: &[Text],
) -> Result<(), NoMemory>
    ensures { OnOk result (findings.new.items ≡ findings.old.items ++ map (finding.UnknownRole number) (different (filter (spec.is_unknown declared.now) names.now))) }
{
    for name in unknown_of(alloc, declared, names)?.as_slice() {
        findings.push(Finding::UnknownRole(number, Text::copy_of(alloc, *name)?))?;
    }
    Ok(())
}

fn unknown_of<'a>(
    alloc: Global,
    declared: &[Text],
    names: &'a [Text],
) -> Result<Vec<&'a str>, NoMemory>
    ensures { IfOk result (λ kept. map (λ name. name.now) kept.items ≡ different (filter (spec.is_unknown declared.now) names.now)) }
{
    let mut kept = Vec::new(alloc);
    for name in names {
        if is_unknown(declared, name.as_str()) {
            push_once(&mut kept, name.as_str())?;
        }
    }
    Ok(kept)
}

/// Returns whether the name is a role that is not declared.
fn is_unknown(declared: &[Text], name: &str) -> bool
    ensures { result ≡ spec.is_unknown declared.now name.now }
{
    is_role(name) && !lists(declared, name)
}

/// Returns whether the name is that of a role. `*` and `**` are no roles: they mean the declared roles, and every caller
/// (Jakarta Servlet 6.0, section 13.8).
pub fn is_role(name: &str) -> bool
    ensures { result ≡ spec.is_role name.now }
{
    !(name == EVERY_ROLE || name == EVERY_CALLER)
}

/// Appends the named roles that no user has, if users are known.
fn push_unheld(
    findings: &mut Vec<Finding>,
    alloc: Global,
    declared: &[Text],
    held: &Option<Listed<Text>>,
    constraints: &[Constraint],
) -> Result<(), NoMemory>
    ensures { OnOk result (findings.new.items ≡ findings.old.items ++ spec.unheld_roles declared.now held.now constraints.now) }
{
    let Some(held) = held else {
        return Ok(());
    };
    let named = named_roles(alloc, declared, constraints)?;
    push_unheld_among(findings, alloc, declared, held.as_slice(), named.as_slice())
}

fn push_unheld_among(
    findings: &mut Vec<Finding>,
    alloc: Global,
    declared: &[Text],
    held: &[Text],
    named: &[&str],
) -> Result<(), NoMemory>
    ensures { OnOk result (findings.new.items ≡ findings.old.items
        ++ map finding.UnheldRole (filter (spec.is_unheld declared.now held.now) (map (λ name. name.now) named.now))) }
{
    for name in named {
        if is_unheld(declared, held, name) {
            findings.push(Finding::UnheldRole(Text::copy_of(alloc, *name)?))?;
        }
    }
    Ok(())
}

/// Returns whether no user has the role, although it is declared or no roles are.
fn is_unheld(declared: &[Text], held: &[Text], name: &str) -> bool
    ensures { result ≡ spec.is_unheld declared.now held.now name.now }
{
    is_role(name) && (declared.is_empty() || lists(declared, name)) && !lists(held, name)
}

/// Returns the roles that constraints mean, in ascending byte order.
fn named_roles<'a>(
    alloc: Global,
    declared: &'a [Text],
    constraints: &'a [Constraint],
) -> Result<Vec<&'a str>, NoMemory>
    ensures { IfOk result (λ roles. map (λ role. role.now) roles.items ≡ spec.named_roles declared.now constraints.now) }
{
    let mut roles = Vec::new(alloc);
    for constraint in constraints {
        push_meant(&mut roles, declared, &constraint.auth)?;
    }
    sorted(alloc, roles.as_slice())
}

/// Appends the declared roles that no constraint names, each once.
fn push_unused(
    findings: &mut Vec<Finding>,
    alloc: Global,
    declared: &[Text],
    constraints: &[Constraint],
) -> Result<(), NoMemory>
    ensures { OnOk result (findings.new.items ≡ findings.old.items ++ spec.unused_roles declared.now constraints.now) }
{
    let named = named_roles(alloc, declared, constraints)?;
    for role in unused_among(alloc, declared, named.as_slice())?.as_slice() {
        findings.push(Finding::UnusedRole(Text::copy_of(alloc, *role)?))?;
    }
    Ok(())
}

fn unused_among<'a>(
    alloc: Global,
    declared: &'a [Text],
    named: &[&str],
) -> Result<Vec<&'a str>, NoMemory>
    ensures { IfOk result (λ roles. map (λ role. role.now) roles.items ≡ different (filter (spec.is_unused (map (λ name. name.now) named.now)) declared.now)) }
{
    let mut unused = Vec::new(alloc);
    for role in declared {
        if is_unused(named, role.as_str()) {
            push_once(&mut unused, role.as_str())?;
        }
    }
    Ok(unused)
}

fn is_unused(named: &[&str], role: &str) -> bool
    ensures { result ≡ spec.is_unused (map (λ name. name.now) named.now) role.now }
{
    is_role(role) && !is_listed(named, role)
}

/// Returns whether the name is among the names.
pub fn is_listed(names: &[&str], name: &str) -> bool
    ensures { result ≡ covering.lists (map (λ one. one.now) names.now) name.now }
{
    is_among(names, name)
}

/// Appends a text, if it is not among the texts yet.
pub fn push_once<'a>(texts: &mut Vec<&'a str>, text: &'a str) -> Result<(), NoMemory>
    ensures { OnOk result (map (λ one. one.now) texts.new.items ≡ kept_once (map (λ one. one.now) texts.old.items) text.now) }
{
    if is_listed(texts.as_slice(), text) {
        return Ok(());
    }
    texts.push(text)?;
    Ok(())
}
