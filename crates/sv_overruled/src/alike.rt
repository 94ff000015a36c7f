//! Whether others decide requests alike that a constraint covers, too.

ghost use Rattle.std.specs.Prelude.{◌≡◌, IfOk, List, map, not};
ghost use Rattle.std.specs.List.{list_any};
ghost use Rattle.sv_constraints.specs.Verdict as verdict;
ghost use Rattle.sv_constraints.specs.declared.constraint.Constraint.{Constraint};
ghost use Rattle.sv_policy.specs.Merged.{admits_everyone};
ghost use Rattle.sv_text.specs.Gives.{GivesAnswer};
ghost use Rattle.sv_overruled.specs.Overruled as spec;

use crate::meant_roles::all_meant;
use std::alloc::Global;
use sv_audit::push_meant;
use sv_constraints::{Constraint, Rules};
use sv_policy::names_everyone;
use sv_text::{NoMemory, Text};

/// Returns the constraints with other numbers.
pub(crate) fn others<'a>(
    alloc: Global,
    number: u64,
    members: &[&'a Constraint],
) -> Result<Vec<&'a Constraint>, NoMemory>
    ensures { IfOk result (λ found. map (λ member. member.now) found.items ≡ spec.others number (map (λ member. member.now) members.now)) }
{
    let mut found = Vec::with_capacity(alloc, members.len())?;
    for member in members {
        if member.number != number {
            found.push(*member)?;
        }
    }
    Ok(found)
}

/// Returns whether requests that the constraint and the others cover are decided alike by the others.
pub(crate) fn decide_alike(
    alloc: Global,
    rules: &Rules,
    constraint: &Constraint,
    others: &[&Constraint],
) -> Result<bool, NoMemory>
    ensures { GivesAnswer result (spec.decide_alike rules.now constraint.now (map (λ other. other.now) others.now)) }
{
    if others.is_empty() {
        return Ok(false);
    }
    if any_precludes(others) {
        return Ok(true);
    }
    if constraint.precludes() {
        return Ok(false);
    }
    if !permit_no_less(constraint, others) {
        return Ok(false);
    }
    admit_no_less(alloc, rules.declared.as_slice(), constraint, others)
}

fn any_precludes(others: &[&Constraint]) -> bool
    ensures { result ≡ list_any (λ other. verdict.precludes other.now) others.now }
{
    others.iter().any(|other| other.precludes())
}

/// Returns whether a plain connection is sufficient for one of the others, if it is for the constraint.
fn permit_no_less(constraint: &Constraint, others: &[&Constraint]) -> bool
    ensures { result ≡ spec.permit_no_less constraint.now (map (λ other. other.now) others.now) }
{
    !constraint.permits_plain() || any_permits_plain(others)
}

fn any_permits_plain(others: &[&Constraint]) -> bool
    ensures { result ≡ list_any (λ other. verdict.permits_plain other.now) others.now }
{
    others.iter().any(|other| other.permits_plain())
}

/// Returns whether the others admit everyone whom the constraint admits.
fn admit_no_less(
    alloc: Global,
    declared: &[Text],
    constraint: &Constraint,
    others: &[&Constraint],
) -> Result<bool, NoMemory>
    ensures { GivesAnswer result (spec.admit_no_less declared.now constraint.now (map (λ other. other.now) others.now)) }
{
    if is_any_open(others) {
        return Ok(true);
    }
    if constraint.is_open() {
        return Ok(false);
    }
    admit_its_callers(alloc, declared, constraint, others)
}

/// Returns whether one of the constraints has no authorization constraint.
pub fn is_any_open(members: &[&Constraint]) -> bool
    ensures { result ≡ list_any (λ member. verdict.is_open member.now) members.now }
{
    members.iter().any(|member| member.is_open())
}

/// Returns whether the others admit each authenticated caller whom the constraint admits.
fn admit_its_callers(
    alloc: Global,
    declared: &[Text],
    constraint: &Constraint,
    others: &[&Constraint],
) -> Result<bool, NoMemory>
    ensures { GivesAnswer result (spec.admit_its_callers declared.now constraint.now (map (λ other. other.now) others.now)) }
{
    if any_admits_everyone(others) {
        return Ok(true);
    }
    if names_everyone(&constraint.auth) {
        return Ok(false);
    }
    mean_its_roles(alloc, declared, constraint, others)
}

fn any_admits_everyone(others: &[&Constraint]) -> bool
    ensures { result ≡ list_any (λ other. admits_everyone other.now) others.now }
{
    others.iter().any(|other| names_everyone(&other.auth))
}

/// Returns whether each role that the constraint means is among those that the others mean.
fn mean_its_roles(
    alloc: Global,
    declared: &[Text],
    constraint: &Constraint,
    others: &[&Constraint],
) -> Result<bool, NoMemory>
    ensures { GivesAnswer result (spec.mean_its_roles declared.now constraint.now (map (λ other. other.now) others.now)) }
{
    let mut roles = Vec::new(alloc);
    push_meant(&mut roles, declared, &constraint.auth)?;
    Ok(all_meant(declared, others, roles.as_slice()))
}
