//! Constraints that let everyone in although others name roles.

ghost use Rattle.std.specs.Prelude.{◌≡◌, ◌++◌, ◌∷◌, [], IfOk, List, OnOk, filter, if◌then◌else◌, map};
ghost use Rattle.std.specs.Bool.{then_some};
ghost use Rattle.std.specs.List.{flat_map, list_any};
ghost use Rattle.std.specs.Option.{option_copied};
ghost use Rattle.sv_constraints.specs.Verdict.{is_open, least_where};
ghost use Rattle.sv_constraints.specs.declared.constraint.Constraint.{Constraint};
ghost use Rattle.sv_policy.specs.Covering.{named_methods};
ghost use Rattle.sv_policy.specs.Groups.{IsGrouped};
ghost use Rattle.sv_policy.specs.Uncovered.{differ, rising};
ghost use Rattle.sv_text.specs.Gives.{GivesAnswer};
ghost use Rattle.sv_findings.specs.Opened as spec;

use crate::finding::Finding;
use std::alloc::Global;
use sv_audit::{Row, covering, covering_findings, focused};
use sv_constraints::{Constraint, Methods, Rules, lesser};
use sv_overruled::{is_any_open, rising_names};
use sv_policy::{Groups, grouped};
use sv_text::{Listed, NoMemory, Text};

/// Appends the patterns at which a constraint without an authorization constraint lets everyone in although another one
/// names roles (Jakarta Servlet 6.0, section 13.8.1).
pub fn push_opened(
    findings: &mut Vec<Finding>,
    alloc: Global,
    constraints: &[Constraint],
    rules: &Rules,
    rows: &[&Row],
) -> Result<(), NoMemory>
    ensures { OnOk result (findings.new.items ≡ findings.old.items ++ flat_map (λ row. spec.opened_at constraints.now row.pattern) (map (λ row. row.now) rows.now)) }
{
    let groups = grouped(alloc, constraints)?;
    for row in rows {
        push_opened_at(findings, alloc, rules, &groups, &row.pattern)?;
    }
    Ok(())
}

fn push_opened_at(
    findings: &mut Vec<Finding>,
    alloc: Global,
    rules: &Rules,
    groups: &Groups<'_>,
    pattern: &Option<Text>,
) -> Result<(), NoMemory>
    ensures { (constraints : List Constraint) → IsGrouped constraints groups.now →
        OnOk result (findings.new.items ≡ findings.old.items ++ spec.opened_at constraints pattern.now) }
{
    let Some(pattern) = pattern else {
        return Ok(());
    };
    push_opened_among(findings, alloc, rules, groups, pattern.as_str())
}

fn push_opened_among(
    findings: &mut Vec<Finding>,
    alloc: Global,
    rules: &Rules,
    groups: &Groups<'_>,
    pattern: &str,
) -> Result<(), NoMemory>
    ensures { (constraints : List Constraint) → IsGrouped constraints groups.now →
        OnOk result (findings.new.items ≡ findings.old.items ++ spec.opened_on constraints pattern.now) }
{
    match groups.on(pattern) {
        Some(members) => push_opened_by(findings, alloc, rules, pattern, members.as_slice()),
        None => push_opened_on(findings, alloc, rules, pattern, &[]),
    }
}

/// Appends what is opened at a pattern, by copies of the constraints on it, which have no other patterns.
fn push_opened_by(
    findings: &mut Vec<Finding>,
    alloc: Global,
    rules: &Rules,
    pattern: &str,
    members: &[&Constraint],
) -> Result<(), NoMemory>
    ensures { OnOk result (findings.new.items ≡ findings.old.items ++ spec.opened_on (map (λ member. member.now) members.now) pattern.now) }
{
    if !is_any_open(members) {
        return Ok(());
    }
    if !is_any_restricted(members) {
        return Ok(());
    }
    let copies = focused(alloc, pattern, members)?;
    let borrowed: Vec<&Constraint> = copies.iter().collect(alloc)?;
    push_opened_on(findings, alloc, rules, pattern, borrowed.as_slice())
}

/// Returns whether one of the constraints has an authorization constraint.
fn is_any_restricted(members: &[&Constraint]) -> bool
    ensures { result ≡ list_any (λ member. spec.is_restricted member.now) members.now }
{
    members.iter().any(|member| !member.is_open())
}

/// Appends a pattern with its opened methods and the least numbers of two such constraints, if there are any.
fn push_opened_on(
    findings: &mut Vec<Finding>,
    alloc: Global,
    rules: &Rules,
    pattern: &str,
    members: &[&Constraint],
) -> Result<(), NoMemory>
    ensures { OnOk result (findings.new.items ≡ findings.old.items ++ spec.opened_on (map (λ member. member.now) members.now) pattern.now) }
{
    let Some((number, other)) = opened_pair(alloc, rules, pattern, members)? else {
        return Ok(());
    };
    let methods = opened_methods(alloc, rules, pattern, members)?;
    findings.push(Finding::Opened(Text::copy_of(alloc, pattern)?, methods, number, other))?;
    Ok(())
}

/// Returns the least pair of all methods.
fn opened_pair(
    alloc: Global,
    rules: &Rules,
    pattern: &str,
    members: &[&Constraint],
) -> Result<Option<(u64, u64)>, NoMemory>
    ensures { GivesAnswer result (spec.opened_pair (map (λ member. member.now) members.now) pattern.now) }
{
    let mut least = None;
    for name in rising_names(alloc, members, pattern)?.as_slice() {
        least = lesser_pair(
            least,
            opened_for(alloc, rules, pattern, members, Some(*name))?,
        );
    }
    Ok(lesser_pair(least, opened_for(alloc, rules, pattern, members, None)?))
}

/// Returns the methods that everyone may use although a constraint with an authorization constraint covers them.
fn opened_methods(
    alloc: Global,
    rules: &Rules,
    pattern: &str,
    members: &[&Constraint],
) -> Result<Methods, NoMemory>
    ensures { GivesAnswer result (spec.opened_methods (map (λ member. member.now) members.now) pattern.now) }
{
    let are_others = opened_for(alloc, rules, pattern, members, None)?.is_some();
    let names = exceptions(alloc, rules, pattern, members, are_others)?;
    if are_others {
        Ok(Methods::Except(names))
    } else {
        Ok(Methods::Only(names))
    }
}

/// Copies the named methods that are opened if the others are not, and that are not opened if the others are.
fn exceptions(
    alloc: Global,
    rules: &Rules,
    pattern: &str,
    members: &[&Constraint],
    are_others: bool,
) -> Result<Listed<Text>, NoMemory>
    ensures { GivesAnswer result (filter (λ method. differ (spec.is_opened (map (λ member. member.now) members.now) pattern.now method) are_others)
        (rising (named_methods (map (λ member. member.now) members.now) pattern.now))) }
{
    let mut names = Vec::new(alloc);
    for name in rising_names(alloc, members, pattern)?.as_slice() {
        let found = opened_for(alloc, rules, pattern, members, Some(*name))?;
        push_exception(&mut names, alloc, *name, found.is_some(), are_others)?;
    }
    Ok(Listed::from_vec(names))
}

/// Appends a method, if it is opened and the others are not, or the reverse.
fn push_exception(
    names: &mut Vec<Text>,
    alloc: Global,
    name: &str,
    is_opened: bool,
    are_others: bool,
) -> Result<(), NoMemory>
    ensures { OnOk result (names.new.items ≡ names.old.items ++ (if differ is_opened are_others then name.now ∷ [] else [])) }
{
    if is_opened != are_others {
        names.push(Text::copy_of(alloc, name)?)?;
    }
    Ok(())
}

/// Returns the pair of the constraints that cover the method or, without a method, those that are not named.
fn opened_for(
    alloc: Global,
    rules: &Rules,
    pattern: &str,
    members: &[&Constraint],
    method: Option<&str>,
) -> Result<Option<(u64, u64)>, NoMemory>
    ensures { GivesAnswer result (spec.opened_for (map (λ member. member.now) members.now) pattern.now (option_copied method.entry)) }
{
    let covering = covering(alloc, members, pattern, method)?;
    Ok(opened_by(rules, covering.as_slice()))
}

/// Returns the least numbers of a constraint without and of one with an authorization constraint, if there are both and
/// everyone passes.
fn opened_by(rules: &Rules, members: &[&Constraint]) -> Option<(u64, u64)>
    ensures { result ≡ spec.opened_by (map (λ member. member.now) members.now) }
{
    let found = covering_findings(rules, members);
    if found.precluding.is_some() || !found.permits_plain {
        return None;
    }
    pair_of(found.unauthenticated, least_restricted(members))
}

/// Returns the least number of a constraint with an authorization constraint, if any.
fn least_restricted(members: &[&Constraint]) -> Option<u64>
    ensures { result ≡ least_where spec.is_restricted (map (λ member. member.now) members.now) }
{
    let mut least = None;
    for member in members {
        least = lesser(least, number_if_restricted(member));
    }
    least
}

fn number_if_restricted(member: &Constraint) -> Option<u64>
    ensures { result ≡ then_some (spec.is_restricted member.now) member.now.number }
{
    (!member.is_open()).then_some(member.number)
}

/// Returns both numbers, if both are present.
fn pair_of(number: Option<u64>, other: Option<u64>) -> Option<(u64, u64)>
    ensures { result ≡ spec.pair_of number other }
{
    match (number, other) {
        (Some(number), Some(other)) => Some((number, other)),
        _ => None,
    }
}

/// Returns the lesser of two pairs, or the only one present, if any.
fn lesser_pair(pair: Option<(u64, u64)>, other: Option<(u64, u64)>) -> Option<(u64, u64)>
    ensures { result ≡ spec.lesser_pair pair other }
{
    match (pair, other) {
        (Some(pair), Some(other)) => Some(lesser_of(pair, other)),
        (Some(pair), None) => Some(pair),
        (None, other) => other,
    }
}

fn lesser_of(pair: (u64, u64), other: (u64, u64)) -> (u64, u64)
    ensures { result ≡ (if spec.is_below other pair then other else pair) }
{
    if other.0 < pair.0 || other.0 == pair.0 && other.1 < pair.1 {
        other
    } else {
        pair
    }
}
