//! The constraints that change nothing at a pattern.

ghost use Rattle.std.specs.Prelude.{◌≡◌, ◌++◌, ◌∷◌, ◌||◌, ◌==◌, [], IfOk, length, filter, map, not, Some};
ghost use Rattle.std.specs.List.{list_any};
ghost use Rattle.sv_policy.specs.Covering.{covers_unnamed};
ghost use Rattle.sv_constraints.specs.Covering.{covers};
ghost use Rattle.sv_text.specs.Gives.{GivesAnswer};
ghost use Rattle.sv_overruled.specs.Overruled as spec;

use crate::alike::{decide_alike, others};
use crate::names::rising_names;
use std::alloc::Global;
use sv_audit::{covering, focused};
use sv_constraints::{Constraint, Rules};
use sv_text::NoMemory;

/// At a pattern with more constraints or more named methods than so many, none are compared.
pub const MAX_COMPARED_AT_PATTERN: usize = 16;

/// Returns the numbers of the constraints that change nothing at a pattern, given the constraints that list it, in their
/// order: constraints with other numbers decide each request there alike (Jakarta Servlet 6.0, section 13.8.1). There are
/// none at a pattern with more than [`MAX_COMPARED_AT_PATTERN`] constraints or named methods.
///
/// # Errors
/// `NoMemory` if memory runs out.
pub fn overruled_at(
    alloc: Global,
    rules: &Rules,
    pattern: &str,
    members: &[&Constraint],
) -> Result<Vec<u64>, NoMemory>
    ensures { IfOk result (λ numbers. numbers.items ≡ spec.overruled_at rules.now pattern.now (map (λ member. member.now) members.now)) }
{
    if members.len() > MAX_COMPARED_AT_PATTERN {
        return Ok(Vec::new(alloc));
    }
    let copies = focused(alloc, pattern, members)?;
    let borrowed: Vec<&Constraint> = copies.iter().collect(alloc)?;
    overruled_on(alloc, rules, pattern, borrowed.as_slice())
}

/// The same for few constraints, best without their other patterns.
fn overruled_on(
    alloc: Global,
    rules: &Rules,
    pattern: &str,
    members: &[&Constraint],
) -> Result<Vec<u64>, NoMemory>
    ensures { IfOk result (λ numbers. numbers.items ≡ spec.overruled_on rules.now pattern.now (map (λ member. member.now) members.now)) }
{
    let names = rising_names(alloc, members, pattern)?;
    if names.len() > MAX_COMPARED_AT_PATTERN {
        return Ok(Vec::new(alloc));
    }
    let coverings = coverings(alloc, pattern, members, names.as_slice())?;
    overruled_by(alloc, rules, members, coverings.as_slice())
}

/// Returns the constraints that cover each named method, and at last those that cover methods without a name.
fn coverings<'a>(
    alloc: Global,
    pattern: &str,
    members: &[&'a Constraint],
    names: &[&str],
) -> Result<Vec<Vec<&'a Constraint>>, NoMemory>
    ensures { IfOk result (λ found. map (λ list. map (λ member. member.now) list.items) found.items
        ≡ map (λ name. filter (λ member. covers member pattern.now name.now) (map (λ member. member.now) members.now)) names.now
        ++ filter (λ member. covers_unnamed member pattern.now) (map (λ member. member.now) members.now) ∷ []) }
{
    let mut found = Vec::new(alloc);
    for name in names {
        found.push(covering(alloc, members, pattern, Some(*name))?)?;
    }
    found.push(covering(alloc, members, pattern, None)?)?;
    Ok(found)
}

/// Returns the numbers of the constraints that matter in none of the coverings.
fn overruled_by(
    alloc: Global,
    rules: &Rules,
    members: &[&Constraint],
    coverings: &[Vec<&Constraint>],
) -> Result<Vec<u64>, NoMemory>
    ensures { IfOk result (λ numbers. numbers.items ≡ filter
        (λ number. not (length (spec.others number (map (λ member. member.now) members.now)) == 0
        || list_any (λ list. spec.matters_among rules.now number (map (λ member. member.now) list.items)) coverings.now))
        (map (λ member. member.now.number) members.now)) }
{
    let mut numbers = Vec::new(alloc);
    for member in members {
        if !matters(alloc, rules, member.number, members, coverings)? {
            numbers.push(member.number)?;
        }
    }
    Ok(numbers)
}

/// Returns whether the constraint with this number is the only one, or matters in one of the coverings.
fn matters(
    alloc: Global,
    rules: &Rules,
    number: u64,
    members: &[&Constraint],
    coverings: &[Vec<&Constraint>],
) -> Result<bool, NoMemory>
    ensures { GivesAnswer result (length (spec.others number (map (λ member. member.now) members.now)) == 0
        || list_any (λ list. spec.matters_among rules.now number (map (λ member. member.now) list.items)) coverings.now) }
{
    if others(alloc, number, members)?.is_empty() {
        return Ok(true);
    }
    for covering in coverings {
        if matters_among(alloc, rules, number, covering.as_slice())? {
            return Ok(true);
        }
    }
    Ok(false)
}

/// Returns whether, without the constraint with this number, the others decide requests differently that all of these
/// cover.
fn matters_among(
    alloc: Global,
    rules: &Rules,
    number: u64,
    members: &[&Constraint],
) -> Result<bool, NoMemory>
    ensures { GivesAnswer result (spec.matters_among rules.now number (map (λ member. member.now) members.now)) }
{
    let others = others(alloc, number, members)?;
    for member in members {
        if member.number == number && !decide_alike(alloc, rules, member, others.as_slice())? {
            return Ok(true);
        }
    }
    Ok(false)
}
