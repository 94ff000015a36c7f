//! Findings that are not looked for.

ghost use Rattle.std.specs.Prelude.{◌≡◌, ◌++◌, ◌∷◌, ◌&&◌, ◌||◌, [], List, OnOk, is_some, if◌then◌else◌, map};
ghost use Rattle.std.specs.List.{list_any};
ghost use Rattle.sv_constraints.specs.declared.constraint.Constraint.{Constraint};
ghost use Rattle.sv_policy.specs.Groups.{IsGrouped};
ghost use Rattle.sv_text.specs.Gives.{GivesAnswer};
ghost use Rattle.sv_findings.specs.Unsearched as spec;
ghost use Rattle.sv_findings.specs.Unserved.{are_many};
ghost use Rattle.sv_findings.specs.declared.unsearched.Unsearched.TheVariants as variant;

use crate::dead::decides_nothing;
use crate::listed_patterns::ListedPatterns;
use crate::surroundings::{Surroundings, compared};
use crate::unserved::are_many;
use std::alloc::Global;
use sv_constraints::Constraint;
use sv_overruled::{MAX_COMPARED_AT_PATTERN, rising_names};
use sv_policy::{Groups, grouped};
use sv_text::{Listed, NoMemory};

/// Findings that are not looked for.
#[derive(Drop)]
pub enum Unsearched {
    /// Some constraints without which each request is decided alike: at a pattern that may decide there are more than
    /// [`MAX_COMPARED_AT_PATTERN`] constraints, or these name more methods there. To compare them takes too long, so no
    /// constraint with such a pattern is reported.
    Overruled,
    /// All patterns at which no servlet and no file answers: there are more than
    /// [`MAX_SERVED_PATTERNS`](crate::MAX_SERVED_PATTERNS) patterns. To compare them with servlets and files takes too
    /// long.
    Unserved,
}

/// Returns which findings [`findings_of`](crate::findings_of) does not look for, in the order of the variants of
/// [`Unsearched`].
///
/// # Errors
/// `NoMemory` if memory runs out.
pub fn unsearched_of(
    alloc: Global,
    constraints: &[Constraint],
    surroundings: &Surroundings,
) -> Result<Listed<Unsearched>, NoMemory>
    ensures { GivesAnswer result (spec.unsearched constraints.now surroundings.now) }
{
    let mut kinds = Vec::new(alloc);
    push_uncompared(&mut kinds, alloc, compared(surroundings, constraints))?;
    push_unserved(&mut kinds, alloc, constraints, surroundings)?;
    Ok(Listed::from_vec(kinds))
}

fn push_uncompared(
    kinds: &mut Vec<Unsearched>,
    alloc: Global,
    constraints: &[Constraint],
) -> Result<(), NoMemory>
    ensures { OnOk result (kinds.new.items ≡ kinds.old.items ++ (if spec.has_uncompared constraints.now then variant.Overruled ∷ [] else [])) }
{
    if has_uncompared(alloc, constraints)? {
        kinds.push(Unsearched::Overruled)?;
    }
    Ok(())
}

fn push_unserved(
    kinds: &mut Vec<Unsearched>,
    alloc: Global,
    constraints: &[Constraint],
    surroundings: &Surroundings,
) -> Result<(), NoMemory>
    ensures { OnOk result (kinds.new.items ≡ kinds.old.items
        ++ (if is_some surroundings.now.files && are_many constraints.now then variant.Unserved ∷ [] else [])) }
{
    if surroundings.files.is_some() && are_many(alloc, constraints)? {
        kinds.push(Unsearched::Unserved)?;
    }
    Ok(())
}

/// Returns whether some pattern may decide, but its constraints are not compared.
fn has_uncompared(alloc: Global, constraints: &[Constraint]) -> Result<bool, NoMemory>
    ensures { GivesAnswer result (spec.has_uncompared constraints.now) }
{
    let listed = ListedPatterns::of(alloc, constraints)?;
    let groups = grouped(alloc, constraints)?;
    let is_found = has_uncompared_among(alloc, &groups, &listed)?;
    Ok(is_found)
}

fn has_uncompared_among(
    alloc: Global,
    groups: &Groups<'_>,
    listed: &ListedPatterns<'_>,
) -> Result<bool, NoMemory>
    ensures { (constraints : List Constraint) → IsGrouped constraints groups.now →
        GivesAnswer result (list_any (spec.is_uncompared constraints listed.now) (map (λ pattern. pattern.now) groups.now.patterns.items)) }
{
    for pattern in groups.patterns.as_slice() {
        if is_uncompared(alloc, groups, listed, pattern.text())? {
            return Ok(true);
        }
    }
    Ok(false)
}

fn is_uncompared(
    alloc: Global,
    groups: &Groups<'_>,
    listed: &ListedPatterns<'_>,
    pattern: &str,
) -> Result<bool, NoMemory>
    ensures { (constraints : List Constraint) → IsGrouped constraints groups.now →
        GivesAnswer result (spec.is_uncompared constraints listed.now pattern.now) }
{
    if decides_nothing(listed, pattern) {
        return Ok(false);
    }
    match groups.on(pattern) {
        Some(members) => are_too_many(alloc, members.as_slice(), pattern),
        None => are_too_many(alloc, &[], pattern),
    }
}

fn are_too_many(alloc: Global, members: &[&Constraint], pattern: &str) -> Result<bool, NoMemory>
    ensures { GivesAnswer result (spec.are_too_many (map (λ member. member.now) members.now) pattern.now) }
{
    if members.len() > MAX_COMPARED_AT_PATTERN {
        return Ok(true);
    }
    let names = rising_names(alloc, members, pattern)?;
    Ok(names.len() > MAX_COMPARED_AT_PATTERN)
}
