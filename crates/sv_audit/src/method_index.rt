//! The constraints that may cover each method at a pattern, found without a search through the others.

ghost use Rattle.std.specs.Prelude.{◌≡◌, ◌++◌, ◌∷◌, [], ℕ, List, IfOk, MatchOption, OnOk, if◌then◌else◌, map};
ghost use Rattle.std.specs.List.{flat_map};
ghost use Rattle.std.specs.Str.{bytes_eq};
ghost use Rattle.sv_policy.specs.Groups.{items_in, members_in};
ghost use Rattle.sv_audit.specs.MethodIndex as spec;

use crate::order::sorted;
use std::alloc::Global;
use std::collections::HashMap;
use sv_constraints::Constraint;
use sv_policy::{covers_at, named_methods};
use sv_text::NoMemory;

/// The methods that constraints name at a pattern, and the constraints that may cover each of them.
#[derive(Drop)]
pub(crate) struct MethodIndex<'a> {
    /// The methods, in ascending byte order.
    pub(crate) names: Vec<&'a str>,
    members: Vec<&'a Constraint>,
    by_name: Option<HashMap<&'a str, Vec<&'a Constraint>>>,
}

/// Returns the methods that constraints name at a pattern. The constraints that may cover a method are found by its
/// name, unless many of them cover methods that they do not name.
pub(crate) fn method_index<'a>(
    alloc: Global,
    members: &[&'a Constraint],
    pattern: &str,
    general: usize,
) -> Result<MethodIndex<'a>, NoMemory>
    ensures { IfOk result (spec.IsIndexed (map (λ member. member.now) members.now) pattern.now) }
{
    let names = named_methods(alloc, members, pattern)?;
    let names = sorted(alloc, names.as_slice())?;
    let by_name = entries_unless(
        alloc,
        members,
        pattern,
        names.as_slice(),
        general > members.len() / 4,
    )?;
    Ok(MethodIndex {
        names,
        members: copied(alloc, members)?,
        by_name,
    })
}

fn copied<'a>(alloc: Global, members: &[&'a Constraint]) -> Result<Vec<&'a Constraint>, NoMemory>
    ensures { IfOk result (λ copies. copies.items ≡ members.now) }
{
    let mut copies = Vec::with_capacity(alloc, members.len())?;
    for member in members {
        copies.push(*member)?;
    }
    Ok(copies)
}

/// Returns the constraints that may cover each of the methods, unless their lists are long.
fn entries_unless<'a>(
    alloc: Global,
    members: &[&'a Constraint],
    pattern: &str,
    names: &[&'a str],
    is_long: bool,
) -> Result<Option<HashMap<&'a str, Vec<&'a Constraint>>>, NoMemory>
    ensures { IfOk result (spec.AreEntries pattern.now (map (λ name. name.now) names.now) (map (λ member. member.now) members.now)) }
{
    if is_long {
        return Ok(None);
    }
    Ok(Some(entries(alloc, members, pattern, names)?))
}

/// Returns the constraints that may cover each of the methods.
fn entries<'a>(
    alloc: Global,
    members: &[&'a Constraint],
    pattern: &str,
    names: &[&'a str],
) -> Result<HashMap<&'a str, Vec<&'a Constraint>>, NoMemory>
    ensures { IfOk result (λ found. (q : List ℕ) → members_in found q ≡ spec.entries pattern.now (map (λ name. name.now) names.now) (map (λ member. member.now) members.now) q) }
{
    let mut found = HashMap::new(alloc);
    for member in members {
        enter(&mut found, alloc, pattern, *member, names)?;
    }
    Ok(found)
}

/// Adds a constraint to the entries of the methods that it may cover.
fn enter<'a>(
    found: &mut HashMap<&'a str, Vec<&'a Constraint>>,
    alloc: Global,
    pattern: &str,
    member: &'a Constraint,
    names: &[&'a str],
) -> Result<(), NoMemory>
    ensures { OnOk result ((q : List ℕ) → members_in found.new q ≡ members_in found.old q ++
        flat_map (spec.at_name q member.now) (spec.names_at pattern.now (map (λ name. name.now) names.now) member.now)) }
{
    if covers_at(member, pattern, None) {
        return enter_at_all(found, names, member);
    }
    let own = named_methods(alloc, &[member], pattern)?;
    let own = sorted(alloc, own.as_slice())?;
    enter_at_all(found, own.as_slice(), member)
}

fn enter_at_all<'a>(
    found: &mut HashMap<&'a str, Vec<&'a Constraint>>,
    names: &[&'a str],
    member: &'a Constraint,
) -> Result<(), NoMemory>
    ensures { OnOk result ((q : List ℕ) → members_in found.new q ≡ members_in found.old q ++ flat_map (spec.at_name q member.now) (map (λ name. name.now) names.now)) }
{
    for name in names {
        enter_at(found, *name, member)?;
    }
    Ok(())
}

/// Adds a constraint to the entry of a method.
fn enter_at<'a>(
    found: &mut HashMap<&'a str, Vec<&'a Constraint>>,
    name: &'a str,
    member: &'a Constraint,
) -> Result<(), NoMemory>
    ensures { OnOk result ((q : List ℕ) → members_in found.new q ≡ members_in found.old q ++ spec.at_name q member.now name.now) }
{
    push_member(found, name, member)?;
    Ok(())
}

fn push_member<'a>(
    found: &mut HashMap<&'a str, Vec<&'a Constraint>>,
    name: &'a str,
    member: &'a Constraint,
) -> Result<(), NoMemory>
    ensures { OnOk result ((q : List ℕ) → items_in found.new q ≡ items_in found.old q ++ (if bytes_eq q name.now then member.entry ∷ [] else [])) }
{
    found.entry(name)?.or_default().push(member)?;
    Ok(())
}

impl<'a> MethodIndex<'a> {
    /// Returns the constraints that may cover a method, if there are any.
    pub(crate) fn on(&self, name: &str) -> Option<&Vec<&'a Constraint>>
        ensures { MatchOption result (spec.concerned self.now name.now ≡ []) (λ members. map (λ member. member.now) members.now.items ≡ spec.concerned self.now name.now) }
    {
        match &self.by_name {
            Some(by_name) => by_name.get(name),
            None => Some(&self.members),
        }
    }
}
