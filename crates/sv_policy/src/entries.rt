//! The constraints on a pattern, merged by method. The pattern itself is not stored, so that several patterns may share
//! the entries.

ghost use Rattle.std.specs.Prelude.{◌≡◌, ◌++◌, ◌∷◌, [], ℕ, List, IfOk, OnOk, map, false};
ghost use Rattle.std.specs.Option.{option_map_or};
ghost use Rattle.sv_constraints.specs.Covering.{lists};
ghost use Rattle.sv_policy.specs.Entries.{AreEntries, HasEntries, entry_in, entry_for};
ghost use Rattle.sv_policy.specs.Uncovered.{IsRising, differ, is_bare, uncovered_methods};
ghost use Rattle.sv_text.specs.Gives.{GivesAnswer};

use crate::coverage::named_methods;
use crate::merged::Merged;
use std::alloc::Global;
use std::collections::BTreeMap;
use sv_constraints::{Constraint, Methods, Rules};
use sv_text::{Listed, NoMemory, Text};

/// The constraints on a pattern, merged: an entry for each method that one of them names there, and one for all other
/// methods.
#[derive(Drop)]
pub struct Entries {
    /// The entries are boxed, since a map node allocates space for fifteen at once.
    methods: BTreeMap<String, Box<Merged>>,
    rest: Merged,
}

/// Adds the entry of a method, unless it has one.
fn enter(
    methods: &mut BTreeMap<String, Box<Merged>>,
    alloc: Global,
    rules: &Rules,
    members: &[&Constraint],
    pattern: &str,
    name: &str,
) -> Result<(), NoMemory>
    ensures { OnOk result ((names : List (List ℕ)) →
        HasEntries rules.now (map (λ member. member.now) members.now) pattern.now (entry_in methods.old) names →
        HasEntries rules.now (map (λ member. member.now) members.now) pattern.now (entry_in methods.new) (names ++ name.now ∷ [])) }
{
    if methods.contains_key(name) {
        return Ok(());
    }
    let merged = Merged::gather(alloc, rules, members, pattern, Some(name))?;
    methods.insert(String::from_str(alloc, name)?, Box::new(alloc, merged)?)?;
    Ok(())
}

/// Returns whether exactly one of the two is true.
fn differ(one: bool, other: bool) -> bool
    ensures { result ≡ differ one other }
{
    if one { !other } else { other }
}

impl Entries {
    ghost use Rattle.sv_constraints.specs.declared.constraint.Constraint.{Constraint};
    ghost use Rattle.sv_constraints.specs.declared.constraint.Rules.{Rules};

    /// Merges constraints into the entries of a pattern.
    pub fn merge(
        alloc: Global,
        rules: &Rules,
        pattern: &str,
        members: &[&Constraint],
    ) -> Result<Entries, NoMemory>
        ensures { IfOk result (AreEntries rules.now (map (λ member. member.now) members.now) pattern.now) }
    {
        let mut methods = BTreeMap::new(alloc);
        let names = named_methods(alloc, members, pattern)?;
        for name in names.as_slice() {
            enter(&mut methods, alloc, rules, members, pattern, *name)?;
        }
        let rest = Merged::gather(alloc, rules, members, pattern, None)?;
        Ok(Entries { methods, rest })
    }

    /// Returns the entry of a method, or the entry for all other methods if it has none of its own.
    pub fn of(&self, method: &str) -> &Merged
        ensures { result.now ≡ entry_for self.now method.now }
    {
        match self.methods.get(method) {
            Some(entry) => entry,
            None => &self.rest,
        }
    }

    /// Returns the methods that no constraint covers at the pattern: the listed ones, or all except the listed ones.
    /// The names are in ascending byte order.
    pub fn uncovered(&self, alloc: Global) -> Result<Methods, NoMemory>
        ensures { (rules : Rules) (constraints : List Constraint) (pattern : List ℕ) → AreEntries rules constraints pattern self.now →
            GivesAnswer result (uncovered_methods constraints pattern) }
    {
        let listed = self.exceptions(alloc)?;
        if self.rest.is_bare() {
            Ok(Methods::Except(listed))
        } else {
            Ok(Methods::Only(listed))
        }
    }

    /// Returns the named methods that are covered if the unnamed ones are not, or uncovered if the unnamed ones are
    /// covered.
    fn exceptions(&self, alloc: Global) -> Result<Listed<Text>, NoMemory>
        ensures rising { IfOk result (λ names. IsRising names) }
        ensures names { IfOk result (λ names. (method : List ℕ) → lists names method ≡
            option_map_or (λ entry. differ (is_bare entry) (is_bare self.now.rest)) (entry_in self.now.methods method) false) }
    {
        let mut names = Vec::new(alloc);
        for (name, entry) in &self.methods {
            if differ(entry.is_bare(), self.rest.is_bare()) {
                names.push(Text::copy_of(alloc, name.as_str())?)?;
            }
        }
        Ok(Listed::from_vec(names))
    }
}
