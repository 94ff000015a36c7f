//! Constraints grouped by the patterns that they list.

ghost use Rattle.std.specs.Prelude.{◌≡◌, ◌++◌, ◌∷◌, ◌||◌, [], ℕ, List, IfOk, MatchOption, OnOk, filter, if◌then◌else◌, map};
ghost use Rattle.std.specs.Str.{bytes_eq};
ghost use Rattle.sv_policy.specs.Groups.{HasPatterns, IsGrouped, has_group, items_in, members_in};
ghost use Rattle.sv_policy.specs.Patterns.{lists_pattern};

use crate::patterns::patterns_of;
use std::alloc::Global;
use std::collections::HashMap;
use sv_constraints::Constraint;
use sv_mapping::Pattern;
use sv_text::NoMemory;

/// The constraints that list each pattern. They are found by pattern, without a search through the others.
#[derive(Drop)]
pub struct Groups<'a> {
    /// The patterns.
    pub patterns: Vec<&'a Pattern>,
    members: HashMap<&'a str, Vec<&'a Constraint>>,
}

/// Groups constraints by the patterns that they list.
///
/// # Errors
/// `NoMemory` if memory runs out.
pub fn grouped(alloc: Global, constraints: &[Constraint]) -> Result<Groups<'_>, NoMemory>
    ensures { IfOk result (IsGrouped constraints.now) }
{
    let mut groups = Groups {
        patterns: Vec::new(alloc),
        members: HashMap::new(alloc),
    };
    for constraint in constraints {
        groups.enter(alloc, constraint)?;
    }
    Ok(groups)
}

/// Adds a constraint to the group of a pattern.
fn push_member<'a>(
    members: &mut HashMap<&'a str, Vec<&'a Constraint>>,
    text: &'a str,
    constraint: &'a Constraint,
) -> Result<(), NoMemory>
    ensures items { OnOk result ((q : List ℕ) → items_in members.new q ≡ items_in members.old q ++ (if bytes_eq q text.now then constraint.entry ∷ [] else [])) }
    ensures keys { OnOk result ((q : List ℕ) → has_group members.new q ≡ (has_group members.old q || bytes_eq q text.now)) }
{
    members.entry(text)?.or_default().push(constraint)?;
    Ok(())
}

impl<'a> Groups<'a> {
    ghost use Rattle.sv_constraints.specs.declared.constraint.Constraint.{Constraint};

    /// Adds a constraint to the groups of its patterns.
    fn enter(&mut self, alloc: Global, constraint: &'a Constraint) -> Result<(), NoMemory>
        ensures members { OnOk result ((q : List ℕ) → members_in self.new.members q ≡ members_in self.old.members q ++
            (if lists_pattern constraint.now q then constraint.now ∷ [] else [])) }
        ensures patterns { OnOk result (HasPatterns self.old → HasPatterns self.new) }
    {
        for pattern in patterns_of(alloc, constraint.collections.as_slice())?.as_slice() {
            self.enter_at(*pattern, constraint)?;
        }
        Ok(())
    }

    /// Adds a constraint to the group of a pattern, which is created if necessary.
    fn enter_at(&mut self, pattern: &'a Pattern, constraint: &'a Constraint) -> Result<(), NoMemory>
        ensures members { OnOk result ((q : List ℕ) → members_in self.new.members q ≡ members_in self.old.members q ++
            (if bytes_eq q pattern.now then constraint.now ∷ [] else [])) }
        ensures patterns { OnOk result (HasPatterns self.old → HasPatterns self.new) }
    {
        let text = pattern.text();
        let is_known = self.members.contains_key(text);
        push_member(&mut self.members, text, constraint)?;
        if is_known {
            return Ok(());
        }
        self.patterns.push(pattern)?;
        Ok(())
    }

    /// Returns the constraints that list a pattern, if any.
    pub fn on(&self, text: &str) -> Option<&Vec<&'a Constraint>>
        ensures { (constraints : List Constraint) → IsGrouped constraints self.now →
            MatchOption result (filter (λ constraint. lists_pattern constraint text.now) constraints ≡ [])
            (λ members. map (λ member. member.now) members.now.items ≡ filter (λ constraint. lists_pattern constraint text.now) constraints) }
    {
        self.members.get(text)
    }
}
