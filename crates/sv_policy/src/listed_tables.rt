//! The tables of the patterns that an edit affects. The constraints on a pattern are found by a search through all.

ghost use Rattle.std.specs.Prelude.{◌≡◌, ◌++◌, ◌∷◌, [], List, map, filter, if◌then◌else◌, All, IfOk, OnOk};
ghost use Rattle.sv_constraints.specs.Covering.{all_patterns, lists};
ghost use Rattle.sv_policy.specs.Table.{IsTable};
ghost use Rattle.sv_policy.specs.Patterns.{lists_pattern};

use crate::likeness::mark_of;
use crate::patterns::is_listed;
use crate::shared_tables::Making;
use crate::table::Table;
use crate::tables::{merged, table_like};
use std::alloc::Global;
use sv_constraints::{Constraint, Rules};
use sv_mapping::Pattern;
use sv_text::NoMemory;

/// Returns the constraints of two lists, one after the other, that list a pattern.
fn members_of<'a>(
    alloc: Global,
    front: &'a [Constraint],
    back: &'a [Constraint],
    pattern: &str,
) -> Result<Vec<&'a Constraint>, NoMemory>
    ensures { IfOk result (λ members. map (λ member. member.now) members.items ≡
        filter (λ constraint. lists_pattern constraint pattern.now) (front.now ++ back.now)) }
{
    let mut members = Vec::new(alloc);
    push_members(&mut members, front, pattern)?;
    push_members(&mut members, back, pattern)?;
    Ok(members)
}

fn push_members<'a>(
    members: &mut Vec<&'a Constraint>,
    constraints: &'a [Constraint],
    pattern: &str,
) -> Result<(), NoMemory>
    ensures { OnOk result (map (λ member. member.now) members.new.items ≡ map (λ member. member.now) members.old.items ++
        filter (λ constraint. lists_pattern constraint pattern.now) constraints.now) }
{
    for constraint in constraints {
        if is_listed(constraint, pattern) {
            members.push(constraint)?;
        }
    }
    Ok(())
}

/// Returns the table of a pattern that these members list, out of the constraints of two lists, one after the other. It
/// shares its entries with the last table made with the same mark, if both patterns are listed by the same collections
/// of the same constraints.
fn listed_table(
    alloc: Global,
    rules: &Rules,
    making: &Making,
    front: &[Constraint],
    back: &[Constraint],
    pattern: &Pattern,
    members: &[&Constraint],
) -> Result<Table, NoMemory>
    ensures pattern { IfOk result (λ table. table.pattern ≡ pattern.now) }
    ensures table { map (λ member. member.now) members.now ≡ filter (λ constraint. lists_pattern constraint pattern.now) (front.now ++ back.now) →
        All (λ table. IsTable rules.now (front.now ++ back.now) table.value) making.now.tables.items → IfOk result (IsTable rules.now (front.now ++ back.now)) }
{
    let mark = mark_of(members, pattern.text());
    match making.marked(mark) {
        None => merged(alloc, rules, pattern, mark, members),
        Some(other) => {
            let others = members_of(alloc, front, back, other.pattern.text())?;
            table_like(
                alloc,
                rules,
                pattern,
                mark,
                members,
                other,
                others.as_slice(),
            )
        }
    }
}

/// Makes the tables of those patterns that constraints list. The constraints are those of two lists, one after the
/// other.
pub fn push_tables(
    making: &mut Making,
    alloc: Global,
    rules: &Rules,
    front: &[Constraint],
    back: &[Constraint],
    patterns: &[&Pattern],
) -> Result<(), NoMemory>
    ensures texts { OnOk result (map (λ table. table.value.pattern) making.new.tables.items ≡ map (λ table. table.value.pattern) making.old.tables.items ++
        filter (λ text. lists (all_patterns (front.now ++ back.now)) text) (map (λ pattern. pattern.now) patterns.now)) }
    ensures tables { OnOk result (All (λ table. IsTable rules.now (front.now ++ back.now) table.value) making.old.tables.items →
        All (λ table. IsTable rules.now (front.now ++ back.now) table.value) making.new.tables.items) }
{
    for pattern in patterns {
        push_table(making, alloc, rules, front, back, *pattern)?;
    }
    Ok(())
}

/// Makes the table of a pattern, if constraints list it.
fn push_table(
    making: &mut Making,
    alloc: Global,
    rules: &Rules,
    front: &[Constraint],
    back: &[Constraint],
    pattern: &Pattern,
) -> Result<(), NoMemory>
    ensures texts { OnOk result (map (λ table. table.value.pattern) making.new.tables.items ≡ map (λ table. table.value.pattern) making.old.tables.items ++
        (if lists (all_patterns (front.now ++ back.now)) pattern.now then pattern.now ∷ [] else [])) }
    ensures tables { OnOk result (All (λ table. IsTable rules.now (front.now ++ back.now) table.value) making.old.tables.items →
        All (λ table. IsTable rules.now (front.now ++ back.now) table.value) making.new.tables.items) }
{
    let members = members_of(alloc, front, back, pattern.text())?;
    let members = members.as_slice();
    if members.is_empty() {
        return Ok(());
    }
    let table = listed_table(alloc, rules, making, front, back, pattern, members)?;
    making.push(alloc, table)?;
    Ok(())
}
