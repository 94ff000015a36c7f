//! The tables of all patterns, made from constraints that are grouped by pattern.

ghost use Rattle.std.specs.Prelude.{◌≡◌, ◌++◌, ◌∷◌, [], List, map, filter, if◌then◌else◌, All, IfOk, OnOk};
ghost use Rattle.sv_constraints.specs.Covering.{all_patterns, lists};
ghost use Rattle.sv_constraints.specs.declared.constraint.Constraint.{Constraint};
ghost use Rattle.sv_policy.specs.Table.{IsTable};
ghost use Rattle.sv_policy.specs.Compiled.{AreCompiled};
ghost use Rattle.sv_policy.specs.Groups.{IsGrouped};
ghost use Rattle.sv_policy.specs.Patterns.{lists_pattern};

use crate::groups::{Groups, grouped};
use crate::likeness::mark_of;
use crate::shared_tables::Making;
use crate::table::Table;
use crate::tables::{merged, table_like};
use std::alloc::Global;
use std::rc::Rc;
use sv_constraints::{Constraint, Rules};
use sv_mapping::Pattern;
use sv_text::NoMemory;

/// Returns the tables of constraints. Each is made from the constraints on its pattern, without a search through the
/// others. Patterns that are listed by the same collections of the same constraints can share their entries.
pub fn tables_of(
    alloc: Global,
    rules: &Rules,
    constraints: &[Constraint],
) -> Result<Vec<Rc<Table>>, NoMemory>
    ensures { IfOk result (λ tables. AreCompiled rules.now constraints.now (map (λ table. table.value) tables.items)) }
{
    let groups = grouped(alloc, constraints)?;
    let tables = Vec::with_capacity(alloc, groups.patterns.len())?;
    let mut making = Making::beginning(alloc, tables)?;
    push_groups(&mut making, alloc, rules, &groups)?;
    Ok(making.tables)
}

/// Makes the tables of the groups of constraints.
fn push_groups(
    making: &mut Making,
    alloc: Global,
    rules: &Rules,
    groups: &Groups<'_>,
) -> Result<(), NoMemory>
    ensures texts { (constraints : List Constraint) → IsGrouped constraints groups.now →
        OnOk result (map (λ table. table.value.pattern) making.new.tables.items ≡ map (λ table. table.value.pattern) making.old.tables.items ++
        filter (λ text. lists (all_patterns constraints) text) (map (λ pattern. pattern.now) groups.now.patterns.items)) }
    ensures tables { (constraints : List Constraint) → IsGrouped constraints groups.now →
        OnOk result (All (λ table. IsTable rules.now constraints table.value) making.old.tables.items →
        All (λ table. IsTable rules.now constraints table.value) making.new.tables.items) }
{
    for pattern in groups.patterns.as_slice() {
        push_group(making, alloc, rules, groups, *pattern)?;
    }
    Ok(())
}

/// Makes the table of a pattern, if it has a group.
fn push_group(
    making: &mut Making,
    alloc: Global,
    rules: &Rules,
    groups: &Groups<'_>,
    pattern: &Pattern,
) -> Result<(), NoMemory>
    ensures texts { (constraints : List Constraint) → IsGrouped constraints groups.now →
        OnOk result (map (λ table. table.value.pattern) making.new.tables.items ≡ map (λ table. table.value.pattern) making.old.tables.items ++
        (if lists (all_patterns constraints) pattern.now then pattern.now ∷ [] else [])) }
    ensures tables { (constraints : List Constraint) → IsGrouped constraints groups.now →
        OnOk result (All (λ table. IsTable rules.now constraints table.value) making.old.tables.items →
        All (λ table. IsTable rules.now constraints table.value) making.new.tables.items) }
{
    let Some(members) = groups.on(pattern.text()) else {
        return Ok(());
    };
    let members = members.as_slice();
    if members.is_empty() {
        return Ok(());
    }
    let table = grouped_table(alloc, rules, making, groups, pattern, members)?;
    making.push(alloc, table)?;
    Ok(())
}

/// Returns the table of a pattern that these constraints list. It shares its entries with the last table made with the
/// same mark, if both patterns are listed by the same collections of the same constraints.
fn grouped_table(
    alloc: Global,
    rules: &Rules,
    making: &Making,
    groups: &Groups<'_>,
    pattern: &Pattern,
    members: &[&Constraint],
) -> Result<Table, NoMemory>
    ensures pattern { IfOk result (λ table. table.pattern ≡ pattern.now) }
    ensures table { (constraints : List Constraint) → IsGrouped constraints groups.now →
        map (λ member. member.now) members.now ≡ filter (λ constraint. lists_pattern constraint pattern.now) constraints →
        All (λ table. IsTable rules.now constraints table.value) making.now.tables.items → IfOk result (IsTable rules.now constraints) }
{
    let mark = mark_of(members, pattern.text());
    let Some(other) = making.marked(mark) else {
        return merged(alloc, rules, pattern, mark, members);
    };
    match groups.on(other.pattern.text()) {
        None => merged(alloc, rules, pattern, mark, members),
        Some(others) => table_like(
            alloc,
            rules,
            pattern,
            mark,
            members,
            other,
            others.as_slice(),
        ),
    }
}
