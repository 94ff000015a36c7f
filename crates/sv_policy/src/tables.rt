//! The table of a pattern, and the index of tables.

ghost use Rattle.std.specs.Prelude.{◌≡◌, List, map, filter, IfOk};
ghost use Rattle.sv_constraints.specs.declared.constraint.Constraint.{Constraint};
ghost use Rattle.sv_policy.specs.Table.{IsTable};
ghost use Rattle.sv_policy.specs.Patterns.{lists_pattern};
ghost use Rattle.sv_text.specs.Gives.{GivesAnswer};

use crate::likeness::are_alike;
use crate::patterns::copied;
use crate::table::Table;
use std::alloc::Global;
use std::rc::Rc;
use sv_constraints::{Constraint, Rules};
use sv_mapping::{Pattern, PatternTable};
use sv_text::NoMemory;

/// Returns the table of a pattern, merged from the constraints that list it.
pub fn merged(
    alloc: Global,
    rules: &Rules,
    pattern: &Pattern,
    mark: u64,
    members: &[&Constraint],
) -> Result<Table, NoMemory>
    ensures pattern { IfOk result (λ table. table.pattern ≡ pattern.now) }
    ensures table { (constraints : List Constraint) → map (λ member. member.now) members.now ≡ filter (λ constraint. lists_pattern constraint pattern.now) constraints →
        IfOk result (IsTable rules.now constraints) }
{
    let table = Table::merge(alloc, rules, copied(alloc, pattern)?, mark, members)?;
    Ok(table)
}

/// Returns the table of a pattern. It shares the entries of another table if both patterns are listed by the same
/// collections of the same constraints. Otherwise it is merged from the constraints that list its pattern.
pub fn table_like(
    alloc: Global,
    rules: &Rules,
    pattern: &Pattern,
    mark: u64,
    members: &[&Constraint],
    other: &Table,
    others: &[&Constraint],
) -> Result<Table, NoMemory>
    ensures pattern { IfOk result (λ table. table.pattern ≡ pattern.now) }
    ensures table { (constraints : List Constraint) → map (λ member. member.now) members.now ≡ filter (λ constraint. lists_pattern constraint pattern.now) constraints →
        map (λ member. member.now) others.now ≡ filter (λ constraint. lists_pattern constraint other.now.pattern) constraints →
        IsTable rules.now constraints other.now → IfOk result (IsTable rules.now constraints) }
{
    if are_alike(members, others, pattern.text(), other.pattern.text()) {
        let table = other.sharing(copied(alloc, pattern)?)?;
        return Ok(table);
    }
    merged(alloc, rules, pattern, mark, members)
}

/// Compiles the patterns of tables for lookups.
pub fn index_of(alloc: Global, tables: &[Rc<Table>]) -> Result<PatternTable, NoMemory>
    ensures { GivesAnswer result (map (λ table. table.value.pattern) tables.now) }
{
    let mut patterns = Vec::with_capacity(alloc, tables.len())?;
    for table in tables {
        patterns.push(copied(alloc, &table.pattern)?)?;
    }
    PatternTable::compile(alloc, patterns.as_slice())
}
