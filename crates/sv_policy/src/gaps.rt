//! The gaps of merged tables.

ghost use Rattle.std.specs.Prelude.{All, Contains, IfOk, List, OnOk, [], if◌then◌else◌, map, ◌++◌, ◌∷◌, ◌≡◌};
ghost use Rattle.sv_constraints.specs.declared.constraint.Constraint.{Constraint};
ghost use Rattle.sv_constraints.specs.declared.constraint.Rules.{Rules};
ghost use Rattle.sv_policy.specs.Compiled.{AreCompiled};
ghost use Rattle.sv_policy.specs.Filed.{IsFiled};
ghost use Rattle.sv_policy.specs.Gaps.{gap_at, gaps};
ghost use Rattle.sv_policy.specs.Table.{IsTable};
ghost use Rattle.sv_policy.specs.Uncovered.{has_methods, rising, uncovered_methods};

use crate::laws::rising_is_in_order;
use crate::patterns::copied;
use crate::table::Table;
use std::alloc::Global;
use std::collections::BTreeMap;
use std::rc::Rc;
use sv_constraints::Methods;
use sv_mapping::Pattern;
use sv_text::NoMemory;

/// Returns the gaps of the constraints that the tables were merged from.
pub fn gaps_of(alloc: Global, tables: &[Rc<Table>]) -> Result<Vec<Gap>, NoMemory>
    ensures { (rules : Rules) (constraints : List Constraint) → AreCompiled rules constraints (map (λ table. table.value) tables.now) →
        IfOk result (λ found. found.items ≡ gaps constraints) }
{
    rising_is_in_order();
    let mut found = Vec::new(alloc);
    for table in rising_tables(alloc, tables)?.as_slice() {
        push_gap(&mut found, alloc, *table)?;
    }
    Ok(found)
}

/// Returns the tables in the byte order of their patterns, one for each pattern.
fn rising_tables(alloc: Global, tables: &[Rc<Table>]) -> Result<Vec<&Table>, NoMemory>
    ensures texts { IfOk result (λ ordered. map (λ table. table.now.pattern) ordered.items ≡ rising (map (λ table. table.pattern) (map (λ table. table.value) tables.now))) }
    ensures tables { IfOk result (λ ordered. All (λ table. Contains (map (λ shared. shared.value) tables.now) table.now) ordered.items) }
{
    let filed = filed(alloc, tables)?;
    Ok(filed.values().copied().collect(alloc)?)
}

/// Returns the tables by pattern.
fn filed(alloc: Global, tables: &[Rc<Table>]) -> Result<BTreeMap<&str, &Table>, NoMemory>
    ensures { IfOk result (λ filed. IsFiled (map (λ table. table.value) tables.now) (map (λ table. table.value) tables.now) filed.entries) }
{
    let mut filed = BTreeMap::new(alloc);
    for table in tables {
        filed.insert(table.pattern.text(), &**table)?;
    }
    Ok(filed)
}

/// Appends the gap at the pattern of a table, if any.
fn push_gap(found: &mut Vec<Gap>, alloc: Global, table: &Table) -> Result<(), NoMemory>
    ensures { (rules : Rules) (constraints : List Constraint) → IsTable rules constraints table.now →
        OnOk result (found.new.items ≡ found.old.items ++
        (if has_methods (uncovered_methods constraints table.now.pattern) then gap_at constraints table.now.pattern ∷ [] else [])) }
{
    let methods = table.uncovered(alloc)?;
    if has_methods(&methods) {
        found.push(Gap {
            pattern: copied(alloc, &table.pattern)?,
            methods,
        })?;
    }
    Ok(())
}

/// Returns whether there are any such methods.
fn has_methods(methods: &Methods) -> bool
    ensures { result ≡ has_methods methods.now }
{
    match methods {
        Methods::All => true,
        Methods::Only(listed) => !listed.as_slice().is_empty(),
        Methods::Except(_) => true,
    }
}

/// A pattern of a policy and the methods that no constraint covers there (Jakarta Servlet 6.0, section 13.8.4).
#[derive(Drop)]
pub struct Gap {
    /// The pattern.
    pub pattern: Pattern,
    /// The uncovered methods: the listed ones, or all except the listed ones; never [`Methods::All`]. The names are in
    /// ascending byte order.
    pub methods: Methods,
}
