//! The tables of constraints after one of them was edited. Only the tables of its patterns are made again.

ghost use Rattle.std.specs.Prelude.{◌≡◌, ◌++◌, ◌∷◌, ◌<◌, [], List, filter, length, map, not, remove, slice_index_or, suc, drop, take, IfOk};
ghost use Rattle.sv_constraints.specs.Covering.{lists};
ghost use Rattle.sv_constraints.specs.declared.constraint.Constraint.{Constraint};
ghost use Rattle.sv_policy.specs.Compiled.{AreCompiled};
ghost use Rattle.sv_policy.specs.Patterns.{listed_in};
ghost use Rattle.sv_policy.specs.Rebuilt.{AreSameElsewhere, IsRebuilt};

use crate::listed_tables::push_tables;
use crate::patterns::{is_among, patterns_of};
use crate::shared_tables::Making;
use crate::table::Table;
use crate::tables::index_of;
use std::alloc::Global;
use std::rc::Rc;
use std::slice;
use sv_constraints::{Collection, Constraint, Rules};
use sv_mapping::{Pattern, PatternTable};
use sv_text::NoMemory;

/// The tables of edited constraints.
#[derive(Drop)]
pub struct Rebuilt {
    /// The tables. Those of other patterns are shared with the tables before the edit.
    pub tables: Vec<Rc<Table>>,
    /// The patterns of the tables.
    pub index: PatternTable,
    /// The number of different patterns of the edited constraint.
    pub count: usize,
}

/// Returns the tables of constraints after one more is appended.
pub fn rebuilt_with(
    alloc: Global,
    rules: &Rules,
    tables: &[Rc<Table>],
    constraints: &[Constraint],
    added: &Constraint,
) -> Result<Rebuilt, NoMemory>
    requires { AreCompiled rules.now constraints.now (map (λ table. table.value) tables.now) }
    ensures { IfOk result (IsRebuilt rules.now (constraints.now ++ added.now ∷ []) added.now.collections) }
{
    let edited = added.collections.as_slice();
    rebuilt_around(
        alloc,
        rules,
        tables,
        constraints,
        slice::from_ref(added),
        edited,
    )
}

/// Returns the tables of constraints without the one at an index.
pub fn rebuilt_without(
    alloc: Global,
    rules: &Rules,
    tables: &[Rc<Table>],
    constraints: &[Constraint],
    place: usize,
) -> Result<Rebuilt, NoMemory>
    requires compiled { AreCompiled rules.now constraints.now (map (λ table. table.value) tables.now) }
    requires within { place < length constraints.now }
    ensures { (withdrawn : Constraint) → withdrawn ≡ slice_index_or constraints.now place withdrawn →
        IfOk result (IsRebuilt rules.now (remove constraints.now place) withdrawn.collections) }
{
    let edited = constraints[place].collections.as_slice();
    let front = before(constraints, place);
    let back = behind(constraints, place);
    rebuilt_around(alloc, rules, tables, front, back, edited)
}

/// Returns the constraints before the one at an index.
fn before(constraints: &[Constraint], place: usize) -> &[Constraint]
    requires { place < length constraints.now }
    ensures { result.now ≡ take place constraints.now }
{
    &constraints[..place]
}

/// Returns the constraints after the one at an index.
fn behind(constraints: &[Constraint], place: usize) -> &[Constraint]
    requires { place < length constraints.now }
    ensures { result.now ≡ drop (suc place) constraints.now }
{
    &constraints[place + 1..]
}

/// Returns the tables of the constraints of two lists, one after the other. The given tables must be those of
/// constraints that differ from these only on the edited patterns.
fn rebuilt_around(
    alloc: Global,
    rules: &Rules,
    tables: &[Rc<Table>],
    front: &[Constraint],
    back: &[Constraint],
    edited: &[Collection],
) -> Result<Rebuilt, NoMemory>
    ensures { (constraints : List Constraint) → AreCompiled rules.now constraints (map (λ table. table.value) tables.now) →
        AreSameElsewhere constraints (front.now ++ back.now) (listed_in edited.now) →
        IfOk result (IsRebuilt rules.now (front.now ++ back.now) edited.now) }
{
    let patterns = patterns_of(alloc, edited)?;
    let tables = others(alloc, tables, patterns.as_slice())?;
    let mut making = Making::beginning(alloc, tables)?;
    push_tables(&mut making, alloc, rules, front, back, patterns.as_slice())?;
    Ok(Rebuilt {
        index: index_of(alloc, making.tables.as_slice())?,
        count: patterns.len(),
        tables: making.tables,
    })
}

/// Returns the tables of other patterns, which are shared.
fn others(
    alloc: Global,
    tables: &[Rc<Table>],
    patterns: &[&Pattern],
) -> Result<Vec<Rc<Table>>, NoMemory>
    ensures { IfOk result (λ kept. map (λ table. table.value) kept.items ≡
        filter (λ table. not (lists (map (λ pattern. pattern.now) patterns.now) table.pattern)) (map (λ table. table.value) tables.now)) }
{
    let mut kept = Vec::with_capacity(alloc, tables.len())?;
    for table in tables {
        if !is_among(patterns, table.pattern.text()) {
            kept.push(table.clone()?)?;
        }
    }
    Ok(kept)
}
