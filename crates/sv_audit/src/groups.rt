//! The row of a pattern: its methods grouped by their cells.

ghost use Rattle.std.specs.Prelude.{◌≡◌, ◌++◌, ◌∷◌, [], IfOk, OnOk, filter, if◌then◌else◌, map, not};
ghost use Rattle.std.specs.List.{list_any};
ghost use Rattle.sv_text.specs.Gives.{GivesAnswer};
ghost use Rattle.sv_audit.specs.Access.{asking};
ghost use Rattle.sv_audit.specs.MethodIndex.{indexed_cell};
ghost use Rattle.sv_audit.specs.Rows.{different_cells, group_with, groups_of, named_cell, row_for};
ghost use Rattle.sv_audit.specs.Same.{same_cell};

use crate::access::{Cell, CellCaller, same_cell};
use crate::cells::{cell_for, copied_cell};
use crate::coverage::covering;
use crate::method_index::{MethodIndex, method_index};
use crate::rows::{Group, NamedCell, Row};
use std::alloc::Global;
use sv_constraints::{Constraint, Methods, Rules};
use sv_text::{Listed, NoMemory, Text};

/// Returns the row of a pattern, by the constraints on it, with the numbers for this caller.
pub fn row_for(
    alloc: Global,
    whose: CellCaller<'_>,
    rules: &Rules,
    pattern: &str,
    members: &[&Constraint],
) -> Result<Row, NoMemory>
    ensures { GivesAnswer result (row_for (asking whose.entry) (map (λ member. member.now) members.now) rules.now pattern.now) }
{
    let unnamed = covering(alloc, members, pattern, None)?;
    let others = cell_for(alloc, whose, rules, unnamed.as_slice())?;
    let index = method_index(alloc, members, pattern, unnamed.len())?;
    let named = exceptions(alloc, whose, rules, pattern, &index, &others)?;
    Ok(Row {
        pattern: Some(Text::copy_of(alloc, pattern)?),
        groups: groups_of(alloc, named.as_slice(), others)?,
    })
}

/// Returns the methods that constraints name at the pattern and whose cell is not that of the others.
fn exceptions(
    alloc: Global,
    whose: CellCaller<'_>,
    rules: &Rules,
    pattern: &str,
    index: &MethodIndex<'_>,
    others: &Cell,
) -> Result<Vec<NamedCell>, NoMemory>
    ensures { IfOk result (λ named. named.items ≡ filter (λ one. not (same_cell one.cell others.now))
        (map (indexed_cell (asking whose.entry) index.now rules.now pattern.now) (map (λ name. name.now) index.now.names.items))) }
{
    let mut named = Vec::new(alloc);
    for name in index.names.as_slice() {
        let cell = indexed_cell(alloc, whose, rules, pattern, index, *name)?;
        push_exception(&mut named, alloc, *name, cell, others)?;
    }
    Ok(named)
}

/// Returns the cell of the constraints that cover a method.
fn indexed_cell(
    alloc: Global,
    whose: CellCaller<'_>,
    rules: &Rules,
    pattern: &str,
    index: &MethodIndex<'_>,
    name: &str,
) -> Result<Cell, NoMemory>
    ensures { GivesAnswer result (indexed_cell (asking whose.entry) index.now rules.now pattern.now name.now).cell }
{
    match index.on(name) {
        Some(members) => covering_cell(alloc, whose, rules, pattern, members.as_slice(), name),
        None => covering_cell(alloc, whose, rules, pattern, &[], name),
    }
}

fn covering_cell(
    alloc: Global,
    whose: CellCaller<'_>,
    rules: &Rules,
    pattern: &str,
    members: &[&Constraint],
    name: &str,
) -> Result<Cell, NoMemory>
    ensures { GivesAnswer result (named_cell (asking whose.entry) (map (λ member. member.now) members.now) rules.now pattern.now name.now).cell }
{
    let covering = covering(alloc, members, pattern, Some(name))?;
    cell_for(alloc, whose, rules, covering.as_slice())
}

/// Appends a method with its cell, unless that is the cell of the others.
fn push_exception(
    named: &mut Vec<NamedCell>,
    alloc: Global,
    name: &str,
    cell: Cell,
    others: &Cell,
) -> Result<(), NoMemory>
    ensures { OnOk result (named.new.items ≡ named.old.items ++ (if not (same_cell cell others.now) then record { name = name.now; cell = cell } ∷ [] else [])) }
{
    if !same_cell(&cell, others) {
        named.push(NamedCell {
            name: Text::copy_of(alloc, name)?,
            cell,
        })?;
    }
    Ok(())
}

/// Returns a group for each different cell of the named methods, and one for all other methods.
fn groups_of(alloc: Global, named: &[NamedCell], others: Cell) -> Result<Listed<Group>, NoMemory>
    ensures { GivesAnswer result (groups_of named.now others) }
{
    let mut groups = Vec::new(alloc);
    for cell in different_cells(alloc, named)?.as_slice() {
        groups.push(group_with(alloc, named, *cell)?)?;
    }
    groups.push(Group {
        methods: Methods::Except(names_of(alloc, named)?),
        cell: others,
    })?;
    Ok(Listed::from_vec(groups))
}

/// Returns the different cells, in the order of their first methods.
fn different_cells(alloc: Global, named: &[NamedCell]) -> Result<Vec<&Cell>, NoMemory>
    ensures { IfOk result (λ cells. map (λ cell. cell.now) cells.items ≡ different_cells named.now) }
{
    let mut cells = Vec::new(alloc);
    for one in named {
        push_cell(&mut cells, &one.cell)?;
    }
    Ok(cells)
}

/// Appends a cell, unless it is among the cells.
fn push_cell<'a>(cells: &mut Vec<&'a Cell>, cell: &'a Cell) -> Result<(), NoMemory>
    ensures { OnOk result (map (λ other. other.now) cells.new.items ≡ map (λ other. other.now) cells.old.items ++
        (if list_any (λ other. same_cell other cell.now) (map (λ other. other.now) cells.old.items) then [] else cell.now ∷ [])) }
{
    if is_among(cells.as_slice(), cell) {
        return Ok(());
    }
    cells.push(cell)?;
    Ok(())
}

/// Returns whether the cell is among the cells.
fn is_among(cells: &[&Cell], cell: &Cell) -> bool
    ensures { result ≡ list_any (λ other. same_cell other.now cell.now) cells.now }
{
    cells.iter().any(|other| same_cell(other, cell))
}

/// Returns the methods with a cell.
fn group_with(alloc: Global, named: &[NamedCell], cell: &Cell) -> Result<Group, NoMemory>
    ensures { GivesAnswer result (group_with named.now cell.now) }
{
    Ok(Group {
        methods: Methods::Only(names_with(alloc, named, cell)?),
        cell: copied_cell(alloc, cell)?,
    })
}

fn names_with(alloc: Global, named: &[NamedCell], cell: &Cell) -> Result<Listed<Text>, NoMemory>
    ensures { GivesAnswer result (map (λ one. one.name) (filter (λ one. same_cell one.cell cell.now) named.now)) }
{
    let mut names = Vec::new(alloc);
    for one in named {
        if same_cell(&one.cell, cell) {
            names.push(Text::copy_of(alloc, one.name.as_str())?)?;
        }
    }
    Ok(Listed::from_vec(names))
}

fn names_of(alloc: Global, named: &[NamedCell]) -> Result<Listed<Text>, NoMemory>
    ensures { GivesAnswer result (map (λ one. one.name) named.now) }
{
    let mut names = Vec::with_capacity(alloc, named.len())?;
    for one in named {
        names.push(Text::copy_of(alloc, one.name.as_str())?)?;
    }
    Ok(Listed::from_vec(names))
}
