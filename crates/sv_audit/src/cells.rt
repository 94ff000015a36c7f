//! The cell of the constraints that cover a method.

ghost use Rattle.std.specs.Prelude.{◌≡◌, List, Some, map, ℕ};
ghost use Rattle.sv_text.specs.Gives.{GivesAnswer};
ghost use Rattle.sv_audit.specs.Access.{asking, cell_for, found_cell, uncovered_access};

use crate::access::{Access, Cell, CellCaller};
use crate::coverage::covering_findings;
use crate::roles::{login_access, login_number};
use std::alloc::Global;
use sv_constraints::{Constraint, Findings, Rules};
use sv_text::{NoMemory, copied_texts};

/// Returns the cell of the constraints that cover a method at a pattern, with the number for this caller.
pub fn cell_for(
    alloc: Global,
    whose: CellCaller<'_>,
    rules: &Rules,
    members: &[&Constraint],
) -> Result<Cell, NoMemory>
    ensures { (pattern : List ℕ) → GivesAnswer result (cell_for (asking whose.entry) rules.now (Some pattern) (map (λ member. member.now) members.now)) }
{
    let found = covering_findings(rules, members);
    match found_cell(rules, found) {
        Some(cell) => Ok(cell),
        None => Ok(Cell {
            access: login_access(alloc, rules, members)?,
            constraint: login_number(whose, rules, found.covering, members),
        }),
    }
}

/// Returns the cell by the findings, or none if only callers may pass.
fn found_cell(rules: &Rules, found: Findings) -> Option<Cell>
    ensures { result ≡ found_cell rules.now found }
{
    if found.covering.is_none() {
        Some(Cell {
            access: uncovered_access(rules),
            constraint: None,
        })
    } else if found.precluding.is_some() {
        Some(Cell {
            access: Access::Precluded,
            constraint: found.precluding,
        })
    } else if !found.permits_plain {
        Some(Cell {
            access: Access::NeedsTls,
            constraint: found.covering,
        })
    } else if found.unauthenticated.is_some() {
        Some(Cell {
            access: Access::Everyone,
            constraint: found.unauthenticated,
        })
    } else {
        None
    }
}

/// Returns who may make an uncovered request.
fn uncovered_access(rules: &Rules) -> Access
    ensures { result ≡ uncovered_access rules.now }
{
    if rules.deny_uncovered {
        Access::UncoveredDenied
    } else {
        Access::Uncovered
    }
}

/// Copies a cell.
pub fn copied_cell(alloc: Global, cell: &Cell) -> Result<Cell, NoMemory>
    ensures { GivesAnswer result cell.now }
{
    Ok(Cell {
        access: copied_access(alloc, &cell.access)?,
        constraint: cell.constraint,
    })
}

/// Copies an access.
///
/// # Errors
/// `NoMemory` if memory runs out.
pub fn copied_access(alloc: Global, access: &Access) -> Result<Access, NoMemory>
    ensures { GivesAnswer result access.now }
{
    match access {
        Access::Unconstrained => Ok(Access::Unconstrained),
        Access::Uncovered => Ok(Access::Uncovered),
        Access::UncoveredDenied => Ok(Access::UncoveredDenied),
        Access::Precluded => Ok(Access::Precluded),
        Access::NeedsTls => Ok(Access::NeedsTls),
        Access::Everyone => Ok(Access::Everyone),
        Access::AnyLogin => Ok(Access::AnyLogin),
        Access::Roles(roles) => Ok(Access::Roles(copied_texts(alloc, roles.as_slice())?)),
    }
}
