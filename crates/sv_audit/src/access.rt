//! Who may make a request, and the constraint that decides it.

ghost use Rattle.std.specs.Prelude.{◌≡◌};
ghost use Rattle.sv_audit.specs.Same.{same_access, same_cell, same_number};

use sv_policy::same_texts;
use sv_realm::Caller;
use sv_text::{Listed, Text};

/// Who may make a request, by the constraints that cover it (Jakarta Servlet 6.0, section 13.8).
#[derive(Drop)]
pub enum Access {
    /// Everyone: no pattern of a constraint matches the path.
    Unconstrained,
    /// Everyone: no constraint covers the method at the pattern (section 13.8.4).
    Uncovered,
    /// Nobody: no constraint covers the method at the pattern, and uncovered methods are denied (section 13.8.4).
    UncoveredDenied,
    /// Nobody: a covering constraint has an empty list of roles.
    Precluded,
    /// Nobody over a plain connection: no covering constraint permits one.
    NeedsTls,
    /// Everyone: a covering constraint has no authorization constraint.
    Everyone,
    /// Every authenticated caller: a covering constraint lists `**`.
    AnyLogin,
    /// Callers with one of these roles, which are in ascending byte order without duplicates. Nobody if there are none.
    Roles(Listed<Text>),
}

/// Who may make a request, and why.
#[derive(Drop)]
pub struct Cell {
    /// Who may make it.
    pub access: Access,
    /// The number of the constraint that decides the request of the [`CellCaller`]. None if no constraint covers the
    /// request.
    pub constraint: Option<u64>,
}

/// Whose request the constraint of a cell decides.
#[derive(Clone, Copy)]
pub enum CellCaller<'a> {
    /// That of a caller who has just what the access asks for: a login for `AnyLogin`, the roles of `Roles`.
    Fitting,
    /// That of this caller or, with none, of a visitor who is not logged in.
    Given(Option<&'a Caller>),
}

/// Returns whether the numbers are equal, or there are none.
fn same_number(number: Option<u64>, other: Option<u64>) -> bool
    ensures { result ≡ same_number number other }
{
    match (number, other) {
        (None, None) => true,
        (Some(number), Some(other)) => number == other,
        _ => false,
    }
}

/// Returns whether the same callers may make both requests, for the same reason.
fn same_access(access: &Access, other: &Access) -> bool
    ensures { result ≡ same_access access.now other.now }
{
    match (access, other) {
        (Access::Unconstrained, Access::Unconstrained) => true,
        (Access::Uncovered, Access::Uncovered) => true,
        (Access::UncoveredDenied, Access::UncoveredDenied) => true,
        (Access::Precluded, Access::Precluded) => true,
        (Access::NeedsTls, Access::NeedsTls) => true,
        (Access::Everyone, Access::Everyone) => true,
        (Access::AnyLogin, Access::AnyLogin) => true,
        (Access::Roles(roles), Access::Roles(others)) => {
            same_texts(roles.as_slice(), others.as_slice())
        }
        _ => false,
    }
}

/// Returns whether the cells are equal.
pub(crate) fn same_cell(cell: &Cell, other: &Cell) -> bool
    ensures { result ≡ same_cell cell.now other.now }
{
    same_number(cell.constraint, other.constraint) && same_access(&cell.access, &other.access)
}
