//! The security constraints, roles and login of a descriptor.

ghost use Rattle.sv_text.specs.Gives.{Gives};
ghost use Rattle.toml.specs.View.{table_view};
ghost use Rattle.sv_descriptor.specs.Security.{security};
ghost use Rattle.sv_descriptor.specs.Fault.{located_fault};

use crate::constraint::Constraints;
use crate::fault::LocatedReadFault;
use crate::login::{FormLogin, LoginTable};
use crate::role::RoleTable;
use crate::schema::{list_or_empty, optional};
use crate::table::TableOf;
use crate::tables::tables;
use std::alloc::Global;
use sv_constraints::{Constraint, Rules};
use sv_text::Listed;
use toml::Table;

/// The security constraints, roles and login.
#[derive(Drop)]
pub struct Security {
    /// The security constraints, numbered from 1.
    pub constraints: Listed<Constraint>,
    /// The declared roles, and whether requests that no constraint covers are denied.
    pub rules: Rules,
    /// The login configuration; none if callers cannot log in.
    pub login: Option<FormLogin>,
}

/// Reads the constraints, roles and login of a descriptor. If `deny_uncovered`, its rules deny requests that no
/// constraint covers.
///
/// # Errors
/// The first fault in the order of the elements, or [`LocatedReadFault::NoMemory`].
pub fn read_security(
    alloc: Global,
    table: &Table,
    deny_uncovered: bool,
) -> Result<Security, LocatedReadFault>
    ensures { Gives located_fault result (security deny_uncovered (table_view table.now)) }
{
    let constraints = list_or_empty(alloc, table, "security-constraint", &Constraints)?;
    let declared = tables(alloc, table, "security-role", RoleTable)?;
    let login = optional(alloc, table, "login-config", &TableOf(LoginTable))?;
    Ok(Security {
        constraints,
        rules: Rules {
            declared,
            deny_uncovered,
        },
        login,
    })
}
