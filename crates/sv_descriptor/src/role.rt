//! Declared roles.

ghost use Rattle.std.specs.Prelude.{◌≡◌};
ghost use Rattle.sv_descriptor.specs.Role as spec;

use crate::fault::{FaultCode, LocatedReadFault, refuse};
use crate::ignored_keys::element_keys;
use crate::schema::required;
use crate::table::TableSchema;
use crate::text::{Name, TextOf, TextSchema};
use std::alloc::Global;
use sv_text::Text;
use toml::Table;

/// The table of a declared role.
#[derive(Clone, Copy)]
pub struct RoleTable;

impl TableSchema for RoleTable {
    type Output = Text;

    ghost reads = { λ _. spec.security_role };

    fn read(&self, alloc: Global, table: &Table) -> Result<Text, LocatedReadFault> {
        element_keys(alloc, &["role-name"], table)?;
        required(alloc, table, "role-name", &TextOf(RoleName))
    }
}

/// The name of a declared role.
#[derive(Clone, Copy)]
struct RoleName;

impl TextSchema for RoleName {
    type Output = Text;

    ghost reads = { λ _. spec.role_name };

    fn read(&self, alloc: Global, key: &str, text: &str) -> Result<Text, LocatedReadFault> {
        if is_reserved_role(text) {
            return refuse(alloc, FaultCode::ReservedRole, key);
        }
        Name.read(alloc, key, text)
    }
}

#[tactic(auto, unfolding(crate::specs::Role::is_reserved_role))]
fn is_reserved_role(name: &str) -> bool
    ensures { result ≡ spec.is_reserved_role name.now }
{
    name == "*" || name == "**"
}
