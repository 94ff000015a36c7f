//! Security constraints.

ghost use Rattle.std.specs.Prelude.{◌≡◌};
ghost use Rattle.sv_descriptor.specs.Constraint as spec;
ghost use Rattle.sv_descriptor.specs.ListOf.{is_array};

use crate::collection::Collections;
use crate::fault::{FaultCode, LocatedReadFault, refuse};
use crate::ignored_keys::element_keys;
use crate::limits::MAX_LIST_ITEMS;
use crate::list::ListOf;
use crate::schema::{Schema, list_or_empty, optional_or, required};
use crate::table::{TableOf, TableSchema};
use crate::text::{Name, TextOf, TextSchema};
use std::alloc::Global;
use sv_constraints::{Auth, Constraint, Transport};
use sv_text::Listed;
use toml::{Table, Value};

/// The list of constraints, numbered from 1.
#[derive(Clone, Copy)]
pub struct Constraints;

impl Schema for Constraints {
    type Output = Listed<Constraint>;

    ghost fits = { λ _. is_array };

    ghost reads = { λ _. spec.constraints };

    fn fits(&self, value: &Value) -> bool {
        value.is_array()
    }

    fn read(
        &self,
        alloc: Global,
        key: &str,
        value: &Value,
    ) -> Result<Listed<Constraint>, LocatedReadFault> {
        let constraints = UNNUMBERED.read(alloc, key, value)?;
        Ok(numbered(constraints))
    }
}

/// The list of constraints before they are numbered.
const UNNUMBERED: ListOf<TableOf<ConstraintTable>> = ListOf {
    least: 0,
    most: MAX_LIST_ITEMS,
    item: TableOf(ConstraintTable),
};

/// Numbers constraints from 1 in their order.
fn numbered(constraints: Listed<Constraint>) -> Listed<Constraint>
    ensures { result ≡ spec.numbered 1 constraints }
{
    let mut constraints = constraints.into_vec();
    number_each(constraints.as_mut_slice());
    Listed::from_vec(constraints)
}

fn number_each(constraints: &mut [Constraint])
    ensures { constraints.new ≡ spec.numbered 1 constraints.old }
{
    for (place, constraint) in constraints.iter_mut().enumerate() {
        constraint.number = place as u64 + 1;
    }
}

/// The table of a constraint. Its number is 0 until all are numbered.
#[derive(Clone, Copy)]
struct ConstraintTable;

impl TableSchema for ConstraintTable {
    type Output = Constraint;

    ghost reads = { λ _. spec.constraint };

    fn read(&self, alloc: Global, table: &Table) -> Result<Constraint, LocatedReadFault> {
        let known = [
            "web-resource-collection",
            "auth-constraint",
            "user-data-constraint",
        ];
        element_keys(alloc, &known, table)?;
        let auth = TableOf(AuthTable);
        let transport = TableOf(TransportTable);
        let plain = Transport::Absent;
        Ok(Constraint {
            number: 0,
            collections: required(alloc, table, "web-resource-collection", &Collections)?,
            auth: optional_or(alloc, table, "auth-constraint", &auth, Auth::Absent)?,
            transport: optional_or(alloc, table, "user-data-constraint", &transport, plain)?,
        })
    }
}

/// The table of an authorization constraint.
#[derive(Clone, Copy)]
struct AuthTable;

impl TableSchema for AuthTable {
    type Output = Auth;

    ghost reads = { λ _. spec.auth_constraint };

    fn read(&self, alloc: Global, table: &Table) -> Result<Auth, LocatedReadFault> {
        element_keys(alloc, &["role-name"], table)?;
        let roles = ListOf {
            least: 0,
            most: MAX_LIST_ITEMS,
            item: TextOf(Name),
        };
        Ok(Auth::Roles(list_or_empty(alloc, table, "role-name", &roles)?))
    }
}

/// The table of a user data constraint.
#[derive(Clone, Copy)]
struct TransportTable;

impl TableSchema for TransportTable {
    type Output = Transport;

    ghost reads = { λ _. spec.user_data_constraint };

    fn read(&self, alloc: Global, table: &Table) -> Result<Transport, LocatedReadFault> {
        element_keys(alloc, &["transport-guarantee"], table)?;
        required(alloc, table, "transport-guarantee", &TextOf(Guarantee))
    }
}

/// The name of a transport guarantee.
#[derive(Clone, Copy)]
struct Guarantee;

impl TextSchema for Guarantee {
    type Output = Transport;

    ghost reads = { λ _. spec.transport_guarantee };

    fn read(&self, alloc: Global, key: &str, text: &str) -> Result<Transport, LocatedReadFault> {
        match text {
            "NONE" => Ok(Transport::Plain),
            "INTEGRAL" => Ok(Transport::Integral),
            "CONFIDENTIAL" => Ok(Transport::Confidential),
            _ => refuse(alloc, FaultCode::BadValue, key),
        }
    }
}
