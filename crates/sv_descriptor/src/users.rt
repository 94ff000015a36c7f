//! The users file.

ghost use Rattle.std.specs.Prelude.{◌≡◌, IfOk, codes};
ghost use Rattle.sv_text.specs.Gives.{Gives};
ghost use Rattle.sv_descriptor.specs.Users as spec;
ghost use Rattle.sv_descriptor.specs.Fault.{fault, located_fault};
ghost use Rattle.sv_descriptor.specs.Names.{distinct};
ghost use Rattle.sv_descriptor.specs.Table.{texts};

use crate::document::read_document;
use crate::fault::{LocatedReadFault, ReadFault};
use crate::limits::{DIGEST_DIGITS, MAX_LIST_ITEMS, MAX_SALT_DIGITS};
use crate::list::ListOf;
use crate::names::check_distinct;
use crate::schema::required;
use crate::table::{TableOf, TableSchema, only_keys};
use crate::text::{HexText, Name, TextOf};
use std::alloc::Global;
use sv_realm::User;
use sv_text::{Listed, NoMemory};
use toml::Table;

/// Reads a users file.
///
/// # Errors
/// The first fault in the format's order, or [`ReadFault::NoMemory`].
pub fn read_users(alloc: Global, text: &str) -> Result<Vec<User>, ReadFault>
    ensures gives { Gives fault (spec.seen result) (spec.users_of text.now) }
    ensures well_formed { IfOk result (λ users. spec.AreWellFormedUsers users.items) }
{
    Ok(read_located_users(alloc, text)?)
}

/// Reads a users file, and locates its fault.
///
/// # Errors
/// The first fault in the format's order with its place, or [`LocatedReadFault::NoMemory`].
#[tactic(auto, unfolding(crate::specs::Users::located_users))]
pub fn read_located_users(alloc: Global, text: &str) -> Result<Vec<User>, LocatedReadFault>
    ensures gives { Gives located_fault (spec.seen result) (spec.located_users text.now) }
    ensures well_formed { IfOk result (λ users. spec.AreWellFormedUsers users.items) }
{
    let users = read_document(alloc, text, &UsersTable)?;
    Ok(users.into_vec())
}

/// The table of users.
#[derive(Clone, Copy)]
struct UsersTable;

impl TableSchema for UsersTable {
    type Output = Listed<User>;

    ghost reads = { λ _. spec.users };

    fn read(&self, alloc: Global, table: &Table) -> Result<Listed<User>, LocatedReadFault> {
        only_keys(alloc, &["user"], &[], table)?;
        let users = ListOf {
            least: 0,
            most: MAX_LIST_ITEMS,
            item: TableOf(UserTable),
        };
        let users = required(alloc, table, "user", &users)?;
        check_names(alloc, users.as_slice())?;
        Ok(users)
    }
}

fn check_names(alloc: Global, users: &[User]) -> Result<(), LocatedReadFault>
    ensures { Gives located_fault result (distinct (codes "user") (codes "name") (spec.user_names users.now)) }
{
    let names = user_names(alloc, users)?;
    check_distinct(alloc, names.as_slice(), "user", "name")
}

fn user_names(alloc: Global, users: &[User]) -> Result<Vec<&str>, NoMemory>
    ensures { IfOk result (λ names. texts names.items ≡ spec.user_names users.now) }
{
    let mut names = Vec::with_capacity(alloc, users.len())?;
    for user in users {
        names.push(user.name.as_str())?;
    }
    Ok(names)
}

/// The table of a user.
#[derive(Clone, Copy)]
struct UserTable;

impl TableSchema for UserTable {
    type Output = User;

    ghost reads = { λ _. spec.user };

    fn read(&self, alloc: Global, table: &Table) -> Result<User, LocatedReadFault> {
        only_keys(alloc, &["name", "salt", "digest", "roles"], &[], table)?;
        let salt = TextOf(HexText {
            least: 0,
            most: MAX_SALT_DIGITS,
        });
        let digest = TextOf(HexText {
            least: DIGEST_DIGITS,
            most: DIGEST_DIGITS,
        });
        let roles = ListOf {
            least: 0,
            most: MAX_LIST_ITEMS,
            item: TextOf(Name),
        };
        Ok(User {
            name: required(alloc, table, "name", &TextOf(Name))?,
            salt: required(alloc, table, "salt", &salt)?,
            digest: required(alloc, table, "digest", &digest)?,
            roles: required(alloc, table, "roles", &roles)?,
        })
    }
}
