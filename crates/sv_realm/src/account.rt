//! The accounts of a realm: for each user, the caller and the salt and digest that passwords are checked against.

ghost use Rattle.std.specs.List.{enumerate_from};
ghost use Rattle.std.specs.Option.{option_copied};
ghost use Rattle.std.specs.Prelude.{IfOk, find, map, vec_len, ◌≡◌, ◌≤◌};
ghost use Rattle.std.specs.Str.{bytes_eq};
ghost use Rattle.sv_realm.specs.Account.{account_of, user_of};
ghost use Rattle.sv_realm.specs.User.{has_same_password};

use crate::caller::Caller;
use crate::password::same_bytes;
use crate::realm::MAX_USERS;
use std::alloc::Global;
use sv_text::{Bytes, Listed, NoMemory, Text};

/// A user of a realm: the caller that a login gives, and the salt and digest that the password is checked against.
#[derive(Drop)]
pub struct Account {
    /// The caller that a login gives.
    pub caller: Caller,
    /// The salt of the password.
    pub salt: Bytes,
    /// The digest that the salt followed by the password has.
    pub digest: Bytes,
}

impl Account {
    /// Returns the account of a user with this number. Allocates no memory.
    pub fn new(number: u32, user: User) -> Account
        ensures { result ≡ account_of (number, user) }
    {
        let User {
            name,
            salt,
            digest,
            roles,
        } = user;
        Account {
            caller: Caller {
                number,
                name,
                roles,
            },
            salt,
            digest,
        }
    }

    /// Returns whether the salt and the digest are those of another account.
    pub fn has_same_password(&self, other: &Account) -> bool
        ensures { result ≡ has_same_password (user_of self.now) (user_of other.now) }
    {
        same_bytes(self.salt.as_slice(), other.salt.as_slice())
            && same_bytes(self.digest.as_slice(), other.digest.as_slice())
    }
}

/// Returns the accounts of a list of users, numbered by their positions from 0.
pub fn accounts_of(alloc: Global, users: Vec<User>) -> Result<Vec<Account>, NoMemory>
    requires { vec_len users ≤ MAX_USERS }
    ensures { IfOk result (λ accounts. accounts.items ≡ map account_of (enumerate_from 0 users.items)) }
{
    let mut accounts = Vec::with_capacity(alloc, users.len())?;
    for user in users {
        let number = accounts.len() as u32;
        accounts.push(Account::new(number, user))?;
    }
    Ok(accounts)
}

/// Returns the first account with this name, if any.
pub fn account_named<'a>(accounts: &'a [Account], name: &str) -> Option<&'a Account>
    ensures { option_copied result ≡ find (λ account. bytes_eq account.caller.name name.now) accounts.now }
{
    accounts
        .iter()
        .find(|account| account.caller.name.as_str() == name)
}

/// A user, with the salt and digest that a password is checked against.
#[derive(Drop)]
pub struct User {
    /// The user's name.
    pub name: Text,
    /// The salt as bytes, decoded from hexadecimal.
    pub salt: Bytes,
    /// The digest as bytes, decoded from hexadecimal: the SHA-256 of the salt followed by the password. A digest that
    /// does not have 32 bytes fits no password.
    pub digest: Bytes,
    /// The names of the user's roles.
    pub roles: Listed<Text>,
}
