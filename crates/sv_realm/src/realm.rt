//! A realm: the users of a server, by name and by number.

ghost use Rattle.std.specs.Option.{option_copied, option_map};
ghost use Rattle.std.specs.Prelude.{slice_get, vec_len, ◌≡◌, ◌≤◌};
ghost use Rattle.sv_realm.specs.Account.{user_of};
ghost use Rattle.sv_realm.specs.Realm.{caller_at, caller_checked, caller_named, successor};
ghost use Rattle.sv_text.specs.Gives.{GivesAnswer};

use crate::account::{Account, User, account_named, accounts_of};
use crate::caller::Caller;
use crate::password::fits;
use std::alloc::Global;
use std::marker::Model;
use sv_text::NoMemory;

/// The users of a server. In contracts, its value is the list of users it was made from.
#[derive(Drop)]
pub struct Realm {
    accounts: Vec<Account>,
}

impl Model for Realm {
    ghost use Rattle.std.specs.Prelude.{List, map};
    ghost use Rattle.sv_realm.specs.declared.account.User.{User};

    ghost Value = { List User };

    ghost use Rattle.sv_realm.specs.Account.{AreNumbered, user_of};

    ghost view = { λ realm. map user_of realm.accounts.items };

    ghost invariant = { λ realm. AreNumbered realm.accounts.items };
}

impl Realm {
    /// Creates a realm from a list of users. The number of a user is their position in the list, from 0.
    ///
    /// There may be at most `MAX_USERS` users; the caller checks the length of the vector. Names may repeat: the first
    /// user with a name is found by it, and the others only by their numbers. If memory runs out, the users are
    /// dropped.
    pub fn from_users(alloc: Global, users: Vec<User>) -> Result<Realm, NoMemory>
        requires { vec_len users ≤ MAX_USERS }
        ensures { GivesAnswer result users.items }
    {
        Ok(Realm {
            accounts: accounts_of(alloc, users)?,
        })
    }

    /// Returns the caller that a login with this name and password gives: the first user with the name, if the SHA-256
    /// of their salt followed by the password is their digest. Returns `None` if no user has the name or the password
    /// does not fit that user.
    ///
    /// Allocates no memory. Digests are always compared to their ends, and a digest is also computed for an unknown
    /// name. The time taken shows neither how much of a digest is right nor whether the name exists, except through the
    /// lookup and the length of the salt. No contract states this property of the code.
    pub fn check(&self, name: &str, password: &[u8]) -> Option<&Caller>
        ensures { option_copied result ≡ caller_checked self.now name.now password.now }
    {
        let named = account_named(self.accounts.as_slice(), name);
        let fitting = fits(named, password);
        let account = named?;
        if fitting { Some(&account.caller) } else { None }
    }

    /// Returns the caller of the first user with this name, or `None` if there is none. Allocates no memory.
    pub fn find(&self, name: &str) -> Option<&Caller>
        ensures { option_copied result ≡ caller_named self.now name.now }
    {
        let account = account_named(self.accounts.as_slice(), name)?;
        Some(&account.caller)
    }

    /// Returns the caller with this number, or `None` if the realm has no user at that position. Allocates no memory.
    pub fn caller(&self, number: u32) -> Option<&Caller>
        ensures { option_copied result ≡ caller_at self.now number }
    {
        let account = self.accounts.get(number as usize)?;
        Some(&account.caller)
    }

    /// Returns the account of the user with this number, or `None` if the realm has no user at that position. Allocates
    /// no memory.
    pub fn account(&self, number: u32) -> Option<&Account>
        ensures { option_map user_of (option_copied result) ≡ slice_get self.now number }
    {
        self.accounts.get(number as usize)
    }

    /// Returns the number of the user who is still the user of an earlier realm with that number: the first user of the
    /// same name, if salt and digest have not changed. Roles may differ. Allocates no memory.
    pub fn successor(&self, earlier: &Realm, number: u32) -> Option<u32>
        ensures { result ≡ successor self.now earlier.now number }
    {
        let before = earlier.account(number)?;
        let caller = self.find(before.caller.name.as_str())?;
        let account = self.account(caller.number)?;
        if account.has_same_password(before) {
            Some(caller.number)
        } else {
            None
        }
    }
}

/// Maximum number of users in a realm.
pub const MAX_USERS: usize = 1000;
