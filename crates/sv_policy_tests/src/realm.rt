//! The users of the rows.

use std::alloc::Global;
use sv_realm::{MAX_USERS, Realm, User};
use sv_rows::{cell, unescaped};
use sv_text::{Bytes, Listed, NoMemory, Text};

/// Users in their order: name, salt, digest. The first digest is SHA-256 of `abc` (FIPS 180-4, the one-block example),
/// so that its password is `bc`. The second is that of no bytes, so that its password is empty.
const USERS: &str = r#"
ann | a  | \xba\x78\x16\xbf\x8f\x01\xcf\xea\x41\x41\x40\xde\x5d\xae\x22\x23\xb0\x03\x61\xa3\x96\x17\x7a\x9c\xb4\x10\xff\x61\xf2\x00\x15\xad
eve | "" | \xe3\xb0\xc4\x42\x98\xfc\x1c\x14\x9a\xfb\xf4\xc8\x99\x6f\xb9\x24\x27\xae\x41\xe4\x64\x9b\x93\x4c\xa4\x95\x99\x1b\x78\x52\xb8\x55
"#;

/// Returns the realm of the users.
pub fn realm(alloc: Global) -> Result<Realm, NoMemory> {
    let mut users = Vec::new(alloc);
    for row in USERS.trim().lines() {
        users.push(User {
            name: Text::copy_of(alloc, cell(row, 0))?,
            salt: Bytes::from_vec(unescaped(alloc, cell(row, 1))?),
            digest: Bytes::from_vec(unescaped(alloc, cell(row, 2))?),
            roles: Listed::from_vec(Vec::new(alloc)),
        })?;
    }
    if users.len() > MAX_USERS {
        return Err(NoMemory);
    }
    Realm::from_users(alloc, users)
}
