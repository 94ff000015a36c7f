//! Checks of names and passwords in a realm of users.

use std::alloc::Global;
use sv_realm::{Caller, MAX_USERS, Realm, User};
use sv_rows::{Asks, Draft, Strays, cell, hold, unescaped};
use sv_text::{Bytes, Listed, NoMemory, Text};

/// Users in their order: name, salt, digest, role. The digest is SHA-256 of `abc` (FIPS 180-4, the one-block example).
/// That of `short` lacks the last byte, and that of `late` differs in the last byte.
const USERS: &str = r#"
short | a   | \xba\x78\x16\xbf\x8f\x01\xcf\xea\x41\x41\x40\xde\x5d\xae\x22\x23\xb0\x03\x61\xa3\x96\x17\x7a\x9c\xb4\x10\xff\x61\xf2\x00\x15 | a
ann   | a   | \xba\x78\x16\xbf\x8f\x01\xcf\xea\x41\x41\x40\xde\x5d\xae\x22\x23\xb0\x03\x61\xa3\x96\x17\x7a\x9c\xb4\x10\xff\x61\xf2\x00\x15\xad | b
ann   | ""  | \xba\x78\x16\xbf\x8f\x01\xcf\xea\x41\x41\x40\xde\x5d\xae\x22\x23\xb0\x03\x61\xa3\x96\x17\x7a\x9c\xb4\x10\xff\x61\xf2\x00\x15\xad | c
salt  | abc | \xba\x78\x16\xbf\x8f\x01\xcf\xea\x41\x41\x40\xde\x5d\xae\x22\x23\xb0\x03\x61\xa3\x96\x17\x7a\x9c\xb4\x10\xff\x61\xf2\x00\x15\xad | d
plain | ""  | \xba\x78\x16\xbf\x8f\x01\xcf\xea\x41\x41\x40\xde\x5d\xae\x22\x23\xb0\x03\x61\xa3\x96\x17\x7a\x9c\xb4\x10\xff\x61\xf2\x00\x15\xad | e
late  | a   | \xba\x78\x16\xbf\x8f\x01\xcf\xea\x41\x41\x40\xde\x5d\xae\x22\x23\xb0\x03\x61\xa3\x96\x17\x7a\x9c\xb4\x10\xff\x61\xf2\x00\x15\xac | f
"#;

/// The columns: call; name, or number for `caller`; password for `check`; number, name and roles of the caller, or `-`
/// for none.
const ROWS: &str = r#"
-- salt `a` and password `bc` are `abc`; of equal names the first counts
check  | ann    | bc  | 1 ann b
check  | ann    | abc | -
check  | ann    | x   | -
check  | ann    | ""  | -
check  | an     | bc  | -
check  | Ann    | bc  | -
-- the whole of `abc` as salt, and as password
check  | salt   | ""  | 3 salt d
check  | salt   | abc | -
check  | plain  | abc | 4 plain e
check  | plain  | ""  | -
-- digests that are short, or differ in the last byte
check  | short  | bc  | -
check  | late   | bc  | -
-- a caller is found by name and by number
find   | ann    | -   | 1 ann b
find   | nobody | -   | -
caller | 2      | -   | 2 ann c
caller | 6      | -   | -
"#;

#[test]
fn a_password_identifies_the_caller_if_its_digest_matches(rt: HostRuntime) -> Result<(), Strays> {
    hold(&rt, &[ROWS], &Callers(realm(rt.alloc())?))
}

/// Answers with a caller of the realm.
#[derive(Drop)]
struct Callers(Realm);

impl Asks for Callers {
    const QUESTION: usize = 3;

    fn answer(&self, alloc: Global, row: &str, answer: &mut Vec<u8>) -> Result<(), NoMemory> {
        let key = cell(row, 1);
        let caller = match cell(row, 0) {
            "check" => self.0.check(key, cell(row, 2).as_bytes()),
            "find" => self.0.find(key),
            _ => self.0.caller(key.parse::<u32>().unwrap_or(0)),
        };
        told(alloc, caller).add_to(answer)
    }
}

fn told(alloc: Global, caller: Option<&Caller>) -> Draft {
    let mut text = Draft::new(alloc);
    let Some(caller) = caller else {
        text.add("-");
        return text;
    };
    text.add_shown(&caller.number);
    text.add(" ");
    text.add(caller.name.as_str());
    for role in caller.roles.as_slice() {
        text.add(" ");
        text.add(role.as_str());
    }
    text
}

/// Returns the realm of the users.
fn realm(alloc: Global) -> Result<Realm, NoMemory> {
    let mut users = Vec::new(alloc);
    for row in USERS.trim().lines() {
        users.push(user(alloc, row)?)?;
    }
    if users.len() > MAX_USERS {
        return Err(NoMemory);
    }
    Realm::from_users(alloc, users)
}

fn user(alloc: Global, row: &str) -> Result<User, NoMemory> {
    let mut roles = Vec::new(alloc);
    roles.push(Text::copy_of(alloc, cell(row, 3))?)?;
    Ok(User {
        name: Text::copy_of(alloc, cell(row, 0))?,
        salt: Bytes::from_vec(unescaped(alloc, cell(row, 1))?),
        digest: Bytes::from_vec(unescaped(alloc, cell(row, 2))?),
        roles: Listed::from_vec(roles),
    })
}
