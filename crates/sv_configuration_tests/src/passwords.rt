//! The password of the demonstration's user.

use std::alloc::Global;
use sv_descriptor::read_users;
use sv_realm::{Caller, Realm};
use sv_rows::{Asks, Draft, Strays, cell, hold};
use sv_text::NoMemory;

const USERS: &str = r#"[[user]]
name = "ann"
salt = "61"
digest = "ba7816bf8f01cfea414140de5dae2223b00361a396177a9cb410ff61f20015ad"
roles = ["a"]
"#;

/// The columns: name; password; name and roles of the caller, or `-` for none.
const PASSWORDS: &str = r#"
ann | bc  | ann a
ann | x   | -
ann | abc | -
ann | ""  | -
bob | bc  | -
"#;

#[test]
fn only_her_own_password_admits_the_demo_user(rt: HostRuntime) -> Result<(), Strays> {
    hold(&rt, &[PASSWORDS], &Passwords)
}

/// Answers with the caller of a name and a password.
struct Passwords;

impl Asks for Passwords {
    const QUESTION: usize = 2;

    fn answer(&self, alloc: Global, row: &str, answer: &mut Vec<u8>) -> Result<(), NoMemory> {
        let realm = realm(alloc)?;
        let mut draft = Draft::new(alloc);
        match realm.check(cell(row, 0), cell(row, 1).as_bytes()) {
            Some(caller) => add_caller(&mut draft, caller),
            None => draft.add("-"),
        }
        draft.add_to(answer)
    }
}

/// Returns the realm of the demonstration.
fn realm(alloc: Global) -> Result<Realm, NoMemory> {
    match read_users(alloc, USERS) {
        Ok(users) => Realm::from_users(alloc, users),
        Err(_) => Err(NoMemory),
    }
}

fn add_caller(draft: &mut Draft, caller: &Caller) {
    draft.add(caller.name.as_str());
    for role in caller.roles.as_slice() {
        draft.add(" ");
        draft.add(role.as_str());
    }
}
