//! The roles that the users of a context have.

ghost use Rattle.std.specs.Prelude.{◌≡◌, ◌++◌, OnOk};
ghost use Rattle.sv_text.specs.Gives.{GivesAnswer};
ghost use Rattle.sv_audited_contexts.specs.Held as spec;

use std::alloc::Global;
use sv_realm::{MAX_USERS, Realm};
use sv_text::{Listed, NoMemory, Text};

/// Returns the roles of all users, in order and with duplicates, if the context names a users file.
pub fn held_in(
    alloc: Global,
    users: &Option<Text>,
    realm: &Realm,
) -> Result<Option<Listed<Text>>, NoMemory>
    ensures { GivesAnswer result (spec.held_in users.now realm.now) }
{
    match users {
        Some(_) => Ok(Some(held_roles(alloc, realm)?)),
        None => Ok(None),
    }
}

fn held_roles(alloc: Global, realm: &Realm) -> Result<Listed<Text>, NoMemory>
    ensures { GivesAnswer result (spec.held_roles realm.now) }
{
    let mut roles = Vec::new(alloc);
    for number in 0..MAX_USERS as u32 {
        push_roles_at(&mut roles, alloc, realm, number)?;
    }
    Ok(Listed::from_vec(roles))
}

fn push_roles_at(
    roles: &mut Vec<Text>,
    alloc: Global,
    realm: &Realm,
    number: u32,
) -> Result<(), NoMemory>
    ensures { OnOk result (roles.new.items ≡ roles.old.items ++ spec.roles_at realm.now number) }
{
    match realm.caller(number) {
        Some(caller) => push_copies(roles, alloc, caller.roles.as_slice()),
        None => Ok(()),
    }
}

fn push_copies(roles: &mut Vec<Text>, alloc: Global, texts: &[Text]) -> Result<(), NoMemory>
    ensures { OnOk result (roles.new.items ≡ roles.old.items ++ texts.now) }
{
    for text in texts {
        roles.push(Text::copy_of(alloc, text.as_str())?)?;
    }
    Ok(())
}
