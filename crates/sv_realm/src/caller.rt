//! The caller of a request.

ghost use Rattle.sv_text.specs.Gives.{GivesAnswer};

use std::alloc::Global;
use sv_text::{Listed, NoMemory, Text, copied_texts};

/// An authenticated caller: a user of the realm, with the roles that the realm gives them.
#[derive(Drop)]
pub struct Caller {
    /// The position of the user in the realm, from 0.
    pub number: u32,
    /// The user's name.
    pub name: Text,
    /// The names of the user's roles, in the order of the realm.
    pub roles: Listed<Text>,
}

impl Caller {
    /// Copies a caller.
    pub fn copy_of(alloc: Global, caller: &Caller) -> Result<Caller, NoMemory>
        ensures { GivesAnswer result caller.now }
    {
        Ok(Caller {
            number: caller.number,
            name: Text::copy_of(alloc, caller.name.as_str())?,
            roles: copied_texts(alloc, caller.roles.as_slice())?,
        })
    }
}
