//! The contexts of a server, from the texts of its files.

ghost use Rattle.std.specs.Prelude.{◌≤◌, Err, IfOk, length};
ghost use Rattle.sv_text.specs.Gives.{Gives};
ghost use Rattle.sv_descriptor.specs.Server.{IsWellFormedServer};
ghost use Rattle.sv_descriptor.specs.Users.{seen};
ghost use Rattle.sv_descriptor.specs.declared.limits.TheConstants.{MAX_LIST_ITEMS};
ghost use Rattle.sv_program.specs.CommandFault.{command_fault};
ghost use Rattle.sv_program.specs.Configuration as spec;
ghost use Rattle.sv_program.specs.declared.command_fault.CommandFault.TheVariants.{File};

use crate::command_fault::CommandFault;
use crate::disk::FileText;
use crate::file_fault::FileFault;
use crate::unavailable::Unavailable;
use std::alloc::Global;
use sv_descriptor::{
    ContextEntry, Descriptor, LocatedReadFault, Server, read_located_descriptor,
    read_located_server, read_located_users,
};
use sv_realm::{Realm, User};
use sv_text::Text;

/// A context of a server file, with the texts of the files that it names.
#[derive(Drop)]
pub struct ContextTexts {
    /// The context's entry in the server file.
    pub context: ContextEntry,
    /// The text of the descriptor, or why its file is not available.
    pub descriptor: FileText,
    /// The text of the users file, or why it is not available. It is ignored if the context names no users file.
    pub users: FileText,
}

/// Reads the server from the text of the file of this name.
///
/// # Errors
/// [`CommandFault::File`] if the file is not available, [`CommandFault::Server`], or [`CommandFault::NoMemory`].
pub fn server_in(alloc: Global, name: &str, text: &FileText) -> Result<Server, CommandFault>
    ensures gives { Gives command_fault result (spec.server_in name.now text.now) }
    ensures well_formed { IfOk result IsWellFormedServer }
{
    let text = match text {
        Ok(text) => text,
        Err(why) => return unavailable(alloc, name, *why),
    };
    match read_located_server(alloc, text.as_str()) {
        Ok(server) => Ok(server),
        Err(LocatedReadFault::Fault(found)) => Err(CommandFault::Server(FileFault::of(
            alloc,
            name,
            text.as_str(),
            found,
        )?)),
        Err(LocatedReadFault::NoMemory) => Err(CommandFault::NoMemory),
    }
}

/// Reads the descriptor of a context.
///
/// # Errors
/// [`CommandFault::File`] if its file is not available, [`CommandFault::Descriptor`], or [`CommandFault::NoMemory`].
pub fn descriptor_in(alloc: Global, texts: &ContextTexts) -> Result<Descriptor, CommandFault>
    ensures { Gives command_fault result (spec.descriptor_in texts.now) }
{
    let name = texts.context.descriptor.as_str();
    let text = match &texts.descriptor {
        Ok(text) => text,
        Err(why) => return unavailable(alloc, name, *why),
    };
    match read_located_descriptor(alloc, text.as_str()) {
        Ok(descriptor) => Ok(descriptor),
        Err(LocatedReadFault::Fault(found)) => Err(CommandFault::Descriptor {
            fault: FileFault::of(alloc, name, text.as_str(), found)?,
            context: Text::copy_of(alloc, texts.context.path.as_str())?,
        }),
        Err(LocatedReadFault::NoMemory) => Err(CommandFault::NoMemory),
    }
}

/// Reads the users of a context. There are none if it names no users file.
///
/// # Errors
/// [`CommandFault::File`] if the file is not available, [`CommandFault::Users`], or [`CommandFault::NoMemory`].
pub fn users_in(alloc: Global, texts: &ContextTexts) -> Result<Vec<User>, CommandFault>
    ensures gives { Gives command_fault (seen result) (spec.users_in texts.now) }
    ensures few { IfOk result (λ users. length users.items ≤ MAX_LIST_ITEMS) }
{
    let Some(name) = &texts.context.users else {
        return Ok(Vec::new(alloc));
    };
    let text = match &texts.users {
        Ok(text) => text,
        Err(why) => return unavailable(alloc, name.as_str(), *why),
    };
    match read_located_users(alloc, text.as_str()) {
        Ok(users) => Ok(users),
        Err(LocatedReadFault::Fault(found)) => Err(CommandFault::Users {
            fault: FileFault::of(alloc, name.as_str(), text.as_str(), found)?,
            context: Text::copy_of(alloc, texts.context.path.as_str())?,
        }),
        Err(LocatedReadFault::NoMemory) => Err(CommandFault::NoMemory),
    }
}

/// Reads the users of a context as a realm.
///
/// # Errors
/// As [`users_in`].
pub fn realm_in(alloc: Global, texts: &ContextTexts) -> Result<Realm, CommandFault>
    ensures { Gives command_fault result (spec.users_in texts.now) }
{
    let users = users_in(alloc, texts)?;
    Ok(Realm::from_users(alloc, users)?)
}

/// Returns the fault of a file that is not available.
fn unavailable<T>(alloc: Global, name: &str, why: Unavailable) -> Result<T, CommandFault>
    ensures { Gives command_fault result (Err (File name.now why)) }
{
    Err(CommandFault::File(Text::copy_of(alloc, name)?, why))
}
