//! The configuration files of a server, read from a store.

ghost use Rattle.std.specs.Prelude.{IfOk};
ghost use Rattle.std.specs.Path.{path_with_file_name};
ghost use Rattle.sv_descriptor.specs.Server.{IsWellFormedServer};
ghost use Rattle.sv_program.specs.ConfigurationFiles.{ReadsContext, ReadsContexts, ReadsNamed, ReadsServer};

use crate::command_fault::CommandFault;
use crate::configuration::{ContextTexts, server_in};
use crate::disk::{FileStore, FileText};
use crate::unavailable::Unavailable;
use std::alloc::Global;
use std::path::Path;
use sv_descriptor::{ContextEntry, Server};
use sv_text::{Listed, NoMemory, Text};

/// Reads the server file of this name.
///
/// # Errors
/// [`CommandFault::File`], [`CommandFault::Server`], or [`CommandFault::NoMemory`].
pub fn read_server_file<S: FileStore>(
    alloc: Global,
    store: &mut S,
    config: &str,
) -> Result<Server, CommandFault>
    ensures reads { ReadsServer S.gives_text config.now store.old result store.new }
    ensures well_formed { IfOk result IsWellFormedServer }
{
    let text = store.read_text(alloc, config)?;
    server_in(alloc, config, &text)
}

/// Reads the files of the contexts of the server file `config`, in order: the descriptor of each context, then its
/// users file, if it names one.
pub fn read_contexts<S: FileStore>(
    alloc: Global,
    store: &mut S,
    config: &str,
    contexts: Listed<ContextEntry>,
) -> Result<Listed<ContextTexts>, NoMemory>
    ensures { IfOk result (λ texts. ReadsContexts S.gives_text config.now contexts store.old texts store.new) }
{
    let mut texts = Vec::new(alloc);
    for context in contexts.into_vec() {
        texts.push(read_context(alloc, store, config, context)?)?;
    }
    Ok(Listed::from_vec(texts))
}

fn read_context<S: FileStore>(
    alloc: Global,
    store: &mut S,
    config: &str,
    context: ContextEntry,
) -> Result<ContextTexts, NoMemory>
    ensures { IfOk result (λ texts. ReadsContext S.gives_text config.now context store.old texts store.new) }
{
    let descriptor = read_beside(alloc, store, config, context.descriptor.as_str())?;
    let users = read_named(alloc, store, config, &context.users)?;
    Ok(ContextTexts {
        context,
        descriptor,
        users,
    })
}

/// Reads the file of this name. Without a name no file is read, and none is available.
fn read_named<S: FileStore>(
    alloc: Global,
    store: &mut S,
    config: &str,
    name: &Option<Text>,
) -> Result<FileText, NoMemory>
    ensures { IfOk result (λ text. ReadsNamed S.gives_text config.now name.now store.old text store.new) }
{
    match name {
        Some(name) => read_beside(alloc, store, config, name.as_str()),
        None => Ok(Err(Unavailable::Missing)),
    }
}

/// Reads a file that the server file `config` names. The name is relative to the folder of the server file.
fn read_beside<S: FileStore>(
    alloc: Global,
    store: &mut S,
    config: &str,
    name: &str,
) -> Result<FileText, NoMemory>
    ensures { IfOk result (λ text. S.gives_text store.old (path_with_file_name config.now name.now) text store.new) }
{
    let path = Path::new(config).with_file_name(alloc, name)?;
    store.read_text(alloc, path.as_str())
}
