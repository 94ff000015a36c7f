//! The files that the arguments of the command `audit` name, besides the server file.

ghost use Rattle.std.specs.Prelude.{◌≡◌, ℕ, List, IfOk, Ok, Some, option_copied};
ghost use Rattle.sv_text.specs.Gives.{Gives, GivesAnswer};
ghost use Rattle.sv_program.specs.CommandFault.{command_fault};
ghost use Rattle.sv_program.specs.Configuration.{server_in};
ghost use Rattle.sv_program.specs.ConfigurationFiles.{contexts_in};
ghost use Rattle.sv_program.specs.FileStore.{AreRead};
ghost use Rattle.sv_audit_command.specs.Report as spec;

use crate::access_options::AccessOptions;
use std::alloc::Global;
use sv_descriptor::{ContextEntry, LocatedReadFault, read_located_server};
use sv_program::{CommandFault, ContextTexts, FileStore, FileText, Unavailable, read_contexts};
use sv_text::{Listed, NoMemory, Text};

/// The texts of the files that the options name. A text is ignored if its option names no file.
#[derive(Drop)]
pub(crate) struct FurtherFiles {
    /// The accepting file.
    pub(crate) accept: FileText,
    /// The file of lines.
    pub(crate) lines: FileText,
    /// The other server file, and the files of its contexts.
    pub(crate) other: OtherFiles,
}

/// The texts of another server file, and of the files of its contexts.
#[derive(Drop)]
pub(crate) struct OtherFiles {
    /// The server file.
    pub(crate) server: FileText,
    /// The contexts. There are none if the server file has a fault.
    pub(crate) contexts: Listed<ContextTexts>,
}

/// Reads the accepting file, then the file of lines, and then the other server file with the files of its contexts.
pub(crate) fn read_further<S: FileStore>(
    alloc: Global,
    store: &mut S,
    options: &AccessOptions<'_>,
) -> Result<FurtherFiles, NoMemory>
    ensures { IfOk result (λ files. spec.ReadsFurther S.gives_text options.now store.old files store.new) }
{
    let accept = read_asked(alloc, store, options.accept)?;
    let lines = read_asked(alloc, store, options.lines)?;
    let other = read_other(alloc, store, other_name(options))?;
    Ok(FurtherFiles {
        accept,
        lines,
        other,
    })
}

/// Returns the name of the other server file. It is not read if the report is on one request.
pub(crate) fn other_name<'a>(options: &AccessOptions<'a>) -> Option<&'a str>
    ensures { option_copied result ≡ spec.other_name options.now }
{
    match options.path {
        Some(_) => None,
        None => options.diff,
    }
}

/// Reads another server file, and then the files of its contexts, unless it has a fault. Without a name no file is read.
fn read_other<S: FileStore>(
    alloc: Global,
    store: &mut S,
    name: Option<&str>,
) -> Result<OtherFiles, NoMemory>
    ensures { IfOk result (λ other. spec.ReadsOther S.gives_text (option_copied name.entry) store.old other store.new) }
{
    match name {
        Some(name) => read_server(alloc, store, name),
        None => Ok(OtherFiles {
            server: Err(Unavailable::Missing),
            contexts: Listed::from_vec(Vec::new(alloc)),
        }),
    }
}

fn read_server<S: FileStore>(
    alloc: Global,
    store: &mut S,
    name: &str,
) -> Result<OtherFiles, NoMemory>
    ensures { IfOk result (λ other. spec.ReadsOther S.gives_text (Some name.now) store.old other store.new) }
{
    let server = store.read_text(alloc, name)?;
    let entries = entries_in(alloc, &server)?;
    let contexts = read_contexts(alloc, store, name, entries)?;
    Ok(OtherFiles { server, contexts })
}

/// Returns the contexts of a server file. There are none if it has a fault.
fn entries_in(alloc: Global, file: &FileText) -> Result<Listed<ContextEntry>, NoMemory>
    ensures { (name : List ℕ) → GivesAnswer result (contexts_in (server_in name file.now)) }
{
    match file {
        Ok(text) => entries_of(alloc, text.as_str()),
        Err(_) => Ok(Listed::from_vec(Vec::new(alloc))),
    }
}

fn entries_of(alloc: Global, text: &str) -> Result<Listed<ContextEntry>, NoMemory>
    ensures { (name : List ℕ) → GivesAnswer result (contexts_in (server_in name (Ok text.now))) }
{
    match read_located_server(alloc, text) {
        Ok(server) => Ok(server.contexts),
        Err(LocatedReadFault::Fault(_)) => Ok(Listed::from_vec(Vec::new(alloc))),
        Err(LocatedReadFault::NoMemory) => Err(NoMemory),
    }
}

/// Reads the file of this name. Without a name no file is read, and none is available.
fn read_asked<S: FileStore>(
    alloc: Global,
    store: &mut S,
    name: Option<&str>,
) -> Result<FileText, NoMemory>
    ensures { IfOk result (λ text. AreRead S.gives_text store.old (spec.asked_readings (option_copied name.entry) text) store.new) }
{
    match name {
        Some(name) => store.read_text(alloc, name),
        None => Ok(Err(Unavailable::Missing)),
    }
}

/// Returns the text of a file, which is empty if the options name none.
///
/// # Errors
/// [`CommandFault::File`] if the file is not available, or [`CommandFault::NoMemory`].
pub(crate) fn asked_text(
    alloc: Global,
    name: Option<&str>,
    file: &FileText,
) -> Result<Text, CommandFault>
    ensures { Gives command_fault result (spec.asked_text (option_copied name.entry) file.now) }
{
    let Some(name) = name else {
        return Ok(Text::copy_of(alloc, "")?);
    };
    match file {
        Ok(text) => Ok(Text::copy_of(alloc, text.as_str())?),
        Err(why) => Err(CommandFault::File(Text::copy_of(alloc, name)?, *why)),
    }
}
