//! The deployments of a server's contexts.

ghost use Rattle.std.specs.Prelude.{◌≡◌};
ghost use Rattle.sv_deployments.specs.Deployments as spec;
ghost use Rattle.sv_deployments.specs.Files.{files_in, listed_files};
ghost use Rattle.sv_deployments.specs.Parts.{components, seen};
ghost use Rattle.sv_deployments.specs.Results.{both};
ghost use Rattle.sv_program.specs.CommandFault.{command_fault};
ghost use Rattle.sv_program.specs.Configuration.{each};
ghost use Rattle.sv_text.specs.Gives.{Gives};

use crate::class_fault::{CLASSES, ClassFault};
use crate::component_place::ComponentPlace;
use crate::files::files_of;
use crate::folders::{FolderFiles, FoundContext};
use crate::parts::parts_of;
use crate::program_filter::ProgramFilter;
use crate::program_listener::ProgramListener;
use crate::program_servlet::ProgramServlet;
use std::alloc::Global;
use sv_descriptor::{ContextEntry, Descriptor};
use sv_files::{File, Files};
use sv_lifecycle::Deployment;
use sv_live::Parts;
use sv_program::{CommandFault, ContextTexts, FilePlace, descriptor_in, realm_in};
use sv_realm::Realm;
use sv_text::{Listed, Text};

/// The deployment of a context whose components are of the program's own classes.
pub type ProgramDeployment = Deployment<ProgramServlet, ProgramFilter, ProgramListener>;

/// Creates the deployments of the contexts, in order.
///
/// # Errors
/// The first fault, for each context in order of its descriptor, its users, its files and its classes; or
/// [`CommandFault::NoMemory`].
pub(crate) fn deployments_in(
    alloc: Global,
    contexts: Listed<FoundContext>,
) -> Result<Vec<ProgramDeployment>, CommandFault>
    ensures { Gives command_fault (seen (λ made. spec.deployments made.items) result) (each spec.deployment_of contexts) }
{
    let mut deployments = Vec::new(alloc);
    for context in contexts.into_vec() {
        deployments.push(deployment_in(alloc, context)?)?;
    }
    Ok(deployments)
}

fn deployment_in(alloc: Global, context: FoundContext) -> Result<ProgramDeployment, CommandFault>
    ensures { Gives command_fault (seen spec.deployment result) (spec.deployment_of context) }
{
    let FoundContext { texts, files } = context;
    deployment_for(alloc, &texts, files)
}

// Creates the deployment of a context with these texts and files.
fn deployment_for(
    alloc: Global,
    texts: &ContextTexts,
    files: FolderFiles,
) -> Result<ProgramDeployment, CommandFault>
    ensures { Gives command_fault (seen spec.deployment result) (spec.deployment_for texts.now files) }
{
    let path = Text::copy_of(alloc, texts.context.path.as_str())?;
    let read = read(alloc, texts, files)?;
    let parts = parts_in(alloc, texts, &read.0.0);
    // A generic function combines them, so that no read value is live where the components may fail.
    let (((descriptor, users), files), parts) = both(Ok(read), parts)?;
    Ok(Deployment {
        path,
        descriptor,
        files,
        users,
        parts,
    })
}

// Reads the descriptor, the users and the files of a context from these texts and files.
fn read(
    alloc: Global,
    texts: &ContextTexts,
    files: FolderFiles,
) -> Result<((Descriptor, Realm), Files), CommandFault>
    ensures { Gives command_fault result (spec.read_of texts.now files) }
{
    let configured = both(descriptor_in(alloc, texts), realm_in(alloc, texts));
    both(configured, files_in(alloc, &texts.context, files))
}

// Returns the static files of a context.
pub(crate) fn files_in(
    alloc: Global,
    context: &ContextEntry,
    files: FolderFiles,
) -> Result<Files, CommandFault>
    ensures { Gives command_fault result (files_in context.now files) }
{
    let files = listed_files(alloc, context.files.as_str(), files)?;
    files_of(alloc, context.path.as_str(), files)
}

// Returns the files in the folder of this name, or none if the name is empty.
fn listed_files(alloc: Global, name: &str, files: FolderFiles) -> Result<Listed<File>, CommandFault>
    ensures { Gives command_fault result (listed_files name.now files) }
{
    if name.is_empty() {
        return Ok(Listed::from_vec(Vec::new(alloc)));
    }
    match files {
        Ok(files) => Ok(files),
        Err(entry) => {
            let name = Text::copy_of(alloc, name)?;
            Err(CommandFault::Folder { name, entry })
        }
    }
}

// Creates the components of a context with this descriptor.
pub(crate) fn parts_in(
    alloc: Global,
    texts: &ContextTexts,
    descriptor: &Descriptor,
) -> Result<Parts<ProgramServlet, ProgramFilter, ProgramListener>, CommandFault>
    ensures { Gives command_fault (seen components result) (spec.components_in texts.now descriptor.now) }
{
    match parts_of(alloc, descriptor) {
        Ok(parts) => Ok(parts),
        Err(ClassFault::UnknownClass(name, place)) => unknown_class(alloc, texts, name, place),
        Err(ClassFault::NoMemory) => Err(CommandFault::NoMemory),
    }
}

// Returns the fault of a class that the descriptor names at this place.
fn unknown_class<T>(
    alloc: Global,
    texts: &ContextTexts,
    name: Text,
    place: ComponentPlace,
) -> Result<T, CommandFault>
    ensures { Gives command_fault result (Err (spec.unknown_class texts.now name place)) }
{
    let file = texts.context.descriptor.as_str();
    let place = FilePlace::of(alloc, file, descriptor_text(texts), place.steps(alloc)?)?;
    Err(CommandFault::Class {
        name,
        place,
        known: Text::copy_of(alloc, CLASSES)?,
    })
}

// Returns the text of the descriptor, or none if its file is not available.
fn descriptor_text(texts: &ContextTexts) -> &str
    ensures { result.now ≡ spec.descriptor_text texts.now.descriptor }
{
    match &texts.descriptor {
        Ok(text) => text.as_str(),
        Err(_) => "",
    }
}

/// Returns both values.
///
/// # Errors
/// The fault of the first result, else that of the other.
pub fn both<A: Drop, B: Drop>(
    one: Result<A, CommandFault>,
    other: Result<B, CommandFault>,
) -> Result<(A, B), CommandFault>
    ensures { result ≡ both one other }
{
    match (one, other) {
        (Ok(one), Ok(other)) => Ok((one, other)),
        (Err(fault), _) => Err(fault),
        (_, Err(fault)) => Err(fault),
    }
}
