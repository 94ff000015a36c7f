//! The deployments of an application's contexts.

ghost use Rattle.std.specs.Prelude.{map};
ghost use Rattle.sv_text.specs.Gives.{Gives, GivesAnswer};
ghost use Rattle.sv_deployments.specs.Parts.{seen};
ghost use Rattle.sv_program.specs.CommandFault.{command_fault};
ghost use Rattle.sv_web.specs.Deployments as spec;

use crate::deployment::Content;
use std::alloc::Global;
use sv_component::{Filter, Listener, Servlet};
use sv_deployments::{both, files_of};
use sv_descriptor::{ContextEntry, Descriptor};
use sv_files::{File, Files};
use sv_lifecycle::Deployment;
use sv_live::Parts;
use sv_program::{CommandFault, ContextTexts, descriptor_in, realm_in};
use sv_realm::Realm;
use sv_text::{Listed, NoMemory, Text};

/// Creates the deployments of an application's contexts, in order. Descriptors and users are read from their texts, and
/// components are unchanged.
///
/// # Errors
/// The first fault, for each context in order of its descriptor ([`CommandFault::Descriptor`]), its users
/// ([`CommandFault::Users`]) and its static files ([`CommandFault::Files`]); or [`CommandFault::NoMemory`].
pub fn deployments_of<S: Servlet, F: Filter, L: Listener>(
    alloc: Global,
    contexts: Vec<crate::Deployment<S, F, L>>,
) -> Result<Vec<Deployment<S, F, L>>, CommandFault>
    ensures { Gives command_fault (seen (λ made. map spec.deployed made.items) result) (spec.deployments_of contexts.items) }
{
    let mut deployments = Vec::new(alloc);
    for context in contexts {
        deployments.push(deployment_of(alloc, context.into_content())?)?;
    }
    Ok(deployments)
}

// Creates the deployment of one context.
fn deployment_of<S: Servlet, F: Filter, L: Listener>(
    alloc: Global,
    content: Content<S, F, L>,
) -> Result<Deployment<S, F, L>, CommandFault>
    ensures { Gives command_fault (seen spec.deployed result) (spec.deployment_of content) }
{
    let Content {
        path,
        descriptor,
        servlets,
        filters,
        listeners,
        files,
        users,
    } = content;
    let ((descriptor, users), files) = read(alloc, path.as_str(), descriptor, users, files)?;
    Ok(Deployment {
        path,
        descriptor,
        files,
        users,
        parts: Parts {
            servlets: servlets.into_vec(),
            filters: filters.into_vec(),
            listeners: listeners.into_vec(),
        },
    })
}

// Reads the descriptor, the users and the files of a context.
fn read(
    alloc: Global,
    path: &str,
    descriptor: Text,
    users: Text,
    files: Listed<File>,
) -> Result<((Descriptor, Realm), Files), CommandFault>
    ensures { Gives command_fault result (spec.read_of path.now descriptor users files) }
{
    let texts = texts_of(alloc, path, descriptor, users)?;
    both(configured(alloc, &texts), files_of(alloc, path, files))
}

// Reads the descriptor and the users of a context from these texts.
fn configured(alloc: Global, texts: &ContextTexts) -> Result<(Descriptor, Realm), CommandFault>
    ensures { Gives command_fault result (spec.configured texts.now) }
{
    both(descriptor_in(alloc, texts), realm_in(alloc, texts))
}

// Returns the texts of a context's files.
fn texts_of(
    alloc: Global,
    path: &str,
    descriptor: Text,
    users: Text,
) -> Result<ContextTexts, NoMemory>
    ensures { GivesAnswer result (spec.texts_of path.now descriptor users) }
{
    let name = users_name(alloc, users.as_str())?;
    Ok(ContextTexts {
        context: ContextEntry {
            path: Text::copy_of(alloc, path)?,
            descriptor: Text::copy_of(alloc, "descriptor")?,
            files: Text::from_string(String::new(alloc)),
            users: name,
        },
        descriptor: Ok(descriptor),
        users: Ok(users),
    })
}

// Returns the name of the users file, if its text is not empty.
fn users_name(alloc: Global, users: &str) -> Result<Option<Text>, NoMemory>
    ensures { GivesAnswer result (spec.users_name users.now) }
{
    if users.is_empty() {
        return Ok(None);
    }
    Ok(Some(Text::copy_of(alloc, "users")?))
}
