//! The port, the seed and the deployments of a server.

ghost use Rattle.std.specs.Prelude.{◌≡◌, length, IfOk};
ghost use Rattle.sv_deployments.specs.Configuration as spec;

use crate::deployments::{ProgramDeployment, deployments_in};
use crate::folders::{FolderStore, read_folders};
use std::alloc::Global;
use sv_descriptor::Server;
use sv_program::{CommandFault, FileStore, read_contexts, read_server_file};
use sv_text::Bytes;

/// The configuration in a server file.
#[derive(Drop)]
pub struct Configuration {
    /// The port, or 0 for any free port.
    pub port: u16,
    /// The seed of random words, 32 bytes.
    pub seed: Bytes,
    /// The deployments of the contexts, in the order of the file.
    pub deployments: Vec<ProgramDeployment>,
}

/// Reads the server file of this name, then the descriptor and the users file of each of its contexts, and then the
/// folders of their static files. Names in the server file are relative to its folder.
///
/// # Errors
/// The first fault: [`CommandFault::File`] or [`CommandFault::Server`] for the server file. Then, for each context in
/// order, the fault of its descriptor ([`CommandFault::File`], [`CommandFault::Descriptor`]), its users
/// ([`CommandFault::File`], [`CommandFault::Users`]), its static files ([`CommandFault::File`] with the name of their
/// folder, [`CommandFault::Files`]) or its classes ([`CommandFault::Class`]). Or [`CommandFault::NoMemory`].
pub fn read_deployments<S: FileStore + FolderStore>(
    alloc: Global,
    store: &mut S,
    config: &str,
) -> Result<Configuration, CommandFault>
    ensures finds { spec.FindsConfiguration S.gives_text S.gives_files config.now result store.old store.new }
    ensures seed { IfOk result (λ configuration. length configuration.seed ≡ 32) }
{
    let Server {
        port,
        seed,
        contexts,
    } = read_server_file(alloc, store, config)?;
    let texts = read_contexts(alloc, store, config, contexts)?;
    let found = read_folders(alloc, store, config, texts)?;
    let deployments = deployments_in(alloc, found)?;
    Ok(Configuration {
        port,
        seed,
        deployments,
    })
}
