//! Starts a server's container from its configuration files, and resumes sessions of an earlier one.

ghost use Rattle.sv_component.specs.Steps.{steps_of};
ghost use Rattle.sv.specs.ServerStart as spec;
ghost use Rattle.sv.specs.Site.{seeding_by};
ghost use Rattle.std.specs.Prelude.{◌≡◌, length};

use crate::session_files::{FoundFile, FoundSessions, SessionFolder, refuse_untaken};
use crate::site::seeding_by;
use std::alloc::Global;
use std::random::RandomSource;
use std::rt::Files;
use sv_arguments::RunOptions;
use sv_component::{Filter, Listener, Servlet};
use sv_container::{Container, let_go, start, start_resumed};
use sv_deployments::{
    Configuration, FolderStore, ProgramDeployment, ProgramFilter, ProgramListener, ProgramServlet,
    read_deployments,
};
use sv_lifecycle::SuspendedContext;
use sv_listening::{Seeding, seed_for};
use sv_program::{CommandFault, FileStore};
use sv_run::SeededWords;
use sv_saved_sessions::file_key;
use sv_text::NoMemory;

/// A container whose components are of the program's own classes, and whose random words come from a seed.
pub(crate) type ProgramContainer = Container<
    ProgramServlet,
    ProgramFilter,
    ProgramListener,
    SeededWords,
>;

/// A started container of a server. The owner must stop it.
pub(crate) struct StartedServer {
    /// The port. 0 selects any free port.
    pub port: u16,
    /// The container.
    pub container: ProgramContainer,
}

/// Reads the server file of this name and all files that it names, and starts a container with them and the random
/// words of this seeding.
///
/// # Errors
/// The first fault: those of [`read_deployments`]; then those of [`seed_for`]; then [`CommandFault::Start`], with the
/// contexts that had started stopped again; or [`CommandFault::NoMemory`].
pub(crate) fn start_server<S: FileStore + FolderStore, H: RandomSource>(
    alloc: Global,
    store: &mut S,
    host: &H,
    config: &str,
    seeding: Seeding,
) -> Result<StartedServer, CommandFault>
    ensures { spec.StartsServer (steps_of ⟦<ProgramServlet as Servlet>⟧.servlet_step ⟦<ProgramFilter as Filter>⟧.filter_step ⟦<ProgramListener as Listener>⟧.listener_step)
        S.gives_text S.gives_files seeding config.now store.old result store.new }
{
    let Configuration {
        port,
        seed,
        deployments,
    } = match read_deployments(alloc, store, config) {
        Ok(configuration) => configuration,
        Err(fault) => return Err(fault),
    };
    let key = match seed_for(alloc, host, seeding, seed.as_slice()) {
        Ok(key) => key,
        Err(fault) => {
            let_go(deployments);
            return Err(fault);
        }
    };
    match start(alloc, deployments, &key) {
        Ok(container) => Ok(StartedServer { port, container }),
        Err(fault) => Err(fault),
    }
}

/// A server that was started with the sessions in a folder. The owner must settle the files, and stop the container.
pub(crate) struct ResumedServer {
    pub started: StartedServer,
    /// The files that were found in the folder.
    pub files: Vec<FoundFile>,
    /// The key of the files.
    pub key: [u8; 32],
}

/// Reads the server file of the options and all files that it names, and the files of sessions in the folder. Starts a
/// container that resumes with these sessions, unless all sessions end. Changes no file.
///
/// # Errors
/// The first fault: those of [`read_deployments`]; then those of [`seed_for`]; then those of [`SessionFolder::read`];
/// then [`CommandFault::Start`], with the contexts that had started stopped again; or [`CommandFault::NoMemory`].
pub(crate) fn resume_server<S: FileStore + FolderStore, H: RandomSource + Files + Eprint>(
    store: &mut S,
    folder: &SessionFolder<'_, H>,
    options: &RunOptions<'_>,
) -> Result<ResumedServer, CommandFault>
    ensures { spec.ResumesServer (steps_of ⟦<ProgramServlet as Servlet>⟧.servlet_step ⟦<ProgramFilter as Filter>⟧.filter_step ⟦<ProgramListener as Listener>⟧.listener_step)
        S.gives_text S.gives_files (seeding_by options.now.same_seed) options.now.config.now store.old result store.new }
{
    let Configuration {
        port,
        seed,
        deployments,
    } = match read_deployments(folder.alloc, store, options.config) {
        Ok(configuration) => configuration,
        Err(fault) => return Err(fault),
    };
    let seeding = seeding_by(options.same_seed);
    let words = match seed_for(folder.alloc, folder.host, seeding, seed.as_slice()) {
        Ok(words) => words,
        Err(fault) => {
            let_go(deployments);
            return Err(fault);
        }
    };
    let key = file_key(seed.as_slice());
    let found = match found_in(folder, options.end_all_sessions, &key) {
        Ok(found) => found,
        Err(fault) => {
            let_go(deployments);
            return Err(fault);
        }
    };
    match start_with(folder.alloc, deployments, &words, found) {
        Ok((container, files)) => Ok(ResumedServer {
            started: StartedServer { port, container },
            files,
            key,
        }),
        Err(fault) => Err(fault),
    }
}

/// Finds the files of sessions, and reads them unless all sessions end.
fn found_in<H: Files + Eprint>(
    folder: &SessionFolder<'_, H>,
    ends_all: bool,
    key: &[u8; 32],
) -> Result<FoundSessions, CommandFault> {
    if ends_all {
        folder.list()
    } else {
        folder.read(key)
    }
}

/// Starts a container that resumes with the sessions that were found, and refuses those of contexts that it does not have.
fn start_with(
    alloc: Global,
    deployments: Vec<ProgramDeployment>,
    seed: &[u8],
    found: FoundSessions,
) -> Result<(ProgramContainer, Vec<FoundFile>), CommandFault>
    requires { length seed.now ≡ 32 }
    ensures { spec.ResumesSome (steps_of ⟦<ProgramServlet as Servlet>⟧.servlet_step ⟦<ProgramFilter as Filter>⟧.filter_step ⟦<ProgramListener as Listener>⟧.listener_step)
        deployments.items seed.now found.suspension result }
{
    let FoundSessions { files, suspension } = found;
    let (container, untaken) = match start_resumed(alloc, deployments, seed, suspension) {
        Ok(resumed) => resumed,
        Err(fault) => return Err(fault),
    };
    match refused(alloc, files, untaken.as_slice()) {
        Ok(files) => Ok((container, files)),
        Err(NoMemory) => {
            container.shutdown().let_go();
            Err(CommandFault::NoMemory)
        }
    }
}

fn refused(
    alloc: Global,
    files: Vec<FoundFile>,
    untaken: &[SuspendedContext],
) -> Result<Vec<FoundFile>, NoMemory> {
    let mut files = files;
    refuse_untaken(alloc, files.as_mut_slice(), untaken)?;
    Ok(files)
}
