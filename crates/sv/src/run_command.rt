//! The command `run`: serves a server's container over many connections at once.

ghost use Rattle.sv_component.specs.Steps.{steps_of};
ghost use Rattle.sv.specs.Execution.{ReadsFiles};
ghost use Rattle.sv.specs.Serving.{BeginsBySessions, BeginsResumed, BeginsWith};
ghost use Rattle.sv.specs.Site as spec;

use crate::asked_container::AskedContainer;
use crate::saver::Saver;
use crate::saving_container::SavingContainer;
use crate::server_start::{
    ProgramContainer, ResumedServer, StartedServer, resume_server, start_server,
};
use crate::session_files::SessionFolder;
use crate::site::{limits_of, seeding_by};
use std::alloc::Global;
use std::io::Write;
use std::net::{IpAddr, Ipv4Addr, Net, SocketAddr};
use std::random::RandomSource;
use std::rt::Files;
use std::time::Clock;
use sv_access_log::{AccessSource, LogFormat};
use sv_arguments::{AccessLogFormat, RunOptions};
use sv_component::{Filter, Listener, Servlet};
use sv_connection::Queries;
use sv_deployments::{FolderStore, ProgramFilter, ProgramListener, ProgramServlet};
use sv_listening::{AccessLogOptions, LastAccepted, ListenOptions, run_journaled, run_logged};
use sv_program::{CommandFault, FileStore};
use sv_run::SeededWords;

// A container of the program that answers queries.
type ProgramAskedContainer = AskedContainer<
    ProgramServlet,
    ProgramFilter,
    ProgramListener,
    SeededWords,
>;

/// Starts the container of the server file with the random words of the options' seeding, and listens at the address.
/// The default address is 127.0.0.1 with the server file's port. Writes the line `listening ADDRESS:PORT`, and serves
/// all connections within the options' limits, none waiting for another. This ends when the control socket, if one is
/// named, receives `stop`, when the descriptor of signals, if one is given, reports SIGTERM or SIGINT, or when the process
/// is ended from outside. Shuts the container down, even after a fault. If a journal is named, appends the effects of the
/// events to that file. If an access log is named, appends a line for each request to that file. If a folder of sessions is
/// named, the container resumes with the sessions in its files, unless all sessions end. The files are removed before the
/// line `listening`, and written again at the end, unless an event ran out of memory. If sessions are written every so many
/// seconds, files are also written while the program runs, in parts after events, but not to the disk.
///
/// # Errors
/// The first fault: those of [`start_server`], with nothing written; with a folder of sessions those of
/// [`SessionFolder::read`] and [`SessionFolder::settle`]; then [`CommandFault::File`] if an access
/// log, a journal, a descriptor of signals or a control socket cannot be opened; then [`CommandFault::Socket`], [`CommandFault::Output`] or
/// [`CommandFault::NoMemory`] as the run meets them; then those of [`SessionFolder::save`].
pub fn run<S: FileStore + FolderStore, H: Net + Clock + RandomSource + Files + Eprint, W: Write>(
    alloc: Global,
    store: &mut S,
    host: &H,
    writer: &mut W,
    options: &RunOptions<'_>,
) -> Result<(), CommandFault>
    ensures begins { BeginsBySessions (steps_of ⟦<ProgramServlet as Servlet>⟧.servlet_step ⟦<ProgramFilter as Filter>⟧.filter_step ⟦<ProgramListener as Listener>⟧.listener_step)
        S.gives_text S.gives_files options.now store.old writer.old result store.new writer.new }
    ensures reads { ReadsFiles S.gives_text S.gives_files options.now.config.now result store.old store.new }
{
    match options.sessions {
        None => run_started(alloc, store, host, writer, options),
        Some(name) => {
            let folder = SessionFolder { alloc, host, name };
            run_resumed(store, &folder, writer, options)
        }
    }
}

// Runs without a folder of sessions.
fn run_started<
    S: FileStore + FolderStore,
    H: Net + Clock + RandomSource + Files + Eprint,
    W: Write,
>(
    alloc: Global,
    store: &mut S,
    host: &H,
    writer: &mut W,
    options: &RunOptions<'_>,
) -> Result<(), CommandFault>
    ensures { BeginsWith (steps_of ⟦<ProgramServlet as Servlet>⟧.servlet_step ⟦<ProgramFilter as Filter>⟧.filter_step ⟦<ProgramListener as Listener>⟧.listener_step)
        S.gives_text S.gives_files (spec.seeding_by options.now.same_seed) options.now.config.now store.old writer.old result store.new writer.new }
{
    let seeding = seeding_by(options.same_seed);
    let started = match start_server(alloc, store, host, options.config, seeding) {
        Ok(started) => started,
        Err(fault) => return Err(fault),
    };
    let (served, container) = serve_all(alloc, host, writer, options, started);
    container.shutdown().let_go();
    served
}

// Runs with a folder of sessions.
fn run_resumed<
    S: FileStore + FolderStore,
    H: Net + Clock + RandomSource + Files + Eprint,
    W: Write,
>(
    store: &mut S,
    folder: &SessionFolder<'_, H>,
    writer: &mut W,
    options: &RunOptions<'_>,
) -> Result<(), CommandFault>
    ensures { BeginsResumed (steps_of ⟦<ProgramServlet as Servlet>⟧.servlet_step ⟦<ProgramFilter as Filter>⟧.filter_step ⟦<ProgramListener as Listener>⟧.listener_step)
        S.gives_text S.gives_files (spec.seeding_by options.now.same_seed) options.now.config.now store.old writer.old result store.new writer.new }
{
    let ResumedServer {
        started,
        files,
        key,
    } = match resume_server(store, folder, options) {
        Ok(resumed) => resumed,
        Err(refused) => return Err(refused),
    };
    let settled = folder.settle(files.as_slice());
    let (served, container) = serve_settled(folder, &key, writer, options, started, settled);
    suspend(folder, &key, container, served)
}

// Serves, unless the files of sessions are still there.
fn serve_settled<H: Net + Clock + Files + Eprint, W: Write>(
    folder: &SessionFolder<'_, H>,
    key: &[u8; 32],
    writer: &mut W,
    options: &RunOptions<'_>,
    started: StartedServer,
    settled: Result<(), CommandFault>,
) -> (Result<(), CommandFault>, ProgramContainer) {
    match settled {
        Ok(()) => match options.sessions_every {
            Some(every) => serve_saving(
                folder,
                Saver::new(folder, *key, every),
                writer,
                options,
                started,
            ),
            None => serve_all(folder.alloc, folder.host, writer, options, started),
        },
        Err(fault) => {
            let StartedServer {
                container,
                port: _port,
            } = started;
            (Err(fault), container)
        }
    }
}

// Serves all connections, and returns the container.
fn serve_all<H: Net + Clock + Files + Eprint, W: Write>(
    alloc: Global,
    host: &H,
    writer: &mut W,
    options: &RunOptions<'_>,
    started: StartedServer,
) -> (Result<(), CommandFault>, ProgramContainer) {
    let StartedServer { port, container } = started;
    let asked = asked_of(options, container);
    let (served, asked) = serve_handler(alloc, host, writer, options, port, asked);
    (served, asked.into_container())
}

// Serves all connections and writes sessions meanwhile, and returns the container.
fn serve_saving<H: Net + Clock + Files + Eprint, W: Write>(
    folder: &SessionFolder<'_, H>,
    saver: Saver<'_, H>,
    writer: &mut W,
    options: &RunOptions<'_>,
    started: StartedServer,
) -> (Result<(), CommandFault>, ProgramContainer) {
    let StartedServer { port, container } = started;
    let saving = SavingContainer::new(asked_of(options, container), saver);
    let (served, saving) = serve_handler(folder.alloc, folder.host, writer, options, port, saving);
    (served, saving.into_asked().into_container())
}

fn asked_of(options: &RunOptions<'_>, container: ProgramContainer) -> ProgramAskedContainer {
    let mut asked = AskedContainer::new(container);
    asked.set_logs(options.access_log.is_some());
    asked
}

// Serves all connections by a handler, and returns the handler. Port 0 selects any free port.
fn serve_handler<H: Net + Clock + Files + Eprint, W: Write, R: AccessSource + Queries>(
    alloc: Global,
    host: &H,
    writer: &mut W,
    options: &RunOptions<'_>,
    port: u16,
    handler: R,
) -> (Result<(), CommandFault>, R) {
    let last = LastAccepted::new();
    let listening = ListenOptions {
        address: address_or(options.listen, port),
        limits: limits_of(options),
        control: options.control,
        signals: options.signal_descriptor,
        last: &last,
    };
    match access_log(options) {
        Some(log) => run_logged(
            alloc,
            host,
            writer,
            listening,
            options.journal,
            log,
            handler,
        ),
        None => run_journaled(alloc, host, writer, listening, options.journal, handler),
    }
}

// Suspends the container, and writes its sessions. Returns the first fault.
fn suspend<H: Files + Eprint>(
    folder: &SessionFolder<'_, H>,
    key: &[u8; 32],
    container: ProgramContainer,
    served: Result<(), CommandFault>,
) -> Result<(), CommandFault> {
    let Some(suspension) = container.suspend().into_suspension() else {
        return served;
    };
    let saved = folder.save(key, &suspension);
    match served {
        Ok(()) => saved,
        Err(fault) => Err(fault),
    }
}

// Returns the access log that the options name, if any.
fn access_log<'a>(options: &RunOptions<'a>) -> Option<AccessLogOptions<'a>> {
    let name = options.access_log?;
    let format = match options.access_log_format {
        AccessLogFormat::Combined => LogFormat::Combined,
        AccessLogFormat::Json => LogFormat::Json,
    };
    Some(AccessLogOptions { name, format })
}

// Returns the address, or 127.0.0.1 with this port if none is given.
fn address_or(address: Option<SocketAddr>, port: u16) -> SocketAddr {
    address.unwrap_or(SocketAddr::new(IpAddr::V4(Ipv4Addr::LOCALHOST), port))
}
