//! The command `serve`: serves a server's container over connections, one after another.

ghost use Rattle.sv_component.specs.Steps.{steps_of};
ghost use Rattle.sv.specs.Serving.{BeginsWith};
ghost use Rattle.sv_listening.specs.declared.seed.Seeding.TheVariants.{Configured};

use crate::server_start::{StartedServer, start_server};
use std::alloc::Global;
use std::io::Write;
use std::net::Net;
use std::random::RandomSource;
use std::time::Clock;
use sv_component::{Filter, Listener, Servlet};
use sv_deployments::{FolderStore, ProgramFilter, ProgramListener, ProgramServlet};
use sv_listening::{Seeding, listen_and_serve};
use sv_program::{CommandFault, FileStore};

/// Starts the container of the server file, listens at its port on 127.0.0.1, and writes the line `listening PORT`.
/// Serves `count` connections one after another, and writes the line `served COUNT`. Shuts the container down, even
/// after a fault.
///
/// # Errors
/// The first fault: those of [`start_server`], with nothing written; then [`CommandFault::Socket`],
/// [`CommandFault::Output`] or [`CommandFault::NoMemory`] as the run meets them.
pub fn serve<S: FileStore + FolderStore, H: Net + Clock + RandomSource, W: Write>(
    alloc: Global,
    store: &mut S,
    host: &H,
    writer: &mut W,
    config: &str,
    count: u64,
) -> Result<(), CommandFault>
    ensures { BeginsWith (steps_of ⟦<ProgramServlet as Servlet>⟧.servlet_step ⟦<ProgramFilter as Filter>⟧.filter_step ⟦<ProgramListener as Listener>⟧.listener_step)
        S.gives_text S.gives_files Configured config.now store.old writer.old result store.new writer.new }
{
    let StartedServer {
        port,
        mut container,
    } = match start_server(alloc, store, host, config, Seeding::Configured) {
        Ok(started) => started,
        Err(fault) => return Err(fault),
    };
    let served = listen_and_serve(alloc, host, writer, port, count, &mut container);
    container.shutdown().let_go();
    served
}
