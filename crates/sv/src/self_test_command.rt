//! The command `selftest`: the program sends a request to its own server.

ghost use Rattle.sv_component.specs.Steps.{steps_of};
ghost use Rattle.sv.specs.Serving.{BeginsWith};
ghost use Rattle.sv_listening.specs.declared.seed.Seeding.TheVariants.{Configured};

use crate::server_start::{StartedServer, start_server};
use std::alloc::Global;
use std::io;
use std::io::Write;
use std::net::Net;
use std::random::RandomSource;
use std::time::Clock;
use sv_component::{Filter, Listener, Servlet};
use sv_deployments::{FolderStore, ProgramFilter, ProgramListener, ProgramServlet};
use sv_listening::{Seeding, own_answer};
use sv_program::{CommandFault, FileStore};

/// Starts the container of the server file, listens at its port on 127.0.0.1 and connects to it. Requests the root
/// path by `HEAD`, and serves only that connection. Shuts the container down, and writes the line `selftest ` followed
/// by the first line of the response. No call blocks forever.
///
/// # Errors
/// The first fault: those of [`start_server`]; then [`CommandFault::Socket`] or [`CommandFault::NoMemory`], with
/// nothing written; then [`CommandFault::Output`].
pub fn self_test<S: FileStore + FolderStore, H: Net + Clock + RandomSource, W: Write>(
    alloc: Global,
    store: &mut S,
    host: &H,
    writer: &mut W,
    config: &str,
) -> Result<(), CommandFault>
    ensures { BeginsWith (steps_of ⟦<ProgramServlet as Servlet>⟧.servlet_step ⟦<ProgramFilter as Filter>⟧.filter_step ⟦<ProgramListener as Listener>⟧.listener_step)
        S.gives_text S.gives_files Configured config.now store.old writer.old result store.new writer.new }
{
    let StartedServer {
        port,
        mut container,
    } = match start_server(alloc, store, host, config, Seeding::Configured) {
        Ok(started) => started,
        Err(fault) => return Err(fault),
    };
    let answer = own_answer(alloc, host, port, &mut container);
    container.shutdown().let_go();
    match print_answer(writer, answer?.as_slice()) {
        Ok(()) => Ok(()),
        Err(_) => Err(CommandFault::Output),
    }
}

fn print_answer<W: Write>(writer: &mut W, line: &[u8]) -> io::Result<()> {
    writer.write_all(b"selftest ")?;
    writer.write_all(line)?;
    writer.write_all(b"\n")?;
    writer.flush()
}
