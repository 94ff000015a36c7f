//! The command `replay`: runs a script over a server's container.

ghost use Rattle.sv_component.specs.Steps.{steps_of};
ghost use Rattle.sv.specs.Replay as spec;

use std::alloc::Global;
use sv_component::{Filter, Listener, Servlet};
use sv_container::run_script;
use sv_deployments::{
    FolderStore, ProgramFilter, ProgramListener, ProgramServlet, read_deployments,
};
use sv_listening::fault_of_run;
use sv_program::{CommandFault, FileStore};
use sv_streams::{Sink, Source};

/// Reads the server file of this name and all files that it names, and starts a container with them. Replays the
/// script over it and stops it. The output is that of [`run_script`]. If the files have a fault, the script is not
/// read and nothing is written.
///
/// # Errors
/// The first fault: those of [`read_deployments`]; then [`CommandFault::Start`]; then [`CommandFault::Script`],
/// [`CommandFault::Output`] or [`CommandFault::NoMemory`] as the run meets them.
pub fn replay<S: FileStore + FolderStore, I: Source, O: Sink>(
    alloc: Global,
    store: &mut S,
    script: &mut I,
    output: &mut O,
    config: &str,
) -> Result<(), CommandFault>
    ensures { spec.RunsReplay (steps_of ⟦<ProgramServlet as Servlet>⟧.servlet_step ⟦<ProgramFilter as Filter>⟧.filter_step ⟦<ProgramListener as Listener>⟧.listener_step)
        I.makes O.makes S.gives_text S.gives_files config.now store.old script.old output.old result store.new script.new output.new }
{
    let configuration = match read_deployments(alloc, store, config) {
        Ok(configuration) => configuration,
        Err(fault) => return Err(fault),
    };
    match run_script(alloc, script, output, configuration.deployments) {
        Ok(()) => Ok(()),
        Err(fault) => Err(fault_of_run(fault)),
    }
}
