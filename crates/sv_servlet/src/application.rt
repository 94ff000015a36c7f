//! The run of an application.

ghost use Rattle.std.specs.Prelude.{◌≡◌, MatchResult};
ghost use Rattle.std.specs.Process.{exit_status};
ghost use Rattle.sv_program.specs.CommandFault.{status_of};
ghost use Rattle.sv_web.specs.Deployments as spec;

use crate::options::Options;
use std::io;
use std::net::Net;
use std::process::ExitCode;
use std::random::RandomSource;
use std::time::Clock;
use sv_component::{Filter, Listener, Servlet};
use sv_container::{let_go, start};
use sv_lifecycle::Deployment;
use sv_listening::{Seeding, listen_and_run, seed_for};
use sv_program::{CommandFault, report_fault};
use sv_web::deployments_of;

/// Runs an application. Starts its contexts on one port, with session ids from the system's random source, and writes
/// the line `listening ADDRESS:PORT`. Serves any number of connections at once, until the process is ended from outside
/// or a response runs out of memory. Then stops the contexts.
///
/// # Errors
/// The first fault. For each context in order, the fault of its descriptor ([`CommandFault::Descriptor`]), its users
/// ([`CommandFault::Users`]) or its static files ([`CommandFault::Files`]); no component was called then.
/// [`CommandFault::File`] if the system's random source fails. [`CommandFault::Start`] if a component did not start;
/// the components that had started are stopped. [`CommandFault::Socket`], [`CommandFault::Output`] or
/// [`CommandFault::NoMemory`] during the run.
pub fn run_application<R, S: Servlet, F: Filter, L: Listener>(
    rt: &R,
    contexts: Vec<sv_web::Deployment<S, F, L>>,
    options: Options,
) -> Result<(), CommandFault>
where
    R: Net + Clock + RandomSource + Print + AllocGlobal,
    ensures { spec.IsRefusedBy (spec.deployments_of contexts.items) result }
{
    let deployments = match deployments_of(rt.alloc(), contexts) {
        Ok(deployments) => deployments,
        Err(fault) => return Err(fault),
    };
    run_deployments(rt, deployments, options)
}

/// Returns the exit status of an application that ended in this way: 0, or that of its fault
/// ([`CommandFault::status`]). A fault is reported on standard error, in its line and in the one that says why.
pub fn exit_code<R: Eprint>(rt: &R, ended: Result<(), CommandFault>) -> ExitCode
    ensures { MatchResult ended (λ _. exit_status result ≡ 0) (λ fault. exit_status result ≡ status_of fault) }
{
    match ended {
        Ok(()) => ExitCode::SUCCESS,
        Err(fault) => report_fault(rt, &fault, fault.detail(), fault.status()),
    }
}

// Starts the deployments, serves them, and stops them.
fn run_deployments<R, S: Servlet, F: Filter, L: Listener>(
    rt: &R,
    deployments: Vec<Deployment<S, F, L>>,
    options: Options,
) -> Result<(), CommandFault>
where
    R: Net + Clock + RandomSource + Print + AllocGlobal,
{
    let alloc = rt.alloc();
    let seed = match seed_for(alloc, rt, Seeding::Fresh, &[0; 32]) {
        Ok(seed) => seed,
        Err(fault) => {
            let_go(deployments);
            return Err(fault);
        }
    };
    let container = start(alloc, deployments, &seed)?;
    let mut writer = io::writer(rt);
    let (served, container) = listen_and_run(alloc, rt, &mut writer, options.address, container);
    container.shutdown().let_go();
    served
}
