//! Deploying and undeploying a context.

ghost use Rattle.std.specs.Prelude.{Err, IfOk, ◌≡◌};
ghost use Rattle.sv_component.specs.Steps.{steps_of};
ghost use Rattle.sv_context.specs.Deployment.{Deploys, Undeploys, declared_policy, no_sessions};
ghost use Rattle.sv_descriptor.specs.WellFormed.{IsWellFormed};
ghost use Rattle.sv_journal.specs.Journal.{JournalState};
ghost use Rattle.sv_tree.specs.ServletMappings.{mappings_of};

use crate::context::Context;
use crate::deploy_fault::DeployFault;
use crate::responder::Responder;
use std::alloc::Global;
use sv_chain::Chains;
use sv_component::{Filter, Listener, Servlet};
use sv_descriptor::Descriptor;
use sv_exchange::Exchange;
use sv_journal::{Journal, StartCode};
use sv_lifecycle::{Deployment, StartFault, fits};
use sv_live::Live;
use sv_policy::Policy;
use sv_session::Sessions;
use sv_text::NoMemory;
use sv_tree::{ServletPatterns, Site};

impl<S: Servlet, F: Filter, L: Listener> Context<S, F, L> {
    /// Deploys a context: starts its components, with no session yet (Jakarta Servlet 6.0, sections 2.3.1, 6.2.1 and
    /// 11.3.3).
    ///
    /// # Errors
    /// [`DeployFault`] with the reason and the deployment. A start that is refused is undone.
    pub fn deploy(
        alloc: Global,
        deployment: Deployment<S, F, L>,
        journal: &mut Journal,
    ) -> Result<Context<S, F, L>, DeployFault<S, F, L>>
        ensures { Deploys (steps_of S.servlet_step F.filter_step L.listener_step) deployment journal.old result journal.new }
    {
        match tables_of(alloc, &deployment.descriptor) {
            Ok((patterns, policy)) => start(alloc, deployment, patterns, policy, journal),
            Err(_) => Err(without_tables(deployment)),
        }
    }

    /// Undeploys a context: stops it and returns its deployment, with the components as the calls left them (Jakarta
    /// Servlet 6.0, sections 2.3.4, 6.2.1 and 11.3.4). Its sessions end in the order of their numbers. If the journal
    /// breaks, the stop continues.
    pub fn undeploy(self, alloc: Global, journal: &mut Journal) -> Deployment<S, F, L>
        ensures { Undeploys (steps_of S.servlet_step F.filter_step L.listener_step) self journal.old result journal.new }
    {
        let Context {
            responder,
            users,
            policy: _,
            mut sessions,
        } = self;
        let Responder {
            site,
            live,
            exchange: _,
        } = responder;
        let parts = live.stop(alloc, &mut sessions, journal);
        let (path, descriptor, files) = site.into_parts();
        Deployment {
            path,
            descriptor,
            files,
            users,
            parts,
        }
    }
}

// Compiles the patterns of the servlets and the policy of the constraints.
fn tables_of(alloc: Global, descriptor: &Descriptor) -> Result<(ServletPatterns, Policy), NoMemory>
    ensures tables { IfOk result (λ tables. (tables.0 ≡ mappings_of descriptor.now) × (tables.1 ≡ declared_policy descriptor.now)) }
    ensures well_formed { IsWellFormed descriptor.now }
{
    let app = descriptor.web_app();
    let patterns = ServletPatterns::of(alloc, descriptor)?;
    let policy = Policy::compile_copies(alloc, app.constraints.as_slice(), &app.rules)?;
    Ok((patterns, policy))
}

// Starts the components of a deployment, given its compiled patterns and constraints.
fn start<S: Servlet, F: Filter, L: Listener>(
    alloc: Global,
    deployment: Deployment<S, F, L>,
    patterns: ServletPatterns,
    policy: Policy,
    journal: &mut Journal,
) -> Result<Context<S, F, L>, DeployFault<S, F, L>>
    requires patterns { patterns ≡ mappings_of deployment.descriptor }
    requires policy { policy ≡ declared_policy deployment.descriptor }
    requires well_formed { IsWellFormed deployment.descriptor }
    ensures { Deploys (steps_of S.servlet_step F.filter_step L.listener_step) deployment journal.old result journal.new }
{
    let Deployment {
        path,
        descriptor,
        files,
        users,
        parts,
    } = deployment;
    match sv_lifecycle::start(alloc, path.as_str(), parts, &descriptor, journal) {
        Ok(live) => {
            let sessions = no_sessions(alloc, &descriptor);
            let chains = Chains::compile(alloc, &descriptor);
            let site = Site::new(path, descriptor, files, patterns, chains);
            let responder = Responder {
                site,
                live,
                exchange: Exchange::new(alloc),
            };
            Ok(Context {
                responder,
                users,
                policy,
                sessions,
            })
        }
        Err(StartFault { code, parts }) => Err(DeployFault {
            fault: code,
            deployment: Deployment {
                path,
                descriptor,
                files,
                users,
                parts,
            },
        }),
    }
}

// Refuses a deployment, before anything is started, because there was no memory for its patterns or constraints. If its
// parts do not match the descriptor, the fault is this mismatch.
fn without_tables<S: Servlet, F: Filter, L: Listener>(
    deployment: Deployment<S, F, L>,
) -> DeployFault<S, F, L>
    ensures { (journal : JournalState) → Deploys (steps_of S.servlet_step F.filter_step L.listener_step) deployment journal (Err result) journal }
{
    let fault = if fits(deployment.descriptor.web_app(), &deployment.parts) {
        StartCode::NoMemory
    } else {
        StartCode::PartsMismatch
    };
    DeployFault { fault, deployment }
}

// Returns an empty session store for a context of the descriptor.
pub(crate) fn no_sessions(alloc: Global, descriptor: &Descriptor) -> Sessions
    ensures { result ≡ record { store = no_sessions descriptor.now; judged = 0 } }
{
    let (limit, interval) = session_limits(descriptor);
    Sessions::new(alloc, limit, interval)
}

// Returns the greatest number of sessions of a context of the descriptor, and their timeout in seconds.
pub(crate) fn session_limits(descriptor: &Descriptor) -> (usize, u32)
    ensures limit { result.0 ≡ (no_sessions descriptor.now).limit }
    ensures interval { result.1 ≡ (no_sessions descriptor.now).interval }
{
    let app = descriptor.web_app();
    (
        app.version.max_sessions(),
        app.session.timeout * SECONDS_OF_MINUTE,
    )
}

/// The seconds of a minute. A descriptor gives the session timeout in minutes.
pub const SECONDS_OF_MINUTE: u32 = 60;
