//! Starts a container.

ghost use Rattle.sv_component.specs.Steps.{steps_of};
ghost use Rattle.std.specs.Prelude.{◌≡◌, IfOk, length, map};
ghost use Rattle.sv_container.specs.Container.{state_of};
ghost use Rattle.sv_container.specs.Paths.{ArePermitted};
ghost use Rattle.sv_container.specs.Starting.{Starts, named_path};
ghost use Rattle.sv_context.specs.Room.{HasRoomToStop, IsReady};
ghost use Rattle.sv_context.specs.Several.{paths_of};
ghost use Rattle.sv_run.specs.Host.{opening};

use crate::container::Container;
use crate::new_fault::NewFault;
use crate::refusal::{Refusal, no_path, permit};
use std::alloc::Global;
use sv_component::{Filter, Listener, Servlet};
use sv_context::{Context, DeployAllFault, Room, StopRoom, deploy_all};
use sv_journal::{Journal, NewCode, StartCode};
use sv_lifecycle::Deployment;
use sv_mapping::ContextIndex;
use sv_run::Host;
use sv_text::{NoMemory, Text};

impl<S: Servlet, F: Filter, L: Listener, W: Drop> Container<S, F, L, W> {
    /// Starts a container. It deploys the contexts in the order of the list (Jakarta Servlet 6.0, sections 2.3.1, 6.2.1
    /// and 11.3.3).
    ///
    /// # Errors
    /// [`NewFault`] with all deployments that the caller passed. If a context does not start, those before it are
    /// undeployed in the order of the list.
    pub fn new(
        alloc: Global,
        deployments: Vec<Deployment<S, F, L>>,
        words: W,
        journal: &mut Journal,
    ) -> Result<Container<S, F, L, W>, NewFault<S, F, L>>
        ensures { Starts (steps_of S.servlet_step F.filter_step L.listener_step) deployments.items words journal.old result journal.new }
    {
        if let Err(refusal) = permit(alloc, deployments.as_slice()) {
            return Err(refusal.of(deployments));
        }
        match prepare(alloc, deployments.as_slice()) {
            Ok((room, index)) => start(alloc, deployments, room, index, words, journal),
            Err(_) => Err(Refusal::no_memory(alloc).of(deployments)),
        }
    }
}

// Allocates the memory for the contexts of deployments, and builds the index of their paths.
pub(crate) fn prepare<S: Servlet, F: Filter, L: Listener>(
    alloc: Global,
    deployments: &[Deployment<S, F, L>],
) -> Result<(Room<S, F, L>, ContextIndex), NoMemory>
    ensures { IfOk result (λ prepared. IsReady deployments.now prepared.0 × (prepared.1 ≡ paths_of deployments.now)) }
{
    let room = match Room::for_all(alloc, deployments) {
        Ok(room) => room,
        Err(fault) => return Err(fault),
    };
    match ContextIndex::of(alloc, room.paths()) {
        Ok(index) => Ok((room, index)),
        Err(fault) => {
            room.let_go();
            Err(fault)
        }
    }
}

// Starts the contexts of deployments in the memory that is reserved for them.
fn start<S: Servlet, F: Filter, L: Listener, W: Drop>(
    alloc: Global,
    deployments: Vec<Deployment<S, F, L>>,
    room: Room<S, F, L>,
    index: ContextIndex,
    words: W,
    journal: &mut Journal,
) -> Result<Container<S, F, L, W>, NewFault<S, F, L>>
    requires permitted { ArePermitted (paths_of deployments.items) }
    requires ready { IsReady deployments.items room }
    requires indexed { index ≡ paths_of deployments.items }
    ensures { Starts (steps_of S.servlet_step F.filter_step L.listener_step) deployments.items words journal.old result journal.new }
{
    match deploy_all(alloc, deployments, room, journal) {
        Ok((contexts, stop)) => Ok(container_of(alloc, contexts, stop, index, words)),
        Err(fault) => Err(fault_of(alloc, fault)),
    }
}

// Returns a container of started contexts.
fn container_of<S, F, L, W>(
    alloc: Global,
    contexts: Vec<Context<S, F, L>>,
    stop: StopRoom<S, F, L>,
    index: ContextIndex,
    words: W,
) -> Container<S, F, L, W>
    requires permitted { ArePermitted (map (λ context. context.content.context_path) contexts.items) }
    requires indexed { index ≡ map (λ context. context.content.context_path) contexts.items }
    requires stop { HasRoomToStop (length contexts.items) stop }
    ensures { state_of result ≡ opening contexts.items words }
{
    Container {
        alloc,
        host: Host::new(alloc, contexts, index, words),
        stop,
    }
}

// Returns the fault of a container whose contexts did not start.
pub(crate) fn fault_of<S, F, L>(alloc: Global, fault: DeployAllFault<S, F, L>) -> NewFault<S, F, L>
    ensures code { result.code ≡ NewCode.Start fault.code }
    ensures context { result.context ≡ named_path fault.code fault.context }
    ensures deployments { result.deployments.items ≡ fault.deployments.items }
{
    let DeployAllFault {
        code,
        context,
        deployments,
    } = fault;
    NewFault {
        code: NewCode::Start(code),
        context: named_path(alloc, code, context),
        deployments,
    }
}

// Returns the context path that goes with a failed start.
fn named_path(alloc: Global, code: StartCode, path: Text) -> Text
    ensures { result ≡ named_path code path }
{
    match code {
        StartCode::PartsMismatch => path,
        StartCode::InitFailed(_) => path,
        StartCode::NoMemory => no_path(alloc),
    }
}
