//! Starts a container that resumes with what remains of an earlier one.

ghost use Rattle.sv_component.specs.Steps.{steps_of};
ghost use Rattle.std.specs.Prelude.{◌≡◌, IfOk, List, length, map};
ghost use Rattle.sv_container.specs.Container.{state_of};
ghost use Rattle.sv_container.specs.Paths.{ArePermitted};
ghost use Rattle.sv_container.specs.Resuming.{ResumesOr, StartsOr, resuming};
ghost use Rattle.sv_context.specs.Resuming.{ResumesAll, TakesAll};
ghost use Rattle.sv_context.specs.Room.{HasRoomToStop, IsReady};
ghost use Rattle.sv_context.specs.Several.{paths_of};
ghost use Rattle.sv_lifecycle.specs.declared.suspended_context.SuspendedContext.{SuspendedContext as SuspendedData};

use crate::container::Container;
use crate::container_start::{fault_of, prepare};
use crate::new_fault::NewFault;
use crate::refusal::{Refusal, permit};
use crate::suspension::Suspension;
use std::alloc::Global;
use sv_component::{Filter, Listener, Servlet};
use sv_context::{Context, Resumption, Room, StopRoom, deploy_all, resume_all, take_all};
use sv_journal::Journal;
use sv_lifecycle::{Deployment, SuspendedContext};
use sv_mapping::ContextIndex;
use sv_run::Host;
use sv_text::NoMemory;

impl<S: Servlet, F: Filter, L: Listener, W: Drop> Container<S, F, L, W> {
    /// Starts a container as [`new`](Container::new) does, and resumes it with what remains of an earlier one. Each
    /// context goes on with the sessions and the constraints of the first suspended context of its path. A session ends
    /// if its caller is no user of the same name, salt and digest any more, and its listeners are notified (Jakarta
    /// Servlet 6.0, sections 7.5 and 11.3.4). Those that have expired end with the first event that has a time. The time
    /// goes on. Returns the suspended contexts of which no context took anything: no context has their path, or their
    /// constraints do not fit beside those that its descriptor declares now.
    ///
    /// # Errors
    /// [`NewFault`], as [`new`](Container::new) gives it. The suspension is dropped.
    pub fn resume(
        alloc: Global,
        deployments: Vec<Deployment<S, F, L>>,
        suspension: Suspension,
        words: W,
        journal: &mut Journal,
    ) -> Result<(Container<S, F, L, W>, Vec<SuspendedContext>), NewFault<S, F, L>>
        ensures { ResumesOr (steps_of S.servlet_step F.filter_step L.listener_step) deployments.items suspension words journal.old result journal.new }
    {
        if let Err(refusal) = permit(alloc, deployments.as_slice()) {
            return Err(refusal.of(deployments));
        }
        let Suspension {
            moment,
            mut contexts,
        } = suspension;
        match prepare_to_resume(alloc, deployments.as_slice(), &mut contexts, moment) {
            Ok(prepared) => match start_prepared(alloc, deployments, prepared, words, journal) {
                Ok(container) => Ok((container, contexts)),
                Err(fault) => Err(fault),
            },
            Err(_) => Err(Refusal::no_memory(alloc).of(deployments)),
        }
    }
}

// What a start that resumes needs, besides its deployments.
#[derive(Drop)]
struct Prepared<S, F, L> {
    room: Room<S, F, L>,
    index: ContextIndex,
    resumptions: Vec<Option<Resumption>>,
    moment: u64,
}

// Allocates the memory for the contexts of deployments, and takes what each of them resumes with.
fn prepare_to_resume<S: Servlet, F: Filter, L: Listener>(
    alloc: Global,
    deployments: &[Deployment<S, F, L>],
    suspended: &mut Vec<SuspendedContext>,
    moment: u64,
) -> Result<Prepared<S, F, L>, NoMemory>
    ensures room { IfOk result (λ prepared. IsReady deployments.now prepared.room) }
    ensures index { IfOk result (λ prepared. prepared.index ≡ paths_of deployments.now) }
    ensures taken { IfOk result (λ prepared. TakesAll deployments.now suspended.old.items prepared.resumptions.items suspended.new.items) }
    ensures moment { IfOk result (λ prepared. prepared.moment ≡ moment) }
{
    let resumptions = match take_all(alloc, deployments, suspended) {
        Ok(resumptions) => resumptions,
        Err(fault) => return Err(fault),
    };
    match prepare(alloc, deployments) {
        Ok((room, index)) => Ok(Prepared {
            room,
            index,
            resumptions,
            moment,
        }),
        Err(fault) => Err(fault),
    }
}

// Starts the contexts of deployments in the memory that is reserved for them, and resumes them.
fn start_prepared<S: Servlet, F: Filter, L: Listener, W: Drop>(
    alloc: Global,
    deployments: Vec<Deployment<S, F, L>>,
    prepared: Prepared<S, F, L>,
    words: W,
    journal: &mut Journal,
) -> Result<Container<S, F, L, W>, NewFault<S, F, L>>
    requires permitted { ArePermitted (paths_of deployments.items) }
    requires ready { IsReady deployments.items prepared.room }
    requires indexed { prepared.index ≡ paths_of deployments.items }
    ensures { (suspended left : List SuspendedData) → TakesAll deployments.items suspended prepared.resumptions.items left
        → StartsOr (steps_of S.servlet_step F.filter_step L.listener_step) deployments.items suspended prepared.moment words left journal.old result journal.new }
{
    let Prepared {
        room,
        index,
        resumptions,
        moment,
    } = prepared;
    match deploy_all(alloc, deployments, room, journal) {
        Ok((contexts, stop)) => {
            let resumed = resume_contexts(alloc, contexts, resumptions, journal);
            Ok(container_at(alloc, resumed, stop, index, words, moment))
        }
        Err(fault) => Err(fault_of(alloc, fault)),
    }
}

// Resumes the contexts that have something to resume with.
fn resume_contexts<S: Servlet, F: Filter, L: Listener>(
    alloc: Global,
    contexts: Vec<Context<S, F, L>>,
    resumptions: Vec<Option<Resumption>>,
    journal: &mut Journal,
) -> Vec<Context<S, F, L>>
    ensures { ResumesAll (steps_of S.servlet_step F.filter_step L.listener_step) resumptions.items contexts.items journal.old result.items journal.new }
{
    let mut contexts = contexts;
    resume_all(alloc, contexts.as_mut_slice(), resumptions, journal);
    contexts
}

// Returns a container of contexts at a time.
fn container_at<S, F, L, W>(
    alloc: Global,
    contexts: Vec<Context<S, F, L>>,
    stop: StopRoom<S, F, L>,
    index: ContextIndex,
    words: W,
    moment: u64,
) -> Container<S, F, L, W>
    requires permitted { ArePermitted (map (λ context. context.content.context_path) contexts.items) }
    requires indexed { index ≡ map (λ context. context.content.context_path) contexts.items }
    requires stop { HasRoomToStop (length contexts.items) stop }
    ensures { state_of result ≡ resuming moment contexts.items words }
{
    let mut host = Host::new(alloc, contexts, index, words);
    host.raise_moment(moment);
    Container { alloc, host, stop }
}
