//! Deploying and undeploying contexts one after another.

ghost use Rattle.std.specs.Prelude.{Err, List, MatchResult, Ok, [], length, map, slice_index_or, vec_capacity, ◌++◌, ◌+◌, ◌<◌, ◌∷◌, ◌≡◌, ◌≤◌};
ghost use Rattle.sv_component.specs.Steps.{steps_of};
ghost use Rattle.sv_context.specs.Deployment.{Deploys};
ghost use Rattle.sv_context.specs.Room.{HasRoomToStop, IsReady};
ghost use Rattle.sv_context.specs.Several.{DeploysAll, FailsAll, GivesBackParts, UndeploysAll};
ghost use Rattle.sv_context.specs.State.{ContextState};
ghost use Rattle.sv_lifecycle.specs.declared.deployment.Deployment.{Deployment as DeploymentData};

use crate::context::Context;
use crate::deploy_fault::{DeployAllFault, DeployFault};
use crate::room::{Room, StopRoom};
use crate::shutdown::Shutdown;
use std::alloc::Global;
use std::collections::VecDeque;
use std::mem;
use sv_component::{Filter, Listener, Servlet};
use sv_journal::Journal;
use sv_lifecycle::Deployment;
use sv_live::Parts;

/// Deploys contexts in the order of their list, with memory reserved for them (Jakarta Servlet 6.0, sections 2.3.1,
/// 6.2.1 and 11.3.3). Returns them with the memory reserved for their stop.
///
/// # Errors
/// [`DeployAllFault`] of the first that does not start. Those before it are undeployed in the order of the list.
pub fn deploy_all<S: Servlet, F: Filter, L: Listener>(
    alloc: Global,
    deployments: Vec<Deployment<S, F, L>>,
    room: Room<S, F, L>,
    journal: &mut Journal,
) -> Result<(Vec<Context<S, F, L>>, StopRoom<S, F, L>), DeployAllFault<S, F, L>>
    requires { IsReady deployments.items room }
    ensures { MatchResult result
        (λ started. DeploysAll (steps_of S.servlet_step F.filter_step L.listener_step) deployments.items journal.old started.0.items journal.new
        × HasRoomToStop (length deployments.items) started.1)
        (λ fault. FailsAll (steps_of S.servlet_step F.filter_step L.listener_step) deployments.items journal.old fault journal.new) }
{
    let mut room = room;
    match deploy_each(alloc, deployments, &mut room, journal) {
        Ok(()) => {
            let Room { contexts, stop, .. } = room;
            Ok((contexts, stop))
        }
        Err(fault) => Err(fault),
    }
}

// Deploys contexts in the order of their list, up to the first that does not start.
fn deploy_each<S: Servlet, F: Filter, L: Listener>(
    alloc: Global,
    deployments: Vec<Deployment<S, F, L>>,
    room: &mut Room<S, F, L>,
    journal: &mut Journal,
) -> Result<(), DeployAllFault<S, F, L>>
    requires { IsReady deployments.items room.old }
    ensures { MatchResult result
        (λ _. DeploysAll (steps_of S.servlet_step F.filter_step L.listener_step) deployments.items journal.old room.new.contexts.items journal.new
        × HasRoomToStop (length deployments.items) room.new.stop)
        (λ fault. FailsAll (steps_of S.servlet_step F.filter_step L.listener_step) deployments.items journal.old fault journal.new) }
{
    let mut waiting = VecDeque::from_vec(deployments);
    while let Some(deployment) = waiting.pop_front() {
        if let Err(fault) = deploy_next(alloc, deployment, &mut room.contexts, journal) {
            return Err(undo(alloc, fault, waiting.into_vec(), room, journal));
        }
    }
    Ok(())
}

// Deploys a context and appends it to the others. The list must have capacity for it.
fn deploy_next<S: Servlet, F: Filter, L: Listener>(
    alloc: Global,
    deployment: Deployment<S, F, L>,
    contexts: &mut Vec<Context<S, F, L>>,
    journal: &mut Journal,
) -> Result<(), DeployFault<S, F, L>>
    requires { length contexts.old.items < vec_capacity contexts.old }
    ensures deploys { MatchResult result
        (λ _. (context : ContextState S F L) × Deploys (steps_of S.servlet_step F.filter_step L.listener_step) deployment journal.old (Ok context) journal.new
        × (contexts.new.items ≡ contexts.old.items ++ context ∷ []))
        (λ fault. Deploys (steps_of S.servlet_step F.filter_step L.listener_step) deployment journal.old (Err fault) journal.new
        × (contexts.new.items ≡ contexts.old.items)) }
    ensures room { vec_capacity contexts.old ≤ vec_capacity contexts.new }
{
    match Context::deploy(alloc, deployment, journal) {
        Ok(context) => {
            push(contexts, context);
            Ok(())
        }
        Err(fault) => Err(fault),
    }
}

// Undeploys the contexts before one that did not start, and returns all deployments.
fn undo<S: Servlet, F: Filter, L: Listener>(
    alloc: Global,
    fault: DeployFault<S, F, L>,
    rest: Vec<Deployment<S, F, L>>,
    room: &mut Room<S, F, L>,
    journal: &mut Journal,
) -> DeployAllFault<S, F, L>
    requires there { length room.old.contexts.items < length room.old.paths.items }
    requires empty { room.old.stop.back.items ≡ [] }
    requires fits { length room.old.contexts.items + 1 + length rest.items ≤ vec_capacity room.old.stop.back }
    ensures code { result.code ≡ fault.fault }
    ensures context { result.context ≡ slice_index_or room.old.paths.items (length room.old.contexts.items) [] }
    ensures undone { (stopped : List (DeploymentData S F L))
        × UndeploysAll (steps_of S.servlet_step F.filter_step L.listener_step) room.old.contexts.items journal.old stopped journal.new
        × (result.deployments.items ≡ stopped ++ fault.deployment ∷ rest.items) }
{
    let context = room.paths.swap_remove(room.contexts.len());
    let contexts = mem::replace(&mut room.contexts, Vec::new(alloc));
    let mut back = mem::replace(&mut room.stop.back, Vec::new(alloc));
    undeploy_each(alloc, contexts, &mut back, journal);
    let DeployFault {
        fault: code,
        deployment,
    } = fault;
    push(&mut back, deployment);
    push_all(&mut back, rest);
    DeployAllFault {
        code,
        context,
        deployments: back,
    }
}

/// Undeploys contexts in their order, with memory reserved for their stop, and returns their components (Jakarta
/// Servlet 6.0, sections 2.3.4, 6.2.1 and 11.3.4). It allocates only for the journal, and continues if an allocation
/// fails.
pub fn undeploy_all<S: Servlet, F: Filter, L: Listener>(
    alloc: Global,
    contexts: Vec<Context<S, F, L>>,
    stop: StopRoom<S, F, L>,
    journal: Journal,
) -> Shutdown<S, F, L>
    requires { HasRoomToStop (length contexts.items) stop }
    ensures { GivesBackParts (steps_of S.servlet_step F.filter_step L.listener_step) contexts.items journal result.parts.items result.journal }
{
    let StopRoom {
        mut back,
        mut parts,
        remains: _,
    } = stop;
    let mut journal = journal;
    undeploy_each(alloc, contexts, &mut back, &mut journal);
    push_parts(&mut parts, back);
    Shutdown { parts, journal }
}

// Undeploys contexts in their order, and appends their deployments to a list, which must have capacity for them.
fn undeploy_each<S: Servlet, F: Filter, L: Listener>(
    alloc: Global,
    contexts: Vec<Context<S, F, L>>,
    back: &mut Vec<Deployment<S, F, L>>,
    journal: &mut Journal,
)
    requires { length back.old.items + length contexts.items ≤ vec_capacity back.old }
    ensures undeploys { (stopped : List (DeploymentData S F L))
        × UndeploysAll (steps_of S.servlet_step F.filter_step L.listener_step) contexts.items journal.old stopped journal.new
        × (back.new.items ≡ back.old.items ++ stopped) × (length stopped ≡ length contexts.items) }
    ensures room { vec_capacity back.old ≤ vec_capacity back.new }
{
    let mut waiting = VecDeque::from_vec(contexts);
    while let Some(context) = waiting.pop_front() {
        push(back, context.undeploy(alloc, journal));
    }
}

// Appends the components of deployments to a list, which must have capacity for them.
fn push_parts<S: Servlet, F: Filter, L: Listener>(
    parts: &mut Vec<Parts<S, F, L>>,
    back: Vec<Deployment<S, F, L>>,
)
    requires { length parts.old.items + length back.items ≤ vec_capacity parts.old }
    ensures { parts.new.items ≡ parts.old.items ++ map (λ deployment. deployment.parts) back.items }
{
    let mut waiting = VecDeque::from_vec(back);
    while let Some(undeployed) = waiting.pop_front() {
        push(parts, parts_of(undeployed));
    }
}

// Returns the components of a deployment. The rest is dropped here and not in the loop, so that the loop's proof need
// not cover it.
fn parts_of<S: Servlet, F: Filter, L: Listener>(deployment: Deployment<S, F, L>) -> Parts<S, F, L>
    ensures { result ≡ deployment.parts }
{
    deployment.parts
}

/// Appends an item. The list must have capacity for it.
pub(crate) fn push<T: Drop>(items: &mut Vec<T>, item: T)
    requires { length items.old.items < vec_capacity items.old }
    ensures items { items.new.items ≡ items.old.items ++ item ∷ [] }
    ensures room { vec_capacity items.old ≤ vec_capacity items.new }
{
    // The capacity suffices.
    let _room = items.push(item);
}

/// Appends other items. The list must have capacity for them.
pub(crate) fn push_all<T: Drop>(items: &mut Vec<T>, others: Vec<T>)
    requires { length items.old.items + length others.items ≤ vec_capacity items.old }
    ensures { items.new.items ≡ items.old.items ++ others.items }
{
    let mut others = others;
    // The capacity suffices.
    let _room = items.append(&mut others);
}
