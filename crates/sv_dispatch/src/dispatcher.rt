//! A dispatch: its filters, a servlet's turns or a file, and nested dispatches.

ghost use Rattle.std.specs.Prelude.{◌≡◌, ◌<◌, ℕ, IfOk, None, OnErr, OnOk, Some, length, suc};
ghost use Rattle.sv_component.specs.declared.answers.Step.TheVariants.{Unavailable};
ghost use Rattle.sv_dispatch.specs.Did.{Did, seen};
ghost use Rattle.sv_dispatch.specs.Seen.{IsHere};
ghost use Rattle.sv_tree.specs.declared.site.Resource.TheVariants.{Files, Servlet};
ghost use Rattle.sv_tree.specs.Does.{tries};
ghost use Rattle.sv_tree.specs.State.{on_exchange};
ghost use Rattle.sv_tree.specs.Site.{begun_by, chosen};
ghost use Rattle.sv_tree.specs.SiteOfDescriptor.{site_of};
ghost use Rattle.sv_tree.specs.Tree.{Dispatches, Responds, Serves, Stepped, Tree, Turn, Within, behind_include, is_too_late};

use crate::endings::{away_for, err, error_status, fail, fault, lasting, missing};
use crate::file_servlet::filed;
use crate::filters::{befores, leave_filters};
use crate::machine::Machine;
use crate::parts::ErrorField;
use std::alloc::Global;
use sv_component::{Standing, Step};
use sv_mapping::Kind;
use sv_text::{NoMemory, Text};
use sv_tree::{DispatchFault, Finished, Resource, Site};
use sv_uri::canon;
use sv_uri::fault::CanonFault;
use sv_uri::path::Canon;

/// Dispatches a path, with at most `room` levels of dispatches nested in it (Jakarta Servlet 6.0, chapters 6 and 9).
#[cycle(dispatching)]
pub(crate) fn dispatch_by<M: Machine>(
    alloc: Global,
    machine: &mut M,
    site: &mut Site,
    room: usize,
    kind: Kind,
    canon: &Canon,
) -> Result<Finished, NoMemory>
    requires servlets { length site.old.app.servlets ≡ (M.frame machine.old).servlets }
    requires filters { length site.old.app.filters ≡ (M.frame machine.old).filters }
    requires listeners { length site.old.app.listeners ≡ (M.frame machine.old).listeners }
    ensures does { Did M.state M.frame M.ran (Tree (site_of site.old) (suc room) kind canon.now) machine.old machine.new (seen result) }
    ensures stays { site.new ≡ site.old }
{
    let Ok(resource) = entered(machine, site, kind, canon) else {
        return Err(NoMemory);
    };
    let Ok(finished) = within(alloc, machine, site, room, resource, kind, canon) else {
        return Err(NoMemory);
    };
    machine.leave();
    Ok(finished)
}

// Begins a dispatch and returns the resource that serves its path.
fn entered<M: Machine>(
    machine: &mut M,
    site: &Site,
    kind: Kind,
    canon: &Canon,
) -> Result<Resource, NoMemory>
    ensures begins { OnOk result (Did M.state M.frame M.ran (tries (on_exchange (begun_by (chosen (site_of site.now) canon.now.path) kind canon.now)))
        machine.old machine.new (Some tt)) }
    ensures lacks { OnErr result (Did M.state M.frame M.ran (tries (on_exchange (begun_by (chosen (site_of site.now) canon.now.path) kind canon.now)))
        machine.old machine.new None) }
    ensures resource { IfOk result (λ resource. resource ≡ (chosen (site_of site.now) canon.now.path).resource) }
    ensures there { IfOk result (λ resource. (place : ℕ) → resource ≡ Servlet place → place < length site.now.app.servlets) }
{
    let chosen = site.chosen(canon.path.as_str());
    let Ok(()) = machine.enter(kind, &chosen, canon) else {
        return Err(NoMemory);
    };
    Ok(chosen.resource)
}

// Calls the filters, then the servlet or the file servlet if all pass, and once more the filters that passed.
#[cycle(dispatching)]
fn within<M: Machine>(
    alloc: Global,
    machine: &mut M,
    site: &mut Site,
    room: usize,
    resource: Resource,
    kind: Kind,
    canon: &Canon,
) -> Result<Finished, NoMemory>
    requires servlets { length site.old.app.servlets ≡ (M.frame machine.old).servlets }
    requires filters { length site.old.app.filters ≡ (M.frame machine.old).filters }
    requires listeners { length site.old.app.listeners ≡ (M.frame machine.old).listeners }
    requires there { (place : ℕ) → resource ≡ Servlet place → place < (M.frame machine.old).servlets }
    ensures does { Did M.state M.frame M.ran (Within (site_of site.old) room (Tree (site_of site.old) room) resource kind canon.now)
        machine.old machine.new (seen result) }
    ensures stays { site.new ≡ site.old }
{
    let Ok(chain) = site.chain(alloc, canon.path.as_str(), resource, kind) else {
        return Err(NoMemory);
    };
    let chain = chain.as_slice();
    let Ok(passed) = befores(alloc, machine, site, resource, chain, 0) else {
        return Err(NoMemory);
    };
    let count = passed.count;
    if let Some(finished) = passed.ended {
        return leave_filters(machine, chain, count, finished);
    }
    let Ok(finished) = respond(alloc, machine, site, room, resource, kind, canon) else {
        return Err(NoMemory);
    };
    leave_filters(machine, chain, count, finished)
}

// Calls the servlet or the file servlet, after all filters passed.
#[cycle(dispatching)]
fn respond<M: Machine>(
    alloc: Global,
    machine: &mut M,
    site: &mut Site,
    room: usize,
    resource: Resource,
    kind: Kind,
    canon: &Canon,
) -> Result<Finished, NoMemory>
    requires servlets { length site.old.app.servlets ≡ (M.frame machine.old).servlets }
    requires filters { length site.old.app.filters ≡ (M.frame machine.old).filters }
    requires listeners { length site.old.app.listeners ≡ (M.frame machine.old).listeners }
    requires there { (place : ℕ) → resource ≡ Servlet place → place < (M.frame machine.old).servlets }
    ensures does { Did M.state M.frame M.ran (Responds (site_of site.old) room (Tree (site_of site.old) room) resource kind canon.now None)
        machine.old machine.new (seen result) }
    ensures stays { site.new ≡ site.old }
{
    match resource {
        Resource::Servlet(place) => turns(alloc, machine, site, room, place),
        Resource::Files => file(alloc, machine, site, kind, canon),
    }
}

// Calls the file servlet.
fn file<M: Machine>(
    alloc: Global,
    machine: &mut M,
    site: &Site,
    kind: Kind,
    canon: &Canon,
) -> Result<Finished, NoMemory>
    ensures { (room : ℕ) → Did M.state M.frame M.ran (Responds (site_of site.now) room (Tree (site_of site.now) room) Files kind canon.now None)
        machine.old machine.new (seen result) }
{
    let Ok(found) = site.file(alloc, canon, machine.method(), kind) else {
        return Err(NoMemory);
    };
    filed(alloc, machine, site, kind, found)
}

// Gives a servlet turns until the dispatch ends.
#[cycle(dispatching)]
fn turns<M: Machine>(
    alloc: Global,
    machine: &mut M,
    site: &mut Site,
    room: usize,
    place: usize,
) -> Result<Finished, NoMemory>
    requires servlets { length site.old.app.servlets ≡ (M.frame machine.old).servlets }
    requires filters { length site.old.app.filters ≡ (M.frame machine.old).filters }
    requires listeners { length site.old.app.listeners ≡ (M.frame machine.old).listeners }
    requires there { place < (M.frame machine.old).servlets }
    ensures does { Did M.state M.frame M.ran (Serves (site_of site.old) room (Tree (site_of site.old) room) place) machine.old machine.new (seen result) }
    ensures stays { site.new ≡ site.old }
{
    let mut number = 0u32;
    loop {
        let Ok(ended) = turn(alloc, machine, site, room, place, number) else {
            return Err(NoMemory);
        };
        if let Some(finished) = ended {
            return Ok(finished);
        }
        number += 1;
    }
}

// Gives a servlet one turn. Returns the end of the dispatch, or none if the servlet continues.
#[cycle(dispatching)]
#[inline(always)]
fn turn<M: Machine>(
    alloc: Global,
    machine: &mut M,
    site: &mut Site,
    room: usize,
    place: usize,
    number: u32,
) -> Result<Option<Finished>, NoMemory>
    requires servlets { length site.old.app.servlets ≡ (M.frame machine.old).servlets }
    requires filters { length site.old.app.filters ≡ (M.frame machine.old).filters }
    requires listeners { length site.old.app.listeners ≡ (M.frame machine.old).listeners }
    requires there { place < (M.frame machine.old).servlets }
    ensures does { Did M.state M.frame M.ran (Turn (site_of site.old) room (Tree (site_of site.old) room) place number)
        machine.old machine.new (seen result) }
    ensures stays { site.new ≡ site.old }
{
    match machine.standing(place) {
        Standing::Gone => lasting(missing(alloc, machine, site, Resource::Servlet(place))),
        Standing::Away(until) => {
            let left = until.saturating_sub(machine.moment());
            lasting(away_for(alloc, machine, site, Resource::Servlet(place), left))
        }
        Standing::Serving => {
            if machine.is_full() {
                let limit = DispatchFault::DispatchLimit;
                return lasting(fault(alloc, machine, site, Resource::Servlet(place), limit));
            }
            machine.count();
            let Ok(step) = machine.service(place, number) else {
                return Err(NoMemory);
            };
            stepped(alloc, machine, site, room, place, step)
        }
    }
}

// Carries out the step that a servlet returned.
#[cycle(dispatching)]
#[inline(always)]
fn stepped<M: Machine>(
    alloc: Global,
    machine: &mut M,
    site: &mut Site,
    room: usize,
    place: usize,
    step: Step,
) -> Result<Option<Finished>, NoMemory>
    requires servlets { length site.old.app.servlets ≡ (M.frame machine.old).servlets }
    requires filters { length site.old.app.filters ≡ (M.frame machine.old).filters }
    requires listeners { length site.old.app.listeners ≡ (M.frame machine.old).listeners }
    requires there { place < (M.frame machine.old).servlets }
    requires here { IsHere place (M.state machine.old) }
    ensures does { Did M.state M.frame M.ran (Stepped (site_of site.old) room (Tree (site_of site.old) room) place step) machine.old machine.new (seen result) }
    ensures stays { site.new ≡ site.old }
{
    let servlet = Resource::Servlet(place);
    match step {
        Step::Done => Ok(Some(Finished::Done)),
        Step::Forward(text) => {
            lasting(asked_for(alloc, machine, site, room, place, Kind::Forward, &text))
        }
        Step::Include(text) => {
            let Ok(finished) = asked_for(alloc, machine, site, room, place, Kind::Include, &text)
            else {
                return Err(NoMemory);
            };
            Ok(behind_include(finished))
        }
        Step::Error(code, text) => {
            let status = error_status(code);
            lasting(err(machine, site, servlet, status, text, ErrorField::Nothing))
        }
        Step::Failed(kind, text) => lasting(fail(machine, site, servlet, kind, text)),
        Step::Unavailable(seconds) => unavailable(alloc, machine, site, room, place, seconds),
        Step::NoMemory => Err(NoMemory),
    }
}

// Returns the end of the dispatch after an include: none, so that the servlet continues, unless it ended in a failure.
fn behind_include(finished: Finished) -> Option<Finished>
    ensures { result ≡ behind_include finished }
{
    match finished {
        Finished::Done => None,
        Finished::Error(_, _) => None,
        Finished::Failed(kind, text) => Some(Finished::Failed(kind, text)),
    }
}

// Handles a servlet that has reported itself unavailable, permanently or for some seconds.
fn unavailable<M: Machine>(
    alloc: Global,
    machine: &mut M,
    site: &Site,
    room: usize,
    place: usize,
    seconds: Option<u32>,
) -> Result<Option<Finished>, NoMemory>
    requires there { place < (M.frame machine.old).servlets }
    requires here { IsHere place (M.state machine.old) }
    ensures { Did M.state M.frame M.ran (Stepped (site_of site.now) room (Tree (site_of site.now) room) place (Unavailable seconds))
        machine.old machine.new (seen result) }
{
    let servlet = Resource::Servlet(place);
    match seconds {
        None => {
            let Ok(()) = machine.retire(place) else {
                return Err(NoMemory);
            };
            lasting(missing(alloc, machine, site, servlet))
        }
        Some(seconds) => {
            machine.away(place, seconds);
            lasting(away_for(alloc, machine, site, servlet, u64::from(seconds)))
        }
    }
}

// Makes a dispatch that a servlet requests (Jakarta Servlet 6.0, sections 9.1, 9.3 and 9.4).
#[cycle(dispatching)]
fn asked_for<M: Machine>(
    alloc: Global,
    machine: &mut M,
    site: &mut Site,
    room: usize,
    place: usize,
    kind: Kind,
    text: &Text,
) -> Result<Finished, NoMemory>
    requires servlets { length site.old.app.servlets ≡ (M.frame machine.old).servlets }
    requires filters { length site.old.app.filters ≡ (M.frame machine.old).filters }
    requires listeners { length site.old.app.listeners ≡ (M.frame machine.old).listeners }
    ensures does { Did M.state M.frame M.ran (Dispatches (site_of site.old) room (Tree (site_of site.old) room) place kind text.now)
        machine.old machine.new (seen result) }
    ensures stays { site.new ≡ site.old }
{
    let servlet = Resource::Servlet(place);
    if is_too_late(kind, machine.is_committed()) {
        return fault(alloc, machine, site, servlet, DispatchFault::Committed);
    }
    match canon(alloc, text.as_bytes()) {
        Err(CanonFault::NoMemory) => Err(NoMemory),
        Err(CanonFault::Path(_)) => fault(
            alloc,
            machine,
            site,
            servlet,
            DispatchFault::BadDispatchPath,
        ),
        Ok(canon) => {
            if room == 0 {
                return fault(alloc, machine, site, servlet, DispatchFault::DispatchLimit);
            }
            dispatch_by(alloc, machine, site, room - 1, kind, &canon)
        }
    }
}

// Returns whether the dispatch is a forward after the response was committed.
fn is_too_late(kind: Kind, committed: bool) -> bool
    ensures { result ≡ is_too_late kind committed }
{
    match kind {
        Kind::Forward => committed,
        Kind::Request => false,
        Kind::Include => false,
        Kind::Error => false,
    }
}
