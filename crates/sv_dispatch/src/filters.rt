//! Calls of filters, before and after the rest of a dispatch.

ghost use Rattle.std.specs.Prelude.{◌≡◌, ◌≤◌, ◌<◌, IfOk, drop, length, reverse, take};
ghost use Rattle.std.specs.List.{All};
ghost use Rattle.sv_dispatch.specs.Did.{Did, reached_by, seen};
ghost use Rattle.sv_dispatch.specs.Seen.{closes};
ghost use Rattle.sv_tree.specs.Filters.{Afters, Befores};
ghost use Rattle.sv_tree.specs.SiteOfDescriptor.{site_of};

use crate::endings::{fail, fault};
use crate::machine::Machine;
use std::alloc::Global;
use sv_component::Gate;
use sv_text::NoMemory;
use sv_tree::{DispatchFault, Finished, Resource, Site};

/// The number of filters of a chain that passed, and the end of the dispatch if one did not.
#[derive(Drop)]
pub(crate) struct Passed {
    pub count: usize,
    pub ended: Option<Finished>,
}

/// Calls the filters of a chain from an index on, up to the first that does not pass (Jakarta Servlet 6.0, section
/// 6.2.1).
#[inline(always)]
pub(crate) fn befores<M: Machine>(
    alloc: Global,
    machine: &mut M,
    site: &Site,
    resource: Resource,
    chain: &[usize],
    place: usize,
) -> Result<Passed, NoMemory>
    requires within { place ≤ length chain.now }
    requires there { All (λ filter. filter < (M.frame machine.old).filters) chain.now }
    requires listeners { length site.now.app.listeners ≡ (M.frame machine.old).listeners }
    ensures does { Did M.state M.frame M.ran (Befores (site_of site.now) resource (reverse (take place chain.now)) (drop place chain.now))
        machine.old machine.new (reached_by chain.now result) }
    ensures count { IfOk result (λ passed. passed.count ≤ length chain.now) }
{
    if place == chain.len() {
        return Ok(Passed {
            count: place,
            ended: None,
        });
    }
    if machine.is_full() {
        let Ok(ended) = fault(alloc, machine, site, resource, DispatchFault::DispatchLimit) else {
            return Err(NoMemory);
        };
        return Ok(Passed {
            count: place,
            ended: Some(ended),
        });
    }
    machine.count();
    let Ok(gate) = machine.before(chain[place]) else {
        return Err(NoMemory);
    };
    match gate {
        Gate::Pass => befores(alloc, machine, site, resource, chain, place + 1),
        Gate::Stop => Ok(Passed {
            count: place,
            ended: Some(Finished::Done),
        }),
        Gate::Failed(kind, text) => {
            let Ok(ended) = fail(machine, site, resource, kind, text) else {
                return Err(NoMemory);
            };
            Ok(Passed {
                count: place,
                ended: Some(ended),
            })
        }
        Gate::NoMemory => Err(NoMemory),
    }
}

/// Calls the first `count` filters of a chain once more, in reverse order, and returns the end of the dispatch.
#[inline(always)]
pub(crate) fn leave_filters<M: Machine>(
    machine: &mut M,
    chain: &[usize],
    count: usize,
    finished: Finished,
) -> Result<Finished, NoMemory>
    requires within { count ≤ length chain.now }
    requires there { All (λ filter. filter < (M.frame machine.old).filters) chain.now }
    ensures { Did M.state M.frame M.ran (closes (M.frame machine.old).listeners (reverse (take count chain.now)) finished) machine.old machine.new (seen result) }
{
    let Ok(()) = afters(machine, chain, count) else {
        return Err(NoMemory);
    };
    Ok(finished)
}

// Calls the first `count` filters of a chain once more, in reverse order.
#[inline(always)]
fn afters<M: Machine>(machine: &mut M, chain: &[usize], count: usize) -> Result<(), NoMemory>
    requires within { count ≤ length chain.now }
    requires there { All (λ filter. filter < (M.frame machine.old).filters) chain.now }
    ensures { Did M.state M.frame M.ran (Afters (M.frame machine.old).listeners (reverse (take count chain.now))) machine.old machine.new (seen result) }
{
    if count == 0 {
        return Ok(());
    }
    let Ok(done) = machine.after(chain[count - 1]) else {
        return Err(NoMemory);
    };
    if !done {
        return Err(NoMemory);
    }
    afters(machine, chain, count - 1)
}
