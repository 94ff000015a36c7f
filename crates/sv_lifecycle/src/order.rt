//! The order in which components are initialized.

ghost use Rattle.std.specs.Prelude.{◌≡◌, ◌++◌, IfOk, map};
ghost use Rattle.std.specs.List.{range_with_len};
ghost use Rattle.sv_lifecycle.specs.Order.{IsLoadOrder, init_order, rank_at, rank_of};
ghost use Rattle.sv_journal.specs.declared.calls.Place.TheVariants as places;

use std::alloc::Global;
use sv_descriptor::{ServletEntry, WebApp};
use sv_live::Place;
use sv_text::NoMemory;

/// The rank of a servlet without a number for load-on-startup, or with a negative one. It exceeds every signed 32-bit
/// number.
pub const LAST: u32 = 2147483648;

/// Returns the filters in descriptor order, followed by the servlets in load-on-startup order.
pub(crate) fn in_init_order(
    alloc: Global,
    app: &WebApp,
    order: &[usize],
) -> Result<Vec<Place>, NoMemory>
    ensures { IfOk result (λ all. all.items ≡ init_order app.now order.now) }
{
    let filters = app.filters.as_slice().len();
    let mut all = Vec::new(alloc);
    for place in 0..filters {
        all.push(Place::Filter(place))?;
    }
    add_servlets(&mut all, order)?;
    Ok(all)
}

fn add_servlets(all: &mut Vec<Place>, order: &[usize]) -> Result<(), NoMemory>
    ensures { IfOk result (λ _. all.new.items ≡ all.old.items ++ map places.Servlet order.now) }
{
    for place in order {
        all.push(Place::Servlet(*place))?;
    }
    Ok(())
}

/// Returns the indexes of the servlets in load-on-startup order.
pub(crate) fn load_order(alloc: Global, servlets: &[ServletEntry]) -> Result<Vec<usize>, NoMemory>
    ensures { IfOk result (λ order. IsLoadOrder servlets.now order.items) }
{
    let mut order = all_places(alloc, servlets.len())?;
    order.sort_by_key(|place| rank_at(servlets, *place))?;
    Ok(order)
}

fn all_places(alloc: Global, count: usize) -> Result<Vec<usize>, NoMemory>
    ensures { IfOk result (λ all. all.items ≡ range_with_len 0 count) }
{
    let mut all = Vec::with_capacity(alloc, count)?;
    for place in 0..count {
        all.push(place)?;
    }
    Ok(all)
}

fn rank_at(servlets: &[ServletEntry], place: usize) -> u32
    ensures { result ≡ rank_at servlets.now place }
{
    match servlets.get(place) {
        Some(servlet) => rank_of(servlet.load_on_startup),
        None => LAST,
    }
}

fn rank_of(load_on_startup: Option<i32>) -> u32
    ensures { result ≡ rank_of load_on_startup }
{
    match load_on_startup {
        Some(number) if number >= 0 => number as u32,
        _ => LAST,
    }
}
