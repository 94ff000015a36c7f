//! The chain of filters of a dispatch.

ghost use Rattle.std.specs.List.{All};
ghost use Rattle.std.specs.Option.{option_to_list};
ghost use Rattle.std.specs.Prelude.{IfOk, OnOk, length, ◌++◌, ◌<◌, ◌≡◌};
ghost use Rattle.sv_chain.specs.FilterChain as spec;
ghost use Rattle.sv_chain.specs.FilterChain.{without_doubles};

use crate::mapping::{maps_path, maps_servlet};
use std::alloc::Global;
use sv_descriptor::{Descriptor, FilterEntry, FilterMapping, Kind};
use sv_text::NoMemory;

/// Returns the filters that a dispatch passes, as indices into the descriptor's list of filters (Jakarta Servlet 6.0,
/// section 6.2.4). Filters with a mapping whose pattern matches the path come first, then those with a mapping that
/// names the servlet, each in the order of the mappings. A filter that matches twice appears once, at its first
/// position. Only mappings for the kind of the dispatch count; a mapping that names no kind is only for requests.
///
/// The path is the target of the dispatch within the context, and may be any text. The servlet is the one that serves
/// it, or `default` for the file servlet. The name `*` in a mapping means every servlet.
///
/// # Errors
/// `NoMemory` if an allocation fails.
pub fn chain_plain(
    alloc: Global,
    descriptor: &Descriptor,
    path: &str,
    servlet: &str,
    kind: Kind,
) -> Result<Vec<usize>, NoMemory>
    ensures chain { IfOk result (λ chain. chain.items ≡ spec.filter_chain descriptor.now path.now servlet.now kind) }
    ensures places { IfOk result (λ chain. All (λ place. place < length descriptor.now.filters) chain.items) }
{
    let app = descriptor.web_app();
    let mut places = Vec::new(alloc);
    let (filters, mappings) = (app.filters.as_slice(), app.filter_mappings.as_slice());
    push_by_path(&mut places, filters, mappings, path, kind)?;
    push_by_servlet(&mut places, filters, mappings, servlet, kind)?;
    without_doubles(alloc, places.as_slice())
}

fn push_by_path(
    places: &mut Vec<usize>,
    filters: &[FilterEntry],
    mappings: &[FilterMapping],
    path: &str,
    kind: Kind,
) -> Result<(), NoMemory>
    ensures { OnOk result (places.new.items ≡ places.old.items ++ spec.filters_of filters.now (spec.maps_path kind path.now) mappings.now) }
{
    for mapping in mappings {
        if maps_path(mapping, kind, path) {
            push_filter(places, filters, mapping.filter_name.as_str())?;
        }
    }
    Ok(())
}

fn push_by_servlet(
    places: &mut Vec<usize>,
    filters: &[FilterEntry],
    mappings: &[FilterMapping],
    servlet: &str,
    kind: Kind,
) -> Result<(), NoMemory>
    ensures { OnOk result (places.new.items ≡ places.old.items ++ spec.filters_of filters.now (spec.maps_servlet kind servlet.now) mappings.now) }
{
    for mapping in mappings {
        if maps_servlet(mapping, kind, servlet) {
            push_filter(places, filters, mapping.filter_name.as_str())?;
        }
    }
    Ok(())
}

fn push_filter(places: &mut Vec<usize>, filters: &[FilterEntry], name: &str) -> Result<(), NoMemory>
    ensures { OnOk result (places.new.items ≡ places.old.items ++ option_to_list (spec.filter_place filters.now name.now)) }
{
    if let Some(place) = filter_place(filters, name) {
        places.push(place)?;
    }
    Ok(())
}

fn filter_place(filters: &[FilterEntry], name: &str) -> Option<usize>
    ensures { result ≡ spec.filter_place filters.now name.now }
{
    filters
        .iter()
        .position(|entry| entry.filter_name.as_str() == name)
}

/// Returns the distinct indices, in the order of their first occurrences.
pub(crate) fn without_doubles(alloc: Global, places: &[usize]) -> Result<Vec<usize>, NoMemory>
    ensures { IfOk result (λ chain. chain.items ≡ without_doubles places.now) }
{
    let mut chain = Vec::with_capacity(alloc, places.len())?;
    for place in places {
        if !chain.as_slice().contains(place) {
            chain.push(*place)?;
        }
    }
    Ok(chain)
}
