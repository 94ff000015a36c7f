//! The patterns of a descriptor's servlet mappings, and the indices of their servlets.

ghost use Rattle.std.specs.Prelude.{◌≡◌, ◌++◌, IfOk, OnOk, map, position};
ghost use Rattle.std.specs.List.{flat_map};
ghost use Rattle.std.specs.Str.{bytes_eq};
ghost use Rattle.sv_text.specs.Gives.{GivesAnswer};
ghost use Rattle.sv_tree.specs.ServletMappings as spec;

use std::alloc::Global;
use sv_descriptor::{ServletEntry, ServletMapping};
use sv_mapping::{Pattern, PatternFault};
use sv_text::NoMemory;

/// Copies the patterns of all mappings.
pub(crate) fn copied_patterns(
    alloc: Global,
    mappings: &[ServletMapping],
) -> Result<Vec<Pattern>, NoMemory>
    ensures { IfOk result (λ patterns. patterns.items ≡ flat_map (λ mapping. mapping.url_patterns) mappings.now) }
{
    let mut patterns = Vec::new(alloc);
    for mapping in mappings {
        push_copies(alloc, &mut patterns, mapping.url_patterns.as_slice())?;
    }
    Ok(patterns)
}

fn push_copies(
    alloc: Global,
    patterns: &mut Vec<Pattern>,
    listed: &[Pattern],
) -> Result<(), NoMemory>
    ensures { OnOk result (patterns.new.items ≡ patterns.old.items ++ listed.now) }
{
    for pattern in listed {
        patterns.push(copy_of(alloc, pattern)?)?;
    }
    Ok(())
}

fn copy_of(alloc: Global, pattern: &Pattern) -> Result<Pattern, NoMemory>
    ensures { GivesAnswer result pattern.now }
{
    match Pattern::parse(alloc, pattern.text()) {
        Ok(copy) => Ok(copy),
        Err(PatternFault::BadPattern) => unreachable!(),
        Err(PatternFault::NoMemory) => Err(NoMemory),
    }
}

/// Returns the index of the servlet for each pattern of all mappings.
pub(crate) fn servlet_places(
    alloc: Global,
    servlets: &[ServletEntry],
    mappings: &[ServletMapping],
) -> Result<Vec<usize>, NoMemory>
    ensures { IfOk result (λ places. places.items ≡ flat_map (spec.places_beside servlets.now) mappings.now) }
{
    let mut places = Vec::new(alloc);
    for mapping in mappings {
        let place = servlet_place(servlets, mapping.servlet_name.as_str());
        push_place_beside(&mut places, place, mapping.url_patterns.as_slice())?;
    }
    Ok(places)
}

fn push_place_beside(
    places: &mut Vec<usize>,
    place: usize,
    patterns: &[Pattern],
) -> Result<(), NoMemory>
    ensures { OnOk result (places.new.items ≡ places.old.items ++ map (λ pattern. place) patterns.now) }
{
    for _pattern in patterns {
        places.push(place)?;
    }
    Ok(())
}

fn servlet_place(servlets: &[ServletEntry], name: &str) -> usize
    ensures { result ≡ spec.servlet_place servlets.now name.now }
{
    match declared_place(servlets, name) {
        Some(place) => place,
        None => servlets.len(),
    }
}

fn declared_place(servlets: &[ServletEntry], name: &str) -> Option<usize>
    ensures { result ≡ position (λ servlet. bytes_eq servlet.servlet_name name.now) servlets.now }
{
    servlets
        .iter()
        .position(|servlet| servlet.servlet_name.as_str() == name)
}
