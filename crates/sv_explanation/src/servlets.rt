//! The servlet that takes a path.

ghost use Rattle.std.specs.Prelude.{◌≡◌, ◌++◌, IfOk, OnOk, find, is_none};
ghost use Rattle.std.specs.Option.{option_copied};
ghost use Rattle.sv_constraints.specs.Covering.{lists};
ghost use Rattle.sv_mapping.specs.BestMatch.{best_pattern};
ghost use Rattle.sv_text.specs.Gives.{GivesAnswer};
ghost use Rattle.sv_explanation.specs.Servlets as spec;

use crate::listing::lists_pattern;
use crate::responder::MatchedServlet;
use std::alloc::Global;
use sv_descriptor::ServletMapping;
use sv_mapping::{Pattern, PatternFault, better};
use sv_text::{NoMemory, Text};

/// Returns the servlet with the best match of a path, or none if files answer it.
pub fn servlet_at(
    alloc: Global,
    mappings: &[ServletMapping],
    path: &str,
) -> Result<Option<MatchedServlet>, NoMemory>
    ensures { GivesAnswer result (spec.servlet_at mappings.now path.now) }
{
    match best_of(mappings, path) {
        Some(pattern) => servlet_with(alloc, mappings, pattern.text()),
        None => Ok(None),
    }
}

/// Returns whether no servlet takes a path.
pub fn is_unmapped(mappings: &[ServletMapping], path: &str) -> bool
    ensures { result ≡ is_none (spec.servlet_at mappings.now path.now) }
{
    match best_of(mappings, path) {
        Some(pattern) => mapping_with(mappings, pattern.text()).is_none(),
        None => true,
    }
}

/// Returns copies of the patterns of servlet mappings.
pub fn mapped_patterns(alloc: Global, mappings: &[ServletMapping]) -> Result<Vec<Pattern>, NoMemory>
    ensures { IfOk result (λ patterns. patterns.items ≡ spec.mapped_patterns mappings.now) }
{
    let mut patterns = Vec::new(alloc);
    for mapping in mappings {
        push_patterns(&mut patterns, alloc, mapping.url_patterns.as_slice())?;
    }
    Ok(patterns)
}

fn push_patterns(
    patterns: &mut Vec<Pattern>,
    alloc: Global,
    listed: &[Pattern],
) -> Result<(), NoMemory>
    ensures { OnOk result (patterns.new.items ≡ patterns.old.items ++ listed.now) }
{
    for pattern in listed {
        patterns.push(copy_of(alloc, pattern)?)?;
    }
    Ok(())
}

fn copy_of(alloc: Global, pattern: &Pattern) -> Result<Pattern, NoMemory>
    ensures { GivesAnswer result pattern.now }
{
    match Pattern::parse(alloc, pattern.text()) {
        Ok(copy) => Ok(copy),
        Err(PatternFault::BadPattern) => unreachable!(),
        Err(PatternFault::NoMemory) => Err(NoMemory),
    }
}

/// Returns the best pattern for the path.
fn best_of<'a>(mappings: &'a [ServletMapping], path: &str) -> Option<&'a Pattern>
    ensures { option_copied result ≡ best_pattern (spec.mapped_patterns mappings.now) path.now }
{
    let mut best = None;
    for mapping in mappings {
        best = better(best, mapping.url_patterns.as_slice(), path);
    }
    best
}

/// Returns the servlet whose mapping lists the pattern.
fn servlet_with(
    alloc: Global,
    mappings: &[ServletMapping],
    pattern: &str,
) -> Result<Option<MatchedServlet>, NoMemory>
    ensures { GivesAnswer result (spec.servlet_with mappings.now pattern.now) }
{
    match mapping_with(mappings, pattern) {
        None => Ok(None),
        Some(mapping) => Ok(Some(MatchedServlet {
            name: Text::copy_of(alloc, mapping.servlet_name.as_str())?,
            pattern: Text::copy_of(alloc, pattern)?,
        })),
    }
}

fn mapping_with<'a>(mappings: &'a [ServletMapping], pattern: &str) -> Option<&'a ServletMapping>
    ensures { option_copied result ≡ find (λ mapping. lists mapping.url_patterns pattern.now) mappings.now }
{
    mappings.iter().find(|mapping| lists_pattern(mapping.url_patterns.as_slice(), pattern))
}
