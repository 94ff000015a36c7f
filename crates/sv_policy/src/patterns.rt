//! The patterns of constraints.

ghost use Rattle.std.specs.Prelude.{◌≡◌, map, fold, IfOk, OnOk};
ghost use Rattle.std.specs.List.{list_any};
ghost use Rattle.std.specs.Str.{bytes_eq};
ghost use Rattle.sv_constraints.specs.Covering.{lists};
ghost use Rattle.sv_policy.specs.Patterns.{different, kept_once, listed_in, lists_pattern};
ghost use Rattle.sv_text.specs.Gives.{GivesAnswer};

use std::alloc::Global;
use sv_constraints::{Collection, Constraint};
use sv_mapping::{Pattern, PatternFault};
use sv_text::NoMemory;

/// Copies a pattern.
pub fn copied(alloc: Global, pattern: &Pattern) -> Result<Pattern, NoMemory>
    ensures { GivesAnswer result pattern.now }
{
    match Pattern::parse(alloc, pattern.text()) {
        Ok(copy) => Ok(copy),
        Err(PatternFault::NoMemory) => Err(NoMemory),
        Err(PatternFault::BadPattern) => unreachable!(),
    }
}

/// Returns whether a pattern with this text is among the patterns.
pub fn lists_pattern(patterns: &[Pattern], text: &str) -> bool
    ensures { result ≡ lists patterns.now text.now }
{
    patterns.iter().any(|listed| listed.text() == text)
}

/// Returns whether a pattern with this text is among borrowed patterns.
pub fn is_among(patterns: &[&Pattern], text: &str) -> bool
    ensures { result ≡ list_any (λ pattern. bytes_eq pattern.now text.now) patterns.now }
{
    patterns.iter().any(|other| other.text() == text)
}

/// Returns whether a constraint lists a pattern with this text.
pub fn is_listed(constraint: &Constraint, text: &str) -> bool
    ensures { result ≡ lists_pattern constraint.now text.now }
{
    constraint.collections.as_slice().iter().any(|collection| lists_pattern(
        collection.patterns.as_slice(),
        text,
    ))
}

/// Returns the patterns of collections, each text once.
pub fn patterns_of(alloc: Global, collections: &[Collection]) -> Result<Vec<&Pattern>, NoMemory>
    ensures { IfOk result (λ patterns. map (λ pattern. pattern.now) patterns.items ≡ different (listed_in collections.now)) }
{
    let mut patterns = Vec::new(alloc);
    keep_listed(&mut patterns, collections)?;
    Ok(patterns)
}

fn keep_listed<'a>(
    kept: &mut Vec<&'a Pattern>,
    collections: &'a [Collection],
) -> Result<(), NoMemory>
    ensures { OnOk result (map (λ pattern. pattern.now) kept.new.items ≡
        fold kept_once (map (λ pattern. pattern.now) kept.old.items) (listed_in collections.now)) }
{
    for collection in collections {
        keep_all(kept, collection.patterns.as_slice())?;
    }
    Ok(())
}

fn keep_all<'a>(kept: &mut Vec<&'a Pattern>, patterns: &'a [Pattern]) -> Result<(), NoMemory>
    ensures { OnOk result (map (λ pattern. pattern.now) kept.new.items ≡
        fold kept_once (map (λ pattern. pattern.now) kept.old.items) patterns.now) }
{
    for pattern in patterns {
        if !is_among(kept.as_slice(), pattern.text()) {
            kept.push(pattern)?;
        }
    }
    Ok(())
}
