//! Constraints, rules and callers, as the rows write them.

use std::alloc::Global;
use sv_constraints::{Auth, Collection, Constraint, Methods, Rules, Transport};
use sv_mapping::Pattern;
use sv_policy::Policy;
use sv_realm::Caller;
use sv_text::{Listed, NoMemory, Text};

/// Returns the policy compiled from the constraints and the rules of these cells.
pub fn policy_of(alloc: Global, constraints: &str, rules: &str) -> Result<Policy, NoMemory> {
    let constraints = constraints_of(alloc, constraints)?;
    Policy::compile(alloc, constraints, rules_of(alloc, rules)?)
}

/// Returns the constraints of a cell. Those without a number get their place in the list, from 1.
///
/// A constraint is `[NUMBER: ]WHO[ over TRANSPORT] on COLLECTION[ and COLLECTION]`. WHO is `open` (no auth-constraint),
/// `nobody` (one that names no roles) or role names. TRANSPORT is `none`, `integral` or `confidential`. A collection is
/// patterns and then methods: none for all, names, or `!` and omitted names.
fn constraints_of(alloc: Global, cell: &str) -> Result<Vec<Constraint>, NoMemory> {
    let mut constraints = Vec::new(alloc);
    if cell.is_empty() {
        return Ok(constraints);
    }
    for (place, text) in cell.split("; ").enumerate() {
        constraints.push(constraint_of(alloc, place, text)?)?;
    }
    Ok(constraints)
}

/// Returns the constraint of a text. If it has no number, its number is `place` + 1.
pub fn constraint_of(alloc: Global, place: usize, text: &str) -> Result<Constraint, NoMemory> {
    let (number, text) = text.split_once(": ").unwrap_or(("", text));
    let (who, coverage) = text.split_once(" on ").unwrap_or((text, ""));
    let (who, guarantee) = who.split_once(" over ").unwrap_or((who, ""));
    Ok(Constraint {
        number: number
            .parse::<u64>()
            .unwrap_or((place as u64).saturating_add(1)),
        collections: collections_of(alloc, coverage)?,
        auth: auth_of(alloc, who)?,
        transport: transport_of(guarantee),
    })
}

fn collections_of(alloc: Global, coverage: &str) -> Result<Listed<Collection>, NoMemory> {
    let mut collections = Vec::new(alloc);
    for collection in coverage.split(" and ") {
        let (patterns, methods) = collection.split_once(' ').unwrap_or((collection, ""));
        collections.push(Collection {
            patterns: Listed::from_vec(patterns_of(alloc, patterns, ',')?),
            methods: methods_of(alloc, methods)?,
        })?;
    }
    Ok(Listed::from_vec(collections))
}

/// Returns the patterns of a list; `""` is the empty one. A text that is no pattern ends the test.
pub fn patterns_of(alloc: Global, list: &str, between: char) -> Result<Vec<Pattern>, NoMemory> {
    let mut patterns = Vec::new(alloc);
    for name in list.split(between) {
        let text = if name == "\"\"" { "" } else { name };
        let Ok(pattern) = Pattern::parse(alloc, text) else {
            return Err(NoMemory);
        };
        patterns.push(pattern)?;
    }
    Ok(patterns)
}

fn methods_of(alloc: Global, text: &str) -> Result<Methods, NoMemory> {
    if text.is_empty() {
        return Ok(Methods::All);
    }
    match text.strip_prefix('!') {
        Some(omitted) => Ok(Methods::Except(texts_of(alloc, omitted)?)),
        None => Ok(Methods::Only(texts_of(alloc, text)?)),
    }
}

fn auth_of(alloc: Global, who: &str) -> Result<Auth, NoMemory> {
    match who {
        "open" => Ok(Auth::Absent),
        "nobody" => Ok(Auth::Roles(texts_of(alloc, "")?)),
        roles => Ok(Auth::Roles(texts_of(alloc, roles)?)),
    }
}

fn transport_of(guarantee: &str) -> Transport {
    match guarantee {
        "none" => Transport::Plain,
        "integral" => Transport::Integral,
        "confidential" => Transport::Confidential,
        _ => Transport::Absent,
    }
}

fn rules_of(alloc: Global, cell: &str) -> Result<Rules, NoMemory> {
    Ok(Rules {
        declared: texts_of(alloc, cell.strip_prefix("roles ").unwrap_or(""))?,
        deny_uncovered: cell == "deny",
    })
}

/// Returns the caller of a cell, `caller` and roles, or none for any other text.
pub fn caller_of(alloc: Global, cell: &str) -> Result<Option<Caller>, NoMemory> {
    let Some(roles) = cell.strip_prefix("caller") else {
        return Ok(None);
    };
    Ok(Some(Caller {
        number: 0,
        name: Text::copy_of(alloc, "ann")?,
        roles: texts_of(alloc, roles.trim())?,
    }))
}

/// Returns the texts between commas.
pub fn texts_of(alloc: Global, list: &str) -> Result<Listed<Text>, NoMemory> {
    let mut texts = Vec::new(alloc);
    if list.is_empty() {
        return Ok(Listed::from_vec(texts));
    }
    for text in list.split(',') {
        texts.push(Text::copy_of(alloc, text)?)?;
    }
    Ok(Listed::from_vec(texts))
}
