//! The constraints that cover a method at a pattern, or the methods that no constraint names there.

ghost use Rattle.std.specs.Prelude.{◌≡◌, ◌++◌, map, OnOk, IfOk};
ghost use Rattle.std.specs.Option.{option_copied};
ghost use Rattle.sv_policy.specs.Covering.{collection_covers_unnamed, covers_at, covers_unnamed, listed_methods, method_names, named_methods};

use crate::patterns::lists_pattern;
use std::alloc::Global;
use sv_constraints::{Collection, Constraint, Methods, covers};
use sv_text::{NoMemory, Text};

/// Returns whether a collection covers the methods that no constraint names at the pattern.
fn collection_covers_unnamed(collection: &Collection, pattern: &str) -> bool
    ensures { result ≡ collection_covers_unnamed collection.now pattern.now }
{
    lists_pattern(collection.patterns.as_slice(), pattern)
        && !matches!(collection.methods, Methods::Only(_))
}

/// Returns whether a constraint covers the methods that no constraint names at the pattern.
fn covers_unnamed(constraint: &Constraint, pattern: &str) -> bool
    ensures { result ≡ covers_unnamed constraint.now pattern.now }
{
    constraint.collections.as_slice().iter().any(|collection| collection_covers_unnamed(
        collection, pattern,
    ))
}

/// Returns whether a constraint covers the method at the pattern or, without a method, the methods that no constraint
/// names there.
pub fn covers_at(constraint: &Constraint, pattern: &str, method: Option<&str>) -> bool
    ensures { result ≡ covers_at constraint.now pattern.now (option_copied method.entry) }
{
    match method {
        Some(method) => covers(constraint, pattern, method),
        None => covers_unnamed(constraint, pattern),
    }
}

/// Returns the methods that constraints name at the pattern, in order and with duplicates.
///
/// # Errors
/// `NoMemory` if memory runs out.
pub fn named_methods<'a>(
    alloc: Global,
    members: &[&'a Constraint],
    pattern: &str,
) -> Result<Vec<&'a str>, NoMemory>
    ensures { IfOk result (λ names. map (λ name. name.now) names.items ≡ named_methods (map (λ member. member.now) members.now) pattern.now) }
{
    let mut names = Vec::new(alloc);
    for member in members {
        push_listed(&mut names, member.collections.as_slice(), pattern)?;
    }
    Ok(names)
}

fn push_listed<'a>(
    names: &mut Vec<&'a str>,
    collections: &'a [Collection],
    pattern: &str,
) -> Result<(), NoMemory>
    ensures { OnOk result (map (λ name. name.now) names.new.items ≡ map (λ name. name.now) names.old.items ++ listed_methods collections.now pattern.now) }
{
    for collection in collections {
        if lists_pattern(collection.patterns.as_slice(), pattern) {
            push_names(names, &collection.methods)?;
        }
    }
    Ok(())
}

fn push_names<'a>(names: &mut Vec<&'a str>, methods: &'a Methods) -> Result<(), NoMemory>
    ensures { OnOk result (map (λ name. name.now) names.new.items ≡ map (λ name. name.now) names.old.items ++ method_names methods.now) }
{
    match methods {
        Methods::All => Ok(()),
        Methods::Only(listed) => push_texts(names, listed.as_slice()),
        Methods::Except(listed) => push_texts(names, listed.as_slice()),
    }
}

/// Appends texts.
///
/// # Errors
/// `NoMemory` if memory runs out. Some texts may have been appended.
pub fn push_texts<'a>(names: &mut Vec<&'a str>, texts: &'a [Text]) -> Result<(), NoMemory>
    ensures { OnOk result (map (λ name. name.now) names.new.items ≡ map (λ name. name.now) names.old.items ++ texts.now) }
{
    for text in texts {
        names.push(text.as_str())?;
    }
    Ok(())
}
