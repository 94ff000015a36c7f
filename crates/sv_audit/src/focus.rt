//! Constraints as they are at one pattern, without all that does not concern it.

ghost use Rattle.std.specs.Prelude.{◌≡◌, ◌++◌, ◌∷◌, [], IfOk, OnOk, filter, if◌then◌else◌, map};
ghost use Rattle.std.specs.Str.{bytes_eq};
ghost use Rattle.sv_constraints.specs.Covering.{lists};
ghost use Rattle.sv_text.specs.Gives.{GivesAnswer};
ghost use Rattle.sv_audit.specs.Focus.{focused, focused_collection, focused_collections};

use std::alloc::Global;
use sv_constraints::{Auth, Collection, Constraint};
use sv_mapping::{Pattern, PatternFault};
use sv_policy::copied_methods;
use sv_text::{Listed, NoMemory, copied_texts};

/// Copies constraints without the collections that do not list the pattern, and without all other patterns of those
/// that do. They cover the same methods at the pattern (Jakarta Servlet 6.0, section 13.8.3), and are found to do so
/// without a search through the other patterns.
///
/// # Errors
/// `NoMemory` if memory runs out.
pub fn focused(
    alloc: Global,
    pattern: &str,
    members: &[&Constraint],
) -> Result<Vec<Constraint>, NoMemory>
    ensures { IfOk result (λ copies. copies.items ≡ map (focused pattern.now) (map (λ member. member.now) members.now)) }
{
    let mut copies = Vec::with_capacity(alloc, members.len())?;
    for member in members {
        copies.push(focused_constraint(alloc, pattern, member)?)?;
    }
    Ok(copies)
}

fn focused_constraint(
    alloc: Global,
    pattern: &str,
    member: &Constraint,
) -> Result<Constraint, NoMemory>
    ensures { GivesAnswer result (focused pattern.now member.now) }
{
    Ok(Constraint {
        number: member.number,
        collections: focused_collections(alloc, pattern, member.collections.as_slice())?,
        auth: copied_auth(alloc, &member.auth)?,
        transport: member.transport,
    })
}

fn focused_collections(
    alloc: Global,
    pattern: &str,
    collections: &[Collection],
) -> Result<Listed<Collection>, NoMemory>
    ensures { GivesAnswer result (focused_collections pattern.now collections.now) }
{
    let mut copies = Vec::new(alloc);
    for collection in collections {
        push_focused(&mut copies, alloc, pattern, collection)?;
    }
    Ok(Listed::from_vec(copies))
}

/// Appends a collection without its other patterns, if it lists the pattern.
fn push_focused(
    copies: &mut Vec<Collection>,
    alloc: Global,
    pattern: &str,
    collection: &Collection,
) -> Result<(), NoMemory>
    ensures { OnOk result (copies.new.items ≡ copies.old.items ++ (if lists collection.now.patterns pattern.now then focused_collection pattern.now collection.now ∷ [] else [])) }
{
    let patterns = equal_patterns(alloc, pattern, collection.patterns.as_slice())?;
    if patterns.is_empty() {
        return Ok(());
    }
    copies.push(Collection {
        patterns: Listed::from_vec(patterns),
        methods: copied_methods(alloc, &collection.methods)?,
    })?;
    Ok(())
}

/// Copies the patterns with this text.
fn equal_patterns(alloc: Global, text: &str, patterns: &[Pattern]) -> Result<Vec<Pattern>, NoMemory>
    ensures { IfOk result (λ copies. copies.items ≡ filter (λ pattern. bytes_eq pattern text.now) patterns.now) }
{
    let mut copies = Vec::new(alloc);
    for pattern in patterns {
        if pattern.text() == text {
            copies.push(copied_pattern(alloc, pattern)?)?;
        }
    }
    Ok(copies)
}

fn copied_pattern(alloc: Global, pattern: &Pattern) -> Result<Pattern, NoMemory>
    ensures { GivesAnswer result pattern.now }
{
    match Pattern::parse(alloc, pattern.text()) {
        Ok(copy) => Ok(copy),
        Err(PatternFault::BadPattern) => unreachable!(),
        Err(PatternFault::NoMemory) => Err(NoMemory),
    }
}

fn copied_auth(alloc: Global, auth: &Auth) -> Result<Auth, NoMemory>
    ensures { GivesAnswer result auth.now }
{
    match auth {
        Auth::Absent => Ok(Auth::Absent),
        Auth::Roles(names) => Ok(Auth::Roles(copied_texts(alloc, names.as_slice())?)),
    }
}
