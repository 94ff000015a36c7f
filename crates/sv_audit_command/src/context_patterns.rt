//! The patterns of a context: those of its constraints, and those of its servlets (Jakarta Servlet 6.0, section 12.2).

ghost use Rattle.std.specs.Prelude.{◌≡◌, ◌++◌, IfOk, OnOk, map};
ghost use Rattle.sv_audited_contexts.specs.ServletPatterns.{mapped_patterns};
ghost use Rattle.sv_constraints.specs.Covering.{all_patterns, patterns_in};
ghost use Rattle.sv_text.specs.Gives.{GivesAnswer};
ghost use Rattle.sv_audit_command.specs.ContextPatterns as spec;

use std::alloc::Global;
use sv_audit::representative_paths;
use sv_constraints::Constraint;
use sv_descriptor::ServletMapping;
use sv_mapping::{Pattern, PatternFault, PatternTable};
use sv_text::{Listed, NoMemory, Text};

/// The greatest number of patterns, of constraints and servlets together, of a context whose rows list what answers
/// them.
pub(crate) const MAX_ANSWERED_PATTERNS: usize = 500;

/// The patterns of a context, compiled for lookups.
#[derive(Drop)]
pub(crate) struct ContextPatterns {
    /// The patterns of its constraints.
    pub(crate) constraints: PatternTable,
    /// The patterns of its servlets.
    pub(crate) servlets: PatternTable,
    /// The names of the servlets, at the places of their patterns.
    pub(crate) names: Listed<Text>,
    /// Paths of which one has the same best matches as any path. There are none for more than
    /// [`MAX_ANSWERED_PATTERNS`].
    pub(crate) paths: Option<Listed<Text>>,
}

/// Compiles the patterns of constraints and of servlet mappings.
pub(crate) fn context_patterns(
    alloc: Global,
    constraints: &[Constraint],
    mappings: &[ServletMapping],
) -> Result<ContextPatterns, NoMemory>
    ensures { GivesAnswer result (spec.context_patterns constraints.now mappings.now) }
{
    let mut patterns = constrained_patterns(alloc, constraints)?;
    let constraints = PatternTable::compile(alloc, patterns.as_slice())?;
    push_mapped(&mut patterns, alloc, mappings)?;
    Ok(ContextPatterns {
        constraints,
        servlets: servlet_table(alloc, mappings)?,
        names: servlet_names(alloc, mappings)?,
        paths: paths_among(alloc, patterns.as_slice())?,
    })
}

fn servlet_table(alloc: Global, mappings: &[ServletMapping]) -> Result<PatternTable, NoMemory>
    ensures { GivesAnswer result (mapped_patterns mappings.now) }
{
    let mut patterns = Vec::new(alloc);
    push_mapped(&mut patterns, alloc, mappings)?;
    PatternTable::compile(alloc, patterns.as_slice())
}

/// Returns paths of which one has the same best matches as any path, unless there are too many patterns.
fn paths_among(alloc: Global, patterns: &[Pattern]) -> Result<Option<Listed<Text>>, NoMemory>
    ensures { GivesAnswer result (spec.paths_among patterns.now) }
{
    if patterns.len() > MAX_ANSWERED_PATTERNS {
        return Ok(None);
    }
    let paths = representative_paths(alloc, patterns)?;
    Ok(Some(Listed::from_vec(paths)))
}

/// Copies the patterns of constraints, in order and with duplicates.
fn constrained_patterns(alloc: Global, constraints: &[Constraint]) -> Result<Vec<Pattern>, NoMemory>
    ensures { IfOk result (λ patterns. patterns.items ≡ all_patterns constraints.now) }
{
    let mut patterns = Vec::new(alloc);
    for constraint in constraints {
        push_patterns_in(&mut patterns, alloc, constraint)?;
    }
    Ok(patterns)
}

fn push_patterns_in(
    patterns: &mut Vec<Pattern>,
    alloc: Global,
    constraint: &Constraint,
) -> Result<(), NoMemory>
    ensures { OnOk result (patterns.new.items ≡ patterns.old.items ++ patterns_in constraint.now) }
{
    for collection in constraint.collections.as_slice() {
        push_copies(patterns, alloc, collection.patterns.as_slice())?;
    }
    Ok(())
}

/// Appends copies of the patterns of servlet mappings, in order.
fn push_mapped(
    patterns: &mut Vec<Pattern>,
    alloc: Global,
    mappings: &[ServletMapping],
) -> Result<(), NoMemory>
    ensures { OnOk result (patterns.new.items ≡ patterns.old.items ++ mapped_patterns mappings.now) }
{
    for mapping in mappings {
        push_copies(patterns, alloc, mapping.url_patterns.as_slice())?;
    }
    Ok(())
}

fn push_copies(
    patterns: &mut Vec<Pattern>,
    alloc: Global,
    listed: &[Pattern],
) -> Result<(), NoMemory>
    ensures { OnOk result (patterns.new.items ≡ patterns.old.items ++ listed.now) }
{
    for pattern in listed {
        patterns.push(copy_of(alloc, pattern)?)?;
    }
    Ok(())
}

fn copy_of(alloc: Global, pattern: &Pattern) -> Result<Pattern, NoMemory>
    ensures { GivesAnswer result pattern.now }
{
    match Pattern::parse(alloc, pattern.text()) {
        Ok(copy) => Ok(copy),
        Err(PatternFault::BadPattern) => unreachable!(),
        Err(PatternFault::NoMemory) => Err(NoMemory),
    }
}

/// Returns the name of the servlet of each pattern of servlet mappings.
fn servlet_names(alloc: Global, mappings: &[ServletMapping]) -> Result<Listed<Text>, NoMemory>
    ensures { GivesAnswer result (spec.servlet_names mappings.now) }
{
    let mut names = Vec::new(alloc);
    for mapping in mappings {
        push_names(
            &mut names,
            alloc,
            mapping.servlet_name.as_str(),
            mapping.url_patterns.as_slice(),
        )?;
    }
    Ok(Listed::from_vec(names))
}

fn push_names(
    names: &mut Vec<Text>,
    alloc: Global,
    name: &str,
    patterns: &[Pattern],
) -> Result<(), NoMemory>
    ensures { OnOk result (names.new.items ≡ names.old.items ++ map (λ pattern. name.now) patterns.now) }
{
    for _pattern in patterns {
        names.push(Text::copy_of(alloc, name)?)?;
    }
    Ok(())
}

/// Returns the name of the servlet that answers a path within the context, if one does. Otherwise files answer it.
pub(crate) fn servlet_at(
    alloc: Global,
    patterns: &ContextPatterns,
    path: &str,
) -> Result<Option<Text>, NoMemory>
    ensures { GivesAnswer result (spec.servlet_at patterns.now path.now) }
{
    match patterns.servlets.lookup(path).best {
        Some(place) => name_at(alloc, patterns.names.as_slice(), place),
        None => Ok(None),
    }
}

fn name_at(alloc: Global, names: &[Text], place: usize) -> Result<Option<Text>, NoMemory>
    ensures { GivesAnswer result (spec.name_at names.now place) }
{
    match names.get(place) {
        Some(name) => Ok(Some(Text::copy_of(alloc, name.as_str())?)),
        None => Ok(None),
    }
}
