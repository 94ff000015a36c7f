//! The comparison of the contexts of two servers.

ghost use Rattle.std.specs.Prelude.{◌≡◌, ◌++◌, IfOk, OnOk, filter, find, is_none, map};
ghost use Rattle.std.specs.Option.{option_copied, option_map};
ghost use Rattle.std.specs.Str.{bytes_eq};
ghost use Rattle.sv_text.specs.Gives.{GivesAnswer};
ghost use Rattle.sv_difference.specs.Differences.{of_kind};
ghost use Rattle.sv_audit.specs.declared.visitors.DifferenceKind.TheVariants.{Opened};
ghost use Rattle.sv_difference.specs.ServerDifference as spec;

use crate::contexts::{ComparedContext, ContextDifference, ContextSide, ServerDifference};
use crate::difference::{Difference, Side};
use crate::meetings::patterns_of;
use crate::row_differences::differences;
use crate::shown_paths::shown_paths;
use std::alloc::Global;
use sv_audit::{DifferenceKind, table_of};
use sv_text::{Listed, NoMemory, Text};

/// Returns what two configurations of a server decide differently, by their contexts. Contexts with the same path are
/// compared; a context that only one server has differs as a whole.
///
/// # Errors
/// `NoMemory` if memory runs out.
pub fn server_difference(
    alloc: Global,
    befores: &[ComparedContext],
    afters: &[ComparedContext],
) -> Result<ServerDifference, NoMemory>
    ensures { GivesAnswer result (spec.server_difference befores.now afters.now) }
{
    let mut contexts = Vec::new(alloc);
    push_all(&mut contexts, alloc, befores, afters)?;
    push_added(&mut contexts, alloc, befores, afters)?;
    let opened = opened_in(alloc, contexts.as_slice())?.len();
    Ok(ServerDifference {
        contexts: Listed::from_vec(contexts),
        opened,
    })
}

/// Appends what differs at each context path of the first server.
fn push_all(
    found: &mut Vec<ContextDifference>,
    alloc: Global,
    befores: &[ComparedContext],
    afters: &[ComparedContext],
) -> Result<(), NoMemory>
    ensures { OnOk result (found.new.items ≡ found.old.items ++ map (spec.difference_at befores.now afters.now) (spec.paths_of befores.now)) }
{
    for context in befores {
        found.push(difference_at(alloc, befores, afters, context.path.as_str())?)?;
    }
    Ok(())
}

/// Appends what differs at each context path that only the second server has.
fn push_added(
    found: &mut Vec<ContextDifference>,
    alloc: Global,
    befores: &[ComparedContext],
    afters: &[ComparedContext],
) -> Result<(), NoMemory>
    ensures { OnOk result (found.new.items ≡ found.old.items ++ map (spec.difference_at befores.now afters.now) (filter (λ path. is_none (spec.context_at befores.now path)) (spec.paths_of afters.now))) }
{
    for context in afters {
        if context_at(befores, context.path.as_str()).is_none() {
            found.push(difference_at(alloc, befores, afters, context.path.as_str())?)?;
        }
    }
    Ok(())
}

/// Returns the context with the path, if there is one.
fn context_at<'a>(contexts: &'a [ComparedContext], path: &str) -> Option<&'a ComparedContext>
    ensures { option_copied result ≡ spec.context_at contexts.now path.now }
{
    contexts
        .iter()
        .find(|context| context.path.as_str() == path)
}

/// Returns what differs at a context path.
fn difference_at(
    alloc: Global,
    befores: &[ComparedContext],
    afters: &[ComparedContext],
    path: &str,
) -> Result<ContextDifference, NoMemory>
    ensures { GivesAnswer result (spec.difference_at befores.now afters.now path.now) }
{
    let before = context_at(befores, path);
    let after = context_at(afters, path);
    Ok(ContextDifference {
        path: Text::copy_of(alloc, path)?,
        before: shown_side(alloc, before)?,
        after: shown_side(alloc, after)?,
        differences: differences_between(alloc, befores, afters, path, before, after)?,
    })
}

fn shown_side(
    alloc: Global,
    context: Option<&ComparedContext>,
) -> Result<Option<ContextSide>, NoMemory>
    ensures { GivesAnswer result (option_map spec.shown_side (option_copied context.entry)) }
{
    match context {
        None => Ok(None),
        Some(context) => Ok(Some(ContextSide {
            file: Text::copy_of(alloc, context.file.as_str())?,
            has_login: context.has_login,
        })),
    }
}

/// Returns the differences of two contexts at the paths that requests have on both servers, if both sides have such a
/// context.
fn differences_between(
    alloc: Global,
    befores: &[ComparedContext],
    afters: &[ComparedContext],
    path: &str,
    before: Option<&ComparedContext>,
    after: Option<&ComparedContext>,
) -> Result<Listed<Difference>, NoMemory>
    ensures { GivesAnswer result (spec.differences_between befores.now afters.now path.now (option_copied before.entry) (option_copied after.entry)) }
{
    let Some(before) = before else {
        return Ok(Listed::from_vec(Vec::new(alloc)));
    };
    let Some(after) = after else {
        return Ok(Listed::from_vec(Vec::new(alloc)));
    };
    let before = side_of(alloc, before)?;
    let after = side_of(alloc, after)?;
    found_between(alloc, befores, afters, path, &before, &after)
}

/// Returns the differences of two contexts with this path.
fn found_between(
    alloc: Global,
    befores: &[ComparedContext],
    afters: &[ComparedContext],
    path: &str,
    before: &Side,
    after: &Side,
) -> Result<Listed<Difference>, NoMemory>
    ensures { GivesAnswer result (spec.found_between (spec.paths_of befores.now) (spec.paths_of afters.now) path.now before.now after.now) }
{
    let before_paths = paths_of(alloc, befores)?;
    let after_paths = paths_of(alloc, afters)?;
    let patterns = patterns_of(alloc, before, after)?;
    let paths = shown_paths(
        alloc,
        before_paths.as_slice(),
        after_paths.as_slice(),
        path,
        patterns.as_slice(),
    )?;
    differences(alloc, paths.as_slice(), before, after)
}

/// Returns the paths of contexts.
fn paths_of(alloc: Global, contexts: &[ComparedContext]) -> Result<Vec<Text>, NoMemory>
    ensures { IfOk result (λ paths. paths.items ≡ spec.paths_of contexts.now) }
{
    let mut paths = Vec::with_capacity(alloc, contexts.len())?;
    for context in contexts {
        paths.push(Text::copy_of(alloc, context.path.as_str())?)?;
    }
    Ok(paths)
}

fn side_of(alloc: Global, context: &ComparedContext) -> Result<Side, NoMemory>
    ensures { GivesAnswer result (spec.side_of context.now) }
{
    Ok(Side {
        table: table_of(alloc, context.constraints.as_slice(), &context.rules)?,
        has_login: context.has_login,
    })
}

/// Returns the differences of contexts that let visitors in.
fn opened_in<'a>(
    alloc: Global,
    contexts: &'a [ContextDifference],
) -> Result<Vec<&'a Difference>, NoMemory>
    ensures { IfOk result (λ opened. map (λ difference. difference.now) opened.items ≡ spec.opened_in contexts.now) }
{
    let mut opened = Vec::new(alloc);
    for context in contexts {
        push_opened(&mut opened, context.differences.as_slice())?;
    }
    Ok(opened)
}

fn push_opened<'a>(
    opened: &mut Vec<&'a Difference>,
    differences: &'a [Difference],
) -> Result<(), NoMemory>
    ensures { OnOk result (map (λ difference. difference.now) opened.new.items ≡ map (λ difference. difference.now) opened.old.items ++ of_kind Opened differences.now) }
{
    for difference in differences {
        if matches!(difference.kind, DifferenceKind::Opened) {
            opened.push(difference)?;
        }
    }
    Ok(())
}
