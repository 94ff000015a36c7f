//! Paths that requests have in a context on both servers.

ghost use Rattle.std.specs.Prelude.{◌≡◌, ◌++◌, IfOk, OnOk, filter};
ghost use Rattle.sv_text.specs.Gives.{GivesAnswer};
ghost use Rattle.sv_difference.specs.ShownPaths as spec;

use std::alloc::Global;
use sv_audit::{is_read_back, representative_paths_beside};
use sv_findings::Reaches;
use sv_mapping::{Pattern, is_at_or_below, is_protected, path_within};
use sv_text::{NoMemory, Text};

/// Returns what may follow a context path in the paths of requests that both servers give to the context, and that are for
/// no hidden folder (Jakarta Servlet 6.0, sections 3.5, 10.5 and 12.1). Each such path has the best matches of one of them,
/// among the patterns and among any part of them. Takes the context paths of both servers, and the patterns of both
/// contexts.
///
/// The time grows with the product of the numbers of prefix patterns, of extension patterns and of all patterns and contexts
/// below this one.
pub(crate) fn shown_paths(
    alloc: Global,
    befores: &[Text],
    afters: &[Text],
    context: &str,
    patterns: &[Pattern],
) -> Result<Vec<Text>, NoMemory>
    ensures { IfOk result (λ paths. paths.items ≡ spec.shown_paths befores.now afters.now context.now patterns.now) }
{
    let before = Reaches::of(alloc, befores, context)?;
    let after = Reaches::of(alloc, afters, context)?;
    let possible = possible_paths(alloc, befores, afters, context, patterns)?;
    only_shown(alloc, &before, &after, possible.as_slice())
}

/// Returns representatives of the paths for the patterns, and the empty text.
fn possible_paths(
    alloc: Global,
    befores: &[Text],
    afters: &[Text],
    context: &str,
    patterns: &[Pattern],
) -> Result<Vec<Text>, NoMemory>
    ensures { IfOk result (λ paths. paths.items ≡ spec.possible_paths befores.now afters.now context.now patterns.now) }
{
    let mut taken = Vec::new(alloc);
    push_taken(&mut taken, alloc, befores, context)?;
    push_taken(&mut taken, alloc, afters, context)?;
    let mut paths = representative_paths_beside(alloc, taken.as_slice(), patterns)?;
    paths.push(Text::copy_of(alloc, "")?)?;
    Ok(paths)
}

/// Appends the context paths at or below this one, within it.
fn push_taken(
    taken: &mut Vec<Text>,
    alloc: Global,
    contexts: &[Text],
    context: &str,
) -> Result<(), NoMemory>
    ensures { OnOk result (taken.new.items ≡ taken.old.items ++ spec.taken_by contexts.now context.now) }
{
    for other in contexts {
        if is_at_or_below(context, other.as_str()) {
            taken.push(Text::copy_of(alloc, path_within(context, other.as_str()))?)?;
        }
    }
    Ok(())
}

/// Copies the paths that requests have on both servers.
fn only_shown(
    alloc: Global,
    before: &Reaches<'_>,
    after: &Reaches<'_>,
    paths: &[Text],
) -> Result<Vec<Text>, NoMemory>
    requires { before.now.1 ≡ after.now.1 }
    ensures { IfOk result (λ shown. shown.items ≡ filter (spec.is_shown before.now.0 after.now.0 before.now.1) paths.now) }
{
    let mut shown = Vec::new(alloc);
    for path in paths {
        if is_shown(alloc, before, after, path.as_str())? {
            shown.push(Text::copy_of(alloc, path.as_str())?)?;
        }
    }
    Ok(shown)
}

/// Returns whether the context path and this text are the path of a request, which both servers give to the context, and
/// which is for no hidden folder.
fn is_shown(
    alloc: Global,
    before: &Reaches<'_>,
    after: &Reaches<'_>,
    path: &str,
) -> Result<bool, NoMemory>
    requires { before.now.1 ≡ after.now.1 }
    ensures { GivesAnswer result (spec.is_shown before.now.0 after.now.0 before.now.1 path.now) }
{
    let mut whole = Text::copy_of(alloc, before.context())?;
    whole.push_str(alloc, path)?;
    let is_read_back = is_read_back(alloc, whole.as_str())?;
    Ok(
        is_read_back
            && before.serves(whole.as_str())
            && after.serves(whole.as_str())
            && !is_protected(path),
    )
}
