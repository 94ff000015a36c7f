//! The uncovered methods of contexts, their constraints, and their status.

ghost use Rattle.std.specs.Prelude.{◌≡◌, ◌++◌, codes, flat_map, IfOk, OnOk};
ghost use Rattle.std.specs.Fmt.{decimal};
ghost use Rattle.std.specs.String.{string_bytes};
ghost use Rattle.sv.specs.Replies as spec;
ghost use Rattle.sv_text.specs.Gives.{GivesAnswer};
ghost use Rattle.sv_uri.specs.ContextPath.{shown_context};

use std::alloc::{AllocError, Global};
use sv_context::Context;
use sv_mapping::HasContextPath;
use sv_policy::HasPolicy;
use sv_program::{constraint_lines, gap_lines};
use sv_text::{Bytes, NoMemory, Text};
use sv_uri::shown_context;

/// Returns a line for each pattern of a context at which its current constraints leave methods uncovered. The contexts
/// are in their order.
///
/// # Errors
/// Memory ran out.
pub(crate) fn uncovered_of<S, F, L>(
    alloc: Global,
    contexts: &[Context<S, F, L>],
) -> Result<Bytes, NoMemory>
    ensures { GivesAnswer result (spec.gaps_text contexts.now) }
{
    let mut lines = String::new(alloc);
    for context in contexts {
        let more = context_gaps(alloc, context)?;
        lines.push_str(more.as_str())?;
    }
    Ok(Bytes::from_vec(lines.into_bytes()))
}

// Returns the lines of one context.
fn context_gaps<S, F, L>(alloc: Global, context: &Context<S, F, L>) -> Result<Text, NoMemory>
    ensures { GivesAnswer result (spec.context_gaps_text context.now) }
{
    let gaps = context.policy().uncovered(alloc)?;
    gap_lines(alloc, context.context_path(), gaps.as_slice())
}

/// Returns the lines of the constraints in force. The contexts are in their order.
///
/// # Errors
/// Memory ran out.
pub(crate) fn constraints_of<S, F, L>(
    alloc: Global,
    contexts: &[Context<S, F, L>],
) -> Result<Bytes, NoMemory>
    ensures { GivesAnswer result (spec.constraints_text contexts.now) }
{
    let mut lines = String::new(alloc);
    for context in contexts {
        let more = context_constraints(alloc, context)?;
        lines.push_str(more.as_str())?;
    }
    Ok(Bytes::from_vec(lines.into_bytes()))
}

// Returns the lines of the constraints of one context.
fn context_constraints<S, F, L>(alloc: Global, context: &Context<S, F, L>) -> Result<Text, NoMemory>
    ensures { GivesAnswer result (spec.context_constraints_text context.now) }
{
    constraint_lines(
        alloc,
        context.context_path(),
        context.policy().constraints(),
    )
}

/// Returns the number of events taken and the number of live sessions of each context. The contexts are in their
/// order.
///
/// # Errors
/// Memory ran out.
pub(crate) fn standing_of<S, F, L>(
    alloc: Global,
    events: u64,
    contexts: &[Context<S, F, L>],
) -> Result<Bytes, NoMemory>
    ensures { GivesAnswer result (spec.counts_text events contexts.now) }
{
    let mut text = events_text(alloc, events)?;
    push_sessions(alloc, &mut text, contexts)?;
    Ok(Bytes::from_vec(text.into_bytes()))
}

// Returns the words before those of the contexts.
fn events_text(alloc: Global, events: u64) -> Result<String, AllocError>
    ensures { IfOk result (λ text. string_bytes text ≡ codes " events " ++ decimal events ++ codes " sessions") }
{
    format!(in alloc; " events {events} sessions")
}

// Appends the number of live sessions of each context.
fn push_sessions<S, F, L>(
    alloc: Global,
    text: &mut String,
    contexts: &[Context<S, F, L>],
) -> Result<(), NoMemory>
    ensures { OnOk result (string_bytes text.new ≡ string_bytes text.old ++ flat_map spec.sessions_text contexts.now) }
{
    for context in contexts {
        let count = count_text(alloc, context.session_count())?;
        push_count(text, context.context_path(), count.as_str())?;
    }
    Ok(())
}

// Appends a context's path and count.
fn push_count(text: &mut String, path: &str, count: &str) -> Result<(), NoMemory>
    ensures { OnOk result (string_bytes text.new ≡ string_bytes text.old ++ codes " " ++ shown_context path.now ++ count.now) }
{
    text.push_str(" ")?;
    text.push_str(shown_context(path))?;
    text.push_str(count)?;
    Ok(())
}

// Returns a count with the sign before it.
fn count_text(alloc: Global, count: usize) -> Result<String, AllocError>
    ensures { IfOk result (λ text. string_bytes text ≡ codes "=" ++ decimal count) }
{
    format!(in alloc; "={count}")
}
