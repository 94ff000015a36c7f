//! The order of contexts in the text and the JSON of a report.

ghost use Rattle.std.specs.Prelude.{◌≡◌, ◌++◌, IfOk, OnOk, filter, map, not};
ghost use Rattle.sv_difference.specs.OpenedFirst as spec;

use crate::contexts::ContextDifference;
use crate::difference::Difference;
use std::alloc::Global;
use sv_audit::DifferenceKind;
use sv_text::NoMemory;

/// Returns the contexts in which something may have been opened, then the others, each in the order of the report.
pub fn opened_first<'a>(
    alloc: Global,
    contexts: &'a [ContextDifference],
) -> Result<Vec<&'a ContextDifference>, NoMemory>
    ensures { IfOk result (λ ordered. map (λ context. context.now) ordered.items ≡ spec.opened_first contexts.now) }
{
    let mut ordered = Vec::with_capacity(alloc, contexts.len())?;
    push_opened(&mut ordered, contexts)?;
    push_others(&mut ordered, contexts)?;
    Ok(ordered)
}

/// Appends the contexts in which something may have been opened.
fn push_opened<'a>(
    ordered: &mut Vec<&'a ContextDifference>,
    contexts: &'a [ContextDifference],
) -> Result<(), NoMemory>
    ensures { OnOk result (map (λ context. context.now) ordered.new.items ≡ map (λ context. context.now) ordered.old.items ++ filter spec.may_open contexts.now) }
{
    for context in contexts {
        if may_open(context) {
            ordered.push(context)?;
        }
    }
    Ok(())
}

/// Appends the contexts in which nothing has been opened.
fn push_others<'a>(
    ordered: &mut Vec<&'a ContextDifference>,
    contexts: &'a [ContextDifference],
) -> Result<(), NoMemory>
    ensures { OnOk result (map (λ context. context.now) ordered.new.items ≡ map (λ context. context.now) ordered.old.items ++ filter (λ context. not (spec.may_open context)) contexts.now) }
{
    for context in contexts {
        if !may_open(context) {
            ordered.push(context)?;
        }
    }
    Ok(())
}

#[tactic(auto, unfolding(crate::specs::OpenedFirst::may_open))]
fn may_open(context: &ContextDifference) -> bool
    ensures { result ≡ spec.may_open context.now }
{
    is_lone(context) || has_opened(context.differences.as_slice())
}

/// Returns whether only one of the servers has the context.
#[tactic(auto, unfolding(crate::specs::OpenedFirst::is_lone))]
fn is_lone(context: &ContextDifference) -> bool
    ensures { result ≡ spec.is_lone context.now }
{
    context.before.is_none() || context.after.is_none()
}

fn has_opened(differences: &[Difference]) -> bool
    ensures { result ≡ spec.has_opened differences.now }
{
    differences.iter().any(|difference| matches!(difference.kind, DifferenceKind::Opened))
}
