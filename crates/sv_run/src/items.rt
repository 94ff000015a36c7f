//! Handling the items of a stream, in order.

ghost use Rattle.std.specs.Prelude.{◌≡◌, IfErr, IfOk, List, false};
ghost use Rattle.sv_run.specs.Output.{Adds};
ghost use Rattle.sv_run.specs.Breaking.{BreaksItem, BreaksItems, Given};
ghost use Rattle.sv_run.specs.Contexts.{theory_of};
ghost use Rattle.sv_run.specs.Effect.{Effect};
ghost use Rattle.sv_run.specs.Events.{MovesAll};
ghost use Rattle.sv_run.specs.Items.{Takes, TakesItem};
ghost use Rattle.sv_run.specs.State.{world_of};

use crate::answers::{refuse, send_continue};
use crate::context::{Context, Words};
use crate::indexed_contexts::Indexed;
use crate::messages::take_message;
use crate::output::Output;
use std::alloc::Global;
use sv_text::NoMemory;
use sv_wire::{DateText, Item};

// Handles an item.
fn take_item<C: Context, W: Words>(
    alloc: Global,
    contexts: &mut Indexed<C>,
    words: &mut W,
    date: &DateText,
    item: &mut Item,
    output: &mut Output,
) -> Result<(), NoMemory>
    ensures takes { IfOk result (λ _. (effect : Effect C)
        × TakesItem (theory_of C.path_of C.conduct W.draws) date.now item.old (world_of contexts.old words.old) effect (world_of contexts.new words.new)
        × Adds output.old effect output.new) }
    ensures breaks { IfErr result (λ _. (given : List (Given C))
        × BreaksItem (theory_of C.path_of C.conduct W.draws) date.now item.old (world_of contexts.old words.old) given (world_of contexts.new words.new)) }
    ensures moves { MovesAll C.conduct contexts.old contexts.new }
{
    match item {
        Item::Continue => send_continue::<C>(output),
        Item::Message(message) => {
            take_message::<C, W>(alloc, contexts, words, date, message, output)
        }
        Item::Refuse(fault) => refuse::<C>(alloc, *fault, date, output),
    }
}

// Handles items in order, and none after an item that closes the connection (RFC 9112, section 9.6). The items are
// unspecified afterwards.
pub(crate) fn take_items<C: Context, W: Words>(
    alloc: Global,
    contexts: &mut Indexed<C>,
    words: &mut W,
    date: &DateText,
    items: &mut Vec<Item>,
    output: &mut Output,
) -> Result<(), NoMemory>
    requires { output.old.closes ≡ false }
    ensures takes { IfOk result (λ _. (effect : Effect C)
        × Takes (theory_of C.path_of C.conduct W.draws) date.now items.old.items (world_of contexts.old words.old) effect (world_of contexts.new words.new)
        × Adds output.old effect output.new) }
    ensures breaks { IfErr result (λ _. (given : List (Given C))
        × BreaksItems (theory_of C.path_of C.conduct W.draws) date.now items.old.items (world_of contexts.old words.old) given (world_of contexts.new words.new)) }
    ensures moves { MovesAll C.conduct contexts.old contexts.new }
{
    for item in items.iter_mut() {
        take_item::<C, W>(alloc, contexts, words, date, item, output)?;
        if output.closes {
            return Ok(());
        }
    }
    Ok(())
}
