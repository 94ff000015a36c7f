//! Handling messages, by the container itself or by the context at the message's destination.

ghost use Rattle.std.specs.Prelude.{IfErr, IfOk, List};
ghost use Rattle.sv_run.specs.Output.{Adds};
ghost use Rattle.sv_run.specs.Breaking.{BreaksAnswer, BreaksItem, Given};
ghost use Rattle.sv_run.specs.Contexts.{theory_of};
ghost use Rattle.sv_run.specs.Effect.{Effect};
ghost use Rattle.sv_run.specs.Events.{MovesAll};
ghost use Rattle.sv_run.specs.Items.{Responds, TakesMessage};
ghost use Rattle.sv_run.specs.Messages.{destination, destination_in, place_for};
ghost use Rattle.sv_run.specs.State.{world_of};
ghost use Rattle.sv_wire.specs.declared.item.Item.TheVariants as item;

use crate::answers::{answer_bad_path, answer_hidden, answer_star};
use crate::context::{Context, Words};
use crate::indexed_contexts::Indexed;
use crate::output::Output;
use std::alloc::Global;
use sv_message::{Message, Target};
use sv_text::NoMemory;
use sv_uri::canon;
use sv_uri::fault::CanonFault;
use sv_uri::path::Canon;
use sv_wire::DateText;

// Handles a message. It draws a pair of words, no matter what answers it.
pub(crate) fn take_message<C: Context, W: Words>(
    alloc: Global,
    contexts: &mut Indexed<C>,
    words: &mut W,
    date: &DateText,
    message: &mut Message,
    output: &mut Output,
) -> Result<(), NoMemory>
    ensures takes { IfOk result (λ _. (effect : Effect C)
        × TakesMessage (theory_of C.path_of C.conduct W.draws) date.now message.old (world_of contexts.old words.old) effect (world_of contexts.new words.new)
        × Adds output.old effect output.new) }
    ensures breaks { IfErr result (λ _. (given : List (Given C))
        × BreaksItem (theory_of C.path_of C.conduct W.draws) date.now (item.Message message.old) (world_of contexts.old words.old) given (world_of contexts.new words.new)) }
    ensures moves { MovesAll C.conduct contexts.old contexts.new }
{
    let pair = words.pair();
    respond::<C, W>(alloc, contexts, date, message, pair, output)
}

// Answers a message, or lets the context at its destination answer it.
fn respond<C: Context, W: Words>(
    alloc: Global,
    contexts: &mut Indexed<C>,
    date: &DateText,
    message: &mut Message,
    words: (u64, u64),
    output: &mut Output,
) -> Result<(), NoMemory>
    ensures responds { IfOk result (λ _. (effect : Effect C)
        × Responds (theory_of C.path_of C.conduct W.draws) date.now (destination (theory_of C.path_of C.conduct W.draws) contexts.old message.old.target)
        message.old words contexts.old effect contexts.new
        × Adds output.old effect output.new) }
    ensures breaks { IfErr result (λ _. (given : List (Given C))
        × BreaksAnswer (theory_of C.path_of C.conduct W.draws) date.now (destination (theory_of C.path_of C.conduct W.draws) contexts.old message.old.target)
        message.old words contexts.old given contexts.new) }
    ensures moves { MovesAll C.conduct contexts.old contexts.new }
{
    match &message.target {
        Target::Star => answer_star::<C>(alloc, message, date, output),
        Target::Path(target) => match canon(alloc, target.as_slice()) {
            Ok(canon) => {
                respond_at::<C, W>(alloc, contexts, date, message, &canon, words, output)
            }
            Err(CanonFault::Path(fault)) => {
                answer_bad_path::<C>(alloc, message, fault, date, output)
            }
            Err(CanonFault::NoMemory) => Err(NoMemory),
        },
    }
}

// Answers a message whose target has the canonical path `canon`, or lets the context that serves the path answer it.
fn respond_at<C: Context, W: Words>(
    alloc: Global,
    contexts: &mut Indexed<C>,
    date: &DateText,
    message: &mut Message,
    canon: &Canon,
    words: (u64, u64),
    output: &mut Output,
) -> Result<(), NoMemory>
    ensures responds { IfOk result (λ _. (effect : Effect C)
        × Responds (theory_of C.path_of C.conduct W.draws) date.now
        (destination_in canon.now (place_for (theory_of C.path_of C.conduct W.draws) contexts.old canon.now.path))
        message.old words contexts.old effect contexts.new
        × Adds output.old effect output.new) }
    ensures breaks { IfErr result (λ _. (given : List (Given C))
        × BreaksAnswer (theory_of C.path_of C.conduct W.draws) date.now
        (destination_in canon.now (place_for (theory_of C.path_of C.conduct W.draws) contexts.old canon.now.path))
        message.old words contexts.old given contexts.new) }
    ensures moves { MovesAll C.conduct contexts.old contexts.new }
{
    match contexts.place(canon.path.as_str()) {
        Some(place) => {
            contexts.handle_at::<W>(alloc, place, date, message, canon, words, output)
        }
        None => answer_hidden::<C>(alloc, message, date, output),
    }
}
