//! The answer to a message by a context.

ghost use Rattle.std.specs.Prelude.{◌≡◌, ◌++◌, ◌-◌, ◌||◌, ℕ, List, IfOk, length, not};
ghost use Rattle.http.specs.StatusCode.{IsStatusCode};
ghost use Rattle.sv_message.specs.Content.{ends_connection};
ghost use Rattle.sv_run.specs.Items.{IsTextAt};
ghost use Rattle.sv_run.specs.Output.{growth_of};
ghost use Rattle.sv_run.specs.Replies.{access_by, asked_if, reply_to};
ghost use Rattle.sv_text.specs.Gives.{GivesAnswer};

use crate::access::{Access, LoggedRequest};
use crate::answers::{is_head, send};
use crate::context::Context;
use crate::output::Output;
use std::alloc::Global;
use sv_message::{Message, Response};
use sv_text::NoMemory;
use sv_wire::DateText;

/// How a message is answered that a context handles, and what a log of accesses shows of it.
#[derive(Drop)]
pub(crate) struct Reply {
    // The place of the context.
    place: usize,
    head_only: bool,
    keep: bool,
    // The request, and its caller; none if no log wants accesses.
    asked: Option<AskedBy>,
    // The number of entries of the journal before those about the message.
    noted: usize,
}

/// A request, and the number of the user who is its caller.
#[derive(Drop)]
pub(crate) struct AskedBy {
    request: LoggedRequest,
    caller: Option<u32>,
}

impl Reply {
    /// Prepares the answer to a message that this context at a place is about to handle.
    pub(crate) fn to<C: Context>(
        alloc: Global,
        place: usize,
        context: &C,
        message: &Message,
        output: &Output,
    ) -> Result<Reply, NoMemory>
        ensures { GivesAnswer result (reply_to place (C.conduct.caller_of context.now message.now) message.now output.now) }
    {
        Ok(Reply {
            place,
            head_only: is_head(message),
            keep: message.keep,
            asked: asked_by(alloc, context, message, output.logs)?,
            noted: output.journal.entries().len(),
        })
    }

    /// Appends the response to the output, and the access of the message, if a log wants it.
    pub(crate) fn send(
        self,
        response: &Response,
        date: &DateText,
        output: &mut Output,
    ) -> Result<(), NoMemory>
        requires { IsStatusCode response.now.status }
        ensures { IfOk result (λ _. (text : List ℕ) × IsTextAt date.now response.now self.head_only self.keep text
            × (growth_of output.new ≡ record (growth_of output.old) {
              sends = output.old.sends ++ text;
              closes = output.old.closes || (not self.keep || ends_connection response.now.body);
              accesses = output.old.accesses.items ++ access_by self response.now.status (length text) (length output.old.journal.entries - self.noted);
            })) }
    {
        let Reply {
            place,
            head_only,
            keep,
            asked,
            noted,
        } = self;
        let entries = output.journal.entries().len().saturating_sub(noted);
        let sent = send(head_only, keep, response, date, output)?;
        match asked {
            Some(AskedBy { request, caller }) => output.log(Access {
                request: Some(request),
                context: Some(place),
                caller,
                status: response.status,
                sent,
                entries,
            }),
            None => Ok(()),
        }
    }
}

/// Returns the request and its caller, if a log wants them.
fn asked_by<C: Context>(
    alloc: Global,
    context: &C,
    message: &Message,
    logs: bool,
) -> Result<Option<AskedBy>, NoMemory>
    ensures { GivesAnswer result (asked_if logs (C.conduct.caller_of context.now message.now) message.now) }
{
    if !logs {
        return Ok(None);
    }
    Ok(Some(AskedBy {
        request: LoggedRequest::copy_of(alloc, message)?,
        caller: context.caller(message),
    }))
}
