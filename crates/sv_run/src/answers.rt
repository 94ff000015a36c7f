//! Answers to messages.

ghost use Rattle.std.specs.Prelude.{◌≡◌, ◌++◌, ◌∷◌, [], ◌||◌, ℕ, true, false, List, IfOk, None, OnOk, Some, bytes_eq, codes, length, not};
ghost use Rattle.std.specs.Option.{option_copied, option_map};
ghost use Rattle.http.specs.StatusCode.{IsStatusCode};
ghost use Rattle.sv_run.specs.Accesses.{logged, logged_request, own_access};
ghost use Rattle.sv_run.specs.Output.{Adds, growth_of};
ghost use Rattle.sv_journal.specs.Journal.{with_entry};
ghost use Rattle.sv_journal.specs.declared.entry.Entry.TheVariants as entries;
ghost use Rattle.sv_journal.specs.declared.refusal_cause.RefusalCause.TheVariants as causes;
ghost use Rattle.sv_run.specs.Effect.{answered, sending};
ghost use Rattle.sv_run.specs.Items.{IsAnswerTo, IsTextAt, closes_behind, continue_text};
ghost use Rattle.sv_run.specs.Messages.{empty_response, plain_response, plain_text};
ghost use Rattle.sv_text.specs.Gives.{GivesAnswer};
ghost use Rattle.sv_message.specs.Content.{ends_connection};
ghost use Rattle.sv_message.specs.Phrases.{phrase_of};
ghost use Rattle.sv_wire.specs.WireFault.{fault_status};

use crate::access::{Access, LoggedRequest};
use crate::output::Output;
use http::StatusCode;
use std::alloc::Global;
use std::mem;
use sv_journal::{Entry, RefusalCause};
use sv_message::{Body, Field, Message, Rare, Response, Segments};
use sv_text::{Listed, NoMemory};
use sv_uri::fault::PathFault;
use sv_wire::{DateText, WireFault, send_response};

const CONTINUE: &[u8] = b"HTTP/1.1 100 Continue\r\n\r\n";

// Returns a response without fields or a body.
fn empty_response(alloc: Global) -> Response
    ensures { result ≡ empty_response }
{
    Response {
        status: 200,
        fields: Listed::from_vec(Vec::new(alloc)),
        cookie: Rare::none(),
        body: Body::Whole(Segments::new(alloc)),
    }
}

// Returns the status code and its phrase as a plain text response.
fn plain_response(alloc: Global, status: u16) -> Result<Response, NoMemory>
    requires { IsStatusCode status }
    ensures { GivesAnswer result (plain_response status) }
{
    let mut fields = Vec::new(alloc);
    fields.push(Field::copy_of(alloc, b"content-type", b"text/plain")?)?;
    Ok(Response {
        status,
        fields: Listed::from_vec(fields),
        cookie: Rare::none(),
        body: Body::Whole(Segments::from_vec(plain_text(alloc, status)?)),
    })
}

// Returns the status code and its phrase as a line.
fn plain_text(alloc: Global, status: u16) -> Result<Vec<u8>, NoMemory>
    requires { IsStatusCode status }
    ensures { IfOk result (λ text. text.items ≡ plain_text status) }
{
    let phrase = phrase_of(status);
    Ok(format!(in alloc; "{status} {phrase}\n")?.into_bytes())
}

// Returns the phrase of a status code, empty if it has none.
#[tactic(auto, unfolding(sv_message::specs::Phrases::phrase_of))]
fn phrase_of(status: u16) -> &'static str
    requires { IsStatusCode status }
    ensures { result.now ≡ phrase_of status }
{
    let code = StatusCode::from_u16(status).unwrap();
    code.canonical_reason().unwrap_or("")
}

// Sends the interim response that invites the body.
#[tactic(auto, unfolding(crate::specs::Items::continue_text))]
pub(crate) fn send_continue<C>(output: &mut Output) -> Result<(), NoMemory>
    ensures { IfOk result (λ _. Adds {Context = C} output.old (sending continue_text) output.new) }
{
    output.sends.extend_from_slice(CONTINUE)?;
    Ok(())
}

// Appends the response to a message to the output, and returns the number of its bytes. A response to HEAD has no body.
// The connection closes after the response if the message does not keep it open.
pub(crate) fn send(
    head_only: bool,
    keep: bool,
    response: &Response,
    date: &DateText,
    output: &mut Output,
) -> Result<usize, NoMemory>
    requires { IsStatusCode response.now.status }
    ensures { IfOk result (λ count. (text : List ℕ) × IsTextAt date.now response.now head_only keep text × (count ≡ length text)
        × (growth_of output.new ≡ record (growth_of output.old) {
          sends = output.old.sends ++ text;
          closes = output.old.closes || (not keep || ends_connection response.now.body);
        })) }
{
    let before = output.sends.len();
    let room = taken(&mut output.room);
    send_response(response, head_only, keep, date, room, &mut output.sends)?;
    output.closes |= closes_behind(keep, &response.body);
    Ok(output.sends.len() - before)
}

// Takes the buffer, and leaves an empty one.
fn taken(room: &mut Vec<u8>) -> Vec<u8> {
    let none = Vec::new(*room.allocator());
    mem::replace(room, none)
}

// Returns whether the connection closes after the response: the message does not keep it open, or the end of the body
// is the end of the connection.
fn closes_behind(keep: bool, body: &Body) -> bool
    ensures { result ≡ (not keep || ends_connection body.now) }
{
    !keep || body.ends_connection()
}

// Returns whether the method is HEAD.
pub(crate) fn is_head(message: &Message) -> bool
    ensures { result ≡ bytes_eq message.now.method (codes "HEAD") }
{
    message.method.as_str() == "HEAD"
}

// Adds the access of a message that no context handles, or of bytes that were no message, if a log wants it.
fn log_own(
    alloc: Global,
    asked: Option<&Message>,
    status: u16,
    sent: usize,
    output: &mut Output,
) -> Result<(), NoMemory>
    ensures { OnOk result (growth_of output.new ≡ record (growth_of output.old) {
      accesses = output.old.accesses.items ++ logged output.old.logs (own_access (option_copied asked.entry) status sent ∷ []);
    }) }
{
    if !output.logs {
        return Ok(());
    }
    output.log(Access {
        request: logged_request(alloc, asked)?,
        context: None,
        caller: None,
        status,
        sent,
        entries: 1,
    })
}

fn logged_request(alloc: Global, asked: Option<&Message>) -> Result<Option<LoggedRequest>, NoMemory>
    ensures { GivesAnswer result (option_map logged_request (option_copied asked.entry)) }
{
    match asked {
        Some(message) => Ok(Some(LoggedRequest::copy_of(alloc, message)?)),
        None => Ok(None),
    }
}

// Answers a message that no context handles.
fn answer_itself<C>(
    alloc: Global,
    message: &Message,
    entry: Entry,
    response: &Response,
    date: &DateText,
    output: &mut Output,
) -> Result<(), NoMemory>
    requires { IsStatusCode response.now.status }
    ensures { IfOk result (λ _. (text : List ℕ) × IsAnswerTo message.now date.now response.now text
        × Adds {Context = C} output.old (answered (Some message.now) response.now entry text (closes_behind message.now response.now)) output.new) }
{
    note(entry, output)?;
    let sent = send(is_head(message), message.keep, response, date, output)?;
    log_own(alloc, Some(message), response.status, sent, output)
}

// Answers a message whose target is `*`, the server itself. This function and the three cold ones below are
// separate because a function initializes the storage of all its locals on entry, and few messages take these paths.
#[cold]
#[inline(never)]
pub(crate) fn answer_star<C>(
    alloc: Global,
    message: &Message,
    date: &DateText,
    output: &mut Output,
) -> Result<(), NoMemory>
    ensures { IfOk result (λ _. (text : List ℕ) × IsAnswerTo message.now date.now empty_response text
        × Adds {Context = C} output.old (answered (Some message.now) empty_response (entries.Refused causes.Star) text (closes_behind message.now empty_response)) output.new) }
{
    let response = empty_response(alloc);
    let entry = Entry::Refused(RefusalCause::Star);
    answer_itself::<C>(alloc, message, entry, &response, date, output)
}

// Answers a message whose target has no canonical path.
#[cold]
#[inline(never)]
pub(crate) fn answer_bad_path<C>(
    alloc: Global,
    message: &Message,
    fault: PathFault,
    date: &DateText,
    output: &mut Output,
) -> Result<(), NoMemory>
    ensures { IfOk result (λ _. (text : List ℕ) × IsAnswerTo message.now date.now (plain_response 400) text
        × Adds {Context = C} output.old (answered (Some message.now) (plain_response 400) (entries.Refused (causes.Path fault)) text (closes_behind message.now (plain_response 400))) output.new) }
{
    let response = plain_response(alloc, 400)?;
    let entry = Entry::Refused(RefusalCause::Path(fault));
    answer_itself::<C>(alloc, message, entry, &response, date, output)
}

// Answers a message whose path no context serves.
#[cold]
#[inline(never)]
pub(crate) fn answer_hidden<C>(
    alloc: Global,
    message: &Message,
    date: &DateText,
    output: &mut Output,
) -> Result<(), NoMemory>
    ensures { IfOk result (λ _. (text : List ℕ) × IsAnswerTo message.now date.now (plain_response 404) text
        × Adds {Context = C} output.old (answered (Some message.now) (plain_response 404) (entries.Hidden causes.NoContext) text (closes_behind message.now (plain_response 404))) output.new) }
{
    let response = plain_response(alloc, 404)?;
    let entry = Entry::Hidden(RefusalCause::NoContext);
    answer_itself::<C>(alloc, message, entry, &response, date, output)
}

// Answers input that was refused before it became a message. The connection closes.
#[cold]
#[inline(never)]
pub(crate) fn refuse<C>(
    alloc: Global,
    fault: WireFault,
    date: &DateText,
    output: &mut Output,
) -> Result<(), NoMemory>
    ensures { IfOk result (λ _. (text : List ℕ) × IsTextAt date.now (plain_response (fault_status fault)) false false text
        × Adds {Context = C} output.old (answered None (plain_response (fault_status fault)) (entries.Refused (causes.Wire fault)) text true) output.new) }
{
    note(Entry::Refused(RefusalCause::Wire(fault)), output)?;
    let response = plain_response(alloc, fault.status())?;
    let sent = send(false, false, &response, date, output)?;
    log_own(alloc, None, response.status, sent, output)
}

// Notes an entry. Fails if the journal has run out of memory.
fn note(entry: Entry, output: &mut Output) -> Result<(), NoMemory>
    ensures { IfOk result (λ _. growth_of output.new ≡ record (growth_of output.old) { journal = with_entry entry output.old.journal }) }
{
    output.journal.note(Ok(entry));
    if output.journal.whole() {
        Ok(())
    } else {
        Err(NoMemory)
    }
}
