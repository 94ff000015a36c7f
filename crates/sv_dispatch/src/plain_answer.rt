//! The plain text response to an error.

ghost use Rattle.std.specs.Option.{option_copied};
ghost use Rattle.std.specs.Prelude.{IfOk, string_bytes, ◌≡◌};
ghost use Rattle.sv_dispatch.specs.Did.{seen};
ghost use Rattle.sv_dispatch.specs.ServedBy.{Alone};
ghost use Rattle.sv_message.specs.Phrases.{phrase_of};
ghost use Rattle.sv_tree.specs.Served.{Plain, Resets, plain_text, sets, unless_committed};

use crate::parts::made;
use http::StatusCode;
use std::alloc::Global;
use sv_component::Exchange;
use sv_exchange::KeptField;
use sv_text::NoMemory;

/// Answers an error in plain text. The fields and the unflushed body are discarded. The response has the status, the
/// error's header field, and one line of text with the status and its phrase.
///
/// # Errors
/// `NoMemory` if an allocation fails: the old content is discarded, and part of the response may have been set.
pub(crate) fn plain(
    alloc: Global,
    exchange: &mut Exchange,
    status: u16,
    field: Option<&KeptField>,
) -> Result<(), NoMemory>
    ensures { Alone (Plain status (option_copied field.entry)) exchange.old exchange.new (seen result) }
{
    let Ok(()) = reset(exchange, status, field) else {
        return Err(NoMemory);
    };
    let Ok(()) = made(exchange.set_header("content-type", "text/plain")) else {
        return Err(NoMemory);
    };
    let Ok(text) = plain_text(alloc, status) else {
        return Err(NoMemory);
    };
    made(exchange.write(text.as_bytes()))
}

/// Answers an error in plain text; a committed response is truncated after its last flush.
pub(crate) fn plain_unless_committed(
    alloc: Global,
    exchange: &mut Exchange,
    status: u16,
    field: Option<&KeptField>,
) -> Result<(), NoMemory>
    ensures { Alone (unless_committed (Plain status (option_copied field.entry))) exchange.old exchange.new (seen result) }
{
    if exchange.committed() {
        exchange.break_off();
        return Ok(());
    }
    plain(alloc, exchange, status, field)
}

/// Discards the fields and the unflushed body, and sets the status and the header field of an error.
pub(crate) fn reset(
    exchange: &mut Exchange,
    status: u16,
    field: Option<&KeptField>,
) -> Result<(), NoMemory>
    ensures { Alone (Resets status (option_copied field.entry)) exchange.old exchange.new (seen result) }
{
    exchange.reset();
    let Ok(()) = made(exchange.set_status(status)) else {
        return Err(NoMemory);
    };
    set_field(exchange, field)
}

// Sets the header field of an error, if any.
fn set_field(exchange: &mut Exchange, field: Option<&KeptField>) -> Result<(), NoMemory>
    ensures { Alone (sets (option_copied field.entry)) exchange.old exchange.new (seen result) }
{
    match field {
        Some(field) => made(exchange.set_header(field.name.as_str(), field.value.as_str())),
        None => Ok(()),
    }
}

// Returns the status and its phrase, as a line.
fn plain_text(alloc: Global, status: u16) -> Result<String, NoMemory>
    ensures { IfOk result (λ text. string_bytes text ≡ plain_text status) }
{
    let phrase = phrase_of(status);
    Ok(format!(in alloc; "{status} {phrase}\n")?)
}

/// Returns the reason phrase of a status, or an empty text if it has none.
pub(crate) fn phrase_of(status: u16) -> &'static str
    ensures { result.now ≡ phrase_of status }
{
    match StatusCode::from_u16(status) {
        Ok(code) => code.canonical_reason().unwrap_or(""),
        Err(_) => "",
    }
}
