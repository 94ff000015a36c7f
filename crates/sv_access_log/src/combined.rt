//! Lines in the `combined` format of Apache httpd and nginx.

ghost use Rattle.std.specs.Prelude.{◌≡◌, ◌++◌, OnOk, codes, string_bytes};
ghost use Rattle.sv_access_log.specs.Combined as spec;

use crate::circumstances::Circumstances;
use crate::dates::log_date;
use crate::escaping::{Place, push_escaped, push_printable};
use std::fmt::Write;
use sv_run::{Access, LoggedRequest};
use sv_text::{Bytes, NoMemory, Text};

/// Appends the line of an access.
pub(crate) fn push_combined(
    text: &mut String,
    access: &Access,
    around: &Circumstances,
) -> Result<(), NoMemory>
    ensures { OnOk result (string_bytes text.new ≡ string_bytes text.old ++ spec.combined_line access.now around.now) }
{
    push_client(text, around)?;
    push_request(text, &access.request)?;
    push_answer(text, access)?;
    push_fields(text, &access.request)
}

fn push_client(text: &mut String, around: &Circumstances) -> Result<(), NoMemory>
    ensures { OnOk result (string_bytes text.new ≡ string_bytes text.old ++ spec.client_text around.now) }
{
    push_word(text, &around.address)?;
    text.push_str(" - ")?;
    push_word(text, &around.user)?;
    text.push_str(" [")?;
    push_printable(text, &log_date(&around.date))?;
    Ok(text.push_str("] ")?)
}

fn push_word(text: &mut String, word: &Option<Text>) -> Result<(), NoMemory>
    ensures { OnOk result (string_bytes text.new ≡ string_bytes text.old ++ spec.word_text word.now) }
{
    match word {
        None => Ok(text.push_str("-")?),
        Some(word) => push_escaped(text, Place::Word, word.as_bytes()),
    }
}

fn push_request(text: &mut String, request: &Option<LoggedRequest>) -> Result<(), NoMemory>
    ensures { OnOk result (string_bytes text.new ≡ string_bytes text.old ++ spec.request_text request.now) }
{
    match request {
        None => Ok(text.push_str("\"-\"")?),
        Some(request) => push_request_line(text, request),
    }
}

fn push_request_line(text: &mut String, request: &LoggedRequest) -> Result<(), NoMemory>
    ensures { OnOk result (string_bytes text.new ≡ string_bytes text.old ++ spec.request_line request.now) }
{
    text.push_str("\"")?;
    push_escaped(text, Place::Quoted, request.method.as_bytes())?;
    text.push_str(" ")?;
    push_escaped(text, Place::Quoted, request.target.as_slice())?;
    let version = format!(in *text.allocator(); " HTTP/1.{}\"", request.minor)?;
    Ok(text.push_str(version.as_str())?)
}

fn push_answer(text: &mut String, access: &Access) -> Result<(), NoMemory>
    ensures { OnOk result (string_bytes text.new ≡ string_bytes text.old ++ spec.answer_text access.now) }
{
    let answer = format!(in *text.allocator(); " {} {} ", access.status, access.sent)?;
    Ok(text.push_str(answer.as_str())?)
}

fn push_fields(text: &mut String, request: &Option<LoggedRequest>) -> Result<(), NoMemory>
    ensures { OnOk result (string_bytes text.new ≡ string_bytes text.old ++ spec.fields_text request.now) }
{
    match request {
        None => Ok(text.push_str("\"-\" \"-\"\n")?),
        Some(request) => push_request_fields(text, request),
    }
}

fn push_request_fields(text: &mut String, request: &LoggedRequest) -> Result<(), NoMemory>
    ensures { OnOk result (string_bytes text.new ≡ string_bytes text.old ++ spec.quoted_text request.now.referer ++ codes " " ++ spec.quoted_text request.now.user_agent ++ codes "\n") }
{
    push_quoted(text, &request.referer)?;
    text.push_str(" ")?;
    push_quoted(text, &request.user_agent)?;
    Ok(text.push_str("\n")?)
}

fn push_quoted(text: &mut String, shown: &Option<Bytes>) -> Result<(), NoMemory>
    ensures { OnOk result (string_bytes text.new ≡ string_bytes text.old ++ spec.quoted_text shown.now) }
{
    match shown {
        None => Ok(text.push_str("\"-\"")?),
        Some(shown) => {
            text.push_str("\"")?;
            push_escaped(text, Place::Quoted, shown.as_slice())?;
            Ok(text.push_str("\"")?)
        }
    }
}
