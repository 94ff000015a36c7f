//! Lines as objects of JSON.

ghost use Rattle.std.specs.Prelude.{◌≡◌, ◌++◌, IfOk, OnOk, option_copied, option_map, string_bytes};
ghost use Rattle.serde_json.specs.Data.{put as with_member};
ghost use Rattle.serde_json.specs.View.{members_view, view};
ghost use Rattle.serde_json.specs.Written.{compact_text};
ghost use Rattle.sv_access_log.specs.Combined.{agent_of, referer_of};
ghost use Rattle.sv_access_log.specs.Json as spec;
ghost use Rattle.sv_text.specs.Gives.{GivesAnswer};
ghost use Rattle.sv_uri.specs.ContextPath.{shown_context};

use crate::circumstances::{Circumstances, borrowed};
use crate::dates::internet_date;
use crate::escaping::{Place, push_escaped, push_printable};
use serde_json::{Map, Value, put};
use std::alloc::Global;
use sv_run::{Access, LoggedRequest};
use sv_text::{Bytes, NoMemory, Text};
use sv_uri::shown_context;

/// Appends the line of an access.
pub(crate) fn push_json(
    text: &mut String,
    access: &Access,
    around: &Circumstances,
) -> Result<(), NoMemory>
    ensures { OnOk result (string_bytes text.new ≡ string_bytes text.old ++ spec.json_line access.now around.now) }
{
    let line = line_text(*text.allocator(), access, around)?;
    text.push_str(line.as_str())?;
    Ok(text.push_str("\n")?)
}

// Returns the line without its line feed.
fn line_text(alloc: Global, access: &Access, around: &Circumstances) -> Result<String, NoMemory>
    ensures { IfOk result (λ text. string_bytes text ≡ compact_text (spec.line_value access.now around.now)) }
{
    let value = line_value(alloc, access, around)?;
    let text = value.to_string(alloc)?;
    Ok(text)
}

fn line_value(alloc: Global, access: &Access, around: &Circumstances) -> Result<Value, NoMemory>
    ensures { IfOk result (λ value. view value ≡ spec.line_value access.now around.now) }
{
    let mut members = Map::new(alloc);
    put_client(&mut members, alloc, around)?;
    put_outcome(&mut members, alloc, around)?;
    put_request(&mut members, alloc, &access.request)?;
    put_number(&mut members, alloc, "bytes", access.sent as u64)?;
    put_number(&mut members, alloc, "status", u64::from(access.status))?;
    Ok(Value::Object(members))
}

fn put_client(
    members: &mut Map<String, Value>,
    alloc: Global,
    around: &Circumstances,
) -> Result<(), NoMemory>
    ensures { OnOk result (members_view members.new.entries ≡ spec.with_client around.now (members_view members.old.entries)) }
{
    put_text(members, alloc, "address", borrowed(&around.address))?;
    let mut time = String::new(alloc);
    push_printable(&mut time, &internet_date(&around.date))?;
    put_text(members, alloc, "time", Some(time.as_str()))?;
    put_text(members, alloc, "user", borrowed(&around.user))
}

fn put_outcome(
    members: &mut Map<String, Value>,
    alloc: Global,
    around: &Circumstances,
) -> Result<(), NoMemory>
    ensures { OnOk result (members_view members.new.entries ≡ spec.with_outcome around.now (members_view members.old.entries)) }
{
    put_text(members, alloc, "context", shown(&around.context))?;
    put_number(members, alloc, "micros", around.micros)?;
    put_text(members, alloc, "outcome", borrowed(&around.outcome))
}

fn put_request(
    members: &mut Map<String, Value>,
    alloc: Global,
    request: &Option<LoggedRequest>,
) -> Result<(), NoMemory>
    ensures { OnOk result (members_view members.new.entries ≡ spec.with_request request.now (members_view members.old.entries)) }
{
    put_bytes(members, alloc, "agent", agent_of(request))?;
    put_bytes(members, alloc, "method", method_of(request))?;
    put_bytes(members, alloc, "referer", referer_of(request))?;
    put_bytes(members, alloc, "target", target_of(request))?;
    let version = version_of(alloc, request)?;
    put_text(members, alloc, "version", borrowed(&version))
}

// Puts a text, or null.
fn put_text(
    members: &mut Map<String, Value>,
    alloc: Global,
    name: &str,
    text: Option<&str>,
) -> Result<(), NoMemory>
    ensures { OnOk result (members_view members.new.entries ≡ with_member name.now (spec.text_value (option_copied text.entry)) (members_view members.old.entries)) }
{
    let value = text_value(alloc, text)?;
    Ok(put(members, alloc, name, value)?)
}

fn text_value(alloc: Global, text: Option<&str>) -> Result<Value, NoMemory>
    ensures { IfOk result (λ value. view value ≡ spec.text_value (option_copied text.entry)) }
{
    match text {
        None => Ok(Value::Null),
        Some(text) => Ok(Value::try_from_str(alloc, text)?),
    }
}

// Puts bytes of a client, escaped, or null.
fn put_bytes(
    members: &mut Map<String, Value>,
    alloc: Global,
    name: &str,
    bytes: Option<&[u8]>,
) -> Result<(), NoMemory>
    ensures { OnOk result (members_view members.new.entries ≡ with_member name.now (spec.bytes_value (option_copied bytes.entry)) (members_view members.old.entries)) }
{
    let value = bytes_value(alloc, bytes)?;
    Ok(put(members, alloc, name, value)?)
}

fn bytes_value(alloc: Global, bytes: Option<&[u8]>) -> Result<Value, NoMemory>
    ensures { IfOk result (λ value. view value ≡ spec.bytes_value (option_copied bytes.entry)) }
{
    match bytes {
        None => Ok(Value::Null),
        Some(bytes) => {
            let mut text = String::new(alloc);
            push_escaped(&mut text, Place::Json, bytes)?;
            Ok(Value::String(text))
        }
    }
}

fn put_number(
    members: &mut Map<String, Value>,
    alloc: Global,
    name: &str,
    number: u64,
) -> Result<(), NoMemory>
    ensures { OnOk result (members_view members.new.entries ≡ with_member name.now (spec.number_value number) (members_view members.old.entries)) }
{
    Ok(put(members, alloc, name, Value::from(number))?)
}

// Returns the path of a context as it is shown.
fn shown(path: &Option<Text>) -> Option<&str>
    ensures { option_copied result ≡ option_map shown_context path.now }
{
    match path {
        None => None,
        Some(path) => Some(shown_context(path.as_str())),
    }
}

fn method_of(request: &Option<LoggedRequest>) -> Option<&[u8]>
    ensures { option_copied result ≡ spec.method_of request.now }
{
    match request {
        None => None,
        Some(request) => Some(request.method.as_bytes()),
    }
}

fn target_of(request: &Option<LoggedRequest>) -> Option<&[u8]>
    ensures { option_copied result ≡ spec.target_of request.now }
{
    match request {
        None => None,
        Some(request) => Some(request.target.as_slice()),
    }
}

fn referer_of(request: &Option<LoggedRequest>) -> Option<&[u8]>
    ensures { option_copied result ≡ referer_of request.now }
{
    match request {
        None => None,
        Some(request) => bytes_of(&request.referer),
    }
}

fn agent_of(request: &Option<LoggedRequest>) -> Option<&[u8]>
    ensures { option_copied result ≡ agent_of request.now }
{
    match request {
        None => None,
        Some(request) => bytes_of(&request.user_agent),
    }
}

fn bytes_of(bytes: &Option<Bytes>) -> Option<&[u8]>
    ensures { option_copied result ≡ bytes.now }
{
    match bytes {
        None => None,
        Some(bytes) => Some(bytes.as_slice()),
    }
}

fn version_of(alloc: Global, request: &Option<LoggedRequest>) -> Result<Option<Text>, NoMemory>
    ensures { GivesAnswer result (spec.version_of request.now) }
{
    match request {
        None => Ok(None),
        Some(request) => {
            let version = format!(in alloc; "HTTP/1.{}", request.minor)?;
            Ok(Some(Text::from_string(version)))
        }
    }
}
