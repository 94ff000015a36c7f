//! The text of a response.

ghost use Rattle.std.specs.Prelude.{◌≡◌, [], ◌++◌, ◌&&◌, vec_capacity, IfOk, OnOk, OnErr, Some, codes, decimal};
ghost use Rattle.std.specs.Option.{option_copied};
ghost use Rattle.http.specs.StatusCode.{IsStatusCode};
ghost use Rattle.httpdate.specs.Date.{date_text};
ghost use Rattle.httpdate.specs.declared.date.HttpDate.{HttpDate as Date};
ghost use Rattle.sv_message.specs.Content.{content, has_own_end};
ghost use Rattle.sv_message.specs.Cookies.{cookie_pair, cookie_text, http_only_attribute, max_age_attribute, path_attribute};
ghost use Rattle.sv_message.specs.Phrases.{phrase_of};
ghost use Rattle.sv_wire.specs.ResponseText.{IsDateAt, ResponseTextsAreUnique, allows_content, connection_lines, cookie_line, cookie_lines, field_line, field_lines, framing_line, framing_lines, response_head, response_text, sent_body, status_line};

use crate::date_text::DateText;
use http::StatusCode;
use itoa::Buffer;
use std::alloc::AllocError;
use sv_message::{Body, Cookie, Field, Response, Segments, flushed_content};
use sv_text::NoMemory;

/// The status of a response that has no content (RFC 9110, section 15.3.5).
const NO_CONTENT: u16 = 204;

const CRLF: &[u8] = b"\r\n";

/// The number of bytes reserved for the text of a response. Most heads are shorter, which leaves room for a short body.
const TEXT_ROOM: usize = 512;

/// Appends the text of a response to the output (RFC 9112, sections 4 and 5). Its status must be from 100 to 999, which
/// [`Response::has_status_code`] tests.
///
/// The lines are: the status line; `date`; the response's fields in order; `set-cookie` if there is a cookie;
/// `content-length` for a whole body, or `transfer-encoding` for a body in chunks, except with 204; and
/// `connection: close`, unless `keep` allows a further response (RFC 9112, section 9.6) and the body marks its own end.
/// An empty line and the body follow. With `head_only`, as in the response to HEAD (RFC 9110, section 9.3.2), the lines
/// are the same but the body is left out. With 204 there is no body either.
///
/// After [`NoMemory`] the bytes and the capacity of the output are unchanged. The text is made in the memory of `room`.
pub fn write_response(
    response: &Response,
    head_only: bool,
    keep: bool,
    date: &DateText,
    room: Vec<u8>,
    output: &mut Vec<u8>,
) -> Result<(), NoMemory>
    requires { IsStatusCode response.now.status }
    ensures text { OnOk result ((shown : Date) × IsDateAt date.now shown
        × (output.new.items ≡ output.old.items ++ response_text response.now head_only keep shown)) }
    ensures no_memory { OnErr result (output.new.items ≡ output.old.items) }
    ensures room { OnErr result (vec_capacity output.new ≡ vec_capacity output.old) }
{
    let text = text_of(room, response, head_only, keep, date.as_bytes())?;
    text.push_to(output)?;
    Ok(())
}

/// Appends the text of a response to the output, as [`write_response`] does, but without copying the shared bytes of
/// its body if the output is empty.
///
/// After [`NoMemory`] the output is unchanged. The text is made in the memory of `room`, which an empty output then
/// takes over.
pub fn send_response(
    response: &Response,
    head_only: bool,
    keep: bool,
    date: &DateText,
    room: Vec<u8>,
    output: &mut Segments,
) -> Result<(), NoMemory>
    requires { IsStatusCode response.now.status }
    ensures text { OnOk result ((shown : Date) × IsDateAt date.now shown
        × (output.new ≡ output.old ++ response_text response.now head_only keep shown)) }
    ensures no_memory { OnErr result (output.new ≡ output.old) }
{
    let text = text_of(room, response, head_only, keep, date.as_bytes())?;
    output.append(text)?;
    Ok(())
}

/// The text of a response at a time is unique: it does not depend on which date shows the time.
pub fn response_texts_are_unique()
    ensures { ResponseTextsAreUnique }
{}

// Returns the text of a response, made in the memory of `room`.
fn text_of(
    room: Vec<u8>,
    response: &Response,
    head_only: bool,
    keep: bool,
    date: &[u8],
) -> Result<Segments, NoMemory>
    requires { IsStatusCode response.now.status }
    ensures { (shown : Date) → date.now ≡ date_text shown → IfOk result (λ text. text ≡ response_text response.now head_only keep shown) }
{
    let head = head_of(room, response, keep, date)?;
    with_body(head, response, head_only)
}

#[tactic(auto, unfolding(crate::specs::ResponseText::response_head))]
fn head_of(
    room: Vec<u8>,
    response: &Response,
    keep: bool,
    date: &[u8],
) -> Result<Vec<u8>, AllocError>
    requires { IsStatusCode response.now.status }
    ensures { (shown : Date) → date.now ≡ date_text shown → IfOk result (λ head. head.items ≡ response_head response.now keep shown) }
{
    let mut head = room;
    head.clear();
    head.reserve(TEXT_ROOM)?;
    push_status_line(&mut head, response.status)?;
    push_field_line(&mut head, b"date", date)?;
    push_field_lines(&mut head, response.fields.as_slice())?;
    push_cookie_lines(&mut head, response.cookie.get())?;
    push_framing_lines(&mut head, response)?;
    push_connection_lines(&mut head, is_kept(keep, &response.body))?;
    head.extend_from_slice(CRLF)?;
    Ok(head)
}

// Returns the part of the body that is sent, behind a head.
fn with_body(head: Vec<u8>, response: &Response, head_only: bool) -> Result<Segments, NoMemory>
    ensures { IfOk result (λ text. text ≡ head.items ++ sent_body head_only response.now) }
{
    if head_only || !allows_content(response.status) {
        return Ok(Segments::from_vec(head));
    }
    with_content(head, &response.body)
}

// Returns a body behind a head.
fn with_content(head: Vec<u8>, body: &Body) -> Result<Segments, NoMemory>
    ensures { IfOk result (λ text. text ≡ head.items ++ content body.now) }
{
    let alloc = *head.allocator();
    match body {
        Body::Whole(bytes) => bytes.with_head(alloc, head),
        Body::Flushed {
            pieces,
            chunked,
            broken,
        } => {
            let mut text = head;
            text.extend_from_slice(&flushed_content(alloc, pieces, *chunked, *broken)?)?;
            Ok(Segments::from_vec(text))
        }
    }
}

fn push_status_line(head: &mut Vec<u8>, status: u16) -> Result<(), AllocError>
    requires { IsStatusCode status }
    ensures { OnOk result (head.new.items ≡ head.old.items ++ status_line status) }
{
    let code = StatusCode::from_u16(status).unwrap();
    head.extend_from_slice(b"HTTP/1.1 ")?;
    head.extend_from_slice(code.as_str().as_bytes())?;
    head.extend_from_slice(b" ")?;
    head.extend_from_slice(phrase_of(code))?;
    head.extend_from_slice(CRLF)?;
    Ok(())
}

#[tactic(auto, unfolding(sv_message::specs::Phrases::phrase_of))]
fn phrase_of(code: StatusCode) -> &'static [u8]
    ensures { result.now ≡ phrase_of code }
{
    code.canonical_reason().unwrap_or("").as_bytes()
}

#[inline(always)]
fn push_field_line(head: &mut Vec<u8>, name: &[u8], value: &[u8]) -> Result<(), AllocError>
    ensures { OnOk result (head.new.items ≡ head.old.items ++ field_line name.now value.now) }
{
    head.extend_from_slice(name)?;
    head.extend_from_slice(b": ")?;
    head.extend_from_slice(value)?;
    head.extend_from_slice(CRLF)?;
    Ok(())
}

fn push_field_lines(head: &mut Vec<u8>, fields: &[Field]) -> Result<(), AllocError>
    ensures { OnOk result (head.new.items ≡ head.old.items ++ field_lines fields.now) }
{
    for field in fields {
        push_field_line(head, field.name.as_bytes(), field.value.as_bytes())?;
    }
    Ok(())
}

#[inline(always)]
fn push_cookie_lines(head: &mut Vec<u8>, cookie: Option<&Cookie>) -> Result<(), AllocError>
    ensures { OnOk result (head.new.items ≡ head.old.items ++ cookie_lines (option_copied cookie.entry)) }
{
    match cookie {
        Some(cookie) => push_cookie_line(head, cookie),
        None => Ok(()),
    }
}

fn push_cookie_line(head: &mut Vec<u8>, cookie: &Cookie) -> Result<(), AllocError>
    ensures { OnOk result (head.new.items ≡ head.old.items ++ cookie_line cookie.now) }
{
    head.extend_from_slice(b"set-cookie: ")?;
    push_cookie_text(head, cookie)?;
    head.extend_from_slice(CRLF)?;
    Ok(())
}

fn push_cookie_text(head: &mut Vec<u8>, cookie: &Cookie) -> Result<(), AllocError>
    ensures { OnOk result (head.new.items ≡ head.old.items ++ cookie_text cookie.now) }
{
    push_cookie_pair(head, cookie)?;
    push_path_attribute(head, cookie.path.as_bytes())?;
    push_max_age_attribute(head, cookie.max_age)?;
    push_http_only_attribute(head, cookie.http_only)?;
    Ok(())
}

fn push_cookie_pair(head: &mut Vec<u8>, cookie: &Cookie) -> Result<(), AllocError>
    ensures { OnOk result (head.new.items ≡ head.old.items ++ cookie_pair cookie.now) }
{
    head.extend_from_slice(cookie.name.as_bytes())?;
    head.extend_from_slice(b"=")?;
    head.extend_from_slice(cookie.id.as_bytes())?;
    Ok(())
}

fn push_path_attribute(head: &mut Vec<u8>, path: &[u8]) -> Result<(), AllocError>
    ensures { OnOk result (head.new.items ≡ head.old.items ++ path_attribute path.now) }
{
    head.extend_from_slice(b"; Path=")?;
    head.extend_from_slice(path)?;
    Ok(())
}

fn push_max_age_attribute(head: &mut Vec<u8>, max_age: Option<u32>) -> Result<(), AllocError>
    ensures { OnOk result (head.new.items ≡ head.old.items ++ max_age_attribute max_age) }
{
    match max_age {
        Some(seconds) => push_max_age(head, seconds),
        None => Ok(()),
    }
}

fn push_max_age(head: &mut Vec<u8>, seconds: u32) -> Result<(), AllocError>
    ensures { OnOk result (head.new.items ≡ head.old.items ++ max_age_attribute (Some seconds)) }
{
    let mut buffer = Buffer::new();
    let digits = buffer.format(seconds);
    head.extend_from_slice(b"; Max-Age=")?;
    head.extend_from_slice(digits.as_bytes())?;
    Ok(())
}

fn push_http_only_attribute(head: &mut Vec<u8>, http_only: bool) -> Result<(), AllocError>
    ensures { OnOk result (head.new.items ≡ head.old.items ++ http_only_attribute http_only) }
{
    if http_only {
        head.extend_from_slice(b"; HttpOnly")?;
    }
    Ok(())
}

#[inline(always)]
fn push_framing_lines(head: &mut Vec<u8>, response: &Response) -> Result<(), AllocError>
    ensures { OnOk result (head.new.items ≡ head.old.items ++ framing_lines response.now) }
{
    if allows_content(response.status) {
        push_framing_line(head, &response.body)?;
    }
    Ok(())
}

fn push_framing_line(head: &mut Vec<u8>, body: &Body) -> Result<(), AllocError>
    ensures { OnOk result (head.new.items ≡ head.old.items ++ framing_line body.now) }
{
    match body {
        Body::Whole(bytes) => push_length_line(head, bytes.len()),
        Body::Flushed { chunked: true, .. } => {
            push_field_line(head, b"transfer-encoding", b"chunked")
        }
        Body::Flushed { chunked: false, .. } => Ok(()),
    }
}

fn push_length_line(head: &mut Vec<u8>, length: usize) -> Result<(), AllocError>
    ensures { OnOk result (head.new.items ≡ head.old.items ++ field_line (codes "content-length") (decimal length)) }
{
    let mut buffer = Buffer::new();
    let digits = buffer.format(length);
    push_field_line(head, b"content-length", digits.as_bytes())
}

// Returns whether a further response may follow the body.
fn is_kept(keep: bool, body: &Body) -> bool
    ensures { result ≡ (keep && has_own_end body.now) }
{
    keep && body.has_own_end()
}

#[inline(always)]
fn push_connection_lines(head: &mut Vec<u8>, keep: bool) -> Result<(), AllocError>
    ensures { OnOk result (head.new.items ≡ head.old.items ++ connection_lines keep) }
{
    if !keep {
        push_field_line(head, b"connection", b"close")?;
    }
    Ok(())
}

fn allows_content(status: u16) -> bool
    ensures { result ≡ allows_content status }
{
    status != NO_CONTENT
}
