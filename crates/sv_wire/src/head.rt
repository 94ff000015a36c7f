//! The head of a request, and the judgement on it.

ghost use Rattle.std.specs.Prelude.{◌≡◌, ◌+◌, ◌≤◌, false, length, map, All, IfOk, OnOk};
ghost use Rattle.http_header.specs.Token.{IsToken};
ghost use Rattle.httparse.specs.Grammar.{RequestHead};
ghost use Rattle.httparse.specs.Spans.{IsWithin, span_bytes};
ghost use Rattle.sv_message.specs.TargetForm.{FitsForm, with_slash};
ghost use Rattle.sv_text.specs.Faults.{first_or};
ghost use Rattle.sv_text.specs.Gives.{GivesAnswer};
ghost use Rattle.sv_wire.specs.Head.{accept, awaits_continue, begins_at_once, faults_by_kind, fields_beside, framing_faults, framing_of, has_codings, has_length, is_unknown, is_unknown_expectation, judge, target_in, tell_of_body, tells_of_body};
ghost use Rattle.sv_message.specs.declared.message.Target.TheVariants.{Path};
ghost use Rattle.sv_wire.specs.Reads.{ReadsHead, has_too_many_lines, lines};
ghost use Rattle.sv_wire.specs.Spans.{field_at, IsFieldAt, AreHeadSpans, ShowHead};

use crate::body_reader::Framing;
use crate::limits::{FEW_FIELD_LINES, MAX_BODY_LEN, MAX_FIELD_LINES, MAX_HEAD_LEN};
use crate::owed_head::{Judgement, OwedHead, has_body};
use crate::wire_fault::WireFault;
use http::Method;
use http::method::MethodError;
use httparse::Status;
use httparse::spans::{EMPTY_HEADER_SPAN, HeaderSpan, RequestSpans, Span, parse_request};
use std::alloc::Global;
use std::mem;
use sv_message::{
    Codings, Field, Message, SCHEME_LEN, Target, TargetForm, accepts_hosts, asks_to_continue,
    coding_kind, content_length, has_field, keeps, replace_hosts, target_form,
};
use sv_text::{Bytes, Listed, NoMemory};

/// Reads the whole text of a head, which is no longer than the limit. Its fields use the memory of `room`. Most heads
/// have few fields and begin at once. Their lines need no count, since a head has two lines more than fields.
pub(crate) fn read_head(
    alloc: Global,
    room: &mut Vec<Field>,
    text: &[u8],
) -> Result<Judgement, NoMemory>
    requires { length text.now ≤ MAX_HEAD_LEN }
    ensures { IfOk result (ReadsHead text.now) }
{
    let mut spans = [EMPTY_HEADER_SPAN; FEW_FIELD_LINES];
    match parse_request(text, &mut spans) {
        Ok(Status::Complete(head)) if head.len == text.len() && begins_at_once(text) => {
            judge(alloc, room, text, &head, &spans[..head.headers])
        }
        _ => read_many(alloc, room, text),
    }
}

/// Returns whether a text does not begin with a line end.
fn begins_at_once(text: &[u8]) -> bool
    ensures { result ≡ begins_at_once text.now }
{
    !matches!(text, [b'\n', ..] | [b'\r', ..])
}

/// Reads the text of a head with any number of lines. A separate function, since a function reserves its stack space on
/// entry, and the spans of many fields need much of it.
fn read_many(alloc: Global, room: &mut Vec<Field>, text: &[u8]) -> Result<Judgement, NoMemory>
    requires { length text.now ≤ MAX_HEAD_LEN }
    ensures { IfOk result (ReadsHead text.now) }
{
    if lines_of(text) > MAX_FIELD_LINES + 2 {
        return Ok(Judgement::Refused(WireFault::HeadTooLarge));
    }
    read_lines(alloc, room, text, &mut [EMPTY_HEADER_SPAN; MAX_FIELD_LINES])
}

/// Returns the number of lines in the text of a head.
fn lines_of(text: &[u8]) -> usize
    ensures { result ≡ lines text.now }
{
    text.iter().filter(|b| **b == b'\n').count()
}

/// Reads the text of a head within the limit of lines, with spans for as many fields as these lines may have.
fn read_lines(
    alloc: Global,
    room: &mut Vec<Field>,
    text: &[u8],
    spans: &mut [HeaderSpan],
) -> Result<Judgement, NoMemory>
    requires short { length text.now ≤ MAX_HEAD_LEN }
    requires few { has_too_many_lines text.now ≡ false }
    requires room { lines text.now ≤ length spans.old + 2 }
    ensures { IfOk result (ReadsHead text.now) }
{
    match parse_request(text, spans) {
        Ok(Status::Complete(head)) if head.len == text.len() => {
            judge(alloc, room, text, &head, &spans[..head.headers])
        }
        Ok(Status::Complete(_)) => Ok(Judgement::Refused(WireFault::BadHead)),
        Ok(Status::Partial) => Ok(Judgement::Refused(WireFault::BadHead)),
        Err(_) => Ok(Judgement::Refused(WireFault::BadHead)),
    }
}

/// Judges a head that `httparse` has read.
fn judge(
    alloc: Global,
    room: &mut Vec<Field>,
    text: &[u8],
    head: &RequestSpans,
    spans: &[HeaderSpan],
) -> Result<Judgement, NoMemory>
    requires { AreHeadSpans text.now spans.now head.now }
    ensures { (whole : RequestHead) → ShowHead text.now spans.now head.now whole
        → GivesAnswer result (judge whole) }
{
    let shared = bytes::Bytes::copy_from_slice(alloc, text)?;
    let mut fields = read_fields(alloc, room, &shared, spans)?;
    let method = head.method.of(text);
    let target = at_span(shared, head.path);
    let form = target_form(method, target.as_slice());
    let told = tell_of_body(&fields);
    if let Err(fault) = accept(head.version, form, &fields, told) {
        return Ok(Judgement::Refused(fault));
    }
    let framing = framing_of(&fields, told);
    let keep = keeps(head.version, &fields);
    let is_asked = awaits_continue(head.version, &fields, told);
    set_hosts(alloc, form, target.as_slice(), &mut fields)?;
    let message = Message {
        method: read_method(alloc, method)?,
        target: read_target(alloc, form, target)?,
        minor: head.version,
        fields: Listed::from_vec(fields),
        body: Bytes::from_vec(Vec::new(alloc)),
        keep,
    };
    let owed = OwedHead { message, framing };
    Ok(if is_asked {
        Judgement::Expecting(owed)
    } else {
        Judgement::Accepted(owed)
    })
}

/// Returns the part of a text at a span. It shares the memory of the text.
#[inline(always)]
fn at_span(text: bytes::Bytes, span: Span) -> bytes::Bytes
    requires { IsWithin (length text) span }
    ensures { result ≡ span_bytes text span }
{
    let mut text = text;
    text.truncate(span.end);
    text.advance(span.start);
    text
}

/// Returns whether some field describes the body. Most heads have none, so one pass over the fields replaces the
/// separate searches for them.
fn tell_of_body(fields: &[Field]) -> bool
    ensures { result ≡ tell_of_body fields.now }
{
    fields.iter().any(|field| tells_of_body(field))
}

/// Returns whether a field gives the framing of the body or an expectation.
fn tells_of_body(field: &Field) -> bool
    ensures { result ≡ tells_of_body field.now }
{
    field.is_named("content-length")
        || field.is_named("transfer-encoding")
        || field.is_named("expect")
}

/// Accepts a head, or returns the first of its faults, in the order of judgement.
fn accept(minor: u8, form: TargetForm, fields: &[Field], told: bool) -> Result<(), WireFault>
    requires { told ≡ tell_of_body fields.now }
    ensures { result ≡ accept minor form fields.now }
{
    if !accepts_hosts(minor, fields) {
        return Err(WireFault::BadHost);
    }
    if is_unknown(form) {
        return Err(WireFault::BadTarget);
    }
    if !told {
        return Ok(());
    }
    if let Err(fault) = accept_framing(minor, fields) {
        return Err(fault);
    }
    if is_unknown_expectation(minor, fields) {
        return Err(WireFault::BadExpect);
    }
    Ok(())
}

/// Returns whether a target is in no form that is served.
fn is_unknown(form: TargetForm) -> bool
    ensures { result ≡ is_unknown form }
{
    matches!(form, TargetForm::Unknown)
}

/// Accepts the framing of a body, or returns the first of its faults.
fn accept_framing(minor: u8, fields: &[Field]) -> Result<(), WireFault>
    ensures { result ≡ first_or (framing_faults minor fields.now) tt }
{
    if has_codings(fields) {
        if minor != 1 || has_length(fields) {
            return Err(WireFault::BadFraming);
        }
        return accept_codings(coding_kind(fields));
    }
    match content_length(fields) {
        Some(len) if len > MAX_BODY_LEN => Err(WireFault::BodyTooLarge),
        None if has_length(fields) => Err(WireFault::BadFraming),
        _ => Ok(()),
    }
}

/// Accepts codings of this kind, or returns their fault.
fn accept_codings(kind: Codings) -> Result<(), WireFault>
    ensures { result ≡ first_or (faults_by_kind kind) tt }
{
    match kind {
        Codings::Chunked => Ok(()),
        Codings::Unknown => Err(WireFault::UnknownCoding),
        Codings::Bad => Err(WireFault::BadFraming),
    }
}

fn has_codings(fields: &[Field]) -> bool
    ensures { result ≡ has_codings fields.now }
{
    has_field("transfer-encoding", fields)
}

fn has_length(fields: &[Field]) -> bool
    ensures { result ≡ has_length fields.now }
{
    has_field("content-length", fields)
}

/// Returns whether an HTTP/1.1 request has an expectation other than `100-continue`.
fn is_unknown_expectation(minor: u8, fields: &[Field]) -> bool
    ensures { result ≡ is_unknown_expectation minor fields.now }
{
    minor == 1 && has_field("expect", fields) && !asks_to_continue(fields)
}

/// Returns whether the client awaits `100 Continue` before it sends the body.
fn awaits_continue(minor: u8, fields: &[Field], told: bool) -> bool
    requires { told ≡ tell_of_body fields.now }
    ensures { result ≡ awaits_continue minor fields.now }
{
    if !told {
        return false;
    }
    minor == 1 && asks_to_continue(fields) && has_body(framing_of(fields, told))
}

/// Returns how the end of the body is found.
fn framing_of(fields: &[Field], told: bool) -> Framing
    requires { told ≡ tell_of_body fields.now }
    ensures { result ≡ framing_of fields.now }
{
    if !told {
        return Framing::Length(0);
    }
    if has_codings(fields) {
        return Framing::Chunked;
    }
    match content_length(fields) {
        Some(len) => Framing::Length(len),
        None => Framing::Length(0),
    }
}

/// Replaces the host by the authority of a target in absolute form.
fn set_hosts(
    alloc: Global,
    form: TargetForm,
    target: &[u8],
    fields: &mut Vec<Field>,
) -> Result<(), NoMemory>
    requires { FitsForm form target.now }
    ensures { OnOk result (fields.new.items ≡ fields_beside form target.now fields.old.items) }
{
    match form {
        TargetForm::Absolute(len) => replace_hosts(
            alloc,
            fields,
            &target[SCHEME_LEN..SCHEME_LEN + len],
        ),
        TargetForm::Origin | TargetForm::Star | TargetForm::Unknown => Ok(()),
    }
}

/// Returns the target of a request, by its form. It shares the memory of the text, unless a slash is added.
#[inline(always)]
fn read_target(
    alloc: Global,
    form: TargetForm,
    mut target: bytes::Bytes,
) -> Result<Target, NoMemory>
    requires { FitsForm form target }
    ensures { GivesAnswer result (target_in form target) }
{
    match form {
        TargetForm::Origin => Ok(Target::Path(target)),
        TargetForm::Absolute(len) => {
            target.advance(SCHEME_LEN + len);
            read_path(alloc, target)
        }
        TargetForm::Star | TargetForm::Unknown => Ok(Target::Star),
    }
}

/// Returns the path after an authority. If it does not begin with a slash, it is empty or only a query, and is copied
/// after a slash.
fn read_path(alloc: Global, behind: bytes::Bytes) -> Result<Target, NoMemory>
    ensures { GivesAnswer result (Path (with_slash behind)) }
{
    if behind.as_slice().starts_with(b"/") {
        return Ok(Target::Path(behind));
    }
    let mut path = Vec::new(alloc);
    path.push(b'/')?;
    path.extend_from_slice(behind.as_slice())?;
    Ok(Target::Path(bytes::Bytes::from_vec(path)?))
}

/// Reads the fields at these spans of the text, whose memory they share. The list uses the memory of `room`.
fn read_fields(
    alloc: Global,
    room: &mut Vec<Field>,
    text: &bytes::Bytes,
    spans: &[HeaderSpan],
) -> Result<Vec<Field>, NoMemory>
    requires { All (IsFieldAt text.now) spans.now }
    ensures { IfOk result (λ fields. fields.items ≡ map (field_at text.now) spans.now) }
{
    let mut fields = mem::replace(room, Vec::new(alloc));
    if !fields.is_empty() {
        fields.clear();
    }
    fields.reserve(spans.len())?;
    for span in spans {
        fields.push(Field::at_span(alloc, text, span)?)?;
    }
    Ok(fields)
}

/// Copies a method, which is a token.
#[inline(always)]
fn read_method(alloc: Global, bytes: &[u8]) -> Result<Method, NoMemory>
    requires { IsToken bytes.now }
    ensures { GivesAnswer result bytes.now }
{
    match Method::from_bytes(alloc, bytes) {
        Ok(method) => Ok(method),
        Err(MethodError::OutOfMemory) => Err(NoMemory),
        Err(MethodError::Invalid) => unreachable!(),
    }
}
