//! The requests of a row.

use crate::answers::Asking;
use crate::results::{both, nothing_of};
use crate::words::{first_word, number_of};
use http::Method;
use http_header::{HeaderName, HeaderValue};
use std::alloc::Global;
use sv_exchange::{Exchange, HeldSession};
use sv_mapping::Kind;
use sv_message::{CookieSettings, Field, Message, Rare, Target};
use sv_realm::Caller;
use sv_session::Sessions;
use sv_text::{Bytes, Listed, NoMemory, Text};
use sv_uri::canon;
use sv_uri::path::Canon;

/// A request: a method, a target in the context, and words. `@TIME` is its time, `#NUMBER` the session that it holds,
/// `~NAME` the caller of that session, and `!STATUS` an error to be answered without a dispatch. A word may also be the
/// kind of its dispatch. Any other word is the body of a form.
#[derive(Clone, Copy)]
pub struct Request<'a> {
    pub target: &'a str,
    pub kind: Kind,
    error: u16,
    method: &'a str,
    moment: u64,
    held: u64,
    caller: &'a str,
    form: &'a str,
}

/// Returns the request that a part of a cell describes.
pub fn read_request(part: &str) -> Request<'_> {
    let (method, rest) = first_word(part);
    let (target, words) = first_word(rest);
    let mut request = Request {
        target,
        kind: Kind::Request,
        error: 0,
        method,
        moment: 0,
        held: 0,
        caller: "",
        form: "",
    };
    for word in words.split_ascii_whitespace() {
        request = request.with(word);
    }
    request
}

impl<'a> Request<'a> {
    /// Returns what this request asks for: the response to its error status if it has one, or else `asking`.
    pub fn asking(&self, asking: Asking) -> Asking {
        match self.error {
            0 => asking,
            status => Asking::Refused(status),
        }
    }

    fn with(self, word: &'a str) -> Request<'a> {
        let mut request = self;
        if let Some(moment) = word.strip_prefix("@") {
            request.moment = number_of(moment);
        } else if let Some(held) = word.strip_prefix("#") {
            request.held = number_of(held);
        } else if let Some(caller) = word.strip_prefix("~") {
            request.caller = caller;
        } else if let Some(status) = word.strip_prefix("!") {
            request.error = status.parse::<u16>().unwrap_or(0);
        } else {
            return request.with_kind(word);
        }
        request
    }

    fn with_kind(self, word: &'a str) -> Request<'a> {
        let mut request = self;
        match word {
            "FORWARD" => request.kind = Kind::Forward,
            "INCLUDE" => request.kind = Kind::Include,
            "ERROR" => request.kind = Kind::Error,
            form => request.form = form,
        }
        request
    }
}

/// Returns the canonical path of a target, or none if the target has no such path.
pub fn path(alloc: Global, target: &str) -> Option<Canon> {
    canon(alloc, target.as_bytes()).ok()
}

/// Returns the exchange of a request in the context of this path, with its sessions, or none if memory has run out.
pub fn exchange(
    alloc: Global,
    request: Request<'_>,
    canon: &Canon,
    context: &str,
    sessions: Sessions,
) -> Option<Exchange> {
    let asked = both(message(alloc, request), held(alloc, request));
    match both(asked, CookieSettings::standard(alloc)) {
        Ok(values) => begun(alloc, request.moment, canon, context, values, sessions),
        Err(NoMemory) => nothing_of(sessions),
    }
}

fn begun(
    alloc: Global,
    moment: u64,
    canon: &Canon,
    context: &str,
    values: ((Message, Option<HeldSession>), CookieSettings),
    mut sessions: Sessions,
) -> Option<Exchange> {
    let (asked, settings) = values;
    let (mut message, held) = asked;
    let mut exchange = Exchange::new(alloc);
    let request = sv_exchange::Request {
        message: &mut message,
        canon,
        moment,
        words: (0, 1),
    };
    match exchange.begin(request, context, &settings, held, &mut sessions) {
        Ok(()) => Some(exchange),
        Err(_) => None,
    }
}

fn message(alloc: Global, request: Request<'_>) -> Result<Message, NoMemory> {
    let body = Bytes::copy_of(alloc, request.form.as_bytes());
    let (fields, body) = both(fields(alloc, request.form), body)?;
    Ok(Message {
        method: method(request.method),
        target: Target::Star,
        minor: 1,
        fields: Listed::from_vec(fields),
        body,
        keep: true,
    })
}

/// Returns the fields of a message with this form: its content type, or none if the form is empty.
fn fields(alloc: Global, form: &str) -> Result<Vec<Field>, NoMemory> {
    let mut fields = Vec::new(alloc);
    if !form.is_empty() {
        fields.push(form_type(alloc)?)?;
    }
    Ok(fields)
}

fn method(name: &str) -> Method {
    match name {
        "POST" => Method::POST,
        "PUT" => Method::PUT,
        "HEAD" => Method::HEAD,
        _ => Method::GET,
    }
}

/// Returns the content type of a form.
fn form_type(alloc: Global) -> Result<Field, NoMemory> {
    let Ok(name) = HeaderName::from_bytes(alloc, b"content-type") else {
        return Err(NoMemory);
    };
    let Ok(value) = HeaderValue::from_bytes(alloc, b"application/x-www-form-urlencoded") else {
        return Err(NoMemory);
    };
    Ok(Field { name, value })
}

fn held(alloc: Global, request: Request<'_>) -> Result<Option<HeldSession>, NoMemory> {
    if request.held == 0 {
        return Ok(None);
    }
    Ok(Some(HeldSession {
        number: request.held,
        is_renewed: false,
        caller: caller(alloc, request.caller)?,
    }))
}

fn caller(alloc: Global, name: &str) -> Result<Rare<Caller>, NoMemory> {
    if name.is_empty() {
        return Ok(Rare::none());
    }
    let caller = Caller {
        number: 0,
        name: Text::copy_of(alloc, name)?,
        roles: Listed::from_vec(Vec::new(alloc)),
    };
    Rare::some(alloc, caller)
}
