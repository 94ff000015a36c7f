//! Calls on an exchange, as the rows of tables write them, and their results.

use crate::requests::exchange;
use std::alloc::Global;
use sv_mapping::Kind;
use sv_message::{Body, Response};
use sv_rows::{Draft, cell};
use sv_session::Sessions;
use sv_web::{
    Exchange, ExchangeFault, Fault, Field, NewCookie, NoMemory, RedirectKind, SameSite, Text, Verb,
    asked_verb, cookie, link_to, redirect, redirect_elsewhere, send, send_html, send_text,
    set_cookie,
};

/// The call that a table makes.
#[derive(Clone, Copy)]
pub enum Call {
    AskedVerb,
    SetCookie,
    Send,
    Redirect,
}

/// Writes the answer to a row's call on a request with this method, followed by the status, the fields and the body of
/// the response. The first cell gives the state before the call: unchanged (`open`), flushed (`flushed`), or within an
/// include (`include`).
pub fn answer_all(
    alloc: Global,
    method: &str,
    call: Call,
    row: &str,
    answer: &mut Vec<u8>,
) -> Result<(), NoMemory> {
    let mut told = Draft::new(alloc);
    match exchange(alloc, method, "") {
        Ok(exchange) => tell_all(alloc, exchange, call, row, &mut told),
        Err(_) => told.fail(),
    }
    told.add_to(answer)
}

/// Writes the value of the cookie of this name in a request with these header lines, or `-` if there is none.
pub fn answer_cookie(
    alloc: Global,
    lines: &str,
    name: &str,
    answer: &mut Vec<u8>,
) -> Result<(), NoMemory> {
    let mut told = Draft::new(alloc);
    match exchange(alloc, "GET", lines) {
        Ok(exchange) => tell_cookie(cookie(&exchange, name), &mut told),
        Err(_) => told.fail(),
    }
    told.add_to(answer)
}

/// Writes the location of a path in the context of a request.
pub fn answer_link(alloc: Global, path: &str, answer: &mut Vec<u8>) -> Result<(), NoMemory> {
    let mut told = Draft::new(alloc);
    match exchange(alloc, "GET", "") {
        Ok(exchange) => tell_link(link_to(alloc, &exchange, path), &mut told),
        Err(_) => told.fail(),
    }
    told.add_to(answer)
}

fn tell_link(link: Result<Text, NoMemory>, told: &mut Draft) {
    match link {
        Ok(link) => told.add(link.as_str()),
        Err(_) => told.fail(),
    }
}

fn tell_cookie(value: Option<&[u8]>, told: &mut Draft) {
    match value {
        Some(value) => told.add_bytes(value),
        None => told.add("-"),
    }
}

fn tell_all(alloc: Global, mut exchange: Exchange, call: Call, row: &str, told: &mut Draft) {
    prepare(&mut exchange, cell(row, 0), told);
    tell_call(alloc, &mut exchange, call, row, told);
    let response = exchange.finish(&mut Sessions::new(alloc, 0, 0));
    tell_response(&response, told);
}

fn prepare(exchange: &mut Exchange, before: &str, told: &mut Draft) {
    let is_done = match before {
        "flushed" => exchange.flush().is_ok(),
        "include" => exchange
            .enter(Kind::Include, "/b", "/b", None, None)
            .is_ok(),
        _ => true,
    };
    if !is_done {
        told.fail();
    }
}

fn tell_call(alloc: Global, exchange: &mut Exchange, call: Call, row: &str, told: &mut Draft) {
    match call {
        Call::AskedVerb => tell_verb(asked(alloc, exchange, cell(row, 2)), told),
        Call::SetCookie => tell_done(set_cookie(alloc, exchange, &new_cookie(row)), told),
        Call::Send => tell_sent(sent(exchange, row), told),
        Call::Redirect => tell_done(redirected(exchange, row), told),
    }
}

/// Returns the verb of the request, if it is in this list. An unknown list is empty.
fn asked(alloc: Global, exchange: &mut Exchange, allowed: &str) -> Result<Option<Verb>, Fault> {
    match allowed {
        "GET" => asked_verb(alloc, exchange, &[Verb::Get]),
        "GET POST" => asked_verb(alloc, exchange, &[Verb::Get, Verb::Post]),
        "PUT PATCH DELETE" => asked_verb(alloc, exchange, &[Verb::Put, Verb::Patch, Verb::Delete]),
        _ => asked_verb(alloc, exchange, &[]),
    }
}

/// Returns the cookie of a row. A path or an age of `-` means none.
fn new_cookie<'a>(row: &'a str) -> NewCookie<'a> {
    let path = cell(row, 3);
    let words = cell(row, 5);
    NewCookie {
        name: cell(row, 1),
        value: cell(row, 2),
        path: if path == "-" { None } else { Some(path) },
        max_age: cell(row, 4).parse::<u32>().ok(),
        http_only: words.contains("HttpOnly"),
        secure: words.contains("Secure"),
        same_site: same_site(words),
    }
}

fn same_site(words: &str) -> Option<SameSite> {
    if words.contains("Strict") {
        Some(SameSite::Strict)
    } else if words.contains("Lax") {
        Some(SameSite::Lax)
    } else if words.contains("Everywhere") {
        Some(SameSite::Everywhere)
    } else {
        None
    }
}

fn sent(exchange: &mut Exchange, row: &str) -> Result<(), ExchangeFault> {
    match cell(row, 1) {
        "text" => send_text(exchange, cell(row, 2)),
        "html" => send_html(exchange, cell(row, 2)),
        content_type => send(exchange, content_type, cell(row, 2).as_bytes()),
    }
}

fn redirected(exchange: &mut Exchange, row: &str) -> Result<bool, Fault> {
    let location = cell(row, 2);
    match cell(row, 1) {
        "301" => redirect(exchange, RedirectKind::MovedPermanently, location),
        "302" => redirect(exchange, RedirectKind::Found, location),
        "303" => redirect(exchange, RedirectKind::SeeOther, location),
        "307" => redirect(exchange, RedirectKind::Temporary, location),
        "308" => redirect(exchange, RedirectKind::Permanent, location),
        _ => redirect_elsewhere(exchange, RedirectKind::Found, location),
    }
}

fn tell_verb(asked: Result<Option<Verb>, Fault>, told: &mut Draft) {
    match asked {
        Ok(Some(verb)) => told.add(verb_name(verb)),
        Ok(None) => told.add("-"),
        Err(fault) => told.add(fault_name(&fault)),
    }
}

fn verb_name(verb: Verb) -> &'static str {
    match verb {
        Verb::Get => "Get",
        Verb::Post => "Post",
        Verb::Put => "Put",
        Verb::Patch => "Patch",
        Verb::Delete => "Delete",
    }
}

fn tell_done(done: Result<bool, Fault>, told: &mut Draft) {
    match done {
        Ok(done) => told.add_shown(&done),
        Err(fault) => told.add(fault_name(&fault)),
    }
}

fn fault_name(fault: &Fault) -> &'static str {
    match fault {
        Fault::NoMemory => "NoMemory",
        Fault::Refused(_) => "Refused",
        Fault::BadLocation => "BadLocation",
        Fault::BadCookie => "BadCookie",
        Fault::Error(_, _) => "Error",
        Fault::Failed(_, _) => "Failed",
    }
}

fn tell_sent(sent: Result<(), ExchangeFault>, told: &mut Draft) {
    match sent {
        Ok(_) => told.add("sent"),
        Err(fault) => told.add_shown(&fault),
    }
}

/// Adds the status, the fields and the body, except for a flushed body.
fn tell_response(response: &Response, told: &mut Draft) {
    told.add(" | ");
    told.add_shown(&response.status);
    for field in response.fields.as_slice() {
        tell_field(field, told);
    }
    told.add(" | ");
    if let Body::Whole(body) = &response.body {
        let (first, shared, last) = body.slices();
        told.add_bytes(first);
        told.add_bytes(shared);
        told.add_bytes(last);
    }
}

fn tell_field(field: &Field, told: &mut Draft) {
    told.add(" ");
    told.add(field.name.as_str());
    told.add(": ");
    told.add_bytes(field.value.as_bytes());
}
