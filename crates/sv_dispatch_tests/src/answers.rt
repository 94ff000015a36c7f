//! The answers of a context to the requests of a row.

use crate::contexts::{TestApp, TestContext, context, declared};
use crate::requests::{Request, exchange, path, read_request};
use crate::results::{beside, nothing_of};
use std::alloc::Global;
use sv_dispatch::{dispatch, serve, show_error};
use sv_exchange::{Exchange, KeptError};
use sv_journal::Journal;
use sv_message::{Body, Response};
use sv_rows::Draft;
use sv_session::Sessions;
use sv_text::NoMemory;
use sv_tree::Finished;
use sv_uri::path::Canon;
use sv_wire::{DateText, write_response};

/// The kind of answer that a request asks for.
#[derive(Clone, Copy)]
pub enum Asking {
    /// Only the dispatch.
    Dispatched,
    /// The dispatch, and the response to the error if it ends in one.
    Answered,
    /// The response to an error of this status, without a dispatch.
    Refused(u16),
}

/// Writes the answers of a context to requests. Each consists of the entries; the result and the kept error, if only a
/// dispatch was asked for; the status with the fields and the cookie; and the body.
pub fn answer_all(
    alloc: Global,
    declared: &str,
    requests: &str,
    asking: Asking,
    answer: &mut Vec<u8>,
) -> Result<(), NoMemory> {
    let mut told = Draft::new(alloc);
    match context(alloc, declared) {
        Some(context) => ask_all(alloc, declared, context, requests, asking, &mut told),
        None => told.add("no context"),
    }
    told.add_to(answer)
}

fn ask_all(
    alloc: Global,
    row: &str,
    context: TestContext,
    requests: &str,
    asking: Asking,
    told: &mut Draft,
) {
    let TestContext { mut app, sessions } = context;
    ask_each(alloc, row, requests, asking, &mut app, sessions, told);
}

fn ask_each(
    alloc: Global,
    row: &str,
    requests: &str,
    asking: Asking,
    app: &mut TestApp,
    sessions: Sessions,
    told: &mut Draft,
) {
    let mut sessions = Some(sessions);
    for part in requests.split(';') {
        if !told.is_empty() {
            told.add(" | ");
        }
        let request = read_request(part.trim());
        let asked = asked(alloc, row, request, sessions);
        sessions = ask_one(alloc, request, asking, app, asked, told);
    }
}

/// Returns the path and the exchange of a request, or none if the sessions are gone or memory has run out.
fn asked(
    alloc: Global,
    row: &str,
    request: Request<'_>,
    sessions: Option<Sessions>,
) -> Option<(Canon, Exchange)> {
    match sessions {
        Some(sessions) => asked_with(alloc, row, request, sessions),
        None => None,
    }
}

fn asked_with(
    alloc: Global,
    row: &str,
    request: Request<'_>,
    sessions: Sessions,
) -> Option<(Canon, Exchange)> {
    match path(alloc, request.target) {
        Some(canon) => {
            let exchange = exchange(alloc, request, &canon, declared(row, "context"), sessions);
            beside(canon, exchange)
        }
        None => nothing_of(sessions),
    }
}

/// Makes a request and returns the sessions, or none if the request could not be made.
fn ask_one(
    alloc: Global,
    request: Request<'_>,
    asking: Asking,
    app: &mut TestApp,
    asked: Option<(Canon, Exchange)>,
    told: &mut Draft,
) -> Option<Sessions> {
    match asked {
        Some(asked) => Some(ask(alloc, request, asking, app, asked, told)),
        None => {
            told.fail();
            None
        }
    }
}

fn ask(
    alloc: Global,
    request: Request<'_>,
    asking: Asking,
    app: &mut TestApp,
    asked: (Canon, Exchange),
    told: &mut Draft,
) -> Sessions {
    let (canon, mut exchange) = asked;
    make(
        alloc,
        request,
        &canon,
        request.asking(asking),
        app,
        &mut exchange,
        told,
    );
    finish(alloc, exchange, told)
}

/// Adds the response of an exchange and returns its sessions.
fn finish(alloc: Global, mut exchange: Exchange, told: &mut Draft) -> Sessions {
    let mut sessions = Sessions::new(alloc, 0, 0);
    let response = exchange.finish(&mut sessions);
    add_response(alloc, told, &response);
    sessions
}

/// Makes a request, and adds its entries and, if only a dispatch was asked for, the result.
fn make(
    alloc: Global,
    request: Request<'_>,
    canon: &Canon,
    asking: Asking,
    app: &mut TestApp,
    exchange: &mut Exchange,
    told: &mut Draft,
) {
    let mut journal = Journal::new(alloc);
    match answered(alloc, app, exchange, request, canon, asking, &mut journal) {
        Ok(finished) => {
            add_entries(told, alloc, &journal);
            add_result(told, finished.as_ref(), exchange);
        }
        Err(_) => told.fail(),
    }
}

/// Dispatches a request or answers it. Returns the result if only a dispatch was asked for. Fails if the numbers of
/// components differ from those of the descriptor, which a started context rules out.
fn answered(
    alloc: Global,
    app: &mut TestApp,
    exchange: &mut Exchange,
    request: Request<'_>,
    canon: &Canon,
    asking: Asking,
    journal: &mut Journal,
) -> Result<Option<Finished>, NoMemory> {
    let TestApp { live, site } = app;
    let declared = site.descriptor().web_app();
    if live.servlets() != declared.servlets.as_slice().len()
        || live.filters() != declared.filters.as_slice().len()
        || live.listeners() != declared.listeners.as_slice().len()
    {
        return Err(NoMemory);
    }
    let kind = request.kind;
    match asking {
        Asking::Dispatched => {
            let finished = dispatch(alloc, live, exchange, site, kind, canon, journal)?;
            return Ok(Some(finished));
        }
        Asking::Answered => serve(alloc, live, exchange, site, kind, canon, journal)?,
        Asking::Refused(status) => {
            let page = site.page(alloc, status, None)?;
            show_error(alloc, live, exchange, site, status, page.as_ref(), journal)?;
        }
    }
    Ok(None)
}

/// Adds the entries of a journal without their first two words, which are the same for all entries of a kind. Of more
/// than 40 entries it adds only the number.
fn add_entries(told: &mut Draft, alloc: Global, journal: &Journal) {
    let entries = journal.entries();
    if entries.len() > 40 {
        told.add_shown(&entries.len());
        told.add(" entries | ");
        return;
    }
    let mut front = "";
    for entry in entries {
        told.add(front);
        front = ", ";
        match format!(in alloc; "{entry}") {
            Ok(line) => told.add(line.splitn(3, ' ').nth(2).unwrap_or("")),
            Err(_) => told.fail(),
        }
    }
    told.add(" | ");
}

/// Adds the result of a dispatch, if there is one, and the kept error.
fn add_result(told: &mut Draft, finished: Option<&Finished>, exchange: &Exchange) {
    if let Some(finished) = finished {
        add_finished(told, finished);
        add_kept(told, exchange.kept());
        told.add(" | ");
    }
}

fn add_finished(told: &mut Draft, finished: &Finished) {
    match finished {
        Finished::Done => told.add("Done"),
        Finished::Error(status, text) => {
            told.add("Error ");
            told.add_shown(status);
            told.add(" ");
            told.add(text.as_str());
        }
        Finished::Failed(kind, text) => {
            told.add("Failed ");
            told.add(kind.as_str());
            told.add(" ");
            told.add(text.as_str());
        }
    }
}

/// Adds the servlet that caused a kept error, and the field of the error, if any.
fn add_kept(told: &mut Draft, kept: Option<&KeptError>) {
    if let Some(kept) = kept {
        told.add(" in ");
        told.add(name_of(kept));
        if let Some(field) = &kept.field {
            told.add(", ");
            told.add(field.name.as_str());
            told.add(": ");
            told.add(field.value.as_str());
        }
    }
}

fn name_of(kept: &KeptError) -> &str {
    match &kept.servlet {
        Some(servlet) => servlet.as_str(),
        None => "-",
    }
}

fn add_response(alloc: Global, told: &mut Draft, response: &Response) {
    told.add_shown(&response.status);
    for field in response.fields.as_slice() {
        told.add(", ");
        told.add(field.name.as_str());
        told.add(": ");
        told.add_bytes(field.value.as_bytes());
    }
    if let Some(cookie) = response.cookie.get() {
        told.add(", cookie ");
        told.add(cookie.id.as_str());
        told.add(" ");
        told.add(cookie.path.as_str());
    }
    told.add(" | ");
    match &response.body {
        Body::Whole(body) => match body.copied(alloc) {
            Ok(body) => add_body(told, body.as_slice()),
            Err(_) => told.fail(),
        },
        Body::Flushed { .. } => add_sent(alloc, told, response),
    }
}

/// Adds the bytes that are sent after the head of a response.
fn add_sent(alloc: Global, told: &mut Draft, response: &Response) {
    let room = Vec::new(alloc);
    let mut sent = Vec::new(alloc);
    if !response.has_status_code()
        || write_response(response, false, true, &DateText::at(0), room, &mut sent).is_err()
    {
        told.fail();
        return;
    }
    let sent = std::str::from_utf8(sent.as_slice()).unwrap_or("");
    let (_, body) = sent.split_once("\r\n\r\n").unwrap_or((sent, ""));
    add_body(told, body.as_bytes());
}

/// Adds a body, or its length if it has more than 200 bytes.
fn add_body(told: &mut Draft, body: &[u8]) {
    if body.len() <= 200 {
        told.add_bytes(body);
    } else {
        told.add_shown(&body.len());
        told.add(" bytes");
    }
}
