//! Calls on an exchange, as the rows of tables write them.

use crate::exchange_requests::{Request, exchange};
use std::alloc::Global;
use sv_exchange::{Exchange, ExchangeFault};
use sv_mapping::Kind;
use sv_rows::Draft;
use sv_session::Sessions;
use sv_text::NoMemory;

/// Writes the answers to a row's calls, separated by semicolons. The cookie of the response follows after a bar, if
/// there is one.
pub fn answer_all(
    alloc: Global,
    request: Request<'_>,
    calls: &str,
    answer: &mut Vec<u8>,
) -> Result<(), NoMemory> {
    let mut told = Draft::new(alloc);
    match exchange(alloc, request) {
        Ok(exchange) => tell_all(alloc, exchange, calls, &mut told),
        Err(_) => told.fail(),
    }
    told.add_to(answer)
}

fn tell_all(alloc: Global, mut exchange: Exchange, calls: &str, told: &mut Draft) {
    for call in calls.split(';') {
        tell_call(&mut exchange, call.trim_start(), told);
    }
    tell_cookie(alloc, exchange, told);
}

fn tell_cookie(alloc: Global, mut exchange: Exchange, told: &mut Draft) {
    let response = exchange.finish(&mut Sessions::new(alloc, 0, 0));
    if let Some(cookie) = response.cookie.get() {
        told.add(" | ");
        told.add(cookie.name.as_str());
        told.add("=");
        told.add(cookie.id.as_str());
        told.add(" ");
        told.add(cookie.path.as_str());
        told.add(if cookie.http_only { " HttpOnly" } else { "" });
        tell_age(cookie.max_age, told);
    }
}

fn tell_age(max_age: Option<u32>, told: &mut Draft) {
    if let Some(seconds) = max_age {
        told.add(" ");
        told.add_shown(&seconds);
    }
}

/// Makes a call and adds its answer.
fn tell_call(exchange: &mut Exchange, call: &str, told: &mut Draft) {
    if !told.is_empty() {
        told.add("; ");
    }
    let (name, rest) = call.split_once(' ').unwrap_or((call, ""));
    match name {
        "open" | "end" | "logout" | "flush" | "set" | "remove" => tell_change(
            exchange, name, rest, told,
        ),
        "keep" | "error" | "forward" | "include" => tell_dispatch(exchange, name, rest, told),
        "event" => tell_event(exchange, told),
        "count" => tell_count(exchange, told),
        _ => tell_read(exchange, name, rest, told),
    }
}

fn tell_read(exchange: &Exchange, name: &str, rest: &str, told: &mut Draft) {
    match name {
        "get" => told.add(exchange.session_get(rest).unwrap_or("-")),
        "attribute" => told.add(exchange.attribute(rest).unwrap_or("-")),
        "caller" => told.add(exchange.caller().map_or("-", |caller| caller.name.as_str())),
        "role" => told.add(if exchange.is_user_in_role(rest) {
            "yes"
        } else {
            "no"
        }),
        "session" => tell_number(exchange.session(), told),
        "kept" => tell_number(exchange.kept().map(|kept| u64::from(kept.status)), told),
        "parameters" => tell_parameters(exchange, told),
        _ => tell_parameter(exchange, rest, told),
    }
}

fn tell_number(number: Option<u64>, told: &mut Draft) {
    match number {
        Some(number) => told.add_shown(&number),
        None => told.add("-"),
    }
}

fn tell_parameter(exchange: &Exchange, name: &str, told: &mut Draft) {
    match exchange.parameter(name) {
        Ok(Some(value)) => told.add(value.as_str()),
        Ok(None) => told.add("-"),
        Err(_) => told.fail(),
    }
}

/// Adds all parameters, each in parentheses.
fn tell_parameters(exchange: &Exchange, told: &mut Draft) {
    let Ok(parameters) = exchange.parameters() else {
        told.fail();
        return;
    };
    for parameter in parameters.iter() {
        told.add("(");
        told.add(parameter.0.as_str());
        told.add(" ");
        told.add(parameter.1.as_str());
        told.add(")");
    }
}

fn tell_event(exchange: &mut Exchange, told: &mut Draft) {
    match exchange.take_event() {
        Some(event) => told.add_shown(&event),
        None => told.add("-"),
    }
}

/// Counts a call, up to the greatest number, and adds the number of calls.
fn tell_count(exchange: &mut Exchange, told: &mut Draft) {
    if exchange.calls() < u32::MAX {
        exchange.count_call();
    }
    tell_number(Some(u64::from(exchange.calls())), told);
}

fn tell_change(exchange: &mut Exchange, name: &str, rest: &str, told: &mut Draft) {
    match change(exchange, name, rest) {
        Ok(done) => told.add_shown(&done),
        Err(fault) => told.add_shown(&fault),
    }
}

fn change(exchange: &mut Exchange, name: &str, rest: &str) -> Result<bool, ExchangeFault> {
    match name {
        "open" => exchange.session_open(),
        "end" => exchange.session_end(),
        "logout" => exchange.logout(),
        "flush" => exchange.flush(),
        _ => change_attribute(exchange, name, rest),
    }
}

fn change_attribute(
    exchange: &mut Exchange,
    name: &str,
    rest: &str,
) -> Result<bool, ExchangeFault> {
    match name {
        "set" => set(exchange, rest),
        _ => exchange.session_remove(rest),
    }
}

fn set(exchange: &mut Exchange, rest: &str) -> Result<bool, ExchangeFault> {
    let (name, value) = rest.split_once('=').unwrap_or((rest, ""));
    exchange.session_set(name, value)
}

/// Keeps an error or begins a dispatch.
fn tell_dispatch(exchange: &mut Exchange, name: &str, rest: &str, told: &mut Draft) {
    let done = match name {
        "keep" => keep(exchange, rest),
        "error" => exchange.enter(Kind::Error, "/e", "/e", None, Some(rest)),
        "forward" => exchange.enter(Kind::Forward, "/b", "/b", None, Some(rest)),
        _ => exchange.enter(Kind::Include, "/b", "/b", None, Some(rest)),
    };
    told.add(if done.is_ok() { "done" } else { "NoMemory" });
}

fn keep(exchange: &mut Exchange, rest: &str) -> Result<(), NoMemory> {
    let (status, rest) = rest.split_once(' ').unwrap_or((rest, ""));
    let (servlet, text) = rest.split_once(' ').unwrap_or((rest, ""));
    let status = status.parse::<u16>().unwrap_or(0);
    let servlet = if servlet == "-" { None } else { Some(servlet) };
    exchange.keep_error(status, text, servlet, None)
}
