//! Calls on an exchange, as the rows of tables write them.

ghost use Rattle.std.specs.Prelude.{◌<◌, length, OnOk};

use bytes::Bytes;
use std::alloc::Global;
use sv_exchange::{Exchange, ExchangeFault};
use sv_mapping::Kind;

/// Makes calls on the exchange, separated by semicolons, and returns the answer to the last one.
pub fn call_all(alloc: Global, exchange: &mut Exchange, calls: &str) -> &'static str {
    answered(make_all(alloc, exchange, calls))
}

fn make_all(alloc: Global, exchange: &mut Exchange, calls: &str) -> Result<bool, ExchangeFault> {
    let mut done = Ok(true);
    for call in calls.split(';') {
        let call = call.trim_start();
        let (name, rest) = call.split_once(' ').unwrap_or((call, ""));
        done = make(alloc, exchange, name, rest);
    }
    done
}

/// Makes the call of this name.
fn make(
    alloc: Global,
    exchange: &mut Exchange,
    name: &str,
    rest: &str,
) -> Result<bool, ExchangeFault> {
    match name {
        "enter" => enter(exchange, rest),
        "visit" => visit(exchange, rest),
        "fill" => fill(alloc, exchange, rest.parse::<usize>().unwrap_or(0)),
        "lend" => lend(alloc, exchange, rest.parse::<usize>().unwrap_or(0)),
        "clear" => Ok(clear(exchange)),
        "reset" => Ok(reset(exchange)),
        "set" | "add" | "attribute" => change_named(exchange, name, rest),
        _ => change(exchange, name, rest),
    }
}

/// Makes a call that sets a name to a value.
fn change_named(exchange: &mut Exchange, call: &str, rest: &str) -> Result<bool, ExchangeFault> {
    let (name, value) = rest.split_once('=').unwrap_or((rest, ""));
    match call {
        "set" => exchange.set_header(name, value),
        "add" => exchange.add_header(name, value),
        _ => exchange.set_attribute(name, value),
    }
}

/// Sets the status, writes, or flushes.
fn change(exchange: &mut Exchange, call: &str, rest: &str) -> Result<bool, ExchangeFault> {
    match call {
        "status" => exchange.set_status(rest.trim_end().parse::<u16>().unwrap_or(0)),
        "write" => exchange.write(rest.as_bytes()),
        _ => exchange.flush(),
    }
}

/// Writes this number of bytes.
fn fill(alloc: Global, exchange: &mut Exchange, count: usize) -> Result<bool, ExchangeFault> {
    let bytes = Vec::from_elem(alloc, b'x', count)?;
    exchange.write(bytes.as_slice())
}

/// Writes this number of bytes that have a further owner.
fn lend(alloc: Global, exchange: &mut Exchange, count: usize) -> Result<bool, ExchangeFault> {
    let Ok(bytes) = Bytes::from_vec(Vec::from_elem(alloc, b'x', count)?) else {
        return Err(ExchangeFault::NoMemory);
    };
    exchange.write_shared(&bytes)
}

fn clear(exchange: &mut Exchange) -> bool {
    exchange.clear();
    true
}

fn reset(exchange: &mut Exchange) -> bool {
    exchange.reset();
    true
}

fn answered(done: Result<bool, ExchangeFault>) -> &'static str {
    match done {
        Ok(true) => "done",
        Ok(false) => "ignored",
        Err(ExchangeFault::NoMemory) => "NoMemory",
        Err(ExchangeFault::BadHeader) => "BadHeader",
        Err(ExchangeFault::TooLarge) => "TooLarge",
        Err(_) => "?",
    }
}

/// Begins the dispatch of this name. Each kind has its own path, and includes have two.
fn enter(exchange: &mut Exchange, name: &str) -> Result<bool, ExchangeFault>
    ensures { OnOk result (0 < length exchange.new.dispatches) }
{
    match name {
        "REQUEST" => begin(
            exchange,
            Kind::Request,
            "/a/b",
            "/a",
            Some("/b"),
            Some("q=1"),
        ),
        "FORWARD" => begin(
            exchange,
            Kind::Forward,
            "/f/x",
            "/f",
            Some("/x"),
            Some("f=1"),
        ),
        "INCLUDE" => begin(exchange, Kind::Include, "/i", "/i", None, None),
        "INFO" => begin(
            exchange,
            Kind::Include,
            "/j/y",
            "/j",
            Some("/y"),
            Some("j=1"),
        ),
        _ => begin(exchange, Kind::Error, "/e", "/e", None, None),
    }
}

/// Begins a dispatch to a path, which is split into a servlet path and a path info.
fn begin(
    exchange: &mut Exchange,
    kind: Kind,
    path: &str,
    servlet_path: &str,
    path_info: Option<&str>,
    query: Option<&str>,
) -> Result<bool, ExchangeFault>
    ensures { OnOk result (0 < length exchange.new.dispatches) }
{
    match exchange.enter(kind, path, servlet_path, path_info, query) {
        Ok(()) => Ok(true),
        Err(_) => Err(ExchangeFault::NoMemory),
    }
}

/// Begins a dispatch and ends it.
fn visit(exchange: &mut Exchange, name: &str) -> Result<bool, ExchangeFault> {
    enter(exchange, name)?;
    exchange.leave();
    Ok(true)
}
