//! The values that calls read from an exchange.

use crate::runs::{Sees, add_seen};
use std::alloc::Global;
use sv_exchange::Exchange;
use sv_mapping::Kind;
use sv_message::Response;
use sv_rows::{Asks, Draft, Strays, cell, hold};
use sv_text::NoMemory;

/// The columns: calls; the value to read after them; the value, or `-` if it is missing.
const REQUESTS: &str = r#"
-- Jakarta Servlet 6.0, sections 3.4 and 3.5: what the client sent
flush                 | method         | GET
flush                 | path           | /a/b
flush                 | servlet_path   | ""
flush                 | path_info      | -
flush                 | query          | q=1
flush                 | kind           | REQUEST
flush                 | moment         | 7
write x               | committed      | false
flush                 | committed      | true
flush                 | header host    | h
flush                 | header HOST    | h
flush                 | header x-Two   | 1
flush                 | header x-none  | ""
flush                 | header x-other | -
flush                 | header x two   | -
flush                 | header         | -
set host=g            | header host    | h
enter REQUEST         | servlet_path   | /a
enter REQUEST         | path_info      | /b
visit REQUEST         | kind           | REQUEST

-- Jakarta Servlet 6.0, section 3.3: attributes, by name with case
write x                         | attribute k  | -
attribute k=v                   | attribute k  | v
attribute k=v                   | attribute K  | -
attribute k=v; attribute k=w    | attribute k  | w
attribute k=v; attribute l=w    | attribute l  | w
attribute k=v; attribute l=w    | attribute k  | v
attribute =v                    | attribute    | v
attribute k=                    | attribute k  | ""
flush; attribute k=v            | attribute k  | v
enter INCLUDE; attribute k=v    | attribute k  | v
visit INCLUDE; attribute k=v    | attribute k  | v
attribute jakarta.servlet.k=v   | attribute jakarta.servlet.k | -
attribute jakarta.servlet.=v    | attribute jakarta.servlet.  | -
attribute jakarta.servlet=v     | attribute jakarta.servlet   | v
attribute Jakarta.servlet.k=v   | attribute Jakarta.servlet.k | v
"#;

/// The same columns for dispatches.
const DISPATCHES: &str = r#"
-- Jakarta Servlet 6.0, section 9.4.2: a forward shows its own paths, and tells those of the client
enter FORWARD                            | path         | /f/x
enter FORWARD                            | servlet_path | /f
enter FORWARD                            | path_info    | /x
enter FORWARD                            | query        | f=1
enter FORWARD                            | kind         | FORWARD
visit FORWARD                            | path         | /a/b
enter REQUEST; enter FORWARD             | attribute jakarta.servlet.forward.request_uri  | /app/a/b
enter REQUEST; enter FORWARD             | attribute jakarta.servlet.forward.context_path | /app
enter REQUEST; enter FORWARD             | attribute jakarta.servlet.forward.servlet_path | /a
enter REQUEST; enter FORWARD             | attribute jakarta.servlet.forward.path_info    | /b
enter REQUEST; enter FORWARD             | attribute jakarta.servlet.forward.query_string | q=1
enter REQUEST; enter FORWARD; enter FORWARD | attribute jakarta.servlet.forward.servlet_path | /a
enter FORWARD                            | attribute jakarta.servlet.forward.servlet_path | -
enter FORWARD                            | attribute jakarta.servlet.forward.request_uri  | /app/a/b
visit FORWARD                            | attribute jakarta.servlet.forward.request_uri  | -
enter REQUEST                            | attribute jakarta.servlet.forward.request_uri  | -

-- Jakarta Servlet 6.0, section 9.3.1: an include goes on to show the includer's paths, and tells its own
enter REQUEST; enter INCLUDE             | path         | /a/b
enter REQUEST; enter INCLUDE             | servlet_path | /a
enter REQUEST; enter INCLUDE             | query        | q=1
enter REQUEST; enter INCLUDE             | kind         | INCLUDE
enter FORWARD; enter INCLUDE             | path         | /f/x
enter INCLUDE                            | attribute jakarta.servlet.include.request_uri  | /app/i
enter INCLUDE                            | attribute jakarta.servlet.include.context_path | /app
enter INCLUDE                            | attribute jakarta.servlet.include.servlet_path | /i
enter INCLUDE                            | attribute jakarta.servlet.include.path_info    | -
enter INCLUDE                            | attribute jakarta.servlet.include.query_string | -
enter INFO                               | attribute jakarta.servlet.include.path_info    | /y
enter INFO                               | attribute jakarta.servlet.include.query_string | j=1
enter INFO                               | attribute jakarta.servlet.include.other        | -
enter INFO; enter INCLUDE                | attribute jakarta.servlet.include.path_info    | -
enter INFO; visit INCLUDE                | attribute jakarta.servlet.include.path_info    | /y
enter INFO; enter FORWARD                | attribute jakarta.servlet.include.path_info    | /y
enter INFO; enter FORWARD                | path         | /f/x
visit INFO                               | attribute jakarta.servlet.include.path_info    | -

-- Jakarta Servlet 6.0, section 10.9.1: an error page shows its own paths, and tells where the error arose
enter ERROR                              | path         | /e
enter ERROR                              | kind         | ERROR
enter ERROR                              | query        | -
enter ERROR                              | attribute jakarta.servlet.error.request_uri | /app/a/b
visit ERROR                              | attribute jakarta.servlet.error.request_uri | -
"#;

/// The columns: calls; `answer`; the answer to the last call.
const ANSWERS: &str = r#"
attribute k=v                 | answer | done
attribute k=                  | answer | done
flush; attribute k=v          | answer | done
enter INCLUDE; attribute k=v  | answer | done
attribute jakarta.servlet.k=v | answer | ignored
attribute jakarta.servlet.=v  | answer | ignored
attribute jakarta.servlet=v   | answer | done
flush                         | answer | done
"#;

#[test]
fn an_exchange_returns_its_request(rt: HostRuntime) -> Result<(), Strays> {
    hold(&rt, &[REQUESTS, DISPATCHES, ANSWERS], &Readings)
}

/// Answers with the value that is read after the calls of a row.
struct Readings;

impl Asks for Readings {
    const QUESTION: usize = 2;

    fn answer(&self, alloc: Global, row: &str, answer: &mut Vec<u8>) -> Result<(), NoMemory> {
        add_seen(alloc, row, cell(row, 0), self, answer)
    }
}

impl Sees for Readings {
    fn add_exchange(
        &self,
        _alloc: Global,
        row: &str,
        said: &str,
        exchange: &mut Exchange,
        seen: &mut Draft,
    ) {
        add_reading(seen, exchange, said, cell(row, 1));
    }

    fn add_response(&self, _alloc: Global, _response: &Response, _seen: &mut Draft) {}
}

fn add_reading(reading: &mut Draft, exchange: &Exchange, said: &str, asked: &str) {
    let (call, name) = asked.split_once(' ').unwrap_or((asked, ""));
    match call {
        "answer" => reading.add(said),
        "header" => reading.add_bytes(exchange.header(name).unwrap_or(b"-")),
        "attribute" => reading.add(exchange.attribute(name).unwrap_or("-")),
        _ => reading.add(told(exchange, call)),
    }
}

fn told<'a>(exchange: &'a Exchange, call: &str) -> &'a str {
    match call {
        "method" => exchange.method(),
        "path" => exchange.path(),
        "servlet_path" => exchange.servlet_path(),
        "path_info" => exchange.path_info().unwrap_or("-"),
        "query" => exchange.query().unwrap_or("-"),
        _ => state_told(exchange, call),
    }
}

fn state_told(exchange: &Exchange, call: &str) -> &'static str {
    match call {
        "committed" if exchange.committed() => "true",
        "committed" => "false",
        "moment" if exchange.moment() == 7 => "7",
        "kind" => kind_name(exchange.kind()),
        _ => "?",
    }
}

fn kind_name(kind: Kind) -> &'static str {
    match kind {
        Kind::Request => "REQUEST",
        Kind::Forward => "FORWARD",
        Kind::Include => "INCLUDE",
        Kind::Error => "ERROR",
    }
}
