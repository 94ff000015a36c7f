//! Calls on an exchange, and the results that a table checks after them.

use crate::calls::call_all;
use crate::requests::{Request, app_request};
use std::alloc::Global;
use sv_exchange::Exchange;
use sv_message::Response;
use sv_rows::{Draft, unescaped_text};
use sv_session::Sessions;
use sv_text::NoMemory;

/// The part of an exchange that a table checks after the calls of a row.
pub trait Sees {
    /// Adds the part of the exchange. `said` is the answer to the last call.
    fn add_exchange(
        &self,
        alloc: Global,
        row: &str,
        said: &str,
        exchange: &mut Exchange,
        seen: &mut Draft,
    );

    /// Adds the part of the response.
    fn add_response(&self, alloc: Global, response: &Response, seen: &mut Draft);
}

/// Makes calls on an exchange, separated by semicolons, and adds the results after them.
pub fn add_seen<S: Sees>(
    alloc: Global,
    row: &str,
    calls: &str,
    sees: &S,
    answer: &mut Vec<u8>,
) -> Result<(), NoMemory> {
    let calls = unescaped_text(alloc, calls)?;
    let mut seen = Draft::new(alloc);
    ask(alloc, row, calls.as_str(), sees, &mut seen);
    seen.add_to(answer)
}

fn ask<S: Sees>(alloc: Global, row: &str, calls: &str, sees: &S, seen: &mut Draft) {
    match app_request(alloc) {
        Ok(request) => begin(alloc, row, calls, request, sees, seen),
        Err(_) => seen.fail(),
    }
}

fn begin<S: Sees>(
    alloc: Global,
    row: &str,
    calls: &str,
    request: Request,
    sees: &S,
    seen: &mut Draft,
) {
    let Request {
        mut message,
        canon,
        cookie_settings,
    } = request;
    let mut sessions = Sessions::new(alloc, 0, 0);
    let mut exchange = Exchange::new(alloc);
    let request = sv_exchange::Request {
        message: &mut message,
        canon: &canon,
        moment: 7,
        words: (0, 0),
    };
    match exchange.begin(request, "/app", &cookie_settings, None, &mut sessions) {
        Ok(()) => run(alloc, row, calls, exchange, sees, seen),
        Err(_) => seen.fail(),
    }
}

fn run<S: Sees>(
    alloc: Global,
    row: &str,
    calls: &str,
    mut exchange: Exchange,
    sees: &S,
    seen: &mut Draft,
) {
    let said = call_all(alloc, &mut exchange, calls);
    sees.add_exchange(alloc, row, said, &mut exchange, seen);
    let response = exchange.finish(&mut Sessions::new(alloc, 0, 0));
    sees.add_response(alloc, &response, seen);
}
