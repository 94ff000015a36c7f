//! Calls of components by index, and stops with sessions.

use crate::lifecycle_components::TestLive;
use crate::lives::{Life, add_life};
use http::Method;
use std::alloc::Global;
use sv_component::{Event, Exchange, Gate, Step};
use sv_journal::Journal;
use sv_message::{CookieSettings, Message, Target};
use sv_rows::{Asks, Draft, Strays, cell, hold};
use sv_session::Sessions;
use sv_text::{Bytes, Listed, NoMemory, Text};
use sv_uri::path::Canon;

/// The calls on a context with a servlet, a filter and two listeners; the attributes of the second of its two sessions;
/// then the answers, the state of the servlet after them, and the entries of the start, the calls and the stop.
const ROWS: &str = r#"
-- Jakarta Servlet 6.0, sections 2.3.3 and 6.2.1: each call is made once
before service after | - | Pass Done done Serving | 1 ContextInitialized, 2 ContextInitialized, filter f init Ready, servlet a init Ready, filter f before Pass, servlet a service 0 Done, filter f after, servlet a destroy, filter f destroy, 2 ContextDestroyed, 1 ContextDestroyed
-- section 2.3.3.2: a servlet that is retired is not destroyed again; one that is away stands
retire               | - | retired Gone           | 1 ContextInitialized, 2 ContextInitialized, filter f init Ready, servlet a init Ready, servlet a destroy, filter f destroy, 2 ContextDestroyed, 1 ContextDestroyed
away                 | - | away Away              | 1 ContextInitialized, 2 ContextInitialized, filter f init Ready, servlet a init Ready, servlet a destroy, filter f destroy, 2 ContextDestroyed, 1 ContextDestroyed
-- sections 7.5 and 11.3.4: sessions end behind the components, by number; their ends are told in reverse, their attributes in declared order
tell                 | k l | told Serving         | 1 ContextInitialized, 2 ContextInitialized, filter f init Ready, servlet a init Ready, 1 RequestInitialized, 2 RequestInitialized, servlet a destroy, filter f destroy, 2 SessionDestroyed 1, 1 SessionDestroyed 1, 2 SessionDestroyed 2, 1 SessionDestroyed 2, 1 AttributeRemoved 2 k, 2 AttributeRemoved 2 k, 1 AttributeRemoved 2 l, 2 AttributeRemoved 2 l, 2 ContextDestroyed, 1 ContextDestroyed
"#;

#[test]
fn calls_by_place_are_made_and_noted(rt: HostRuntime) -> Result<(), Strays> {
    hold(&rt, &[ROWS], &Calls)
}

/// Answers with the results of a row's calls, and the journal after the stop.
struct Calls;

impl Asks for Calls {
    const QUESTION: usize = 2;

    fn answer(&self, alloc: Global, row: &str, answer: &mut Vec<u8>) -> Result<(), NoMemory> {
        let life = Life {
            servlets: "a",
            filters: "f",
            declared: 2,
            handed: 2,
            calls: cell(row, 0),
            attributes: cell(row, 1),
        };
        let mut told = Draft::new(alloc);
        add_life(alloc, &life, &mut told);
        told.add_to(answer)
    }
}

/// Makes the calls of these names on a new exchange, and adds their answers.
pub fn make_all(
    alloc: Global,
    calls: &str,
    live: &mut TestLive,
    journal: &mut Journal,
    told: &mut Draft,
) {
    match request_of_root(alloc) {
        Ok(request) => make_on(alloc, request, calls, live, journal, told),
        Err(_) => told.fail(),
    }
}

fn make_on(
    alloc: Global,
    request: Request,
    calls: &str,
    live: &mut TestLive,
    journal: &mut Journal,
    told: &mut Draft,
) {
    let Request {
        mut message,
        canon,
        cookie_settings,
    } = request;
    let mut sessions = Sessions::new(alloc, 0, 0);
    let mut exchange = Exchange::new(alloc);
    let request = sv_exchange::Request {
        message: &mut message,
        canon: &canon,
        moment: 7,
        words: (0, 0),
    };
    match exchange.begin(request, "", &cookie_settings, None, &mut sessions) {
        Ok(()) => make_each(alloc, calls, live, exchange, journal, told),
        Err(_) => told.fail(),
    }
}

fn make_each(
    alloc: Global,
    calls: &str,
    live: &mut TestLive,
    mut exchange: Exchange,
    journal: &mut Journal,
    told: &mut Draft,
) {
    for call in calls.split_ascii_whitespace() {
        told.add(make(alloc, live, &mut exchange, journal, call));
        told.add(" ");
    }
    let _response = exchange.finish(&mut Sessions::new(alloc, 0, 0));
}

fn make(
    alloc: Global,
    live: &mut TestLive,
    exchange: &mut Exchange,
    journal: &mut Journal,
    call: &str,
) -> &'static str {
    if live.servlets() == 0 || live.filters() == 0 || live.standing(0).is_gone() {
        return "-";
    }
    match call {
        "before" => match live.before(alloc, 0, exchange, journal) {
            Gate::Pass => "Pass",
            _ => "-",
        },
        "service" => match live.service(alloc, 0, exchange, 0, journal) {
            Step::Done => "Done",
            _ => "-",
        },
        "after" => match live.after(alloc, 0, exchange, journal) {
            Ok(()) => "done",
            Err(_) => "-",
        },
        _ => change(alloc, live, journal, call),
    }
}

fn change(alloc: Global, live: &mut TestLive, journal: &mut Journal, call: &str) -> &'static str {
    if live.servlets() == 0 || live.standing(0).is_gone() {
        return "-";
    }
    match call {
        "retire" => {
            live.retire(alloc, 0, journal);
            "retired"
        }
        "away" => {
            live.away(0, 7);
            "away"
        }
        _ => {
            live.tell_all(alloc, &Event::RequestInitialized, journal);
            "told"
        }
    }
}

/// A client's request.
#[derive(Drop)]
struct Request {
    message: Message,
    canon: Canon,
    cookie_settings: CookieSettings,
}

/// Returns a GET request for the root of a context.
fn request_of_root(alloc: Global) -> Result<Request, NoMemory> {
    let path = Text::copy_of(alloc, "/")?;
    let cookie_settings = CookieSettings::standard(alloc)?;
    Ok(Request {
        message: Message {
            method: Method::GET,
            target: Target::Star,
            minor: 1,
            fields: Listed::from_vec(Vec::new(alloc)),
            body: Bytes::from_vec(Vec::new(alloc)),
            keep: true,
        },
        canon: Canon { path, query: None },
        cookie_settings,
    })
}
