//! The requests of rows, and their exchanges.

use crate::requests::field;
use http::Method;
use std::alloc::Global;
use sv_exchange::{Exchange, HeldSession};
use sv_message::{CookieSettings, Field, Message, Rare, Target};
use sv_realm::Caller;
use sv_session::Sessions;
use sv_text::{Bytes, Listed, NoMemory, Text};
use sv_uri::path::Canon;

/// A request for `/app/a`.
#[derive(Clone, Copy)]
pub struct Request<'a> {
    pub method: &'a str,
    pub content_type: &'a str,
    pub query: &'a str,
    pub body: &'a str,
    /// The session of the request; see [`held`].
    pub session: &'a str,
    /// The settings of its context's session cookie.
    pub cookie: Cookie<'a>,
}

/// The settings of a session cookie. A path or an age of `-` means none.
#[derive(Clone, Copy)]
pub struct Cookie<'a> {
    pub name: &'a str,
    pub path: &'a str,
    pub http_only: bool,
    pub max_age: &'a str,
}

/// The settings if a descriptor has none.
pub const STANDARD: Cookie<'static> = Cookie {
    name: "JSESSIONID",
    path: "-",
    http_only: true,
    max_age: "-",
};

/// Returns the exchange of a request in the context `/app`, at the time 7.
pub fn exchange(alloc: Global, request: Request<'_>) -> Result<Exchange, NoMemory> {
    let message = message(alloc, request)?;
    let canon = canon(alloc, request.query)?;
    let settings = settings(alloc, request.cookie)?;
    exchange_of(alloc, message, &canon, &settings, request.session)
}

fn settings(alloc: Global, cookie: Cookie<'_>) -> Result<CookieSettings, NoMemory> {
    let path = match cookie.path {
        "-" => None,
        path => Some(Text::copy_of(alloc, path)?),
    };
    Ok(CookieSettings {
        name: Text::copy_of(alloc, cookie.name)?,
        path,
        http_only: cookie.http_only,
        max_age: cookie.max_age.parse::<u32>().ok(),
    })
}

fn exchange_of(
    alloc: Global,
    mut message: Message,
    canon: &Canon,
    settings: &CookieSettings,
    session: &str,
) -> Result<Exchange, NoMemory> {
    let held = held(alloc, session)?;
    let mut sessions = sessions(alloc, if session == "full" { 1 } else { 2 });
    let request = sv_exchange::Request {
        message: &mut message,
        canon,
        moment: 7,
        words: (0, 1),
    };
    let mut exchange = Exchange::new(alloc);
    exchange.begin(request, "/app", settings, held, &mut sessions)?;
    Ok(exchange)
}

fn canon(alloc: Global, query: &str) -> Result<Canon, NoMemory> {
    Ok(Canon {
        path: Text::copy_of(alloc, "/a")?,
        query: Some(Text::copy_of(alloc, query)?),
    })
}

fn message(alloc: Global, request: Request<'_>) -> Result<Message, NoMemory> {
    Ok(Message {
        method: method(request.method),
        target: Target::Star,
        minor: 1,
        fields: Listed::from_vec(fields(alloc, request.content_type)?),
        body: Bytes::copy_of(alloc, request.body.as_bytes())?,
        keep: true,
    })
}

fn method(name: &str) -> Method {
    match name {
        "POST" => Method::POST,
        "PUT" => Method::PUT,
        _ => Method::GET,
    }
}

fn fields(alloc: Global, content_type: &str) -> Result<Vec<Field>, NoMemory> {
    let mut fields = Vec::new(alloc);
    fields.push(field(alloc, b"content-type", content_type.as_bytes())?)?;
    Ok(fields)
}

/// Returns the sessions of a context with one session, which has the attributes n and m. Parts are missing if memory
/// runs out.
fn sessions(alloc: Global, limit: usize) -> Sessions {
    let mut sessions = Sessions::new(alloc, limit, 0);
    let _opened = sessions.open((0, 0), 0);
    let _n_set = sessions.set(1, "n", "1");
    let _m_set = sessions.set(1, "m", "1");
    sessions
}

/// Returns the session of a request: `held`, or `renewed` if the message opened or renamed it. Other words mean none.
fn held(alloc: Global, session: &str) -> Result<Option<HeldSession>, NoMemory> {
    if session == "held" || session == "renewed" {
        Ok(Some(HeldSession {
            number: 1,
            is_renewed: session == "renewed",
            caller: Rare::some(alloc, ann(alloc)?)?,
        }))
    } else {
        Ok(None)
    }
}

/// Returns the caller ann with the role a.
fn ann(alloc: Global) -> Result<Caller, NoMemory> {
    Ok(Caller {
        number: 0,
        name: Text::copy_of(alloc, "ann")?,
        roles: roles(alloc)?,
    })
}

fn roles(alloc: Global) -> Result<Listed<Text>, NoMemory> {
    let mut roles = Vec::new(alloc);
    roles.push(Text::copy_of(alloc, "a")?)?;
    Ok(Listed::from_vec(roles))
}
