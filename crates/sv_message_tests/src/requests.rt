//! The request of a row's call.

use http::Method;
use http_header::{HeaderName, HeaderValue};
use std::alloc::Global;
use sv_exchange::Request;
use sv_message::{CookieSettings, Message, Target};
use sv_session::Sessions;
use sv_text::{Bytes, Listed};
use sv_uri::path::Canon;
use sv_web::{Exchange, Field, NoMemory, Text};

/// Returns the exchange of a request for `/app/a` with this method and these header lines. The context is `/app`.
pub fn exchange(alloc: Global, method: &str, lines: &str) -> Result<Exchange, NoMemory> {
    let message = message(alloc, method, lines)?;
    let canon = canon(alloc)?;
    let settings = CookieSettings::standard(alloc)?;
    exchange_of(alloc, message, &canon, &settings)
}

fn exchange_of(
    alloc: Global,
    mut message: Message,
    canon: &Canon,
    settings: &CookieSettings,
) -> Result<Exchange, NoMemory> {
    let mut sessions = Sessions::new(alloc, 1, 0);
    let request = Request {
        message: &mut message,
        canon,
        moment: 7,
        words: (0, 1),
    };
    let mut exchange = Exchange::new(alloc);
    exchange.begin(request, "/app", settings, None, &mut sessions)?;
    Ok(exchange)
}

fn canon(alloc: Global) -> Result<Canon, NoMemory> {
    Ok(Canon {
        path: Text::copy_of(alloc, "/a")?,
        query: None,
    })
}

fn message(alloc: Global, method: &str, lines: &str) -> Result<Message, NoMemory> {
    let Ok(method) = Method::from_bytes(alloc, method.as_bytes()) else {
        return Err(NoMemory);
    };
    Ok(Message {
        method,
        target: Target::Star,
        minor: 1,
        fields: Listed::from_vec(fields(alloc, lines)?),
        body: Bytes::from_vec(Vec::new(alloc)),
        keep: true,
    })
}

/// Returns the fields of header lines, separated by `&`.
fn fields(alloc: Global, lines: &str) -> Result<Vec<Field>, NoMemory> {
    let mut fields = Vec::new(alloc);
    for line in lines.split('&') {
        if let Some((name, value)) = line.trim().split_once(": ") {
            fields.push(field(alloc, name.as_bytes(), value.as_bytes())?)?;
        }
    }
    Ok(fields)
}

/// Returns a field. The name and the value must be valid.
fn field(alloc: Global, name: &[u8], value: &[u8]) -> Result<Field, NoMemory> {
    let Ok(name) = HeaderName::from_bytes(alloc, name) else {
        return Err(NoMemory);
    };
    let Ok(value) = HeaderValue::from_bytes(alloc, value) else {
        return Err(NoMemory);
    };
    Ok(Field { name, value })
}
