//! The request of a row's calls.

use http::Method;
use http_header::{HeaderName, HeaderValue};
use std::alloc::Global;
use sv_message::{CookieSettings, Field, Message, Target};
use sv_text::{Bytes, Listed, NoMemory, Text};
use sv_uri::path::Canon;

/// The fields of the request: a Host, two of the same name, and one without a value.
const FIELDS: &str = "host:h,x-two:1,x-two:2,x-none:";

/// A client's request.
#[derive(Drop)]
pub struct Request {
    pub message: Message,
    pub canon: Canon,
    pub cookie_settings: CookieSettings,
}

/// Returns a GET of `/app/a/b?q=1`, with the context `/app`.
pub fn app_request(alloc: Global) -> Result<Request, NoMemory> {
    let message = message(alloc)?;
    let canon = canon(alloc)?;
    let cookie_settings = CookieSettings::standard(alloc)?;
    Ok(Request {
        message,
        canon,
        cookie_settings,
    })
}

fn message(alloc: Global) -> Result<Message, NoMemory> {
    Ok(Message {
        method: Method::GET,
        target: Target::Star,
        minor: 1,
        fields: Listed::from_vec(fields(alloc)?),
        body: Bytes::from_vec(Vec::new(alloc)),
        keep: true,
    })
}

fn canon(alloc: Global) -> Result<Canon, NoMemory> {
    Ok(Canon {
        path: Text::copy_of(alloc, "/a/b")?,
        query: Some(Text::copy_of(alloc, "q=1")?),
    })
}

fn fields(alloc: Global) -> Result<Vec<Field>, NoMemory> {
    let mut fields = Vec::new(alloc);
    for line in FIELDS.split(',') {
        let (name, value) = line.split_once(':').unwrap_or((line, ""));
        fields.push(field(alloc, name.as_bytes(), value.as_bytes())?)?;
    }
    Ok(fields)
}

/// Returns a field. The name and the value must be valid.
pub fn field(alloc: Global, name: &[u8], value: &[u8]) -> Result<Field, NoMemory> {
    let Ok(name) = HeaderName::from_bytes(alloc, name) else {
        return Err(NoMemory);
    };
    let Ok(value) = HeaderValue::from_bytes(alloc, value) else {
        return Err(NoMemory);
    };
    Ok(Field { name, value })
}
