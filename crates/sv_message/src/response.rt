//! A response of the container.

ghost use Rattle.std.specs.Prelude.{◌↔◌, IsTrue};
ghost use Rattle.http.specs.StatusCode.{IsStatusCode};

use crate::body::Body;
use crate::field::Field;
use crate::rare::Rare;
use sv_text::{Listed, Text};

/// A response (RFC 9110, section 6).
#[derive(Drop)]
pub struct Response {
    /// The status code. Only a code from 100 to 999 can be written.
    pub status: u16,
    /// The fields in the order of their lines, without those that `write_response` of `sv_wire` adds.
    pub fields: Listed<Field>,
    /// The session cookie that the response sets, if any.
    pub cookie: Rare<Cookie>,
    pub body: Body,
}

/// A session cookie of a response (RFC 6265, section 4.1; Jakarta Servlet 6.0, section 7.1.1).
#[derive(Drop)]
pub struct Cookie {
    /// The cookie's name.
    pub name: Text,
    /// The session's id.
    pub id: Text,
    /// The path under which the client sends the cookie back, as it is written in the line.
    pub path: Text,
    /// Whether the cookie is hidden from scripts.
    pub http_only: bool,
    /// The lifetime of the cookie in seconds; `None` if it lasts until the client ends.
    pub max_age: Option<u32>,
}

impl Response {
    /// Returns whether the status is from 100 to 999, as `write_response` of `sv_wire` requires.
    pub fn has_status_code(&self) -> bool
        ensures { IsTrue result ↔ IsStatusCode self.now.status }
    {
        (100..1000).contains(&self.status)
    }
}
