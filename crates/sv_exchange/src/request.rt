//! The request of an exchange, and queries on its message.

ghost use Rattle.std.specs.Prelude.{◌≡◌};
ghost use Rattle.std.specs.Option.{option_copied};

use crate::exchange::Exchange;
use crate::fields::is_called;
use sv_message::{Field, Message, media_type};
use sv_uri::path::Canon;

/// A message as its context receives it (Jakarta Servlet 6.0, section 3.5). Contracts name it by `asked_in`.
#[derive(Drop)]
pub struct Request<'a> {
    /// The message. It is lent so that the exchange that answers it can take its parts.
    pub message: &'a mut Message,
    /// The canonical path within the context, with the query.
    pub canon: &'a Canon,
    /// The time at which the message is handled, in seconds since 1970.
    pub moment: u64,
    /// The two random words of the message.
    pub words: (u64, u64),
}

impl Exchange {
    ghost use Rattle.sv_exchange.specs.Request.{client_path_of, client_uri_of, media_type_of, value_at};

    /// Returns the body of the request, without any transfer coding (Jakarta Servlet 6.0, section 3.1.1).
    pub fn body(&self) -> &[u8]
        ensures { result.now ≡ self.now.body }
    {
        self.body.as_slice()
    }

    /// Returns the fields of the request, in the order of their lines (Jakarta Servlet 6.0, section 3.4). Their names
    /// are in lower case.
    pub fn request_fields(&self) -> &[Field]
        ensures { result.now ≡ self.now.request_fields }
    {
        self.request_fields.as_slice()
    }

    /// Returns the value at an index, from 0, among the fields with the name, in any case; `None` past the last
    /// (Jakarta Servlet 6.0, section 3.4).
    pub fn header_at(&self, name: &str, place: usize) -> Option<&[u8]>
        ensures { option_copied result ≡ value_at name.now place self.now.request_fields }
    {
        let mut left = place;
        for field in self.request_fields.iter() {
            if is_called(name, field) {
                if left == 0 {
                    return Some(field.value.as_bytes());
                }
                left -= 1;
            }
        }
        None
    }

    /// Returns the media type of the body: the first Content-Type without its parameters and the blanks around it. Its
    /// case is kept. Returns `None` if there is no Content-Type (Jakarta Servlet 6.0, section 3.1.1).
    pub fn media_type(&self) -> Option<&[u8]>
        ensures { option_copied result ≡ media_type_of self.now }
    {
        let value = self.header("content-type")?;
        Some(media_type(value))
    }

    /// Returns the path of the context, not encoded; empty for the root context (Jakarta Servlet 6.0, section 3.5).
    pub fn context_path(&self) -> &str
        ensures { result.now ≡ self.now.context_path }
    {
        self.context_path.as_str()
    }

    /// Returns the canonical path in the context that the client requested, regardless of dispatches (Jakarta Servlet
    /// 6.0, section 3.5).
    pub fn client_path(&self) -> &str
        ensures { result.now ≡ client_path_of self.now }
    {
        self.client.path.as_str()
    }

    /// Returns the context path with the path that the client requested, regardless of dispatches (Jakarta Servlet 6.0,
    /// section 3.5).
    pub fn client_uri(&self) -> &str
        ensures { result.now ≡ client_uri_of self.now }
    {
        self.client.uri()
    }
}
