//! A request in the form that the container handles.

ghost use Rattle.std.specs.Prelude.{◌≡◌};
ghost use Rattle.sv_message.specs.Messages.{with_body};

use crate::field::Field;
use http::Method;
use sv_text::{Bytes, Listed};

/// A whole request (RFC 9112, section 2).
#[derive(Drop)]
pub struct Message {
    pub method: Method,
    pub target: Target,
    /// The minor version: 0 for `HTTP/1.0`, 1 for `HTTP/1.1`.
    pub minor: u8,
    /// The fields in the order of their lines.
    pub fields: Listed<Field>,
    pub body: Bytes,
    /// Whether another request may follow on the connection (RFC 9112, section 9.3). If not, the inbox is spent after
    /// the message.
    pub keep: bool,
}

impl Message {
    /// Returns the message with the given body.
    pub fn with_body(self, body: Bytes) -> Message
        ensures { result ≡ with_body body self }
    {
        Message { body, ..self }
    }
}

/// The target of a request (RFC 9112, section 3.2).
#[derive(Drop)]
pub enum Target {
    /// `*`: the server itself.
    Star,
    /// A path with its query, as it was sent. It may share the text of the head.
    Path(bytes::Bytes),
}
