//! What a log of accesses needs of the messages that an event answered.

ghost use Rattle.std.specs.Prelude.{◌≡◌, codes};
ghost use Rattle.sv_run.specs.Accesses as spec;
ghost use Rattle.sv_text.specs.Gives.{GivesAnswer};

use std::alloc::Global;
use sv_message::{Field, Message, Target};
use sv_text::{Bytes, NoMemory, Text};

/// A message that an event answered, as a log of accesses needs it. The accesses of an event are in the order of their
/// responses. The last entries of the event's journal are about its messages: the first of an access's entries says what
/// became of the message, and the others are about its calls.
#[derive(Drop)]
pub struct Access {
    /// The request; none if its bytes were refused before they were a message.
    pub request: Option<LoggedRequest>,
    /// The place of the context that handled the message; none if the container answered it itself.
    pub context: Option<usize>,
    /// The number of the user who was logged in to the session that the request's cookies name, before it was handled.
    pub caller: Option<u32>,
    /// The status code of the response.
    pub status: u16,
    /// The number of bytes of the response, with its head.
    pub sent: usize,
    /// How many entries of the event's journal are about the message, at least one.
    pub entries: usize,
}

/// The parts of a request that a log of accesses shows (RFC 9112, section 3; RFC 9110, sections 10.1.3 and 10.1.5). Its
/// texts are as the client sent them, so they may contain any byte that a message may contain.
#[derive(Drop)]
pub struct LoggedRequest {
    /// The method.
    pub method: Text,
    /// The path with its query, or `*`.
    pub target: Bytes,
    /// The minor version: 0 for `HTTP/1.0`, 1 for `HTTP/1.1`.
    pub minor: u8,
    /// The value of the first `Referer` field.
    pub referer: Option<Bytes>,
    /// The value of the first `User-Agent` field.
    pub user_agent: Option<Bytes>,
}

impl LoggedRequest {
    /// Copies the parts of a message that a log shows.
    pub(crate) fn copy_of(alloc: Global, message: &Message) -> Result<LoggedRequest, NoMemory>
        ensures { GivesAnswer result (spec.logged_request message.now) }
    {
        let fields = message.fields.as_slice();
        Ok(LoggedRequest {
            method: Text::copy_of(alloc, message.method.as_str())?,
            target: Bytes::copy_of(alloc, target_text(&message.target))?,
            minor: message.minor,
            referer: first_value(alloc, fields, "referer")?,
            user_agent: first_value(alloc, fields, "user-agent")?,
        })
    }
}

fn target_text(target: &Target) -> &[u8]
    ensures { result.now ≡ spec.target_text target.now }
{
    match target {
        Target::Star => b"*",
        Target::Path(text) => text.as_slice(),
    }
}

/// Copies the value of the first field with the name, which is in lower case.
fn first_value(alloc: Global, fields: &[Field], name: &str) -> Result<Option<Bytes>, NoMemory>
    ensures { GivesAnswer result (spec.first_value name.now fields.now) }
{
    match fields.iter().find(|field| field.is_named(name)) {
        Some(field) => Ok(Some(Bytes::copy_of(alloc, field.value.as_bytes())?)),
        None => Ok(None),
    }
}
