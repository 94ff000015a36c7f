//! A head whose body is awaited, and the judgement on a head.

ghost use Rattle.std.specs.Prelude.{◌≡◌, []};
ghost use Rattle.sv_wire.specs.Head.{has_body};

use crate::body_reader::Framing;
use crate::item::Item;
use crate::wire_fault::WireFault;
use std::alloc::Global;
use sv_message::Message;
use sv_text::Bytes;

/// A head whose body is awaited: the message without its body, and how the end of the body is found (RFC 9112, section
/// 6).
#[derive(Drop)]
pub struct OwedHead {
    pub message: Message,
    pub framing: Framing,
}

impl OwedHead {
    ghost use Rattle.sv_wire.specs.Reads.{item_of};
    ghost use Rattle.sv_wire.specs.declared.body_reader.BodyEnd.TheVariants.{Complete};

    /// Returns the message of the head with an empty body.
    pub(crate) fn alone(self, alloc: Global) -> Item
        ensures { result ≡ item_of self (Complete []) }
    {
        let body = Bytes::from_vec(Vec::new(alloc));
        Item::Message(self.message.with_body(body))
    }
}

/// The judgement on a head.
#[derive(Drop)]
pub(crate) enum Judgement {
    Refused(WireFault),
    /// It asks for `100 Continue` before its body is sent.
    Expecting(OwedHead),
    /// Its body follows, and may be empty.
    Accepted(OwedHead),
}

/// Returns whether a body with this framing has, or may have, a byte.
pub(crate) fn has_body(framing: Framing) -> bool
    ensures { result ≡ has_body framing }
{
    match framing {
        Framing::Length(count) => count > 0,
        Framing::Chunked => true,
    }
}
