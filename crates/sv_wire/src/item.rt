//! The items that an inbox reads from a stream.

ghost use Rattle.std.specs.Prelude.{◌≡◌};

use crate::wire_fault::WireFault;
use sv_message::Message;

/// An item of a stream.
#[derive(Drop)]
pub enum Item {
    /// A head whose body is awaited asks for `100 Continue` (RFC 9110, section 10.1.1).
    Continue,
    /// A whole request.
    Message(Message),
    /// The refusal of a request. It is the last item of its stream.
    Refuse(WireFault),
}

impl Item {
    ghost use Rattle.sv_wire.specs.Items.{is_last};

    /// Returns whether nothing is read after the item.
    pub(crate) fn is_last(&self) -> bool
        ensures { result ≡ is_last self.now }
    {
        match self {
            Item::Continue => false,
            Item::Message(message) => !message.keep,
            Item::Refuse(_) => true,
        }
    }
}
