//! The events of a container.

ghost use Rattle.std.specs.Prelude.{◌≡◌};
ghost use Rattle.sv_run.specs.Events.{connection_of};
ghost use Rattle.sv_run.specs.Seen.{happening_of};

use sv_journal::Journal;
use sv_message::Segments;
use sv_policy::{Edit, EditFault};

/// An event of a container. Connections are identified by numbers, and times are in seconds since 1970. The container's
/// time is the greatest time so far, at most [`LAST_MOMENT`](crate::LAST_MOMENT).
#[derive(Clone, Copy)]
pub enum Happening<'a> {
    /// A connection was accepted.
    Opened {
        /// Its number, which no known connection has.
        connection: u64,
    },
    /// A connection received bytes.
    Piece {
        connection: u64,
        bytes: &'a [u8],
        moment: u64,
    },
    /// The input of a connection ended.
    Ended {
        connection: u64,
    },
    /// A connection was lost: nothing can be sent on it.
    Lost {
        connection: u64,
    },
    /// Time passed.
    Tick {
        moment: u64,
    },
    /// The constraints of a context are edited.
    Edit {
        /// The path of the context, `""` for the root context.
        context: &'a str,
        edit: &'a Edit,
    },
}

impl Happening<'_> {
    /// Returns the connection of the event, if it has one.
    pub fn connection(&self) -> Option<u64>
        ensures { result ≡ connection_of (happening_of self.now) }
    {
        match self {
            Happening::Opened { connection }
            | Happening::Piece { connection, .. }
            | Happening::Ended { connection }
            | Happening::Lost { connection } => Some(*connection),
            Happening::Tick { .. } | Happening::Edit { .. } => None,
        }
    }
}

/// The reaction to an accepted event.
#[derive(Drop)]
pub struct Reaction {
    /// The bytes to send on the event's connection. The bytes of a large file are shared with the file.
    pub sends: Segments,
    /// Whether the connection closes after these bytes.
    pub closes: bool,
    /// The journal of the event: the requests that entered or were refused, the calls and the notifications, in order.
    /// It is complete.
    pub journal: Journal,
    /// The answer to an edit: the number of the constraint that was appended or withdrawn, or the fault, which is never
    /// `NoMemory`. `None` for every other event.
    pub edited: Option<Result<u64, EditFault>>,
}
