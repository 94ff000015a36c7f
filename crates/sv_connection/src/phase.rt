//! The protocol phase of a connection.

ghost use Rattle.std.specs.List.{list_any};
ghost use Rattle.std.specs.Prelude.{◌≡◌};
ghost use Rattle.sv_connection.specs.Phases as spec;

use crate::limits::MAX_UNDER_WAY;
use sv_journal::{Entry, RefusalCause};
use sv_message::Segments;
use sv_wire::Awaited;

/// The protocol phase of a connection (RFC 9112, sections 9.3 and 9.6).
///
/// The container says what it awaits of the connection. A response that closes the connection is the last one, whatever
/// followed its request.
///
/// | Phase | Held of a message | Timeout | Next |
/// |---|---|---|---|
/// | `Open(Message)` | nothing | idle, since the last response | a request |
/// | `Open(Head)` | the front of a head; a lone CR is one | window | the rest of the head |
/// | `Open(Body)` | a head, and the front of its body | window | the rest of the body |
/// | `Closing` | nothing more is read | window | the response is written, and the connection closes |
/// | `Refused` | nothing more is read | window | the same, in stages: the peer may still send |
///
/// If there is no room for a new connection, the longest idle one is closed. A connection that is `Closing` closes in
/// stages if more bytes were received after the message.
///
/// `Open(Nothing)` is for a container that reads no more but did not close the connection, which ours never does. Such
/// a connection ends with its window.
#[derive(Clone, Copy, Debug, PartialEq, Eq)]
pub(crate) enum Phase {
    /// Messages are read.
    Open(Awaited),
    /// The last response was made: no more bytes are passed to the handler.
    Closing,
    /// The same, after a message that was refused as its bytes were read.
    Refused,
}

impl Phase {
    ghost use Rattle.std.specs.Prelude.{◌≡◌, ◌&&◌};
    ghost use Rattle.sv_connection.specs.Phases as spec;

    /// Returns the phase after a piece. Its reaction gives `closes` and `entries`, and the container then gives
    /// `awaited`.
    #[inline(always)]
    pub fn after(closes: bool, entries: &[Entry], awaited: Awaited) -> Phase
        ensures { result ≡ spec.phase_by closes entries.now awaited }
    {
        if !closes {
            return Phase::Open(awaited);
        }
        if has_refusal(entries) {
            return Phase::Refused;
        }
        Phase::Closing
    }

    /// Returns whether no more bytes are passed to the handler.
    #[inline(always)]
    pub fn is_closing(self) -> bool
        ensures { result ≡ spec.is_closing self }
    {
        match self {
            Phase::Open(_) => false,
            Phase::Closing => true,
            Phase::Refused => true,
        }
    }

    /// Returns whether the message that closes the connection was refused as it was read.
    pub fn is_refused(self) -> bool
        ensures { result ≡ spec.is_refused self }
    {
        matches!(self, Phase::Refused)
    }

    /// Returns whether the container holds nothing of a message and will read the next.
    #[inline(always)]
    pub fn is_idle(self) -> bool {
        matches!(self, Phase::Open(Awaited::Message))
    }

    /// Returns how many bytes of the message under way were passed to the handler, including a piece of `count` bytes.
    /// `before` is the phase before this piece, `self` the phase after it, and `sends` the bytes of its reaction. The
    /// result is at most [`MAX_UNDER_WAY`].
    #[inline(always)]
    pub fn under_way(self, before: Phase, under_way: u64, count: u64, sends: &Segments) -> u64
        ensures { result ≡ spec.under_way_after before under_way count sends.now self }
    {
        if !self.is_under_way() {
            return 0;
        }
        if before.awaits_body() && !(self.awaits_body() && sends.is_empty()) {
            return count.min(MAX_UNDER_WAY);
        }
        under_way.saturating_add(count).min(MAX_UNDER_WAY)
    }

    // Returns whether a part of a message is held.
    #[inline(always)]
    fn is_under_way(self) -> bool
        ensures { result ≡ spec.is_under_way self }
    {
        match self {
            Phase::Open(Awaited::Head) => true,
            Phase::Open(Awaited::Body) => true,
            Phase::Open(Awaited::Message) => false,
            Phase::Open(Awaited::Nothing) => false,
            Phase::Closing => false,
            Phase::Refused => false,
        }
    }

    #[inline(always)]
    fn awaits_body(self) -> bool
        ensures { result ≡ spec.awaits_body self }
    {
        match self {
            Phase::Open(Awaited::Body) => true,
            Phase::Open(Awaited::Head) => false,
            Phase::Open(Awaited::Message) => false,
            Phase::Open(Awaited::Nothing) => false,
            Phase::Closing => false,
            Phase::Refused => false,
        }
    }
}

// Returns whether an entry says that a message was refused as its bytes were read.
fn has_refusal(entries: &[Entry]) -> bool
    ensures { result ≡ list_any spec.is_refusal entries.now }
{
    entries.iter().any(|entry| is_refusal(entry))
}

fn is_refusal(entry: &Entry) -> bool
    ensures { result ≡ spec.is_refusal entry.now }
{
    matches!(entry, Entry::Refused(RefusalCause::Wire(_)))
}
