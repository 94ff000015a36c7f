//! Bounds on the items that a part of a stream completes, and on the texts that its event sends. Each is the contract
//! of a function with an empty body.

ghost use Rattle.sv_listening.specs.Bound.{PartsCompleteLittle, PiecesAreParts};
ghost use Rattle.sv_listening.specs.Sending.{AnEventSendsLittle};
ghost use Rattle.sv_run.specs.Contexts.{theory_of};

use sv_run::{Context, Words};

/// A part of a stream completes at most two messages, one call to continue, and one refusal, which is last (RFC 9112,
/// sections 2.1, 2.2 and 9.3). This holds whatever the connection has read and holds. In a part, only line ends follow
/// an empty line.
///
/// A part completes two messages if the body of the first was awaited. For example, five bytes are owed and the part is
/// `hello`, then a whole request, and `\r\r\n\n`, which is no empty line but a head that is refused.
pub fn parts_complete_little()
    ensures { PartsCompleteLittle }
{}

/// A piece is such a part, since no empty line ends in it before its last byte. Connections that are served at once are
/// read in pieces.
pub fn pieces_are_parts()
    ensures { PiecesAreParts }
{}

/// The event of a part sends little, after any list of events that begins without connections. If it is accepted, it
/// sends one text for each of some items, in their order. These are at most two responses to messages, one
/// `100 Continue` and the response to one refusal (RFC 9110, section 15.2.1; RFC 9112, sections 2.2 and 9.3), so at
/// most four texts. Each item but the call to continue is one deed, so it has at most three deeds.
pub fn an_event_sends_little<C: Context, W: Words>()
    ensures { AnEventSendsLittle (theory_of C.path_of C.conduct W.draws) }
{}
