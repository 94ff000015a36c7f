//! Theorems that relate the writing of bodies to their reading, each the contract of a function with an empty body.

ghost use Rattle.sv_wire.specs.RoundTrip.{BrokenChunksAreNoBody, ChunksAreReadBack, CutChunksAreNoBody, ChunkedFieldsAreReadBack, CutWholeIsAwaited, FramingLinesAreFields, LengthFieldsAreReadBack, ReaderAwaitsTheEnd, ReaderDecodes, ReaderReadsChunksBack, WholeIsReadBack};

/// A body that is sent in chunks and does not break off reads as its pieces joined by RFC 9112, section 7.1, whatever
/// its length, and in no other way. The reading leaves exactly the bytes that follow the body on the connection.
pub fn flushed_answers_are_read_back()
    ensures { ChunksAreReadBack }
{}

/// If a body in chunks breaks off, or a last part of it is lost, reading it by RFC 9112, section 7.1, gives no body.
/// The reader so recognizes that it is incomplete (section 8).
pub fn broken_answers_are_no_bodies()
    ensures cut { CutChunksAreNoBody }
    ensures broken { BrokenChunksAreNoBody }
{}

/// The reader of bodies reads chunked bodies as these theorems define, within its limit. It reads a body sent in chunks
/// as its pieces joined, and awaits more if a last part is missing.
pub fn the_reader_reads_answers_back()
    ensures decodes { ReaderDecodes }
    ensures whole { ReaderReadsChunksBack }
    ensures awaits { ReaderAwaitsTheEnd }
{}

/// The framing line of a response is read back, without a fault, among the lines of other fields: `content-length` as
/// the length of a whole body, and `transfer-encoding` as the coding of chunks (RFC 9112, sections 6.1 to 6.3).
pub fn framing_lines_are_read_back()
    ensures fields { FramingLinesAreFields }
    ensures chunked { ChunkedFieldsAreReadBack }
    ensures length { LengthFieldsAreReadBack }
{}

/// A whole body is read by its length as its bytes, and the reading leaves the bytes that follow it. If a last part is
/// lost, more is awaited (RFC 9112, sections 6.2 and 6.3).
pub fn whole_answers_are_read_back()
    ensures whole { WholeIsReadBack }
    ensures cut { CutWholeIsAwaited }
{}
