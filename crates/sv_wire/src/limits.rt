//! The limits of the input of an inbox.

/// The number of bytes within which a head must end.
pub const MAX_HEAD_LEN: usize = 65_536;

/// The maximum number of field lines in a head.
pub const MAX_FIELD_LINES: usize = 128;

/// The number of spans with which a head is read first. Most heads have no more field lines.
pub(crate) const FEW_FIELD_LINES: usize = 24;

/// The maximum number of bytes in a body.
pub const MAX_BODY_LEN: usize = 1_048_576;

/// The number of bytes within which a chunk's size line must end.
pub const MAX_SIZE_LINE_LEN: usize = 256;

/// The number of bytes within which the trailer section must end.
pub const MAX_TRAILER_LEN: usize = 8_192;
