//! The delimited texts of a chunked body.

use crate::limits::{MAX_SIZE_LINE_LEN, MAX_TRAILER_LEN};
use sv_text::Delimited;

/// A delimited text of a chunked body (RFC 9112, section 7.1).
#[derive(Clone, Copy)]
pub(crate) enum TextKind {
    SizeLine,
    Trailer,
}

impl Delimited for TextKind {
    ghost use Rattle.sv_wire.specs.Chunks.{ends_text, text_limit};

    ghost ends = { ends_text };

    ghost limit = { text_limit };

    fn is_ended(&self, bytes: &[u8]) -> bool {
        match self {
            TextKind::SizeLine => bytes.ends_with(b"\n"),
            TextKind::Trailer => bytes == b"\r\n".as_slice() || bytes.ends_with(b"\r\n\r\n"),
        }
    }

    fn limit(&self) -> usize {
        match self {
            TextKind::SizeLine => MAX_SIZE_LINE_LEN,
            TextKind::Trailer => MAX_TRAILER_LEN,
        }
    }
}
