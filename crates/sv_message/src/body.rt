//! The body of a response.

ghost use Rattle.std.specs.Prelude.{◌≡◌, ◌++◌, IfOk, OnOk};
ghost use Rattle.sv_message.specs.Chunking.{flushed_content, last_chunk};
ghost use Rattle.sv_message.specs.Content.{ends_connection, has_own_end};

use crate::pieces::Pieces;
use crate::segments::Segments;
use std::alloc::{AllocError, Global};

const LAST_CHUNK: &[u8] = b"0\r\n\r\n";

/// The body of a response (RFC 9112, section 6).
#[derive(Drop)]
pub enum Body {
    /// The whole body, with a stated length.
    Whole(Segments),
    /// A body that is sent in pieces, without a stated length.
    Flushed {
        /// The bytes written up to each flush, and after the last one.
        pieces: Pieces,
        /// Whether the client reads chunks, as an HTTP/1.1 client does. For any other client the body ends with the
        /// connection.
        chunked: bool,
        /// Whether the body is truncated, so that its end is missing.
        broken: bool,
    },
}

impl Body {
    /// Returns whether nothing can follow the body on its connection: it ends with the connection, or its end is
    /// missing (RFC 9112, sections 6.3 and 8).
    pub fn ends_connection(&self) -> bool
        ensures { result ≡ ends_connection self.now }
    {
        match self {
            Body::Whole(_) => false,
            Body::Flushed {
                chunked,
                broken,
                ..
            } => !*chunked || *broken,
        }
    }

    /// Returns whether the body marks its own end, by a length or by chunks.
    pub fn has_own_end(&self) -> bool
        ensures { result ≡ has_own_end self.now }
    {
        match self {
            Body::Whole(_) => true,
            Body::Flushed { chunked, .. } => *chunked,
        }
    }
}

/// Returns the bytes of a body in pieces, as they are sent.
pub fn flushed_content(
    alloc: Global,
    pieces: &Pieces,
    chunked: bool,
    broken: bool,
) -> Result<Vec<u8>, AllocError>
    ensures { IfOk result (λ text. text.items ≡ flushed_content pieces.now chunked broken) }
{
    let mut text = Vec::new(alloc);
    if chunked {
        pieces.push_chunks(alloc, &mut text)?;
        push_last_chunk(&mut text, broken)?;
    } else {
        pieces.push_joined(&mut text)?;
    }
    Ok(text)
}

// Appends the last chunk, unless the body is truncated.
fn push_last_chunk(text: &mut Vec<u8>, broken: bool) -> Result<(), AllocError>
    ensures { OnOk result (text.new.items ≡ text.old.items ++ last_chunk broken) }
{
    if !broken {
        text.extend_from_slice(LAST_CHUNK)?;
    }
    Ok(())
}
