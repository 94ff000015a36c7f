//! Streams in pieces, and the items that are read from them.

ghost use Rattle.std.specs.Prelude.{◌<◌};

use crate::reading::Reading;
use std::alloc::Global;
use sv_rows::{Asks, Draft, add_unescaped, cell};
use sv_text::NoMemory;

/// Answers with the items of a row's stream and the meaning of its end. They must be the same however the stream is
/// cut, both by itself and after a valid request.
#[derive(Drop)]
pub struct Streams {
    /// The bytes before the row's stream.
    pub head: &'static [u8],
    /// The message of that head without its body, which the rows write as `@`. Empty if there is no head.
    message: &'static [u8],
}

/// Each row is a whole stream.
pub const PLAIN: Streams = Streams {
    head: b"",
    message: b"",
};

/// Each row follows a head with a chunked body.
pub const CHUNKED: Streams = Streams {
    head: b"POST / HTTP/1.1\r\nHost: h\r\nTransfer-Encoding: chunked\r\n\r\n",
    message: b"POST / 1.1 keep [host=h transfer-encoding=chunked]",
};

/// A valid request.
const GOOD: &[u8] = b"GET /good HTTP/1.1\r\nHost: g\r\n\r\n";

/// Its item, if it is the last one; and its item with a comma, if another one follows.
const GOOD_ALONE: &[u8] = b"GET /good 1.1 keep [host=g]";

const GOOD_BEFORE: &[u8] = b"GET /good 1.1 keep [host=g], ";

impl Asks for Streams {
    const QUESTION: usize = 1;

    fn answer(&self, alloc: Global, row: &str, answer: &mut Vec<u8>) -> Result<(), NoMemory> {
        let mut stream = Draft::new(alloc);
        stream.add_bytes(self.head);
        add_unescaped(&mut stream, cell(row, 0));
        let stream = stream.finish()?;
        self.found(alloc, stream.as_slice())?.add_to(answer)
    }
}

impl Streams {
    /// Returns the result of reading a stream, with a note if it depends on the cuts or on a preceding request.
    fn found(&self, alloc: Global, stream: &[u8]) -> Result<Draft, NoMemory> {
        let told = told(alloc, b"", stream, 1)?;
        let told = told.as_slice();
        let mut found = Draft::new(alloc);
        add_told(&mut found, self.message, told);
        if !is_told(alloc, stream, told) {
            found.add(" but not however it is cut");
        }
        if !is_told_behind(alloc, stream, told)? {
            found.add(" but not behind a request");
        }
        Ok(found)
    }
}

/// Adds the items, with `@` in place of the message that they begin with.
fn add_told(found: &mut Draft, message: &[u8], told: &[u8]) {
    match told.strip_prefix(message) {
        Some(rest) if !message.is_empty() => {
            found.add("@");
            found.add_bytes(rest);
        }
        _ => found.add_bytes(told),
    }
}

/// Returns whether a stream gives this result for each cut into two parts.
fn is_told(alloc: Global, stream: &[u8], wanted: &[u8]) -> bool {
    for (cut, _) in stream.iter().enumerate() {
        let (front, back) = stream.split_at(cut);
        if !is_told_of(alloc, front, back, usize::MAX, wanted) {
            return false;
        }
    }
    true
}

/// Returns whether a stream after a valid request gives this result, for each cut into two parts and byte by byte.
fn is_told_behind(alloc: Global, stream: &[u8], wanted: &[u8]) -> Result<bool, NoMemory> {
    let good = if wanted.starts_with(b" | ") {
        GOOD_ALONE
    } else {
        GOOD_BEFORE
    };
    let stream = joined(alloc, GOOD, stream)?;
    let wanted = joined(alloc, good, wanted)?;
    let (stream, wanted) = (stream.as_slice(), wanted.as_slice());
    Ok(is_told_of(alloc, b"", stream, 1, wanted) && is_told(alloc, stream, wanted))
}

/// Returns whether a stream of two parts, the second in pieces of this size, gives this result.
fn is_told_of(alloc: Global, front: &[u8], back: &[u8], size: usize, wanted: &[u8]) -> bool
    requires { 0 < size }
{
    match told(alloc, front, back, size) {
        Ok(told) => told.as_slice() == wanted,
        Err(_) => false,
    }
}

/// Returns the items of a stream and, after a bar, the meaning of its end. The stream has two parts, the second in
/// pieces of this size.
fn told(alloc: Global, front: &[u8], back: &[u8], size: usize) -> Result<Vec<u8>, NoMemory>
    requires { 0 < size }
{
    let Reading { mut items, end, .. } = Reading::of(alloc, front, back, size);
    items.add(" | ");
    items.add(end);
    items.finish()
}

fn joined(alloc: Global, front: &[u8], back: &[u8]) -> Result<Vec<u8>, NoMemory> {
    let mut text = Draft::new(alloc);
    text.add_bytes(front);
    text.add_bytes(back);
    text.finish()
}
