//! The end of a head.

ghost use Rattle.std.specs.Prelude.{◌≡◌, ℕ, ◌<◌, false, take};
ghost use Rattle.sv_text.specs.Front.{shortest_front};
ghost use Rattle.sv_wire.specs.Head.{ends_head};
ghost use Rattle.sv_wire.specs.Reads.{cut_head};
ghost use Rattle.sv_wire.specs.Next.{HoldsText};

use crate::limits::MAX_HEAD_LEN;
use memchr::memchr;
use sv_text::Cut;

/// Returns where the head at the start of the stream ends (RFC 9112, section 2.1). No prefix of fewer than `from` bytes
/// ends it.
pub(crate) fn cut_head(stream: &[u8], from: usize) -> Cut
    requires { (k : ℕ) → k < from → ends_head (take k stream.now) ≡ false }
    ensures value { result ≡ cut_head stream.now }
    ensures holds { HoldsText stream.now result }
{
    match head_len(front_of(stream), from) {
        Some(len) => Cut::Whole(len),
        None if stream.len() < MAX_HEAD_LEN => Cut::Unended,
        None => Cut::Endless,
    }
}

/// Returns the first [`MAX_HEAD_LEN`] bytes, or all if there are fewer.
fn front_of(stream: &[u8]) -> &[u8]
    ensures { result.now ≡ take MAX_HEAD_LEN stream.now }
{
    if stream.len() <= MAX_HEAD_LEN {
        return stream;
    }
    stream.split_at(MAX_HEAD_LEN).0
}

/// Returns the length of the shortest prefix that ends a head. It ends with a line feed. No prefix of fewer than `from`
/// bytes ends a head.
fn head_len(text: &[u8], from: usize) -> Option<usize>
    requires { (k : ℕ) → k < from → ends_head (take k text.now) ≡ false }
    ensures { result ≡ shortest_front ends_head text.now }
{
    let mut at = from.saturating_sub(1);
    while at < text.len() {
        let Some(place) = memchr(b'\n', text.split_at(at).1) else {
            return None;
        };
        at += place + 1;
        if ends_head(&text[..at]) {
            return Some(at);
        }
    }
    None
}

/// Returns whether a text ends as a head does.
fn ends_head(text: &[u8]) -> bool
    ensures { result ≡ ends_head text.now }
{
    text.ends_with(b"\n\n") || text.ends_with(b"\n\r\n")
}
