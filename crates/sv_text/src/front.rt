//! Cutting texts from the front of a stream.

ghost use Rattle.std.specs.Prelude.{◌≡◌, ℕ, ◌<◌, Bool, false, List, take};
ghost use Rattle.sv_text.specs.Front.{shortest_front, cut};

/// The end of the first text of a stream.
#[derive(Clone, Copy)]
pub enum Cut {
    /// The text ends after this many bytes.
    Whole(usize),
    /// The stream has no end within the limit.
    Endless,
    /// The stream has no end yet, and is shorter than the limit.
    Unended,
}

/// A kind of text with an end and a length limit, so that it can be cut from a stream.
pub trait Delimited {
    ghost ends: { Self → List ℕ → Bool };

    ghost limit: { Self → ℕ };

    /// Returns whether the bytes end as a text of this kind does.
    fn is_ended(&self, bytes: &[u8]) -> bool
        ensures { result ≡ ends self.now bytes.now };

    /// Returns the number of bytes within which a text of this kind ends.
    fn limit(&self) -> usize
        ensures { result ≡ limit self.now };
}

/// Finds the end of the first text of a stream. No front of fewer than `from` bytes may end it: when more bytes arrive,
/// the caller passes how far the last scan got.
pub fn cut_front<D: Delimited>(kind: &D, stream: &[u8], from: usize) -> Cut
    requires { (k : ℕ) → k < from → D.ends kind.now (take k stream.now) ≡ false }
    ensures { result ≡ cut (D.ends kind.now) (D.limit kind.now) stream.now }
{
    let limit = kind.limit();
    match front_len(kind, &stream[..stream.len().min(limit)], from) {
        Some(len) => Cut::Whole(len),
        None if stream.len() < limit => Cut::Unended,
        None => Cut::Endless,
    }
}

/// Returns the length of the shortest front that ends a text of this kind, if any. No front of fewer than `from` bytes
/// may do so.
fn front_len<D: Delimited>(kind: &D, text: &[u8], from: usize) -> Option<usize>
    requires { (k : ℕ) → k < from → D.ends kind.now (take k text.now) ≡ false }
    ensures { result ≡ shortest_front (D.ends kind.now) text.now }
{
    for len in from..=text.len() {
        if kind.is_ended(&text[..len]) {
            return Some(len);
        }
    }
    None
}
