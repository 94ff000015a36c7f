//! The transfer codings of a body.

ghost use Rattle.std.specs.Prelude.{◌≡◌, [], ◌∷◌, codes};
ghost use Rattle.std.specs.List.{fold};
ghost use Rattle.sv_message.specs.Codings.{coding_kind};
ghost use Rattle.sv_message.specs.Fields.{parts_of, parts_by_name};
ghost use Rattle.sv_message.specs.Seen.{seen_with};
ghost use Rattle.sv_message.specs.declared.codings.Seen.TheVariants.{Nothing};

use crate::field::Field;
use crate::members::{is_in_lower_case, trim_blanks};

/// The kind of a body's transfer codings, for a server that knows only `chunked` (RFC 9112, section 6.1).
#[derive(Clone, Copy)]
pub enum Codings {
    /// `chunked` is the only one.
    Chunked,
    /// `chunked` is the last coding, after others.
    Unknown,
    /// The last coding is not `chunked`, or an earlier one is, or there is none.
    Bad,
}

/// The codings read so far, in order.
#[derive(Clone, Copy)]
pub(crate) enum Seen {
    Nothing,
    /// Codings other than `chunked`.
    Others,
    /// Only `chunked`.
    Chunked,
    /// Codings other than `chunked`, then `chunked`.
    OthersThenChunked,
    /// A coding after `chunked`.
    BehindChunked,
}

/// Returns the kind of the codings in the Transfer-Encoding fields.
pub fn coding_kind(fields: &[Field]) -> Codings
    ensures { result ≡ coding_kind fields.now }
{
    match see_fields(fields) {
        Seen::Chunked => Codings::Chunked,
        Seen::OthersThenChunked => Codings::Unknown,
        Seen::Nothing => Codings::Bad,
        Seen::Others => Codings::Bad,
        Seen::BehindChunked => Codings::Bad,
    }
}

fn see_fields(fields: &[Field]) -> Seen
    ensures { result ≡ fold seen_with Nothing (parts_by_name (codes "transfer-encoding") fields.now) }
{
    let mut seen = Seen::Nothing;
    for field in fields {
        seen = seen.see_field(field);
    }
    seen
}

impl Seen {
    /// Returns the state after one more field.
    fn see_field(self, field: &Field) -> Seen
        ensures { result ≡ fold seen_with self (parts_by_name (codes "transfer-encoding") (field.now ∷ [])) }
    {
        if !field.is_named("transfer-encoding") {
            return self;
        }
        self.see_list(field.value.as_bytes())
    }

    /// Returns the state after one more comma-separated list.
    fn see_list(self, value: &[u8]) -> Seen
        ensures { result ≡ fold seen_with self (parts_of value.now) }
    {
        value
            .split(|b| *b == b',')
            .fold(self, |seen, part| seen.see(part))
    }

    /// Returns the state after one more part of a list. Empty parts are skipped.
    fn see(self, part: &[u8]) -> Seen
        ensures { result ≡ seen_with self part.now }
    {
        let coding = trim_blanks(part);
        if coding.is_empty() {
            return self;
        }
        let is_chunked = is_in_lower_case(coding, b"chunked");
        match self {
            Seen::Nothing if is_chunked => Seen::Chunked,
            Seen::Others if is_chunked => Seen::OthersThenChunked,
            Seen::Nothing | Seen::Others => Seen::Others,
            Seen::Chunked | Seen::OthersThenChunked | Seen::BehindChunked => Seen::BehindChunked,
        }
    }
}
