//! The length of a body.

ghost use Rattle.std.specs.Prelude.{◌≡◌, [], ◌∷◌, codes};
ghost use Rattle.std.specs.List.{fold, list_all};
ghost use Rattle.std.specs.Char.{is_ascii_digit};
ghost use Rattle.sv_message.specs.Fields.{parts_of, parts_by_name};
ghost use Rattle.sv_message.specs.Length.{content_length, is_length};
ghost use Rattle.sv_message.specs.Lengths.{length_of, length_with};
ghost use Rattle.sv_message.specs.declared.length.Lengths.TheVariants.{Nothing};

use crate::field::Field;
use crate::limits::MAX_LENGTH_DIGITS;
use crate::members::trim_blanks;

/// The lengths of a body read so far, in order.
#[derive(Clone, Copy)]
pub(crate) enum Lengths {
    Nothing,
    /// One length, given once or more.
    Same(usize),
    /// A text that is not a length, or two different lengths.
    Bad,
}

/// Returns the length in the Content-Length fields. It is `None` if there is no length, if one is not valid, or if two
/// differ (RFC 9110, section 8.6).
pub fn content_length(fields: &[Field]) -> Option<usize>
    ensures { result ≡ content_length fields.now }
{
    match see_fields(fields) {
        Lengths::Same(number) => Some(number),
        Lengths::Nothing => None,
        Lengths::Bad => None,
    }
}

fn see_fields(fields: &[Field]) -> Lengths
    ensures { result ≡ fold length_with Nothing (parts_by_name (codes "content-length") fields.now) }
{
    let mut seen = Lengths::Nothing;
    for field in fields {
        seen = seen.see_field(field);
    }
    seen
}

impl Lengths {
    /// Returns the state after one more field.
    fn see_field(self, field: &Field) -> Lengths
        ensures { result ≡ fold length_with self (parts_by_name (codes "content-length") (field.now ∷ [])) }
    {
        if !field.is_named("content-length") {
            return self;
        }
        self.see_list(field.value.as_bytes())
    }

    /// Returns the state after one more comma-separated list.
    fn see_list(self, value: &[u8]) -> Lengths
        ensures { result ≡ fold length_with self (parts_of value.now) }
    {
        value
            .split(|b| *b == b',')
            .fold(self, |seen, part| seen.see(part))
    }

    /// Returns the state after one more part of a list.
    fn see(self, part: &[u8]) -> Lengths
        ensures { result ≡ length_with self part.now }
    {
        match (self, length_of(trim_blanks(part))) {
            (Lengths::Nothing, Some(number)) => Lengths::Same(number),
            (Lengths::Same(seen), Some(number)) if number == seen => Lengths::Same(seen),
            _ => Lengths::Bad,
        }
    }
}

/// Returns the length that a text gives, if it is one.
fn length_of(text: &[u8]) -> Option<usize>
    ensures { result ≡ length_of text.now }
{
    if !is_length(text) {
        return None;
    }
    let mut number = 0;
    for b in text {
        number = number * 10 + (*b - b'0') as usize;
    }
    Some(number)
}

fn is_length(text: &[u8]) -> bool
    ensures { result ≡ is_length text.now }
{
    !text.is_empty() && text.len() <= MAX_LENGTH_DIGITS && are_digits(text)
}

fn are_digits(text: &[u8]) -> bool
    ensures { result ≡ list_all is_ascii_digit text.now }
{
    text.iter().all(|b| b.is_ascii_digit())
}
