//! Names with commas between them.

ghost use Rattle.std.specs.Prelude.{◌≡◌, ◌∷◌, ◌&&◌, nat_le, length, position};
ghost use Rattle.std.specs.List.{list_all, slice_split};
ghost use Rattle.std.specs.Option.{option_copied};
ghost use Rattle.http_header.specs.Token.{is_token_byte};
ghost use Rattle.sv_text.specs.Gives.{GivesAnswer};
ghost use Rattle.sv_script.specs.Names as spec;

use crate::edit_lines::MAX_ROLE_BYTES;
use crate::fields::text_of;
use http_header::is_token_char;
use std::alloc::Global;
use sv_constraints::MAX_METHOD_BYTES;
use sv_text::{Listed, NoMemory, Text};

/// The kind of a name.
#[derive(Clone, Copy)]
pub enum NameKind {
    /// A method, whose name is a token (RFC 9110, section 5.6.2).
    Method,
    /// A role, whose name has no control characters.
    Role,
}

/// Returns the names in a text, in order, if each has the form of its kind.
pub(crate) fn names_of(
    alloc: Global,
    kind: NameKind,
    text: &[u8],
) -> Result<Option<Listed<Text>>, NoMemory>
    ensures { GivesAnswer result (spec.names_of kind text.now) }
{
    let mut names = Vec::new(alloc);
    let mut rest = Some(text);
    while let Some(text) = rest {
        let (front, behind) = at_comma(text);
        let Some(name) = name_of(alloc, kind, front)? else {
            return Ok(None);
        };
        names.push(name)?;
        rest = behind;
    }
    Ok(Some(Listed::from_vec(names)))
}

// Returns the text before the first comma, and the text after it if there is a comma.
fn at_comma(text: &[u8]) -> (&[u8], Option<&[u8]>)
    ensures { slice_split spec.is_comma text.now ≡ result.0.now ∷ spec.parts_of (option_copied result.1) }
{
    match first_comma(text) {
        Some(place) => (&text[..place], Some(&text[place + 1..])),
        None => (text, None),
    }
}

fn first_comma(text: &[u8]) -> Option<usize>
    ensures { result ≡ position spec.is_comma text.now }
{
    text.iter().position(|b| *b == b',')
}

// Returns the text as a name, if it has the form.
fn name_of(alloc: Global, kind: NameKind, text: &[u8]) -> Result<Option<Text>, NoMemory>
    ensures { GivesAnswer result (spec.name_of kind text.now) }
{
    let Some(name) = text_of(text) else {
        return Ok(None);
    };
    if !has_form(kind, name) {
        return Ok(None);
    }
    Ok(Some(Text::copy_of(alloc, name)?))
}

fn has_form(kind: NameKind, name: &str) -> bool
    ensures { result ≡ spec.has_form kind name.now }
{
    match kind {
        NameKind::Method => is_within(name, MAX_METHOD_BYTES) && has_token_bytes(name.as_bytes()),
        NameKind::Role => is_within(name, MAX_ROLE_BYTES) && has_shown_bytes(name.as_bytes()),
    }
}

fn is_within(name: &str, most: usize) -> bool
    ensures { result ≡ (nat_le 1 (length name.now) && nat_le (length name.now) most) }
{
    name.len() >= 1 && name.len() <= most
}

fn has_shown_bytes(name: &[u8]) -> bool
    ensures { result ≡ list_all spec.is_shown name.now }
{
    name.iter().all(|b| is_shown(*b))
}

fn is_shown(b: u8) -> bool
    ensures { result ≡ spec.is_shown b }
{
    b >= 32 && b != 127
}

fn has_token_bytes(name: &[u8]) -> bool
    ensures { result ≡ list_all is_token_byte name.now }
{
    name.iter().all(|b| is_token_char(*b))
}
