//! Bytes as texts of a script. A byte that is not plain is written with a backslash.

ghost use Rattle.std.specs.Prelude.{◌≡◌, ◌<◌, true, None, ◌∷◌, ◌++◌, length, MatchOption, OnOk};
ghost use Rattle.std.specs.Fmt.{digit_glyph};
ghost use Rattle.sv_text.specs.Gives.{GivesAnswer};
ghost use Rattle.sv_script.specs.Escape.{byte_text, hex_digit, is_plain, named_byte};
ghost use Rattle.sv_script.specs.Escape as spec;

use std::alloc::Global;
use sv_text::{Bytes, NoMemory};

/// Returns the text of bytes: CR, LF and the backslash as `\r`, `\n` and `\\`, every other byte outside 32 to 126 as
/// `\xHH` with upper-case digits, and all others as they are.
///
/// # Errors
/// `NoMemory` if an allocation fails.
pub fn escaped(alloc: Global, bytes: &[u8]) -> Result<Bytes, NoMemory>
    ensures { GivesAnswer result (spec.escaped bytes.now) }
{
    let mut text = Vec::new(alloc);
    push_escaped(&mut text, bytes)?;
    Ok(Bytes::from_vec(text))
}

/// Appends the text of bytes.
pub(crate) fn push_escaped(text: &mut Vec<u8>, bytes: &[u8]) -> Result<(), NoMemory>
    ensures { OnOk result (text.new.items ≡ text.old.items ++ spec.escaped bytes.now) }
{
    for byte in bytes {
        push_byte_text(text, *byte)?;
    }
    Ok(())
}

fn push_byte_text(text: &mut Vec<u8>, byte: u8) -> Result<(), NoMemory>
    ensures { OnOk result (text.new.items ≡ text.old.items ++ byte_text byte) }
{
    if byte == b'\r' {
        Ok(text.extend_from_slice(b"\\r")?)
    } else if byte == b'\n' {
        Ok(text.extend_from_slice(b"\\n")?)
    } else if byte == b'\\' {
        Ok(text.extend_from_slice(b"\\\\")?)
    } else if is_plain(byte) {
        Ok(text.push(byte)?)
    } else {
        Ok(text.extend_from_slice(&[b'\\', b'x', upper_digit(byte / 16), upper_digit(byte % 16)])?)
    }
}

// Returns whether the byte is written as itself in a text.
fn is_plain(byte: u8) -> bool
    ensures { result ≡ is_plain byte }
{
    byte >= 32 && byte <= 126
}

fn upper_digit(digit: u8) -> u8
    requires { digit < 16 }
    ensures { result ≡ digit_glyph true digit }
{
    if digit < 10 { 48 + digit } else { 55 + digit }
}

/// Returns the bytes that a text means. `\r`, `\n`, `\\` and `\xHH`, with digits of either case, are one byte each, and
/// every byte but the backslash is itself. `None` if a backslash begins no such escape.
///
/// # Errors
/// `NoMemory` if an allocation fails.
pub fn unescaped(alloc: Global, text: &[u8]) -> Result<Option<Bytes>, NoMemory>
    ensures { GivesAnswer result (spec.unescaped text.now) }
{
    let mut bytes = Vec::with_capacity(alloc, text.len())?;
    let mut rest = text;
    while !rest.is_empty() {
        let Some((byte, behind)) = first_byte(rest) else {
            return Ok(None);
        };
        bytes.push(byte)?;
        rest = behind;
    }
    Ok(Some(Bytes::from_vec(bytes)))
}

// Returns the byte that the text begins with, and the rest of the text.
fn first_byte(text: &[u8]) -> Option<(u8, &[u8])>
    requires { 0 < length text.now }
    ensures { MatchOption result (spec.unescaped text.now ≡ None) (λ first. spec.Begins text.now first.0 first.1.now) }
{
    let (first, rest) = text.split_first()?;
    if *first == b'\\' {
        byte_behind_backslash(rest)
    } else {
        Some((*first, rest))
    }
}

// Returns the byte of an escape, and the text after the escape.
fn byte_behind_backslash(text: &[u8]) -> Option<(u8, &[u8])>
    ensures { MatchOption result (spec.unescaped (92 ∷ text.now) ≡ None) (λ first. spec.Begins (92 ∷ text.now) first.0 first.1.now) }
{
    let (letter, rest) = text.split_first()?;
    if *letter == b'x' {
        byte_of_digits(rest)
    } else {
        let byte = named_byte(*letter)?;
        Some((byte, rest))
    }
}

// Returns the byte that a backslash and this letter mean, if any.
fn named_byte(letter: u8) -> Option<u8>
    ensures { result ≡ named_byte letter }
{
    match letter {
        b'r' => Some(b'\r'),
        b'n' => Some(b'\n'),
        b'\\' => Some(b'\\'),
        _ => None,
    }
}

// Returns the byte of the two hexadecimal digits after `\x`, and the text after them.
fn byte_of_digits(text: &[u8]) -> Option<(u8, &[u8])>
    ensures { MatchOption result (spec.unescaped (92 ∷ 120 ∷ text.now) ≡ None) (λ first. spec.Begins (92 ∷ 120 ∷ text.now) first.0 first.1.now) }
{
    let (high, rest) = text.split_first()?;
    let (low, rest) = rest.split_first()?;
    let high = hex_digit(*high)?;
    let low = hex_digit(*low)?;
    Some((16 * high + low, rest))
}

fn hex_digit(byte: u8) -> Option<u8>
    ensures { result ≡ hex_digit byte }
{
    match byte {
        b'0'..=b'9' => Some(byte - 48),
        b'A'..=b'F' => Some(byte - 55),
        b'a'..=b'f' => Some(byte - 87),
        _ => None,
    }
}
