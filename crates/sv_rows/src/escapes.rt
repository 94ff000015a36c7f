//! Escapes for bytes.

use crate::draft::Draft;
use std::alloc::Global;
use sv_text::NoMemory;

/// The state of reading an escape.
#[derive(Clone, Copy)]
enum Escape {
    Outside,
    Backslash,
    FirstDigit,
    SecondDigit(u8),
}

impl Escape {
    /// Returns the state after a byte, and the byte that is complete with it, if any.
    fn step(self, byte: u8) -> (Escape, Option<u8>) {
        match self {
            Escape::Outside if byte == b'\\' => (Escape::Backslash, None),
            Escape::Outside => (Escape::Outside, Some(byte)),
            Escape::Backslash if byte == b'x' => (Escape::FirstDigit, None),
            Escape::Backslash => (Escape::Outside, Some(named_byte(byte))),
            Escape::FirstDigit => (Escape::SecondDigit(digit_value(byte)), None),
            Escape::SecondDigit(high) => {
                (Escape::Outside, Some((high & 15) << 4 | digit_value(byte)))
            }
        }
    }
}

/// Returns the byte for a letter after a backslash.
fn named_byte(letter: u8) -> u8 {
    match letter {
        b'r' => b'\r',
        b'n' => b'\n',
        b't' => b'\t',
        other => other,
    }
}

/// Returns the value of a hexadecimal digit, or 0 for any other byte.
fn digit_value(digit: u8) -> u8 {
    match digit {
        b'0'..=b'9' => digit - b'0',
        b'A'..=b'F' => digit - b'A' + 10,
        b'a'..=b'f' => digit - b'a' + 10,
        _ => 0,
    }
}

/// Returns the bytes of a text, with the escapes `\r`, `\n`, `\t`, `\\` and `\xHH` for bytes, and `\{COUNT*PART}` for a
/// repeated part.
pub fn unescaped(alloc: Global, text: &str) -> Result<Vec<u8>, NoMemory> {
    let mut draft = Draft::new(alloc);
    add_unescaped(&mut draft, text);
    draft.finish()
}

/// Returns a text with its escapes read. Invalid UTF-8 is replaced.
pub fn unescaped_text(alloc: Global, text: &str) -> Result<String, NoMemory> {
    let bytes = unescaped(alloc, text)?;
    Ok(String::from_utf8_lossy(alloc, bytes.as_slice())?)
}

/// Adds the bytes of a text with its escapes read.
pub fn add_unescaped(draft: &mut Draft, text: &str) {
    let (front, rest) = text.split_once("\\{").unwrap_or((text, ""));
    add_bytes(draft, front);
    for piece in rest.split("\\{") {
        let (repeated, back) = piece.split_once('}').unwrap_or((piece, ""));
        add_times(draft, repeated);
        add_bytes(draft, back);
    }
}

/// Adds a part as often as `COUNT*PART` says.
fn add_times(draft: &mut Draft, repeated: &str) {
    let (count, part) = repeated.split_once('*').unwrap_or(("0", ""));
    for _ in 0..count.parse::<u32>().unwrap_or(0) {
        add_bytes(draft, part);
    }
}

/// Adds the bytes of a text without repeated parts.
fn add_bytes(draft: &mut Draft, text: &str) {
    let mut escape = Escape::Outside;
    for byte in text.as_bytes() {
        let (next, read) = escape.step(*byte);
        escape = next;
        if let Some(read) = read {
            draft.add_bytes(&[read]);
        }
    }
}
