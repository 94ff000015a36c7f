//! A value as TOML writes it, on one line.

ghost use Rattle.std.specs.Prelude.{◌≡◌, ◌++◌, ◌<◌, true, IfOk, OnOk, chars, string_bytes, take};
ghost use Rattle.std.specs.List.{flat_map};
ghost use Rattle.std.specs.Fmt.{digit_glyph, signed_decimal};
ghost use Rattle.toml.specs.View.{view};
ghost use Rattle.sv_text.specs.Gives.{GivesAnswer};
ghost use Rattle.sv_program.specs.Shown as spec;
ghost use Rattle.sv_program.specs.declared.limits.TheConstants.{MAX_SHOWN_CHARACTERS};

use crate::limits::MAX_SHOWN_CHARACTERS;
use std::alloc::Global;
use sv_text::{NoMemory, Text};
use toml::Value;

/// Returns a text, an integer or a boolean as it is shown, or none for any other value.
pub(crate) fn shown(alloc: Global, value: &Value) -> Result<Option<Text>, NoMemory>
    ensures { GivesAnswer result (spec.shown (view value.now)) }
{
    match value {
        Value::String(text) => Ok(Some(quoted(alloc, text.as_str())?)),
        Value::Integer(number) => Ok(Some(number_text(alloc, *number)?)),
        Value::Boolean(holds) => Ok(Some(truth_text(alloc, *holds)?)),
        _ => Ok(None),
    }
}

fn number_text(alloc: Global, number: i64) -> Result<Text, NoMemory>
    ensures { GivesAnswer result (signed_decimal number) }
{
    Ok(Text::from_string(format!(in alloc; "{number}")?))
}

fn truth_text(alloc: Global, holds: bool) -> Result<Text, NoMemory>
    ensures { GivesAnswer result (spec.truth_text holds) }
{
    Text::copy_of(alloc, if holds { "true" } else { "false" })
}

/// Returns a text as a basic string, cut after its first [`MAX_SHOWN_CHARACTERS`] characters.
pub fn quoted(alloc: Global, text: &str) -> Result<Text, NoMemory>
    ensures { GivesAnswer result (spec.quoted text.now) }
{
    let characters = characters(alloc, text)?;
    let shown = escaped(alloc, first_of(characters.as_slice()))?;
    let mark = cut_mark(characters.as_slice());
    let text = format!(in alloc; "\"{shown}\"{mark}")?;
    Ok(Text::from_string(text))
}

fn characters(alloc: Global, text: &str) -> Result<Vec<char>, NoMemory>
    ensures { IfOk result (λ found. found.items ≡ chars text.now) }
{
    Ok(text.chars().collect(alloc)?)
}

fn first_of(characters: &[char]) -> &[char]
    ensures { result.now ≡ take MAX_SHOWN_CHARACTERS characters.now }
{
    if characters.len() > MAX_SHOWN_CHARACTERS {
        return &characters[..MAX_SHOWN_CHARACTERS];
    }
    characters
}

fn cut_mark(characters: &[char]) -> &'static str
    ensures { result.now ≡ spec.cut_mark characters.now }
{
    if characters.len() > MAX_SHOWN_CHARACTERS {
        ".."
    } else {
        ""
    }
}

fn escaped(alloc: Global, characters: &[char]) -> Result<Text, NoMemory>
    ensures { GivesAnswer result (flat_map spec.character_text characters.now) }
{
    let mut text = String::new(alloc);
    for character in characters {
        push_character(&mut text, *character)?;
    }
    Ok(Text::from_string(text))
}

fn push_character(text: &mut String, character: char) -> Result<(), NoMemory>
    ensures { OnOk result (string_bytes text.new ≡ string_bytes text.old ++ spec.character_text character) }
{
    if is_escaped(character) {
        push_escape(text, character as u32)
    } else {
        Ok(text.push(character)?)
    }
}

/// Returns a key as it is printed: its control characters are escaped.
pub(crate) fn printed_key(alloc: Global, key: &str) -> Result<Text, NoMemory>
    ensures { GivesAnswer result (spec.printed_key key.now) }
{
    let characters = characters(alloc, key)?;
    on_one_line(alloc, characters.as_slice())
}

fn on_one_line(alloc: Global, characters: &[char]) -> Result<Text, NoMemory>
    ensures { GivesAnswer result (flat_map spec.line_character characters.now) }
{
    let mut text = String::new(alloc);
    for character in characters {
        push_on_line(&mut text, *character)?;
    }
    Ok(Text::from_string(text))
}

fn push_on_line(text: &mut String, character: char) -> Result<(), NoMemory>
    ensures { OnOk result (string_bytes text.new ≡ string_bytes text.old ++ spec.line_character character) }
{
    if character.is_control() {
        push_escape(text, character as u32)
    } else {
        Ok(text.push(character)?)
    }
}

fn is_escaped(character: char) -> bool
    ensures { result ≡ spec.is_escaped character }
{
    character.is_control() || (character == '"' || character == '\\')
}

fn push_escape(text: &mut String, code: u32) -> Result<(), NoMemory>
    requires { code < 256 }
    ensures { OnOk result (string_bytes text.new ≡ string_bytes text.old ++ spec.escape_text code) }
{
    let letter = escape_letter(code);
    if letter != 0 {
        text.push('\\')?;
        Ok(text.push(char::from(letter))?)
    } else {
        text.push_str("\\u00")?;
        text.push(hex_digit(code / 16))?;
        Ok(text.push(hex_digit(code % 16))?)
    }
}

fn escape_letter(code: u32) -> u8
    ensures value { result ≡ spec.escape_letter code }
    ensures ascii { result < 128 }
{
    match code {
        8 => b'b',
        9 => b't',
        10 => b'n',
        12 => b'f',
        13 => b'r',
        34 => b'"',
        92 => b'\\',
        _ => 0,
    }
}

fn hex_digit(digit: u32) -> char
    requires { digit < 16 }
    ensures value { result ≡ digit_glyph true digit }
    ensures ascii { result < 128 }
{
    let byte = digit as u8;
    char::from(if byte < 10 {
        b'0' + byte
    } else {
        b'A' - 10 + byte
    })
}
