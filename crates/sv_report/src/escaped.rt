//! Texts without control characters.

ghost use Rattle.std.specs.Prelude.{◌≡◌, ◌++◌, ◌<◌, IfOk, OnOk, chars, false, string_bytes};
ghost use Rattle.std.specs.List.{flat_map};
ghost use Rattle.std.specs.Fmt.{digit_glyph};
ghost use Rattle.sv_text.specs.Gives.{GivesAnswer};
ghost use Rattle.sv_report.specs.Escaped as spec;

use std::alloc::Global;
use sv_text::{NoMemory, Text};

/// Returns a text with each control character as `\x` and two hexadecimal digits, and each backslash twice, so that it
/// cannot control a terminal.
#[tactic(auto, unfolding(crate::specs::Escaped::escaped))]
pub fn escaped(alloc: Global, text: &str) -> Result<Text, NoMemory>
    ensures { GivesAnswer result (spec.escaped text.now) }
{
    let characters = characters(alloc, text)?;
    let mut shown = String::new(alloc);
    push_characters(&mut shown, characters.as_slice())?;
    Ok(Text::from_string(shown))
}

/// Returns the characters of a text.
pub fn characters(alloc: Global, text: &str) -> Result<Vec<char>, NoMemory>
    ensures { IfOk result (λ found. found.items ≡ chars text.now) }
{
    Ok(text.chars().collect(alloc)?)
}

fn push_characters(text: &mut String, characters: &[char]) -> Result<(), NoMemory>
    ensures { OnOk result (string_bytes text.new ≡ string_bytes text.old ++ flat_map spec.character_text characters.now) }
{
    for character in characters {
        push_character(text, *character)?;
    }
    Ok(())
}

fn push_character(text: &mut String, character: char) -> Result<(), NoMemory>
    ensures { OnOk result (string_bytes text.new ≡ string_bytes text.old ++ spec.character_text character) }
{
    if character.is_control() {
        push_escape(text, character as u32)
    } else if character == '\\' {
        Ok(text.push_str("\\\\")?)
    } else {
        Ok(text.push(character)?)
    }
}

/// Appends `\x` and two hexadecimal digits.
pub fn push_escape(text: &mut String, code: u32) -> Result<(), NoMemory>
    requires { code < 256 }
    ensures { OnOk result (string_bytes text.new ≡ string_bytes text.old ++ spec.escape_text code) }
{
    text.push_str("\\x")?;
    text.push(hex_digit(code / 16))?;
    Ok(text.push(hex_digit(code % 16))?)
}

fn hex_digit(digit: u32) -> char
    requires { digit < 16 }
    ensures value { result ≡ digit_glyph false digit }
    ensures ascii { result < 128 }
{
    let byte = digit as u8;
    char::from(if byte < 10 {
        b'0' + byte
    } else {
        b'a' - 10 + byte
    })
}
