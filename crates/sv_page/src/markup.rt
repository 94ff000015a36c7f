//! Texts in HTML.

ghost use Rattle.std.specs.Prelude.{◌≡◌, ◌++◌, OnOk, string_bytes};
ghost use Rattle.std.specs.List.{flat_map};
ghost use Rattle.sv_text.specs.Gives.{GivesAnswer};
ghost use Rattle.sv_page.specs.Markup as spec;

use std::alloc::Global;
use sv_report::escaped::{characters, push_escape};
use sv_text::{NoMemory, Text};

/// Returns a text as the content of an element or the value of an attribute in HTML: `&`, `<`, `>` and both quotes as
/// character references, and each control character as `\x` and two hexadecimal digits.
///
/// # Errors
/// `NoMemory` if memory runs out.
#[tactic(auto, unfolding(crate::specs::Markup::html_text))]
pub fn html_text(alloc: Global, text: &str) -> Result<Text, NoMemory>
    ensures { GivesAnswer result (spec.html_text text.now) }
{
    let characters = characters(alloc, text)?;
    let mut shown = String::new(alloc);
    push_characters(&mut shown, characters.as_slice())?;
    Ok(Text::from_string(shown))
}

fn push_characters(text: &mut String, characters: &[char]) -> Result<(), NoMemory>
    ensures { OnOk result (string_bytes text.new ≡ string_bytes text.old ++ flat_map spec.html_character characters.now) }
{
    for character in characters {
        push_character(text, *character)?;
    }
    Ok(())
}

fn push_character(text: &mut String, character: char) -> Result<(), NoMemory>
    ensures { OnOk result (string_bytes text.new ≡ string_bytes text.old ++ spec.html_character character) }
{
    if character == '&' {
        Ok(text.push_str("&amp;")?)
    } else if character == '<' {
        Ok(text.push_str("&lt;")?)
    } else if character == '>' {
        Ok(text.push_str("&gt;")?)
    } else if character == '"' {
        Ok(text.push_str("&quot;")?)
    } else if character == '\'' {
        Ok(text.push_str("&#39;")?)
    } else {
        push_other(text, character)
    }
}

fn push_other(text: &mut String, character: char) -> Result<(), NoMemory>
    ensures { OnOk result (string_bytes text.new ≡ string_bytes text.old ++ spec.other_character character) }
{
    if character.is_control() {
        push_escape(text, character as u32)
    } else {
        Ok(text.push(character)?)
    }
}

/// The law that no text can end an element or the value of an attribute: as HTML it has no angle bracket and no quote.
pub fn html_text_is_plain()
    ensures { spec.IsPlain }
{}
