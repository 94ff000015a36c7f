//! The forms of a manual, and its characters in each.

ghost use Rattle.std.specs.Prelude.{◌≡◌, ◌++◌, OnOk, encode_utf8_all, string_bytes};
ghost use Rattle.sv_manual.specs.Form as spec;
ghost use Rattle.sv_text.specs.Gives.{GivesAnswer};

use std::alloc::Global;
use sv_text::{NoMemory, Text};

/// A line feed, and the spaces before the descriptions of options.
pub(crate) const FURTHER_LINE: &str = "\n                            ";

/// The form of a manual.
#[derive(Clone, Copy)]
pub enum Form {
    /// The output of `help`.
    Help,
    /// A manual page, in the language of roff.
    Roff,
    /// A page in Markdown.
    Markdown,
}

/// Returns a text as it is written in this form.
///
/// # Errors
/// `NoMemory` if memory runs out.
pub(crate) fn escaped(alloc: Global, form: Form, text: &str) -> Result<Text, NoMemory>
    ensures { GivesAnswer result (spec.escaped form text.now) }
{
    let mut shown = String::new(alloc);
    for c in text.chars() {
        push_escaped(&mut shown, form, c)?;
    }
    Ok(Text::from_string(shown))
}

fn push_escaped(shown: &mut String, form: Form, c: char) -> Result<(), NoMemory>
    ensures { OnOk result (string_bytes shown.new ≡ string_bytes shown.old ++ encode_utf8_all (spec.escaped_char form c)) }
{
    match form {
        Form::Help => push_in_help(shown, c),
        Form::Roff => push_in_roff(shown, c),
        Form::Markdown => push_in_item(shown, c),
    }
}

fn push_in_help(shown: &mut String, c: char) -> Result<(), NoMemory>
    ensures { OnOk result (string_bytes shown.new ≡ string_bytes shown.old ++ encode_utf8_all (spec.help_char c)) }
{
    match c {
        '\n' => shown.push_str(FURTHER_LINE)?,
        _ => shown.push(c)?,
    }
    Ok(())
}

fn push_in_roff(shown: &mut String, c: char) -> Result<(), NoMemory>
    ensures { OnOk result (string_bytes shown.new ≡ string_bytes shown.old ++ encode_utf8_all (spec.roff_char c)) }
{
    match c {
        '\\' => shown.push_str("\\e")?,
        '-' => shown.push_str("\\-")?,
        '\'' => shown.push_str("\\(aq")?,
        '`' => shown.push_str("\\(ga")?,
        '\n' => shown.push_str("\n\\&")?,
        _ => shown.push(c)?,
    }
    Ok(())
}

fn push_in_item(shown: &mut String, c: char) -> Result<(), NoMemory>
    ensures { OnOk result (string_bytes shown.new ≡ string_bytes shown.old ++ encode_utf8_all (spec.item_char c)) }
{
    match c {
        '\n' => shown.push_str("\n  ")?,
        _ => shown.push(c)?,
    }
    Ok(())
}
