//! The completion of bash.

ghost use Rattle.std.specs.Prelude.{◌≡◌, ◌++◌, OnOk, map, string_bytes};
ghost use Rattle.sv_manual.specs.Completion as spec;
ghost use Rattle.sv_manual.specs.Rows.{command_fields, option_fields, option_text, options_of};
ghost use Rattle.sv_text.specs.Gives.{GivesAnswer};

use crate::commands::{COMMANDS, CommandRow, OPTIONS, OptionRow};
use crate::pages::{COMPLETION_CASES, COMPLETION_END, COMPLETION_HEAD, OPTION_CASE};
use std::alloc::Global;
use sv_text::{NoMemory, Text};

/// Returns a script that completes the commands, their options, and names of files.
///
/// # Errors
/// `NoMemory` if memory runs out.
pub fn completion_page(alloc: Global) -> Result<Text, NoMemory>
    ensures { GivesAnswer result (spec.completion_text (map (command_fields (λ text. text.now)) COMMANDS) (map (option_fields (λ text. text.now)) OPTIONS)) }
{
    completion_of(alloc, &COMMANDS, &OPTIONS)
}

fn completion_of(
    alloc: Global,
    commands: &[CommandRow],
    options: &[OptionRow],
) -> Result<Text, NoMemory>
    ensures { GivesAnswer result (spec.completion_text (map (command_fields (λ text. text.now)) commands.now) (map (option_fields (λ text. text.now)) options.now)) }
{
    let mut text = String::new(alloc);
    push_completion(&mut text, commands, options)?;
    Ok(Text::from_string(text))
}

fn push_completion(
    text: &mut String,
    commands: &[CommandRow],
    options: &[OptionRow],
) -> Result<(), NoMemory>
    ensures { OnOk result (string_bytes text.new ≡ string_bytes text.old ++ spec.completion_text (map (command_fields (λ text. text.now)) commands.now) (map (option_fields (λ text. text.now)) options.now)) }
{
    text.push_str(COMPLETION_HEAD)?;
    push_names(text, commands)?;
    text.push_str(COMPLETION_CASES)?;
    push_value_cases(text, options)?;
    push_option_cases(text, commands, options)?;
    text.push_str(COMPLETION_END)?;
    Ok(())
}

fn push_names(text: &mut String, commands: &[CommandRow]) -> Result<(), NoMemory>
    ensures { OnOk result (string_bytes text.new ≡ string_bytes text.old ++ spec.names_text (map (command_fields (λ text. text.now)) commands.now)) }
{
    for command in commands {
        push_word(text, command.0)?;
    }
    Ok(())
}

/// Adds a word and a space.
fn push_word(text: &mut String, word: &str) -> Result<(), NoMemory>
    ensures { OnOk result (string_bytes text.new ≡ string_bytes text.old ++ spec.listed word.now) }
{
    text.push_str(word)?;
    text.push(' ')?;
    Ok(())
}

fn push_value_cases(text: &mut String, options: &[OptionRow]) -> Result<(), NoMemory>
    ensures { OnOk result (string_bytes text.new ≡ string_bytes text.old ++ spec.value_cases (map (option_fields (λ text. text.now)) options.now)) }
{
    for option in options {
        push_value_case(text, option)?;
    }
    Ok(())
}

fn push_value_case(text: &mut String, option: &OptionRow) -> Result<(), NoMemory>
    ensures { OnOk result (string_bytes text.new ≡ string_bytes text.old ++ spec.value_case (option_fields (λ text. text.now) option.now)) }
{
    let (command, word, argument, _) = *option;
    if argument.is_empty() {
        return Ok(());
    }
    text.push_str("    *:")?;
    text.push_str(command)?;
    text.push_str(":")?;
    text.push_str(word)?;
    text.push_str(":*) ")?;
    text.push_str(completes(argument))?;
    Ok(())
}

/// Returns the commands of the case of an option with this argument.
fn completes(argument: &str) -> &'static str
    ensures { result.now ≡ spec.completes argument.now }
{
    if argument == "FILE" || argument == "FOLDER" || argument == "SOCKET" || argument == "OTHER" {
        ";;\n"
    } else {
        "return;;\n"
    }
}

fn push_option_cases(
    text: &mut String,
    commands: &[CommandRow],
    options: &[OptionRow],
) -> Result<(), NoMemory>
    ensures { OnOk result (string_bytes text.new ≡ string_bytes text.old ++ spec.option_cases (map (command_fields (λ text. text.now)) commands.now) (map (option_fields (λ text. text.now)) options.now)) }
{
    for command in commands {
        push_option_case(text, command.0, options)?;
    }
    Ok(())
}

fn push_option_case(text: &mut String, name: &str, options: &[OptionRow]) -> Result<(), NoMemory>
    ensures { OnOk result (string_bytes text.new ≡ string_bytes text.old ++ spec.option_case (map (option_fields (λ text. text.now)) options.now) name.now) }
{
    text.push_str("    *:")?;
    text.push_str(name)?;
    text.push_str(OPTION_CASE)?;
    push_words(text, name, options)?;
    text.push_str("\";;\n")?;
    Ok(())
}

fn push_words(text: &mut String, name: &str, options: &[OptionRow]) -> Result<(), NoMemory>
    ensures { OnOk result (string_bytes text.new ≡ string_bytes text.old ++ options_of spec.word_text name.now (map (option_fields (λ text. text.now)) options.now)) }
{
    for option in options {
        push_own_word(text, name, option)?;
    }
    Ok(())
}

fn push_own_word(text: &mut String, name: &str, option: &OptionRow) -> Result<(), NoMemory>
    ensures { OnOk result (string_bytes text.new ≡ string_bytes text.old ++ option_text spec.word_text name.now (option_fields (λ text. text.now) option.now)) }
{
    if option.0 != name {
        return Ok(());
    }
    push_word(text, option.1)
}
