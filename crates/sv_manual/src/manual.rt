//! The commands and their options, in each form.

ghost use Rattle.std.specs.Prelude.{◌≡◌, ◌++◌, OnOk, map, replicate, string_bytes};
ghost use Rattle.sv_manual.specs.Manual as spec;
ghost use Rattle.sv_manual.specs.Rows.{command_fields, option_fields, option_text, options_of, spaced};
ghost use Rattle.sv_text.specs.Gives.{GivesAnswer};

use crate::commands::{COMMANDS, CommandRow, OPTIONS, OptionRow};
use crate::form::{FURTHER_LINE, Form, escaped};
use crate::pages::{HELP_HEAD, MAN_END, MAN_HEAD, MARKDOWN_END, MARKDOWN_HEAD, ROFF_COMMAND};
use std::alloc::Global;
use sv_text::{NoMemory, Text};

/// The column of the descriptions of options in the help, after the indentation.
const COLUMN: usize = 24;

/// Returns all commands in this form.
///
/// # Errors
/// `NoMemory` if memory runs out.
pub fn commands_page(alloc: Global, form: Form) -> Result<Text, NoMemory>
    ensures { GivesAnswer result (spec.page_text form (map (command_fields (λ text. text.now)) COMMANDS) (map (option_fields (λ text. text.now)) OPTIONS)) }
{
    page_of(alloc, form, &COMMANDS, &OPTIONS)
}

/// Returns the command of this name in this form.
///
/// # Errors
/// `NoMemory` if memory runs out.
pub fn command_page(alloc: Global, form: Form, name: &str) -> Result<Text, NoMemory>
    ensures { GivesAnswer result (spec.named_text form name.now (map (command_fields (λ text. text.now)) COMMANDS) (map (option_fields (λ text. text.now)) OPTIONS)) }
{
    named_of(alloc, form, name, &COMMANDS, &OPTIONS)
}

/// Returns the usage of the command of this name: the program's name, its own and its arguments.
///
/// # Errors
/// `NoMemory` if memory runs out.
pub fn command_usage(alloc: Global, name: &str) -> Result<Text, NoMemory>
    ensures { GivesAnswer result (spec.named_usage name.now (map (command_fields (λ text. text.now)) COMMANDS)) }
{
    named_usage(alloc, name, &COMMANDS)
}

fn page_of(
    alloc: Global,
    form: Form,
    commands: &[CommandRow],
    options: &[OptionRow],
) -> Result<Text, NoMemory>
    ensures { GivesAnswer result (spec.page_text form (map (command_fields (λ text. text.now)) commands.now) (map (option_fields (λ text. text.now)) options.now)) }
{
    let mut text = String::new(alloc);
    text.push_str(page_head(form))?;
    push_commands(alloc, &mut text, form, commands, options)?;
    text.push_str(page_end(form))?;
    Ok(Text::from_string(text))
}

fn named_of(
    alloc: Global,
    form: Form,
    name: &str,
    commands: &[CommandRow],
    options: &[OptionRow],
) -> Result<Text, NoMemory>
    ensures { GivesAnswer result (spec.named_text form name.now (map (command_fields (λ text. text.now)) commands.now) (map (option_fields (λ text. text.now)) options.now)) }
{
    let mut text = String::new(alloc);
    for command in commands {
        push_named(alloc, &mut text, form, name, command, options)?;
    }
    Ok(Text::from_string(text))
}

fn named_usage(alloc: Global, name: &str, commands: &[CommandRow]) -> Result<Text, NoMemory>
    ensures { GivesAnswer result (spec.named_usage name.now (map (command_fields (λ text. text.now)) commands.now)) }
{
    let mut text = String::new(alloc);
    for command in commands {
        push_usage(alloc, &mut text, name, command)?;
    }
    Ok(Text::from_string(text))
}

/// Adds the usage of a command, if it has this name.
fn push_usage(
    alloc: Global,
    text: &mut String,
    name: &str,
    command: &CommandRow,
) -> Result<(), NoMemory>
    ensures { OnOk result (string_bytes text.new ≡ string_bytes text.old ++ spec.usage_named name.now (command_fields (λ text. text.now) command.now)) }
{
    if command.0 != name {
        return Ok(());
    }
    let usage = usage(alloc, command.0, command.1)?;
    text.push_str(usage.as_str())?;
    Ok(())
}

/// Adds a command, if it has this name.
fn push_named(
    alloc: Global,
    text: &mut String,
    form: Form,
    name: &str,
    command: &CommandRow,
    options: &[OptionRow],
) -> Result<(), NoMemory>
    ensures { OnOk result (string_bytes text.new ≡ string_bytes text.old ++ spec.command_named form (map (option_fields (λ text. text.now)) options.now) name.now (command_fields (λ text. text.now) command.now)) }
{
    if command.0 == name {
        push_command(alloc, text, form, command, options)
    } else {
        Ok(())
    }
}

fn page_head(form: Form) -> &'static str
    ensures { result.now ≡ spec.page_head form }
{
    match form {
        Form::Help => HELP_HEAD,
        Form::Roff => MAN_HEAD,
        Form::Markdown => MARKDOWN_HEAD,
    }
}

fn page_end(form: Form) -> &'static str
    ensures { result.now ≡ spec.page_end form }
{
    match form {
        Form::Help => "",
        Form::Roff => MAN_END,
        Form::Markdown => MARKDOWN_END,
    }
}

fn push_commands(
    alloc: Global,
    text: &mut String,
    form: Form,
    commands: &[CommandRow],
    options: &[OptionRow],
) -> Result<(), NoMemory>
    ensures { OnOk result (string_bytes text.new ≡ string_bytes text.old ++ spec.commands_text form (map (command_fields (λ text. text.now)) commands.now) (map (option_fields (λ text. text.now)) options.now)) }
{
    for command in commands {
        push_command(alloc, text, form, command, options)?;
    }
    Ok(())
}

/// Adds a command with those of these options that are its own.
fn push_command(
    alloc: Global,
    text: &mut String,
    form: Form,
    command: &CommandRow,
    options: &[OptionRow],
) -> Result<(), NoMemory>
    ensures { OnOk result (string_bytes text.new ≡ string_bytes text.old ++ spec.command_text form (map (option_fields (λ text. text.now)) options.now) (command_fields (λ text. text.now) command.now)) }
{
    let head = shown_command(alloc, form, command)?;
    text.push_str(head.as_str())?;
    push_options(alloc, text, form, command.0, options)?;
    text.push_str(command_end(form))?;
    Ok(())
}

fn command_end(form: Form) -> &'static str
    ensures { result.now ≡ spec.command_end form }
{
    match form {
        Form::Help => "",
        Form::Roff => ".RE\n",
        Form::Markdown => "",
    }
}

fn shown_command(alloc: Global, form: Form, command: &CommandRow) -> Result<Text, NoMemory>
    ensures { GivesAnswer result (spec.shown_command form (command_fields (λ text. text.now) command.now)) }
{
    let (name, arguments, does) = *command;
    let does = escaped(alloc, form, does)?;
    let does = does.as_str();
    match form {
        Form::Help => {
            let usage = usage(alloc, name, arguments)?;
            let usage = usage.as_str();
            Ok(Text::from_string(format!(in alloc; "{usage}\n    {does}\n")?))
        }
        Form::Roff => roff_command(alloc, name, arguments, does),
        Form::Markdown => {
            let usage = usage(alloc, name, arguments)?;
            let usage = usage.as_str();
            Ok(Text::from_string(format!(in alloc; "\n## `{usage}`\n\n{does}\n")?))
        }
    }
}

fn roff_command(alloc: Global, name: &str, arguments: &str, does: &str) -> Result<Text, NoMemory>
    ensures { GivesAnswer result (spec.roff_command name.now arguments.now does.now) }
{
    let head = roff_head(alloc, name, arguments)?;
    let mut text = String::new(alloc);
    text.push_str(head.as_str())?;
    text.push_str("\n\\&")?;
    text.push_str(does)?;
    text.push_str("\n.RS\n")?;
    Ok(Text::from_string(text))
}

fn roff_head(alloc: Global, name: &str, arguments: &str) -> Result<Text, NoMemory>
    ensures { GivesAnswer result (spec.roff_head name.now arguments.now) }
{
    let name = escaped(alloc, Form::Roff, name)?;
    let arguments = spaced_text(alloc, arguments)?;
    let arguments = escaped(alloc, Form::Roff, arguments.as_str())?;
    let mut text = String::new(alloc);
    text.push_str(ROFF_COMMAND)?;
    text.push_str(name.as_str())?;
    text.push_str(arguments.as_str())?;
    Ok(Text::from_string(text))
}

fn usage(alloc: Global, name: &str, arguments: &str) -> Result<Text, NoMemory>
    ensures { GivesAnswer result (spec.usage_of name.now arguments.now) }
{
    let arguments = spaced_text(alloc, arguments)?;
    let arguments = arguments.as_str();
    Ok(Text::from_string(format!(in alloc; "sv {name}{arguments}")?))
}

/// Returns a text after a space, or nothing for an empty text.
fn spaced_text(alloc: Global, text: &str) -> Result<Text, NoMemory>
    ensures { GivesAnswer result (spaced text.now) }
{
    if text.is_empty() {
        Text::copy_of(alloc, "")
    } else {
        Ok(Text::from_string(format!(in alloc; " {text}")?))
    }
}

fn push_options(
    alloc: Global,
    text: &mut String,
    form: Form,
    name: &str,
    options: &[OptionRow],
) -> Result<(), NoMemory>
    ensures { OnOk result (string_bytes text.new ≡ string_bytes text.old ++ options_of (spec.shown_option form) name.now (map (option_fields (λ text. text.now)) options.now)) }
{
    for option in options {
        push_option(alloc, text, form, name, option)?;
    }
    Ok(())
}

/// Adds an option, if it is one of this command.
fn push_option(
    alloc: Global,
    text: &mut String,
    form: Form,
    name: &str,
    option: &OptionRow,
) -> Result<(), NoMemory>
    ensures { OnOk result (string_bytes text.new ≡ string_bytes text.old ++ option_text (spec.shown_option form) name.now (option_fields (λ text. text.now) option.now)) }
{
    if option.0 != name {
        return Ok(());
    }
    let shown = shown_option(alloc, form, option)?;
    text.push_str(shown.as_str())?;
    Ok(())
}

fn shown_option(alloc: Global, form: Form, option: &OptionRow) -> Result<Text, NoMemory>
    ensures { GivesAnswer result (spec.shown_option form (option_fields (λ text. text.now) option.now)) }
{
    let (_, word, argument, does) = *option;
    let does = escaped(alloc, form, does)?;
    let does = does.as_str();
    match form {
        Form::Help => help_option(alloc, word, argument, does),
        Form::Roff => roff_option(alloc, word, argument, does),
        Form::Markdown => {
            let head = option_head(alloc, word, argument)?;
            let head = head.as_str();
            Ok(Text::from_string(format!(in alloc; "\n- `{head}`: {does}\n")?))
        }
    }
}

fn help_option(alloc: Global, word: &str, argument: &str, does: &str) -> Result<Text, NoMemory>
    ensures { GivesAnswer result (spec.help_option word.now argument.now does.now) }
{
    let head = option_head(alloc, word, argument)?;
    let head = padded(alloc, head.as_str())?;
    let head = head.as_str();
    Ok(Text::from_string(format!(in alloc; "    {head}{does}\n")?))
}

fn roff_option(alloc: Global, word: &str, argument: &str, does: &str) -> Result<Text, NoMemory>
    ensures { GivesAnswer result (spec.roff_option word.now argument.now does.now) }
{
    let word = escaped(alloc, Form::Roff, word)?;
    let argument = spaced_text(alloc, argument)?;
    let argument = escaped(alloc, Form::Roff, argument.as_str())?;
    let (word, argument) = (word.as_str(), argument.as_str());
    Ok(Text::from_string(format!(in alloc; ".TP\n\\fB{word}\\fR{argument}\n\\&{does}\n")?))
}

fn option_head(alloc: Global, word: &str, argument: &str) -> Result<Text, NoMemory>
    ensures { GivesAnswer result (spec.option_head word.now argument.now) }
{
    let argument = spaced_text(alloc, argument)?;
    let argument = argument.as_str();
    Ok(Text::from_string(format!(in alloc; "{word}{argument}")?))
}

/// Returns the head of an option with what is between it and the description.
fn padded(alloc: Global, head: &str) -> Result<Text, NoMemory>
    ensures { GivesAnswer result (spec.padded head.now) }
{
    let mut text = String::new(alloc);
    text.push_str(head)?;
    push_gap(&mut text, head.len())?;
    Ok(Text::from_string(text))
}

/// Adds spaces after a head of this width up to the column of descriptions, or a further line if the head reaches it.
fn push_gap(text: &mut String, width: usize) -> Result<(), NoMemory>
    ensures { OnOk result (string_bytes text.new ≡ string_bytes text.old ++ spec.gap_after width) }
{
    if width < COLUMN {
        push_spaces(text, COLUMN - width)
    } else {
        text.push_str(FURTHER_LINE)?;
        Ok(())
    }
}

fn push_spaces(text: &mut String, count: usize) -> Result<(), NoMemory>
    ensures { OnOk result (string_bytes text.new ≡ string_bytes text.old ++ replicate count 32) }
{
    for _place in 0..count {
        text.push_str(" ")?;
    }
    Ok(())
}
