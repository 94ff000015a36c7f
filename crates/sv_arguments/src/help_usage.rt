//! The second line about the words after `help`.

ghost use Rattle.std.specs.Prelude.{◌≡◌, IfOk, map, string_bytes};
ghost use Rattle.sv_arguments.specs.HelpUsage as spec;
ghost use Rattle.sv_text.specs.Gives.{GivesAnswer};

use crate::plain::{lacks_line, untaken_line};
use crate::topic::Topic;
use crate::unknown_names::unknown_topic;
use std::alloc::Global;
use sv_text::{NoMemory, Text};

/// Returns the line about the arguments after a word that calls `help`, if they are wrong. Only the word `help` itself
/// takes arguments.
///
/// # Errors
/// [`NoMemory`].
pub(crate) fn help_detail(alloc: Global, name: &str, arguments: &[String]) -> Result<Text, NoMemory>
    ensures { IfOk result (spec.IsHelpLine name.now (map string_bytes arguments.now)) }
{
    let Some((word, rest)) = arguments.split_first() else {
        return lacks_line(alloc, Topic::Help);
    };
    let topic = Topic::named(word.as_str());
    if name != "help" {
        return untaken_line(alloc, name, Topic::Help, word.as_str());
    }
    match topic {
        None => other_line(alloc, arguments),
        Some(_) => untaken_help(alloc, rest),
    }
}

/// Returns the line about words after `help`, of which the first names no command.
fn other_line(alloc: Global, words: &[String]) -> Result<Text, NoMemory>
    ensures { GivesAnswer result (spec.other_line (map string_bytes words.now)) }
{
    let Some((word, rest)) = words.split_first() else {
        return lacks_line(alloc, Topic::Help);
    };
    if word.as_str() == "--format" {
        untaken_help(alloc, after_commands(rest))
    } else if word.as_str() == "config" {
        untaken_help(alloc, after_config(rest))
    } else {
        unknown_topic(alloc, word.as_str())
    }
}

/// Returns the line about the first of these words, which `help` does not take, or about a missing word.
fn untaken_help(alloc: Global, words: &[String]) -> Result<Text, NoMemory>
    ensures { GivesAnswer result (spec.untaken_help (map string_bytes words.now)) }
{
    match words.split_first() {
        Some((word, _)) => untaken_line(alloc, "help", Topic::Help, word.as_str()),
        None => lacks_line(alloc, Topic::Help),
    }
}

/// Returns the words after `config` from the first that is not taken.
fn after_config(words: &[String]) -> &[String]
    ensures { map string_bytes result.now ≡ spec.after_config (map string_bytes words.now) }
{
    let Some((word, rest)) = words.split_first() else {
        return words;
    };
    if word.as_str() == "--format" {
        after_keys(rest)
    } else {
        words
    }
}

/// Returns the words after `--format` from the first that is not taken for the keys.
fn after_keys(words: &[String]) -> &[String]
    ensures { map string_bytes result.now ≡ spec.after_format spec.is_keys_form (map string_bytes words.now) }
{
    let Some((word, rest)) = words.split_first() else {
        return words;
    };
    if is_keys_form(word.as_str()) {
        rest
    } else {
        words
    }
}

/// Returns the words after `--format` from the first that is not taken for the commands.
fn after_commands(words: &[String]) -> &[String]
    ensures { map string_bytes result.now ≡ spec.after_format spec.is_commands_form (map string_bytes words.now) }
{
    let Some((word, rest)) = words.split_first() else {
        return words;
    };
    if is_commands_form(word.as_str()) {
        rest
    } else {
        words
    }
}

fn is_keys_form(word: &str) -> bool
    ensures { result ≡ spec.is_keys_form word.now }
{
    word == "man" || word == "md"
}

fn is_commands_form(word: &str) -> bool
    ensures { result ≡ spec.is_commands_form word.now }
{
    is_keys_form(word) || word == "bash"
}
