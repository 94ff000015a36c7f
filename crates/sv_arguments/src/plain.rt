//! The second line about the arguments of a command without options.

ghost use Rattle.std.specs.Prelude.{◌≡◌, map, string_bytes};
ghost use Rattle.sv_arguments.specs.Plain as spec;
ghost use Rattle.sv_text.specs.Gives.{GivesAnswer};

use crate::topic::Topic;
use std::alloc::Global;
use sv_manual::command_usage;
use sv_program::quoted;
use sv_text::{NoMemory, Text};

/// Returns the line about the arguments of a command without options, if they are wrong: an argument is missing, or
/// the line shows the first one beyond those that the command takes, or else the last one.
///
/// # Errors
/// [`NoMemory`].
pub(crate) fn plain_line(
    alloc: Global,
    topic: Topic,
    arguments: &[String],
) -> Result<Text, NoMemory>
    ensures { GivesAnswer result (spec.plain_line topic (map string_bytes arguments.now)) }
{
    if arguments.len() < least_words(topic) {
        lacks_line(alloc, topic)
    } else {
        let word = wrong_word(most_words(topic), arguments);
        untaken_line(alloc, topic.name(), topic, word)
    }
}

/// Returns the line about a command that lacks an argument.
///
/// # Errors
/// [`NoMemory`].
pub(crate) fn lacks_line(alloc: Global, topic: Topic) -> Result<Text, NoMemory>
    ensures { GivesAnswer result (spec.lacks_line topic) }
{
    let name = topic.name();
    let hint = usage_hint(alloc, topic)?;
    Ok(Text::from_string(format!(in alloc; "  {name} lacks an argument{hint}")?))
}

/// Returns the line about a word that the command does not take after the word that calls it.
///
/// # Errors
/// [`NoMemory`].
pub(crate) fn untaken_line(
    alloc: Global,
    name: &str,
    topic: Topic,
    word: &str,
) -> Result<Text, NoMemory>
    ensures { GivesAnswer result (spec.untaken_line name.now topic word.now) }
{
    let word = quoted(alloc, word)?;
    let hint = usage_hint(alloc, topic)?;
    Ok(Text::from_string(format!(in alloc; "  {name} does not take {word}{hint}")?))
}

fn usage_hint(alloc: Global, topic: Topic) -> Result<Text, NoMemory>
    ensures { GivesAnswer result (spec.usage_hint topic) }
{
    let usage = command_usage(alloc, topic.name())?;
    Ok(Text::from_string(format!(in alloc; "; usage: {usage}")?))
}

/// Returns the first word beyond the most that are taken, or else the last one.
pub(crate) fn wrong_word(most: usize, words: &[String]) -> &str
    ensures { result.now ≡ spec.wrong_word most (map string_bytes words.now) }
{
    let last = words.len().saturating_sub(1);
    match words.get(most.min(last)) {
        Some(word) => word.as_str(),
        None => "",
    }
}

fn least_words(topic: Topic) -> usize
    ensures { result ≡ spec.least_words topic }
{
    match topic {
        Topic::First => 0,
        Topic::Policy => 3,
        Topic::Uncovered => 1,
        Topic::Audit => 1,
        Topic::Check => 1,
        Topic::Replay => 1,
        Topic::Serve => 2,
        Topic::Run => 1,
        Topic::Ctl => 1,
        Topic::SelfTest => 1,
        Topic::Help => 1,
        Topic::Version => 0,
    }
}

fn most_words(topic: Topic) -> usize
    ensures { result ≡ spec.most_words topic }
{
    match topic {
        Topic::First => 1,
        Topic::Policy => 4,
        Topic::Uncovered => 1,
        Topic::Audit => 1,
        Topic::Check => 1,
        Topic::Replay => 1,
        Topic::Serve => 2,
        Topic::Run => 1,
        Topic::Ctl => 1,
        Topic::SelfTest => 1,
        Topic::Help => 1,
        Topic::Version => 0,
    }
}
