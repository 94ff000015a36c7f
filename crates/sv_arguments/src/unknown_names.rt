//! The line about a word that is none of the known names.

ghost use Rattle.std.specs.Prelude.{◌≡◌, IfOk, map, option_copied};
ghost use Rattle.sv_arguments.specs.Topics.{topic_names};
ghost use Rattle.sv_arguments.specs.UnknownNames as spec;
ghost use Rattle.sv_text.specs.Gives.{GivesAnswer};

use crate::near::nearest;
use crate::topic::TOPICS;
use std::alloc::Global;
use sv_program::quoted;
use sv_text::{NoMemory, Text};

/// Returns the line about a word in place of a command.
///
/// # Errors
/// [`NoMemory`].
pub(crate) fn unknown_command(alloc: Global, word: &str) -> Result<Text, NoMemory>
    ensures { GivesAnswer result (spec.unknown_command word.now) }
{
    let mut names = command_names(alloc)?;
    names.extend_from_slice(&["--help", "--version"])?;
    unknown_word(alloc, names.as_slice(), word)
}

/// Returns the line about a word after `help` that it does not know.
///
/// # Errors
/// [`NoMemory`].
pub(crate) fn unknown_topic(alloc: Global, word: &str) -> Result<Text, NoMemory>
    ensures { GivesAnswer result (spec.unknown_topic word.now) }
{
    let mut names = command_names(alloc)?;
    names.push("config")?;
    unknown_word(alloc, names.as_slice(), word)
}

fn unknown_word(alloc: Global, known: &[&str], word: &str) -> Result<Text, NoMemory>
    ensures { GivesAnswer result (spec.unknown_word (map (λ name. name.now) known.now) word.now) }
{
    let name = nearest(alloc, known, word)?;
    let hint = hint(alloc, name, "\"sv help\" lists the commands")?;
    let word = quoted(alloc, word)?;
    Ok(Text::from_string(format!(in alloc; "  there is no command {word}; {hint}")?))
}

fn command_names(alloc: Global) -> Result<Vec<&'static str>, NoMemory>
    ensures { IfOk result (λ names. map (λ name. name.now) names.items ≡ topic_names) }
{
    let mut names = Vec::new(alloc);
    for topic in TOPICS {
        names.push(topic.name())?;
    }
    Ok(names)
}

/// Returns the question whether the near name is meant, or else where the names are listed.
///
/// # Errors
/// [`NoMemory`].
pub(crate) fn hint(alloc: Global, name: Option<&str>, listing: &str) -> Result<Text, NoMemory>
    ensures { GivesAnswer result (spec.hint (option_copied name.entry) listing.now) }
{
    match name {
        Some(name) => Ok(Text::from_string(format!(in alloc; "did you mean \"{name}\"?")?)),
        None => Text::copy_of(alloc, listing),
    }
}
