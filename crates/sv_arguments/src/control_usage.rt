//! The second line about the arguments of the command `ctl`.

ghost use Rattle.std.specs.Prelude.{◌≡◌, IfOk, map, option_copied, string_bytes};
ghost use Rattle.sv_arguments.specs.ControlUsage as spec;
ghost use Rattle.sv_arguments.specs.Near.{near};
ghost use Rattle.sv_text.specs.Gives.{GivesAnswer};

use crate::near::nearest;
use crate::plain::{lacks_line, wrong_word};
use crate::topic::Topic;
use crate::unknown_names::hint;
use std::alloc::Global;
use sv_control_words::{
    ControlWord, are_on_one_line, blank_argument, blank_rule, pattern_rule, wrong_pattern,
};
use sv_program::quoted;
use sv_text::{NoMemory, Text};

/// The names of the words, in the order in which they are listed.
const CONTROL_NAMES: [&str; 7] = [
    "status",
    "constraints",
    "uncovered",
    "explain",
    "append",
    "withdraw",
    "stop",
];

/// The words, as they are listed for a word that is near to none.
const LISTING: &str = "it knows status, constraints, uncovered, explain, append, withdraw, stop";

/// Returns the line about these arguments of `ctl`, if they are wrong: the socket or the word is missing, the word is
/// not known, it has too few or too many arguments, an argument has a line feed, or else the server would not read one as
/// it is.
///
/// # Errors
/// [`NoMemory`].
pub(crate) fn control_detail(alloc: Global, arguments: &[String]) -> Result<Text, NoMemory>
    ensures { GivesAnswer result (spec.control_line (map string_bytes arguments.now)) }
{
    let Some((_, words)) = arguments.split_first() else {
        return lacks_line(alloc, Topic::Ctl);
    };
    let Some((word, arguments)) = words.split_first() else {
        return lacks_line(alloc, Topic::Ctl);
    };
    match ControlWord::named(word.as_str()) {
        Some(known) => known_line(alloc, known, word.as_str(), arguments),
        None => unknown_line(alloc, word.as_str()),
    }
}

/// Returns the line about a word that is not known.
fn unknown_line(alloc: Global, word: &str) -> Result<Text, NoMemory>
    ensures { GivesAnswer result (spec.unknown_line word.now) }
{
    let name = near_word(alloc, word)?;
    let hint = hint(alloc, name, LISTING)?;
    let word = quoted(alloc, word)?;
    Ok(Text::from_string(format!(in alloc; "  ctl has no word {word}; {hint}")?))
}

/// Returns the line about the arguments of a known word.
fn known_line(
    alloc: Global,
    known: ControlWord,
    word: &str,
    arguments: &[String],
) -> Result<Text, NoMemory>
    ensures { GivesAnswer result (spec.known_line known word.now (map string_bytes arguments.now)) }
{
    if arguments.len() < known.least() {
        few_line(alloc, known, word)
    } else if known.most() < arguments.len() {
        many_line(alloc, known, word, wrong_word(known.most(), arguments))
    } else if !are_on_one_line(arguments) {
        Text::copy_of(alloc, "  ctl takes no word with a line feed")
    } else {
        misread_line(alloc, known, word, arguments)
    }
}

/// Returns the line about the first argument that the server would not read as it is: one with a blank, or else the
/// pattern.
fn misread_line(
    alloc: Global,
    known: ControlWord,
    word: &str,
    arguments: &[String],
) -> Result<Text, NoMemory>
    ensures { GivesAnswer result (spec.misread_line known word.now (map string_bytes arguments.now)) }
{
    if let Some(argument) = blank_argument(known, arguments) {
        return rule_line(alloc, word, argument, blank_rule(known));
    }
    match wrong_pattern(known, arguments) {
        Some(pattern) => rule_line(alloc, word, pattern, pattern_rule(pattern)),
        None => Ok(Text::from_string(String::new(alloc))),
    }
}

/// Returns the line about an argument that is not taken by a rule.
fn rule_line(alloc: Global, word: &str, argument: &str, rule: &str) -> Result<Text, NoMemory>
    ensures { GivesAnswer result (spec.rule_line word.now argument.now rule.now) }
{
    let argument = quoted(alloc, argument)?;
    Ok(Text::from_string(format!(in alloc; "  {word} does not take {argument}; {rule}")?))
}

/// Returns the line about a word with too few arguments.
fn few_line(alloc: Global, known: ControlWord, word: &str) -> Result<Text, NoMemory>
    ensures { GivesAnswer result (spec.few_line known word.now) }
{
    let hint = usage_after(alloc, known)?;
    Ok(Text::from_string(format!(in alloc; "  {word} lacks an argument{hint}")?))
}

/// Returns the line about an argument that a word does not take.
fn many_line(
    alloc: Global,
    known: ControlWord,
    word: &str,
    argument: &str,
) -> Result<Text, NoMemory>
    ensures { GivesAnswer result (spec.many_line known word.now argument.now) }
{
    let argument = quoted(alloc, argument)?;
    let hint = usage_after(alloc, known)?;
    Ok(Text::from_string(format!(in alloc; "  {word} does not take {argument}{hint}")?))
}

fn usage_after(alloc: Global, known: ControlWord) -> Result<Text, NoMemory>
    ensures { GivesAnswer result (spec.usage_after known) }
{
    let usage = known.usage();
    Ok(Text::from_string(format!(in alloc; "; usage: sv ctl SOCKET {usage}")?))
}

/// Returns the name of a word that is near to this one, if there is one.
///
/// # Errors
/// [`NoMemory`].
fn near_word(alloc: Global, name: &str) -> Result<Option<&'static str>, NoMemory>
    ensures { IfOk result (λ found. option_copied found ≡ near spec.word_names name.now) }
{
    nearest(alloc, &CONTROL_NAMES, name)
}
