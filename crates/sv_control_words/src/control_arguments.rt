//! The arguments of a word at the control socket, as the server reads them.

ghost use Rattle.std.specs.Prelude.{◌≡◌, ◌-◌, map, option_copied, string_bytes, take};
ghost use Rattle.std.specs.List.{find};
ghost use Rattle.sv_control_words.specs.ControlArguments as spec;
ghost use Rattle.sv_control_words.specs.ControlWord.{most};
ghost use Rattle.sv_mapping.specs.Pattern as pattern;

use crate::control_word::ControlWord;
use sv_mapping::MAX_PATTERN_BYTES;

/// Returns the first argument at whose blank the server would split it. Only the last argument that a word may take can
/// have blanks.
pub fn blank_argument(known: ControlWord, arguments: &[String]) -> Option<&str>
    ensures { option_copied result ≡ spec.blank_argument known (map string_bytes arguments.now) }
{
    first_with_blank(before_last(known, arguments))
}

fn first_with_blank(words: &[String]) -> Option<&str>
    ensures { option_copied result ≡ find spec.has_blank (map string_bytes words.now) }
{
    for word in words {
        if has_blank(word.as_str()) {
            return Some(word.as_str());
        }
    }
    None
}

/// Returns the arguments before the last one that the word may take.
fn before_last(known: ControlWord, arguments: &[String]) -> &[String]
    ensures { result.now ≡ take (most known - 1) arguments.now }
{
    let count = known.most().saturating_sub(1);
    if arguments.len() <= count {
        return arguments;
    }
    arguments.split_at(count).0
}

fn has_blank(word: &str) -> bool
    ensures { result ≡ spec.has_blank word.now }
{
    word.as_bytes().iter().any(|b| *b == b' ')
}

/// Returns the pattern that the word takes, if it is no URL pattern (Jakarta Servlet 6.0, section 12.2).
pub fn wrong_pattern(known: ControlWord, arguments: &[String]) -> Option<&str>
    ensures { option_copied result ≡ spec.wrong_pattern known (map string_bytes arguments.now) }
{
    if known != ControlWord::Append {
        return None;
    }
    let pattern = arguments.get(1)?;
    if is_pattern(pattern.as_str()) {
        None
    } else {
        Some(pattern.as_str())
    }
}

fn is_pattern(text: &str) -> bool
    ensures { result ≡ pattern.is_pattern text.now }
{
    text.len() <= MAX_PATTERN_BYTES
        && (text.is_empty() || text.starts_with('/') || is_extension_pattern(text))
}

fn is_extension_pattern(text: &str) -> bool
    ensures { result ≡ pattern.is_extension_pattern text.now }
{
    text.starts_with("*.") && !text.as_bytes().contains(&b'/')
}

/// Returns what a text lacks that is no URL pattern.
pub fn pattern_rule(text: &str) -> &'static str
    ensures { result.now ≡ spec.pattern_rule text.now }
{
    if MAX_PATTERN_BYTES < text.len() {
        "a pattern has at most 1024 bytes"
    } else if text.starts_with("*.") {
        "a pattern that begins with *. has no /"
    } else {
        "a pattern is empty, or begins with / or *."
    }
}

/// Returns which argument of the word may have blanks.
pub fn blank_rule(known: ControlWord) -> &'static str
    ensures { result.now ≡ spec.blank_rule known }
{
    match known {
        ControlWord::Explain => "only USER may have blanks",
        ControlWord::Append => "only ROLES may have blanks",
        _ => "it may have no blanks",
    }
}
