//! The arguments of the command `ctl`.

ghost use Rattle.std.specs.Prelude.{◌≡◌, [], map, string_bytes};
ghost use Rattle.sv_control_words.specs.ControlRequest as spec;
ghost use Rattle.sv_text.specs.Gives.{GivesAnswer};

use crate::control_arguments::{blank_argument, wrong_pattern};
use crate::control_word::ControlWord;
use std::alloc::Global;
use sv_text::{NoMemory, Text};

/// A line for the server at a control socket.
#[derive(Clone, Copy)]
pub struct ControlRequest<'a> {
    /// The name of the socket file.
    pub socket: &'a str,
    /// The words of the line. The first one is that of a [`ControlWord`], and has as many arguments as it takes. None
    /// has a line feed, and the server reads them as they are.
    pub words: &'a [String],
}

impl<'a> ControlRequest<'a> {
    /// Parses the arguments `SOCKET WORD ..`. Returns none if the socket is missing or the words are none of a line.
    pub fn parse(arguments: &'a [String]) -> Option<ControlRequest<'a>>
        ensures { spec.FindsControl (map string_bytes arguments.now) result }
    {
        let (socket, words) = arguments.split_first()?;
        if are_of_line(words) {
            Some(ControlRequest {
                socket: socket.as_str(),
                words,
            })
        } else {
            None
        }
    }

    /// Returns the line: the words with single blanks between them, and a line feed.
    ///
    /// # Errors
    /// [`NoMemory`].
    pub fn line(&self, alloc: Global) -> Result<Text, NoMemory>
        ensures { GivesAnswer result (spec.line_of (map string_bytes self.now.words.now)) }
    {
        let mut line = String::new(alloc);
        if let Some((word, arguments)) = self.words.split_first() {
            line.push_str(word.as_str())?;
            push_arguments(&mut line, arguments)?;
        }
        line.push_str("\n")?;
        Ok(Text::from_string(line))
    }
}

/// Appends the arguments, each after a blank.
fn push_arguments(line: &mut String, arguments: &[String]) -> Result<(), NoMemory>
    ensures { spec.Pushes result (string_bytes line.old) (map string_bytes arguments.now) (string_bytes line.new) }
{
    for argument in arguments {
        line.push_str(" ")?;
        line.push_str(argument.as_str())?;
    }
    Ok(())
}

/// Whether these are the words of a line: a known one with as many arguments as it takes, no line feed, and arguments
/// that the server reads as they are.
fn are_of_line(words: &[String]) -> bool
    ensures { result ≡ spec.are_of_line (map string_bytes words.now) }
{
    match words.split_first() {
        Some((word, arguments)) => {
            takes(word.as_str(), arguments.len())
                && are_on_one_line(words)
                && are_read(word.as_str(), arguments)
        }
        None => false,
    }
}

/// Whether the server reads the arguments of a known word as they are.
fn are_read(name: &str, arguments: &[String]) -> bool
    ensures { result ≡ spec.are_read (spec.named name.now) (map string_bytes arguments.now) }
{
    match ControlWord::named(name) {
        Some(word) => {
            blank_argument(word, arguments).is_none() && wrong_pattern(word, arguments).is_none()
        }
        None => false,
    }
}

/// Whether the word is known and takes this number of arguments.
fn takes(name: &str, count: usize) -> bool
    ensures { result ≡ spec.takes (spec.named name.now) count }
{
    match ControlWord::named(name) {
        Some(word) => word.least() <= count && count <= word.most(),
        None => false,
    }
}

/// Whether no word has a line feed.
pub fn are_on_one_line(words: &[String]) -> bool
    ensures { result ≡ spec.are_on_one_line (map string_bytes words.now) }
{
    for word in words {
        if has_line_feed(word.as_str()) {
            return false;
        }
    }
    true
}

fn has_line_feed(word: &str) -> bool
    ensures { result ≡ spec.has_line_feed word.now }
{
    word.as_bytes().iter().any(|b| *b == b'\n')
}
