//! The arguments of the command `serve`.

ghost use Rattle.std.specs.Prelude.{◌≡◌, true, map, string_bytes};
ghost use Rattle.std.specs.Char.{is_ascii_digit};
ghost use Rattle.std.specs.List.{list_all};
ghost use Rattle.sv_arguments.specs.Service.{count_words, service_words};
ghost use Rattle.sv_program.specs.Arguments.{Names};
ghost use Rattle.sv_script.specs.Fields.{number};

use crate::count::{Count, has_digits_alone};

/// A server, and the number of connections that it serves.
#[derive(Clone, Copy)]
pub struct Service<'a> {
    /// The name of the server file.
    pub config: &'a str,
    /// The number of connections to serve.
    pub connections: Count<'a>,
}

impl<'a> Service<'a> {
    /// Parses the arguments `CONFIG N`. Returns none if they are invalid.
    pub fn parse(arguments: &'a [String]) -> Option<Service<'a>>
        ensures { Names service_words (map string_bytes arguments.now) result }
    {
        let (config, rest) = arguments.split_first()?;
        let connections = count_in(rest)?;
        Some(Service {
            config: config.as_str(),
            connections,
        })
    }
}

// Returns the count in the only argument: decimal digits of a number that fits.
fn count_in(arguments: &[String]) -> Option<Count<'_>>
    ensures { Names count_words (map string_bytes arguments.now) result }
{
    let (text, rest) = arguments.split_first()?;
    let value = number_in(text.as_str())?;
    if rest.is_empty() {
        Some(Count {
            text: text.as_str(),
            value,
        })
    } else {
        None
    }
}

// Returns the number that a text of decimal digits writes, if it fits.
fn number_in(text: &str) -> Option<u64>
    ensures { result ≡ number text.now }
{
    if has_digits_alone(text.as_bytes()) {
        number_of_digits(text)
    } else {
        None
    }
}

fn number_of_digits(text: &str) -> Option<u64>
    requires { list_all is_ascii_digit text.now ≡ true }
    ensures { result ≡ number text.now }
{
    text.parse::<u64>().ok()
}
