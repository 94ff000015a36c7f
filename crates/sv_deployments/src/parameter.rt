//! Initialization parameters of components.

ghost use Rattle.std.specs.Prelude.{◌≡◌, []};

use std::alloc::Global;
use sv_component::{Config, Init};
use sv_text::{NoMemory, Text};

/// Returns the parameter of this name, or an empty text if there is none.
pub(crate) fn parameter(alloc: Global, config: &Config, name: &str) -> Result<Text, NoMemory> {
    Text::copy_of(alloc, config.param(name).unwrap_or(""))
}

/// Stores the parameter of this name, or an empty text if there is none, and returns the result of `init`.
pub(crate) fn keep_parameter(alloc: Global, config: &Config, name: &str, kept: &mut Text) -> Init {
    match parameter(alloc, config, name) {
        Ok(text) => {
            *kept = text;
            Init::Ready
        }
        Err(_) => Init::NoMemory,
    }
}

/// Returns an empty text.
pub(crate) fn no_text(alloc: Global) -> Text
    ensures { result ≡ [] }
{
    Text::from_string(String::new(alloc))
}

/// Returns the number that a text of decimal digits writes, or 0 for any other text and for a number out of range.
pub(crate) fn number(text: &str) -> u64 {
    if are_digits(text.as_bytes()) {
        text.parse::<u64>().unwrap_or(0)
    } else {
        0
    }
}

fn are_digits(text: &[u8]) -> bool {
    text.iter().all(|byte| byte.is_ascii_digit())
}
