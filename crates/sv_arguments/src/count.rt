//! Numbers in the arguments.

ghost use Rattle.std.specs.Char.{is_ascii_digit};
ghost use Rattle.std.specs.List.{list_all};
ghost use Rattle.std.specs.Prelude.{Some, true, ◌≡◌};
ghost use Rattle.sv_arguments.specs.Values.{Finds, IsAddress, IsCount, IsDescriptor, IsNumber};
ghost use Rattle.sv_script.specs.Fields.{number};

use std::net::SocketAddr;

/// The first number of a descriptor that is no standard stream.
const FIRST_DESCRIPTOR: u32 = 3;

/// The greatest number of a descriptor, by the default of Linux (`/proc/sys/fs/nr_open`).
const MAX_DESCRIPTOR: u32 = 1_048_575;

/// Returns the number that decimal digits write, if it is from 1 to the limit.
pub(crate) fn count_in(text: &str, limit: u32) -> Option<u32>
    ensures { Finds (IsCount limit text.now) result }
{
    if !has_digits_alone(text.as_bytes()) {
        return None;
    }
    let count = number_in(text)?;
    if 0 < count && count <= limit {
        Some(count)
    } else {
        None
    }
}

/// Returns the number of a descriptor that the word writes, if it is no standard stream.
pub(crate) fn descriptor_in(word: &str) -> Option<u32>
    ensures { Finds (IsDescriptor word.now) result }
{
    let number = count_in(word, MAX_DESCRIPTOR)?;
    if FIRST_DESCRIPTOR <= number {
        Some(number)
    } else {
        None
    }
}

/// Returns whether a text consists of decimal digits.
pub(crate) fn has_digits_alone(text: &[u8]) -> bool
    ensures { result ≡ list_all is_ascii_digit text.now }
{
    text.iter().all(|byte| byte.is_ascii_digit())
}

// Returns the number of decimal digits, or none if there are none or it does not fit.
fn number_in(text: &str) -> Option<u32>
    requires { list_all is_ascii_digit text.now ≡ true }
    ensures { IsNumber text.now result }
{
    text.parse::<u32>().ok()
}

/// A text of decimal digits, and its number.
#[derive(Clone, Copy)]
pub struct Count<'a> {
    pub(crate) text: &'a str,
    pub(crate) value: u64,
    ghost counts: { number text.now ≡ Some value },
}

impl Count<'_> {
    /// Returns the number.
    pub fn value(&self) -> u64
        ensures { result ≡ self.now.value }
    {
        self.value
    }
}

/// Returns the address with its port that the word writes.
pub(crate) fn address_in(word: &str) -> Option<SocketAddr>
    ensures { Finds (IsAddress word.now) result }
{
    match word.parse::<SocketAddr>() {
        Ok(address) => Some(address),
        Err(_) => None,
    }
}
