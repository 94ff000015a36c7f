//! The serial of an id.

ghost use Rattle.std.specs.Prelude.{◌≡◌, ◌≢◌, ◌↔◌, ◌<◌, ◌^◌, ℕ, MatchOption, true};
ghost use Rattle.sv_session.specs.Id.{digits_of, id_text};
ghost use Rattle.sv_session.specs.Ids.{IsGiven};

use crate::id::ID_BYTES;
use hex::FromHex;

/// The number of hexadecimal digits of a word or a serial.
const NUMBER_BYTES: usize = 16;

/// Returns whether an id was made with a serial up to a bound.
pub(crate) fn is_given(id: &str, bound: u64) -> bool
    ensures { result ≡ true ↔ IsGiven bound id.now }
{
    let Some(serial) = serial_in(id.as_bytes()) else {
        return false;
    };
    serial <= bound
}

/// Returns the serial that an id was made with, or `None` if the bytes are no id.
fn serial_in(id: &[u8]) -> Option<u64>
    ensures { MatchOption result
        ((words : ℕ × ℕ) (serial : ℕ) → id.now ≢ id_text words serial)
        (λ serial. (serial < 2 ^ 64) × (words : ℕ × ℕ) × (id.now ≡ id_text words serial)) }
{
    if id.len() != ID_BYTES {
        return None;
    }
    let _first = number_of(&id[..NUMBER_BYTES])?;
    let _second = number_of(&id[NUMBER_BYTES..2 * NUMBER_BYTES])?;
    let serial = number_of(&id[2 * NUMBER_BYTES..])?;
    Some(serial)
}

/// Returns the number of 16 hexadecimal digits, or `None` if the bytes are no such digits.
fn number_of(digits: &[u8]) -> Option<u64>
    ensures { MatchOption result
        ((number : ℕ) → digits.now ≢ digits_of number)
        (λ number. (number < 2 ^ 64) × (digits.now ≡ digits_of number)) }
{
    let Ok(bytes) = <[u8; 8] as FromHex>::from_hex(digits) else {
        return None;
    };
    let number = u64::from_be_bytes(bytes);
    let mut lowercase = [0u8; NUMBER_BYTES];
    let Ok(()) = hex::encode_to_slice(number.to_be_bytes(), &mut lowercase) else {
        return None;
    };
    // Uppercase digits decode too, but an id has none.
    if lowercase.as_slice() != digits {
        return None;
    }
    Some(number)
}
