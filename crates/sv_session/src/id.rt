//! The id of a session.

ghost use Rattle.sv_text.specs.Gives.{GivesAnswer};
ghost use Rattle.sv_session.specs.Id.{digits_of, id_text};

use std::alloc::Global;
use sv_text::{NoMemory, Text};

/// The length of an id, in bytes.
pub(crate) const ID_BYTES: usize = 48;

/// Returns the id made of two random words and a serial: 48 hexadecimal digits.
pub fn id_of(alloc: Global, words: (u64, u64), serial: u64) -> Result<Text, NoMemory>
    ensures { GivesAnswer result (id_text words serial) }
{
    let mut id = Text::with_room(alloc, ID_BYTES)?;
    id.push_str(alloc, digits_of(alloc, words.0)?.as_str())?;
    id.push_str(alloc, digits_of(alloc, words.1)?.as_str())?;
    id.push_str(alloc, digits_of(alloc, serial)?.as_str())?;
    Ok(id)
}

/// Returns the 16 hexadecimal digits of a number.
fn digits_of(alloc: Global, number: u64) -> Result<Text, NoMemory>
    ensures { GivesAnswer result (digits_of number) }
{
    Ok(Text::from_string(hex::encode(alloc, number.to_be_bytes())?))
}
