//! Reading numbers, texts, options and lists from the front of bytes.

ghost use Rattle.std.specs.Prelude.{◌≡◌, ◌==◌, Option, List, ℕ, IfOk, IfSome, None, Some, length, if◌then◌else◌};
ghost use Rattle.std.specs.Int.{from_be_bytes, w64};
ghost use Rattle.std.specs.Option.{option_copied};
ghost use Rattle.std.specs.Str.{is_utf8};
ghost use Rattle.sv_saved_sessions.specs.Reading.{Gives, GivesBytes, byte_at, byte_string_at, bytes_at, items_at, list_at, magic_at, number_at, option_at, text_at};

use crate::reading_fault::ReadingFault;
use std::alloc::Global;
use std::marker::Model;
use sv_text::{Bytes, Listed, Text};

/// The first line of each file.
pub(crate) const MAGIC_LINE: &[u8] = b"fitskhela sessions 1\n";

/// The bytes that are still to be read. Contracts see them as a list. After an error nothing more is read.
#[derive(Drop)]
pub(crate) struct Cursor<'a> {
    rest: &'a [u8],
}

impl<'a> Model for Cursor<'a> {
    ghost use Rattle.std.specs.Prelude.{ℕ, List};

    ghost Value = { List ℕ };

    ghost view = { λ cursor. cursor.rest.now };
}

impl<'a> Cursor<'a> {
    /// Begins at the front of bytes.
    pub(crate) fn new(bytes: &'a [u8]) -> Cursor<'a>
        ensures { result ≡ bytes.now }
    {
        Cursor { rest: bytes }
    }

    /// Returns whether all bytes have been read.
    pub(crate) fn is_at_end(&self) -> bool
        ensures { result ≡ (length self.now == 0) }
    {
        self.rest.is_empty()
    }

    /// Reads so many bytes.
    #[tactic(auto, unfolding(crate::specs::Reading::bytes_at))]
    fn take(&mut self, count: usize) -> Result<&'a [u8], ReadingFault>
        ensures gives { GivesBytes (λ bytes. bytes.now) result self.new (bytes_at count self.old) }
        ensures count { IfOk result (λ bytes. length bytes.now ≡ count) }
    {
        if self.rest.len() < count {
            return Err(ReadingFault::Damaged);
        }
        let (front, rest) = self.rest.split_at(count);
        self.rest = rest;
        Ok(front)
    }

    /// Reads one byte.
    #[tactic(auto, unfolding(crate::specs::Reading::byte_at))]
    pub(crate) fn byte(&mut self) -> Result<u8, ReadingFault>
        ensures { Gives result self.new (byte_at self.old) }
    {
        let Some((byte, rest)) = self.rest.split_first() else {
            return Err(ReadingFault::Damaged);
        };
        self.rest = rest;
        Ok(*byte)
    }

    /// Reads a number.
    #[tactic(auto, unfolding(crate::specs::Reading::number_at))]
    pub(crate) fn number(&mut self) -> Result<u64, ReadingFault>
        ensures { Gives result self.new (number_at self.old) }
    {
        let front = self.take(8)?;
        Ok(number_of(front))
    }

    /// Reads the line that each file begins with.
    #[tactic(auto, unfolding(crate::specs::Reading::magic_at))]
    pub(crate) fn magic(&mut self) -> Result<(), ReadingFault>
        ensures { Gives result self.new (magic_at self.old) }
    {
        let line = self.take(MAGIC_LINE.len())?;
        if line == MAGIC_LINE {
            Ok(())
        } else {
            Err(ReadingFault::Damaged)
        }
    }

    /// Reads a byte string, whose length may be any number.
    #[tactic(auto, unfolding(crate::specs::Reading::byte_string_at))]
    fn piece(&mut self) -> Result<&'a [u8], ReadingFault>
        ensures { GivesBytes (λ bytes. bytes.now) result self.new (byte_string_at self.old) }
    {
        let count = self.number()?;
        self.take(count as usize)
    }

    /// Reads a byte string.
    pub(crate) fn bytes(&mut self, alloc: Global) -> Result<Bytes, ReadingFault>
        ensures { Gives result self.new (byte_string_at self.old) }
    {
        let bytes = self.piece()?;
        Ok(Bytes::copy_of(alloc, bytes)?)
    }

    /// Reads a text.
    #[tactic(auto, unfolding(crate::specs::Reading::text_at))]
    pub(crate) fn text(&mut self, alloc: Global) -> Result<Text, ReadingFault>
        ensures { Gives result self.new (text_at self.old) }
    {
        let bytes = self.piece()?;
        let Some(text) = text_of(bytes) else {
            return Err(ReadingFault::Damaged);
        };
        Ok(Text::copy_of(alloc, text)?)
    }
}

/// Returns the number of eight bytes, the highest first.
fn number_of(bytes: &[u8]) -> u64
    requires { length bytes.now ≡ 8 }
    ensures { result ≡ from_be_bytes w64 bytes.now }
{
    u64::from_be_bytes([
        bytes[0], bytes[1], bytes[2], bytes[3], bytes[4], bytes[5], bytes[6], bytes[7],
    ])
}

/// Returns the bytes as a text, if they are UTF-8.
pub(crate) fn text_of(bytes: &[u8]) -> Option<&str>
    ensures { option_copied result ≡ (if is_utf8 bytes.now then Some bytes.now else None) }
{
    match str::from_utf8(bytes) {
        Ok(text) => Some(text),
        Err(_) => None,
    }
}
