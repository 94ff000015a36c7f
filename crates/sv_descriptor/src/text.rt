//! Texts.

ghost use Rattle.std.specs.Prelude.{◌≡◌, ℕ, List};
ghost use Rattle.sv_text.specs.Gives.{Gives};
ghost use Rattle.sv_descriptor.specs.Fault.{located_fault, Located};
ghost use Rattle.sv_descriptor.specs.Value as spec;

use crate::fault::{FaultCode, LocatedReadFault, refuse};
use crate::limits::MAX_NAME_BYTES;
use crate::schema::Schema;
use hex::FromHexError;
use std::alloc::Global;
use sv_text::{Bytes, Text};
use toml::Value;

/// A schema for texts.
pub trait TextSchema {
    /// The type of the output.
    type Output: Drop;

    // The result of reading the text at a key: the output, or the first fault.
    ghost reads: { Self → List ℕ → List ℕ → Located Self.Output };

    /// Reads the text at a key.
    ///
    /// # Errors
    /// The first fault of the text, or [`LocatedReadFault::NoMemory`].
    fn read(&self, alloc: Global, key: &str, text: &str) -> Result<Self::Output, LocatedReadFault>
        ensures { Gives located_fault result (reads self.now key.now text.now) };
}

/// A text at a key.
#[derive(Clone, Copy)]
pub struct TextOf<T>(pub T);

impl<T: TextSchema> Schema for TextOf<T> {
    type Output = T::Output;

    ghost fits = { λ _. spec.is_text };

    ghost reads = { λ schema. spec.text_of (T.reads schema.0) };

    fn fits(&self, value: &Value) -> bool {
        value.is_str()
    }

    fn read(&self, alloc: Global, key: &str, value: &Value) -> Result<T::Output, LocatedReadFault> {
        match value {
            Value::String(text) => self.0.read(alloc, key, text.as_str()),
            _ => refuse(alloc, FaultCode::WrongType, key),
        }
    }
}

/// Any text.
#[derive(Clone, Copy)]
pub struct AnyText;

impl TextSchema for AnyText {
    type Output = Text;

    ghost reads = { λ _. spec.any_text };

    fn read(&self, alloc: Global, _key: &str, text: &str) -> Result<Text, LocatedReadFault> {
        Ok(Text::copy_of(alloc, text)?)
    }
}

/// A name of 1 to [`MAX_NAME_BYTES`] bytes.
#[derive(Clone, Copy)]
pub struct Name;

impl TextSchema for Name {
    type Output = Text;

    ghost reads = { λ _. spec.name };

    fn read(&self, alloc: Global, key: &str, text: &str) -> Result<Text, LocatedReadFault> {
        if !is_within(text, 1, MAX_NAME_BYTES) {
            return refuse(alloc, FaultCode::BadValue, key);
        }
        Ok(Text::copy_of(alloc, text)?)
    }
}

/// Bytes written as `least` to `most` hexadecimal digits, in either case.
#[derive(Clone, Copy)]
pub struct HexText {
    /// Minimum number of digits.
    pub least: usize,
    /// Maximum number of digits.
    pub most: usize,
}

impl TextSchema for HexText {
    type Output = Bytes;

    ghost reads = { λ schema. spec.hex_text schema.least schema.most };

    fn read(&self, alloc: Global, key: &str, text: &str) -> Result<Bytes, LocatedReadFault> {
        if !is_within(text, self.least, self.most) {
            return refuse(alloc, FaultCode::BadValue, key);
        }
        match hex::decode(alloc, text) {
            Ok(bytes) => Ok(Bytes::from_vec(bytes)),
            Err(FromHexError::OutOfMemory) => Err(LocatedReadFault::NoMemory),
            Err(_) => refuse(alloc, FaultCode::BadValue, key),
        }
    }
}

/// Returns whether a text has `least` to `most` bytes.
pub fn is_within(text: &str, least: usize, most: usize) -> bool
    ensures { result ≡ spec.is_within least most text.now }
{
    least <= text.len() && text.len() <= most
}
