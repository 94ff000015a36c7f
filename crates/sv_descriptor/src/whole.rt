//! Whole numbers and Boolean values.

ghost use Rattle.std.specs.Prelude.{◌≡◌, ℕ, ℤ, List};
ghost use Rattle.sv_text.specs.Gives.{Gives};
ghost use Rattle.sv_descriptor.specs.Fault.{located_fault, Located};
ghost use Rattle.sv_descriptor.specs.Value as spec;

use crate::fault::{FaultCode, LocatedReadFault, refuse};
use crate::schema::Schema;
use std::alloc::Global;
use toml::Value;

/// A schema for whole numbers.
pub trait WholeSchema {
    /// The type of the output.
    type Output: Drop;

    // The result of reading the number at a key: the output, or the fault.
    ghost reads: { Self → List ℕ → ℤ → Located Self.Output };

    /// Reads the number at a key.
    ///
    /// # Errors
    /// The fault of the number, or [`LocatedReadFault::NoMemory`].
    fn read(&self, alloc: Global, key: &str, number: i64) -> Result<Self::Output, LocatedReadFault>
        ensures { Gives located_fault result (reads self.now key.now number) };
}

/// A whole number at a key.
#[derive(Clone, Copy)]
pub struct WholeOf<T>(pub T);

impl<T: WholeSchema> Schema for WholeOf<T> {
    type Output = T::Output;

    ghost fits = { λ _. spec.is_whole };

    ghost reads = { λ schema. spec.whole_of (T.reads schema.0) };

    fn fits(&self, value: &Value) -> bool {
        value.is_integer()
    }

    fn read(&self, alloc: Global, key: &str, value: &Value) -> Result<T::Output, LocatedReadFault> {
        match value {
            Value::Integer(number) => self.0.read(alloc, key, *number),
            _ => refuse(alloc, FaultCode::WrongType, key),
        }
    }
}

/// A whole number from `least` to `most`.
#[derive(Clone, Copy)]
pub struct NumberBetween {
    /// Minimum value.
    pub least: u16,
    /// Maximum value.
    pub most: u16,
}

impl WholeSchema for NumberBetween {
    type Output = u16;

    ghost reads = { λ schema. spec.number_between schema.least schema.most };

    fn read(&self, alloc: Global, key: &str, number: i64) -> Result<u16, LocatedReadFault> {
        if number < i64::from(self.least) || number > i64::from(self.most) {
            return refuse(alloc, FaultCode::BadValue, key);
        }
        Ok(number as u16)
    }
}

/// A Boolean value.
#[derive(Clone, Copy)]
pub struct Truth;

impl Schema for Truth {
    type Output = bool;

    ghost fits = { λ _. spec.is_truth };

    ghost reads = { λ _. spec.truth };

    fn fits(&self, value: &Value) -> bool {
        value.is_bool()
    }

    fn read(&self, alloc: Global, key: &str, value: &Value) -> Result<bool, LocatedReadFault> {
        match value {
            Value::Boolean(holds) => Ok(*holds),
            _ => refuse(alloc, FaultCode::WrongType, key),
        }
    }
}
