//! A value in its own memory.

ghost use Rattle.std.specs.Prelude.{◌≡◌};
ghost use Rattle.sv_text.specs.Gives.{GivesAnswer};

use std::alloc::Global;
use std::marker::Model;
use sv_text::NoMemory;

/// A value in its own memory. Its owner stays small and is cheaper to move. Contracts see the value.
#[derive(Debug, Drop)]
pub struct Apart<T> {
    inner: Box<T>,
}

impl<T> Model for Apart<T> {
    ghost Value = { T };

    ghost view = { λ apart. apart.inner.value };
}

impl<T> Apart<T> {
    /// Returns the value.
    pub fn get(&self) -> &T
        ensures { result.now ≡ self.now }
    {
        self.inner.as_ref()
    }
}

impl<T: Drop> Apart<T> {
    /// Moves a value into its own memory.
    pub fn new(alloc: Global, value: T) -> Result<Apart<T>, NoMemory>
        ensures { GivesAnswer result value }
    {
        Ok(Apart {
            inner: Box::new(alloc, value)?,
        })
    }
}
