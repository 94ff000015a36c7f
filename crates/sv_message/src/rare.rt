//! A value that is seldom present.

ghost use Rattle.std.specs.Prelude.{◌≡◌, None, Some};
ghost use Rattle.std.specs.Option.{option_copied};
ghost use Rattle.sv_text.specs.Gives.{GivesAnswer};

use std::alloc::Global;
use std::marker::Model;
use sv_text::NoMemory;

/// A value that is seldom present, in its own memory. Its owner stays small and is cheaper to move. Contracts see an
/// option.
#[derive(Debug, Drop)]
pub struct Rare<T> {
    inner: Option<Box<T>>,
}

impl<T> Model for Rare<T> {
    ghost use Rattle.std.specs.Prelude.{Option};
    ghost use Rattle.std.specs.Option.{option_map};

    ghost Value = { Option T };

    ghost view = { λ rare. option_map (λ boxed. boxed.value) rare.inner };
}

impl<T> Rare<T> {
    /// Returns no value. Takes no memory.
    pub fn none() -> Rare<T>
        ensures { result ≡ None }
    {
        Rare { inner: None }
    }

    /// Returns the value, if there is one.
    pub fn get(&self) -> Option<&T>
        ensures { option_copied result ≡ self.now }
    {
        match &self.inner {
            Some(boxed) => Some(boxed.as_ref()),
            None => None,
        }
    }
}

impl<T: Drop> Rare<T> {
    /// Moves a value into its own memory.
    pub fn some(alloc: Global, value: T) -> Result<Rare<T>, NoMemory>
        ensures { GivesAnswer result (Some value) }
    {
        Ok(Rare {
            inner: Some(Box::new(alloc, value)?),
        })
    }
}
