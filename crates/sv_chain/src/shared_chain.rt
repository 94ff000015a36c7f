//! A chain with shared ownership.

ghost use Rattle.std.specs.Prelude.{◌≡◌};
ghost use Rattle.sv_text.specs.Gives.{GivesAnswer};

use std::alloc::Global;
use std::marker::Model;
use std::rc::Rc;
use sv_text::NoMemory;

/// The filters that a dispatch passes, as indices. A shared chain stays valid when the cache drops it. Contracts see
/// the list of the indices.
#[derive(Drop)]
pub struct Chain {
    places: Rc<Vec<usize>>,
}

impl Model for Chain {
    ghost use Rattle.std.specs.Prelude.{ℕ, List};

    ghost Value = { List ℕ };

    ghost view = { λ chain. chain.places.value.items };
}

impl Chain {
    /// Creates a chain of these indices.
    ///
    /// # Errors
    /// `NoMemory` if an allocation fails.
    pub(crate) fn of(alloc: Global, places: Vec<usize>) -> Result<Chain, NoMemory>
        ensures { GivesAnswer result places.items }
    {
        Ok(Chain {
            places: Rc::new(alloc, places)?,
        })
    }

    /// Returns the indices in their order.
    pub fn as_slice(&self) -> &[usize]
        ensures { result.now ≡ self.now }
    {
        self.places.as_ref().as_slice()
    }

    /// Returns the same chain, for one more owner.
    ///
    /// # Errors
    /// `NoMemory` if no more owners can be counted.
    pub(crate) fn share(&self) -> Result<Chain, NoMemory>
        ensures { GivesAnswer result self.now }
    {
        Ok(Chain {
            places: self.places.clone()?,
        })
    }
}
