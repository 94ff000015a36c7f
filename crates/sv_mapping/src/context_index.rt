//! An index of the context paths of several contexts.

ghost use Rattle.std.specs.Prelude.{◌≡◌, ◌<◌, ℕ, List, Some, IfSome, IsTrue, length, position, slice_get};
ghost use Rattle.sv_mapping.specs.Chosen.{is_chosen};
ghost use Rattle.sv_mapping.specs.Pattern.{is_at_or_below};
ghost use Rattle.sv_text.specs.Gives.{GivesAnswer};

use crate::context_places::Places;
use std::alloc::Global;
use std::marker::Model;
use sv_text::{Listed, NoMemory, Text};

/// The context paths of several contexts, indexed so that the cost of a lookup does not grow with their number.
/// Contracts see the list of the paths.
#[derive(Drop)]
pub struct ContextIndex {
    paths: Listed<Text>,
    places: Places,
}

impl Model for ContextIndex {
    ghost use Rattle.std.specs.Prelude.{ℕ, List};
    ghost use Rattle.sv_mapping.specs.ContextIndexPlaces.{ArePlaces};

    ghost Value = { List (List ℕ) };

    ghost view = { λ index. index.paths };

    ghost invariant = { λ index. ArePlaces index.places index.paths };
}

impl ContextIndex {
    /// Creates an index with copies of these context paths.
    ///
    /// # Errors
    /// `NoMemory` if an allocation was refused.
    pub fn of(alloc: Global, paths: &[Text]) -> Result<ContextIndex, NoMemory>
        ensures { GivesAnswer result paths.now }
    {
        let mut kept = Vec::new(alloc);
        let mut places = Places::new(alloc);
        for (place, path) in paths.iter().enumerate() {
            let text = path.as_str();
            places.enter(alloc, text, place)?;
            kept.push(Text::copy_of(alloc, text)?)?;
        }
        Ok(ContextIndex {
            paths: Listed::from_vec(kept),
            places,
        })
    }

    /// Returns the place of the context path of a path: the longest that serves it, and the first of equal ones
    /// (Jakarta Servlet 6.0, section 12.1). Returns `None` if no context path serves it. Allocates no memory. Looks up
    /// the path and each front of it that ends before a slash, up to the first that is a context path.
    pub fn place(&self, path: &str) -> Option<usize>
        ensures chosen { result ≡ position (is_chosen self.now path.now) self.now }
        ensures bound { IfSome result (λ place. place < length self.now) }
        ensures above { IfSome result (λ place. (context : List ℕ) → slice_get self.now place ≡ Some context → IsTrue (is_at_or_below context path.now)) }
    {
        self.places.chosen(path)
    }
}
