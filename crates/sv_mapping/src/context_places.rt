//! The places of texts, and the search along the fronts of a path.

ghost use Rattle.std.specs.Option.{option_copied};
ghost use Rattle.std.specs.Prelude.{IfSome, List, OnOk, [], length, position, ℕ, ◌++◌, ◌<◌, ◌||◌, ◌∷◌, ◌≡◌, ◌≤◌};
ghost use Rattle.std.specs.Str.{bytes_eq};
ghost use Rattle.sv_mapping.specs.Chosen.{is_chosen};
ghost use Rattle.sv_mapping.specs.ContextIndexPlaces.{ArePlaces, place_of};
ghost use Rattle.sv_mapping.specs.Fronts.{serves};
ghost use Rattle.sv_mapping.specs.Pattern.{is_at_or_below};

use std::alloc::Global;
use std::collections::HashMap;
use sv_text::NoMemory;

/// The places of context paths, of equal ones the first, and the length of the longest in bytes. No longer front of a
/// path is looked up.
#[derive(Drop)]
pub(crate) struct Places {
    places: HashMap<String, usize>,
    longest: usize,
}

impl Places {
    /// Creates an index of no paths.
    pub(crate) fn new(alloc: Global) -> Places
        ensures { ArePlaces result [] }
    {
        Places {
            places: HashMap::new(alloc),
            longest: 0,
        }
    }

    /// Adds the next path. Its place is the number of paths before it.
    pub(crate) fn enter(&mut self, alloc: Global, path: &str, place: usize) -> Result<(), NoMemory>
        ensures { (paths : List (List ℕ)) → ArePlaces self.old paths → place ≡ length paths → OnOk result (ArePlaces self.new (paths ++ path.now ∷ [])) }
    {
        self.longest = longer(self.longest, path.len());
        if self.places.contains_key(path) {
            return Ok(());
        }
        self.places.insert(String::from_str(alloc, path)?, place)?;
        Ok(())
    }

    /// Returns the place of this path, if it was added.
    fn place_of(&self, path: &str) -> Option<usize>
        ensures { (paths : List (List ℕ)) → ArePlaces self.now paths → result ≡ place_of paths path.now }
    {
        if path.len() > self.longest {
            return None;
        }
        self.places.get(path).copied()
    }

    /// Returns the place of the context path that serves a path. Searches from the path itself outwards.
    pub(crate) fn chosen(&self, path: &str) -> Option<usize>
        ensures { (paths : List (List ℕ)) → ArePlaces self.now paths → result ≡ position (is_chosen paths path.now) paths }
    {
        let mut rest = Some(path);
        while let Some(front) = rest {
            if let Some(place) = self.place_of(front) {
                return Some(place);
            }
            rest = outer(front);
        }
        None
    }
}

// Returns the greater of two lengths.
fn longer(one: usize, other: usize) -> usize
    ensures one { one ≤ result }
    ensures other { other ≤ result }
{
    one.max(other)
}

/// Returns the text before the last slash of a path, if there is one. A context path serves the path if it is the path,
/// or if it serves this front.
pub(crate) fn outer(path: &str) -> Option<&str>
    ensures serves { (context : List ℕ) → is_at_or_below context path.now ≡ (bytes_eq path.now context || serves context (option_copied result)) }
    ensures shorter { IfSome result (λ front. length front.now < length path.now) }
{
    match path.rsplit_once('/') {
        Some((front, _)) => Some(front),
        None => None,
    }
}
