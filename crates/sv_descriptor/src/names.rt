//! Names that must differ.

ghost use Rattle.std.specs.Prelude.{◌≡◌, ℕ, List, [], ◌∷◌, map, not, IfOk};
ghost use Rattle.sv_text.specs.Gives.{Gives, GivesAnswer};
ghost use Rattle.sv_descriptor.specs.Fault.{located_fault, refuse_at, item_key};
ghost use Rattle.sv_descriptor.specs.declared.fault.FaultCode.TheVariants.{DuplicateName};
ghost use Rattle.sv_descriptor.specs.Names as spec;
ghost use Rattle.sv_descriptor.specs.Table.{is_among};

use crate::fault::{FaultCode, LocatedReadFault, refuse_item};
use std::alloc::Global;
use std::collections::BTreeSet;
use std::marker::Model;
use sv_text::{NoMemory, Text};

/// An item that is identified by its name among others of its kind.
pub trait Named {
    // The bytes of the name.
    ghost its_name: { Self → List ℕ };

    /// Returns the name.
    fn name(&self) -> &str
        ensures { result.now ≡ its_name self.now };
}

impl Named for Text {
    ghost its_name = { λ text. text };

    fn name(&self) -> &str {
        self.as_str()
    }
}

impl Named for &str {
    ghost its_name = { λ text. text.now };

    fn name(&self) -> &str {
        *self
    }
}

/// A set of names. Contracts see a list of them.
#[derive(Drop)]
pub struct Names<'a> {
    set: BTreeSet<&'a str>,
}

impl<'a> Model for Names<'a> {
    ghost use Rattle.std.specs.Prelude.{ℕ, List, map};

    ghost Value = { List (List ℕ) };

    ghost view = { λ names. map (λ name. name.now) names.set.keys };
}

impl<'a> Names<'a> {
    /// Creates an empty set.
    pub fn new(alloc: Global) -> Names<'a>
        ensures { result ≡ [] }
    {
        Names {
            set: BTreeSet::new(alloc),
        }
    }

    /// Returns whether the set contains a name.
    pub fn contains(&self, name: &str) -> bool
        ensures { result ≡ is_among self.now name.now }
    {
        self.set.contains(name)
    }

    /// Enters a name, and returns whether it was new. If memory runs out, the set is unchanged.
    pub fn enter(&mut self, name: &'a str) -> Result<bool, NoMemory>
        ensures new { IfOk result (λ is_new. is_new ≡ not (is_among self.old name.now)) }
        ensures entered { IfOk result (λ _. spec.HaveSame self.new (name.now ∷ self.old)) }
    {
        Ok(self.set.insert(name)?)
    }
}

/// Returns the names of a list as a set, or `None` if two of them are equal.
pub fn distinct_names<'a, N: Named>(
    alloc: Global,
    items: &'a [N],
) -> Result<Option<Names<'a>>, NoMemory>
    ensures { IfOk result (λ names. spec.AreDistinct names (map N.its_name items.now)) }
{
    let mut names = Names::new(alloc);
    for item in items {
        if !names.enter(item.name())? {
            return Ok(None);
        }
    }
    Ok(Some(names))
}

/// Returns whether two names of a list are equal.
pub fn repeats<N: Named>(alloc: Global, items: &[N]) -> Result<bool, NoMemory>
    ensures { GivesAnswer result (spec.repeats (map N.its_name items.now)) }
{
    Ok(distinct_names(alloc, items)?.is_none())
}

/// Checks that the names at a key of the items of a list in the file's table differ.
///
/// # Errors
/// [`FaultCode::DuplicateName`] at the first name that repeats an earlier one, or [`LocatedReadFault::NoMemory`].
pub fn check_distinct<N: Named>(
    alloc: Global,
    items: &[N],
    list: &str,
    key: &str,
) -> Result<(), LocatedReadFault>
    ensures { Gives located_fault result (spec.distinct list.now key.now (map N.its_name items.now)) }
{
    if repeats(alloc, items)? {
        return refuse_repeat(alloc, items, list, key);
    }
    Ok(())
}

/// Refuses a list because of the first name that repeats an earlier one. The name is at a key of an item of the list.
pub fn refuse_repeat<N: Named>(
    alloc: Global,
    items: &[N],
    list: &str,
    key: &str,
) -> Result<(), LocatedReadFault>
    ensures { Gives located_fault result (refuse_at DuplicateName key.now (item_key list.now (spec.first_repeat (map N.its_name items.now)) key.now)) }
{
    let place = first_repeat(alloc, items)?;
    refuse_item(alloc, FaultCode::DuplicateName, list, place, key)
}

/// Returns the place of the first name that repeats an earlier one, or the number of names if they all differ.
pub fn first_repeat<N: Named>(alloc: Global, items: &[N]) -> Result<usize, NoMemory>
    ensures { GivesAnswer result (spec.first_repeat (map N.its_name items.now)) }
{
    let mut names = Names::new(alloc);
    for (place, item) in items.iter().enumerate() {
        if !names.enter(item.name())? {
            return Ok(place);
        }
    }
    Ok(items.len())
}
