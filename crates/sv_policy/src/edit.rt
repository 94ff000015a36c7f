//! Edits of a policy.

ghost use Rattle.std.specs.Prelude.{Ok, OnErr, OnOk, ◌≡◌};
ghost use Rattle.sv_policy.specs.Edits.{GivesOutcome, append_outcome, edit_outcome, is_too_many, lists_too_many, numbered, place_of, with_last, withdraw_outcome, without_place};

use crate::edit_fault::EditFault;
use crate::policy::Policy;
use crate::rebuild::{rebuilt_with, rebuilt_without};
use std::alloc::Global;
use sv_constraints::{Auth, Collection, Constraint, MAX_PATTERNS_OF_CONSTRAINT, Transport};
use sv_text::Listed;

/// A security constraint that has no number yet.
#[derive(Drop)]
pub struct NewConstraint {
    /// The collections. The constraint covers a request if one of them does.
    pub collections: Listed<Collection>,
    /// The callers that it admits.
    pub auth: Auth,
    /// The transport that it requires.
    pub transport: Transport,
}

/// A change of the current constraints.
#[derive(Drop)]
pub enum Edit {
    /// Appends a constraint after all others.
    Append(NewConstraint),
    /// Removes the first constraint with this number.
    Withdraw(u64),
}

/// Maximum number of constraints after one is appended.
pub const MAX_CONSTRAINTS: usize = 1000;

impl Policy {
    ghost use Rattle.std.specs.Prelude.{length, slice_index_or, ◌<◌};
    ghost use Rattle.sv_constraints.specs.declared.constraint.Constraint.{Constraint};

    /// Appends a constraint after all others, and returns its number. This is one more than the greatest number
    /// assigned so far.
    ///
    /// # Errors
    /// [`EditFault::TooMany`] if the policy has [`MAX_CONSTRAINTS`] or more, or the new one lists more than
    /// [`MAX_PATTERNS_OF_CONSTRAINT`] patterns, with repeated ones counted each time. Otherwise
    /// [`EditFault::NumberSpent`] if the greatest possible number has been assigned. Otherwise [`EditFault::NoMemory`].
    /// The policy is unchanged.
    pub fn append(&mut self, alloc: Global, addition: NewConstraint) -> Result<u64, EditFault>
        ensures { GivesOutcome self.old self.new result (append_outcome self.old addition) }
    {
        if is_too_many(self.constraints.as_slice(), addition.collections.as_slice()) {
            return Err(EditFault::TooMany);
        }
        match self.greatest.checked_add(1) {
            None => Err(EditFault::NumberSpent),
            Some(number) => self.append_as(alloc, numbered(addition, number)),
        }
    }

    /// Appends a constraint that has its number.
    pub(crate) fn append_as(&mut self, alloc: Global, added: Constraint) -> Result<u64, EditFault>
        ensures { GivesOutcome self.old self.new result (Ok (added.number, with_last self.old added)) }
    {
        let Ok(rebuilt) = rebuilt_with(
            alloc,
            &self.rules,
            self.tables.as_slice(),
            self.constraints.as_slice(),
            &added,
        ) else {
            return Err(EditFault::NoMemory);
        };
        let number = added.number;
        if self.constraints.push(added).is_err() {
            return Err(EditFault::NoMemory);
        }
        self.greatest = number;
        self.rebuilt = self.rebuilt.saturating_add(rebuilt.count as u64);
        self.tables = rebuilt.tables;
        self.index = rebuilt.index;
        Ok(number)
    }

    /// Removes the first constraint with this number, and returns it. The number is not assigned again.
    ///
    /// # Errors
    /// [`EditFault::NoSuch`] if no constraint has the number. Otherwise [`EditFault::NoMemory`]. The policy is
    /// unchanged.
    pub fn withdraw(&mut self, alloc: Global, number: u64) -> Result<Constraint, EditFault>
        ensures { GivesOutcome self.old self.new result (withdraw_outcome self.old number) }
    {
        match place_of(self.constraints.as_slice(), number) {
            None => Err(EditFault::NoSuch),
            Some(place) => self.withdraw_at(alloc, place),
        }
    }

    /// Removes the constraint at an index, and returns it.
    fn withdraw_at(&mut self, alloc: Global, place: usize) -> Result<Constraint, EditFault>
        requires { place < length self.old.constraints }
        ensures { (withdrawn : Constraint) → withdrawn ≡ slice_index_or self.old.constraints place withdrawn →
            GivesOutcome self.old self.new result (Ok (withdrawn, without_place self.old place withdrawn)) }
    {
        let Ok(rebuilt) = rebuilt_without(
            alloc,
            &self.rules,
            self.tables.as_slice(),
            self.constraints.as_slice(),
            place,
        ) else {
            return Err(EditFault::NoMemory);
        };
        self.rebuilt = self.rebuilt.saturating_add(rebuilt.count as u64);
        self.tables = rebuilt.tables;
        self.index = rebuilt.index;
        Ok(self.constraints.remove(place))
    }

    /// Applies an edit and returns the number assigned or withdrawn.
    ///
    /// # Errors
    /// Those of [`append`](Policy::append) and of [`withdraw`](Policy::withdraw).
    pub fn edit(&mut self, alloc: Global, edit: Edit) -> Result<u64, EditFault>
        ensures { GivesOutcome self.old self.new result (edit_outcome self.old edit) }
    {
        match edit {
            Edit::Append(addition) => self.append(alloc, addition),
            Edit::Withdraw(number) => match self.withdraw(alloc, number) {
                Ok(_) => Ok(number),
                Err(fault) => Err(fault),
            },
        }
    }

    /// Returns the number of patterns affected by edits: the sum, over all edits, of the different patterns of the
    /// edited constraint. The count saturates.
    pub fn rebuilt(&self) -> u64
        ensures { result ≡ self.now.rebuilt }
    {
        self.rebuilt
    }
}

/// Returns whether there is no room for another constraint, or a constraint with these collections lists too many
/// patterns.
pub(crate) fn is_too_many(constraints: &[Constraint], collections: &[Collection]) -> bool
    ensures { result ≡ is_too_many constraints.now collections.now }
{
    constraints.len() >= MAX_CONSTRAINTS || lists_too_many(collections)
}

/// Returns whether collections list too many patterns, with repeated ones counted each time.
fn lists_too_many(collections: &[Collection]) -> bool
    ensures { result ≡ lists_too_many collections.now }
{
    let mut count: usize = 0;
    for collection in collections {
        count = count.saturating_add(collection.patterns.as_slice().len());
    }
    count > MAX_PATTERNS_OF_CONSTRAINT
}

/// Returns the constraint with its number.
pub(crate) fn numbered(addition: NewConstraint, number: u64) -> Constraint
    ensures { result ≡ numbered addition number }
{
    Constraint {
        number,
        collections: addition.collections,
        auth: addition.auth,
        transport: addition.transport,
    }
}

/// Returns the index of the first constraint with this number.
fn place_of(constraints: &[Constraint], number: u64) -> Option<usize>
    ensures { result ≡ place_of constraints.now number }
{
    constraints
        .iter()
        .position(|constraint| constraint.number == number)
}
