//! Compiling and editing policies from borrowed constraints and edits, which are copied.

ghost use Rattle.std.specs.Prelude.{◌≡◌, IfOk};
ghost use Rattle.sv_policy.specs.Compiled.{compiled};
ghost use Rattle.sv_policy.specs.Edits.{GivesOutcome, append_outcome, edit_outcome};
ghost use Rattle.sv_text.specs.Gives.{GivesAnswer};

use crate::edit::{Edit, NewConstraint, is_too_many, numbered};
use crate::edit_fault::EditFault;
use crate::patterns::copied;
use crate::policy::Policy;
use std::alloc::Global;
use sv_constraints::{Auth, Collection, Constraint, Methods, Rules};
use sv_mapping::Pattern;
use sv_text::{Listed, NoMemory, Text, copied_texts};

impl Policy {
    /// Compiles copies of constraints and their rules. The constraints may be in any order and have any numbers.
    ///
    /// # Errors
    /// `NoMemory` if memory runs out.
    pub fn compile_copies(
        alloc: Global,
        constraints: &[Constraint],
        rules: &Rules,
    ) -> Result<Policy, NoMemory>
        ensures { GivesAnswer result (compiled constraints.now rules.now) }
    {
        let constraints = copied_constraints(alloc, constraints)?;
        let rules = copied_rules(alloc, rules)?;
        Policy::compile(alloc, constraints, rules)
    }

    /// Applies an edit and returns the number assigned or withdrawn. An appended constraint is copied.
    ///
    /// # Errors
    /// Those of [`append`](Policy::append) and of [`withdraw`](Policy::withdraw). The policy is unchanged.
    pub fn edit_copy(&mut self, alloc: Global, edit: &Edit) -> Result<u64, EditFault>
        ensures { GivesOutcome self.old self.new result (edit_outcome self.old edit.now) }
    {
        match edit {
            Edit::Append(addition) => self.append_copy(alloc, addition),
            Edit::Withdraw(number) => self.edit(alloc, Edit::Withdraw(*number)),
        }
    }

    // Appends a copy of a constraint. The limits are checked before it is copied.
    fn append_copy(&mut self, alloc: Global, addition: &NewConstraint) -> Result<u64, EditFault>
        ensures { GivesOutcome self.old self.new result (append_outcome self.old addition.now) }
    {
        if is_too_many(self.constraints.as_slice(), addition.collections.as_slice()) {
            return Err(EditFault::TooMany);
        }
        let Some(number) = self.greatest.checked_add(1) else {
            return Err(EditFault::NumberSpent);
        };
        let Ok(copy) = NewConstraint::copy_of(alloc, addition) else {
            return Err(EditFault::NoMemory);
        };
        self.append_as(alloc, numbered(copy, number))
    }
}

impl NewConstraint {
    /// Copies a constraint that has no number yet.
    ///
    /// # Errors
    /// `NoMemory` if memory runs out.
    pub fn copy_of(alloc: Global, addition: &NewConstraint) -> Result<NewConstraint, NoMemory>
        ensures { GivesAnswer result addition.now }
    {
        Ok(NewConstraint {
            collections: copied_collections(alloc, addition.collections.as_slice())?,
            auth: copied_auth(alloc, &addition.auth)?,
            transport: addition.transport,
        })
    }
}

/// Copies constraints, in order.
///
/// # Errors
/// `NoMemory` if memory runs out.
pub fn copied_constraints(
    alloc: Global,
    constraints: &[Constraint],
) -> Result<Vec<Constraint>, NoMemory>
    ensures { IfOk result (λ copies. copies.items ≡ constraints.now) }
{
    let mut copies = Vec::with_capacity(alloc, constraints.len())?;
    for constraint in constraints {
        copies.push(copied_constraint(alloc, constraint)?)?;
    }
    Ok(copies)
}

fn copied_constraint(alloc: Global, constraint: &Constraint) -> Result<Constraint, NoMemory>
    ensures { GivesAnswer result constraint.now }
{
    Ok(Constraint {
        number: constraint.number,
        collections: copied_collections(alloc, constraint.collections.as_slice())?,
        auth: copied_auth(alloc, &constraint.auth)?,
        transport: constraint.transport,
    })
}

fn copied_collections(
    alloc: Global,
    collections: &[Collection],
) -> Result<Listed<Collection>, NoMemory>
    ensures { GivesAnswer result collections.now }
{
    let mut copies = Vec::with_capacity(alloc, collections.len())?;
    for collection in collections {
        copies.push(copied_collection(alloc, collection)?)?;
    }
    Ok(Listed::from_vec(copies))
}

fn copied_collection(alloc: Global, collection: &Collection) -> Result<Collection, NoMemory>
    ensures { GivesAnswer result collection.now }
{
    Ok(Collection {
        patterns: copied_patterns(alloc, collection.patterns.as_slice())?,
        methods: copied_methods(alloc, &collection.methods)?,
    })
}

fn copied_patterns(alloc: Global, patterns: &[Pattern]) -> Result<Listed<Pattern>, NoMemory>
    ensures { GivesAnswer result patterns.now }
{
    let mut copies = Vec::with_capacity(alloc, patterns.len())?;
    for pattern in patterns {
        copies.push(copied(alloc, pattern)?)?;
    }
    Ok(Listed::from_vec(copies))
}

/// Copies a choice of methods.
///
/// # Errors
/// `NoMemory` if memory runs out.
pub fn copied_methods(alloc: Global, methods: &Methods) -> Result<Methods, NoMemory>
    ensures { GivesAnswer result methods.now }
{
    match methods {
        Methods::All => Ok(Methods::All),
        Methods::Only(names) => Ok(Methods::Only(copied_texts(alloc, names.as_slice())?)),
        Methods::Except(names) => Ok(Methods::Except(copied_texts(alloc, names.as_slice())?)),
    }
}

fn copied_auth(alloc: Global, auth: &Auth) -> Result<Auth, NoMemory>
    ensures { GivesAnswer result auth.now }
{
    match auth {
        Auth::Absent => Ok(Auth::Absent),
        Auth::Roles(names) => Ok(Auth::Roles(copied_texts(alloc, names.as_slice())?)),
    }
}

pub(crate) fn copied_rules(alloc: Global, rules: &Rules) -> Result<Rules, NoMemory>
    ensures { GivesAnswer result rules.now }
{
    Ok(Rules {
        declared: copied_texts(alloc, rules.declared.as_slice())?,
        deny_uncovered: rules.deny_uncovered,
    })
}
