//! The constraints with which a context resumes.

ghost use Rattle.std.specs.Prelude.{Ok, filter, nat_lt, ◌≡◌};
ghost use Rattle.sv_policy.specs.Compiled.{greatest_number};
ghost use Rattle.sv_policy.specs.Resuming.{Resumes, append_each, compiled_after, resumption, unnumbered};
ghost use Rattle.sv_text.specs.Gives.{GivesAnswer};

use crate::copies::{copied_constraints, copied_rules};
use crate::edit::NewConstraint;
use crate::edit_fault::EditFault;
use crate::policy::{Policy, greatest_number};
use crate::sameness::same_constraints;
use std::alloc::Global;
use std::collections::VecDeque;
use sv_constraints::{Constraint, Rules};
use sv_text::NoMemory;

/// The constraints of a context that was suspended.
#[derive(Drop)]
pub struct EditedConstraints<'a> {
    /// The constraints that its descriptor declared.
    pub declared: &'a [Constraint],
    /// The constraints that edits left, in their order.
    pub constraints: &'a [Constraint],
    /// The greatest number that a constraint was assigned.
    pub greatest: u64,
}

impl Policy {
    /// Compiles copies of the constraints with which a context resumes. `declared` are those of its descriptor now. If
    /// they are the ones that it declared before, the constraints that edits left come back with their numbers, and the
    /// next one that is appended has a number above the greatest. If they are others, they hold, and the constraints
    /// that edits appended and left are appended to them; their numbers change.
    ///
    /// # Errors
    /// [`EditFault::TooMany`] if the appended constraints do not fit beside the declared ones, or
    /// [`EditFault::NoMemory`].
    pub fn resume(
        alloc: Global,
        declared: &[Constraint],
        rules: &Rules,
        edited: EditedConstraints<'_>,
    ) -> Result<Policy, EditFault>
        ensures { Resumes (resumption declared.now rules.now edited.entry.declared.now edited.entry.constraints.now edited.entry.greatest) result }
    {
        let EditedConstraints {
            declared: earlier,
            constraints,
            greatest,
        } = edited;
        match copied_constraints(alloc, constraints) {
            Ok(copies) => resume_with(alloc, declared, rules, earlier, copies, greatest),
            Err(_) => Err(EditFault::NoMemory),
        }
    }

    /// Returns the greatest number that a constraint was assigned so far.
    pub fn greatest(&self) -> u64
        ensures { result ≡ self.now.greatest }
    {
        self.greatest
    }

    /// Returns the current constraints, in their order.
    pub fn into_constraints(self) -> Vec<Constraint>
        ensures { result.items ≡ self.constraints }
    {
        self.constraints
    }
}

// Compiles the constraints with which a context resumes. `earlier` are those that its descriptor declared before.
fn resume_with(
    alloc: Global,
    declared: &[Constraint],
    rules: &Rules,
    earlier: &[Constraint],
    constraints: Vec<Constraint>,
    greatest: u64,
) -> Result<Policy, EditFault>
    ensures { Resumes (resumption declared.now rules.now earlier.now constraints.items greatest) result }
{
    if same_constraints(declared, earlier) {
        return compile_after(alloc, constraints, rules, greatest);
    }
    match Policy::compile_copies(alloc, declared, rules) {
        Ok(policy) => append_above(alloc, policy, constraints, greatest_number(earlier)),
        Err(_) => Err(EditFault::NoMemory),
    }
}

// Compiles constraints that edits left.
fn compile_after(
    alloc: Global,
    constraints: Vec<Constraint>,
    rules: &Rules,
    greatest: u64,
) -> Result<Policy, EditFault>
    ensures { Resumes (Ok (compiled_after constraints.items rules.now greatest)) result }
{
    let Ok(rules) = copied_rules(alloc, rules) else {
        return Err(EditFault::NoMemory);
    };
    let Ok(mut policy) = Policy::compile(alloc, constraints, rules) else {
        return Err(EditFault::NoMemory);
    };
    policy.greatest = greatest.max(policy.greatest);
    Ok(policy)
}

// Appends the constraints with numbers above one, in their order.
fn append_above(
    alloc: Global,
    policy: Policy,
    constraints: Vec<Constraint>,
    last: u64,
) -> Result<Policy, EditFault>
    ensures { Resumes (append_each policy (filter (λ constraint. nat_lt last constraint.number) constraints.items)) result }
{
    let mut appended = constraints;
    appended.retain(|constraint| constraint.number > last);
    append_each(alloc, policy, appended)
}

// Appends constraints in their order. Their numbers change.
fn append_each(
    alloc: Global,
    policy: Policy,
    constraints: Vec<Constraint>,
) -> Result<Policy, EditFault>
    ensures { Resumes (append_each policy constraints.items) result }
{
    let mut policy = policy;
    let mut waiting = VecDeque::from_vec(constraints);
    while let Some(constraint) = waiting.pop_front() {
        if let Err(fault) = policy.append(alloc, unnumbered(constraint)) {
            return Err(fault);
        }
    }
    Ok(policy)
}

// Returns a constraint without its number.
fn unnumbered(constraint: Constraint) -> NewConstraint
    ensures { result ≡ unnumbered constraint }
{
    let Constraint {
        number: _,
        collections,
        auth,
        transport,
    } = constraint;
    NewConstraint {
        collections,
        auth,
        transport,
    }
}
