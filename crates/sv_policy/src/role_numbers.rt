//! The least number of the constraints that name each role.

ghost use Rattle.std.specs.Prelude.{◌≡◌, ℕ, List, None, OnOk, false, nat_le};
ghost use Rattle.std.specs.Bool.{then_some};
ghost use Rattle.std.specs.Option.{option_map_or};
ghost use Rattle.std.specs.Str.{bytes_eq};
ghost use Rattle.sv_constraints.specs.Covering.{lists};
ghost use Rattle.sv_constraints.specs.Findings.{lesser};
ghost use Rattle.sv_constraints.specs.Roles.{roles_named, roles_read};
ghost use Rattle.sv_policy.specs.Merged.{grants, number_of};

use std::alloc::Global;
use std::collections::HashMap;
use sv_constraints::{Auth, Constraint, EVERY_CALLER, EVERY_ROLE, Rules};
use sv_text::{NoMemory, Text};

/// The least number of the constraints that name each role; `*` names every declared role. After a failed allocation,
/// some numbers may be lowered and others not.
#[derive(Drop)]
pub struct RoleNumbers {
    numbers: HashMap<String, u64>,
}

/// Returns whether there is a number and it is at most this one.
fn is_at_most(held: Option<u64>, number: u64) -> bool
    ensures { result ≡ option_map_or (λ kept. nat_le kept number) held false }
{
    held.is_some_and(|kept| kept <= number)
}

impl RoleNumbers {
    /// Returns the numbers of no constraints.
    pub fn new(alloc: Global) -> RoleNumbers
        ensures { (role : List ℕ) → number_of result role ≡ None }
    {
        RoleNumbers {
            numbers: HashMap::new(alloc),
        }
    }

    /// Returns the number of a role, or none if no constraint names it.
    pub fn of(&self, role: &str) -> Option<u64>
        ensures { result ≡ number_of self.now role.now }
    {
        self.numbers.get(role).copied()
    }

    /// Lowers the numbers of the roles that a constraint names.
    pub fn name_all(
        &mut self,
        alloc: Global,
        rules: &Rules,
        constraint: &Constraint,
    ) -> Result<(), NoMemory>
        ensures { OnOk result ((role : List ℕ) → number_of self.new role ≡
            lesser (number_of self.old role) (then_some (grants rules.now role constraint.now) constraint.now.number)) }
    {
        match &constraint.auth {
            Auth::Absent => Ok(()),
            Auth::Roles(names) => self.name_read(
                alloc,
                rules.declared.as_slice(),
                names.as_slice(),
                constraint.number,
            ),
        }
    }

    /// Lowers the numbers of the roles that these names mean.
    fn name_read(
        &mut self,
        alloc: Global,
        declared: &[Text],
        names: &[Text],
        number: u64,
    ) -> Result<(), NoMemory>
        ensures { OnOk result ((role : List ℕ) → number_of self.new role ≡
            lesser (number_of self.old role) (then_some (lists (roles_read declared.now names.now) role) number)) }
    {
        for name in names {
            self.name_one(alloc, declared, name.as_str(), number)?;
        }
        Ok(())
    }

    /// Lowers the numbers of the roles that a name means.
    fn name_one(
        &mut self,
        alloc: Global,
        declared: &[Text],
        name: &str,
        number: u64,
    ) -> Result<(), NoMemory>
        ensures { OnOk result ((role : List ℕ) → number_of self.new role ≡
            lesser (number_of self.old role) (then_some (lists (roles_named declared.now name.now) role) number)) }
    {
        if name == EVERY_ROLE {
            self.lower_all(alloc, declared, number)
        } else if name == EVERY_CALLER {
            Ok(())
        } else {
            self.lower(alloc, name, number)
        }
    }

    /// Lowers the number of each of these roles to at most this one.
    fn lower_all(&mut self, alloc: Global, roles: &[Text], number: u64) -> Result<(), NoMemory>
        ensures { OnOk result ((role : List ℕ) → number_of self.new role ≡
            lesser (number_of self.old role) (then_some (lists roles.now role) number)) }
    {
        for role in roles {
            self.lower(alloc, role.as_str(), number)?;
        }
        Ok(())
    }

    /// Lowers the number of a role to at most this one.
    fn lower(&mut self, alloc: Global, role: &str, number: u64) -> Result<(), NoMemory>
        ensures { OnOk result ((other : List ℕ) → number_of self.new other ≡
            lesser (number_of self.old other) (then_some (bytes_eq role.now other) number)) }
    {
        if is_at_most(self.of(role), number) {
            return Ok(());
        }
        self.numbers.insert(String::from_str(alloc, role)?, number)?;
        Ok(())
    }
}
