//! The constraints that cover a method, merged for all callers at once.

ghost use Rattle.std.specs.Prelude.{◌≡◌, ◌++◌, ◌∷◌, [], List, IfOk, OnOk, filter, map};
ghost use Rattle.std.specs.Option.{option_copied};
ghost use Rattle.sv_constraints.specs.Findings.{findings_of};
ghost use Rattle.sv_policy.specs.Covering.{covers_at};
ghost use Rattle.sv_policy.specs.Merged.{IsMerged, admitting, names_everyone};
ghost use Rattle.sv_policy.specs.Uncovered.{is_bare};

use crate::coverage::covers_at;
use crate::role_numbers::RoleNumbers;
use std::alloc::Global;
use sv_constraints::{
    Auth, Constraint, EVERY_CALLER, Findings, Rules, lesser, lists, one_more_is_found,
};
use sv_realm::Caller;
use sv_text::NoMemory;

/// Merged constraints: the least number of each kind, for any caller.
#[derive(Drop)]
pub struct Merged {
    /// The findings without a caller.
    found: Findings,
    /// The least number of the constraints that admit every authenticated caller.
    everyone: Option<u64>,
    /// The least number of the constraints that name each role.
    roles: RoleNumbers,
}

/// Returns whether an authorization constraint names every authenticated caller.
pub fn names_everyone(auth: &Auth) -> bool
    ensures { result ≡ names_everyone auth.now }
{
    match auth {
        Auth::Absent => false,
        Auth::Roles(names) => lists(names.as_slice(), EVERY_CALLER),
    }
}

impl Merged {
    ghost use Rattle.sv_constraints.specs.declared.constraint.Constraint.{Constraint};
    ghost use Rattle.sv_constraints.specs.declared.constraint.Rules.{Rules};

    /// Returns the merge of no constraints.
    fn none(alloc: Global) -> Merged
        ensures { (rules : Rules) → IsMerged rules [] result }
    {
        Merged {
            found: Findings::none(),
            everyone: None,
            roles: RoleNumbers::new(alloc),
        }
    }

    /// Merges one more constraint. If memory runs out, it may be merged in part.
    fn add(&mut self, alloc: Global, rules: &Rules, constraint: &Constraint) -> Result<(), NoMemory>
        ensures { OnOk result ((members : List Constraint) → IsMerged rules.now members self.old →
            IsMerged rules.now (members ++ constraint.now ∷ []) self.new) }
    {
        one_more_is_found();
        let everyone = names_everyone(&constraint.auth).then_some(constraint.number);
        self.found = self.found.with(constraint, rules, None);
        self.everyone = lesser(self.everyone, everyone);
        self.roles.name_all(alloc, rules, constraint)?;
        Ok(())
    }

    /// Merges the constraints that cover the method at the pattern or, without a method, the methods that none of them
    /// names there.
    pub fn gather(
        alloc: Global,
        rules: &Rules,
        members: &[&Constraint],
        pattern: &str,
        method: Option<&str>,
    ) -> Result<Merged, NoMemory>
        ensures { IfOk result (λ merged.
            IsMerged rules.now (filter (λ member. covers_at member pattern.now (option_copied method.entry)) (map (λ member. member.now) members.now)) merged) }
    {
        let mut merged = Merged::none(alloc);
        for member in members {
            if covers_at(member, pattern, method) {
                merged.add(alloc, rules, member)?;
            }
        }
        Ok(merged)
    }

    /// Returns whether no constraint was merged.
    pub fn is_bare(&self) -> bool
        ensures { result ≡ is_bare self.now }
    {
        self.found.covering.is_none()
    }

    /// Returns the findings for a caller. Allocates no memory.
    pub fn findings(&self, caller: Option<&Caller>) -> Findings
        ensures { (rules : Rules) (members : List Constraint) → IsMerged rules members self.now →
            result ≡ findings_of rules (option_copied caller.entry) members }
    {
        Findings {
            admitting: self.admitting(caller),
            ..self.found
        }
    }

    /// Returns the least number of the constraints that admit the caller.
    fn admitting(&self, caller: Option<&Caller>) -> Option<u64>
        ensures { result ≡ admitting self.now (option_copied caller.entry) }
    {
        let roles = caller?.roles.as_slice();
        roles.iter().fold(self.everyone, |least, role| {
            lesser(least, self.roles.of(role.as_str()))
        })
    }
}
