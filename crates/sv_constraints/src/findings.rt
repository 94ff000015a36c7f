//! The findings of one pass over the constraints that cover a request.

ghost use Rattle.std.specs.Prelude.{◌≡◌, [], Option, Some};
ghost use Rattle.std.specs.Option.{option_copied};
ghost use Rattle.sv_constraints.specs.Covering.{covering};
ghost use Rattle.sv_constraints.specs.Findings.{lesser};
ghost use Rattle.sv_constraints.specs.Verdict.{because};
ghost use Rattle.sv_constraints.specs.Decision.{seen, seen_why};

use crate::cause::Cause;
use crate::constraint::{Constraint, Rules};
use crate::coverage::covers;
use crate::decision::{Decision, Why};
use crate::roles::admits;
use sv_mapping::Pattern;
use sv_realm::Caller;

/// The least number of each kind of covering constraint, or none if there is no constraint of that kind. These numbers
/// decide a request.
#[derive(Clone, Copy)]
pub struct Findings {
    /// Of all covering constraints.
    pub covering: Option<u64>,
    /// Of those that name no roles.
    pub precluding: Option<u64>,
    /// Whether a plain connection is sufficient for one of them.
    pub permits_plain: bool,
    /// Of those without an authorization constraint.
    pub unauthenticated: Option<u64>,
    /// Of those that name a role of the caller, or every caller.
    pub admitting: Option<u64>,
}

/// Returns the lesser of two numbers, or the only one present, if any.
pub fn lesser(number: Option<u64>, other: Option<u64>) -> Option<u64>
    ensures { result ≡ lesser number other }
{
    match (number, other) {
        (Some(number), Some(other)) => Some(number.min(other)),
        (None, other) => other,
        (number, None) => number,
    }
}

/// Returns the reason at the best pattern.
fn because(pattern: &Pattern, number: Option<u64>, cause: Cause) -> Why<'_>
    ensures { seen_why result ≡ because (Some pattern.now) number cause }
{
    Why {
        pattern: Some(pattern),
        number,
        cause,
    }
}

impl Findings {
    ghost use Rattle.sv_constraints.specs.Findings.{findings_of, with_one, decided};

    /// Returns the findings for no constraints.
    pub fn none() -> Findings
        ensures { (rules : Rules) (caller : Option Caller) → result ≡ findings_of rules caller [] }
    {
        Findings {
            covering: None,
            precluding: None,
            permits_plain: false,
            unauthenticated: None,
            admitting: None,
        }
    }

    /// Returns the findings after one more covering constraint.
    pub fn with(self, constraint: &Constraint, rules: &Rules, caller: Option<&Caller>) -> Findings
        ensures { result ≡ with_one rules.now (option_copied caller.entry) constraint.now self }
    {
        let number = constraint.number;
        let admitted = admits(rules.declared.as_slice(), caller, &constraint.auth);
        Findings {
            covering: lesser(self.covering, Some(number)),
            precluding: lesser(self.precluding, constraint.precludes().then_some(number)),
            permits_plain: self.permits_plain || constraint.permits_plain(),
            unauthenticated: lesser(self.unauthenticated, constraint.is_open().then_some(number)),
            admitting: lesser(self.admitting, admitted.then_some(number)),
        }
    }

    /// Returns the findings for the constraints that cover the method at the pattern.
    pub fn gather(
        constraints: &[Constraint],
        pattern: &str,
        method: &str,
        rules: &Rules,
        caller: Option<&Caller>,
    ) -> Findings
        ensures { let members = covering constraints.now (Some pattern.now) method.now in
            result ≡ findings_of rules.now (option_copied caller.entry) members }
    {
        let mut found = Findings::none();
        for constraint in constraints {
            if covers(constraint, pattern, method) {
                found = found.with(constraint, rules, caller);
            }
        }
        found
    }

    /// Returns the decision of the first case that holds.
    pub fn decide<'a>(
        &self,
        pattern: &'a Pattern,
        rules: &Rules,
        caller: Option<&Caller>,
    ) -> Decision<'a>
        ensures { seen result ≡ decided rules.now (option_copied caller.entry) (Some pattern.now) self.now }
    {
        if self.covering.is_none() {
            let why = because(pattern, None, Cause::Uncovered);
            if rules.deny_uncovered {
                Decision::Denied(why)
            } else {
                Decision::Open(why)
            }
        } else if self.precluding.is_some() {
            Decision::Denied(because(pattern, self.precluding, Cause::Precluded))
        } else if !self.permits_plain {
            Decision::Denied(because(pattern, self.covering, Cause::Transport))
        } else if self.unauthenticated.is_some() {
            Decision::Open(because(pattern, self.unauthenticated, Cause::Unauthenticated))
        } else if caller.is_none() {
            Decision::Login(because(pattern, self.covering, Cause::NeedsCaller))
        } else if self.admitting.is_some() {
            Decision::Open(because(pattern, self.admitting, Cause::Role))
        } else {
            Decision::Denied(because(pattern, self.covering, Cause::NoRole))
        }
    }
}
