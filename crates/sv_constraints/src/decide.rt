//! The decision on a request.

ghost use Rattle.std.specs.Prelude.{◌≡◌, ◌++◌, List, ℕ};
ghost use Rattle.std.specs.Option.{option_copied};
ghost use Rattle.sv_mapping.specs.BestMatch.{best_pattern};
ghost use Rattle.sv_constraints.specs.Covering.{patterns_in, all_patterns};
ghost use Rattle.sv_constraints.specs.Decision.{seen};
ghost use Rattle.sv_constraints.specs.Verdict.{verdict};

use crate::cause::Cause;
use crate::constraint::{Constraint, Rules};
use crate::decision::{Decision, Why};
use crate::findings::Findings;
use sv_mapping::{Pattern, better};
use sv_realm::Caller;

/// Decides a request by the combined constraints on the best pattern for its path (Jakarta Servlet 6.0, section 13.8).
/// The constraints on that pattern that cover the method decide, whatever other patterns match the path.
///
/// The path is that within the context; it may be any text and is compared unchanged. The constraints may be in any
/// order. Allocates no memory, and makes two passes over the constraints: one for the best pattern, and one for the
/// constraints that cover the method there.
pub fn decide_plain<'a>(
    constraints: &'a [Constraint],
    rules: &Rules,
    method: &str,
    path: &str,
    caller: Option<&Caller>,
) -> Decision<'a>
    ensures { seen result ≡ verdict constraints.now rules.now method.now path.now (option_copied caller.entry) }
{
    let Some(pattern) = best_of(constraints, path) else {
        return Decision::Open(Why {
            pattern: None,
            number: None,
            cause: Cause::NoPattern,
        });
    };
    let found = Findings::gather(constraints, pattern.text(), method, rules, caller);
    found.decide(pattern, rules, caller)
}

/// Returns the best pattern for the path among those of all constraints.
fn best_of<'a>(constraints: &'a [Constraint], path: &str) -> Option<&'a Pattern>
    ensures { option_copied result ≡ best_pattern (all_patterns constraints.now) path.now }
{
    let mut best = None;
    for constraint in constraints {
        best = better_of(best, constraint, path);
    }
    best
}

/// Returns the best pattern for the path among the patterns of a constraint and the best pattern found so far.
fn better_of<'a>(
    found: Option<&'a Pattern>,
    constraint: &'a Constraint,
    path: &str,
) -> Option<&'a Pattern>
    ensures { (before : List (List ℕ)) → best_pattern before path.now ≡ option_copied found.entry →
        option_copied result ≡ best_pattern (before ++ patterns_in constraint.now) path.now }
{
    let mut best = found;
    for collection in constraint.collections.as_slice() {
        best = better(best, collection.patterns.as_slice(), path);
    }
    best
}
