//! The constraints that cover a method at a pattern, or the methods that no constraint names there, and what they find.

ghost use Rattle.std.specs.Prelude.{◌≡◌, IfOk, None, filter, map};
ghost use Rattle.std.specs.Option.{option_copied};
ghost use Rattle.sv_constraints.specs.Findings.{findings_of};
ghost use Rattle.sv_policy.specs.Covering.{covers_at};

use std::alloc::Global;
use sv_constraints::{Constraint, Findings, Rules, one_more_is_found};
use sv_policy::covers_at;
use sv_realm::Caller;
use sv_text::NoMemory;

/// Returns the constraints that cover the method at the pattern or, without a method, the methods that no constraint
/// names there.
pub fn covering<'a>(
    alloc: Global,
    members: &[&'a Constraint],
    pattern: &str,
    method: Option<&str>,
) -> Result<Vec<&'a Constraint>, NoMemory>
    ensures { IfOk result (λ found. map (λ member. member.now) found.items ≡
        filter (λ member. covers_at member pattern.now (option_copied method.entry)) (map (λ member. member.now) members.now)) }
{
    let mut found = Vec::with_capacity(alloc, members.len())?;
    for member in members {
        if covers_at(member, pattern, method) {
            found.push(*member)?;
        }
    }
    Ok(found)
}

/// Returns the findings for constraints without a caller.
pub fn covering_findings(rules: &Rules, members: &[&Constraint]) -> Findings
    ensures { result ≡ findings_of rules.now None (map (λ member. member.now) members.now) }
{
    findings_for(rules, None, members)
}

/// Returns the findings for constraints and this caller.
pub(crate) fn findings_for(
    rules: &Rules,
    caller: Option<&Caller>,
    members: &[&Constraint],
) -> Findings
    ensures { result ≡ findings_of rules.now (option_copied caller.entry) (map (λ member. member.now) members.now) }
{
    one_more_is_found();
    let mut found = Findings::none();
    for member in members {
        found = found.with(member, rules, caller);
    }
    found
}
