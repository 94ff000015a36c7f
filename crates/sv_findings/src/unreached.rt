//! Patterns that no request reaches.

ghost use Rattle.std.specs.Prelude.{◌≡◌, ◌++◌, IfOk, OnOk, filter, map};
ghost use Rattle.sv_policy.specs.Patterns.{different};
ghost use Rattle.sv_text.specs.Gives.{GivesAnswer};
ghost use Rattle.sv_findings.specs.Unreached as spec;
ghost use Rattle.sv_findings.specs.declared.finding.Finding.TheVariants as finding;

use crate::finding::Finding;
use crate::reach::Reaches;
use crate::role_findings::push_once;
use std::alloc::Global;
use sv_audit::patterns_in;
use sv_constraints::Constraint;
use sv_text::{NoMemory, Text};

/// Appends the patterns of constraints that no request reaches, each pattern of a constraint once.
pub fn push_unreached(
    findings: &mut Vec<Finding>,
    alloc: Global,
    reaches: &Reaches<'_>,
    constraints: &[Constraint],
) -> Result<(), NoMemory>
    ensures { OnOk result (findings.new.items ≡ findings.old.items ++ spec.unreached reaches.now.0 reaches.now.1 constraints.now) }
{
    for constraint in constraints {
        push_unreached_in(findings, alloc, reaches, constraint)?;
    }
    Ok(())
}

fn push_unreached_in(
    findings: &mut Vec<Finding>,
    alloc: Global,
    reaches: &Reaches<'_>,
    constraint: &Constraint,
) -> Result<(), NoMemory>
    ensures { OnOk result (findings.new.items ≡ findings.old.items ++ spec.unreached_in reaches.now.0 reaches.now.1 constraint.now) }
{
    let patterns = patterns_in(alloc, constraint)?;
    push_unreached_of(
        findings,
        alloc,
        reaches,
        constraint.number,
        patterns.as_slice(),
    )
}

fn push_unreached_of(
    findings: &mut Vec<Finding>,
    alloc: Global,
    reaches: &Reaches<'_>,
    number: u64,
    patterns: &[&str],
) -> Result<(), NoMemory>
    ensures { OnOk result (findings.new.items ≡ findings.old.items
        ++ map (finding.Unreached number) (different (filter (spec.is_unreached reaches.now.0 reaches.now.1) (map (λ pattern. pattern.now) patterns.now)))) }
{
    for pattern in unreached_of(alloc, reaches, patterns)?.as_slice() {
        findings.push(Finding::Unreached(number, Text::copy_of(alloc, *pattern)?))?;
    }
    Ok(())
}

fn unreached_of<'a>(
    alloc: Global,
    reaches: &Reaches<'_>,
    patterns: &[&'a str],
) -> Result<Vec<&'a str>, NoMemory>
    ensures { IfOk result (λ kept. map (λ pattern. pattern.now) kept.items ≡ different (filter (spec.is_unreached reaches.now.0 reaches.now.1) (map (λ pattern. pattern.now) patterns.now))) }
{
    let mut kept = Vec::new(alloc);
    for pattern in patterns {
        if is_unreached(alloc, reaches, pattern)? {
            push_once(&mut kept, *pattern)?;
        }
    }
    Ok(kept)
}

fn is_unreached(alloc: Global, reaches: &Reaches<'_>, pattern: &str) -> Result<bool, NoMemory>
    ensures { GivesAnswer result (spec.is_unreached reaches.now.0 reaches.now.1 pattern.now) }
{
    let is_reached = reaches.is_reached(alloc, pattern)?;
    Ok(!is_reached)
}
