//! Why the constraints decide as they do, in sentences.

ghost use Rattle.std.specs.Prelude.{◌≡◌, ◌++◌, OnOk, Some, codes, string_bytes};
ghost use Rattle.std.specs.Fmt.{decimal};
ghost use Rattle.std.specs.Option.{option_map_or};
ghost use Rattle.sv_text.specs.Gives.{GivesAnswer};
ghost use Rattle.sv_explanation.specs.ReasonLines as spec;
ghost use Rattle.sv_explanation.specs.declared.explanation.JudgedCaller.TheVariants as callers;
ghost use Rattle.sv_explanation.specs.declared.listed_constraint.Entrants.TheVariants as entrants;

use crate::explanation::JudgedCaller;
use crate::listed_constraint::{Entrants, ListedConstraint};
use std::alloc::Global;
use sv_constraints::{Cause, OwnedDecision, OwnedWhy};
use sv_report::escaped::escaped;
use sv_report::{names_text, number_text, place_text, shown_pattern};
use sv_text::{NoMemory, Text};

/// Returns the sentence on the best pattern.
pub fn pattern_line(alloc: Global, pattern: &Option<Text>) -> Result<Text, NoMemory>
    ensures { GivesAnswer result (spec.pattern_line pattern.now) }
{
    match pattern {
        None => Text::copy_of(alloc, "No pattern of a constraint matches it.\n"),
        Some(pattern) => best_pattern_line(alloc, pattern.as_str()),
    }
}

fn best_pattern_line(alloc: Global, pattern: &str) -> Result<Text, NoMemory>
    ensures { GivesAnswer result (spec.pattern_line (Some pattern.now)) }
{
    let pattern = shown_pattern(alloc, pattern)?;
    let text = ["Its best matching pattern is ", pattern.as_str(), ".\n"].concat(alloc)?;
    Ok(Text::from_string(text))
}

/// Returns a line for each constraint on the best pattern. `file` has the constraints.
pub fn constraint_lines(
    alloc: Global,
    file: &str,
    method: &str,
    listed: &[ListedConstraint],
) -> Result<Text, NoMemory>
    ensures { GivesAnswer result (spec.constraint_lines file.now method.now listed.now) }
{
    let mut text = String::new(alloc);
    for constraint in listed {
        push_constraint(&mut text, alloc, file, method, constraint)?;
    }
    Ok(Text::from_string(text))
}

fn push_constraint(
    text: &mut String,
    alloc: Global,
    file: &str,
    method: &str,
    listed: &ListedConstraint,
) -> Result<(), NoMemory>
    ensures { OnOk result (string_bytes text.new ≡ string_bytes text.old ++ spec.constraint_line file.now method.now listed.now) }
{
    let line = constraint_line(alloc, file, method, listed)?;
    Ok(text.push_str(line.as_str())?)
}

#[tactic(auto, unfolding(crate::specs::ReasonLines::constraint_line))]
fn constraint_line(
    alloc: Global,
    file: &str,
    method: &str,
    listed: &ListedConstraint,
) -> Result<Text, NoMemory>
    ensures { GivesAnswer result (spec.constraint_line file.now method.now listed.now) }
{
    let number = number_text(alloc, listed.number)?;
    let place = place_text(alloc, file, listed.line)?;
    let coverage = coverage_text(alloc, method, listed)?;
    let text = [
        "  Constraint ",
        number.as_str(),
        place.as_str(),
        " ",
        coverage.as_str(),
        ".\n",
    ]
    .concat(alloc)?;
    Ok(Text::from_string(text))
}

/// Returns whether a constraint covers the method, and whom it then admits.
fn coverage_text(alloc: Global, method: &str, listed: &ListedConstraint) -> Result<Text, NoMemory>
    ensures { GivesAnswer result (spec.coverage_text method.now listed.now) }
{
    let method = escaped(alloc, method)?;
    if !listed.is_covering {
        let text = ["does not cover ", method.as_str(), " there"].concat(alloc)?;
        return Ok(Text::from_string(text));
    }
    let entrants = entrants_text(alloc, &listed.entrants)?;
    let text = [
        "covers ",
        method.as_str(),
        " there: ",
        entrants.as_str(),
        transport_text(listed.needs_tls),
    ]
    .concat(alloc)?;
    Ok(Text::from_string(text))
}

fn transport_text(needs_tls: bool) -> &'static str
    ensures { result.now ≡ spec.transport_text needs_tls }
{
    if needs_tls { "; it needs TLS" } else { "" }
}

/// Returns the text of the callers that a constraint admits.
fn entrants_text(alloc: Global, entrants: &Entrants) -> Result<Text, NoMemory>
    ensures { GivesAnswer result (spec.entrants_text entrants.now) }
{
    match entrants {
        Entrants::Everyone => Text::copy_of(alloc, "everyone may enter"),
        Entrants::AnyLogin => Text::copy_of(alloc, "callers who log in may enter"),
        Entrants::WithRole(roles) => roles_text(alloc, roles.as_slice()),
        Entrants::Nobody => Text::copy_of(alloc, "nobody may enter"),
    }
}

fn roles_text(alloc: Global, roles: &[Text]) -> Result<Text, NoMemory>
    ensures { GivesAnswer result (spec.entrants_text (entrants.WithRole roles.now)) }
{
    if roles.is_empty() {
        return Text::copy_of(alloc, "nobody may enter (no such role)");
    }
    let names = names_text(alloc, roles)?;
    let text = ["callers with the role ", names.as_str(), " may enter"].concat(alloc)?;
    Ok(Text::from_string(text))
}

/// Returns the sentence on why the request has no caller, if one is asked for.
pub fn caller_line(alloc: Global, caller: &JudgedCaller) -> Result<Text, NoMemory>
    ensures { GivesAnswer result (spec.caller_line caller.now) }
{
    match caller {
        JudgedCaller::Nobody => Text::copy_of(alloc, ""),
        JudgedCaller::Named(_) => Text::copy_of(alloc, ""),
        JudgedCaller::NoSuchUser(name) => no_such_user_line(alloc, name.as_str()),
        JudgedCaller::NoLogin(name) => no_login_line(alloc, name.as_str()),
    }
}

fn no_such_user_line(alloc: Global, name: &str) -> Result<Text, NoMemory>
    ensures { GivesAnswer result (spec.caller_line (callers.NoSuchUser name.now)) }
{
    let name = escaped(alloc, name)?;
    let text = [
        "The context has no user ",
        name.as_str(),
        ", so the request has no caller.\n",
    ]
    .concat(alloc)?;
    Ok(Text::from_string(text))
}

fn no_login_line(alloc: Global, name: &str) -> Result<Text, NoMemory>
    ensures { GivesAnswer result (spec.caller_line (callers.NoLogin name.now)) }
{
    let name = escaped(alloc, name)?;
    let text = [
        name.as_str(),
        " cannot log in: the context has no login configuration.\n",
    ]
    .concat(alloc)?;
    Ok(Text::from_string(text))
}

/// Returns the sentence on the reason of a decision.
pub fn reason_line(
    alloc: Global,
    method: &str,
    caller: &JudgedCaller,
    decision: &OwnedDecision,
) -> Result<Text, NoMemory>
    ensures { GivesAnswer result (spec.reason_line method.now caller.now decision.now) }
{
    reason_by(alloc, method, caller, decision, decision.why())
}

/// Returns the sentence by the cause of a decision.
fn reason_by(
    alloc: Global,
    method: &str,
    caller: &JudgedCaller,
    decision: &OwnedDecision,
    why: &OwnedWhy,
) -> Result<Text, NoMemory>
    ensures { GivesAnswer result (spec.reason_by method.now caller.now decision.now why.now why.now.cause) }
{
    match why.cause {
        Cause::NoPattern => Text::copy_of(alloc, "Everyone may enter.\n"),
        Cause::Uncovered => uncovered_line(alloc, method, decision),
        Cause::Precluded => decides(alloc, why.number, "nobody may enter"),
        Cause::Transport => decides(alloc, why.number, "a plain connection may not enter"),
        Cause::Unauthenticated => decides(alloc, why.number, "everyone may enter"),
        Cause::NeedsCaller => decides(alloc, why.number, "the request needs a login"),
        Cause::Role => decides_on(alloc, why.number, caller, " may enter"),
        Cause::NoRole => decides_on(alloc, why.number, caller, " has none of the roles"),
    }
}

/// Returns the sentence that no constraint covers the method.
fn uncovered_line(alloc: Global, method: &str, decision: &OwnedDecision) -> Result<Text, NoMemory>
    ensures { GivesAnswer result (spec.uncovered_line method.now decision.now) }
{
    let method = escaped(alloc, method)?;
    let text = [
        "No constraint covers ",
        method.as_str(),
        " there",
        uncovered_text(decision),
        ".\n",
    ]
    .concat(alloc)?;
    Ok(Text::from_string(text))
}

fn uncovered_text(decision: &OwnedDecision) -> &'static str
    ensures { result.now ≡ spec.uncovered_text decision.now }
{
    match decision {
        OwnedDecision::Open(_) => ", so everyone may enter",
        OwnedDecision::Login(_) => ", so everyone may enter",
        OwnedDecision::Denied(_) => ", and uncovered methods are denied",
    }
}

/// Returns the sentence on what the constraint with this number decides.
fn decides(alloc: Global, number: Option<u64>, what: &str) -> Result<Text, NoMemory>
    ensures { GivesAnswer result (spec.decides number what.now) }
{
    let number = number_or_dash(alloc, number)?;
    let text = ["Constraint ", number.as_str(), " decides: ", what, ".\n"].concat(alloc)?;
    Ok(Text::from_string(text))
}

fn number_or_dash(alloc: Global, number: Option<u64>) -> Result<Text, NoMemory>
    ensures { GivesAnswer result (option_map_or decimal number (codes "-")) }
{
    match number {
        Some(number) => number_text(alloc, number),
        None => Text::copy_of(alloc, "-"),
    }
}

/// Returns the sentence on what the constraint with this number decides for the caller.
fn decides_on(
    alloc: Global,
    number: Option<u64>,
    caller: &JudgedCaller,
    what: &str,
) -> Result<Text, NoMemory>
    ensures { GivesAnswer result (spec.decides_on number caller.now what.now) }
{
    let caller = caller_text(alloc, caller)?;
    let what = [caller.as_str(), what].concat(alloc)?;
    decides(alloc, number, what.as_str())
}

fn caller_text(alloc: Global, caller: &JudgedCaller) -> Result<Text, NoMemory>
    ensures { GivesAnswer result (spec.caller_text caller.now) }
{
    match caller {
        JudgedCaller::Nobody => Text::copy_of(alloc, "the caller"),
        JudgedCaller::Named(name) => escaped(alloc, name.as_str()),
        JudgedCaller::NoSuchUser(_) => Text::copy_of(alloc, "the caller"),
        JudgedCaller::NoLogin(_) => Text::copy_of(alloc, "the caller"),
    }
}
