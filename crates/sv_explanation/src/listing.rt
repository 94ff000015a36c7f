//! The constraints on a best pattern.

ghost use Rattle.std.specs.Prelude.{◌≡◌, ◌++◌, OnOk, filter, map};
ghost use Rattle.std.specs.List.{flat_map};
ghost use Rattle.sv_constraints.specs.Covering.{lists as lists_text};
ghost use Rattle.sv_constraints.specs.Roles.{roles_named, roles_read};
ghost use Rattle.sv_report.specs.Places as places;
ghost use Rattle.sv_text.specs.Gives.{GivesAnswer};
ghost use Rattle.sv_explanation.specs.Listed as spec;

use crate::listed_constraint::{Entrants, ListedConstraint};
use crate::site_context::SiteContext;
use std::alloc::Global;
use sv_constraints::{Auth, Constraint, EVERY_CALLER, EVERY_ROLE, Rules, covers, lists};
use sv_mapping::Pattern;
use sv_text::{Listed, NoMemory, Text};

/// Returns the constraints of a context with the best pattern, in order. There are none without a pattern.
pub fn listed_on(
    alloc: Global,
    context: &SiteContext,
    pattern: &Option<Text>,
    method: &str,
) -> Result<Listed<ListedConstraint>, NoMemory>
    ensures { GivesAnswer result (spec.listed_on context.now pattern.now method.now) }
{
    match pattern {
        None => Ok(Listed::from_vec(Vec::new(alloc))),
        Some(pattern) => listed_with(alloc, context, pattern.as_str(), method),
    }
}

fn listed_with(
    alloc: Global,
    context: &SiteContext,
    pattern: &str,
    method: &str,
) -> Result<Listed<ListedConstraint>, NoMemory>
    ensures { GivesAnswer result (map (spec.listed_constraint context.now pattern.now method.now) (filter (spec.has_pattern pattern.now) context.now.constraints)) }
{
    let mut listed = Vec::new(alloc);
    for constraint in context.constraints.as_slice() {
        if has_pattern(constraint, pattern) {
            listed.push(listed_constraint(alloc, context, pattern, method, constraint)?)?;
        }
    }
    Ok(Listed::from_vec(listed))
}

/// Returns whether some collection of the constraint lists the pattern.
fn has_pattern(constraint: &Constraint, pattern: &str) -> bool
    ensures { result ≡ spec.has_pattern pattern.now constraint.now }
{
    constraint.collections.as_slice().iter().any(|collection| lists_pattern(
        collection.patterns.as_slice(),
        pattern,
    ))
}

/// Returns whether a pattern with this text is among the patterns.
pub fn lists_pattern(patterns: &[Pattern], text: &str) -> bool
    ensures { result ≡ lists_text patterns.now text.now }
{
    patterns.iter().any(|pattern| pattern.text() == text)
}

fn listed_constraint(
    alloc: Global,
    context: &SiteContext,
    pattern: &str,
    method: &str,
    constraint: &Constraint,
) -> Result<ListedConstraint, NoMemory>
    ensures { GivesAnswer result (spec.listed_constraint context.now pattern.now method.now constraint.now) }
{
    let rules = &context.descriptor.web_app().rules;
    Ok(ListedConstraint {
        number: constraint.number,
        line: line_at(context.lines.as_slice(), constraint.number),
        is_covering: covers(constraint, pattern, method),
        entrants: entrants(alloc, rules, &constraint.auth)?,
        needs_tls: !constraint.permits_plain(),
    })
}

/// Returns the line on which a constraint begins, if it is known.
fn line_at(lines: &[Option<u64>], number: u64) -> Option<u64>
    ensures { result ≡ places.line_at lines.now number }
{
    if number == 0 {
        return None;
    }
    match lines.get((number - 1) as usize) {
        None => None,
        Some(line) => *line,
    }
}

/// Returns the callers that an authorization constraint admits.
fn entrants(alloc: Global, rules: &Rules, auth: &Auth) -> Result<Entrants, NoMemory>
    ensures { GivesAnswer result (spec.entrants rules.now auth.now) }
{
    match auth {
        Auth::Absent => Ok(Entrants::Everyone),
        Auth::Roles(names) => admitted(alloc, rules, names.as_slice()),
    }
}

/// Returns the callers that a list of roles admits.
fn admitted(alloc: Global, rules: &Rules, names: &[Text]) -> Result<Entrants, NoMemory>
    ensures { GivesAnswer result (spec.admitted rules.now names.now) }
{
    if names.is_empty() {
        return Ok(Entrants::Nobody);
    }
    if lists(names, EVERY_CALLER) {
        return Ok(Entrants::AnyLogin);
    }
    let roles = roles_read(alloc, rules.declared.as_slice(), names)?;
    Ok(Entrants::WithRole(roles))
}

/// Returns the roles that names mean.
fn roles_read(alloc: Global, declared: &[Text], names: &[Text]) -> Result<Listed<Text>, NoMemory>
    ensures { GivesAnswer result (roles_read declared.now names.now) }
{
    let mut roles = Vec::new(alloc);
    for name in names {
        push_meant(&mut roles, alloc, declared, name.as_str())?;
    }
    Ok(Listed::from_vec(roles))
}

/// Appends the roles that a name means.
fn push_meant(
    roles: &mut Vec<Text>,
    alloc: Global,
    declared: &[Text],
    name: &str,
) -> Result<(), NoMemory>
    ensures { OnOk result (roles.new.items ≡ roles.old.items ++ roles_named declared.now name.now) }
{
    if name == EVERY_ROLE {
        push_copies(roles, alloc, declared)
    } else if name == EVERY_CALLER {
        Ok(())
    } else {
        Ok(roles.push(Text::copy_of(alloc, name)?)?)
    }
}

/// Appends copies of texts.
fn push_copies(roles: &mut Vec<Text>, alloc: Global, texts: &[Text]) -> Result<(), NoMemory>
    ensures { OnOk result (roles.new.items ≡ roles.old.items ++ texts.now) }
{
    for text in texts {
        roles.push(Text::copy_of(alloc, text.as_str())?)?;
    }
    Ok(())
}
