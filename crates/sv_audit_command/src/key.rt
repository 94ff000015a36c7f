//! The keys of findings, by which an accepting file names them.

ghost use Rattle.std.specs.Prelude.{◌≡◌, ◌++◌, List, IfOk, OnOk, map, option_copied};
ghost use Rattle.std.specs.String.{string_bytes};
ghost use Rattle.sv_constraints.specs.declared.constraint.Constraint.{Constraint};
ghost use Rattle.sv_policy.specs.Groups.{IsGrouped};
ghost use Rattle.sv_text.specs.Gives.{GivesAnswer};
ghost use Rattle.sv_audit_command.specs.Key as spec;
ghost use Rattle.sv_audit_command.specs.KeyWords.{word};

use crate::key_words::{push_access, push_word, word};
use crate::methods_key::{push_methods, push_texts};
use std::alloc::Global;
use sv_audit::{Access, best_text};
use sv_constraints::{Auth, Constraint, Methods, lists};
use sv_findings::Finding;
use sv_mapping::{Pattern, PatternTable};
use sv_policy::Groups;
use sv_report::escaped::escaped;
use sv_report::kind_name;
use sv_text::{NoMemory, Text};
use sv_uri::shown_context;

/// Returns the key of a finding in the context at this path: the context, the kind and the subject, on one line. A key
/// has no number of a constraint, so that it stays the same if constraints are added.
pub(crate) fn key_of(
    alloc: Global,
    path: &str,
    constraints: &[Constraint],
    finding: &Finding,
) -> Result<Text, NoMemory>
    ensures { GivesAnswer result (spec.key_of path.now constraints.now finding.now) }
{
    let mut key = String::new(alloc);
    push_word(&mut key, alloc, shown_context(path))?;
    key.push_str(" ")?;
    key.push_str(kind_name(finding))?;
    key.push_str(" ")?;
    push_subject(&mut key, alloc, constraints, finding)?;
    escaped(alloc, key.as_str())
}

fn push_subject(
    key: &mut String,
    alloc: Global,
    constraints: &[Constraint],
    finding: &Finding,
) -> Result<(), NoMemory>
    ensures { OnOk result (string_bytes key.new ≡ string_bytes key.old ++ spec.subject constraints.now finding.now) }
{
    match finding {
        Finding::Opened(pattern, methods, _, _) => push_covered(
            key,
            alloc,
            pattern.as_str(),
            methods,
        ),
        Finding::Uncovered(pattern, methods) => push_covered(key, alloc, pattern.as_str(), methods),
        Finding::ReadOtherwise(pattern, methods, other) => {
            push_read_otherwise(key, alloc, pattern.as_str(), methods, other.as_str())
        }
        Finding::HeadDiffers(pattern, get, head) => {
            push_heads(key, alloc, pattern.as_str(), get, head)
        }
        Finding::Dead(number) => push_patterns_of(key, alloc, constraints, *number),
        Finding::DeadPattern(_, pattern) => push_word(key, alloc, pattern.as_str()),
        Finding::Overruled(number) => push_patterns_of(key, alloc, constraints, *number),
        Finding::Unreached(_, pattern) => push_word(key, alloc, pattern.as_str()),
        Finding::Unserved(_, pattern) => push_word(key, alloc, pattern.as_str()),
        Finding::Escaped(_, pattern) => push_word(key, alloc, pattern.as_str()),
        Finding::LoginNeeds(path) => push_word(key, alloc, path.as_str()),
        Finding::UnknownRole(_, role) => push_word(key, alloc, role.as_str()),
        Finding::UnheldRole(role) => push_word(key, alloc, role.as_str()),
        Finding::UnusedRole(role) => push_word(key, alloc, role.as_str()),
    }
}

fn push_covered(
    key: &mut String,
    alloc: Global,
    pattern: &str,
    methods: &Methods,
) -> Result<(), NoMemory>
    ensures { OnOk result (string_bytes key.new ≡ string_bytes key.old ++ spec.covered_subject pattern.now methods.now) }
{
    push_word(key, alloc, pattern)?;
    key.push_str(" ")?;
    push_methods(key, methods)
}

fn push_read_otherwise(
    key: &mut String,
    alloc: Global,
    pattern: &str,
    methods: &Methods,
    other: &str,
) -> Result<(), NoMemory>
    ensures { OnOk result (string_bytes key.new ≡ string_bytes key.old ++ spec.otherwise_subject pattern.now methods.now other.now) }
{
    push_covered(key, alloc, pattern, methods)?;
    key.push_str(" ")?;
    push_word(key, alloc, other)
}

/// Appends a pattern, and who may use GET and HEAD there.
fn push_heads(
    key: &mut String,
    alloc: Global,
    pattern: &str,
    get: &Access,
    head: &Access,
) -> Result<(), NoMemory>
    ensures { OnOk result (string_bytes key.new ≡ string_bytes key.old ++ spec.heads_subject pattern.now get.now head.now) }
{
    push_word(key, alloc, pattern)?;
    key.push_str(" GET ")?;
    push_access(key, alloc, get)?;
    key.push_str(" HEAD ")?;
    push_access(key, alloc, head)
}

/// Appends the patterns of the constraint with this number, separated by commas.
fn push_patterns_of(
    key: &mut String,
    alloc: Global,
    constraints: &[Constraint],
    number: u64,
) -> Result<(), NoMemory>
    ensures { OnOk result (string_bytes key.new ≡ string_bytes key.old ++ spec.patterns_text constraints.now number) }
{
    let Some(constraint) = constraint_numbered(constraints, number) else {
        return Ok(());
    };
    let patterns = pattern_words(alloc, constraint)?;
    push_texts(key, patterns.as_slice())
}

fn constraint_numbered(constraints: &[Constraint], number: u64) -> Option<&Constraint>
    ensures { option_copied result ≡ spec.constraint_numbered constraints.now number }
{
    constraints
        .iter()
        .find(|constraint| constraint.number == number)
}

fn pattern_words(alloc: Global, constraint: &Constraint) -> Result<Vec<Text>, NoMemory>
    ensures { IfOk result (λ words. words.items ≡ spec.words_of constraint.now) }
{
    let mut words = Vec::new(alloc);
    for collection in constraint.collections.as_slice() {
        push_pattern_words(&mut words, alloc, collection.patterns.as_slice())?;
    }
    Ok(words)
}

fn push_pattern_words(
    words: &mut Vec<Text>,
    alloc: Global,
    patterns: &[Pattern],
) -> Result<(), NoMemory>
    ensures { OnOk result (words.new.items ≡ words.old.items ++ map word patterns.now) }
{
    for pattern in patterns {
        words.push(word(alloc, pattern.text())?)?;
    }
    Ok(())
}

/// Returns the number of the constraint to change: that of the finding, or the first one that has its pattern, names its
/// role, or has the best match for its path among the patterns. A role that is not used has none.
pub(crate) fn constraint_of(
    constraints: &[Constraint],
    groups: &Groups<'_>,
    patterns: &PatternTable,
    finding: &Finding,
) -> Option<u64>
    ensures { IsGrouped constraints.now groups.now → result ≡ spec.constraint_of constraints.now patterns.now finding.now }
{
    match finding {
        Finding::Opened(_, _, number, _) => Some(*number),
        Finding::Uncovered(pattern, _) => first_with(groups, pattern.as_str()),
        Finding::ReadOtherwise(pattern, _, _) => first_with(groups, pattern.as_str()),
        Finding::HeadDiffers(pattern, _, _) => first_with(groups, pattern.as_str()),
        Finding::Dead(number) => Some(*number),
        Finding::DeadPattern(number, _) => Some(*number),
        Finding::Overruled(number) => Some(*number),
        Finding::Unreached(number, _) => Some(*number),
        Finding::Unserved(number, _) => Some(*number),
        Finding::Escaped(number, _) => Some(*number),
        Finding::LoginNeeds(path) => first_at(groups, patterns, path.as_str()),
        Finding::UnknownRole(number, _) => Some(*number),
        Finding::UnheldRole(role) => first_naming(constraints, role.as_str()),
        Finding::UnusedRole(_) => None,
    }
}

/// Returns the number of the first constraint that names the role, or all declared roles.
fn first_naming(constraints: &[Constraint], role: &str) -> Option<u64>
    ensures { result ≡ spec.first_naming constraints.now role.now }
{
    let constraint = constraints
        .iter()
        .find(|constraint| names_role(constraint, role))?;
    Some(constraint.number)
}

fn names_role(constraint: &Constraint, role: &str) -> bool
    ensures { result ≡ spec.names_role constraint.now.auth role.now }
{
    match &constraint.auth {
        Auth::Absent => false,
        Auth::Roles(names) => lists(names.as_slice(), role) || lists(names.as_slice(), "*"),
    }
}

/// Returns the number of the first constraint that lists the best match for a path.
fn first_at(groups: &Groups<'_>, patterns: &PatternTable, path: &str) -> Option<u64>
    ensures { (constraints : List Constraint) → IsGrouped constraints groups.now → result ≡ spec.first_at constraints patterns.now path.now }
{
    match best_text(patterns, path) {
        Some(pattern) => first_with(groups, pattern),
        None => None,
    }
}

/// Returns the number of the first constraint that lists the pattern.
fn first_with(groups: &Groups<'_>, pattern: &str) -> Option<u64>
    ensures { (constraints : List Constraint) → IsGrouped constraints groups.now → result ≡ spec.first_with constraints pattern.now }
{
    match groups.on(pattern) {
        Some(members) => first_number(members.as_slice()),
        None => None,
    }
}

fn first_number(members: &[&Constraint]) -> Option<u64>
    ensures { result ≡ spec.first_number (map (λ member. member.now) members.now) }
{
    let member = members.first()?;
    Some(member.number)
}
