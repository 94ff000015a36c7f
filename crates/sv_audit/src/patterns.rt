//! The patterns of constraints.

ghost use Rattle.std.specs.Prelude.{◌≡◌, ◌++◌, IfOk, OnOk, map};
ghost use Rattle.std.specs.List.{list_any};
ghost use Rattle.std.specs.Str.{bytes_eq};
ghost use Rattle.sv_constraints.specs.Covering.{all_patterns, patterns_in};
ghost use Rattle.sv_mapping.specs.Pattern.{is_extension_pattern};
ghost use Rattle.sv_audit.specs.Reading.{is_same};

use std::alloc::Global;
use sv_constraints::Constraint;
use sv_mapping::Pattern;
use sv_text::{NoMemory, Text};

/// Returns the patterns of constraints, in order and with duplicates.
pub fn all_patterns(alloc: Global, constraints: &[Constraint]) -> Result<Vec<&str>, NoMemory>
    ensures { IfOk result (λ texts. map (λ text. text.now) texts.items ≡ all_patterns constraints.now) }
{
    let mut texts = Vec::new(alloc);
    for constraint in constraints {
        push_patterns_in(&mut texts, constraint)?;
    }
    Ok(texts)
}

/// Returns the patterns of a constraint, in order and with duplicates.
pub fn patterns_in(alloc: Global, constraint: &Constraint) -> Result<Vec<&str>, NoMemory>
    ensures { IfOk result (λ texts. map (λ text. text.now) texts.items ≡ patterns_in constraint.now) }
{
    let mut texts = Vec::new(alloc);
    push_patterns_in(&mut texts, constraint)?;
    Ok(texts)
}

/// Appends the patterns of a constraint.
fn push_patterns_in<'a>(
    texts: &mut Vec<&'a str>,
    constraint: &'a Constraint,
) -> Result<(), NoMemory>
    ensures { OnOk result (map (λ text. text.now) texts.new.items ≡ map (λ text. text.now) texts.old.items ++ patterns_in constraint.now) }
{
    for collection in constraint.collections.as_slice() {
        push_patterns(texts, collection.patterns.as_slice())?;
    }
    Ok(())
}

fn push_patterns<'a>(texts: &mut Vec<&'a str>, patterns: &'a [Pattern]) -> Result<(), NoMemory>
    ensures { OnOk result (map (λ text. text.now) texts.new.items ≡ map (λ text. text.now) texts.old.items ++ patterns.now) }
{
    for pattern in patterns {
        texts.push(pattern.text())?;
    }
    Ok(())
}

/// Returns whether the text is among the texts.
pub fn is_among(patterns: &[&str], text: &str) -> bool
    ensures { result ≡ list_any (λ pattern. bytes_eq pattern.now text.now) patterns.now }
{
    patterns.iter().any(|pattern| *pattern == text)
}

/// Returns whether the text is an extension pattern (Jakarta Servlet 6.0, section 12.2).
pub fn is_extension_pattern(text: &str) -> bool
    ensures { result ≡ is_extension_pattern text.now }
{
    text.starts_with("*.") && !text.as_bytes().contains(&b'/')
}

/// Returns whether both are the same pattern, or none.
pub fn is_same(pattern: &Option<Text>, other: &Option<Text>) -> bool
    ensures { result ≡ is_same pattern.now other.now }
{
    match (pattern, other) {
        (None, None) => true,
        (Some(pattern), Some(other)) => pattern.as_str() == other.as_str(),
        _ => false,
    }
}
