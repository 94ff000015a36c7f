//! Patterns that are listed by the same collections of the same constraints.

ghost use Rattle.std.specs.Prelude.{◌≡◌, map};
ghost use Rattle.std.specs.List.{list_any};
ghost use Rattle.sv_constraints.specs.Covering.{lists};
ghost use Rattle.sv_policy.specs.Uncovered.{differ};
ghost use Rattle.sv_policy.specs.Likeness.{are_alike, tells_apart};

use crate::patterns::lists_pattern;
use sv_constraints::{Collection, Constraint};

/// An odd factor. A mark is multiplied by it before a number is added.
const MARK_FACTOR: u64 = 0x9E37_79B9_7F4A_7C15;

/// Returns whether a collection lists exactly one of two patterns.
fn lists_one(collection: &Collection, pattern: &str, other: &str) -> bool
    ensures { result ≡ differ (lists collection.now.patterns pattern.now) (lists collection.now.patterns other.now) }
{
    if lists_pattern(collection.patterns.as_slice(), pattern) {
        !lists_pattern(collection.patterns.as_slice(), other)
    } else {
        lists_pattern(collection.patterns.as_slice(), other)
    }
}

/// Returns whether a collection of the constraint lists exactly one of two patterns.
fn tells_apart(constraint: &Constraint, pattern: &str, other: &str) -> bool
    ensures { result ≡ tells_apart constraint.now pattern.now other.now }
{
    constraint
        .collections
        .as_slice()
        .iter()
        .any(|collection| lists_one(collection, pattern, other))
}

/// Returns whether a collection of one of the constraints lists exactly one of two patterns.
fn are_told_apart(members: &[&Constraint], pattern: &str, other: &str) -> bool
    ensures { result ≡ list_any (λ member. tells_apart member.now pattern.now other.now) members.now }
{
    members
        .iter()
        .any(|member| tells_apart(*member, pattern, other))
}

/// Returns whether equally many constraints list two patterns, and no collection of those on the first lists exactly
/// one of the two. If so, the same constraints cover each method at both patterns.
pub fn are_alike(
    members: &[&Constraint],
    others: &[&Constraint],
    pattern: &str,
    other: &str,
) -> bool
    ensures { result ≡ are_alike (map (λ member. member.now) members.now) (map (λ member. member.now) others.now) pattern.now other.now }
{
    members.len() == others.len() && !are_told_apart(members, pattern, other)
}

/// Returns a hash of the collections and constraints that list a pattern. It is the same for patterns that are listed
/// by the same collections of the same constraints, and seldom for others.
pub fn mark_of(members: &[&Constraint], pattern: &str) -> u64 {
    members
        .iter()
        .fold(1, |mark, member| marked(mark, *member, pattern))
}

/// Returns the mark after one more constraint.
fn marked(mark: u64, member: &Constraint, pattern: &str) -> u64 {
    let mut mark = mixed(mark, member.number);
    let mut place: u64 = 0;
    for collection in member.collections.as_slice() {
        if lists_pattern(collection.patterns.as_slice(), pattern) {
            mark = mixed(mark, place);
        }
        place = place.saturating_add(1);
    }
    mark
}

fn mixed(mark: u64, number: u64) -> u64 {
    mark.wrapping_mul(MARK_FACTOR).wrapping_add(number)
}
