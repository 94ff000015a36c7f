//! Whether lists of constraints are the same.

ghost use Rattle.std.specs.List.{list_all};
ghost use Rattle.std.specs.Prelude.{zip, ◌≡◌};
ghost use Rattle.std.specs.Str.{bytes_eq};
ghost use Rattle.sv_policy.specs.Sameness as spec;

use sv_constraints::{Auth, Collection, Constraint, Methods, Transport};
use sv_mapping::Pattern;
use sv_text::Text;

/// Returns whether the lists have the same constraints, with the same numbers, in the same order.
pub(crate) fn same_constraints(constraints: &[Constraint], others: &[Constraint]) -> bool
    ensures { result ≡ spec.same_constraints constraints.now others.now }
{
    constraints.len() == others.len() && constraints_are_same_in_pairs(constraints, others)
}

fn constraints_are_same_in_pairs(constraints: &[Constraint], others: &[Constraint]) -> bool
    ensures { result ≡ list_all (λ pair. spec.same_constraint pair.0 pair.1) (zip constraints.now others.now) }
{
    constraints
        .iter()
        .zip(others)
        .all(|(constraint, other)| same_constraint(constraint, other))
}

fn same_constraint(constraint: &Constraint, other: &Constraint) -> bool
    ensures { result ≡ spec.same_constraint constraint.now other.now }
{
    constraint.number == other.number
        && same_collections(
            constraint.collections.as_slice(),
            other.collections.as_slice(),
        )
        && same_auth(&constraint.auth, &other.auth)
        && same_transport(constraint.transport, other.transport)
}

fn same_collections(collections: &[Collection], others: &[Collection]) -> bool
    ensures { result ≡ spec.same_items spec.same_collection collections.now others.now }
{
    collections.len() == others.len() && collections_are_same_in_pairs(collections, others)
}

fn collections_are_same_in_pairs(collections: &[Collection], others: &[Collection]) -> bool
    ensures { result ≡ list_all (λ pair. spec.same_collection pair.0 pair.1) (zip collections.now others.now) }
{
    collections
        .iter()
        .zip(others)
        .all(|(collection, other)| same_collection(collection, other))
}

fn same_collection(collection: &Collection, other: &Collection) -> bool
    ensures { result ≡ spec.same_collection collection.now other.now }
{
    same_patterns(collection.patterns.as_slice(), other.patterns.as_slice())
        && same_methods(&collection.methods, &other.methods)
}

fn same_patterns(patterns: &[Pattern], others: &[Pattern]) -> bool
    ensures { result ≡ spec.same_texts patterns.now others.now }
{
    patterns.len() == others.len() && patterns_are_equal_in_pairs(patterns, others)
}

fn patterns_are_equal_in_pairs(patterns: &[Pattern], others: &[Pattern]) -> bool
    ensures { result ≡ list_all (λ pair. bytes_eq pair.0 pair.1) (zip patterns.now others.now) }
{
    patterns
        .iter()
        .zip(others)
        .all(|(pattern, other)| pattern.text() == other.text())
}

fn same_methods(methods: &Methods, others: &Methods) -> bool
    ensures { result ≡ spec.same_methods methods.now others.now }
{
    match (methods, others) {
        (Methods::All, Methods::All) => true,
        (Methods::Only(names), Methods::Only(others)) => {
            same_texts(names.as_slice(), others.as_slice())
        }
        (Methods::Except(names), Methods::Except(others)) => {
            same_texts(names.as_slice(), others.as_slice())
        }
        _ => false,
    }
}

fn same_auth(auth: &Auth, other: &Auth) -> bool
    ensures { result ≡ spec.same_auth auth.now other.now }
{
    match (auth, other) {
        (Auth::Absent, Auth::Absent) => true,
        (Auth::Roles(names), Auth::Roles(others)) => {
            same_texts(names.as_slice(), others.as_slice())
        }
        _ => false,
    }
}

fn same_transport(transport: Transport, other: Transport) -> bool
    ensures { result ≡ spec.same_transport transport other }
{
    match (transport, other) {
        (Transport::Absent, Transport::Absent) => true,
        (Transport::Plain, Transport::Plain) => true,
        (Transport::Integral, Transport::Integral) => true,
        (Transport::Confidential, Transport::Confidential) => true,
        _ => false,
    }
}

/// Returns whether the texts are equal, in the same order.
pub fn same_texts(texts: &[Text], others: &[Text]) -> bool
    ensures { result ≡ spec.same_texts texts.now others.now }
{
    texts.len() == others.len() && texts_are_equal_in_pairs(texts, others)
}

fn texts_are_equal_in_pairs(texts: &[Text], others: &[Text]) -> bool
    ensures { result ≡ list_all (λ pair. bytes_eq pair.0 pair.1) (zip texts.now others.now) }
{
    texts
        .iter()
        .zip(others)
        .all(|(text, other)| text.as_str() == other.as_str())
}
