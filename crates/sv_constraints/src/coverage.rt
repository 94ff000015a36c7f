//! The constraints that cover a request.

ghost use Rattle.std.specs.Prelude.{◌≡◌};
ghost use Rattle.sv_constraints.specs.Covering.{lists, covers_method, collection_covers, covers};

use crate::constraint::{Collection, Constraint, Methods};
use sv_mapping::Pattern;
use sv_text::Text;

/// Returns whether the text is among the texts.
pub fn lists(texts: &[Text], text: &str) -> bool
    ensures { result ≡ lists texts.now text.now }
{
    texts.iter().any(|listed| listed.as_str() == text)
}

/// Returns whether a pattern with this text is among the patterns.
fn lists_pattern(patterns: &[Pattern], text: &str) -> bool
    ensures { result ≡ lists patterns.now text.now }
{
    patterns.iter().any(|listed| listed.text() == text)
}

fn covers_method(methods: &Methods, method: &str) -> bool
    ensures { result ≡ covers_method methods.now method.now }
{
    match methods {
        Methods::All => true,
        Methods::Only(listed) => lists(listed.as_slice(), method),
        Methods::Except(listed) => !lists(listed.as_slice(), method),
    }
}

fn collection_covers(collection: &Collection, pattern: &str, method: &str) -> bool
    ensures { result ≡ collection_covers collection.now pattern.now method.now }
{
    lists_pattern(collection.patterns.as_slice(), pattern)
        && covers_method(&collection.methods, method)
}

/// Returns whether a constraint covers the method at the pattern.
pub fn covers(constraint: &Constraint, pattern: &str, method: &str) -> bool
    ensures { result ≡ covers constraint.now pattern.now method.now }
{
    constraint.collections.as_slice().iter().any(|collection| collection_covers(
        collection, pattern, method,
    ))
}
