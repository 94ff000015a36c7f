//! The patterns of all constraints of a context.

ghost use Rattle.std.specs.Prelude.{◌≡◌, codes};
ghost use Rattle.sv_constraints.specs.Covering as covering;
ghost use Rattle.sv_text.specs.Gives.{GivesAnswer};

use std::alloc::Global;
use std::marker::Model;
use sv_audit::{all_patterns, is_among};
use sv_constraints::Constraint;
use sv_text::NoMemory;

/// The patterns of all constraints of a context, for questions on many of them. Contracts see the patterns, in order and
/// with duplicates.
#[derive(Drop)]
pub struct ListedPatterns<'a> {
    patterns: Vec<&'a str>,
    /// Whether `/*` is among the patterns.
    has_prefix: bool,
}

impl<'a> Model for ListedPatterns<'a> {
    ghost use Rattle.std.specs.Prelude.{◌≡◌, ℕ, List, codes, map};
    ghost use Rattle.sv_constraints.specs.Covering.{lists};

    ghost Value = { List (List ℕ) };

    ghost view = { λ listed. map (λ pattern. pattern.now) listed.patterns.items };

    ghost invariant = { λ listed. listed.has_prefix ≡ lists (map (λ pattern. pattern.now) listed.patterns.items) (codes "/*") };
}

impl<'a> ListedPatterns<'a> {
    /// Takes the patterns of the constraints.
    ///
    /// # Errors
    /// `NoMemory` if memory runs out.
    pub fn of(alloc: Global, constraints: &'a [Constraint]) -> Result<ListedPatterns<'a>, NoMemory>
        ensures { GivesAnswer result (covering.all_patterns constraints.now) }
    {
        let patterns = all_patterns(alloc, constraints)?;
        let has_prefix = is_among(patterns.as_slice(), "/*");
        Ok(ListedPatterns {
            patterns,
            has_prefix,
        })
    }

    /// Returns whether `/*` is among the patterns.
    pub fn has_prefix(&self) -> bool
        ensures { result ≡ covering.lists self.now (codes "/*") }
    {
        self.has_prefix
    }

    /// Returns whether the text is among the patterns.
    pub fn has(&self, text: &str) -> bool
        ensures { result ≡ covering.lists self.now text.now }
    {
        is_among(self.patterns.as_slice(), text)
    }
}
