//! Compiled URL patterns.

ghost use Rattle.std.specs.Prelude.{◌≡◌, ◌<◌, ◌≤◌, ◌+◌, length, IfSome, slice_get};
ghost use Rattle.std.specs.Option.{option_and_then};
ghost use Rattle.sv_mapping.specs.BestMatch.{best, best_pattern};
ghost use Rattle.sv_mapping.specs.Segments.{segments};
ghost use Rattle.sv_text.specs.Gives.{GivesAnswer};

use crate::pattern::Pattern;
use crate::pattern_index::{Index, Looked};
use std::alloc::Global;
use std::marker::Model;
use sv_text::{Listed, NoMemory, Text};

/// URL patterns compiled for lookups. The cost of a lookup does not grow with the number of patterns. Contracts see the
/// list of the patterns' texts.
#[derive(Drop)]
pub struct PatternTable {
    texts: Listed<Text>,
    index: Index,
}

impl Model for PatternTable {
    ghost use Rattle.std.specs.Prelude.{ℕ, List};
    ghost use Rattle.sv_mapping.specs.Index.{Finds};

    ghost Value = { List (List ℕ) };

    ghost view = { λ table. table.texts };

    ghost invariant = { λ table. Finds table.index table.texts };
}

impl PatternTable {
    /// Compiles patterns, and keeps copies of their texts.
    pub fn compile(alloc: Global, patterns: &[Pattern]) -> Result<PatternTable, NoMemory>
        ensures { GivesAnswer result patterns.now }
    {
        let mut texts = Vec::new(alloc);
        let mut index = Index::new(alloc)?;
        for (place, pattern) in patterns.iter().enumerate() {
            let text = pattern.text();
            index.add(alloc, pattern, place)?;
            texts.push(Text::copy_of(alloc, text)?)?;
        }
        Ok(PatternTable {
            texts: Listed::from_vec(texts),
            index,
        })
    }

    /// Returns the texts of the patterns, in order.
    pub fn texts(&self) -> &[Text]
        ensures { result.now ≡ self.now }
    {
        self.texts.as_slice()
    }

    /// Returns the best match for a path, which is the place of the pattern that [`best`](crate::best) finds. An
    /// exact match comes first, then the longest prefix, then an extension, then the default pattern, and of equal
    /// patterns the first. Allocates no memory. Makes at most one lookup for each slash of the path and one more, and
    /// none if there are no patterns.
    pub fn lookup(&self, path: &str) -> Looked
        ensures best { result.best ≡ best self.now path.now }
        ensures within { IfSome result.best (λ place. place < length self.now) }
        ensures text { option_and_then (λ place. slice_get self.now place) result.best ≡ best_pattern self.now path.now }
        ensures probes { result.probes ≤ segments path.now + 1 }
    {
        if self.texts().is_empty() {
            return Looked {
                best: None,
                probes: 0,
            };
        }
        self.index.find(path)
    }
}
