//! An index of the places of patterns.

ghost use Rattle.std.specs.Prelude.{◌≡◌, ℕ, ◌≤◌, ◌+◌, [], ◌∷◌, ◌++◌, List, length, IfOk, IfNone, OnOk, IsTrue, None, Some, if◌then◌else◌};
ghost use Rattle.std.specs.HashMap.{get_by_text};
ghost use Rattle.std.specs.Option.{option_and_then, option_or};
ghost use Rattle.std.specs.Str.{bytes_eq};
ghost use Rattle.sv_mapping.specs.BestMatch.{best};
ghost use Rattle.sv_mapping.specs.MatchOrder.{prefix_texts};
ghost use Rattle.sv_mapping.specs.Pattern.{extension, is_pattern};
ghost use Rattle.sv_mapping.specs.Index.{Finds};
ghost use Rattle.sv_mapping.specs.Places.{exact_place, first_place};
ghost use Rattle.sv_mapping.specs.Segments.{is_rooted, segments_of};
ghost use Rattle.sv_mapping.specs.Trie.{IsTrie};

use crate::form::{Form, extension};
use crate::laws::best_is_looked_up;
use crate::pattern::Pattern;
use crate::segments::is_rooted;
use crate::trie::{Trie, Way};
use std::alloc::Global;
use std::collections::HashMap;
use sv_text::NoMemory;

/// The best match for a path, and the cost of finding it.
#[derive(Clone, Copy, Debug, PartialEq, Eq)]
pub struct Looked {
    /// The place of the pattern.
    pub best: Option<usize>,
    /// The number of segments looked up, plus one if the trie had no match.
    pub probes: usize,
}

/// An index of exact and prefix patterns by their segments and of extension patterns by their extensions, with the
/// default pattern.
#[derive(Drop)]
pub(crate) struct Index {
    trie: Trie,
    extensions: HashMap<String, usize>,
    default: Option<usize>,
}

impl Index {
    /// Creates an index of no patterns.
    pub(crate) fn new(alloc: Global) -> Result<Index, NoMemory>
        ensures { IfOk result (λ index. Finds index []) }
    {
        Ok(Index {
            trie: Trie::new(alloc)?,
            extensions: HashMap::new(alloc),
            default: None,
        })
    }

    /// Adds the next pattern. Its place is the number of patterns before it.
    pub(crate) fn add(
        &mut self,
        alloc: Global,
        pattern: &Pattern,
        place: usize,
    ) -> Result<(), NoMemory>
        requires trie { IsTrie self.old.trie.nodes.items }
        requires pattern { IsTrue (is_pattern pattern.now) }
        ensures { (patterns : List (List ℕ)) → Finds self.old patterns → place ≡ length patterns → OnOk result (Finds self.new (patterns ++ pattern.now ∷ [])) }
    {
        match pattern.form() {
            Form::Root => self.trie.add_exact(alloc, "/", place),
            Form::Default => {
                self.default = self.default.or(Some(place));
                Ok(())
            }
            Form::Extension(extension) => self.add_extension(alloc, extension, place),
            Form::Prefix(prefix) => self.trie.add_prefix(alloc, prefix, place),
            Form::Exact(path) => self.trie.add_exact(alloc, path, place),
        }
    }

    fn add_extension(
        &mut self,
        alloc: Global,
        extension: &str,
        place: usize,
    ) -> Result<(), NoMemory>
        ensures trie { self.new.trie ≡ self.old.trie }
        ensures default { self.new.default ≡ self.old.default }
        ensures extensions { OnOk result ((wanted : List ℕ) → get_by_text self.new.extensions wanted ≡
            (if bytes_eq extension.now wanted then option_or (get_by_text self.old.extensions wanted) (Some place) else get_by_text self.old.extensions wanted)) }
    {
        if self.extensions.contains_key(extension) {
            return Ok(());
        }
        self.extensions
            .insert(String::from_str(alloc, extension)?, place)?;
        Ok(())
    }

    /// Returns the best match for a path.
    pub(crate) fn find(&self, path: &str) -> Looked
        requires { IsTrie self.now.trie.nodes.items }
        ensures best { (patterns : List (List ℕ)) → Finds self.now patterns → result.best ≡ best patterns path.now }
        ensures probes { result.probes ≤ length (segments_of path.now) + 1 }
    {
        best_is_looked_up();
        let way = self.way(path);
        match way.exact.or(way.prefix) {
            Some(place) => Looked {
                best: Some(place),
                probes: way.probes,
            },
            None => Looked {
                best: self.by_extension(path).or(self.default),
                probes: way.probes + 1,
            },
        }
    }

    fn way(&self, path: &str) -> Way
        requires { IsTrie self.now.trie.nodes.items }
        ensures exact { (patterns : List (List ℕ)) → Finds self.now patterns → result.exact ≡ (if is_rooted path.now then exact_place patterns path.now else None) }
        ensures prefix { (patterns : List (List ℕ)) → Finds self.now patterns → result.prefix ≡ (if is_rooted path.now then first_place patterns (prefix_texts path.now) else None) }
        ensures probes { result.probes ≤ length (segments_of path.now) }
    {
        if is_rooted(path) {
            self.trie.walk(path)
        } else {
            Way {
                exact: None,
                prefix: None,
                probes: 0,
            }
        }
    }

    fn by_extension(&self, path: &str) -> Option<usize>
        ensures { result ≡ option_and_then (λ found. get_by_text self.now.extensions found) (extension path.now) }
    {
        self.extensions.get(extension(path)?).copied()
    }
}
