//! A trie over the segments of paths that keeps the places of exact patterns and of prefix patterns.

ghost use Rattle.std.specs.Prelude.{◌≡◌, ℕ, ◌<◌, List, length, map, Some, None, IfOk, OnOk};
ghost use Rattle.std.specs.Option.{option_or};
ghost use Rattle.sv_mapping.specs.Segments.{segments_of};
ghost use Rattle.sv_mapping.specs.Trie as spec;
ghost use Rattle.sv_mapping.specs.Trie.{Adds, IsTrie, Grows, Enters, along, looked_up};

use crate::segments::{behind_root, split_segment};
use crate::trie_node::Node;
use std::alloc::Global;
use sv_text::NoMemory;

/// The fronts of paths as nodes. The first node is the root, for the empty path.
#[derive(Drop)]
pub(crate) struct Trie {
    nodes: Vec<Node>,
}

/// The places found along the segments of a path.
#[derive(Clone, Copy)]
pub(crate) struct Way {
    /// The place of the pattern that matches only the path.
    pub(crate) exact: Option<usize>,
    /// The place of the longest prefix pattern that matches the path.
    pub(crate) prefix: Option<usize>,
    /// The number of segments looked up.
    pub(crate) probes: usize,
}

impl Trie {
    /// Creates a trie with a root that keeps no place.
    pub(crate) fn new(alloc: Global) -> Result<Trie, NoMemory>
        ensures root { IfOk result (λ trie. length trie.nodes.items ≡ 1) }
        ensures children { IfOk result (λ trie. (at : ℕ) (segment : List ℕ) → spec.child trie.nodes.items at segment ≡ None) }
        ensures exact { IfOk result (λ trie. (at : ℕ) → spec.exact trie.nodes.items at ≡ None) }
        ensures prefix { IfOk result (λ trie. (at : ℕ) → spec.prefix trie.nodes.items at ≡ None) }
    {
        let mut nodes = Vec::new(alloc);
        nodes.push(Node::new(alloc))?;
        Ok(Trie { nodes })
    }

    fn add_node(&mut self, alloc: Global, at: usize, segment: &str) -> Result<usize, NoMemory>
        requires { at < length self.old.nodes.items }
        ensures { IfOk result (Grows self.old.nodes.items self.new.nodes.items at segment.now) }
    {
        let number = self.nodes.len();
        self.nodes.push(Node::new(alloc))?;
        self.nodes[at].add_child(alloc, segment, number)?;
        Ok(number)
    }

    /// Returns the node that the segments of a path lead to. Adds the missing nodes.
    fn enter(&mut self, alloc: Global, path: &str) -> Result<usize, NoMemory>
        requires { IsTrie self.old.nodes.items }
        ensures { IfOk result (Enters self.old.nodes.items self.new.nodes.items (segments_of path.now)) }
    {
        let mut at = 0;
        let mut rest = behind_root(path);
        while let Some(text) = rest {
            let (segment, behind) = split_segment(text);
            at = match self.nodes[at].child(segment) {
                Some(child) => child,
                None => self.add_node(alloc, at, segment)?,
            };
            rest = behind;
        }
        Ok(at)
    }

    /// Records the place of a pattern that matches only this path, unless the path has one already.
    pub(crate) fn add_exact(
        &mut self,
        alloc: Global,
        path: &str,
        place: usize,
    ) -> Result<(), NoMemory>
        requires { IsTrie self.old.nodes.items }
        ensures { OnOk result (Adds self.old.nodes.items self.new.nodes.items (segments_of path.now) place spec.exact spec.prefix) }
    {
        let at = self.enter(alloc, path)?;
        self.nodes[at].exact = self.nodes[at].exact.or(Some(place));
        Ok(())
    }

    /// Records the place of a pattern that matches this path and all paths below it, unless the path has one already.
    pub(crate) fn add_prefix(
        &mut self,
        alloc: Global,
        path: &str,
        place: usize,
    ) -> Result<(), NoMemory>
        requires { IsTrie self.old.nodes.items }
        ensures { OnOk result (Adds self.old.nodes.items self.new.nodes.items (segments_of path.now) place spec.prefix spec.exact) }
    {
        let at = self.enter(alloc, path)?;
        self.nodes[at].prefix = self.nodes[at].prefix.or(Some(place));
        Ok(())
    }

    /// Finds the places along the segments of a path.
    pub(crate) fn walk(&self, path: &str) -> Way
        requires { IsTrie self.now.nodes.items }
        ensures found { let nodes = self.now.nodes.items in
            along (spec.child nodes) (spec.exact nodes) (spec.prefix nodes) 0 (spec.prefix nodes 0) (segments_of path.now) ≡ (result.exact, result.prefix) }
        ensures probes { result.probes ≡ looked_up (spec.child self.now.nodes.items) 0 (segments_of path.now) }
    {
        let mut at = 0;
        let mut prefix = self.nodes[0].prefix;
        let mut probes = 0;
        let mut rest = behind_root(path);
        while let Some(text) = rest {
            let (segment, behind) = split_segment(text);
            probes += 1;
            let Some(child) = self.nodes[at].child(segment) else {
                return Way {
                    exact: None,
                    prefix,
                    probes,
                };
            };
            at = child;
            prefix = self.nodes[at].prefix.or(prefix);
            rest = behind;
        }
        Way {
            exact: self.nodes[at].exact,
            prefix,
            probes,
        }
    }
}
