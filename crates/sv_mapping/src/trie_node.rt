//! The nodes of the trie.

ghost use Rattle.std.specs.Prelude.{◌≡◌, ℕ, List, None, Some, if◌then◌else◌, OnOk};
ghost use Rattle.std.specs.HashMap.{get_by_text};
ghost use Rattle.std.specs.Str.{bytes_eq};

use std::alloc::Global;
use std::collections::HashMap;
use sv_text::NoMemory;

/// A node of the trie. The segments that lead to it are the front of a path.
#[derive(Drop)]
pub(crate) struct Node {
    /// The numbers of the child nodes, by segment.
    children: HashMap<String, usize>,
    /// The place of the pattern that matches only the front.
    pub(crate) exact: Option<usize>,
    /// The place of the pattern that matches the front and all paths below it.
    pub(crate) prefix: Option<usize>,
}

impl Node {
    /// Creates a node without places and children.
    pub(crate) fn new(alloc: Global) -> Node
        ensures children { (segment : List ℕ) → get_by_text result.children segment ≡ None }
        ensures exact { result.exact ≡ None }
        ensures prefix { result.prefix ≡ None }
    {
        Node {
            children: HashMap::new(alloc),
            exact: None,
            prefix: None,
        }
    }

    /// Returns the number of the child node for a segment, if there is one.
    pub(crate) fn child(&self, segment: &str) -> Option<usize>
        ensures { result ≡ get_by_text self.now.children segment.now }
    {
        self.children.get(segment).copied()
    }

    /// Sets the child node for a segment.
    pub(crate) fn add_child(
        &mut self,
        alloc: Global,
        segment: &str,
        number: usize,
    ) -> Result<(), NoMemory>
        ensures children { OnOk result ((name : List ℕ) →
            get_by_text self.new.children name ≡ (if bytes_eq segment.now name then Some number else get_by_text self.old.children name)) }
        ensures exact { self.new.exact ≡ self.old.exact }
        ensures prefix { self.new.prefix ≡ self.old.prefix }
    {
        self.children
            .insert(String::from_str(alloc, segment)?, number)?;
        Ok(())
    }
}
