//! The queue.

ghost use Rattle.std.specs.Prelude.{◌≡◌, ◌<◌, ◌++◌, ◌∷◌, [], MatchOption, None, OnErr, OnOk, Some, length, slice_set};
ghost use Rattle.sv_session.specs.Order.{IsFirst, NoneWaits};

use crate::due::Due;
use crate::node::{Node, least_at, settle};
use std::alloc::{AllocError, Global};
use std::marker::Model;

/// The records of a list, by index. Contracts see a list of entries, each with a record or empty. Changing an entry
/// takes logarithmic time and no memory.
#[derive(Drop)]
pub struct Queue {
    nodes: Vec<Node>,
}

impl Model for Queue {
    ghost use Rattle.std.specs.Prelude.{ℕ, map};
    ghost use Rattle.sv_session.specs.Order.{Waiting};
    ghost use Rattle.sv_session.specs.Tree.{IsSettled};

    ghost Value = { Waiting };

    ghost view = { λ queue. map (λ node. node.own) queue.nodes.items };

    ghost invariant = { λ queue. (place : ℕ) → IsSettled queue.nodes.items place };
}

impl Queue {
    /// Creates an empty queue. Takes no memory.
    pub fn new(alloc: Global) -> Queue
        ensures { result ≡ [] }
    {
        Queue {
            nodes: Vec::new(alloc),
        }
    }

    /// Appends an entry with a record.
    ///
    /// # Errors
    /// `AllocError` if memory runs out; nothing has changed.
    pub fn push(&mut self, due: Due) -> Result<(), AllocError>
        ensures added { OnOk result (self.new ≡ self.old ++ Some due ∷ []) }
        ensures refused { OnErr result (self.new ≡ self.old) }
    {
        let place = self.len();
        let Ok(()) = self.widen() else {
            return Err(AllocError);
        };
        self.put(place, Some(due));
        Ok(())
    }

    /// Returns the number of entries.
    pub fn len(&self) -> usize
        ensures { result ≡ length self.now }
    {
        self.nodes.len()
    }

    /// Appends an empty entry. If memory runs out, nothing changes.
    fn widen(&mut self) -> Result<(), AllocError>
        ensures wider { OnOk result (self.new ≡ self.old ++ None ∷ []) }
        ensures refused { OnErr result (self.new ≡ self.old) }
    {
        let empty = Node {
            own: None,
            least: None,
        };
        let Ok(()) = self.nodes.push(empty) else {
            return Err(AllocError);
        };
        Ok(())
    }

    /// Replaces the record at an index, or empties the entry.
    pub fn put(&mut self, place: usize, due: Option<Due>)
        requires { place < length self.old }
        ensures { self.new ≡ slice_set self.old place due }
    {
        let least = self.nodes[place].least;
        self.nodes[place] = Node { own: due, least };
        settle(self.nodes.as_mut_slice(), place);
    }

    /// Returns the first record in the order, or `None` if there is none.
    pub fn least(&self) -> Option<Due>
        ensures { MatchOption result (NoneWaits self.now) (IsFirst self.now) }
    {
        least_at(self.nodes.as_slice(), 0)
    }
}
