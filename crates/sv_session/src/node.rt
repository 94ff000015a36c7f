//! The entries of a queue as a binary tree: the children of entry `k` are the entries `2 * k + 1` and `2 * k + 2`.

ghost use Rattle.std.specs.Prelude.{◌≡◌, ◌≢◌, ◌<◌, ◌+◌, ◌*◌, ℕ, length, map};
ghost use Rattle.sv_session.specs.Order.{sooner};
ghost use Rattle.sv_session.specs.Tree.{IsSettled, least_at, least_below};

use crate::due::{Due, sooner};

/// An entry: its own record, if any, and the first record of its subtree.
#[derive(Clone, Copy)]
pub(crate) struct Node {
    pub(crate) own: Option<Due>,
    pub(crate) least: Option<Due>,
}

/// Returns the first record of the subtree at an index.
pub(crate) fn least_at(nodes: &[Node], place: usize) -> Option<Due>
    ensures { result ≡ least_at nodes.now place }
{
    match nodes.get(place) {
        Some(node) => node.least,
        None => None,
    }
}

/// Returns the first of a record, if there is one, and all records in the subtrees below an index.
fn least_below(nodes: &[Node], own: Option<Due>, place: usize) -> Option<Due>
    requires { place < length nodes.now }
    ensures { result ≡ least_below nodes.now own place }
{
    let left = sooner(own, least_at(nodes, 2 * place + 1));
    sooner(left, least_at(nodes, 2 * place + 2))
}

/// Updates the first record of the subtree at an index, and those of all its ancestors.
pub(crate) fn settle(nodes: &mut [Node], place: usize)
    requires place { place < length nodes.old }
    requires others { (other : ℕ) → other ≢ place → IsSettled nodes.old other }
    ensures settled { (other : ℕ) → IsSettled nodes.new other }
    ensures own { map (λ node. node.own) nodes.new ≡ map (λ node. node.own) nodes.old }
{
    let own = nodes[place].own;
    let least = least_below(nodes, own, place);
    nodes[place] = Node { own, least };
    if place > 0 {
        settle(nodes, (place - 1) / 2);
    }
}
