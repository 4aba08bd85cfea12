//! The nodes of a document as entries, and walks along them.

ghost use Rattle.std.specs.Prelude.{◌≡◌, ◌∷◌, ◌<◌, ◌≤◌, IfNone, IfSome, None, Some, drop, length};
ghost use Rattle.std.specs.List.{prefix_len};
ghost use Rattle.dom_forest.specs.Chain.{IsChainOf, entries_of, entry_in, head_id, last_id, rest_from, up_to};
ghost use Rattle.dom_forest.specs.Runs.{below_at, deeper_id, id_after, level_id, parent_step, previous_step};
ghost use Rattle.dom_forest.specs.Walk.{IsDeeper};

use crate::chain::{Chain, Slot, slot_of};
use crate::node::NewNode;

/// A node in document order, by which contracts speak of a chain.
#[derive(Debug, Drop)]
pub(crate) struct Entry {
    /// How many nodes it stands in.
    pub(crate) depth: usize,
    pub(crate) id: usize,
    pub(crate) node: NewNode,
}

/// The slot of a node that is there and is deeper.
fn deeper_slot(chain: &Chain, id: Option<usize>, depth: usize) -> Option<&Slot>
    requires { IsChainOf chain.now (entries_of chain.now) }
    ensures deeper { IfSome result (λ slot. IsDeeper (entries_of chain.now) id depth slot.now) }
    ensures not { IfNone result
        (prefix_len (below_at depth) (rest_from id (entries_of chain.now)) ≡ 0) }
{
    let Some(id) = id else {
        return None;
    };
    match slot_of(chain, id) {
        Some(slot) if depth < slot.depth => Some(slot),
        _ => None,
    }
}

/// How many nodes from one on are deeper, and the one that comes after them.
pub(crate) fn passed(chain: &Chain, id: Option<usize>, depth: usize) -> (usize, Option<usize>)
    requires { IsChainOf chain.now (entries_of chain.now) }
    ensures count { result.0 ≡ prefix_len (below_at depth) (rest_from id (entries_of chain.now)) }
    ensures rest { rest_from result.1 (entries_of chain.now)
        ≡ drop (prefix_len (below_at depth) (rest_from id (entries_of chain.now)))
        (rest_from id (entries_of chain.now)) }
    ensures head { id ≡ head_id (rest_from id (entries_of chain.now)) None →
        result.1 ≡ head_id (rest_from result.1 (entries_of chain.now)) None }
{
    let mut count: usize = 0;
    let mut next = id;
    while let Some(slot) = deeper_slot(chain, next, depth) {
        count += 1;
        next = slot.next;
    }
    (count, next)
}

/// The id of a node at a depth.
pub(crate) fn level_at(chain: &Chain, id: Option<usize>, depth: usize) -> Option<usize>
    requires { IsChainOf chain.now (entries_of chain.now) }
    ensures { result ≡ level_id depth (rest_from id (entries_of chain.now)) }
{
    let Some(id) = id else {
        return None;
    };
    match slot_of(chain, id) {
        Some(slot) => (slot.depth == depth).then_some(id),
        None => None,
    }
}

/// The id of a node that is deeper.
pub(crate) fn deeper_at(chain: &Chain, id: Option<usize>, depth: usize) -> Option<usize>
    requires { IsChainOf chain.now (entries_of chain.now) }
    ensures { result ≡ deeper_id depth (rest_from id (entries_of chain.now)) }
{
    let Some(id) = id else {
        return None;
    };
    match slot_of(chain, id) {
        Some(slot) => (depth < slot.depth).then_some(id),
        None => None,
    }
}

/// The parent of a node at a depth, among the nodes up to one before it.
pub(crate) fn parent_before(chain: &Chain, previous: Option<usize>, depth: usize) -> Option<usize>
    requires chain { IsChainOf chain.now (entries_of chain.now) }
    requires there { previous ≡ last_id None (up_to previous (entries_of chain.now)) }
    ensures { result ≡ id_after (parent_step depth) None (up_to previous (entries_of chain.now)) }
{
    let mut before = previous;
    while let Some(id) = before {
        let Some(slot) = slot_of(chain, id) else {
            return None;
        };
        if slot.depth < depth {
            return Some(id);
        }
        before = slot.previous;
    }
    None
}

/// The previous sibling of a node at a depth, among the nodes up to one before it.
pub(crate) fn previous_before(chain: &Chain, previous: Option<usize>, depth: usize) -> Option<usize>
    requires chain { IsChainOf chain.now (entries_of chain.now) }
    requires there { previous ≡ last_id None (up_to previous (entries_of chain.now)) }
    ensures { result ≡ id_after (previous_step depth) None (up_to previous (entries_of chain.now)) }
{
    let mut before = previous;
    while let Some(id) = before {
        let Some(slot) = slot_of(chain, id) else {
            return None;
        };
        if slot.depth <= depth {
            return (slot.depth == depth).then_some(id);
        }
        before = slot.previous;
    }
    None
}
