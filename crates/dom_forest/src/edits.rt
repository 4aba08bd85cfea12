//! The edits of a document, by its chain.

ghost use Rattle.std.specs.Prelude.{◌≡◌, ℕ, List, ◌∷◌, [], ◌++◌, ◌+◌, ◌-◌, ◌≤◌, ◌<◌, All, IfNone, IfOk, IfSome, None, OnErr, OnOk, OnSome, Option, Some, drop, length, map, reverse, vec_len, vec_capacity};
ghost use Rattle.dom_forest.specs.declared.entry.Entry.{Entry};
ghost use Rattle.dom_forest.specs.Chain.{IsChainOf, IsSlotOf, entries_of, entry_in, head_id, rest_from, up_to};
ghost use Rattle.dom_forest.specs.Edits.{with_change, numbered_from, with_last};
ghost use Rattle.dom_forest.specs.Flat.{CanShift, IsEndOfKids, IsPart, IsThereOrTop, forest_of, renumbered_entries, shifted_entry};
ghost use Rattle.dom_forest.specs.Forest.{IsOneElement, IsThere, count, empty, first_kids, first_tree, from, joined_forests, times, tree};
ghost use Rattle.dom_forest.specs.Spine.{IsHeld, IsSpine, IsSpineOf};

use crate::chain::{Chain, put, raise, set_node, slot_of, take};
use crate::entry::passed;
use crate::node::{NewNode, NodeId};
use crate::spine::{end_below, note_last};
use fizz_text::OutOfMemory;

/// Gives a node that is there another content.
pub(crate) fn set_content(chain: &mut Chain, id: usize, node: NewNode)
    requires held { IsHeld chain.old }
    requires there { IsThere id (forest_of (entries_of chain.old)) }
    ensures held { IsHeld chain.new }
    ensures next { length chain.new.slots.items ≡ length chain.old.slots.items }
    ensures forest { forest_of (entries_of chain.new)
        ≡ with_change id (λ content kids later. tree id node kids later)
        (forest_of (entries_of chain.old)) }
    ensures spine { (next : ℕ) (spine : List ℕ) → IsSpineOf (entries_of chain.old) next spine →
        IsSpineOf (entries_of chain.new) next spine }
{
    set_node(chain, id, node);
}

/// What comes after the last child of an element, or after all for `None`, and the depth of such a child. Leaves on the
/// spine what stays so.
fn end_of_kids(
    chain: &Chain,
    spine: &mut Vec<usize>,
    parent: Option<NodeId>,
) -> (Option<usize>, usize)
    requires held { IsHeld chain.now }
    requires there { IsThereOrTop parent (forest_of (entries_of chain.now)) }
    requires spine { IsSpineOf (entries_of chain.now)
        (length chain.now.slots.items) spine.old.items }
    ensures end { (place : ℕ) × IsEndOfKids (entries_of chain.now) parent place result.1
        × (result.0 ≡ head_id (drop place (entries_of chain.now)) None) }
    ensures spine { IsSpine (entries_of chain.now) (length chain.now.slots.items)
        (reverse spine.new.items) result.1 }
{
    let Some(parent) = parent else {
        spine.clear();
        return (None, 0);
    };
    let Some(slot) = slot_of(chain, parent.0) else {
        return (None, 0);
    };
    let end = end_below(spine, chain, parent.0, slot);
    (end, slot.depth + 1)
}

/// Makes a new node the last child of an element that is there, or the last node at the top for `None`.
pub(crate) fn append_node(
    chain: &mut Chain,
    spine: &mut Vec<usize>,
    parent: Option<NodeId>,
    node: NewNode,
) -> Result<NodeId, OutOfMemory>
    requires held { IsHeld chain.old }
    requires there { IsThereOrTop parent (forest_of (entries_of chain.old)) }
    requires spine { IsSpineOf (entries_of chain.old)
        (length chain.old.slots.items) spine.old.items }
    ensures id { IfOk result (λ id. id.0 ≡ length chain.old.slots.items) }
    ensures next { OnOk result (length chain.new.slots.items ≡ length chain.old.slots.items + 1) }
    ensures held { IsHeld chain.new }
    ensures spine { IsSpineOf (entries_of chain.new)
        (length chain.new.slots.items) spine.new.items }
    ensures forest { OnOk result (forest_of (entries_of chain.new)
        ≡ with_last parent (tree (length chain.old.slots.items) node empty empty)
        (forest_of (entries_of chain.old))) }
    ensures err { OnErr result
        ((entries_of chain.new ≡ entries_of chain.old)
        × (length chain.new.slots.items ≡ length chain.old.slots.items)) }
{
    let (next, depth) = end_of_kids(chain, spine, parent);
    spine.reserve(1)?;
    chain.slots.reserve(1)?;
    let id = chain.slots.len();
    put(chain, next, depth, node);
    note_last(spine, next, id);
    Ok(NodeId(id))
}

/// Moves a node from one chain before a node of another one, with a new id, `up` levels higher and then `down` levels
/// deeper. What came after it comes back.
fn move_one(
    part: &mut Chain,
    chain: &mut Chain,
    id: Option<usize>,
    next: Option<usize>,
    up: usize,
    down: usize,
) -> Option<usize>
    requires { vec_len chain.old.slots < vec_capacity chain.old.slots }
    ensures part { (before after : List Entry) (e : Entry) →
        IsChainOf part.old (before ++ e ∷ after) → id ≡ Some e.id
        → IsChainOf part.new (before ++ after) × (result ≡ head_id after None) }
    ensures chain { (before after : List Entry) (e : Entry) →
        IsChainOf part.old (before ++ e ∷ after) → id ≡ Some e.id → CanShift up down e
        → (front back : List Entry) → IsChainOf chain.old (front ++ back) → next ≡ head_id back None
        → IsChainOf chain.new
        (front ++ record { depth = e.depth - up + down; id = length chain.old.slots.items; node = e.node } ∷ back)
        × (length chain.new.slots.items ≡ length chain.old.slots.items + 1) }
    ensures len { length chain.new.slots.items ≤ length chain.old.slots.items + 1 }
    ensures room { vec_capacity chain.old.slots ≤ vec_capacity chain.new.slots }
    ensures ids { length part.new.slots.items ≡ length part.old.slots.items }
{
    let Some(id) = id else {
        return None;
    };
    let Some(slot) = take(part, id) else {
        return None;
    };
    let depth = slot.depth.saturating_sub(up).saturating_add(down);
    put(chain, next, depth, slot.node);
    slot.next
}

/// Moves so many nodes, from one on.
pub(crate) fn move_run(
    part: &mut Chain,
    chain: &mut Chain,
    first: Option<usize>,
    many: usize,
    next: Option<usize>,
    up: usize,
    down: usize,
)
    requires { vec_len chain.old.slots + many ≤ vec_capacity chain.old.slots }
    ensures part { (before run after : List Entry) →
        IsChainOf part.old (before ++ (run ++ after)) → first ≡ head_id (run ++ after) None →
        length run ≡ many
        → IsChainOf part.new (before ++ after) }
    ensures chain { (before run after : List Entry) →
        IsChainOf part.old (before ++ (run ++ after)) → first ≡ head_id (run ++ after) None →
        length run ≡ many
        → All (CanShift up down) run → (front back : List Entry) →
        IsChainOf chain.old (front ++ back) → next ≡ head_id back None
        → IsChainOf chain.new
        (front ++ (renumbered_entries (length chain.old.slots.items)
        (map (shifted_entry up down) run) ++ back))
        × (length chain.new.slots.items ≡ length chain.old.slots.items + many) }
    ensures ids { length part.new.slots.items ≡ length part.old.slots.items }
{
    let mut id = first;
    for k in 0..many {
        id = move_one(part, chain, id, next, up, down);
    }
}

/// Takes a node out with all below it, into a chain with room for them.
pub(crate) fn take_part(chain: &mut Chain, part: &mut Chain, id: usize, many: usize, depth: usize)
    requires held { IsHeld chain.old }
    requires part { IsChainOf part.old [] }
    requires fresh { length part.old.slots.items ≡ 0 }
    requires room { vec_len part.old.slots + many ≤ vec_capacity part.old.slots }
    requires span { IsPart (entries_of chain.old) id many depth }
    ensures held { IsHeld chain.new }
    ensures next { length chain.new.slots.items ≡ length chain.old.slots.items }
    ensures rest { forest_of (entries_of chain.new)
        ≡ with_change id (λ content kids later. later) (forest_of (entries_of chain.old)) }
    ensures part { IsHeld part.new }
    ensures tree { forest_of (entries_of part.new)
        ≡ numbered_from 0 (first_tree (from id (forest_of (entries_of chain.old)))) }
    ensures size { length part.new.slots.items
        ≡ count (first_tree (from id (forest_of (entries_of chain.old)))) }
    ensures spine { (spine : List ℕ) →
        IsSpineOf (entries_of chain.old) (length chain.old.slots.items) spine
        → IsSpineOf (entries_of chain.new) (length chain.new.slots.items) spine }
{
    move_run(chain, part, Some(id), many, None, depth, 0);
}

/// Puts the nodes of another document before a node, with the next ids.
pub(crate) fn put_part(chain: &mut Chain, part: &mut Chain, id: usize, many: usize, depth: usize)
    requires held { IsHeld chain.old }
    requires part { IsHeld part.old }
    requires many { many ≡ length (entries_of part.old) }
    requires room { vec_len chain.old.slots + many ≤ vec_capacity chain.old.slots }
    requires span { (size : ℕ) × IsPart (entries_of chain.old) id size depth }
    ensures held { IsHeld chain.new }
    ensures next { length chain.new.slots.items
        ≡ length chain.old.slots.items + count (forest_of (entries_of part.old)) }
    ensures forest { forest_of (entries_of chain.new)
        ≡ with_change id
        (λ content kids later. joined_forests
        (numbered_from (length chain.old.slots.items) (forest_of (entries_of part.old)))
        (tree id content kids later)) (forest_of (entries_of chain.old)) }
    ensures spine { (spine : List ℕ) →
        IsSpineOf (entries_of chain.old) (length chain.old.slots.items) spine
        → IsSpineOf (entries_of chain.new) (length chain.new.slots.items) spine }
{
    let first = part.first;
    move_run(part, chain, first, many, Some(id), 0, depth);
}

/// A node with all below it: how many they are, and its depth.
pub(crate) fn part_at(chain: &Chain, id: usize) -> Option<(usize, usize)>
    requires { IsHeld chain.now }
    ensures part { IfSome result (λ part. IsPart (entries_of chain.now) id part.0 part.1) }
    ensures small { IfSome result (λ part. part.0 ≤ vec_len chain.now.slots) }
    ensures there { OnSome result (IsThere id (forest_of (entries_of chain.now))) }
    ensures absent { IfNone result (times id (forest_of (entries_of chain.now)) ≡ 0) }
{
    match slot_of(chain, id) {
        Some(slot) => Some((passed(chain, slot.next, slot.depth).0 + 1, slot.depth)),
        None => None,
    }
}

/// Leaves the children of the first node, which is the only one at the top.
pub(crate) fn drop_root(chain: &mut Chain)
    requires held { IsHeld chain.old }
    requires root { IsOneElement (forest_of (entries_of chain.old)) }
    ensures held { IsHeld chain.new }
    ensures next { length chain.new.slots.items ≡ length chain.old.slots.items }
    ensures forest { forest_of (entries_of chain.new)
        ≡ first_kids (forest_of (entries_of chain.old)) }
{
    if let Some(id) = chain.first {
        take(chain, id);
        raise(chain);
    }
}
