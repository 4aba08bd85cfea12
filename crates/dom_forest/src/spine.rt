//! The nodes in which the last one stands, so that the end of what is below them is known.

ghost use Rattle.std.specs.Prelude.{◌≡◌, ◌↔◌, ◌∷◌, [], ◌+◌, ◌<◌, IfOk, IsTrue, None, Some, ◌≤◌, length, drop, reverse, vec_len, vec_capacity};
ghost use Rattle.std.specs.List.{prefix_len};
ghost use Rattle.dom_forest.specs.Chain.{IsChainOf, IsSlotOf, entries_of, head_id, rest_from, slot_at};
ghost use Rattle.dom_forest.specs.Runs.{below_at};
ghost use Rattle.dom_forest.specs.Spine.{IsSpine, IsSpineOf, first_place, is_late, with_last_id};

use crate::chain::{Chain, Slot, slot_in};
use crate::entry::passed;

fn is_late(slots: &[Option<Slot>], id: usize, depth: usize) -> bool
    ensures { result ≡ is_late depth (slot_at slots.now id) }
{
    match slot_in(slots, id) {
        Some(slot) => depth < slot.depth,
        None => true,
    }
}

/// How many nodes at the end are gone or deeper.
fn count_late(spine: &[usize], slots: &[Option<Slot>], depth: usize) -> usize
    ensures count { result
        ≡ prefix_len (λ id. is_late depth (slot_at slots.now id)) (reverse spine.now) }
    ensures within { result ≤ length spine.now }
{
    spine
        .iter()
        .rev()
        .take_while(|id| is_late(slots, **id, depth))
        .count()
}

/// Leaves the nodes that are not deeper.
#[tactic(auto, using(crate::proofs::Spines::reverse_take))]
fn shorten(spine: &mut Vec<usize>, slots: &[Option<Slot>], depth: usize)
    ensures { reverse spine.new.items
        ≡ drop (prefix_len (λ id. is_late depth (slot_at slots.now id))
        (reverse spine.old.items)) (reverse spine.old.items) }
{
    let late = count_late(spine, slots, depth);
    spine.truncate(spine.len() - late);
}

/// Whether the last node is this one.
fn is_last(spine: &[usize], id: usize) -> bool
    ensures { IsTrue result ↔ (first_place (reverse spine.now) ≡ Some id) }
{
    match spine.split_last() {
        Some((last, _)) => *last == id,
        None => false,
    }
}

/// What comes after all below a node. Leaves on the spine nodes that are no deeper.
pub(crate) fn end_below(
    spine: &mut Vec<usize>,
    chain: &Chain,
    id: usize,
    slot: &Slot,
) -> Option<usize>
    requires chain { IsChainOf chain.now (entries_of chain.now) }
    requires slot { IsSlotOf (entries_of chain.now) id slot.now }
    requires spine { IsSpineOf (entries_of chain.now)
        (length chain.now.slots.items) spine.old.items }
    ensures end { let after = rest_from slot.now.next (entries_of chain.now) in
        result ≡ head_id (drop (prefix_len (below_at slot.now.depth) after) after) None }
    ensures spine { IsSpine (entries_of chain.now) (length chain.now.slots.items)
        (reverse spine.new.items) (slot.now.depth + 1) }
{
    shorten(spine, &chain.slots, slot.depth);
    if is_last(spine, id) {
        return None;
    }
    passed(chain, slot.next, slot.depth).1
}

/// Adds a new node, if nothing comes after it.
pub(crate) fn note_last(spine: &mut Vec<usize>, next: Option<usize>, id: usize)
    requires { vec_len spine.old < vec_capacity spine.old }
    ensures { spine.new.items ≡ with_last_id next id spine.old.items }
{
    match next {
        None => spine.push(id).unwrap(),
        Some(_) => {}
    }
}
