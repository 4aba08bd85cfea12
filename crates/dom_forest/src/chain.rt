//! The entries of a document as a chain of slots, in which an entry is found by its id and comes in or goes out without
//! moving others.

ghost use Rattle.std.specs.Prelude.{◌≡◌, ◌≢◌, ℕ, List, ◌∷◌, ◌++◌, ◌+◌, ◌<◌, ◌≤◌, ◌==◌, if◌then◌else◌, IfNone, IfOk, IfSome, None, Option, Some, [], OnErr, length, map, vec_len, vec_capacity};
ghost use Rattle.std.specs.Option.{option_copied};
ghost use Rattle.dom_forest.specs.declared.entry.Entry.{Entry};
ghost use Rattle.dom_forest.specs.Chain.{IsChainOf, IsSlotOf, end_set, entries_of, entry_times, head_id, last_id, slot_with, with_next, with_previous, previous_at, slot_at, slot_for, to_next, to_node, to_previous, slot_above};
ghost use Rattle.dom_forest.specs.Flat.{shifted_entry};

use crate::node::NewNode;
use fizz_text::OutOfMemory;
use std::alloc::Global;

/// A node with its links. Its id is its place among the slots.
#[derive(Debug, Drop)]
pub(crate) struct Slot {
    /// How many nodes it stands in.
    pub(crate) depth: usize,
    pub(crate) node: NewNode,
    pub(crate) previous: Option<usize>,
    pub(crate) next: Option<usize>,
}

/// Nodes in document order: a node comes before its children, and they before its later siblings.
#[derive(Debug, Drop)]
pub(crate) struct Chain {
    /// By id; `None` where a node was removed. The number of slots is the next id.
    pub(crate) slots: Vec<Option<Slot>>,
    pub(crate) first: Option<usize>,
    pub(crate) last: Option<usize>,
}

fn relink_next(slot: &mut Option<Slot>, next: Option<usize>)
    ensures { slot.new ≡ slot_with (to_next next) slot.old }
{
    if let Some(slot) = slot {
        slot.next = next;
    }
}

fn relink_previous(slot: &mut Option<Slot>, previous: Option<usize>)
    ensures { slot.new ≡ slot_with (to_previous previous) slot.old }
{
    if let Some(slot) = slot {
        slot.previous = previous;
    }
}

fn link_next(slots: &mut Vec<Option<Slot>>, id: usize, next: Option<usize>)
    ensures slots { (i : ℕ) →
        slot_at slots.new.items i ≡ with_next (Some id) next (slot_at slots.old.items) i }
    ensures len { length slots.new.items ≡ length slots.old.items }
    ensures room { vec_capacity slots.new ≡ vec_capacity slots.old }
{
    if let Some(slot) = slots.get_mut(id) {
        relink_next(slot, next);
    }
}

fn link_previous(slots: &mut Vec<Option<Slot>>, id: usize, previous: Option<usize>)
    ensures slots { (i : ℕ) →
        slot_at slots.new.items i ≡ with_previous (Some id) previous (slot_at slots.old.items) i }
    ensures len { length slots.new.items ≡ length slots.old.items }
    ensures room { vec_capacity slots.new ≡ vec_capacity slots.old }
{
    if let Some(slot) = slots.get_mut(id) {
        relink_previous(slot, previous);
    }
}

/// Sets what comes after a node, or the first node for `None`.
fn set_next(chain: &mut Chain, id: Option<usize>, next: Option<usize>)
    ensures slots { (i : ℕ) →
        slot_at chain.new.slots.items i ≡ with_next id next (slot_at chain.old.slots.items) i }
    ensures len { length chain.new.slots.items ≡ length chain.old.slots.items }
    ensures room { vec_capacity chain.new.slots ≡ vec_capacity chain.old.slots }
    ensures first { chain.new.first ≡ end_set id next chain.old.first }
    ensures last { chain.new.last ≡ chain.old.last }
{
    match id {
        Some(id) => link_next(&mut chain.slots, id, next),
        None => chain.first = next,
    }
}

/// Sets what comes before a node, or the last node for `None`.
fn set_previous(chain: &mut Chain, id: Option<usize>, previous: Option<usize>)
    ensures slots { (i : ℕ) →
        slot_at chain.new.slots.items i
        ≡ with_previous id previous (slot_at chain.old.slots.items) i }
    ensures len { length chain.new.slots.items ≡ length chain.old.slots.items }
    ensures room { vec_capacity chain.new.slots ≡ vec_capacity chain.old.slots }
    ensures first { chain.new.first ≡ chain.old.first }
    ensures last { chain.new.last ≡ end_set id previous chain.old.last }
{
    match id {
        Some(id) => link_previous(&mut chain.slots, id, previous),
        None => chain.last = previous,
    }
}

fn borrowed(slot: &Option<Slot>) -> Option<&Slot>
    ensures { option_copied result ≡ slot.now }
{
    match slot {
        Some(slot) => Some(slot),
        None => None,
    }
}

pub(crate) fn slot_in(slots: &[Option<Slot>], id: usize) -> Option<&Slot>
    ensures { option_copied result ≡ slot_at slots.now id }
{
    match slots.get(id) {
        Some(slot) => borrowed(slot),
        None => None,
    }
}

/// What comes before a node, or the last node for `None`.
fn previous_at(chain: &Chain, next: Option<usize>) -> Option<usize>
    ensures { result ≡ previous_at chain.now next }
{
    match next {
        Some(id) => match slot_in(&chain.slots, id) {
            Some(slot) => slot.previous,
            None => None,
        },
        None => chain.last,
    }
}

fn take_slot(slots: &mut Vec<Option<Slot>>, id: usize) -> Option<Slot>
    ensures slot { result ≡ slot_at slots.old.items id }
    ensures slots { (i : ℕ) →
        slot_at slots.new.items i ≡ (if i == id then None else slot_at slots.old.items i) }
    ensures len { length slots.new.items ≡ length slots.old.items }
    ensures room { vec_capacity slots.new ≡ vec_capacity slots.old }
{
    match slots.get_mut(id) {
        Some(slot) => slot.take(),
        None => None,
    }
}

/// Puts a new node before another one, or last for `None`.
pub(crate) fn put(chain: &mut Chain, next: Option<usize>, depth: usize, node: NewNode)
    requires { vec_len chain.old.slots < vec_capacity chain.old.slots }
    ensures chain { (before after : List Entry) → IsChainOf chain.old (before ++ after) →
        next ≡ head_id after None
        → IsChainOf chain.new
        (before ++ record { depth = depth; id = length chain.old.slots.items; node = node }
        ∷ after) }
    ensures len { length chain.new.slots.items ≡ length chain.old.slots.items + 1 }
    ensures room { vec_capacity chain.old.slots ≤ vec_capacity chain.new.slots }
{
    let id = chain.slots.len();
    let previous = previous_at(chain, next);
    chain
        .slots
        .push(Some(Slot {
            depth,
            node,
            previous,
            next,
        }))
        .unwrap();
    set_next(chain, previous, Some(id));
    set_previous(chain, next, Some(id));
}

/// Takes a node out.
pub(crate) fn take(chain: &mut Chain, id: usize) -> Option<Slot>
    ensures chain { (before after : List Entry) (e : Entry) →
        IsChainOf chain.old (before ++ e ∷ after) → e.id ≡ id
        → IsChainOf chain.new (before ++ after) }
    ensures slot { (before after : List Entry) (e : Entry) →
        IsChainOf chain.old (before ++ e ∷ after) → e.id ≡ id
        → result ≡ Some (slot_for e (last_id None before) (head_id after None)) }
    ensures len { length chain.new.slots.items ≡ length chain.old.slots.items }
    ensures room { vec_capacity chain.new.slots ≡ vec_capacity chain.old.slots }
{
    let Some(slot) = take_slot(&mut chain.slots, id) else {
        return None;
    };
    set_next(chain, slot.previous, slot.next);
    set_previous(chain, slot.next, slot.previous);
    Some(slot)
}

/// The slot of a node that is there.
pub(crate) fn slot_of(chain: &Chain, id: usize) -> Option<&Slot>
    requires { IsChainOf chain.now (entries_of chain.now) }
    ensures found { IfSome result (λ slot. IsSlotOf (entries_of chain.now) id slot.now) }
    ensures absent { IfNone result (entry_times id (entries_of chain.now) ≡ 0) }
{
    match slot_in(&chain.slots, id) {
        Some(slot) => Some(slot),
        None => None,
    }
}

fn refill(slot: &mut Option<Slot>, node: NewNode)
    ensures { slot.new ≡ slot_with (to_node node) slot.old }
{
    if let Some(slot) = slot {
        slot.node = node;
    }
}

/// Gives a node another content.
pub(crate) fn set_node(chain: &mut Chain, id: usize, node: NewNode)
    ensures chain { (before after : List Entry) (e : Entry) →
        IsChainOf chain.old (before ++ e ∷ after) → e.id ≡ id
        → IsChainOf chain.new
        (before ++ record { depth = e.depth; id = e.id; node = node } ∷ after) }
    ensures len { length chain.new.slots.items ≡ length chain.old.slots.items }
{
    if let Some(slot) = chain.slots.get_mut(id) {
        refill(slot, node);
    }
}

fn lift(slot: &mut Option<Slot>)
    ensures { slot.new ≡ slot_with slot_above slot.old }
{
    if let Some(slot) = slot {
        slot.depth = slot.depth.saturating_sub(1);
    }
}

fn lift_all(slots: &mut [Option<Slot>])
    ensures { slots.new ≡ map (slot_with slot_above) slots.old }
{
    for slot in slots.iter_mut() {
        lift(slot);
    }
}

fn lift_slots(slots: &mut Vec<Option<Slot>>)
    ensures { slots.new.items ≡ map (slot_with slot_above) slots.old.items }
{
    lift_all(slots);
}

/// Moves all nodes one level higher.
pub(crate) fn raise(chain: &mut Chain)
    ensures chain { (entries : List Entry) → IsChainOf chain.old entries →
        IsChainOf chain.new (map (shifted_entry 1 0) entries) }
    ensures len { length chain.new.slots.items ≡ length chain.old.slots.items }
{
    lift_slots(&mut chain.slots);
}

/// How many nodes there are.
pub(crate) fn count_all(chain: &Chain) -> usize
    requires { IsChainOf chain.now (entries_of chain.now) }
    ensures count { result ≡ length (entries_of chain.now) }
    ensures small { result ≤ vec_len chain.now.slots }
{
    let mut count: usize = 0;
    let mut next = chain.first;
    while let Some(id) = next {
        let Some(slot) = slot_of(chain, id) else {
            return count;
        };
        count += 1;
        next = slot.next;
    }
    count
}

fn copy_slot(alloc: Global, slot: &Option<Slot>) -> Result<Option<Slot>, OutOfMemory>
    ensures { IfOk result (λ copy. copy ≡ slot.now) }
{
    match slot {
        Some(slot) => Ok(Some(Slot {
            depth: slot.depth,
            node: slot.node.copy(alloc)?,
            previous: slot.previous,
            next: slot.next,
        })),
        None => Ok(None),
    }
}

/// Equal slots.
fn copied(alloc: Global, slots: &[Option<Slot>]) -> Result<Vec<Option<Slot>>, OutOfMemory>
    ensures { IfOk result (λ copies. copies.items ≡ slots.now) }
{
    let mut copies = Vec::with_capacity(alloc, slots.len())?;
    for slot in slots {
        copies.push(copy_slot(alloc, slot)?)?;
    }
    Ok(copies)
}

/// An equal chain.
pub(crate) fn copy(chain: &Chain) -> Result<Chain, OutOfMemory>
    ensures slots { IfOk result (λ copy. copy.slots.items ≡ chain.now.slots.items) }
    ensures first { IfOk result (λ copy. copy.first ≡ chain.now.first) }
    ensures last { IfOk result (λ copy. copy.last ≡ chain.now.last) }
{
    let slots = copied(*chain.slots.allocator(), &chain.slots)?;
    Ok(Chain {
        slots,
        first: chain.first,
        last: chain.last,
    })
}

pub(crate) fn nothing(alloc: Global) -> Chain
    ensures slots { result.slots.items ≡ [] }
    ensures chain { IsChainOf result [] }
{
    Chain {
        slots: Vec::new(alloc),
        first: None,
        last: None,
    }
}
