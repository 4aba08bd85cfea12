//! The elements that have an attribute `id`.

ghost use Rattle.std.specs.Prelude.{◌≡◌, ◌+◌, ◌<◌, ◌≤◌, ◌^◌, ℕ, List, OnOk, false, find, length, true, vec_capacity, vec_len};
ghost use Rattle.std.specs.List.{list_any};
ghost use Rattle.dom_forest.specs.Chain.{IsChainOf, entries_of};
ghost use Rattle.dom_forest.specs.Ids.{gives_id, has_id};
ghost use Rattle.std.specs.BTreeMap.{get_by_text};
ghost use Rattle.dom_forest.specs.Edits.{numbered_from};
ghost use Rattle.dom_forest.specs.Flat.{forest_of, renumbered_entries};
ghost use Rattle.dom_forest.specs.Index.{IsIndexOf, KnowsEntries, KnowsNode, LeadsTo, StaysKnown, holder_with, is_gone, known_by};
ghost use Rattle.dom_forest.specs.Spine.{IsHeld};
ghost use Rattle.dom_forest.specs.Runs.{entry_id};

use crate::chain::{Chain, Slot, slot_in, slot_of};
use crate::node::NewNode;
use fizz_text::{Attr, OutOfMemory, Text};
use std::alloc::Global;
use std::collections::BTreeMap;

/// The nodes that were seen with an id.
#[derive(Clone, Copy, Debug, Drop)]
pub(crate) enum Holder {
    /// This one. It may be gone.
    One(usize),
    /// Perhaps several.
    Many,
}

/// The holders of each id.
pub(crate) type Holders = BTreeMap<String, Holder>;

/// Whether the node was given out and removed.
fn is_gone(slots: &[Option<Slot>], id: usize) -> bool
    ensures { result ≡ is_gone id slots.now }
{
    id < slots.len() && slot_in(slots, id).is_none()
}

/// The holder of an id that one more node has.
fn holder_with(slots: &[Option<Slot>], node: usize, known: Option<Holder>) -> Holder
    ensures { result ≡ holder_with slots.now node known }
{
    match known {
        None => Holder::One(node),
        Some(Holder::One(other)) => {
            if other == node || is_gone(slots, other) {
                Holder::One(node)
            } else {
                Holder::Many
            }
        }
        Some(Holder::Many) => Holder::Many,
    }
}

fn known_of(holders: &Holders, id: &Text) -> Option<Holder>
    ensures { result ≡ get_by_text holders.now id.now }
{
    holders.get(id.as_str()).copied()
}

/// Notes that a node that isn't gone has the id.
fn note(
    alloc: Global,
    holders: &mut Holders,
    slots: &[Option<Slot>],
    id: &Text,
    node: usize,
) -> Result<(), OutOfMemory>
    ensures noted { OnOk result (LeadsTo (get_by_text holders.new id.now) node) }
    ensures kept { StaysKnown slots.now (get_by_text holders.old) (get_by_text holders.new) }
{
    let holder = holder_with(slots, node, known_of(holders, id));
    let key = String::from_str(alloc, id.as_str())?;
    holders.insert(key, holder)?;
    Ok(())
}

/// Notes that a node has the id that its attribute gives, if it gives one.
fn note_attribute(
    alloc: Global,
    holders: &mut Holders,
    slots: &[Option<Slot>],
    attribute: &Attr,
    node: usize,
) -> Result<(), OutOfMemory>
    ensures noted { OnOk result
        ((id : List ℕ) → gives_id id attribute.now ≡ true →
        LeadsTo (get_by_text holders.new id) node) }
    ensures kept { StaysKnown slots.now (get_by_text holders.old) (get_by_text holders.new) }
{
    match &attribute.value {
        Some(value) if attribute.name.as_bytes() == b"id".as_slice() => {
            note(alloc, holders, slots, value, node)
        }
        _ => Ok(()),
    }
}

fn note_attributes(
    alloc: Global,
    holders: &mut Holders,
    slots: &[Option<Slot>],
    attributes: &[Attr],
    node: usize,
) -> Result<(), OutOfMemory>
    requires { is_gone node slots.now ≡ false }
    ensures noted { OnOk result
        ((id : List ℕ) → list_any (gives_id id) attributes.now ≡ true →
        LeadsTo (get_by_text holders.new id) node) }
    ensures kept { StaysKnown slots.now (get_by_text holders.old) (get_by_text holders.new) }
{
    for attribute in attributes {
        note_attribute(alloc, holders, slots, attribute, node)?;
    }
    Ok(())
}

/// Notes the ids of a node that isn't gone.
fn note_node(
    alloc: Global,
    holders: &mut Holders,
    slots: &[Option<Slot>],
    node: &NewNode,
    id: usize,
) -> Result<(), OutOfMemory>
    requires { is_gone id slots.now ≡ false }
    ensures noted { OnOk result (KnowsNode (get_by_text holders.new) id node.now) }
    ensures kept { StaysKnown slots.now (get_by_text holders.old) (get_by_text holders.new) }
{
    match node {
        NewNode::Element { attributes, .. } => {
            note_attributes(alloc, holders, slots, attributes.as_slice(), id)
        }
        _ => Ok(()),
    }
}

/// Notes the ids of all nodes of a chain, which are to get the next ids.
fn note_run(
    alloc: Global,
    holders: &mut Holders,
    slots: &[Option<Slot>],
    part: &Chain,
) -> Result<(), OutOfMemory>
    requires part { IsChainOf part.now (entries_of part.now) }
    requires room { length slots.now + length (entries_of part.now) < 2 ^ 64 }
    ensures noted { OnOk result
        (KnowsEntries (get_by_text holders.new)
        (renumbered_entries (length slots.now) (entries_of part.now))) }
    ensures kept { StaysKnown slots.now (get_by_text holders.old) (get_by_text holders.new) }
{
    let mut id = slots.len();
    let mut next = part.first;
    while let Some(now) = next {
        let Some(slot) = slot_of(part, now) else {
            return Ok(());
        };
        note_node(alloc, holders, slots, &slot.node, id)?;
        id += 1;
        next = slot.next;
    }
    Ok(())
}

/// Notes the ids of a new node, which is to get the next id.
pub(crate) fn note_new(
    alloc: Global,
    ids: &mut Option<Holders>,
    chain: &Chain,
    node: &NewNode,
) -> Result<(), OutOfMemory>
    requires held { IsHeld chain.now }
    requires index { IsIndexOf ids.old (forest_of (entries_of chain.now)) }
    ensures noted { OnOk result
        (KnowsNode (known_by ids.new) (length chain.now.slots.items) node.now) }
    ensures index { IsIndexOf ids.new (forest_of (entries_of chain.now)) }
{
    match ids {
        Some(holders) => note_node(alloc, holders, &chain.slots, node, chain.slots.len()),
        None => Ok(()),
    }
}

/// Notes the ids of all nodes of a part, which are to get the next ids.
fn note_part(
    alloc: Global,
    ids: &mut Option<Holders>,
    chain: &Chain,
    part: &Chain,
) -> Result<(), OutOfMemory>
    requires held { IsHeld chain.now }
    requires part { IsHeld part.now }
    requires room { length chain.now.slots.items + length (entries_of part.now) < 2 ^ 64 }
    requires index { IsIndexOf ids.old (forest_of (entries_of chain.now)) }
    ensures noted { OnOk result
        (IsIndexOf ids.new
        (numbered_from (length chain.now.slots.items) (forest_of (entries_of part.now)))) }
    ensures index { IsIndexOf ids.new (forest_of (entries_of chain.now)) }
{
    match ids {
        Some(holders) => {
            note_run(alloc, holders, &chain.slots, part)?;
            Ok(())
        }
        None => Ok(()),
    }
}

/// Notes the ids of a part and takes room for its nodes.
pub(crate) fn make_ready(
    alloc: Global,
    chain: &mut Chain,
    ids: &mut Option<Holders>,
    part: &Chain,
    many: usize,
) -> Result<(), OutOfMemory>
    requires held { IsHeld chain.old }
    requires part { IsHeld part.now }
    requires many { many ≡ length (entries_of part.now) }
    requires index { IsIndexOf ids.old (forest_of (entries_of chain.old)) }
    ensures held { IsHeld chain.new }
    ensures entries { entries_of chain.new ≡ entries_of chain.old }
    ensures next { length chain.new.slots.items ≡ length chain.old.slots.items }
    ensures room { OnOk result (vec_len chain.new.slots + many ≤ vec_capacity chain.new.slots) }
    ensures noted { OnOk result
        (IsIndexOf ids.new
        (numbered_from (length chain.old.slots.items) (forest_of (entries_of part.now)))) }
    ensures index { IsIndexOf ids.new (forest_of (entries_of chain.old)) }
{
    note_part(alloc, ids, chain, part)?;
    chain.slots.reserve(many)?;
    Ok(())
}

/// Lets go what is known of the ids of a part.
pub(crate) fn let_go(_ids: Option<Holders>) {}

/// What is known of an id.
pub(crate) fn holder_of(ids: &Option<Holders>, id: &[u8]) -> Option<Holder>
    ensures { (node : ℕ) → LeadsTo (known_by ids.now id.now) node → LeadsTo result node }
{
    let Some(holders) = ids else {
        return Some(Holder::Many);
    };
    match str::from_utf8(id) {
        Ok(text) => holders.get(text).copied(),
        Err(_) => Some(Holder::Many),
    }
}

/// The id of the first node that has the attribute.
pub(crate) fn first_with(chain: &Chain, id: &[u8]) -> Option<usize>
    requires { IsChainOf chain.now (entries_of chain.now) }
    ensures { result ≡ entry_id (find (λ e. has_id id.now e.node) (entries_of chain.now)) }
{
    let mut next = chain.first;
    while let Some(now) = next {
        let Some(slot) = slot_of(chain, now) else {
            return None;
        };
        if is_named(&slot.node, id) {
            return Some(now);
        }
        next = slot.next;
    }
    None
}

pub(crate) fn is_named(node: &NewNode, id: &[u8]) -> bool
    ensures { result ≡ has_id id.now node.now }
{
    match node {
        NewNode::Element { attributes, .. } => any_names(attributes.as_slice(), id),
        _ => false,
    }
}

fn any_names(attributes: &[Attr], id: &[u8]) -> bool
    ensures { result ≡ list_any (gives_id id.now) attributes.now }
{
    attributes.iter().any(|attribute| names(attribute, id))
}

fn names(attribute: &Attr, id: &[u8]) -> bool
    ensures { result ≡ gives_id id.now attribute.now }
{
    match &attribute.value {
        Some(value) => attribute.name.as_bytes() == b"id".as_slice() && value.as_bytes() == id,
        None => false,
    }
}
