//! What stands where in a document, by its chain.

ghost use Rattle.std.specs.Prelude.{◌≡◌, ◌↔◌, IsTrue, Some};
ghost use Rattle.std.specs.Option.{option_copied};
ghost use Rattle.dom_forest.specs.Ids.{element_with, has_id};
ghost use Rattle.dom_forest.specs.Boundary.{end_of_boundary};
ghost use Rattle.dom_forest.specs.Chain.{entries_of};
ghost use Rattle.dom_forest.specs.Flat.{forest_of};
ghost use Rattle.dom_forest.specs.Forest.{IsElement, IsOneElement, content_of, first_id, first_kids, from, next_of, parent_of, previous_of};
ghost use Rattle.dom_forest.specs.Index.{IsIndexOf, is_content};
ghost use Rattle.dom_forest.specs.Spine.{IsHeld};

use crate::boundary::closing_after;
use crate::chain::{Chain, slot_of};
use crate::entry::{deeper_at, level_at, parent_before, passed, previous_before};
use crate::ids::{Holder, Holders, first_with, holder_of, is_named};
use crate::node::NewNode;

pub(crate) fn content(chain: &Chain, id: usize) -> Option<&NewNode>
    requires { IsHeld chain.now }
    ensures { option_copied result ≡ content_of id (forest_of (entries_of chain.now)) }
{
    match slot_of(chain, id) {
        Some(slot) => Some(&slot.node),
        None => None,
    }
}

pub(crate) fn parent(chain: &Chain, id: usize) -> Option<usize>
    requires { IsHeld chain.now }
    ensures { result ≡ parent_of id (forest_of (entries_of chain.now)) }
{
    match slot_of(chain, id) {
        Some(slot) => parent_before(chain, slot.previous, slot.depth),
        None => None,
    }
}

pub(crate) fn previous(chain: &Chain, id: usize) -> Option<usize>
    requires { IsHeld chain.now }
    ensures { result ≡ previous_of id (forest_of (entries_of chain.now)) }
{
    match slot_of(chain, id) {
        Some(slot) => previous_before(chain, slot.previous, slot.depth),
        None => None,
    }
}

pub(crate) fn next(chain: &Chain, id: usize) -> Option<usize>
    requires { IsHeld chain.now }
    ensures { result ≡ next_of id (forest_of (entries_of chain.now)) }
{
    match slot_of(chain, id) {
        Some(slot) => level_at(chain, passed(chain, slot.next, slot.depth).1, slot.depth),
        None => None,
    }
}

pub(crate) fn first_child(chain: &Chain, id: usize) -> Option<usize>
    requires { IsHeld chain.now }
    ensures { result ≡ first_id (first_kids (from id (forest_of (entries_of chain.now)))) }
{
    match slot_of(chain, id) {
        Some(slot) => deeper_at(chain, slot.next, slot.depth),
        None => None,
    }
}

pub(crate) fn first_node(chain: &Chain) -> Option<usize>
    requires { IsHeld chain.now }
    ensures { result ≡ first_id (forest_of (entries_of chain.now)) }
{
    chain.first
}

pub(crate) fn end_of_boundary(chain: &Chain, id: usize) -> Option<usize>
    requires { IsHeld chain.now }
    ensures { result ≡ end_of_boundary id (forest_of (entries_of chain.now)) }
{
    match slot_of(chain, id) {
        Some(slot) => closing_after(chain, slot.next, slot.depth),
        None => None,
    }
}

/// Whether a node is there and has the attribute.
fn is_holder(chain: &Chain, node: usize, id: &[u8]) -> bool
    requires { IsHeld chain.now }
    ensures { result
        ≡ is_content (has_id id.now) (content_of node (forest_of (entries_of chain.now))) }
{
    match content(chain, node) {
        Some(node) => is_named(node, id),
        None => false,
    }
}

pub(crate) fn find_id(chain: &Chain, ids: &Option<Holders>, id: &[u8]) -> Option<usize>
    requires held { IsHeld chain.now }
    requires index { IsIndexOf ids.now (forest_of (entries_of chain.now)) }
    ensures { result ≡ element_with id.now (forest_of (entries_of chain.now)) }
{
    match holder_of(ids, id) {
        None => None,
        Some(Holder::One(node)) => is_holder(chain, node, id).then_some(node),
        Some(Holder::Many) => first_with(chain, id),
    }
}

/// Whether there is one node at the top, an element.
pub(crate) fn is_one_element(chain: &Chain) -> bool
    requires { IsHeld chain.now }
    ensures { IsTrue result ↔ IsOneElement (forest_of (entries_of chain.now)) }
{
    let Some(id) = chain.first else {
        return false;
    };
    match slot_of(chain, id) {
        Some(root) => { is_element(&root.node) && passed(chain, root.next, root.depth).1.is_none() }
        None => false,
    }
}

fn is_element(node: &NewNode) -> bool
    ensures { IsTrue result ↔ IsElement (Some node.now) }
{
    matches!(node, NewNode::Element { .. })
}
