//! A document that is edited.

ghost use Rattle.std.specs.Prelude.{◌≡◌, ◌↔◌, IfErr, IfOk, IfSome, IsNone, IsTrue, OnErr, OnOk, Option, Some, ℕ};
ghost use Rattle.dom_forest.specs.declared.node.NodeId.{NodeId};
ghost use Rattle.dom_forest.specs.Boundary.{end_of_boundary};
ghost use Rattle.dom_forest.specs.Edits.{IsNumbered, DomState, with_appended, inner_of, nothing, part_of, with_before, with_content, with_digest_at, without_node};
ghost use Rattle.dom_forest.specs.Refusals.{IsRefusal};
ghost use Rattle.dom_forest.specs.declared.node.NewNode.TheVariants.{Comment};
ghost use Rattle.dom_forest.specs.Forest.{IsComment, IsElement, IsOneElement, IsThere, MayHaveChildren, times, content_of, first_of, from, kids_of, later_of, next_of, parent_of, previous_of};
ghost use Rattle.dom_forest.specs.Ids.{element_with};
ghost use Rattle.dom_forest.specs.Seen.{number, shown_option, shown_node};

use crate::chain::{self, Chain};
use crate::digest::digest_set;
use crate::ids::{Holders, let_go, make_ready, note_new};
use crate::node::{DomNode, Mark, NewNode, NodeId};
use crate::{edits, queries};
use fizz_text::{OutOfMemory, Text};
use std::alloc::Global;
use std::collections::BTreeMap;
use std::marker::Model;

/// A document whose nodes have ids, as a forest of nodes. A node keeps its id as long as it is there, and the id of a
/// removed node never comes back.
///
/// The nodes stand in a chain in document order, each with its depth and with links to the one before it and the one
/// after it. A node, or that it is not there, is found by its id at once, and so is a first child. A node's other
/// neighbours, and the end of what stands below it, are found by going over the nodes between. An attribute `id` is looked
/// up in an ordered map; only where several elements were given one id, `find_id` goes over the nodes from the front, and
/// so it does in a part that `remove` made, in what `inner` leaves and in a copy. `remove` and `insert_before` move the
/// nodes of the part one by one, and no others. `inner` and `copy` go over all ids that were given.
///
/// By `append` a document is built in document order in time in proportion to its nodes: a new last node is known then
/// to reach to the end, and below a node that is known to, or at the top, `append` goes over no other node. Below any
/// other node it goes over all that stand there. `remove` and `insert_before` leave known what was. After `inner`, and
/// in a part that `remove` made, none is known.
#[derive(Debug, Drop)]
pub struct Dom {
    chain: Chain,
    /// The ids, in document order, of nodes that are known to reach to the end: nothing comes after them but what stands
    /// below them. So a new child of one of them comes last. Some may be gone.
    spine: Vec<usize>,
    /// Where ids are looked up. A part that was taken out has none, and is gone over from the front.
    ids: Option<Holders>,
}

impl Model for Dom {
    ghost use Rattle.std.specs.Prelude.{length};
    ghost use Rattle.dom_forest.specs.Edits.{DomState};
    ghost use Rattle.dom_forest.specs.Stored.{numbered_code};

    ghost Value = { DomState };

    ghost coded = { numbered_code };

    ghost use Rattle.dom_forest.specs.Chain.{entries_of};
    ghost use Rattle.dom_forest.specs.Flat.{forest_of};
    ghost use Rattle.dom_forest.specs.Spine.{IsKept};

    ghost view = { λ d. record { forest = forest_of (entries_of d.chain); next = length d.chain.slots.items } };

    ghost invariant = { λ d. IsKept d.chain d.spine.items d.ids };
}

/// Why a part was not inserted. The part comes back.
#[derive(Debug, Drop)]
pub enum InsertRefused {
    /// The node before which the part was to stand is not there.
    NoPlace { part: Dom },
    OutOfMemory { part: Dom },
}

impl Dom {
    /// The empty document.
    pub fn new(alloc: Global) -> Dom
        ensures { result ≡ nothing }
    {
        Dom {
            chain: chain::nothing(alloc),
            spine: Vec::new(alloc),
            ids: Some(BTreeMap::new(alloc)),
        }
    }

    /// An equal document, with the same ids.
    pub fn copy(&self) -> Result<Dom, OutOfMemory>
        ensures { IfOk result (λ dom. dom ≡ self.now) }
    {
        let chain = chain::copy(&self.chain)?;
        let mut spine = Vec::new(*self.spine.allocator());
        spine.extend_from_slice(&self.spine)?;
        Ok(Dom {
            chain,
            spine,
            ids: None,
        })
    }

    /// Makes the node the last child of an element that is there, or the last node at the top for `None`. A refusal
    /// changes nothing.
    pub fn append(&mut self, parent: Option<NodeId>, node: NewNode) -> Result<NodeId, OutOfMemory>
        requires { MayHaveChildren parent self.old.forest }
        ensures id { IfOk result (λ id. id.0 ≡ self.old.next) }
        ensures ok { OnOk result (self.new ≡ with_appended parent node self.old) }
        ensures err { OnErr result (self.new ≡ self.old) }
        ensures numbered { IsNumbered self.new }
    {
        let alloc = *self.spine.allocator();
        note_new(alloc, &mut self.ids, &self.chain, &node)?;
        let id = edits::append_node(&mut self.chain, &mut self.spine, parent, node)?;
        Ok(id)
    }

    /// The content of a node, or `None` exactly where it is not there.
    pub fn look(&self, node: NodeId) -> Option<DomNode<'_>>
        ensures content { shown_option result ≡ content_of node.0 self.now.forest }
        // each id stands once, and below the next one
        ensures numbered { IsNumbered self.now }
    {
        match queries::content(&self.chain, node.0) {
            Some(content) => Some(seen(content)),
            None => None,
        }
    }

    /// The parent of a node, or `None` exactly where the node is not there or stands at the top.
    pub fn parent(&self, node: NodeId) -> Option<NodeId>
        ensures { number result ≡ parent_of node.0 self.now.forest }
    {
        queries::parent(&self.chain, node.0).map(NodeId)
    }

    /// The previous sibling, or `None` exactly where the node is not there or is the first of its siblings.
    pub fn previous(&self, node: NodeId) -> Option<NodeId>
        ensures { number result ≡ previous_of node.0 self.now.forest }
    {
        queries::previous(&self.chain, node.0).map(NodeId)
    }

    /// The next sibling, or `None` exactly where the node is not there or is the last of its siblings.
    pub fn next(&self, node: NodeId) -> Option<NodeId>
        ensures { number result ≡ next_of node.0 self.now.forest }
    {
        queries::next(&self.chain, node.0).map(NodeId)
    }

    /// The first child of a node, or the first node at the top for `None`; `None` exactly where there is none.
    pub fn first(&self, parent: Option<NodeId>) -> Option<NodeId>
        ensures { number result ≡ first_of parent self.now.forest }
    {
        match parent {
            Some(parent) => queries::first_child(&self.chain, parent.0).map(NodeId),
            None => queries::first_node(&self.chain).map(NodeId),
        }
    }

    /// Makes a comment say something else.
    pub fn set_mark(&mut self, node: NodeId, mark: Mark)
        requires { IsComment (content_of node.0 self.old.forest) }
        ensures { self.new ≡ with_content node.0 (Comment mark) self.old }
    {
        edits::set_content(&mut self.chain, node.0, NewNode::Comment(mark));
    }

    /// Sets the attribute `data-dgst` of an element: it replaces every attribute of that name, at the place of the first,
    /// or comes at the end. A refusal changes nothing.
    pub fn set_digest(&mut self, node: NodeId, digest: Text) -> Result<(), OutOfMemory>
        requires { IsElement (content_of node.0 self.old.forest) }
        ensures ok { OnOk result (self.new ≡ with_digest_at node.0 digest self.old) }
        ensures err { OnErr result (self.new ≡ self.old) }
    {
        if let Some(content) = queries::content(&self.chain, node.0) {
            let content = digest_set(*self.spine.allocator(), content, digest)?;
            edits::set_content(&mut self.chain, node.0, content);
        }
        Ok(())
    }

    /// Whether there is one node at the top, an element.
    pub fn is_one_element(&self) -> bool
        ensures { IsTrue result ↔ IsOneElement self.now.forest }
    {
        queries::is_one_element(&self.chain)
    }

    /// The children of the one node at the top, which is an element. They keep their ids.
    pub fn inner(self) -> Result<Dom, OutOfMemory>
        requires { IsOneElement self.forest }
        ensures { IfOk result (λ dom. dom ≡ inner_of self) }
    {
        let Dom {
            mut chain,
            mut spine,
            ..
        } = self;
        edits::drop_root(&mut chain);
        spine.clear();
        Ok(Dom {
            chain,
            spine,
            ids: None,
        })
    }

    /// Takes a node out with all below it, which becomes a document of its own with ids from 0; `None` exactly where the
    /// node is not there. A refusal changes nothing.
    pub fn remove(&mut self, node: NodeId) -> Result<Option<Dom>, OutOfMemory>
        ensures there { IfOk result (λ part. IsNone part ↔ (times node.0 self.old.forest ≡ 0)) }
        ensures rest { OnOk result (self.new ≡ without_node node.0 self.old) }
        ensures part { IfOk result (λ part. IfSome part (λ dom. dom ≡ part_of node.0 self.old)) }
        ensures err { OnErr result (self.new ≡ self.old) }
    {
        let Some((many, depth)) = edits::part_at(&self.chain, node.0) else {
            return Ok(None);
        };
        let alloc = *self.spine.allocator();
        let mut part = chain::nothing(alloc);
        part.slots.reserve(many)?;
        edits::take_part(&mut self.chain, &mut part, node.0, many, depth);
        Ok(Some(Dom {
            chain: part,
            spine: Vec::new(alloc),
            ids: None,
        }))
    }

    /// Puts the nodes of another document before a node, as its earlier siblings. They get new ids in document order. A
    /// refusal changes nothing and gives the part back.
    pub fn insert_before(&mut self, place: NodeId, part: Dom) -> Result<(), InsertRefused>
        ensures there { OnOk result (IsThere place.0 self.old.forest) }
        ensures ok { OnOk result (self.new ≡ with_before place.0 part self.old) }
        ensures refused { IfErr result (IsRefusal place.0 self.old part) }
        ensures err { OnErr result (self.new ≡ self.old) }
    {
        let Some((_, depth)) = edits::part_at(&self.chain, place.0) else {
            return Err(InsertRefused::NoPlace { part });
        };
        let many = chain::count_all(&part.chain);
        let alloc = *self.spine.allocator();
        match make_ready(alloc, &mut self.chain, &mut self.ids, &part.chain, many) {
            Ok(()) => {
                let Dom { mut chain, ids, .. } = part;
                let_go(ids);
                edits::put_part(&mut self.chain, &mut chain, place.0, many, depth);
                Ok(())
            }
            Err(_) => Err(InsertRefused::OutOfMemory { part }),
        }
    }

    /// The first element in document order with an attribute `id` of this value, or `None` exactly where there is none.
    pub fn find_id(&self, id: &[u8]) -> Option<NodeId>
        ensures { number result ≡ element_with id.now self.now.forest }
    {
        queries::find_id(&self.chain, &self.ids, id).map(NodeId)
    }

    /// The `/$` that ends the boundary of a template, among its later siblings, where `$`, `$?` and `$!` count up and
    /// `/$` down; `None` exactly where there is none.
    pub fn end_of_boundary(&self, template: NodeId) -> Option<NodeId>
        ensures { number result ≡ end_of_boundary template.0 self.now.forest }
    {
        queries::end_of_boundary(&self.chain, template.0).map(NodeId)
    }
}

fn seen(node: &NewNode) -> DomNode<'_>
    ensures { shown_node result ≡ node.now }
{
    match node {
        NewNode::Element { name, attributes } => DomNode::Element {
            name,
            attributes: attributes.as_slice(),
        },
        NewNode::Text(text) => DomNode::Text(text),
        NewNode::Comment(mark) => DomNode::Comment(*mark),
    }
}

/// A walk over a document by `first` and `next` meets its forest: from a node's first child on stand its children, and
/// from its next sibling on its later siblings.
pub fn laws_of_walks()
    ensures kids { (dom : DomState) → IsNumbered dom → (parent : Option NodeId) (child : ℕ) →
        first_of parent dom.forest ≡ Some child
        → from child dom.forest ≡ kids_of parent dom.forest }
    ensures later { (dom : DomState) → IsNumbered dom → (node next : ℕ) →
        next_of node dom.forest ≡ Some next
        → from next dom.forest ≡ later_of node dom.forest }
{}
