//! Parts in place of holes.

ghost use Rattle.std.specs.Prelude.{◌≡◌, ◌++◌, ◌∷◌, [], IfOk, OnOk};
ghost use Rattle.hole_forest.specs.Filling.{filled_node, filled_nodes, hole_nodes};

use crate::forest::{HForest, HNode};
use fizz_text::OutOfMemory;
use sqlite_items::{Items, at};
use std::alloc::Global;

/// The forest with part k in place of hole k. Holes of a part stay, and so does a hole that has no part.
pub fn fill(alloc: Global, forest: HForest, parts: Items<HForest>) -> Result<HForest, OutOfMemory>
    ensures { IfOk result (λ filled. filled.nodes
        ≡ filled_nodes parts forest.nodes) }
{
    let mut nodes = Items::new(alloc);
    push_filled(alloc, forest.nodes.as_slice(), parts.as_slice(), &mut nodes)?;
    Ok(HForest { nodes })
}

/// The recursion goes down the nodes.
#[cycle(fill)]
fn push_filled(
    alloc: Global,
    nodes: &[HNode],
    parts: &[HForest],
    out: &mut Items<HNode>,
) -> Result<(), OutOfMemory>
    ensures { OnOk result (out.new ≡ out.old ++ filled_nodes parts.now nodes.now) }
{
    for node in nodes {
        push_filled_node(alloc, node, parts, out)?;
    }
    Ok(())
}

#[cycle(fill)]
fn push_filled_node(
    alloc: Global,
    node: &HNode,
    parts: &[HForest],
    out: &mut Items<HNode>,
) -> Result<(), OutOfMemory>
    ensures { OnOk result (out.new ≡ out.old ++ filled_node parts.now node.now) }
{
    match node {
        HNode::Element {
            name,
            attributes,
            kids,
        } => {
            let mut inner = Items::new(alloc);
            push_filled(alloc, kids.as_slice(), parts, &mut inner)?;
            let name = name.copy(alloc)?;
            let attributes = attributes.copy(alloc)?;
            out.push(HNode::Element {
                name,
                attributes,
                kids: inner,
            })?;
        }
        HNode::Text(text) => out.push(HNode::Text(text.copy(alloc)?))?,
        HNode::Hole(number) => push_hole(alloc, *number, parts, out)?,
        HNode::Boundary(number) => out.push(HNode::Boundary(*number))?,
    }
    Ok(())
}

/// Appends what stands in place of a hole.
fn push_hole(
    alloc: Global,
    number: u32,
    parts: &[HForest],
    out: &mut Items<HNode>,
) -> Result<(), OutOfMemory>
    ensures { OnOk result (out.new ≡ out.old ++ hole_nodes parts.now number) }
{
    match at(parts, number as usize) {
        Some(part) => push_copies(alloc, part.nodes.as_slice(), out),
        None => {
            out.push(HNode::Hole(number))?;
            Ok(())
        }
    }
}

#[cycle(copy)]
fn push_copies(alloc: Global, nodes: &[HNode], out: &mut Items<HNode>) -> Result<(), OutOfMemory>
    ensures { OnOk result (out.new ≡ out.old ++ nodes.now) }
{
    for node in nodes {
        let copy = copied(alloc, node)?;
        out.push(copy)?;
    }
    Ok(())
}

#[cycle(copy)]
fn copied(alloc: Global, node: &HNode) -> Result<HNode, OutOfMemory>
    ensures { IfOk result (λ copy. copy ≡ node.now) }
{
    match node {
        HNode::Element {
            name,
            attributes,
            kids,
        } => {
            let mut inner = Items::new(alloc);
            push_copies(alloc, kids.as_slice(), &mut inner)?;
            Ok(HNode::Element {
                name: name.copy(alloc)?,
                attributes: attributes.copy(alloc)?,
                kids: inner,
            })
        }
        HNode::Text(text) => Ok(HNode::Text(text.copy(alloc)?)),
        HNode::Hole(number) => Ok(HNode::Hole(*number)),
        HNode::Boundary(number) => Ok(HNode::Boundary(*number)),
    }
}
