//! Failures outside boundaries.

ghost use Rattle.std.specs.Prelude.{◌≡◌, ◌++◌, [], Bool, IfOk, OnOk};
ghost use Rattle.jsx_value.specs.Spots.{fails};
ghost use Rattle.settled_tree.specs.Final.{settled_nodes};
ghost use Rattle.settled_tree.specs.Layers.{failures_of, has_failed};

use crate::forest::{FNode, Forest};
use fizz_text::{OutOfMemory, Text};
use sqlite_items::Items;
use std::alloc::Global;

/// The digest of a resource that never settles.
const UNSETTLED: &str = "unsettled";

/// The digests of the failures that lie in no boundary's content, in document order. What still waits has failed with
/// the digest `unsettled`.
pub fn shell_failures(alloc: Global, forest: &Forest) -> Result<Items<Text>, OutOfMemory>
    ensures { IfOk result (λ digests. digests ≡ fails (settled_nodes forest.now.nodes)) }
{
    let mut digests = Items::new(alloc);
    push_failures(alloc, &mut digests, forest.nodes.as_slice())?;
    Ok(digests)
}

/// The recursion goes down the nodes, of which at most 256 lie in one another.
#[cycle(failures)]
fn push_failures(
    alloc: Global,
    digests: &mut Items<Text>,
    nodes: &[FNode],
) -> Result<(), OutOfMemory>
    ensures { OnOk result (digests.new ≡ digests.old ++ fails (settled_nodes nodes.now)) }
{
    for node in nodes {
        push_node_failures(alloc, digests, node)?;
    }
    Ok(())
}

#[cycle(failures)]
fn push_node_failures(
    alloc: Global,
    digests: &mut Items<Text>,
    node: &FNode,
) -> Result<(), OutOfMemory>
    ensures { OnOk result (digests.new ≡ digests.old ++ failures_of node.now) }
{
    match node {
        FNode::Element { kids, .. } => push_failures(alloc, digests, kids.as_slice()),
        FNode::Text(_) => Ok(()),
        FNode::Boundary { fallback, .. } => push_failures(alloc, digests, fallback.as_slice()),
        FNode::Fail(digest) => {
            digests.push(digest.copy(alloc)?)?;
            Ok(())
        }
        FNode::Wait { .. } => {
            digests.push(Text::fixed(UNSETTLED))?;
            Ok(())
        }
    }
}

/// Whether a failure or a wait lies in no boundary's content among these nodes.
#[cycle(has_failed)]
pub(crate) fn has_failed(nodes: &[FNode]) -> bool
    ensures { result ≡ has_failed (fails (settled_nodes nodes.now)) }
{
    for node in nodes {
        if node_has_failed(node) {
            return true;
        }
    }
    false
}

#[cycle(has_failed)]
fn node_has_failed(node: &FNode) -> bool
    ensures { result ≡ has_failed (failures_of node.now) }
{
    match node {
        FNode::Element { kids, .. } => has_failed(kids.as_slice()),
        FNode::Text(_) => false,
        FNode::Boundary { fallback, .. } => has_failed(fallback.as_slice()),
        FNode::Fail(_) | FNode::Wait { .. } => true,
    }
}
