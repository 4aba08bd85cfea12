//! The final document of a forest.

ghost use Rattle.std.specs.Prelude.{◌≡◌, ◌++◌, [], IfOk, OnOk};
ghost use Rattle.dom_forest.specs.Documents.{nodes_in};
ghost use Rattle.jsx_value.specs.Spots.{fails};
ghost use Rattle.settled_tree.specs.Final.{final_document, settled_nodes};
ghost use Rattle.settled_tree.specs.Layers.{parts_of, shown_nodes};

use crate::forest::{FNode, Forest};
use crate::shell::has_failed;
use dom_forest::{Doc, DocPart};
use fizz_text::OutOfMemory;
use sqlite_items::Items;
use std::alloc::Global;

/// The final document of a forest: a boundary shows its content where nothing of that has failed, and its fallback
/// elsewhere. What still waits has failed.
pub fn final_of(alloc: Global, forest: &Forest) -> Result<Doc, OutOfMemory>
    requires { fails (settled_nodes forest.now.nodes) ≡ [] }
    ensures { IfOk result (λ doc. nodes_in doc.parts
        ≡ final_document (settled_nodes forest.now.nodes)) }
{
    let mut parts = Items::new(alloc);
    push_nodes(alloc, &mut parts, forest.nodes.as_slice())?;
    Ok(Doc { parts })
}

/// The recursion goes down the nodes, of which at most 256 lie in one another.
#[cycle(shown)]
fn push_nodes(alloc: Global, parts: &mut Items<DocPart>, nodes: &[FNode]) -> Result<(), OutOfMemory>
    ensures { OnOk result (parts.new
        ≡ parts.old ++ parts_of (final_document (settled_nodes nodes.now))) }
{
    for node in nodes {
        push_node(alloc, parts, node)?;
    }
    Ok(())
}

#[cycle(shown)]
fn push_node(alloc: Global, parts: &mut Items<DocPart>, node: &FNode) -> Result<(), OutOfMemory>
    ensures { OnOk result (parts.new ≡ parts.old ++ parts_of (shown_nodes node.now)) }
{
    match node {
        FNode::Element {
            name,
            attributes,
            kids,
        } => {
            let name = name.copy(alloc)?;
            let attributes = attributes.copy(alloc)?;
            parts.push(DocPart::Element { name, attributes })?;
            push_nodes(alloc, parts, kids.as_slice())?;
            parts.push(DocPart::End)?;
            Ok(())
        }
        FNode::Text(text) => {
            parts.push(DocPart::Text(text.copy(alloc)?))?;
            Ok(())
        }
        FNode::Boundary {
            content,
            fallback,
            ..
        } => {
            if has_failed(content.as_slice()) {
                push_nodes(alloc, parts, fallback.as_slice())
            } else {
                push_nodes(alloc, parts, content.as_slice())
            }
        }
        FNode::Fail(_) | FNode::Wait { .. } => Ok(()),
    }
}
