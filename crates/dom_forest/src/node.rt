//! The nodes of a document that is edited.

ghost use Rattle.std.specs.Prelude.{◌≡◌, IfOk};

use fizz_text::{Attr, Attributes, OutOfMemory, Text};
use std::alloc::Global;

/// The name of a node within its document. A node keeps it as long as it is there.
#[derive(Clone, Copy, Debug, PartialEq, Eq)]
pub struct NodeId(pub usize);

/// What a comment says: `$`, `$?`, `$!`, `/$` or a space.
#[derive(Clone, Copy, Debug, PartialEq, Eq)]
pub enum Mark {
    /// `$` begins a boundary that is complete.
    Complete,
    /// `$?` begins a boundary that is pending.
    Pending,
    /// `$!` begins a boundary that the client is to render.
    Client,
    /// `/$` ends a boundary.
    End,
    /// A space stands between two texts.
    Space,
}

/// A node as it is put into a document. Its text and the values of its attributes are not escaped.
#[derive(Debug, Drop)]
pub enum NewNode {
    Element { name: Text, attributes: Attributes },
    Text(Text),
    Comment(Mark),
}

impl NewNode {
    /// An equal node.
    pub(crate) fn copy(&self, alloc: Global) -> Result<NewNode, OutOfMemory>
        ensures { IfOk result (λ node. node ≡ self.now) }
    {
        match self {
            NewNode::Element { name, attributes } => Ok(NewNode::Element {
                name: name.copy(alloc)?,
                attributes: attributes.copy(alloc)?,
            }),
            NewNode::Text(text) => Ok(NewNode::Text(text.copy(alloc)?)),
            NewNode::Comment(mark) => Ok(NewNode::Comment(*mark)),
        }
    }
}

/// A node as it is seen in a document.
#[derive(Clone, Copy, Debug)]
pub enum DomNode<'a> {
    Element {
        name: &'a Text,
        attributes: &'a [Attr],
    },
    Text(&'a Text),
    Comment(Mark),
}
