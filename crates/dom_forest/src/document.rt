//! A document that holds elements and texts alone.

use fizz_text::{Attributes, Text};
use sqlite_items::Items;

/// A document of elements and texts, as the list of its parts in their order. However deep it nests, nothing goes down
/// it by recursion.
#[derive(Debug, Drop)]
pub struct Doc {
    pub parts: Items<DocPart>,
}

/// A part of a document. The text and the values of attributes are not escaped. An element that no part ends runs to the
/// end of the document, and an end of nothing is passed over.
#[derive(Debug, Drop)]
pub enum DocPart {
    /// An element begins, and its children follow.
    Element { name: Text, attributes: Attributes },
    Text(Text),
    /// The innermost element that is open ends.
    End,
}

/// A node of a document as contracts see it. No value of it is made, since it would be dropped by recursion.
pub enum DocNode {
    Element {
        name: Text,
        attributes: Attributes,
        kids: Items<DocNode>,
    },
    Text(Text),
}
