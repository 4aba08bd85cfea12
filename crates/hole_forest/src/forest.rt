//! Forests with holes.

use fizz_text::{Attributes, Text};
use sqlite_items::Items;

/// Elements and texts, with numbered holes and boundaries. Contracts see the nodes as a list.
#[derive(Debug, Drop)]
pub struct HForest {
    pub nodes: Items<HNode>,
}

/// A node of a forest. Printing, filling and dropping one go down by recursion.
#[derive(Debug, Drop)]
pub enum HNode {
    /// An element of HTML with its attributes, whose values aren't escaped.
    Element {
        name: Text,
        attributes: Attributes,
        kids: Items<HNode>,
    },
    Text(Text),
    Hole(u32),
    Boundary(u32),
}

/// How a forest begins and ends.
#[derive(Clone, Copy, Debug, PartialEq, Eq, Drop)]
pub struct Flags {
    /// A text stands right before it.
    pub lead: bool,
    /// It stands in another forest, so that a text may stand right behind it.
    pub embedded: bool,
}

/// Where a hole or a boundary stands in what is printed: so many bytes are before it.
#[derive(Clone, Copy, Debug, PartialEq, Eq, Drop)]
pub struct Cut {
    pub at: usize,
    pub number: u32,
    /// Whether a text stands right before it.
    pub lead: bool,
}
