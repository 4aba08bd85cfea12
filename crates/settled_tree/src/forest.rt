//! The expansion of a page as a tree of nodes.

use fizz_text::{Attributes, Path, Text};
use sqlite_items::Items;

/// All positions of a page as nested nodes. Contracts see the nodes as a list.
#[derive(Debug, Drop)]
pub struct Forest {
    pub nodes: Items<FNode>,
}

/// A node of an expansion. At most 256 elements and boundaries lie in one another where the app is accepted, and
/// dropping, printing and reading a forest go down by recursion.
#[derive(Debug, Drop)]
pub enum FNode {
    /// An element of HTML with its printed attributes, whose values aren't escaped.
    Element {
        name: Text,
        attributes: Attributes,
        kids: Items<FNode>,
    },
    Text(Text),
    Boundary {
        path: Path,
        content: Items<FNode>,
        fallback: Items<FNode>,
    },
    /// A component has failed, with this digest.
    Fail(Text),
    /// A component waits for a resource that isn't settled.
    Wait {
        resource: Text,
        path: Path,
    },
}
