//! The shapes of positions.

use fizz_text::{Attributes, Text};
use sqlite_items::{Boxed, Items};

/// What a position is once all is opened that needs no step, over what is kept of the positions inside.
#[derive(Debug, Drop)]
pub enum Shape<K> {
    Nothing,
    Text(Text),
    /// An element of HTML with its printed attributes, whose values aren't escaped.
    Element {
        name: Text,
        attributes: Attributes,
        kids: Items<K>,
    },
    Array {
        kids: Items<K>,
    },
    Boundary {
        content: Boxed<K>,
        fallback: Boxed<K>,
    },
    /// A component waits for a resource that isn't settled.
    Wait {
        resource: Text,
    },
    /// A component has failed.
    Fail {
        digest: Text,
    },
}

/// All positions of a page, opened: each with the number of calls that were opened on the way to its shape. At most 256
/// nodes of the source and 100 lists of a value lie around a position.
#[derive(Debug, Drop)]
pub struct Tree {
    pub calls: u64,
    pub shape: Shape<Tree>,
}
