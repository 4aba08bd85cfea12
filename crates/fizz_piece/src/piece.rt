//! What a work comes to.

use crate::work::Work;
use fizz_text::{Path, Text};
use jsx_value::{Scope, Spot};
use sqlite_items::Items;

/// What was cut out of a piece, and at which of its bytes.
#[derive(Drop)]
pub enum Kid<'a> {
    /// A position that waits for a resource. `lead` tells whether a text stands right before it.
    Hole {
        at: usize,
        path: Path,
        spot: Spot<'a>,
        scope: Scope<'a>,
        resource: Text,
        lead: bool,
    },
    Boundary {
        at: usize,
        path: Path,
        content: Spot<'a>,
        content_scope: Scope<'a>,
        fallback: Spot<'a>,
        fallback_scope: Scope<'a>,
    },
}

/// What a work comes to.
#[derive(Drop)]
pub enum Piece<'a> {
    Done {
        work: Work<'a>,
        bytes: Vec<u8>,
        kids: Items<Kid<'a>>,
    },
    /// The position itself waits.
    Blocked {
        work: Work<'a>,
        resource: Text,
    },
    /// The first failure that no boundary inside the position holds.
    Failed {
        work: Work<'a>,
        digest: Text,
    },
}

/// There was no memory for the piece. The work comes back.
#[derive(Drop)]
pub struct PieceMemory<'a> {
    pub work: Work<'a>,
}
