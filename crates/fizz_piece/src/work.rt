//! What is to be done for one position.

use fizz_text::Path;
use jsx_value::{Scope, Spot};

/// How a piece begins and ends.
#[derive(Clone, Copy, Debug, PartialEq, Eq, Drop)]
pub struct Flags {
    /// A text stands right before it.
    pub lead: bool,
    /// It stands in another piece, so that a text may stand right behind it.
    pub embedded: bool,
}

/// A position to be rendered, where the first `settled` outcomes are known.
#[derive(Drop)]
pub struct Work<'a> {
    pub task: u32,
    pub claim: u64,
    pub path: Path,
    pub spot: Spot<'a>,
    pub scope: Scope<'a>,
    pub settled: u32,
    pub flags: Flags,
}
