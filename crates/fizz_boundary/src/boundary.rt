use fizz_segment::SegId;
use fizz_text::{Path, Text};

/// How far a boundary is, with the bytes of all finished pieces of its tasks.
#[derive(Debug, Drop)]
pub enum State {
    Pending { tasks: u32, bytes: u64 },
    Complete { bytes: u64 },
    Failed { digest: Text },
}

/// A boundary: where it stands, the boundary around it, and the segments of its content and its fallback.
#[derive(Debug, Drop)]
pub struct Bound {
    pub path: Path,
    pub parent: Option<u32>,
    pub root: SegId,
    pub site: Option<SegId>,
    pub state: State,
}

/// How a boundary is printed.
#[derive(Clone, Copy, Debug, PartialEq, Eq)]
pub struct Mark {
    pub drawn: Option<u32>,
    pub revealed: bool,
}

/// A boundary.
#[derive(Clone, Copy, Debug, PartialEq, Eq)]
pub struct BoundaryView {
    /// The boundary around it, or the shell for `None`.
    pub parent: Option<u32>,
    /// The segment of its content.
    pub root: SegId,
    /// The segment of its fallback, unless that was printed before.
    pub site: Option<SegId>,
    /// The id that it is printed with while it is pending.
    pub drawn: Option<u32>,
    /// Whether it is printed as complete, or its instruction is printed.
    pub revealed: bool,
}

/// Whether tasks of a boundary are left.
#[derive(Clone, Copy, Debug, PartialEq, Eq)]
pub enum Part {
    Waiting,
    Complete,
}

/// How far a boundary is.
#[derive(Clone, Copy, Debug)]
pub enum Status<'a> {
    /// So many of its own tasks are left, more than none.
    Pending { tasks: u32 },
    Complete { bytes: u64 },
    Failed { digest: &'a Text },
}
