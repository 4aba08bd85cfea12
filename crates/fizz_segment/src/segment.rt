use sqlite_items::Items;
use std::marker::Model;

/// The number of a segment.
#[derive(Clone, Copy, Debug, PartialEq, Eq)]
pub struct SegId(pub u32);

impl Model for SegId {
    ghost use Rattle.std.specs.Prelude.{ℕ};

    ghost Value = { ℕ };

    ghost view = { λ id. id.0 };

    ghost inverse = { λ number. record { 0 = number } };
}

/// What a segment's printing carries over: whether a separator would be due at its beginning, and whether text may stand
/// beside it.
#[derive(Clone, Copy, Debug, PartialEq, Eq)]
pub struct Flags {
    pub lead: bool,
    pub embedded: bool,
}

/// The content of the shell or of a boundary, a part that was cut out of its parent, or the place of a boundary's
/// fallback.
#[derive(Clone, Copy, Debug, PartialEq, Eq)]
pub enum SegKind {
    Root { boundary: Option<u32> },
    Child,
    Site { boundary: u32 },
}

/// Where a segment stands, and its bytes once it is complete.
#[derive(Debug, Drop)]
pub struct Part {
    pub kind: SegKind,
    pub parent: Option<SegId>,
    pub at: usize,
    pub bytes: Option<Items<u8>>,
}

/// How a segment is printed.
#[derive(Clone, Copy, Debug, PartialEq, Eq)]
pub struct Mark {
    pub flags: Flags,
    pub drawn: Option<u32>,
    pub printed: bool,
}

/// A segment.
#[derive(Clone, Copy)]
pub struct SegView<'a> {
    pub kind: SegKind,
    pub parent: Option<SegId>,
    /// Where it stands in the bytes of its parent.
    pub at: usize,
    pub flags: Flags,
    /// There exactly where it is complete.
    pub bytes: Option<&'a [u8]>,
    /// Its first live kid.
    pub first: Option<SegId>,
    /// The following live kid of its parent.
    pub next: Option<SegId>,
    /// The id of its placeholder.
    pub drawn: Option<u32>,
    pub printed: bool,
}
