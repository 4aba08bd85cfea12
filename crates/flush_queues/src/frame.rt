//! A segment that is being printed.

use fizz_segment::SegId;

/// What follows a segment.
#[derive(Clone, Copy, Debug, PartialEq, Eq, Drop)]
pub(crate) enum Closing {
    Nothing,
    /// `/$`, which ends the boundary whose content or fallback the segment is.
    End,
    /// `/$` of a boundary whose content is still to come: it is to be served.
    EndOfLate(u32),
}

/// A segment that is being printed, from a place of its bytes on, with its next kid.
#[derive(Clone, Copy, Debug, PartialEq, Eq, Drop)]
pub(crate) struct Frame {
    pub(crate) segment: SegId,
    pub(crate) place: usize,
    pub(crate) kid: Option<SegId>,
    pub(crate) closing: Closing,
}
