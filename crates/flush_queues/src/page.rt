//! What a flush only reads.

ghost use Rattle.std.specs.Prelude.{◌≡◌};
ghost use Rattle.fizz_segment.specs.Calls.{IsLive, is_complete};
ghost use Rattle.fizz_segment.specs.Tree.{part_at};
ghost use Rattle.flush_queues.specs.Flows.{root_at, site_of, stage_at, way_at};
ghost use Rattle.flush_queues.specs.Frames.{IsWay, stage_kind, tables_of};

use crate::flow::Flow;
use fizz_boundary::{Boundaries, Status};
use fizz_segment::{SegId, SegKind, Segments};
use fizz_text::Text;

/// The segments and boundaries of a page, but for how they are printed, and the options of a flush.
#[derive(Clone, Copy)]
pub(crate) struct Page<'a> {
    pub(crate) prefix: &'a Text,
    pub(crate) progressive: u32,
    pub(crate) segments: &'a Segments,
    pub(crate) boundaries: &'a Boundaries,
}

/// How a segment stands for who prints it.
#[derive(Clone, Copy, Debug, PartialEq, Eq, Drop)]
pub(crate) enum Stage {
    /// It is forgotten, or printed already.
    Passed,
    /// Its bytes are still to come.
    Pending,
    Complete,
}

/// How a boundary is printed in the bytes around it.
#[derive(Clone, Copy)]
pub(crate) enum Way<'a> {
    /// With its fallback, as its content has failed with this digest.
    Failed(&'a Text),
    /// With its content.
    Inline,
    /// With its fallback, until the content comes.
    Late,
}

pub(crate) fn stage_at(page: Page<'_>, flow: &Flow, segment: SegId) -> Stage
    ensures stage { result ≡ stage_kind (stage_at (tables_of page.entry) flow.now segment) }
    ensures live { result ≡ Stage.Complete → IsLive page.entry.segments.now segment }
{
    if !page.segments.is_live(segment) {
        return Stage::Passed;
    }
    if flow.segments.mark(segment).printed {
        return Stage::Passed;
    }
    match page.segments.look(segment).bytes {
        Some(_) => Stage::Complete,
        None => Stage::Pending,
    }
}

/// The boundary in whose place a segment stands as its fallback.
pub(crate) fn site(segments: &Segments, segment: SegId) -> Option<u32>
    ensures { result ≡ site_of (part_at segments.now.parts segment) }
{
    if !segments.is_live(segment) {
        return None;
    }
    match segments.look(segment).kind {
        SegKind::Root { boundary: _ } => None,
        SegKind::Child => None,
        SegKind::Site { boundary } => Some(boundary),
    }
}

pub(crate) fn way_at<'a>(page: Page<'a>, boundary: u32) -> Way<'a>
    ensures { IsWay (way_at (tables_of page.entry) boundary) result }
{
    if boundary >= page.boundaries.next() {
        return Way::Late;
    }
    match page.boundaries.status(boundary) {
        Status::Pending { tasks: _ } => Way::Late,
        Status::Complete { bytes } => {
            if bytes <= page.progressive as u64 {
                Way::Inline
            } else {
                Way::Late
            }
        }
        Status::Failed { digest } => Way::Failed(digest),
    }
}

/// The segment of a boundary's content.
pub(crate) fn root(page: Page<'_>, boundary: u32) -> SegId
    ensures { result ≡ root_at (tables_of page.entry) boundary }
{
    if boundary < page.boundaries.next() {
        page.boundaries.look(boundary).root
    } else {
        SegId(0)
    }
}
