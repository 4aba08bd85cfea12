//! What the queues are told.

ghost use Rattle.std.specs.Prelude.{◌≡◌, ◌<◌, ◌≤◌, length};
ghost use Rattle.fizz_segment.specs.Tree.{mark_at, part_at};
ghost use Rattle.fizz_boundary.specs.Bounds.{bound_at, mark_at as boundary_mark_at};
ghost use Rattle.fizz_boundary.specs.Calls.{IsMade};
ghost use Rattle.id_lists.specs.Lists.{home_of};
ghost use Rattle.flush_queues.specs.Telling as spec;
ghost use Rattle.flush_queues.specs.Telling.{HasPlaces};

use crate::queues::{Queue, Queues};
use fizz_boundary::{Boundaries, Status};
use fizz_segment::{SegId, SegKind, Segments};

fn is_parent_printed(segments: &Segments, parent: Option<SegId>) -> bool
    ensures { result ≡ spec.parent_is_printed segments.now parent }
{
    let Some(parent) = parent else {
        return true;
    };
    if !segments.is_live(parent) {
        return true;
    }
    segments.look(parent).printed
}

fn is_revealed(boundaries: &Boundaries, boundary: u32) -> bool
    ensures { result ≡ (boundary_mark_at boundaries.now.marks boundary).revealed }
{
    boundaries.mark(boundary).revealed
}

/// Whether a segment that became complete is ready.
pub(crate) fn is_ready(segments: &Segments, boundaries: &Boundaries, segment: SegId) -> bool
    ensures { result ≡ spec.is_ready segments.now boundaries.now segment }
{
    if !segments.is_live(segment) {
        return false;
    }
    let view = segments.look(segment);
    match view.kind {
        SegKind::Root { boundary: _ } => true,
        SegKind::Child => is_parent_printed(segments, view.parent),
        SegKind::Site { boundary } => {
            if is_revealed(boundaries, boundary) {
                return false;
            }
            is_parent_printed(segments, view.parent)
        }
    }
}

fn enter_unless_partial(queues: &mut Queues, boundary: u32)
    requires queues { 3 ≤ length queues.old.boundaries.lists }
    requires made { boundary < queues.old.boundaries.ids }
    ensures { queues.new ≡ spec.entered_unless (home_of boundary queues.old.boundaries.lists) boundary queues.old }
{
    match queues.boundaries.list_of(boundary) {
        None => queues.enter_made(Queue::Partial, boundary),
        Some(number) => {
            if number != Queue::Partial.number() {
                queues.enter_made(Queue::Partial, boundary);
            }
        }
    }
}

fn enter_if_ready(queues: &mut Queues, ready: bool, boundary: u32)
    requires queues { 3 ≤ length queues.old.boundaries.lists }
    requires made { boundary < queues.old.boundaries.ids }
    ensures { queues.new ≡ spec.entered_partial ready boundary queues.old }
{
    if ready {
        enter_unless_partial(queues, boundary);
    }
}

/// Serves a boundary that is printed with its fallback.
fn serve(queues: &mut Queues, boundaries: &Boundaries, ready: bool, boundary: u32)
    requires queues { 3 ≤ length queues.old.boundaries.lists }
    requires made { boundary < queues.old.boundaries.ids }
    ensures { queues.new ≡ spec.bound_served (bound_at boundaries.now.bounds boundary) ready boundary queues.old }
{
    if boundary >= boundaries.next() {
        return;
    }
    match boundaries.status(boundary) {
        Status::Pending { tasks: _ } => enter_if_ready(queues, ready, boundary),
        Status::Complete { bytes: _ } => queues.enter_made(Queue::Completed, boundary),
        Status::Failed { digest: _ } => (),
    }
}

/// Serves a boundary, if it is printed with its fallback and doesn't show its content.
pub(crate) fn serve_if_pending(
    queues: &mut Queues,
    boundaries: &Boundaries,
    ready: bool,
    boundary: u32,
)
    requires queues { 3 ≤ length queues.old.boundaries.lists }
    requires made { boundary < queues.old.boundaries.ids }
    ensures { queues.new ≡ spec.served_if_pending (boundary_mark_at boundaries.now.marks boundary)
        (bound_at boundaries.now.bounds boundary) ready boundary queues.old }
{
    let mark = boundaries.mark(boundary);
    if mark.drawn.is_none() {
        return;
    }
    if mark.revealed {
        return;
    }
    serve(queues, boundaries, ready, boundary);
}
