//! Failures.

ghost use Rattle.std.specs.Prelude.{◌≡◌, ◌<◌, [], length, slice_set, Some};
ghost use Rattle.fizz_boundary.specs.Bounds.{tasks_left, bound_at};
ghost use Rattle.fizz_boundary.specs.Calls.{IsPending};
ghost use Rattle.id_lists.specs.Lists.{list_at};
ghost use Rattle.request_state.specs.Core.{core_of};
ghost use Rattle.request_state.specs.Failing as spec;
ghost use Rattle.request_state.specs.Failing.{FailsBoundary, all_forgotten, forgotten_unless_printed, outer_of, with_dropped, with_shell_failed};

use crate::job::Job;
use crate::state::State;
use fizz_boundary::Boundaries;
use fizz_segment::{SegId, Segments};
use fizz_task::Tasks;
use fizz_text::Text;
use flush_queues::Queues;
use id_lists::IdLists;
use std::alloc::Global;

impl<'a> State<'a> {
    /// The shell fails, and nothing is left of the page.
    pub(crate) fn fail_shell(&mut self, alloc: Global, digest: Text)
        ensures failed { core_of self.new ≡ with_shell_failed digest (core_of self.old) }
        ensures plan { self.new.plan ≡ self.old.plan }
    {
        end_tasks(&mut self.tasks, self.boundaries.next());
        self.claims.clear();
        self.shell_tasks = 0;
        self.segments = Segments::new(alloc);
        self.own = IdLists::new(alloc);
        self.boundaries = Boundaries::new(alloc);
        self.queues = Queues::new(alloc, self.queues.next(), None);
        self.failure = Some(digest);
    }

    /// A boundary fails, and what belongs to it and to those inside goes.
    pub(crate) fn fail_boundary(&mut self, boundary: u32, digest: Text)
        requires { IsPending self.old.boundaries boundary }
        ensures failed { FailsBoundary boundary digest (core_of self.old) (core_of self.new) }
        ensures plan { self.new.plan ≡ self.old.plan }
    {
        self.drop_within(boundary);
        self.boundaries.fail(boundary, digest);
        self.queues.boundary_failed(&self.boundaries, boundary);
    }

    /// What belongs to a boundary and to those inside goes.
    fn drop_within(&mut self, boundary: u32)
        ensures dropped { spec.DropsWithin boundary (core_of self.old) (core_of self.new) }
        ensures boundaries { self.new.boundaries ≡ self.old.boundaries }
        ensures plan { self.new.plan ≡ self.old.plan }
    {
        'boundaries: for inner in 0..self.boundaries.next() {
            self.drop_if_within(boundary, inner);
        }
    }

    /// What belongs to a boundary goes, if it is within another.
    fn drop_if_within(&mut self, boundary: u32, inner: u32)
        ensures dropped { core_of self.new ≡ spec.dropped_if
            (spec.is_within self.old.boundaries.bounds boundary inner) inner (core_of self.old) }
        ensures boundaries { self.new.boundaries ≡ self.old.boundaries }
        ensures plan { self.new.plan ≡ self.old.plan }
    {
        if is_within(&self.boundaries, boundary, inner) {
            self.drop_boundary(inner);
        }
    }

    /// What belongs to a boundary goes.
    fn drop_boundary(&mut self, boundary: u32)
        ensures dropped { core_of self.new ≡ with_dropped boundary (core_of self.old) }
        ensures boundaries { self.new.boundaries ≡ self.old.boundaries }
        ensures plan { self.new.plan ≡ self.old.plan }
    {
        self.tasks.drop_owned(Some(boundary));
        forget_all(&mut self.segments, &mut self.own, boundary);
        self.queues.drop_boundary(boundary);
    }
}

/// Forgets the segments of a list that aren't printed, and empties the list.
fn forget_all(segments: &mut Segments, own: &mut IdLists, list: u32)
    ensures segments { segments.new ≡ all_forgotten (list_at own.old.lists list) segments.old }
    ensures own { own.new ≡ record own.old { lists = slice_set own.old.lists list [] } }
{
    if list >= own.list_count() {
        return;
    }
    'segments: while let Some(segment) = own.first(list) {
        own.remove(segment);
        forget_unless_printed(segments, SegId(segment));
    }
}

/// Forgets a segment, unless it is printed.
fn forget_unless_printed(segments: &mut Segments, segment: SegId)
    ensures { segments.new ≡ forgotten_unless_printed segment segments.old }
{
    if segments.mark(segment).printed {
        return;
    }
    if segments.is_live(segment) {
        segments.forget(segment);
    }
}

/// The boundary around a boundary, if that was made and there is one.
pub(crate) fn outer(boundaries: &Boundaries, inner: u32) -> Option<u32>
    ensures { result ≡ outer_of (bound_at boundaries.now.bounds inner) }
{
    if inner >= boundaries.next() {
        return None;
    }
    boundaries.look(inner).parent
}

/// Whether a boundary is this one, or stands inside it.
fn is_within(boundaries: &Boundaries, boundary: u32, inner: u32) -> bool
    ensures { result ≡ spec.is_within boundaries.now.bounds boundary inner }
{
    if inner >= boundaries.next() {
        return false;
    }
    let mut around = Some(inner);
    'around: for step in 0..boundaries.next() {
        let Some(one) = around else {
            return false;
        };
        if one == boundary {
            return true;
        }
        around = outer(boundaries, one);
    }
    false
}

/// The shell's tasks go, and those of so many boundaries.
fn end_tasks<'a>(tasks: &mut Tasks<Job<'a>>, boundaries: u32)
    ensures { tasks.new ≡ spec.all_tasks_dropped boundaries tasks.old }
{
    tasks.drop_owned(None);
    'boundaries: for boundary in 0..boundaries {
        tasks.drop_owned(Some(boundary));
    }
}
