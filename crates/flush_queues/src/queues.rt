//! The queues of a page.

ghost use Rattle.std.specs.Prelude.{◌≡◌, ◌<◌, ◌≤◌, ◌+◌, ◌^◌, ◌↔◌, [], length, slice_set, IsTrue, IsFalse, IfOk, OnOk, OnErr, None};
ghost use Rattle.flush_queues.specs.Flushed.{AreAsMany, IsFlushed, tables_with};
ghost use Rattle.flush_queues.specs.Flushing.{Flushes};
ghost use Rattle.fizz_boundary.specs.Bounds.{mark_at as boundary_mark_at};
ghost use Rattle.id_lists.specs.Lists.{times_in_all};
ghost use Rattle.id_lists.specs.Calls.{with_pushed, without};

use crate::flow::Flow;
use crate::flushing::flush_flow;
use crate::output::Output;
use crate::page::Page;
use crate::telling::{is_ready, serve_if_pending};
use fizz_boundary::Boundaries;
use fizz_instructions::SentFunctions;
use fizz_segment::{SegId, Segments};
use fizz_text::{OutOfMemory, Text};
use id_lists::IdLists;
use std::alloc::Global;

/// A queue of boundaries.
#[derive(Clone, Copy, Debug, PartialEq, Eq)]
pub enum Queue {
    /// They have failed since they were printed, and wait for their instruction.
    ClientRendered,
    /// They are complete, and wait for what is left of them and for their instruction.
    Completed,
    /// They aren't complete, and have segments that are ready.
    Partial,
}

impl Queue {
    ghost use Rattle.flush_queues.specs.Queues.{number_of};

    pub(crate) fn number(self) -> u32
        ensures number { result ≡ number_of self }
        ensures few { result < 3 }
    {
        match self {
            Queue::ClientRendered => 0,
            Queue::Completed => 1,
            Queue::Partial => 2,
        }
    }
}

/// What is still to be sent of a page: the ready segments of each boundary, and the queues of boundaries. Beside them the
/// next id, the functions that were sent, and the shell's root segment until it is printed.
#[derive(Debug, Drop)]
pub struct Queues {
    pub(crate) ready: IdLists,
    pub(crate) boundaries: IdLists,
    pub(crate) next: u32,
    pub(crate) sent: SentFunctions,
    pub(crate) shell: Option<SegId>,
}

impl Queues {
    ghost use Rattle.id_lists.specs.Lists.{first_of};
    ghost use Rattle.flush_queues.specs.Queues.{HasNothingQueued, HasRoom, new_queues, queue_of, with_boundary, with_entered, with_queues, with_segment, without_boundary, without_ready, without_room};
    ghost use Rattle.flush_queues.specs.Telling.{HasPlaces, HasPlacesIf, with_done, with_dropped, with_entered_if_made, with_failed, with_ready};

    /// Queues of a page of which nothing is printed. For `None` its shell counts as printed.
    pub fn new(alloc: Global, next: u32, shell: Option<SegId>) -> Queues
        ensures { result ≡ new_queues next shell }
    {
        Queues {
            ready: IdLists::new(alloc),
            boundaries: IdLists::new(alloc),
            next,
            sent: SentFunctions::none(),
            shell,
        }
    }

    /// The id that is drawn next.
    pub fn next(&self) -> u32
        ensures { result ≡ self.now.next }
    {
        self.next
    }

    /// Makes the three queues, where they aren't there. A refusal changes nothing but what room there is.
    pub fn make_queues(&mut self) -> Result<(), OutOfMemory>
        ensures ok { OnOk result (without_room self.new ≡ with_queues (without_room self.old)) }
        ensures err { OnErr result (without_room self.new ≡ without_room self.old) }
    {
        if self.boundaries.list_count() > 0 {
            return Ok(());
        }
        self.boundaries.reserve(3, 0)?;
        self.boundaries.add_list();
        self.boundaries.add_list();
        self.boundaries.add_list();
        Ok(())
    }

    /// Makes room for so many segments and boundaries more. Nothing else changes, also after a refusal.
    pub fn reserve(&mut self, segments: u32, boundaries: u32) -> Result<(), OutOfMemory>
        ensures room { OnOk result (HasRoom segments boundaries self.new) }
        ensures same { without_room self.new ≡ without_room self.old }
    {
        if segments > u32::MAX - self.ready.id_count() {
            return Err(OutOfMemory);
        }
        if boundaries > u32::MAX - self.ready.list_count() {
            return Err(OutOfMemory);
        }
        if boundaries > u32::MAX - self.boundaries.id_count() {
            return Err(OutOfMemory);
        }
        self.ready.reserve(boundaries, segments)?;
        self.boundaries.reserve(0, boundaries)
    }

    /// Is told that a segment was made.
    pub fn add_segment(&mut self)
        requires { 0 < self.old.ready.spare_ids }
        ensures { self.new ≡ with_segment self.old }
    {
        self.ready.add_id();
    }

    /// Is told that a boundary was made.
    pub fn add_boundary(&mut self)
        requires list { 0 < self.old.ready.spare_lists }
        requires boundary { 0 < self.old.boundaries.spare_ids }
        ensures { self.new ≡ with_boundary self.old }
    {
        self.ready.add_list();
        self.boundaries.add_id();
    }

    /// The first boundary of a queue.
    pub(crate) fn first(&self, queue: Queue) -> Option<u32>
        ensures { result ≡ first_of (queue_of self.now queue) }
    {
        self.boundaries.first(queue.number())
    }

    /// Appends one flush, and tells whether a queue holds something after it. A budget above 0 ends it after the first
    /// unit with which so many bytes are written; boundaries of at most `progressive` bytes of their own stand in their
    /// places. A refusal leaves everything as before.
    ///
    /// It works on copies of how segments and boundaries are printed and of the queues, which takes time in proportion to
    /// the segments that were made.
    pub fn flush(
        &mut self,
        alloc: Global,
        segments: &mut Segments,
        boundaries: &mut Boundaries,
        prefix: &Text,
        progressive: u32,
        budget: u32,
        out: &mut Vec<u8>,
    ) -> Result<bool, OutOfMemory>
        ensures flushed { OnOk result (IsFlushed prefix.now progressive budget segments.old segments.new
            boundaries.old boundaries.new self.old self.new out.old.items out.new.items) }
        ensures more { IfOk result (λ more. IsFalse more ↔ HasNothingQueued self.new) }
        ensures segments_kept { OnErr result (segments.new ≡ segments.old) }
        ensures boundaries_kept { OnErr result (boundaries.new ≡ boundaries.old) }
        ensures queues_kept { OnErr result (self.new ≡ self.old) }
        ensures out_kept { OnErr result (out.new.items ≡ out.old.items) }
    {
        let mut flow = Flow {
            segments: segments.marks(alloc)?,
            boundaries: boundaries.marks(alloc)?,
            queues: self.copy(alloc)?,
            out: Output::new(alloc),
        };
        run(
            alloc,
            prefix,
            progressive,
            segments,
            boundaries,
            &mut flow,
            budget,
        )?;
        out.extend_from_slice(flow.out.as_slice())?;
        segments.set_marks(&flow.segments);
        boundaries.set_marks(&flow.boundaries);
        *self = flow.queues;
        Ok(!self.is_empty())
    }

    /// Whether a queue holds no boundary.
    fn has_none(&self, queue: Queue) -> bool
        ensures { IsTrue result ↔ (queue_of self.now queue ≡ []) }
    {
        self.boundaries.first(queue.number()).is_none()
    }

    /// Whether the shell is sent.
    pub fn is_shell_sent(&self) -> bool
        ensures { IsTrue result ↔ (self.now.shell ≡ None) }
    {
        self.shell.is_none()
    }

    /// Whether no queue holds a boundary.
    pub fn is_empty(&self) -> bool
        ensures { IsTrue result ↔ HasNothingQueued self.now }
    {
        if !self.has_none(Queue::ClientRendered) {
            return false;
        }
        if !self.has_none(Queue::Completed) {
            return false;
        }
        self.has_none(Queue::Partial)
    }

    /// A segment isn't ready any more.
    pub(crate) fn unready(&mut self, segment: SegId)
        ensures { self.new ≡ without_ready segment self.old }
    {
        remove(&mut self.ready, segment.0);
    }

    /// A boundary leaves its queue.
    pub(crate) fn leave(&mut self, boundary: u32)
        ensures { self.new ≡ without_boundary boundary self.old }
    {
        remove(&mut self.boundaries, boundary);
    }

    /// A boundary leaves its queue and becomes the last of this one.
    pub(crate) fn enter_made(&mut self, queue: Queue, boundary: u32)
        requires queues { 3 ≤ length self.old.boundaries.lists }
        requires made { boundary < self.old.boundaries.ids }
        ensures { self.new ≡ with_entered queue boundary self.old }
    {
        self.leave(boundary);
        self.boundaries.push(queue.number(), boundary);
    }

    /// A segment becomes the last of its boundary's ready ones.
    fn make_ready(&mut self, boundary: u32, segment: SegId)
        requires { HasPlaces segment boundary self.old }
        ensures { self.new ≡ with_ready boundary segment self.old }
    {
        self.unready(segment);
        self.ready.push(boundary, segment.0);
    }

    /// Is told of a segment that became complete, after its task was counted. The owner is its boundary, or none for the
    /// shell.
    pub fn segment_done(
        &mut self,
        segments: &Segments,
        boundaries: &Boundaries,
        id: SegId,
        owner: Option<u32>,
    )
        requires { HasPlacesIf id owner self.old }
        ensures { self.new ≡ with_done segments.now boundaries.now id owner self.old }
    {
        let Some(boundary) = owner else {
            return;
        };
        let ready = is_ready(segments, boundaries, id);
        if ready {
            self.make_ready(boundary, id);
        }
        serve_if_pending(self, boundaries, ready, boundary);
    }

    /// Whether there is a place for a segment and its boundary.
    pub fn has_places(&self, segment: SegId, boundary: u32) -> bool
        ensures { IsTrue result ↔ HasPlaces segment boundary self.now }
    {
        self.boundaries.list_count() >= 3
            && segment.0 < self.ready.id_count()
            && boundary < self.ready.list_count()
            && boundary < self.boundaries.id_count()
    }

    /// Nothing of a boundary is sent any more: its ready segments aren't, and it leaves its queue.
    pub fn drop_boundary(&mut self, boundary: u32)
        ensures { self.new ≡ with_dropped boundary self.old }
    {
        clear(&mut self.ready, boundary);
        self.leave(boundary);
    }

    /// A boundary leaves its queue and becomes the last of this one, if it was made.
    fn enter_if_made(&mut self, queue: Queue, boundary: u32)
        ensures { self.new ≡ with_entered_if_made queue boundary self.old }
    {
        self.leave(boundary);
        if boundary < self.boundaries.id_count() {
            append(&mut self.boundaries, queue.number(), boundary);
        }
    }

    /// Is told that a boundary failed. If it is printed with its fallback, it waits for its instruction.
    pub fn boundary_failed(&mut self, boundaries: &Boundaries, boundary: u32)
        ensures { self.new ≡ with_failed (boundary_mark_at boundaries.now.marks boundary) boundary self.old }
    {
        let mark = boundaries.mark(boundary);
        if mark.drawn.is_none() {
            return;
        }
        if mark.revealed {
            return;
        }
        self.enter_if_made(Queue::ClientRendered, boundary);
    }

    /// A boundary leaves its queue and becomes the last of this one. Where no room was made for it, there is no memory.
    pub(crate) fn enter(&mut self, queue: Queue, boundary: u32) -> Result<(), OutOfMemory>
        ensures { OnOk result (self.new ≡ with_entered queue boundary self.old) }
    {
        self.leave(boundary);
        if queue.number() >= self.boundaries.list_count()
            || boundary >= self.boundaries.id_count()
        {
            return Err(OutOfMemory);
        }
        self.boundaries.push(queue.number(), boundary);
        Ok(())
    }

    /// The same queues.
    pub(crate) fn copy(&self, alloc: Global) -> Result<Queues, OutOfMemory>
        ensures { IfOk result (λ copy. copy ≡ self.now) }
    {
        Ok(Queues {
            ready: self.ready.copy(alloc)?,
            boundaries: self.boundaries.copy(alloc)?,
            next: self.next,
            sent: self.sent,
            shell: self.shell,
        })
    }
}

/// A flush of copies.
fn run(
    alloc: Global,
    prefix: &Text,
    progressive: u32,
    segments: &Segments,
    boundaries: &Boundaries,
    flow: &mut Flow,
    budget: u32,
) -> Result<(), OutOfMemory>
    ensures flushed { OnOk result (Flushes (tables_with prefix.now progressive segments.now boundaries.now)
        budget flow.old flow.new) }
    ensures as_many { OnOk result (AreAsMany flow.old flow.new) }
{
    let page = Page {
        prefix,
        progressive,
        segments,
        boundaries,
    };
    flush_flow(alloc, page, flow, budget)
}

/// Takes an id out of its list. One that was never made stands in none.
fn remove(lists: &mut IdLists, id: u32)
    ensures { lists.new ≡ record lists.old { lists = without id lists.old.lists } }
{
    if id < lists.id_count() {
        lists.remove(id);
    }
}

/// Takes all ids out of a list.
fn clear(lists: &mut IdLists, list: u32)
    ensures { lists.new ≡ record lists.old { lists = slice_set lists.old.lists list [] } }
{
    if list >= lists.list_count() {
        return;
    }
    'left: while let Some(id) = lists.first(list) {
        lists.remove(id);
    }
}

/// Makes an id that stands in no list the last of one, if there is such a list.
fn append(lists: &mut IdLists, list: u32, id: u32)
    requires made { id < lists.old.ids }
    requires free { times_in_all id lists.old.lists ≡ 0 }
    ensures { lists.new ≡ record lists.old { lists = with_pushed list id lists.old.lists } }
{
    if list < lists.list_count() {
        lists.push(list, id);
    }
}
