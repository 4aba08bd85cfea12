//! What a flush changes, and the steps by which it does so.

ghost use Rattle.std.specs.Prelude.{◌≡◌, OnOk, IfOk, Some, None};
ghost use Rattle.fizz_boundary.specs.Bounds.{bound_at};
ghost use Rattle.flush_queues.specs.Flows as spec;
ghost use Rattle.flush_queues.specs.Frames.{closed, tables_of};
ghost use Rattle.flush_queues.specs.Queues.{ready_of, with_next_drawn};

use crate::frame::Closing;
use crate::output::Output;
use crate::page::Page;
use crate::queues::{Queue, Queues};
use fizz_boundary::{Marks as BoundaryMarks, Status};
use fizz_instructions::Instruction;
use fizz_segment::{Marks as SegmentMarks, SegId};
use fizz_text::{OutOfMemory, Text};
use html_names::CommentKind;
use std::alloc::Global;

/// How segments and boundaries are printed, the queues, and what was written. They are copies, which a flush keeps only
/// if it succeeds.
#[derive(Debug, Drop)]
pub(crate) struct Flow {
    pub(crate) segments: SegmentMarks,
    pub(crate) boundaries: BoundaryMarks,
    pub(crate) queues: Queues,
    pub(crate) out: Output,
}

pub(crate) fn write(flow: &mut Flow, bytes: &[u8]) -> Result<(), OutOfMemory>
    ensures { OnOk result (flow.new ≡ spec.with_written bytes.now flow.old) }
{
    flow.out.write(bytes)
}

pub(crate) fn write_end(flow: &mut Flow) -> Result<(), OutOfMemory>
    ensures { OnOk result (flow.new ≡ spec.with_end flow.old) }
{
    flow.out.write_comment(CommentKind::End)
}

/// Draws the next id. Where all numbers are used up there is no memory either.
fn draw(queues: &mut Queues) -> Result<u32, OutOfMemory>
    ensures id { IfOk result (λ id. id ≡ queues.old.next) }
    ensures drawn { OnOk result (queues.new ≡ with_next_drawn queues.old) }
{
    let id = queues.next;
    match id.checked_add(1) {
        Some(next) => {
            queues.next = next;
            Ok(id)
        }
        None => Err(OutOfMemory),
    }
}

/// A placeholder stands for a segment whose bytes are still to come.
pub(crate) fn write_placeholder(
    page: Page<'_>,
    flow: &mut Flow,
    segment: SegId,
) -> Result<(), OutOfMemory>
    ensures { OnOk result (flow.new ≡ spec.with_placeholder (tables_of page.entry) segment flow.old) }
{
    let id = draw(&mut flow.queues)?;
    flow.segments.draw(segment, id, false);
    flow.out.write_placeholder(page.prefix, id)
}

/// A segment is printed from here on, and isn't ready any more.
pub(crate) fn begin(flow: &mut Flow, segment: SegId)
    ensures { flow.new ≡ spec.with_begun segment flow.old }
{
    flow.segments.set_printed(segment);
    flow.queues.unready(segment);
}

/// The content of a boundary stands in its place.
pub(crate) fn begin_inline(flow: &mut Flow, boundary: u32) -> Result<(), OutOfMemory>
    ensures { OnOk result (flow.new ≡ spec.with_inline boundary flow.old) }
{
    flow.boundaries.reveal(boundary);
    flow.out.write_comment(CommentKind::Complete)
}

/// The fallback of a boundary stands in its place.
pub(crate) fn begin_late(page: Page<'_>, flow: &mut Flow, boundary: u32) -> Result<(), OutOfMemory>
    ensures { OnOk result (flow.new ≡ spec.with_late (tables_of page.entry) boundary flow.old) }
{
    let id = draw(&mut flow.queues)?;
    flow.boundaries.draw(boundary, id);
    flow.out.write_pending(page.prefix, id)
}

fn enter_if_ready(queues: &mut Queues, boundary: u32) -> Result<(), OutOfMemory>
    ensures { OnOk result (queues.new ≡ spec.entered_if_ready (ready_of queues.old boundary) boundary queues.old) }
{
    if queues.ready.first(boundary).is_some() {
        queues.enter(Queue::Partial, boundary)
    } else {
        Ok(())
    }
}

/// A boundary that was printed with its fallback is to be served, if it is complete or has ready segments.
fn await_content(page: Page<'_>, flow: &mut Flow, boundary: u32) -> Result<(), OutOfMemory>
    ensures { OnOk result (flow.new ≡ spec.with_awaited (tables_of page.entry) boundary flow.old) }
{
    if boundary >= page.boundaries.next() {
        return Ok(());
    }
    match page.boundaries.status(boundary) {
        Status::Pending { tasks: _ } => enter_if_ready(&mut flow.queues, boundary),
        Status::Complete { bytes: _ } => flow.queues.enter(Queue::Completed, boundary),
        Status::Failed { digest: _ } => enter_if_ready(&mut flow.queues, boundary),
    }
}

/// What follows a segment.
pub(crate) fn close(page: Page<'_>, flow: &mut Flow, closing: Closing) -> Result<(), OutOfMemory>
    ensures { OnOk result (flow.new ≡ closed (tables_of page.entry) closing flow.old) }
{
    match closing {
        Closing::Nothing => Ok(()),
        Closing::End => write_end(flow),
        Closing::EndOfLate(boundary) => {
            write_end(flow)?;
            await_content(page, flow, boundary)
        }
    }
}

/// Writes an instruction, with the definition of its function where that wasn't sent before.
pub(crate) fn write_script(
    alloc: Global,
    page: Page<'_>,
    flow: &mut Flow,
    instruction: &Instruction,
) -> Result<(), OutOfMemory>
    ensures { OnOk result (flow.new ≡ spec.with_script (tables_of page.entry) instruction.now flow.old) }
{
    flow.out
        .write_script(alloc, instruction, page.prefix, &mut flow.queues.sent)
}
