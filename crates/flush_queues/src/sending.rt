//! The units of a flush: each serves the first boundary of a queue.

ghost use Rattle.std.specs.Prelude.{◌≡◌, ◌∷◌, ℕ, List, IsTrue, IfOk, OnOk, Some, None};
ghost use Rattle.fizz_segment.specs.Tree.{part_at};
ghost use Rattle.fizz_boundary.specs.Bounds.{bound_at};
ghost use Rattle.flush_queues.specs.Flushing as spec;
ghost use Rattle.flush_queues.specs.Flushing.{Sends, Unit, role_at};
ghost use Rattle.flush_queues.specs.Frames.{tables_of};
ghost use Rattle.flush_queues.specs.Queues.{queue_of, ready_of};

use crate::flow::{Flow, write, write_script};
use crate::page::Page;
use crate::printing::print_segment;
use crate::queues::{Queue, Queues};
use fizz_boundary::Status;
use fizz_instructions::Instruction;
use fizz_segment::{SegId, SegKind};
use fizz_text::{OutOfMemory, Text};
use std::alloc::Global;

/// Whether a segment is the content of a boundary or of the shell, or stands inside one.
#[derive(Clone, Copy, Debug, PartialEq, Eq, Drop)]
pub(crate) enum Role {
    Content,
    Inner,
}

fn role_at(page: Page<'_>, segment: SegId) -> Role
    ensures { result ≡ role_at (tables_of page.entry) segment }
{
    if !page.segments.is_live(segment) {
        return Role::Inner;
    }
    match page.segments.look(segment).kind {
        SegKind::Root { boundary: _ } => Role::Content,
        SegKind::Child => Role::Inner,
        SegKind::Site { boundary: _ } => Role::Inner,
    }
}

fn boundary_id(flow: &Flow, boundary: u32) -> u32
    ensures { result ≡ spec.boundary_id_of flow.now boundary }
{
    flow.boundaries.mark(boundary).drawn.unwrap_or(0)
}

fn segment_id(flow: &Flow, segment: SegId) -> u32
    ensures { result ≡ spec.segment_id_of flow.now segment }
{
    flow.segments.mark(segment).drawn.unwrap_or(0)
}

/// The digest with which a boundary failed, empty if it hasn't.
fn digest(alloc: Global, page: Page<'_>, boundary: u32) -> Result<Text, OutOfMemory>
    ensures { IfOk result (λ d. d ≡ spec.bound_digest (bound_at page.entry.boundaries.now.bounds boundary)) }
{
    if boundary >= page.boundaries.next() {
        return Ok(Text::fixed(""));
    }
    match page.boundaries.status(boundary) {
        Status::Pending { tasks: _ } => Ok(Text::fixed("")),
        Status::Complete { bytes: _ } => Ok(Text::fixed("")),
        Status::Failed { digest } => digest.copy(alloc),
    }
}

/// `$RX` of a boundary whose content has failed.
fn refuse(alloc: Global, page: Page<'_>, flow: &mut Flow, boundary: u32) -> Result<(), OutOfMemory>
    ensures { OnOk result (flow.new ≡ spec.with_refused (tables_of page.entry) boundary flow.old) }
{
    let instruction = Instruction::ClientRender {
        boundary: boundary_id(flow, boundary),
        digest: digest(alloc, page, boundary)?,
    };
    flow.queues.leave(boundary);
    write_script(alloc, page, flow, &instruction)
}

fn container_id(flow: &Flow, role: Role, boundary: u32, segment: SegId) -> u32
    ensures { result ≡ spec.container_id role flow.now boundary segment }
{
    match role {
        Role::Content => boundary_id(flow, boundary),
        Role::Inner => segment_id(flow, segment),
    }
}

fn begin_container(
    page: Page<'_>,
    flow: &mut Flow,
    boundary: u32,
    segment: SegId,
) -> Result<(), OutOfMemory>
    ensures { OnOk result (flow.new
        ≡ spec.with_container_start (tables_of page.entry) boundary segment flow.old) }
{
    let id = container_id(flow, role_at(page, segment), boundary, segment);
    flow.queues.unready(segment);
    flow.out.write_container_start(page.prefix, id)
}

/// What isn't the content of a boundary goes to the place of its placeholder.
fn move_inner(
    alloc: Global,
    page: Page<'_>,
    flow: &mut Flow,
    role: Role,
    segment: SegId,
) -> Result<(), OutOfMemory>
    ensures { OnOk result (flow.new ≡ spec.with_moved (tables_of page.entry) role segment flow.old) }
{
    match role {
        Role::Content => Ok(()),
        Role::Inner => {
            let instruction = Instruction::Segment {
                segment: segment_id(flow, segment),
            };
            write_script(alloc, page, flow, &instruction)
        }
    }
}

fn end_container(
    alloc: Global,
    page: Page<'_>,
    flow: &mut Flow,
    segment: SegId,
) -> Result<(), OutOfMemory>
    ensures { OnOk result (flow.new
        ≡ spec.with_container_end (tables_of page.entry) segment flow.old) }
{
    write(flow, b"</div>")?;
    move_inner(alloc, page, flow, role_at(page, segment), segment)
}

/// Sends a ready segment of a boundary in a hidden container.
fn send(
    alloc: Global,
    page: Page<'_>,
    flow: &mut Flow,
    boundary: u32,
    segment: SegId,
) -> Result<(), OutOfMemory>
    ensures { OnOk result (Sends (tables_of page.entry) boundary segment flow.old flow.new) }
{
    begin_container(page, flow, boundary, segment)?;
    print_segment(alloc, page, flow, segment)?;
    end_container(alloc, page, flow, segment)
}

fn leave_if_none(queues: &mut Queues, boundary: u32)
    ensures { queues.new ≡ spec.left_if_none (ready_of queues.old boundary) boundary queues.old }
{
    if queues.ready.first(boundary).is_none() {
        queues.leave(boundary);
    }
}

/// The boundary of a segment that was withdrawn leaves its queue, if it is partial and nothing of it is ready.
fn leave_if_partial(queues: &mut Queues, boundary: u32, queue: Option<u32>)
    ensures { queues.new ≡ spec.left_if_partial queue (ready_of queues.old boundary) boundary queues.old }
{
    let Some(number) = queue else {
        return;
    };
    if number == Queue::Partial.number() {
        leave_if_none(queues, boundary);
    }
}

fn withdraw_from(queues: &mut Queues, boundary: Option<u32>, segment: SegId)
    ensures { queues.new ≡ spec.withdrawn_from boundary segment queues.old }
{
    let Some(boundary) = boundary else {
        return;
    };
    let queue = queues.boundaries.list_of(boundary);
    queues.unready(segment);
    leave_if_partial(queues, boundary, queue);
}

/// A segment isn't sent any more.
fn withdraw(queues: &mut Queues, segment: Option<SegId>)
    ensures { queues.new ≡ spec.withdrawn segment queues.old }
{
    let Some(segment) = segment else {
        return;
    };
    let boundary = queues.ready.list_of(segment.0);
    withdraw_from(queues, boundary, segment);
}

/// The segment of a boundary's fallback.
fn site(page: Page<'_>, boundary: u32) -> Option<SegId>
    ensures { result ≡ spec.bound_site (bound_at page.entry.boundaries.now.bounds boundary) }
{
    if boundary < page.boundaries.next() {
        page.boundaries.look(boundary).site
    } else {
        None
    }
}

/// `$RC` of a complete boundary of which nothing is ready any more.
fn reveal(alloc: Global, page: Page<'_>, flow: &mut Flow, boundary: u32) -> Result<(), OutOfMemory>
    ensures { OnOk result (flow.new ≡ spec.with_revealed (tables_of page.entry) boundary flow.old) }
{
    let id = boundary_id(flow, boundary);
    let instruction = Instruction::Complete {
        boundary: id,
        segment: id,
    };
    flow.boundaries.reveal(boundary);
    flow.queues.leave(boundary);
    withdraw(&mut flow.queues, site(page, boundary));
    write_script(alloc, page, flow, &instruction)
}

fn serve_complete(
    alloc: Global,
    page: Page<'_>,
    flow: &mut Flow,
    boundary: u32,
) -> Result<(), OutOfMemory>
    ensures { OnOk result ((others : List ℕ) → queue_of flow.old.queues Queue.Completed ≡ boundary ∷ others →
        Unit (tables_of page.entry) Queue.Completed flow.old flow.new) }
{
    match flow.queues.ready.first(boundary) {
        Some(segment) => send(alloc, page, flow, boundary, SegId(segment)),
        None => reveal(alloc, page, flow, boundary),
    }
}

fn serve_partial(
    alloc: Global,
    page: Page<'_>,
    flow: &mut Flow,
    boundary: u32,
) -> Result<(), OutOfMemory>
    ensures { OnOk result ((others : List ℕ) → queue_of flow.old.queues Queue.Partial ≡ boundary ∷ others →
        Unit (tables_of page.entry) Queue.Partial flow.old flow.new) }
{
    match flow.queues.ready.first(boundary) {
        Some(segment) => {
            send(alloc, page, flow, boundary, SegId(segment))?;
            leave_if_none(&mut flow.queues, boundary);
            Ok(())
        }
        None => {
            flow.queues.leave(boundary);
            Ok(())
        }
    }
}

/// Serves a boundary that is the first of a queue.
pub(crate) fn serve_boundary(
    alloc: Global,
    page: Page<'_>,
    flow: &mut Flow,
    queue: Queue,
    boundary: u32,
) -> Result<(), OutOfMemory>
    ensures { OnOk result ((others : List ℕ) → queue_of flow.old.queues queue ≡ boundary ∷ others →
        Unit (tables_of page.entry) queue flow.old flow.new) }
{
    match queue {
        Queue::ClientRendered => refuse(alloc, page, flow, boundary),
        Queue::Completed => serve_complete(alloc, page, flow, boundary),
        Queue::Partial => serve_partial(alloc, page, flow, boundary),
    }
}
