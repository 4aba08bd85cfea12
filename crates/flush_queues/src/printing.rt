//! The printing of a segment: its bytes, with each kid at its place. Segments that stand in others are printed with a
//! stack of their own, however deep they stand.

ghost use Rattle.std.specs.Prelude.{◌≡◌, ◌++◌, ◌∷◌, [], ℕ, true, IfOk, OnOk, Some, None, drop, slice_range};
ghost use Rattle.fizz_segment.specs.Calls.{IsLive};
ghost use Rattle.fizz_segment.specs.Tree.{after as after_in, is_kid, kids_of, part_at};
ghost use Rattle.flush_queues.specs.declared.flow.Flow.{Flow as FlowSeen};
ghost use Rattle.flush_queues.specs.Flows as spec;
ghost use Rattle.flush_queues.specs.Flows.{place_of};
ghost use Rattle.flush_queues.specs.Frames.{IsKidIf, Runs, RunsKid, RunsSegment, RunsWith, kids_from, part_bytes, tables_of};
ghost use Rattle.flush_queues.specs.Printing.{Prints, segment};

use crate::flow::{Flow, begin, begin_inline, begin_late, close, write, write_placeholder};
use crate::frame::{Closing, Frame};
use crate::page::{Page, Stage, Way, root, site, stage_at, way_at};
use fizz_segment::{SegId, Segments, laws_of_kids};
use fizz_text::OutOfMemory;
use std::alloc::Global;

/// What stands between two places of some bytes.
fn between(bytes: &[u8], from: usize, to: usize) -> &[u8]
    ensures { result.now ≡ slice_range bytes.now from to }
{
    let to = to.min(bytes.len());
    let from = from.min(to);
    &bytes[from..to]
}

/// What stands from a place on.
fn onward(bytes: &[u8], from: usize) -> &[u8]
    ensures { result.now ≡ drop from bytes.now }
{
    let from = from.min(bytes.len());
    &bytes[from..]
}

/// The bytes of a segment, none where they are still to come.
fn bytes_of(segments: &Segments, segment: SegId) -> &[u8]
    ensures { result.now ≡ part_bytes (part_at segments.now.parts segment) }
{
    if !segments.is_live(segment) {
        return &[];
    }
    segments.look(segment).bytes.unwrap_or(&[])
}

/// The first kid of a segment.
fn first_kid(segments: &Segments, segment: SegId) -> Option<SegId>
    requires { IsLive segments.now segment }
    ensures kids { kids_from segments.now.parts segment result ≡ kids_of segments.now.parts segment }
    ensures is_kid { IsKidIf segments.now.parts segment result }
{
    laws_of_kids();
    segments.look(segment).first
}

/// Where a kid stands in the bytes of its parent.
fn place(segments: &Segments, kid: SegId) -> usize
    ensures { result ≡ place_of (part_at segments.now.parts kid) }
{
    if !segments.is_live(kid) {
        return 0;
    }
    segments.look(kid).at
}

/// The kid after one.
fn next_kid(segments: &Segments, kid: SegId) -> Option<SegId>
    ensures kids { (parent : ℕ) → is_kid parent (part_at segments.now.parts kid) ≡ true →
        kids_from segments.now.parts parent result ≡ after_in kid (kids_of segments.now.parts parent) }
    ensures is_kid { (parent : ℕ) → is_kid parent (part_at segments.now.parts kid) ≡ true →
        IsKidIf segments.now.parts parent result }
{
    laws_of_kids();
    if !segments.is_live(kid) {
        return None;
    }
    segments.look(kid).next
}

/// Begins a segment with what follows it: what is still to do of it stands on the stack then.
fn start(
    page: Page<'_>,
    flow: &mut Flow,
    stack: &mut Vec<Frame>,
    segment: SegId,
    closing: Closing,
) -> Result<(), OutOfMemory>
    ensures { OnOk result ((end : FlowSeen) → Runs (tables_of page.entry) stack.new.items flow.new end →
        RunsSegment (tables_of page.entry) segment closing stack.old.items flow.old end) }
{
    match stage_at(page, flow, segment) {
        Stage::Passed => close(page, flow, closing),
        Stage::Pending => {
            write_placeholder(page, flow, segment)?;
            close(page, flow, closing)
        }
        Stage::Complete => {
            begin(flow, segment);
            let kid = first_kid(page.segments, segment);
            stack.push(Frame {
                segment,
                place: 0,
                kid,
                closing,
            })?;
            Ok(())
        }
    }
}

/// Begins a kid.
fn start_kid(
    page: Page<'_>,
    flow: &mut Flow,
    stack: &mut Vec<Frame>,
    kid: SegId,
) -> Result<(), OutOfMemory>
    ensures { OnOk result ((end : FlowSeen) → Runs (tables_of page.entry) stack.new.items flow.new end →
        RunsKid (tables_of page.entry) kid stack.old.items flow.old end) }
{
    let Some(boundary) = site(page.segments, kid) else {
        return start(page, flow, stack, kid, Closing::Nothing);
    };
    match way_at(page, boundary) {
        Way::Failed(digest) => {
            flow.out.write_failed(digest)?;
            start(page, flow, stack, kid, Closing::End)
        }
        Way::Inline => {
            begin_inline(flow, boundary)?;
            start(page, flow, stack, root(page, boundary), Closing::End)
        }
        Way::Late => {
            begin_late(page, flow, boundary)?;
            start(page, flow, stack, kid, Closing::EndOfLate(boundary))
        }
    }
}

/// Goes on with a frame up to its next kid, or to its end.
fn step(
    page: Page<'_>,
    flow: &mut Flow,
    stack: &mut Vec<Frame>,
    frame: Frame,
) -> Result<(), OutOfMemory>
    ensures { OnOk result ((end : FlowSeen) → Runs (tables_of page.entry) stack.new.items flow.new end →
        RunsWith (tables_of page.entry) frame stack.old.items flow.old end) }
{
    let bytes = bytes_of(page.segments, frame.segment);
    let Some(kid) = frame.kid else {
        write(flow, onward(bytes, frame.place))?;
        return close(page, flow, frame.closing);
    };
    let to = place(page.segments, kid);
    write(flow, between(bytes, frame.place, to))?;
    let kid_after = next_kid(page.segments, kid);
    stack.push(Frame {
        segment: frame.segment,
        place: to,
        kid: kid_after,
        closing: frame.closing,
    })?;
    start_kid(page, flow, stack, kid)
}

/// Prints a segment, with all that stands in it. Each step marks a segment as printed or ends one, so that there are no
/// more steps than a number can count.
pub(crate) fn print_segment(
    alloc: Global,
    page: Page<'_>,
    flow: &mut Flow,
    id: SegId,
) -> Result<(), OutOfMemory>
    ensures { OnOk result (Prints (tables_of page.entry) (segment id) flow.old flow.new) }
{
    let mut stack = Vec::new(alloc);
    start(page, flow, &mut stack, id, Closing::Nothing)?;
    'frames: for _ in 0..u64::MAX {
        match stack.pop() {
            None => return Ok(()),
            Some(frame) => step(page, flow, &mut stack, frame)?,
        }
    }
    Err(OutOfMemory)
}
