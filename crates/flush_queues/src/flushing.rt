//! A whole flush.

ghost use Rattle.std.specs.Prelude.{◌≡◌, ◌↔◌, ◌∷◌, ◌++◌, [], ℕ, List, IsTrue, IfOk, OnOk, OnErr, Some, None, length};
ghost use Rattle.flush_queues.specs.declared.flow.Flow.{Flow as FlowSeen};
ghost use Rattle.flush_queues.specs.declared.queues.Queue.{Queue as QueueSeen};
ghost use Rattle.flush_queues.specs.Flushed.{GoesOn};
ghost use Rattle.flush_queues.specs.Flushing.{Flushes, IsEnough, Serves, serving_order, without_shell};
ghost use Rattle.flush_queues.specs.Frames.{tables_of};
ghost use Rattle.flush_queues.specs.Queues.{queue_of};

use crate::flow::Flow;
use crate::page::Page;
use crate::printing::print_segment;
use crate::queues::Queue;
use crate::sending::serve_boundary;
use fizz_segment::SegId;
use fizz_text::OutOfMemory;
use std::alloc::Global;

/// Why the serving of a queue ended.
#[derive(Clone, Copy, Debug, PartialEq, Eq, Drop)]
pub(crate) enum Ended {
    Empty,
    Enough,
}

/// Whether as much is written as the budget says, of which 0 is none.
fn is_enough(budget: u32, flow: &Flow) -> bool
    ensures { IsTrue result ↔ IsEnough budget flow.now.out }
{
    if budget == 0 {
        return false;
    }
    budget as usize <= flow.out.as_slice().len()
}

/// Serves a queue until it is empty or enough is written. Each unit shortens what is left to be sent, so that there are
/// no more than a number can count.
fn serve_queue(
    alloc: Global,
    page: Page<'_>,
    flow: &mut Flow,
    budget: u32,
    queue: Queue,
) -> Result<Ended, OutOfMemory>
    ensures { IfOk result (λ ended. (later : List QueueSeen) (end : FlowSeen) →
        GoesOn (tables_of page.entry) budget ended later flow.new end →
        Serves (tables_of page.entry) budget (queue ∷ later) flow.old end) }
{
    'units: for _ in 0..u64::MAX {
        let Some(boundary) = flow.queues.first(queue) else {
            return Ok(Ended::Empty);
        };
        serve_boundary(alloc, page, flow, queue, boundary)?;
        if is_enough(budget, flow) {
            return Ok(Ended::Enough);
        }
    }
    Err(OutOfMemory)
}

/// Serves one queue after the other.
fn serve_queues(
    alloc: Global,
    page: Page<'_>,
    flow: &mut Flow,
    budget: u32,
    queues: &[Queue],
) -> Result<(), OutOfMemory>
    ensures { OnOk result (Serves (tables_of page.entry) budget queues.now flow.old flow.new) }
{
    let Some((queue, later)) = queues.split_first() else {
        return Ok(());
    };
    match serve_queue(alloc, page, flow, budget, *queue)? {
        Ended::Enough => Ok(()),
        Ended::Empty => serve_queues(alloc, page, flow, budget, later),
    }
}

fn serve_in_order(
    alloc: Global,
    page: Page<'_>,
    flow: &mut Flow,
    budget: u32,
) -> Result<(), OutOfMemory>
    ensures { OnOk result (Serves (tables_of page.entry) budget serving_order flow.old flow.new) }
{
    let order = [
        Queue::ClientRendered,
        Queue::Completed,
        Queue::Partial,
        Queue::Completed,
    ];
    serve_queues(alloc, page, flow, budget, &order)
}

fn flush_shell(
    alloc: Global,
    page: Page<'_>,
    flow: &mut Flow,
    budget: u32,
    shell: SegId,
) -> Result<(), OutOfMemory>
    ensures { OnOk result (flow.old.queues.shell ≡ Some shell →
        Flushes (tables_of page.entry) budget flow.old flow.new) }
{
    flow.queues.shell = None;
    print_segment(alloc, page, flow, shell)?;
    if is_enough(budget, flow) {
        return Ok(());
    }
    serve_in_order(alloc, page, flow, budget)
}

/// Flushes what is ready, the shell before all else.
pub(crate) fn flush_flow(
    alloc: Global,
    page: Page<'_>,
    flow: &mut Flow,
    budget: u32,
) -> Result<(), OutOfMemory>
    ensures { OnOk result (Flushes (tables_of page.entry) budget flow.old flow.new) }
{
    match flow.queues.shell {
        None => serve_in_order(alloc, page, flow, budget),
        Some(shell) => flush_shell(alloc, page, flow, budget, shell),
    }
}
