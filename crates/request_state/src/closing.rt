//! The end of a page.

ghost use Rattle.std.specs.Prelude.{◌≡◌, ◌+◌, ◌-◌, ◌≤◌, ℕ, suc, length, IfOk, OnErr, IfErr};
ghost use Rattle.fizz_task.specs.Board.{count_of, is_claimed, is_runnable};
ghost use Rattle.request_state.specs.Core.{Core, core_of};
ghost use Rattle.request_state.specs.Closing as spec;
ghost use Rattle.request_state.specs.Closing.{Closes, FailEach, IsBusy};

use crate::committing::is_pending;
use crate::failing::outer;
use crate::state::State;
use fizz_boundary::{Boundaries, Status};
use fizz_text::Text;
use std::alloc::Global;

/// A page can't be closed yet: how many tasks are runnable, how many are claimed, and how many outcomes aren't settled.
#[derive(Clone, Copy, Debug, PartialEq, Eq)]
pub struct Busy {
    pub runnable: u32,
    pub claimed: u32,
    pub unsettled: u32,
}

impl<'a> State<'a> {
    /// What waits for what is never settled fails, with the digest `unsettled`: the shell if it has a task, else each
    /// boundary that has one, in ascending order. How many boundaries failed is answered. Refused exactly where a task is
    /// runnable or claimed, or an outcome isn't settled.
    pub fn close(&mut self, alloc: Global) -> Result<u32, Busy>
        ensures closed { IfOk result (Closes (core_of self.old).shell_tasks (core_of self.old) (core_of self.new)) }
        ensures idle { IfOk result (λ failed. spec.IsIdle self.old.plan.outcomes.now (core_of self.old)) }
        ensures busy { IfErr result (IsBusy self.old.plan.outcomes.now (core_of self.old)) }
        ensures err { OnErr result (core_of self.new ≡ core_of self.old) }
        ensures plan { self.new.plan ≡ self.old.plan }
    {
        let busy = Busy {
            runnable: self.tasks.runnable_count(),
            claimed: self.tasks.claimed_count(),
            unsettled: self.plan.outcomes.len().saturating_sub(self.settled),
        };
        if busy.runnable > 0 || busy.claimed > 0 || busy.unsettled > 0 {
            return Err(busy);
        }
        if self.shell_tasks > 0 {
            self.fail_shell(alloc, Text::fixed("unsettled"));
            return Ok(0);
        }
        Ok(self.fail_each())
    }

    /// Each boundary that has tasks of its own fails.
    fn fail_each(&mut self) -> u32
        ensures failed { spec.FailEach (length (core_of self.old).boundaries.bounds) 0 (core_of self.old)
            (core_of self.new) result }
        ensures plan { self.new.plan ≡ self.old.plan }
    {
        let mut failed = 0;
        'boundaries: for boundary in 0..self.boundaries.next() {
            failed += self.fail_if_working(boundary);
        }
        failed
    }
}

impl<'a> State<'a> {
    /// A boundary that has tasks of its own fails. How many failed is answered.
    fn fail_if_working(&mut self, boundary: u32) -> u32
        ensures few { result ≤ 1 }
        ensures failed { (count : ℕ) (end : Core) (others : ℕ) →
            FailEach count (boundary + 1) (core_of self.new) end others →
            FailEach (suc count) boundary (core_of self.old) end (others + result) }
        ensures plan { self.new.plan ≡ self.old.plan }
    {
        if !is_working(&self.boundaries, boundary) {
            return 0;
        }
        self.fail_boundary(boundary, Text::fixed("unsettled"));
        1
    }
}

/// Whether a boundary has tasks of its own.
fn is_working(boundaries: &Boundaries, boundary: u32) -> bool
    ensures { result ≡ spec.is_working boundaries.now.bounds boundary }
{
    is_pending(boundaries, boundary) && !has_failed(boundaries, boundary)
}

/// Whether a boundary or one around it has failed.
fn has_failed(boundaries: &Boundaries, boundary: u32) -> bool
    ensures { result ≡ spec.has_failed_around boundaries.now.bounds boundary }
{
    let mut around = Some(boundary);
    'around: for step in 0..boundaries.next() {
        let Some(one) = around else {
            return false;
        };
        if is_failed(boundaries, one) {
            return true;
        }
        around = outer(boundaries, one);
    }
    false
}

fn is_failed(boundaries: &Boundaries, boundary: u32) -> bool
    ensures { result ≡ spec.failed_at boundaries.now.bounds boundary }
{
    if boundary >= boundaries.next() {
        return false;
    }
    match boundaries.status(boundary) {
        Status::Failed { digest: _ } => true,
        _ => false,
    }
}
