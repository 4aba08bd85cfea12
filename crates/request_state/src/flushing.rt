//! Flushes.

ghost use Rattle.std.specs.Prelude.{◌≡◌, ◌↔◌, length, IsTrue, IsFalse, IfOk, OnOk, OnErr};
ghost use Rattle.flush_queues.specs.Queues.{HasNothingQueued};
ghost use Rattle.request_state.specs.Core.{core_of};
ghost use Rattle.request_state.specs.Flushing.{FlushesState, HasEnded, IsFate};

use crate::state::{Fate, State};
use fizz_text::OutOfMemory;
use std::alloc::Global;

/// What a flush appended to the transcript, and whether something waits to be sent after it.
#[derive(Clone, Copy, Debug, PartialEq, Eq)]
pub struct Flushed {
    pub from: usize,
    pub to: usize,
    pub more: bool,
}

impl<'a> State<'a> {
    /// Appends one flush to the transcript. A budget above 0 ends it after the first unit with which so many bytes are
    /// written. While the shell has a task, and after it has failed, nothing is appended. A refusal leaves all as before.
    pub fn flush(&mut self, alloc: Global, budget: u32) -> Result<Flushed, OutOfMemory>
        ensures flushed { OnOk result (FlushesState self.old.plan budget (core_of self.old) (core_of self.new)) }
        ensures from { IfOk result (λ flushed. flushed.from ≡ length (core_of self.old).transcript) }
        ensures to { IfOk result (λ flushed. flushed.to ≡ length (core_of self.new).transcript) }
        ensures more { IfOk result (λ flushed. IsFalse flushed.more ↔ HasNothingQueued (core_of self.new).queues) }
        ensures kept { OnErr result (core_of self.new ≡ core_of self.old) }
        ensures plan { self.new.plan ≡ self.old.plan }
    {
        let from = self.transcript.len();
        if self.shell_tasks > 0 || self.failure.is_some() {
            return Ok(Flushed {
                from,
                to: from,
                more: !self.queues.is_empty(),
            });
        }
        self.marks.reserve(1)?;
        let more = self.queues.flush(
            alloc,
            &mut self.segments,
            &mut self.boundaries,
            &self.plan.options.prefix,
            self.plan.options.progressive,
            budget,
            &mut self.transcript,
        )?;
        let to = self.transcript.len();
        if to != from {
            self.marks.push_reserved(to);
        }
        Ok(Flushed { from, to, more })
    }

    /// How far the page is.
    pub fn fate(&self) -> Fate<'_>
        ensures { IsFate (core_of self.now) result }
    {
        if let Some(digest) = &self.failure {
            return Fate::ShellFailed { digest };
        }
        if self.has_ended() {
            Fate::Ended
        } else {
            Fate::Running
        }
    }

    /// Whether the shell is sent, no task is left, and nothing waits to be sent.
    fn has_ended(&self) -> bool
        ensures { IsTrue result ↔ HasEnded (core_of self.now) }
    {
        if self.tasks.runnable_count() > 0 || self.tasks.claimed_count() > 0 {
            return false;
        }
        if self.tasks.waiting_count() > 0 {
            return false;
        }
        self.queues.is_shell_sent() && self.queues.is_empty()
    }
}
