//! Calls of a page's state, and what they answer in words.

ghost use Rattle.std.specs.Prelude.{OnOk};
ghost use Rattle.state_tests.specs.Driven.{IsDriven};

use super::driven::Driven;
use request_state::{Busy, Fate, Flushed, StaleWork, State};
use std::alloc::{AllocError, Global};
use std::test::Fail;

/// A call. A place is that of a work that is held.
#[derive(Clone, Copy)]
pub(super) enum Step {
    Settle,
    /// Claims a work and holds it.
    Hold,
    /// Renders a held work and commits its piece.
    Commit(usize),
    GiveBack(usize),
    /// Claims a work, renders it and commits its piece.
    WorkOnce,
    /// The same until nothing can be claimed.
    WorkAll,
    /// A flush with a budget.
    Flush(u32),
    Reclaim,
    Close,
    /// How many tasks are claimed and runnable, how many outcomes are settled, and how many flushes appended something.
    Counts,
    Fate,
}

/// Makes a call, and tells what it answers.
pub(super) fn serve(alloc: Global, driven: &mut Driven<'_>, step: Step) -> Result<String, Fail>
    requires { IsDriven driven.old.state driven.old.held.items }
    ensures { OnOk result (IsDriven driven.new.state driven.new.held.items) }
{
    match step {
        Step::Settle => settled(alloc, driven.settle()),
        Step::Hold => {
            let found = driven.hold()?;
            held(alloc, driven, found)
        }
        Step::Commit(place) => {
            let stale = driven.commit(alloc, place)?;
            came(alloc, stale)
        }
        Step::GiveBack(place) => {
            let stale = driven.give_back(place)?;
            came(alloc, stale)
        }
        Step::WorkOnce => {
            let worked = driven.work_once(alloc)?;
            Ok(text(alloc, if worked { "worked" } else { "nothing" })?)
        }
        Step::WorkAll => {
            driven.work_all(alloc)?;
            Ok(String::new(alloc))
        }
        Step::Flush(budget) => {
            let flushed = driven.flush(alloc, budget)?;
            appended(alloc, &driven.state, flushed)
        }
        Step::Reclaim => {
            let count = driven.reclaim(alloc)?;
            Ok(format!(in alloc; "{count} reclaimed")?)
        }
        Step::Close => {
            let closed = driven.close(alloc);
            closed_as(alloc, closed)
        }
        Step::Counts => counts(alloc, &driven.state),
        Step::Fate => fate(alloc, &driven.state),
    }
}

fn text(alloc: Global, words: &str) -> Result<String, AllocError> {
    String::from_str(alloc, words)
}

fn settled(alloc: Global, number: Option<u32>) -> Result<String, Fail> {
    match number {
        Some(number) => Ok(format!(in alloc; "settled {number}")?),
        None => Ok(text(alloc, "nothing")?),
    }
}

/// The work that was claimed last.
fn held(alloc: Global, driven: &Driven<'_>, found: bool) -> Result<String, Fail> {
    if !found {
        return Ok(text(alloc, "nothing")?);
    }
    match driven.held.last() {
        Some(work) => {
            let task = work.task;
            let claim = work.claim;
            let settled = work.settled;
            Ok(format!(in alloc; "task {task} claim {claim} settled {settled}")?)
        }
        None => Ok(text(alloc, "nothing is held")?),
    }
}

fn came(alloc: Global, stale: Option<StaleWork>) -> Result<String, Fail> {
    match stale {
        None => Ok(text(alloc, "taken")?),
        Some(StaleWork { now: None }) => Ok(text(alloc, "stale")?),
        Some(StaleWork { now: Some(now) }) => Ok(format!(in alloc; "stale, claimed as {now}")?),
    }
}

/// The bytes that a flush appended, and ` ..` where something is left to be sent.
fn appended(alloc: Global, state: &State<'_>, flushed: Flushed) -> Result<String, Fail> {
    if flushed.to != state.transcript().len() {
        return Ok(text(alloc, "not to the end")?);
    }
    let Some(bytes) = state.transcript().get(flushed.from..flushed.to) else {
        return Ok(text(alloc, "beyond the end")?);
    };
    let mut words = String::from_utf8(bytes.to_vec(alloc)?)?;
    if flushed.more {
        words.push_str(" ..")?;
    }
    Ok(words)
}

fn closed_as(alloc: Global, closed: Result<u32, Busy>) -> Result<String, Fail> {
    match closed {
        Ok(count) => Ok(format!(in alloc; "{count} failed")?),
        Err(
            Busy {
                runnable,
                claimed,
                unsettled,
            },
        ) => Ok(format!(in alloc;
            "{runnable} runnable, {claimed} claimed, {unsettled} unsettled"
        )?),
    }
}

fn counts(alloc: Global, state: &State<'_>) -> Result<String, Fail> {
    let claimed = state.claimed_count();
    let runnable = state.runnable_count();
    let settled = state.settled();
    let marks = state.marks().len();
    Ok(format!(in alloc;
        "{claimed} claimed, {runnable} runnable, {settled} settled, {marks} marks"
    )?)
}

fn fate(alloc: Global, state: &State<'_>) -> Result<String, Fail> {
    match state.fate() {
        Fate::Running => Ok(text(alloc, "running")?),
        Fate::Ended => Ok(text(alloc, "ended")?),
        Fate::ShellFailed { digest } => {
            let digest = digest.as_str();
            Ok(format!(in alloc; "shell failed: {digest}")?)
        }
    }
}
