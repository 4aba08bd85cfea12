//! Claims.

ghost use Rattle.std.specs.Prelude.{◌≡◌, ◌↔◌, ◌&&◌, false, true, slice_set, vec_capacity, IsNone, IsTrue, IfSome, IfNone, IfErr, OnOk, OnErr, Some, None};
ghost use Rattle.std.specs.Str.{bytes_eq};
ghost use Rattle.fizz_task.specs.Calls.{HasNoClaim};
ghost use Rattle.request_state.specs.Core.{core_of};
ghost use Rattle.request_state.specs.Claiming as spec;
ghost use Rattle.request_state.specs.Claiming.{HandsOut, claim_at, given_back, is_kept_as, number_now, piece_flags, same_bool};

use crate::job::{Claim, Job, Place};
use crate::state::State;
use fizz_piece::{Flags, Work};
use fizz_segment::SegId;
use fizz_task::Claimed;
use fizz_text::Path;

/// A work that isn't handed out any more, with the number under which its task is claimed.
#[derive(Clone, Copy, Debug, PartialEq, Eq)]
pub struct StaleWork {
    pub now: Option<u64>,
}

impl<'a> State<'a> {
    /// Hands out the work of the first runnable task. `None` exactly where no task is runnable or 2^64 - 1 claims were
    /// made.
    pub fn claim(&mut self) -> Option<Work<'a>>
        ensures exactly { IsNone result ↔ HasNoClaim (core_of self.old).tasks }
        ensures none { IfNone result (core_of self.new ≡ core_of self.old) }
        ensures claimed { IfSome result (HandsOut (core_of self.old) (core_of self.new)) }
        ensures plan { self.new.plan ≡ self.old.plan }
    {
        match self.tasks.claim() {
            None => None,
            Some(claimed) => Some(self.hand_out(claimed)),
        }
    }

    /// Keeps what is needed of a task that was claimed, and makes its work.
    fn hand_out(&mut self, claimed: Claimed<Job<'a>>) -> Work<'a>
        ensures work { result ≡ spec.work_of (core_of self.old) claimed.entry.task
            claimed.entry.claim claimed.entry.payload }
        ensures kept { core_of self.new ≡ record (core_of self.old) {
          claims = slice_set (core_of self.old).claims claimed.entry.task
              (Some (spec.kept_of (core_of self.old) claimed.entry.payload));
        } }
        ensures plan { self.new.plan ≡ self.old.plan }
    {
        let Claimed {
            task,
            claim,
            payload,
        } = claimed;
        let Job {
            segment,
            given,
            kept,
        } = payload;
        let settled = self.settled;
        let flags = self.flags(segment);
        put(
            &mut self.claims,
            task,
            Some(Claim {
                segment,
                place: kept,
                settled,
                flags,
            }),
        );
        let Place { path, spot, scope } = given;
        Work {
            task,
            claim,
            path,
            spot,
            scope,
            settled,
            flags,
        }
    }

    /// The flags of a segment.
    fn flags(&self, segment: SegId) -> Flags
        ensures { result ≡ spec.flags_of (core_of self.now) segment }
    {
        let flags = self.segments.mark(segment).flags;
        Flags {
            lead: flags.lead,
            embedded: flags.embedded,
        }
    }

    /// Whether a work was handed out and didn't come back.
    pub(crate) fn keeps(&self, work: &Work<'a>) -> bool
        ensures { result ≡ spec.keeps (core_of self.now) work.now }
    {
        self.is_claimed_as(work) && self.is_kept(work)
    }

    fn is_claimed_as(&self, work: &Work<'a>) -> bool
        ensures { result ≡ spec.is_claim work.now.claim (number_now (core_of self.now) work.now) }
    {
        match self.number(work) {
            Some(number) => number == work.claim,
            None => false,
        }
    }

    /// Whether what is kept of a work's task is equal to it.
    fn is_kept(&self, work: &Work<'a>) -> bool
        ensures { result ≡ is_kept_as work.now (claim_at (core_of self.now).claims work.now.task) }
    {
        match self.claims.get(work.task as usize) {
            Some(Some(claim)) => is_work(claim, work),
            _ => false,
        }
    }

    /// The number under which a work's task is claimed.
    pub(crate) fn number(&self, work: &Work<'a>) -> Option<u64>
        ensures { result ≡ number_now (core_of self.now) work.now }
    {
        self.tasks.claim_number(work.task)
    }

    /// A work that isn't rendered after all comes back: its task is runnable again, the last of them. Refused exactly
    /// where it isn't one that was handed out.
    pub fn give_back(&mut self, work: Work<'a>) -> Result<(), StaleWork>
        ensures ok { OnOk result ((spec.keeps (core_of self.old) work.entry ≡ true)
            × (core_of self.new ≡ given_back work.entry (core_of self.old))) }
        ensures stale { IfErr result (λ stale. (spec.keeps (core_of self.old) work.entry ≡ false)
            × (stale.now ≡ number_now (core_of self.old) work.entry)) }
        ensures kept { OnErr result (core_of self.new ≡ core_of self.old) }
        ensures plan { self.new.plan ≡ self.old.plan }
    {
        if !self.keeps(&work) {
            return Err(StaleWork {
                now: self.number(&work),
            });
        }
        self.return_work(work);
        Ok(())
    }

    /// A work that was handed out comes back.
    pub(crate) fn return_work(&mut self, work: Work<'a>)
        requires { spec.keeps (core_of self.old) work ≡ true }
        ensures returned { core_of self.new ≡ given_back work.entry (core_of self.old) }
        ensures plan { self.new.plan ≡ self.old.plan }
    {
        if let Some(claim) = take(&mut self.claims, work.task) {
            let task = work.task;
            let number = work.claim;
            let _ = self.tasks.give_back(task, number, job_again(work, claim));
        }
    }
}

/// What a task is to do again whose work came back.
pub(crate) fn job_again<'a>(work: Work<'a>, claim: Claim<'a>) -> Job<'a>
    ensures { result ≡ spec.job_again work.entry claim.entry }
{
    Job {
        segment: claim.segment,
        given: Place {
            path: work.path,
            spot: work.spot,
            scope: work.scope,
        },
        kept: claim.place,
    }
}

/// Keeps something of a task, if it was made.
pub(crate) fn put<'a>(claims: &mut Vec<Option<Claim<'a>>>, task: u32, claim: Option<Claim<'a>>)
    ensures put { claims.new.items ≡ slice_set claims.old.items task claim.entry }
    ensures room { vec_capacity claims.new ≡ vec_capacity claims.old }
{
    if let Some(kept) = claims.get_mut(task as usize) {
        *kept = claim;
    }
}

/// Takes out what is kept of a task.
pub(crate) fn take<'a>(claims: &mut Vec<Option<Claim<'a>>>, task: u32) -> Option<Claim<'a>>
    ensures taken { result ≡ claim_at claims.old.items task }
    ensures rest { claims.new.items ≡ slice_set claims.old.items task None }
    ensures room { vec_capacity claims.new ≡ vec_capacity claims.old }
{
    match claims.get_mut(task as usize) {
        Some(kept) => kept.take(),
        None => None,
    }
}

/// Whether what is kept of a task is a work, but for what stands at its position.
fn is_work<'a>(claim: &Claim<'a>, work: &Work<'a>) -> bool
    ensures { result ≡ is_kept_as work.now (Some claim.now) }
{
    is_path(&claim.place.path, &work.path)
        && claim.settled == work.settled
        && is_same(claim.flags.lead, work.flags.lead)
        && is_same(claim.flags.embedded, work.flags.embedded)
}

fn is_path(one: &Path, other: &Path) -> bool
    ensures { result ≡ bytes_eq one.now other.now }
{
    one.steps() == other.steps()
}

fn is_same(one: bool, other: bool) -> bool
    ensures { result ≡ same_bool one other }
{
    if one { other } else { !other }
}
