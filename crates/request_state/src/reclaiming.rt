//! What is claimed becomes runnable again.

ghost use Rattle.std.specs.Prelude.{◌≡◌, ◌<◌, ◌^◌, length, map, OnOk, OnErr, IfOk};
ghost use Rattle.fizz_task.specs.Board.{count_of, is_claimed};
ghost use Rattle.request_state.specs.Core.{core_of};
ghost use Rattle.request_state.specs.Reclaiming as spec;
ghost use Rattle.request_state.specs.Reclaiming.{with_reclaimed};

use crate::job::{Claim, Job, Place};
use crate::state::State;
use fizz_task::Tasks;
use fizz_text::OutOfMemory;
use std::alloc::Global;

impl<'a> State<'a> {
    /// Every claimed task becomes runnable again, in ascending order and after those that are, with what is kept of it;
    /// works that were handed out are stale from then on, and claims are numbered from 0. How many were claimed is
    /// answered. A refusal leaves all as before.
    pub fn reclaim(&mut self, alloc: Global) -> Result<u32, OutOfMemory>
        ensures ok { OnOk result (core_of self.new ≡ with_reclaimed (core_of self.old)) }
        ensures count { IfOk result (λ count. count ≡ count_of is_claimed (core_of self.old).tasks.states) }
        ensures err { OnErr result (core_of self.new ≡ core_of self.old) }
        ensures plan { self.new.plan ≡ self.old.plan }
    {
        if self.claims.len() > u32::MAX as usize {
            return Err(OutOfMemory);
        }
        let count = self.tasks.claimed_count();
        let jobs = jobs_kept(alloc, self.claims.as_slice())?;
        let nothing = nothing_kept(alloc, self.claims.as_slice())?;
        all_again(&mut self.tasks, jobs);
        renumber(&mut self.tasks);
        self.claims = nothing;
        Ok(count)
    }
}

/// What each claimed task is to do once more.
fn jobs_kept<'a>(
    alloc: Global,
    claims: &[Option<Claim<'a>>],
) -> Result<Vec<Option<Job<'a>>>, OutOfMemory>
    ensures { IfOk result (λ jobs. jobs.items ≡ map spec.job_kept claims.now) }
{
    let mut jobs = Vec::with_capacity(alloc, claims.len())?;
    'claims: for claim in claims {
        jobs.push(job_kept(alloc, claim)?)?;
    }
    Ok(jobs)
}

/// Of as many tasks, that nothing is kept of any.
fn nothing_kept<'a>(
    alloc: Global,
    claims: &[Option<Claim<'a>>],
) -> Result<Vec<Option<Claim<'a>>>, OutOfMemory>
    ensures { IfOk result (λ nothing. nothing.items ≡ map spec.nothing_kept claims.now) }
{
    let mut nothing = Vec::with_capacity(alloc, claims.len())?;
    'claims: for claim in claims {
        nothing.push(None)?;
    }
    Ok(nothing)
}

fn job_kept<'a>(alloc: Global, claim: &Option<Claim<'a>>) -> Result<Option<Job<'a>>, OutOfMemory>
    ensures { IfOk result (λ job. job ≡ spec.job_kept claim.now) }
{
    match claim {
        None => Ok(None),
        Some(claim) => Ok(Some(Job {
            segment: claim.segment,
            given: copy_of(alloc, &claim.place)?,
            kept: copy_of(alloc, &claim.place)?,
        })),
    }
}

fn copy_of<'a>(alloc: Global, place: &Place<'a>) -> Result<Place<'a>, OutOfMemory>
    ensures { IfOk result (λ copy. copy ≡ place.now) }
{
    Ok(Place {
        path: place.path.copy(alloc)?,
        spot: place.spot,
        scope: place.scope.copy(alloc)?,
    })
}

/// Each claimed task becomes runnable again that has a job here, by its number.
fn all_again<'a>(tasks: &mut Tasks<Job<'a>>, jobs: Vec<Option<Job<'a>>>)
    requires { length jobs.items < 2 ^ 32 }
    ensures { tasks.new ≡ spec.all_again 0 jobs.entry.items tasks.old }
{
    let mut task = 0;
    'jobs: for job in jobs {
        again(tasks, task, job);
        task += 1;
    }
}

/// A claimed task becomes runnable again, if a job is given.
fn again<'a>(tasks: &mut Tasks<Job<'a>>, task: u32, job: Option<Job<'a>>)
    ensures { tasks.new ≡ spec.again task job.entry tasks.old }
{
    let Some(job) = job else {
        return;
    };
    if let Some(claim) = tasks.claim_number(task) {
        let _ = tasks.give_back(task, claim, job);
    }
}

/// Claims are numbered from 0, if no task is claimed.
fn renumber<'a>(tasks: &mut Tasks<Job<'a>>)
    ensures { tasks.new ≡ spec.renumbered_unless_claimed tasks.old }
{
    if tasks.claimed_count() == 0 {
        tasks.renumber();
    }
}
