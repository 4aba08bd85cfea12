//! Pieces.

ghost use Rattle.std.specs.Prelude.{◌≡◌, ◌≢◌, ◌↔◌, ◌+◌, ◌<◌, ◌≤◌, ◌^◌, false, true, length, map, vec_capacity, IsTrue, IfErr, IfOk, OnOk, OnErr, IfSome, Some, None};
ghost use Rattle.fizz_task.specs.Board.{claim_of, state_at};
ghost use Rattle.fizz_boundary.specs.Bounds.{bound_at, tasks_left};
ghost use Rattle.fizz_boundary.specs.Calls.{IsPending};
ghost use Rattle.fizz_segment.specs.Tree.{part_at};
ghost use Rattle.fizz_segment.specs.Calls.{IsLive, is_complete};
ghost use Rattle.request_state.specs.Core.{core_of, free};
ghost use Rattle.request_state.specs.Claiming as claiming;
ghost use Rattle.request_state.specs.Claiming.{claim_at, keeps, owner_of};
ghost use Rattle.request_state.specs.Committing as spec;
ghost use Rattle.request_state.specs.Committing.{CanCount, CanCountTasks, CanTake, CommitsPiece, IsCommitRefusal, work_in};

use crate::claiming::{job_again, put, take};
use crate::making::{Made, all_made};
use crate::state::State;
use fizz_boundary::{Boundaries, Status};
use fizz_piece::{Kid, Piece, Work};
use fizz_segment::{Flags, SegId, Segments};
use fizz_task::Name;
use fizz_text::{OutOfMemory, Text};
use sqlite_items::Items;
use std::alloc::Global;

/// A piece that isn't taken; it comes back.
#[derive(Drop)]
pub enum CommitRefused<'a> {
    /// Its work isn't one that was handed out and didn't come back. `now` is the number under which the work's task is
    /// claimed.
    Stale { piece: Piece<'a>, now: Option<u64> },
    OutOfMemory { piece: Piece<'a> },
}

/// What a piece that is done needs: the segment and the owner of its task, and its kids with all memory that they take.
#[derive(Drop)]
struct Prepared<'a> {
    segment: SegId,
    owner: Option<u32>,
    kids: u32,
    all: Vec<Made<'a>>,
}

impl<'a> State<'a> {
    /// Takes the piece of a work that was handed out. A piece that is done completes its task's segment, and its kids
    /// become segments, boundaries and tasks; after one that is blocked its task waits; one that has failed fails the
    /// owner of its task. A refusal leaves all as before, but for the room that is kept for more.
    pub fn commit(&mut self, alloc: Global, piece: Piece<'a>) -> Result<(), CommitRefused<'a>>
        ensures ok { OnOk result (CommitsPiece self.old.plan.outcomes.now piece.entry
            (core_of self.old) (core_of self.new)) }
        ensures refused { IfErr result (IsCommitRefusal piece.entry (core_of self.old)) }
        ensures kept { OnErr result (free (core_of self.new) ≡ free (core_of self.old)) }
        ensures plan { self.new.plan ≡ self.old.plan }
    {
        let work = piece_work(&piece);
        if !self.keeps(work) {
            let now = self.number(work);
            return Err(CommitRefused::Stale { piece, now });
        }
        match piece {
            Piece::Done { work, bytes, kids } => self.commit_done(alloc, work, bytes, kids),
            Piece::Blocked { work, resource } => self.commit_blocked(alloc, work, resource),
            Piece::Failed { work, digest } => self.commit_failed(alloc, work, digest),
        }
    }

    fn commit_blocked(
        &mut self,
        alloc: Global,
        work: Work<'a>,
        resource: Text,
    ) -> Result<(), CommitRefused<'a>>
        requires { keeps (core_of self.old) work ≡ true }
        ensures ok { OnOk result (core_of self.new
            ≡ spec.with_blocked self.old.plan.outcomes.now work.entry resource (core_of self.old)) }
        ensures refused { IfErr result (IsCommitRefusal (spec.blocked_piece work.entry resource) (core_of self.old)) }
        ensures kept { OnErr result (core_of self.new ≡ core_of self.old) }
        ensures plan { self.new.plan ≡ self.old.plan }
    {
        if self.plan.outcomes.get(&resource, self.settled).is_some() {
            self.return_work(work);
            return Ok(());
        }
        match Name::of(alloc, &resource) {
            Ok(name) => {
                self.put_off(work, name);
                Ok(())
            },
            Err(_) => Err(CommitRefused::OutOfMemory {
                piece: Piece::Blocked { work, resource },
            }),
        }
    }

    /// The task of a work waits for a resource.
    fn put_off(&mut self, work: Work<'a>, resource: Name)
        requires { keeps (core_of self.old) work ≡ true }
        ensures waits { core_of self.new ≡ spec.with_waiting work.entry resource (core_of self.old) }
        ensures plan { self.new.plan ≡ self.old.plan }
    {
        if let Some(claim) = take(&mut self.claims, work.task) {
            let task = work.task;
            let number = work.claim;
            let _ = self
                .tasks
                .wait_on(task, number, job_again(work, claim), resource);
        }
    }

    fn commit_failed(
        &mut self,
        alloc: Global,
        work: Work<'a>,
        digest: Text,
    ) -> Result<(), CommitRefused<'a>>
        requires { keeps (core_of self.old) work ≡ true }
        ensures ok { OnOk result (spec.Commits self.old.plan.outcomes.now (spec.failed_piece work.entry digest)
            (core_of self.old) (core_of self.new)) }
        ensures refused { IfErr result (IsCommitRefusal (spec.failed_piece work.entry digest) (core_of self.old)) }
        ensures kept { OnErr result (core_of self.new ≡ core_of self.old) }
        ensures plan { self.new.plan ≡ self.old.plan }
    {
        match self.owner(&work) {
            None => {
                self.fail_shell(alloc, digest);
                Ok(())
            },
            Some(boundary) => {
                if !is_pending(&self.boundaries, boundary) {
                    return Err(CommitRefused::OutOfMemory {
                        piece: Piece::Failed { work, digest },
                    });
                }
                self.fail_boundary(boundary, digest);
                Ok(())
            },
        }
    }

    /// The owner of the task of a work that was handed out.
    fn owner(&self, work: &Work<'a>) -> Option<u32>
        requires { keeps (core_of self.now) work.now ≡ true }
        ensures { result ≡ owner_of (core_of self.now) work.now }
    {
        self.tasks.owner(work.task)
    }

    fn commit_done(
        &mut self,
        alloc: Global,
        work: Work<'a>,
        bytes: Vec<u8>,
        kids: Items<Kid<'a>>,
    ) -> Result<(), CommitRefused<'a>>
        requires { keeps (core_of self.old) work ≡ true }
        ensures ok { OnOk result (spec.TakesPieceIf self.old.plan.outcomes.now work.entry
            bytes.items kids.entry (claim_at self.old.claims.items work.entry.task) (core_of self.old) (core_of self.new)) }
        ensures refused { IfErr result (IsCommitRefusal (spec.done_piece work.entry bytes kids.entry) (core_of self.old)) }
        ensures kept { OnErr result (free (core_of self.new) ≡ free (core_of self.old)) }
        ensures plan { self.new.plan ≡ self.old.plan }
    {
        match self.prepare(alloc, &work, kids.as_slice()) {
            Ok(prepared) => {
                self.take_piece(work, bytes, prepared);
                Ok(())
            },
            Err(_) => Err(CommitRefused::OutOfMemory {
                piece: Piece::Done { work, bytes, kids },
            }),
        }
    }

    /// Takes all memory that a piece needs.
    fn prepare(
        &mut self,
        alloc: Global,
        work: &Work<'a>,
        kids: &[Kid<'a>],
    ) -> Result<Prepared<'a>, OutOfMemory>
        requires { keeps (core_of self.old) work.now ≡ true }
        ensures prepared { IfOk result (λ prepared. spec.IsPrepared self.old.plan.outcomes.now work.now
            kids.now prepared self.new) }
        ensures same { free (core_of self.new) ≡ free (core_of self.old) }
        ensures plan { self.new.plan ≡ self.old.plan }
    {
        if kids.len() > u32::MAX as usize {
            return Err(OutOfMemory);
        }
        let count = kids.len() as u32;
        let all = all_made(alloc, self.plan.outcomes, self.settled, kids)?;
        self.reserve(count)?;
        let segment = self.segment(work)?;
        let owner = self.owner(work);
        self.can_count(owner, segment, count)?;
        Ok(Prepared {
            segment,
            owner,
            kids: count,
            all,
        })
    }

    /// The segment of a work that was handed out, which can be completed.
    fn segment(&self, work: &Work<'a>) -> Result<SegId, OutOfMemory>
        ensures kept { IfOk result (λ segment. spec.kept_segment (claim_at self.now.claims.items work.now.task)
            ≡ Some segment) }
        ensures live { IfOk result (λ segment. IsLive self.now.segments segment) }
        ensures open { IfOk result (λ segment. is_complete (part_at self.now.segments.parts segment) ≡ false) }
    {
        match self.claims.get(work.task as usize) {
            Some(Some(claim)) => open_segment(&self.segments, claim.segment),
            _ => Err(OutOfMemory),
        }
    }

    /// Whether the owner's tasks can be counted, and a segment of it be ready.
    fn can_count(&self, owner: Option<u32>, segment: SegId, count: u32) -> Result<(), OutOfMemory>
        ensures { OnOk result (CanCount owner segment count self.now) }
    {
        match owner {
            None => can_add(self.shell_tasks, count),
            Some(boundary) => {
                if !self.queues.has_places(segment, boundary) {
                    return Err(OutOfMemory);
                }
                match tasks_of(&self.boundaries, boundary) {
                    Some(tasks) => can_add(tasks, count),
                    None => Err(OutOfMemory),
                }
            },
        }
    }

    /// Takes a piece for which all memory is there.
    fn take_piece(&mut self, work: Work<'a>, bytes: Vec<u8>, prepared: Prepared<'a>)
        requires kept { keeps (core_of self.old) work ≡ true }
        requires prepared { CanTake prepared self.old }
        ensures taken { core_of self.new ≡ spec.with_prepared prepared.entry work.entry bytes.items (core_of self.old) }
        ensures plan { self.new.plan ≡ self.old.plan }
    {
        let Prepared {
            segment,
            owner,
            kids,
            all,
        } = prepared;
        let size = bytes.len() as u64;
        self.complete(work, segment, bytes);
        self.count(owner, kids, size);
        self.make_all(owner, segment, all);
        self.queues
            .segment_done(&self.segments, &self.boundaries, segment, owner);
    }

    /// A task is done, and its segment complete.
    fn complete(&mut self, work: Work<'a>, segment: SegId, bytes: Vec<u8>)
        requires kept { keeps (core_of self.old) work ≡ true }
        requires live { IsLive self.old.segments segment }
        requires open { is_complete (part_at self.old.segments.parts segment) ≡ false }
        ensures completed { core_of self.new ≡ spec.with_bytes work.entry segment bytes.items (core_of self.old) }
        ensures room { vec_capacity self.new.claims ≡ vec_capacity self.old.claims }
        ensures plan { self.new.plan ≡ self.old.plan }
    {
        let _ = self.tasks.done(work.task, work.claim);
        put(&mut self.claims, work.task, None);
        let flags = Flags {
            lead: work.flags.lead,
            embedded: work.flags.embedded,
        };
        self.segments.complete(segment, flags, bytes);
    }

    /// One task of the owner is done, which printed so many bytes, and so many are made.
    fn count(&mut self, owner: Option<u32>, kids: u32, bytes: u64)
        requires { CanCountTasks owner kids self.old }
        ensures counted { core_of self.new ≡ spec.counted owner kids bytes (core_of self.old) }
        ensures room { vec_capacity self.new.claims ≡ vec_capacity self.old.claims }
        ensures plan { self.new.plan ≡ self.old.plan }
    {
        match owner {
            None => self.shell_tasks = self.shell_tasks + kids - 1,
            Some(boundary) => {
                self.boundaries.parts_added(boundary, kids);
                self.boundaries.part_done(boundary, bytes);
            },
        }
    }
}

/// Whether so many tasks and one more can be counted.
fn can_add(tasks: u32, count: u32) -> Result<(), OutOfMemory>
    ensures { OnOk result ((1 ≤ tasks) × (tasks + count < 2 ^ 32)) }
{
    if tasks == 0 {
        return Err(OutOfMemory);
    }
    if count > u32::MAX - tasks {
        return Err(OutOfMemory);
    }
    Ok(())
}

/// A segment that is live and not complete.
fn open_segment(segments: &Segments, segment: SegId) -> Result<SegId, OutOfMemory>
    ensures same { IfOk result (λ found. found ≡ segment) }
    ensures live { OnOk result (IsLive segments.now segment) }
    ensures open { OnOk result (is_complete (part_at segments.now.parts segment) ≡ false) }
{
    if !segments.is_live(segment) {
        return Err(OutOfMemory);
    }
    if segments.look(segment).bytes.is_some() {
        return Err(OutOfMemory);
    }
    Ok(segment)
}

/// How many tasks a boundary has, if it is pending.
fn tasks_of(boundaries: &Boundaries, boundary: u32) -> Option<u32>
    ensures { result ≡ tasks_left (bound_at boundaries.now.bounds boundary) }
{
    if boundary >= boundaries.next() {
        return None;
    }
    match boundaries.status(boundary) {
        Status::Pending { tasks } => Some(tasks),
        _ => None,
    }
}

pub(crate) fn is_pending(boundaries: &Boundaries, boundary: u32) -> bool
    ensures { IsTrue result ↔ IsPending boundaries.now boundary }
{
    tasks_of(boundaries, boundary).is_some()
}

/// The work of a piece.
fn piece_work<'p, 'a>(piece: &'p Piece<'a>) -> &'p Work<'a>
    ensures { result.now ≡ work_in piece.now }
{
    match piece {
        Piece::Done {
            work,
            bytes: _,
            kids: _,
        } => work,
        Piece::Blocked { work, resource: _ } => work,
        Piece::Failed { work, digest: _ } => work,
    }
}
