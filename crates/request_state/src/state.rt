//! The state of a page that is being rendered.

ghost use Rattle.std.specs.Prelude.{◌≡◌, ◌∷◌, [], IfOk, None};
ghost use Rattle.id_lists.specs.Calls.{no_lists, with_id};
ghost use Rattle.flush_queues.specs.Queues.{bare, without_room};
ghost use Rattle.request_state.specs.Core as spec;

use crate::job::{Claim, Job, Place};
use fizz_boundary::Boundaries;
use fizz_piece::Plan;
use fizz_segment::{SegId, Segments};
use fizz_task::Tasks;
use fizz_text::{OutOfMemory, Path, Text};
use flush_queues::Queues;
use id_lists::IdLists;
use jsx_value::{Scope, Spot};
use std::alloc::Global;

/// The state of a page that is being rendered: how many of the plan's outcomes are settled; its tasks, segments and
/// boundaries, and what of them is still to be sent; and what was sent.
#[derive(Drop)]
pub struct State<'a> {
    pub(crate) plan: Plan<'a>,
    pub(crate) settled: u32,
    pub(crate) tasks: Tasks<Job<'a>>,
    /// By task, what is kept of those that are claimed.
    pub(crate) claims: Vec<Option<Claim<'a>>>,
    /// How many tasks the shell has.
    pub(crate) shell_tasks: u32,
    pub(crate) segments: Segments,
    /// By boundary, its segments.
    pub(crate) own: IdLists,
    pub(crate) boundaries: Boundaries,
    pub(crate) queues: Queues,
    pub(crate) transcript: Vec<u8>,
    /// The transcript's length after each flush that appended something.
    pub(crate) marks: Vec<usize>,
    /// The digest of the shell, if it has failed.
    pub(crate) failure: Option<Text>,
}

/// How far a page is.
#[derive(Clone, Copy, Debug)]
pub enum Fate<'a> {
    Running,
    /// The shell is sent, no task is left, and nothing waits to be sent.
    Ended,
    ShellFailed { digest: &'a Text },
}

impl<'a> State<'a> {
    ghost use Rattle.request_state.specs.Core.{core_of, free, new_core};
    ghost use Rattle.fizz_task.specs.Board.{count_of, is_claimed, is_runnable};

    /// The state of a page of which nothing is rendered: the shell has one task, which is runnable.
    pub fn new(alloc: Global, plan: Plan<'a>) -> Result<State<'a>, OutOfMemory>
        ensures plan { IfOk result (λ state. state.plan ≡ plan.entry) }
        ensures new { IfOk result (λ state. free (core_of state) ≡ new_core) }
    {
        let tasks = new_tasks(alloc)?;
        let claims = new_claims(alloc)?;
        let segments = new_segments(alloc)?;
        let own = new_own(alloc)?;
        let queues = new_queues(alloc)?;
        Ok(State {
            plan,
            settled: 0,
            tasks,
            claims,
            shell_tasks: 1,
            segments,
            own,
            boundaries: Boundaries::new(alloc),
            queues,
            transcript: Vec::new(alloc),
            marks: Vec::new(alloc),
            failure: None,
        })
    }

    /// What is rendered.
    pub fn plan(&self) -> Plan<'a>
        ensures { result ≡ self.now.plan }
    {
        self.plan
    }

    /// How many of the plan's outcomes are settled.
    pub fn settled(&self) -> u32
        ensures { result ≡ (core_of self.now).settled }
    {
        self.settled
    }

    /// The bytes of all flushes.
    pub fn transcript(&self) -> &[u8]
        ensures { result.now ≡ (core_of self.now).transcript }
    {
        self.transcript.as_slice()
    }

    /// The transcript's length after each flush that appended something.
    pub fn marks(&self) -> &[usize]
        ensures { result.now ≡ (core_of self.now).marks }
    {
        self.marks.as_slice()
    }

    /// How many tasks are claimed.
    pub fn claimed_count(&self) -> u32
        ensures { result ≡ count_of is_claimed (core_of self.now).tasks.states }
    {
        self.tasks.claimed_count()
    }

    /// How many tasks can be claimed.
    pub fn runnable_count(&self) -> u32
        ensures { result ≡ count_of is_runnable (core_of self.now).tasks.states }
    {
        self.tasks.runnable_count()
    }
}

/// The task of the shell.
fn new_tasks<'a>(alloc: Global) -> Result<Tasks<Job<'a>>, OutOfMemory>
    ensures { IfOk result (λ tasks. record tasks { spare = 0 } ≡ spec.new_tasks) }
{
    let mut tasks = Tasks::new(alloc);
    tasks.reserve(1)?;
    tasks.spawn(None, root_job(alloc, SegId(0)), None);
    Ok(tasks)
}

/// Nothing is kept of the shell's task.
fn new_claims<'a>(alloc: Global) -> Result<Vec<Option<Claim<'a>>>, OutOfMemory>
    ensures { IfOk result (λ claims. claims.items ≡ None ∷ []) }
{
    let mut claims = Vec::new(alloc);
    claims.push(None)?;
    Ok(claims)
}

/// The segment of the shell.
fn new_segments(alloc: Global) -> Result<Segments, OutOfMemory>
    ensures { IfOk result (λ segments. record segments { spare = 0 } ≡ spec.new_segments) }
{
    let mut segments = Segments::new(alloc);
    segments.reserve(1)?;
    segments.add_root(None);
    Ok(segments)
}

/// The segment of the shell is no boundary's.
fn new_own(alloc: Global) -> Result<IdLists, OutOfMemory>
    ensures { IfOk result (λ own. bare own ≡ with_id no_lists) }
{
    let mut own = IdLists::new(alloc);
    own.reserve(0, 1)?;
    own.add_id();
    Ok(own)
}

/// The queues, which know of the segment of the shell.
fn new_queues(alloc: Global) -> Result<Queues, OutOfMemory>
    ensures { IfOk result (λ queues. without_room queues ≡ spec.first_queues) }
{
    let mut queues = Queues::new(alloc, 0, Some(SegId(0)));
    queues.make_queues()?;
    queues.reserve(1, 0)?;
    queues.add_segment();
    Ok(queues)
}

/// The call of `App`, which is the content of the shell.
fn root_job<'a>(alloc: Global, segment: SegId) -> Job<'a>
    ensures { result ≡ spec.root_job segment }
{
    Job {
        segment,
        given: root_place(alloc),
        kept: root_place(alloc),
    }
}

fn root_place<'a>(alloc: Global) -> Place<'a>
    ensures { result ≡ spec.root_place }
{
    Place {
        path: Path::new(alloc),
        spot: Spot::Root,
        scope: Scope::empty(alloc),
    }
}
