ghost use Rattle.std.specs.Prelude.{◌≡◌, ◌≢◌, ◌↔◌, ◌+◌, ◌<◌, ◌^◌, [], ◌∷◌, ◌++◌, length, slice_index_or, None, Some, IfSome, IfNone, IfErr, IsNone, IsOk, OnOk, OnErr, IsTrue, if◌then◌else◌, ◌≤◌, map, vec_capacity};
ghost use Rattle.std.specs.VecDeque.{deque_capacity};
ghost use Rattle.fizz_task.specs.declared.state.State.TheVariants.{Claimed as ClaimedState, Gone, Runnable};
ghost use Rattle.fizz_task.specs.Board.{claim_of, count_of, is_claimed, is_runnable, is_waiting, one, state_at, waiters, waits_for};
ghost use Rattle.fizz_task.specs.Calls.{owner_at, woken};
ghost use Rattle.fizz_task.specs.Indexed.{name_place, owner_place};
ghost use Rattle.fizz_task.specs.Answers.{Shows};
ghost use Rattle.fizz_task.specs.Stored.{IsFirst, IsQueue, runnable_in};

use crate::name::Name;
use crate::places::{owner_list, waited_list};
use crate::state::{Claimed, StaleTask, State, TaskState};
use fizz_text::{OutOfMemory, Text};
use std::alloc::Global;
use std::collections::VecDeque;
use std::marker::Model;
use std::mem;

/// Tasks with payloads, numbered in the order in which they were made. The runnable ones stand in a queue; a claim takes
/// the first. No call but `reserve` takes memory.
#[derive(Drop)]
pub(crate) struct Columns<W> {
    owners: Vec<Option<u32>>,
    states: Vec<State<W>>,
    /// The runnable tasks in their order, among them some that are gone.
    queue: VecDeque<u32>,
    claims: u64,
    spare: u32,
    runnable: u32,
    claimed: u32,
    waiting: u32,
}

impl<W> Model for Columns<W> {
    ghost use Rattle.fizz_task.specs.Board.{Board};
    ghost use Rattle.std.specs.Prelude.{◌<◌, ◌^◌, length, vec_capacity};
    ghost use Rattle.std.specs.VecDeque.{deque_capacity};

    ghost Value = { Board W };

    ghost use Rattle.fizz_task.specs.Stored.{HasCounts, HasRoom, IsKept, runnable_in};

    ghost view = { λ t. record {
      owners = t.owners.items;
      states = t.states.items;
      queue = runnable_in t.states.items t.queue.items;
      claims = t.claims;
      spare = t.spare;
    } };

    ghost invariant = { λ t. IsKept t.owners.items t.states.items t.queue.items t.claims t.spare
        × HasCounts t.states.items t.runnable t.claimed t.waiting
        × HasRoom (length t.states.items) t.spare (vec_capacity t.owners) (vec_capacity t.states)
        (deque_capacity t.queue) };
}

impl<W> Columns<W> {
    ghost use Rattle.fizz_task.specs.Calls.{no_tasks};

    /// No task.
    pub(crate) fn new(alloc: Global) -> Columns<W>
        ensures { result ≡ no_tasks }
    {
        Columns {
            owners: Vec::new(alloc),
            states: Vec::new(alloc),
            queue: VecDeque::new(alloc),
            claims: 0,
            spare: 0,
            runnable: 0,
            claimed: 0,
            waiting: 0,
        }
    }
}

impl<W: Drop> Columns<W> {
    ghost use Rattle.fizz_task.specs.Board.{IsBoard};
    ghost use Rattle.fizz_task.specs.Calls.{HasNoClaim, IsUnclaimed, ended, is_owned, let_go, put_off, renumbered, reserved, returned, settled, spawned, woken_one};
    ghost use Rattle.fizz_task.specs.Answers.{Claims, IsRefused};

    /// Makes room for at least `n` tasks more.
    pub(crate) fn reserve(&mut self, n: u32) -> Result<(), OutOfMemory>
        requires { length self.old.states + n < 2 ^ 32 }
        ensures ok { OnOk result (self.new ≡ reserved n self.old) }
        ensures err { OnErr result (self.new ≡ self.old) }
    {
        if n <= self.spare {
            return Ok(());
        }
        let made = self.states.len();
        self.owners.reserve(n as usize)?;
        self.states.reserve(n as usize)?;
        self.queue.reserve(made - self.queue.len() + n as usize)?;
        self.spare = n;
        Ok(())
    }

    /// How many tasks can be made without memory.
    pub(crate) fn spare(&self) -> u32
        ensures { result ≡ self.now.spare }
    {
        self.spare
    }

    /// How many tasks were made: the number that the next one gets.
    pub(crate) fn made(&self) -> u32
        ensures made { result ≡ length self.now.states }
        ensures board { IsBoard self.now }
    {
        self.states.len() as u32
    }

    /// Makes a task that waits for a resource, or one that is runnable. Its number is answered.
    pub(crate) fn spawn(&mut self, owner: Option<u32>, payload: W, waits: Option<Name>) -> u32
        requires { 0 < self.old.spare }
        ensures number { result ≡ length self.old.states }
        ensures spawned { self.new ≡ spawned owner payload waits self.old }
        ensures owned { length self.old.owners ≡ length self.old.states }
    {
        let task = self.states.len() as u32;
        self.owners.push_reserved(owner);
        self.spare -= 1;
        match waits {
            None => {
                self.states.push_reserved(State::Runnable(payload));
                self.queue.push_back_reserved(task);
                self.runnable += 1;
            },
            Some(resource) => {
                self.states.push_reserved(State::Waiting(resource, payload));
                self.waiting += 1;
            },
        }
        task
    }

    /// Claims the first runnable task. `None` exactly where there is none, or 2^64 - 1 claims were made.
    pub(crate) fn claim(&mut self) -> Option<Claimed<W>>
        ensures exactly { IsNone result ↔ HasNoClaim self.old }
        ensures none { IfNone result (self.new ≡ self.old) }
        ensures claimed { IfSome result (Claims self.old self.new) }
    {
        if self.claims == u64::MAX {
            return None;
        }
        let task = first_runnable(&mut self.queue, &self.states)?;
        let claim = self.claims;
        let payload = claim_state(&mut self.states[task as usize], claim);
        self.claims += 1;
        self.runnable -= 1;
        self.claimed += 1;
        Some(Claimed {
            task,
            claim,
            payload,
        })
    }

    /// Makes a claimed task runnable again, the last of the queue.
    pub(crate) fn give_back(
        &mut self,
        task: u32,
        claim: u64,
        payload: W,
    ) -> Result<(), StaleTask<W>>
        ensures exactly { IsOk result ↔ (claim_of (state_at self.old.states task) ≡ Some claim) }
        ensures ok { OnOk result (self.new ≡ returned task payload self.old) }
        ensures refused { IfErr result (IsRefused self.old self.new task payload) }
    {
        let now = claim_at(&self.states, task);
        if now != Some(claim) {
            return Err(StaleTask { payload, now });
        }
        self.states[task as usize] = State::Runnable(payload);
        self.queue.push_back_reserved(task);
        self.claimed -= 1;
        self.runnable += 1;
        Ok(())
    }

    /// Makes a claimed task wait for a resource.
    pub(crate) fn wait_on(
        &mut self,
        task: u32,
        claim: u64,
        payload: W,
        resource: Name,
    ) -> Result<(), StaleTask<W>>
        ensures exactly { IsOk result ↔ (claim_of (state_at self.old.states task) ≡ Some claim) }
        ensures ok { OnOk result (self.new ≡ put_off task payload resource self.old) }
        ensures refused { IfErr result (IsRefused self.old self.new task payload) }
    {
        let now = claim_at(&self.states, task);
        if now != Some(claim) {
            return Err(StaleTask { payload, now });
        }
        self.states[task as usize] = State::Waiting(resource, payload);
        self.claimed -= 1;
        self.waiting += 1;
        Ok(())
    }

    /// Ends a claimed task. Otherwise the number under which it is claimed, if it is, is answered.
    pub(crate) fn done(&mut self, task: u32, claim: u64) -> Result<(), Option<u64>>
        ensures exactly { IsOk result ↔ (claim_of (state_at self.old.states task) ≡ Some claim) }
        ensures ok { OnOk result (self.new ≡ ended task self.old) }
        ensures unchanged { OnErr result (self.new ≡ self.old) }
        ensures refused { IfErr result (λ now. now ≡ claim_of (state_at self.old.states task)) }
    {
        let now = claim_at(&self.states, task);
        if now != Some(claim) {
            return Err(now);
        }
        self.states[task as usize] = State::Gone;
        self.claimed -= 1;
        Ok(())
    }

    /// Makes a task that waits for a resource runnable, the last of the queue.
    pub(crate) fn wake(&mut self, task: u32, name: &Text)
        requires { IsTrue (waits_for name.now (state_at self.old.states task)) }
        ensures { self.new ≡ woken_one name.now task self.old }
    {
        wake(&mut self.states[task as usize], name);
        self.queue.push_back_reserved(task);
        self.waiting -= 1;
        self.runnable += 1;
    }

    /// Lets a task go.
    pub(crate) fn let_go(&mut self, task: u32)
        requires { task < length self.old.states }
        ensures gone { self.new ≡ let_go task self.old }
        ensures board { IsBoard self.new }
    {
        let gone = drop_one(&mut self.states[task as usize]);
        self.runnable -= gone.runnable;
        self.claimed -= gone.claimed;
        self.waiting -= gone.waiting;
    }

    /// Whether a task waits for a resource.
    pub(crate) fn waits_for(&self, task: u32, name: &Text) -> bool
        ensures { result ≡ waits_for name.now (state_at self.now.states task) }
    {
        match self.states.get(task as usize) {
            Some(state) => waits_for(state, name),
            None => false,
        }
    }

    /// Among so many lists, the one of a task by its owner.
    pub(crate) fn owner_place(&self, task: u32, count: u32) -> Option<u32>
        requires { 1 < count }
        ensures { result ≡ owner_place count (owner_at self.now.owners task) (state_at self.now.states task) }
    {
        let owner = owner_at(&self.owners, task);
        match self.states.get(task as usize) {
            None => None,
            Some(State::Gone) => None,
            Some(_) => Some(owner_list(owner, count)),
        }
    }

    /// Among so many lists, the one of a task by the resource for which it waits.
    pub(crate) fn name_place(&self, task: u32, count: u32) -> Option<u32>
        requires { 1 < count }
        ensures { result ≡ name_place count (state_at self.now.states task) }
    {
        match self.states.get(task as usize) {
            Some(State::Waiting(name, _)) => Some(waited_list(name, count)),
            _ => None,
        }
    }

    /// Whether a task is one of this owner.
    pub(crate) fn is_owned(&self, task: u32, owner: Option<u32>) -> bool
        ensures { result ≡ is_owned owner self.now.owners task }
    {
        owner == owner_at(&self.owners, task)
    }

    /// How a task stands.
    pub(crate) fn state(&self, task: u32) -> TaskState<'_>
        ensures { Shows result (state_at self.now.states task) }
    {
        match self.states.get(task as usize) {
            None => TaskState::Gone,
            Some(state) => shown(state),
        }
    }

    /// The number under which a task is claimed.
    pub(crate) fn claim_number(&self, task: u32) -> Option<u64>
        ensures { result ≡ claim_of (state_at self.now.states task) }
    {
        claim_at(&self.states, task)
    }

    /// The owner of a task that isn't gone.
    pub(crate) fn owner(&self, task: u32) -> Option<u32>
        requires { state_at self.now.states task ≢ Gone }
        ensures { result ≡ slice_index_or self.now.owners task None }
    {
        match self.owners.get(task as usize) {
            None => None,
            Some(owner) => *owner,
        }
    }

    /// Begins the numbers of claims anew, where no task is claimed.
    pub(crate) fn renumber(&mut self)
        requires { IsUnclaimed self.old }
        ensures { self.new ≡ renumbered self.old }
    {
        self.claims = 0;
    }

    pub(crate) fn runnable_count(&self) -> u32
        ensures { result ≡ count_of is_runnable self.now.states }
    {
        self.runnable
    }

    pub(crate) fn claimed_count(&self) -> u32
        ensures { result ≡ count_of is_claimed self.now.states }
    {
        self.claimed
    }

    pub(crate) fn waiting_count(&self) -> u32
        ensures { result ≡ count_of is_waiting self.now.states }
    {
        self.waiting
    }
}

/// The number under which a task is claimed.
fn claim_at<W>(states: &[State<W>], task: u32) -> Option<u64>
    ensures { result ≡ claim_of (state_at states.now task) }
{
    match states.get(task as usize) {
        Some(State::Claimed(claim)) => Some(*claim),
        _ => None,
    }
}

fn shown<W>(state: &State<W>) -> TaskState<'_>
    ensures { Shows result state.now }
{
    match state {
        State::Gone => TaskState::Gone,
        State::Runnable(_) => TaskState::Runnable,
        State::Claimed(claim) => TaskState::Claimed { claim: *claim },
        State::Waiting(resource, _) => TaskState::Waiting { resource },
    }
}

/// Claims a runnable task, and takes its payload out.
fn claim_state<W>(state: &mut State<W>, claim: u64) -> W
    requires { IsTrue (is_runnable state.old) }
    ensures payload { state.old ≡ Runnable result }
    ensures claimed { state.new ≡ ClaimedState claim }
{
    match mem::replace(state, State::Claimed(claim)) {
        State::Runnable(payload) => payload,
        _ => unreachable!(),
    }
}

/// Takes the first runnable task out of the queue, and those before it that are gone.
fn first_runnable<W>(queue: &mut VecDeque<u32>, states: &[State<W>]) -> Option<u32>
    requires { IsQueue states.now queue.old.items }
    ensures none { IfNone result (queue.new.items ≡ []) }
    ensures none_runnable { IfNone result (runnable_in states.now queue.old.items ≡ []) }
    ensures first { IfSome result (IsFirst states.now queue.old.items queue.new.items) }
    ensures len { deque_capacity queue.new ≡ deque_capacity queue.old }
{
    while let Some(task) = queue.pop_front() {
        if is_runnable(&states[task as usize]) {
            return Some(task);
        }
    }
    None
}

fn is_runnable<W>(state: &State<W>) -> bool
    ensures { result ≡ is_runnable state.now }
{
    matches!(state, State::Runnable(_))
}

fn waits_for<W>(state: &State<W>, name: &Text) -> bool
    ensures { result ≡ waits_for name.now state.now }
{
    match state {
        State::Waiting(resource, _) => name.as_bytes() == resource.as_bytes(),
        _ => false,
    }
}

/// Makes a waiting task runnable.
fn wake<W: Drop>(state: &mut State<W>, name: &Text)
    requires { IsTrue (waits_for name.now state.old) }
    ensures { state.new ≡ woken name.now state.old }
{
    if let State::Waiting(_, payload) = mem::replace(state, State::Gone) {
        *state = State::Runnable(payload);
    }
}

fn owner_at(owners: &[Option<u32>], task: u32) -> Option<u32>
    ensures { result ≡ owner_at owners.now task }
{
    match owners.get(task as usize) {
        Some(owner) => *owner,
        None => None,
    }
}

/// How many tasks of each kind there are.
#[derive(Clone, Copy)]
struct Counts {
    runnable: u32,
    claimed: u32,
    waiting: u32,
}

/// Lets a task go, and tells its kind.
fn drop_one<W: Drop>(state: &mut State<W>) -> Counts
    ensures gone { state.new ≡ Gone }
    ensures runnable { result.runnable ≡ one (is_runnable state.old) }
    ensures claimed { result.claimed ≡ one (is_claimed state.old) }
    ensures waiting { result.waiting ≡ one (is_waiting state.old) }
{
    let mut counts = Counts {
        runnable: 0,
        claimed: 0,
        waiting: 0,
    };
    match state {
        State::Gone => {},
        State::Runnable(_) => counts.runnable = 1,
        State::Claimed(_) => counts.claimed = 1,
        State::Waiting(_, _) => counts.waiting = 1,
    }
    *state = State::Gone;
    counts
}
