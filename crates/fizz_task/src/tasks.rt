ghost use Rattle.std.specs.Prelude.{◌≡◌, ◌≢◌, ◌↔◌, ◌+◌, ◌<◌, ◌^◌, length, slice_index_or, Some, IfSome, IfNone, IfErr, IsNone, IsOk, OnOk, OnErr};
ghost use Rattle.fizz_task.specs.declared.state.State.TheVariants.{Gone};
ghost use Rattle.fizz_task.specs.Board.{IsBoard, claim_of, count_of, is_claimed, is_runnable, is_waiting, state_at, waiters};
ghost use Rattle.fizz_task.specs.Answers.{Claims, IsRefused, Shows};

use crate::columns::Columns;
use crate::indexing;
use crate::name::Name;
use crate::places::owner_list;
use crate::state::{Claimed, StaleTask, TaskState};
use fizz_text::{OutOfMemory, Text};
use id_lists::IdLists;
use std::alloc::Global;
use std::marker::Model;

/// Tasks with payloads, numbered in the order in which they were made. The runnable ones stand in a queue; a claim takes
/// the first. No call but `reserve` takes memory.
#[derive(Drop)]
pub struct Tasks<W> {
    columns: Columns<W>,
    /// Each task that isn't gone, in a list by its owner.
    by_owner: IdLists,
    /// Each task that waits, in a list by the name of the resource.
    by_name: IdLists,
    /// The tasks that were woken last, with room for all.
    woken: Vec<u32>,
}

impl<W> Model for Tasks<W> {
    ghost use Rattle.fizz_task.specs.Board.{Board};

    ghost Value = { Board W };

    ghost use Rattle.fizz_task.specs.Indexed.{IsIndexed};
    ghost use Rattle.std.specs.Prelude.{◌+◌, ◌≤◌, length, vec_capacity};

    ghost view = { λ t. t.columns };

    ghost invariant = { λ t. IsIndexed t.columns t.by_owner t.by_name
        × (length t.columns.states + t.columns.spare ≤ vec_capacity t.woken) };
}

impl<W> Tasks<W> {
    ghost use Rattle.fizz_task.specs.Calls.{no_tasks};

    /// No task.
    pub fn new(alloc: Global) -> Tasks<W>
        ensures { result ≡ no_tasks }
    {
        Tasks {
            columns: Columns::new(alloc),
            by_owner: IdLists::new(alloc),
            by_name: IdLists::new(alloc),
            woken: Vec::new(alloc),
        }
    }
}

impl<W: Drop> Tasks<W> {
    ghost use Rattle.fizz_task.specs.Calls.{HasNoClaim, IsUnclaimed, dropped, ended, put_off, renumbered, reserved, returned, settled, spawned};

    /// Makes room for at least `n` tasks more.
    pub fn reserve(&mut self, n: u32) -> Result<(), OutOfMemory>
        requires { length self.old.states + n < 2 ^ 32 }
        ensures ok { OnOk result (self.new ≡ reserved n self.old) }
        ensures err { OnErr result (self.new ≡ self.old) }
    {
        if n <= self.columns.spare() {
            return Ok(());
        }
        let tasks = self.columns.made() + n;
        let more_owners = indexing::more_lists(self.by_owner.list_count(), tasks);
        let more_names = indexing::more_lists(self.by_name.list_count(), tasks);
        indexing::reserve(
            &mut self.by_owner,
            &mut self.by_name,
            (more_owners, more_names),
            n,
        )?;
        self.woken.reserve(tasks as usize)?;
        self.columns.reserve(n)?;
        indexing::grow_owners(&self.columns, &mut self.by_owner, more_owners);
        indexing::grow_names(&self.columns, &mut self.by_name, more_names);
        Ok(())
    }

    /// How many tasks can be made without memory.
    pub fn spare(&self) -> u32
        ensures { result ≡ self.now.spare }
    {
        self.columns.spare()
    }

    /// How many tasks were made: the number that the next one gets.
    pub fn made(&self) -> u32
        ensures made { result ≡ length self.now.states }
        ensures board { IsBoard self.now }
    {
        self.columns.made()
    }

    /// Makes a task that waits for a resource, or one that is runnable. Its number is answered.
    pub fn spawn(&mut self, owner: Option<u32>, payload: W, waits: Option<Name>) -> u32
        requires { 0 < self.old.spare }
        ensures number { result ≡ length self.old.states }
        ensures spawned { self.new ≡ spawned owner payload waits self.old }
    {
        let task = self.columns.spawn(owner, payload, waits);
        let _ = self.by_owner.add_id();
        let _ = self.by_name.add_id();
        indexing::place(&self.columns, &mut self.by_owner, &mut self.by_name, task);
        task
    }

    /// Claims the first runnable task. `None` exactly where there is none, or 2^64 - 1 claims were made.
    pub fn claim(&mut self) -> Option<Claimed<W>>
        ensures exactly { IsNone result ↔ HasNoClaim self.old }
        ensures none { IfNone result (self.new ≡ self.old) }
        ensures claimed { IfSome result (Claims self.old self.new) }
    {
        match self.columns.claim() {
            None => None,
            Some(claimed) => Some(claimed),
        }
    }

    /// Makes a claimed task runnable again, the last of the queue.
    pub fn give_back(&mut self, task: u32, claim: u64, payload: W) -> Result<(), StaleTask<W>>
        ensures exactly { IsOk result ↔ (claim_of (state_at self.old.states task) ≡ Some claim) }
        ensures ok { OnOk result (self.new ≡ returned task payload self.old) }
        ensures refused { IfErr result (IsRefused self.old self.new task payload) }
    {
        match self.columns.give_back(task, claim, payload) {
            Ok(()) => Ok(()),
            Err(stale) => Err(stale),
        }
    }

    /// Makes a claimed task wait for a resource.
    pub fn wait_on(
        &mut self,
        task: u32,
        claim: u64,
        payload: W,
        resource: Name,
    ) -> Result<(), StaleTask<W>>
        ensures exactly { IsOk result ↔ (claim_of (state_at self.old.states task) ≡ Some claim) }
        ensures ok { OnOk result (self.new ≡ put_off task payload resource self.old) }
        ensures refused { IfErr result (IsRefused self.old self.new task payload) }
    {
        match self.columns.wait_on(task, claim, payload, resource) {
            Ok(()) => {
                indexing::place(&self.columns, &mut self.by_owner, &mut self.by_name, task);
                Ok(())
            },
            Err(stale) => Err(stale),
        }
    }

    /// Ends a claimed task. Otherwise the number under which it is claimed, if it is, is answered.
    pub fn done(&mut self, task: u32, claim: u64) -> Result<(), Option<u64>>
        ensures exactly { IsOk result ↔ (claim_of (state_at self.old.states task) ≡ Some claim) }
        ensures ok { OnOk result (self.new ≡ ended task self.old) }
        ensures unchanged { OnErr result (self.new ≡ self.old) }
        ensures refused { IfErr result (λ now. now ≡ claim_of (state_at self.old.states task)) }
    {
        match self.columns.done(task, claim) {
            Ok(()) => {
                indexing::place(&self.columns, &mut self.by_owner, &mut self.by_name, task);
                Ok(())
            },
            Err(now) => Err(now),
        }
    }

    /// Makes all tasks that wait for a resource runnable, in ascending order. Their count is answered. It takes time in
    /// proportion to them, but for putting them into order.
    pub fn settle(&mut self, name: &Text) -> u32
        ensures count { result ≡ length (waiters name.now self.old.states) }
        ensures settled { self.new ≡ settled name.now self.old }
    {
        if self.columns.made() == 0 {
            return 0;
        }
        indexing::find_all(&self.columns, &self.by_name, &mut self.woken, name);
        indexing::wake_all(
            &mut self.columns,
            &mut self.by_owner,
            &mut self.by_name,
            &self.woken,
            name,
        );
        self.woken.len() as u32
    }

    /// Lets all tasks of an owner go. It takes time in proportion to them.
    pub fn drop_owned(&mut self, owner: Option<u32>)
        ensures { self.new ≡ dropped owner self.old }
    {
        if self.columns.made() > 0 {
            let list = owner_list(owner, self.by_owner.list_count());
            indexing::drop_all(
                &mut self.columns,
                &mut self.by_owner,
                &mut self.by_name,
                owner,
                list,
            );
        }
    }

    /// How a task stands.
    pub fn state(&self, task: u32) -> TaskState<'_>
        ensures { Shows result (state_at self.now.states task) }
    {
        self.columns.state(task)
    }

    /// The number under which a task is claimed. `None` exactly where it isn't claimed.
    pub fn claim_number(&self, task: u32) -> Option<u64>
        ensures { result ≡ claim_of (state_at self.now.states task) }
    {
        self.columns.claim_number(task)
    }

    /// The owner of a task that isn't gone.
    pub fn owner(&self, task: u32) -> Option<u32>
        requires { state_at self.now.states task ≢ Gone }
        ensures { result ≡ slice_index_or self.now.owners task None }
    {
        self.columns.owner(task)
    }

    /// Begins the numbers of claims anew, where no task is claimed.
    pub fn renumber(&mut self)
        requires { IsUnclaimed self.old }
        ensures { self.new ≡ renumbered self.old }
    {
        self.columns.renumber();
    }

    pub fn runnable_count(&self) -> u32
        ensures { result ≡ count_of is_runnable self.now.states }
    {
        self.columns.runnable_count()
    }

    pub fn claimed_count(&self) -> u32
        ensures { result ≡ count_of is_claimed self.now.states }
    {
        self.columns.claimed_count()
    }

    pub fn waiting_count(&self) -> u32
        ensures { result ≡ count_of is_waiting self.now.states }
    {
        self.columns.waiting_count()
    }
}
