//! A page's state that is driven by calls.

ghost use Rattle.std.specs.Prelude.{IfOk, OnOk};
ghost use Rattle.state_tests.specs.Driven.{IsDriven};

use super::calls;
use fizz_piece::{Plan, Work};
use request_laws::laws_of_standing_works;
use request_state::{Busy, Flushed, StaleWork, State};
use std::alloc::Global;
use std::test::Fail;

/// The state of a page, and works that were handed out and may come back.
#[derive(Drop)]
pub(super) struct Driven<'a> {
    pub(super) state: State<'a>,
    pub(super) held: Vec<Work<'a>>,
}

impl<'a> Driven<'a> {
    /// A page of which nothing is rendered.
    pub(super) fn new(alloc: Global, plan: Plan<'a>) -> Result<Driven<'a>, Fail>
        ensures { IfOk result (λ driven. IsDriven driven.state driven.held.items) }
    {
        laws_of_standing_works();
        let state = State::new(alloc, plan)?;
        Ok(Driven {
            state,
            held: Vec::new(alloc),
        })
    }

    /// Settles the next outcome, and answers its number.
    pub(super) fn settle(&mut self) -> Option<u32>
        requires { IsDriven self.old.state self.old.held.items }
        ensures { IsDriven self.new.state self.new.held.items }
    {
        laws_of_standing_works();
        self.state.settle()
    }

    /// Claims a work and holds it. `false` where there is none.
    pub(super) fn hold(&mut self) -> Result<bool, Fail>
        requires { IsDriven self.old.state self.old.held.items }
        ensures { OnOk result (IsDriven self.new.state self.new.held.items) }
    {
        match calls::claim(&mut self.state) {
            Some(work) => {
                self.held.push(work)?;
                Ok(true)
            }
            None => Ok(false),
        }
    }

    /// Renders a held work and has its piece taken. A stale one is let go.
    pub(super) fn commit(&mut self, alloc: Global, place: usize) -> Result<Option<StaleWork>, Fail>
        requires { IsDriven self.old.state self.old.held.items }
        ensures { OnOk result (IsDriven self.new.state self.new.held.items) }
    {
        match calls::take(&mut self.held, place) {
            Some(work) => calls::commit(alloc, &mut self.state, work),
            None => Err(Fail::from("nothing is held there")),
        }
    }

    /// Gives a held work back. A stale one is let go.
    pub(super) fn give_back(&mut self, place: usize) -> Result<Option<StaleWork>, Fail>
        requires { IsDriven self.old.state self.old.held.items }
        ensures { OnOk result (IsDriven self.new.state self.new.held.items) }
    {
        match calls::take(&mut self.held, place) {
            Some(work) => Ok(calls::give_back(&mut self.state, work).err()),
            None => Err(Fail::from("nothing is held there")),
        }
    }

    /// What is claimed becomes runnable again. How many works were claimed is answered.
    pub(super) fn reclaim(&mut self, alloc: Global) -> Result<u32, Fail>
        requires { IsDriven self.old.state self.old.held.items }
        ensures { OnOk result (IsDriven self.new.state self.new.held.items) }
    {
        laws_of_standing_works();
        Ok(self.state.reclaim(alloc)?)
    }

    /// What waits for what is never settled fails. How many boundaries failed is answered.
    pub(super) fn close(&mut self, alloc: Global) -> Result<u32, Busy>
        requires { IsDriven self.old.state self.old.held.items }
        ensures { IsDriven self.new.state self.new.held.items }
    {
        laws_of_standing_works();
        self.state.close(alloc)
    }

    pub(super) fn flush(&mut self, alloc: Global, budget: u32) -> Result<Flushed, Fail>
        requires { IsDriven self.old.state self.old.held.items }
        ensures { OnOk result (IsDriven self.new.state self.new.held.items) }
    {
        laws_of_standing_works();
        Ok(self.state.flush(alloc, budget)?)
    }

    /// Claims a work, renders it, and has its piece taken. `false` where there is none.
    pub(super) fn work_once(&mut self, alloc: Global) -> Result<bool, Fail>
        requires { IsDriven self.old.state self.old.held.items }
        ensures { OnOk result (IsDriven self.new.state self.new.held.items) }
    {
        match calls::claim(&mut self.state) {
            Some(work) => Ok(calls::commit(alloc, &mut self.state, work)?.is_none()),
            None => Ok(false),
        }
    }

    /// Renders all that can be claimed.
    pub(super) fn work_all(&mut self, alloc: Global) -> Result<(), Fail>
        requires { IsDriven self.old.state self.old.held.items }
        ensures { OnOk result (IsDriven self.new.state self.new.held.items) }
    {
        'works: for _ in 0..u32::MAX {
            if !self.work_once(alloc)? {
                return Ok(());
            }
        }
        Err(Fail::from("works without an end"))
    }

    /// Settles all outcomes.
    pub(super) fn settle_all(&mut self)
        requires { IsDriven self.old.state self.old.held.items }
        ensures { IsDriven self.new.state self.new.held.items }
    {
        'outcomes: for _ in 0..u32::MAX {
            if self.settle().is_none() {
                return;
            }
        }
    }

    /// Sends all that is left.
    pub(super) fn flush_all(&mut self, alloc: Global) -> Result<(), Fail>
        requires { IsDriven self.old.state self.old.held.items }
        ensures { OnOk result (IsDriven self.new.state self.new.held.items) }
    {
        'flushes: for _ in 0..u32::MAX {
            if !self.flush(alloc, 0)?.more {
                return Ok(());
            }
        }
        Err(Fail::from("flushes without an end"))
    }

    /// Ends a page as its script does: what is held is given up, all is rendered, and the rest is sent.
    pub(super) fn finish(&mut self, alloc: Global) -> Result<(), Fail>
        requires { IsDriven self.old.state self.old.held.items }
        ensures { OnOk result (IsDriven self.new.state self.new.held.items) }
    {
        self.settle_all();
        self.reclaim(alloc)?;
        self.work_all(alloc)?;
        self.close(alloc)?;
        self.flush_all(alloc)
    }
}
