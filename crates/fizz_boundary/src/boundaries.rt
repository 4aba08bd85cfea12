ghost use Rattle.std.specs.Prelude.{◌≡◌, ◌↔◌, ◌+◌, ◌<◌, ◌^◌, length, IsTrue, IfSome, IfOk, OnOk, OnErr, IsSome, Some, None};
ghost use Rattle.fizz_boundary.specs.declared.boundary.State.TheVariants.{Pending};
ghost use Rattle.fizz_boundary.specs.Bounds.{tasks_of};
ghost use Rattle.fizz_boundary.specs.Calls.{one_done};

use crate::boundary::{Bound, BoundaryView, Mark, Part, State, Status};
use crate::marks::Marks;
use fizz_segment::SegId;
use fizz_text::{OutOfMemory, Path, Text};
use std::alloc::Global;
use std::marker::Model;

/// The boundaries of a page, numbered in the order in which they were made. No call but `reserve` takes memory.
#[derive(Debug, Drop)]
pub struct Boundaries {
    bounds: Vec<Bound>,
    marks: Vec<Mark>,
    spare: u32,
}

impl Model for Boundaries {
    ghost use Rattle.std.specs.Prelude.{◌+◌, ◌≤◌, length, vec_capacity};
    ghost use Rattle.fizz_boundary.specs.Bounds.{AreBounds, Bounds};

    ghost Value = { Bounds };

    ghost view = { λ b. record { bounds = b.bounds.items; marks = b.marks.items; spare = b.spare } };

    ghost invariant = { λ b. AreBounds (record { bounds = b.bounds.items; marks = b.marks.items; spare = b.spare })
        × (length b.bounds.items + b.spare ≤ vec_capacity b.bounds)
        × (length b.bounds.items + b.spare ≤ vec_capacity b.marks) };
}

impl Boundaries {
    ghost use Rattle.fizz_boundary.specs.Bounds.{AreBounds, bound_at, mark_at, tasks_left};
    ghost use Rattle.fizz_boundary.specs.Calls.{IsMade, IsParent, IsPending, added, failed_with, more, no_boundaries, one_done, reserved, with_drawn, with_revealed, with_state};
    ghost use Rattle.fizz_boundary.specs.Views.{IsLook, OfBound, Shows};

    /// No boundary.
    pub fn new(alloc: Global) -> Boundaries
        ensures { result ≡ no_boundaries }
    {
        Boundaries {
            bounds: Vec::new(alloc),
            marks: Vec::new(alloc),
            spare: 0,
        }
    }

    /// Makes room for at least `n` boundaries more.
    pub fn reserve(&mut self, n: u32) -> Result<(), OutOfMemory>
        requires { length self.old.bounds + n < 2 ^ 32 }
        ensures ok { OnOk result (self.new ≡ reserved n self.old) }
        ensures err { OnErr result (self.new ≡ self.old) }
    {
        if n <= self.spare {
            return Ok(());
        }
        self.bounds.reserve(n as usize)?;
        self.marks.reserve(n as usize)?;
        self.spare = n;
        Ok(())
    }

    /// How many boundaries can be made without memory.
    pub fn spare(&self) -> u32
        ensures spare { result ≡ self.now.spare }
    {
        self.spare
    }

    /// The number that the next boundary gets.
    pub fn next(&self) -> u32
        ensures next { result ≡ length self.now.bounds }
        ensures bounds { AreBounds self.now }
    {
        self.bounds.len() as u32
    }

    /// Makes a boundary, which has one task, its content, of the segments of its content and its fallback. Its number is
    /// answered.
    pub fn add(&mut self, path: Path, parent: Option<u32>, root: SegId, site: Option<SegId>) -> u32
        requires spare { 0 < self.old.spare }
        requires parent { IsParent self.old parent }
        ensures number { result ≡ length self.old.bounds }
        ensures added { self.new ≡ added path parent root site self.old }
    {
        let id = self.bounds.len() as u32;
        self.bounds.push_reserved(Bound {
            path,
            parent,
            root,
            site,
            state: State::Pending { tasks: 1, bytes: 0 },
        });
        self.marks.push_reserved(Mark {
            drawn: None,
            revealed: false,
        });
        self.spare -= 1;
        id
    }

    /// How a boundary stands.
    pub fn look(&self, id: u32) -> BoundaryView
        requires { IsMade self.now id }
        ensures { IsLook self.now id result }
    {
        let bound = &self.bounds[id as usize];
        let mark = self.marks[id as usize];
        BoundaryView {
            parent: bound.parent,
            root: bound.root,
            site: bound.site,
            drawn: mark.drawn,
            revealed: mark.revealed,
        }
    }

    /// Where a boundary stands.
    pub fn path(&self, id: u32) -> &Path
        requires { IsMade self.now id }
        ensures { OfBound (λ b. result.now ≡ b.path) (bound_at self.now.bounds id) }
    {
        &self.bounds[id as usize].path
    }

    /// How far a boundary is.
    pub fn status(&self, id: u32) -> Status<'_>
        requires { IsMade self.now id }
        ensures status { OfBound (λ b. Shows result b.state) (bound_at self.now.bounds id) }
        ensures bounds { AreBounds self.now }
    {
        match &self.bounds[id as usize].state {
            State::Pending { tasks, bytes: _ } => Status::Pending { tasks: *tasks },
            State::Complete { bytes } => Status::Complete { bytes: *bytes },
            State::Failed { digest } => Status::Failed { digest },
        }
    }

    /// The boundary is printed as pending, with an id.
    pub fn draw(&mut self, id: u32, h: u32)
        requires { IsMade self.old id }
        ensures { self.new ≡ with_drawn id h self.old }
    {
        self.marks[id as usize].drawn = Some(h);
    }

    /// The boundary is printed as complete, or its instruction is.
    pub fn reveal(&mut self, id: u32)
        requires { IsMade self.old id }
        ensures { self.new ≡ with_revealed id self.old }
    {
        self.marks[id as usize].revealed = true;
    }

    /// How a boundary is printed; one that was never made isn't.
    pub fn mark(&self, id: u32) -> Mark
        ensures { result ≡ mark_at self.now.marks id }
    {
        match self.marks.get(id as usize) {
            Some(mark) => *mark,
            None => Mark {
                drawn: None,
                revealed: false,
            },
        }
    }

    /// A copy of how the boundaries are printed.
    pub fn marks(&self, alloc: Global) -> Result<Marks, OutOfMemory>
        ensures marks { IfOk result (λ m. m ≡ self.now.marks) }
        ensures bounds { AreBounds self.now }
    {
        let items = Vec::from_slice(alloc, &self.marks)?;
        Ok(Marks { items })
    }

    /// The boundaries are printed as a changed copy says.
    pub fn set_marks(&mut self, marks: &Marks)
        requires { length marks.now ≡ length self.old.bounds }
        ensures { self.new ≡ record self.old { marks = marks.now } }
    {
        self.marks.copy_from_slice(&marks.items);
    }

    /// The boundary gets a task more.
    pub fn part_added(&mut self, id: u32)
        requires pending { IsPending self.old id }
        requires few { IfSome (tasks_left (bound_at self.old.bounds id)) (λ tasks. tasks + 1 < 2 ^ 32) }
        ensures { self.new ≡ with_state (more 1) id self.old }
    {
        if let State::Pending { tasks, bytes: _ } = &mut self.bounds[id as usize].state {
            *tasks += 1;
        }
    }

    /// The boundary gets so many tasks more.
    pub fn parts_added(&mut self, id: u32, count: u32)
        requires pending { IsPending self.old id }
        requires few { IfSome (tasks_left (bound_at self.old.bounds id)) (λ tasks. tasks + count < 2 ^ 32) }
        ensures { self.new ≡ with_state (more count) id self.old }
    {
        if let State::Pending { tasks, bytes: _ } = &mut self.bounds[id as usize].state {
            *tasks += count;
        }
    }

    /// A task of the boundary is done, which printed so many bytes.
    pub fn part_done(&mut self, id: u32, bytes: u64) -> Part
        requires { IsPending self.old id }
        ensures complete { (result ≡ Part.Complete) ↔ (tasks_left (bound_at self.old.bounds id) ≡ Some 1) }
        ensures done { self.new ≡ with_state (one_done bytes) id self.old }
    {
        let bound = &mut self.bounds[id as usize];
        let (tasks, own) = pending(&bound.state);
        bound.state = with_one_done(tasks, own, bytes);
        if tasks == 1 {
            Part::Complete
        } else {
            Part::Waiting
        }
    }

    /// The boundary fails.
    pub fn fail(&mut self, id: u32, digest: Text)
        requires { IsPending self.old id }
        ensures { self.new ≡ with_state (failed_with digest) id self.old }
    {
        self.bounds[id as usize].state = State::Failed { digest };
    }
}

/// The tasks that are left of a pending boundary, and its bytes.
fn pending(state: &State) -> (u32, u64)
    requires { IsSome (tasks_of state.now) }
    ensures { state.now ≡ Pending result.0 result.1 }
{
    match state {
        State::Pending { tasks, bytes } => (*tasks, *bytes),
        _ => unreachable!(),
    }
}

fn with_one_done(tasks: u32, own: u64, bytes: u64) -> State
    requires { 0 < tasks }
    ensures { result ≡ one_done bytes (Pending tasks own) }
{
    let all = own.saturating_add(bytes);
    if tasks == 1 {
        State::Complete { bytes: all }
    } else {
        State::Pending {
            tasks: tasks - 1,
            bytes: all,
        }
    }
}
