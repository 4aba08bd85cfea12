//! Works of a page's state: each is good when it is handed out, so that it can be rendered.

ghost use Rattle.std.specs.Prelude.{◌≡◌, IfOk, IfSome, OnOk, All};
ghost use Rattle.fizz_piece.specs.declared.plan.Plan.{Plan};
ghost use Rattle.fizz_piece.specs.Pieces.{IsGoodWork, IsPieceOf};
ghost use Rattle.request_state.specs.Core.{core_of};
ghost use Rattle.request_laws.specs.Works.{WorksStand};
ghost use Rattle.state_tests.specs.Driven.{TakesOrKeeps};

use fizz_piece::{Piece, Plan, Work, render_piece};
use request_laws::laws_of_standing_works;
use request_state::{CommitRefused, StaleWork, State};
use std::alloc::Global;
use std::test::Fail;

/// Claims the first work that can be.
pub(super) fn claim<'a>(state: &mut State<'a>) -> Option<Work<'a>>
    requires { WorksStand state.old.plan (core_of state.old) }
    ensures good { IfSome result (IsGoodWork state.old.plan) }
    ensures works { WorksStand state.old.plan (core_of state.new) }
    ensures plan { state.new.plan ≡ state.old.plan }
{
    laws_of_standing_works();
    state.claim()
}

/// Renders a work and has its piece taken. A stale one is let go.
pub(super) fn commit<'a>(
    alloc: Global,
    state: &mut State<'a>,
    work: Work<'a>,
) -> Result<Option<StaleWork>, Fail>
    requires works { WorksStand state.old.plan (core_of state.old) }
    requires good { IsGoodWork state.old.plan work }
    ensures works { OnOk result (WorksStand state.old.plan (core_of state.new)) }
    ensures plan { state.new.plan ≡ state.old.plan }
{
    laws_of_standing_works();
    let plan = state.plan();
    let piece = render(alloc, &plan, work)?;
    offer(alloc, state, piece)
}

fn render<'a>(alloc: Global, plan: &Plan<'a>, work: Work<'a>) -> Result<Piece<'a>, Fail>
    requires { IsGoodWork plan.now work }
    ensures { IfOk result (IsPieceOf plan.now work.entry) }
{
    match render_piece(alloc, plan, work) {
        Ok(piece) => Ok(piece),
        Err(_) => Err(Fail::from("no memory for a piece")),
    }
}

/// Has a piece taken, if its work isn't stale.
fn offer<'a>(
    alloc: Global,
    state: &mut State<'a>,
    piece: Piece<'a>,
) -> Result<Option<StaleWork>, Fail>
    ensures taken { IfOk result (λ stale. TakesOrKeeps piece.entry state.old state.new stale) }
    ensures plan { state.new.plan ≡ state.old.plan }
{
    match state.commit(alloc, piece) {
        Ok(()) => Ok(None),
        Err(CommitRefused::Stale { now, .. }) => Ok(Some(StaleWork { now })),
        Err(CommitRefused::OutOfMemory { .. }) => Err(Fail::from("no memory for a commit")),
    }
}

/// Gives a work back, if it isn't stale.
pub(super) fn give_back<'a>(state: &mut State<'a>, work: Work<'a>) -> Result<(), StaleWork>
    requires works { WorksStand state.old.plan (core_of state.old) }
    requires good { IsGoodWork state.old.plan work }
    ensures works { WorksStand state.old.plan (core_of state.new) }
    ensures plan { state.new.plan ≡ state.old.plan }
{
    laws_of_standing_works();
    state.give_back(work)
}

/// Takes a work out of those that are held, if there is one at this place.
pub(super) fn take<'a>(held: &mut Vec<Work<'a>>, place: usize) -> Option<Work<'a>>
    ensures good { (plan : Plan) → All (IsGoodWork plan) held.old.items → IfSome result (IsGoodWork plan) }
    ensures held { (plan : Plan) → All (IsGoodWork plan) held.old.items → All (IsGoodWork plan) held.new.items }
{
    if place < held.len() {
        Some(held.remove(place))
    } else {
        None
    }
}
