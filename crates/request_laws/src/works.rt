//! Works are good.

ghost use Rattle.std.specs.Prelude.{◌≡◌, ℕ, true};
ghost use Rattle.fizz_piece.specs.declared.piece.Piece.{Piece};
ghost use Rattle.fizz_piece.specs.declared.plan.Plan.{Plan};
ghost use Rattle.fizz_piece.specs.declared.work.Work.{Work};
ghost use Rattle.fizz_piece.specs.Pieces.{IsGoodWork, IsPieceOf};
ghost use Rattle.request_state.specs.Core.{Core, free, new_core};
ghost use Rattle.request_state.specs.Claiming.{HandsOut, given_back, keeps};
ghost use Rattle.request_state.specs.Closing.{Closes};
ghost use Rattle.request_state.specs.Committing.{CommitsPiece};
ghost use Rattle.request_state.specs.Flushing.{FlushesState};
ghost use Rattle.request_state.specs.Reclaiming.{with_reclaimed};
ghost use Rattle.request_state.specs.Settling.{Settles};
ghost use Rattle.request_laws.specs.Works.{WorksStand};

use jsx_value::laws_of_settlements;
use position_laws::laws_of_pages;

/// What each task is to do stands at its path: at first, and after each call. So a work that is handed out is good, which
/// is what its rendering asks for.
pub fn laws_of_standing_works()
    ensures first { (plan : Plan) (core : Core) → free core ≡ new_core → WorksStand plan core }
    ensures settled { (plan : Plan) (old new : Core) → WorksStand plan old →
        Settles plan.outcomes.now old new → WorksStand plan new }
    ensures claimed { (plan : Plan) (old new : Core) (work : Work) → WorksStand plan old →
        HandsOut old new work → WorksStand plan new × IsGoodWork plan work }
    ensures committed { (plan : Plan) (old new : Core) (work : Work) (piece : Piece) →
        WorksStand plan old → IsGoodWork plan work → IsPieceOf plan work piece →
        CommitsPiece plan.outcomes.now piece old new → WorksStand plan new }
    ensures returned { (plan : Plan) (old : Core) (work : Work) → WorksStand plan old →
        IsGoodWork plan work → keeps old work ≡ true → WorksStand plan (given_back work old) }
    ensures reclaimed { (plan : Plan) (old : Core) → WorksStand plan old →
        WorksStand plan (with_reclaimed old) }
    ensures closed { (plan : Plan) (tasks failed : ℕ) (old new : Core) → WorksStand plan old →
        Closes tasks old new failed → WorksStand plan new }
    ensures flushed { (plan : Plan) (budget : ℕ) (old new : Core) → WorksStand plan old →
        FlushesState plan budget old new → WorksStand plan new }
{
    laws_of_settlements();
    laws_of_pages();
}
