//! Tasks that wait.

ghost use Rattle.std.specs.Prelude.{◌≡◌, ℕ};
ghost use Rattle.jsx_syntax.specs.Rules.{IsApp};
ghost use Rattle.fizz_piece.specs.declared.piece.Piece.{Piece};
ghost use Rattle.fizz_piece.specs.declared.plan.Plan.{Plan};
ghost use Rattle.fizz_piece.specs.declared.work.Work.{Work};
ghost use Rattle.fizz_piece.specs.Pieces.{IsGoodWork, IsPieceOf};
ghost use Rattle.request_state.specs.Core.{Core, free, new_core};
ghost use Rattle.request_state.specs.Claiming.{HandsOut, given_back};
ghost use Rattle.request_state.specs.Closing.{Closes};
ghost use Rattle.request_state.specs.Committing.{CommitsPiece};
ghost use Rattle.request_state.specs.Flushing.{FlushesState};
ghost use Rattle.request_state.specs.Reclaiming.{with_reclaimed};
ghost use Rattle.request_state.specs.Settling.{Settles};
ghost use Rattle.request_laws.specs.Works.{WorksStand};
ghost use Rattle.state_laws.specs.Waits.{TasksWait};

use jsx_value::{laws_of_apps, laws_of_settlements};
use position_laws::{laws_of_gaps, laws_of_later_positions, laws_of_pages};

/// What stands at the place of a task that waits for a resource waits for it, and the resource isn't settled: at first, and
/// after each call.
pub fn laws_of_waiting_tasks()
    ensures first { (plan : Plan) (core : Core) → free core ≡ new_core → TasksWait plan core }
    ensures settled { (plan : Plan) (old new : Core) → IsApp plan.app.now → TasksWait plan old →
        Settles plan.outcomes.now old new → TasksWait plan new }
    ensures claimed { (plan : Plan) (old new : Core) (work : Work) → TasksWait plan old →
        HandsOut old new work → TasksWait plan new }
    ensures committed { (plan : Plan) (old new : Core) (work : Work) (piece : Piece) →
        IsApp plan.app.now → WorksStand plan old → TasksWait plan old → IsGoodWork plan work →
        IsPieceOf plan work piece → CommitsPiece plan.outcomes.now piece old new →
        TasksWait plan new }
    ensures returned { (plan : Plan) (old : Core) (work : Work) → TasksWait plan old →
        TasksWait plan (given_back work old) }
    ensures reclaimed { (plan : Plan) (old : Core) → TasksWait plan old →
        TasksWait plan (with_reclaimed old) }
    ensures closed { (plan : Plan) (tasks failed : ℕ) (old new : Core) → TasksWait plan old →
        Closes tasks old new failed → TasksWait plan new }
    ensures flushed { (plan : Plan) (budget : ℕ) (old new : Core) → TasksWait plan old →
        FlushesState plan budget old new → TasksWait plan new }
{
    laws_of_apps();
    laws_of_settlements();
    laws_of_gaps();
    laws_of_later_positions();
    laws_of_pages();
}
