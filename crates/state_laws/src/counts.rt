//! How many tasks the shell and each boundary have.

ghost use Rattle.std.specs.Prelude.{◌≡◌, ℕ, List, true};
ghost use Rattle.settle_script.specs.declared.value.Entry.{Entry};
ghost use Rattle.settle_script.specs.declared.outcome.Outcome.{Outcome};
ghost use Rattle.fizz_piece.specs.declared.piece.Piece.{Piece};
ghost use Rattle.fizz_piece.specs.declared.plan.Plan.{Plan};
ghost use Rattle.fizz_piece.specs.declared.work.Work.{Work};
ghost use Rattle.request_state.specs.Core.{Core, free, new_core};
ghost use Rattle.request_state.specs.Claiming.{HandsOut, given_back, keeps};
ghost use Rattle.request_state.specs.Closing.{Closes};
ghost use Rattle.request_state.specs.Committing.{CommitsPiece};
ghost use Rattle.request_state.specs.Flushing.{FlushesState};
ghost use Rattle.request_state.specs.Reclaiming.{with_reclaimed};
ghost use Rattle.request_state.specs.Settling.{Settles};
ghost use Rattle.state_laws.specs.Counts.{TasksCounted};

/// Each live boundary counts the tasks that it owns, and is complete exactly where it has none, and the shell counts its
/// tasks: at first, and after each call.
pub fn laws_of_task_counts()
    ensures first { (core : Core) → free core ≡ new_core → TasksCounted core }
    ensures settled { (outcomes : List (Entry Outcome)) (old new : Core) → TasksCounted old →
        Settles outcomes old new → TasksCounted new }
    ensures claimed { (old new : Core) (work : Work) → TasksCounted old → HandsOut old new work →
        TasksCounted new }
    ensures committed { (outcomes : List (Entry Outcome)) (piece : Piece) (old new : Core) →
        TasksCounted old → CommitsPiece outcomes piece old new → TasksCounted new }
    ensures returned { (work : Work) (old : Core) → TasksCounted old → keeps old work ≡ true →
        TasksCounted (given_back work old) }
    ensures reclaimed { (old : Core) → TasksCounted old → TasksCounted (with_reclaimed old) }
    ensures closed { (tasks failed : ℕ) (old new : Core) → TasksCounted old →
        Closes tasks old new failed → TasksCounted new }
    ensures flushed { (plan : Plan) (budget : ℕ) (old new : Core) → TasksCounted old →
        FlushesState plan budget old new → TasksCounted new }
{}
