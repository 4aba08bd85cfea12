//! Segments and the tasks that serve them.

ghost use Rattle.std.specs.Prelude.{◌≡◌, ℕ, List, true};
ghost use Rattle.settle_script.specs.declared.value.Entry.{Entry};
ghost use Rattle.settle_script.specs.declared.outcome.Outcome.{Outcome};
ghost use Rattle.fizz_piece.specs.declared.piece.Piece.{Piece};
ghost use Rattle.fizz_piece.specs.declared.plan.Plan.{Plan};
ghost use Rattle.fizz_piece.specs.declared.work.Work.{Work};
ghost use Rattle.request_state.specs.Core.{Core, free, new_core};
ghost use Rattle.request_state.specs.Claiming.{HandsOut, given_back, keeps};
ghost use Rattle.request_state.specs.Closing.{Closes};
ghost use Rattle.request_state.specs.Committing.{CommitsPiece};
ghost use Rattle.request_state.specs.Flushing.{FlushesState};
ghost use Rattle.request_state.specs.Reclaiming.{with_reclaimed};
ghost use Rattle.request_state.specs.Settling.{Settles};
ghost use Rattle.state_laws.specs.Segments.{SegmentsServed, Serves};
ghost use Rattle.state_laws.specs.Tasks.{IsLeft};

/// Each open segment has exactly one task, and each task that is left serves an open segment, which its owner has: at
/// first, and after each call.
pub fn laws_of_served_segments()
    ensures first { (core : Core) → free core ≡ new_core → SegmentsServed core }
    ensures settled { (outcomes : List (Entry Outcome)) (old new : Core) → SegmentsServed old →
        Settles outcomes old new → SegmentsServed new }
    ensures claimed { (old new : Core) (work : Work) → SegmentsServed old → HandsOut old new work →
        SegmentsServed new }
    ensures committed { (outcomes : List (Entry Outcome)) (piece : Piece) (old new : Core) →
        SegmentsServed old → CommitsPiece outcomes piece old new → SegmentsServed new }
    ensures returned { (work : Work) (old : Core) → SegmentsServed old → keeps old work ≡ true →
        SegmentsServed (given_back work old) }
    ensures reclaimed { (old : Core) → SegmentsServed old → SegmentsServed (with_reclaimed old) }
    ensures closed { (tasks failed : ℕ) (old new : Core) → SegmentsServed old →
        Closes tasks old new failed → SegmentsServed new }
    ensures flushed { (plan : Plan) (budget : ℕ) (old new : Core) → SegmentsServed old →
        FlushesState plan budget old new → SegmentsServed new }
    ensures serves { (core : Core) (task : ℕ) → SegmentsServed core → IsLeft core task →
        (segment : ℕ) × Serves core task segment }
{}
