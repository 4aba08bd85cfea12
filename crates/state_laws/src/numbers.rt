//! The numbers of segments and boundaries.

ghost use Rattle.std.specs.Prelude.{◌≡◌, ℕ, List};
ghost use Rattle.settle_script.specs.declared.value.Entry.{Entry};
ghost use Rattle.settle_script.specs.declared.outcome.Outcome.{Outcome};
ghost use Rattle.fizz_piece.specs.declared.piece.Piece.{Piece};
ghost use Rattle.fizz_piece.specs.declared.plan.Plan.{Plan};
ghost use Rattle.fizz_piece.specs.declared.work.Work.{Work};
ghost use Rattle.request_state.specs.Core.{Core, free, new_core};
ghost use Rattle.request_state.specs.Claiming.{HandsOut, given_back};
ghost use Rattle.request_state.specs.Closing.{Closes};
ghost use Rattle.request_state.specs.Committing.{CommitsPiece};
ghost use Rattle.request_state.specs.Flushing.{FlushesState};
ghost use Rattle.request_state.specs.Reclaiming.{with_reclaimed};
ghost use Rattle.request_state.specs.Settling.{Settles};
ghost use Rattle.state_laws.specs.Numbers.{NumbersFit};
ghost use Rattle.state_laws.specs.Segments.{SegmentsServed};

/// A segment stands in one that was made before it, a boundary too, and what they tell of each other was made: at first,
/// and after each call.
pub fn laws_of_numbers()
    ensures first { (core : Core) → free core ≡ new_core → NumbersFit core }
    ensures settled { (outcomes : List (Entry Outcome)) (old new : Core) → NumbersFit old →
        Settles outcomes old new → NumbersFit new }
    ensures claimed { (old new : Core) (work : Work) → NumbersFit old → HandsOut old new work →
        NumbersFit new }
    ensures committed { (outcomes : List (Entry Outcome)) (piece : Piece) (old new : Core) →
        SegmentsServed old → NumbersFit old → CommitsPiece outcomes piece old new →
        NumbersFit new }
    ensures returned { (work : Work) (old : Core) → NumbersFit old →
        NumbersFit (given_back work old) }
    ensures reclaimed { (old : Core) → NumbersFit old → NumbersFit (with_reclaimed old) }
    ensures closed { (tasks failed : ℕ) (old new : Core) → NumbersFit old →
        Closes tasks old new failed → NumbersFit new }
    ensures flushed { (plan : Plan) (budget : ℕ) (old new : Core) → NumbersFit old →
        FlushesState plan budget old new → NumbersFit new }
{}
