//! Claims.

ghost use Rattle.std.specs.Prelude.{◌≡◌, ℕ, List, true};
ghost use Rattle.settle_script.specs.declared.value.Entry.{Entry};
ghost use Rattle.settle_script.specs.declared.outcome.Outcome.{Outcome};
ghost use Rattle.fizz_piece.specs.declared.piece.Piece.{Piece};
ghost use Rattle.fizz_piece.specs.declared.plan.Plan.{Plan};
ghost use Rattle.fizz_piece.specs.declared.work.Work.{Work};
ghost use Rattle.request_state.specs.Core.{Core, free, new_core};
ghost use Rattle.request_state.specs.Claiming.{HandsOut, given_back, keeps};
ghost use Rattle.request_state.specs.Closing.{Closes};
ghost use Rattle.request_state.specs.Committing.{CommitsPiece};
ghost use Rattle.request_state.specs.Flushing.{FlushesState};
ghost use Rattle.request_state.specs.Reclaiming.{with_reclaimed};
ghost use Rattle.request_state.specs.Settling.{Settles};
ghost use Rattle.state_laws.specs.Claims.{ClaimsFit};

/// The numbers of claims are below the next one, no two tasks have the same, and something is kept of each claimed task,
/// and nothing of one that is runnable or waits: at first, and after each call.
pub fn laws_of_claim_numbers()
    ensures first { (core : Core) → free core ≡ new_core → ClaimsFit core }
    ensures settled { (outcomes : List (Entry Outcome)) (old new : Core) → ClaimsFit old →
        Settles outcomes old new → ClaimsFit new }
    ensures claimed { (old new : Core) (work : Work) → ClaimsFit old → HandsOut old new work →
        ClaimsFit new }
    ensures committed { (outcomes : List (Entry Outcome)) (piece : Piece) (old new : Core) →
        ClaimsFit old → CommitsPiece outcomes piece old new → ClaimsFit new }
    ensures returned { (work : Work) (old : Core) → ClaimsFit old → keeps old work ≡ true →
        ClaimsFit (given_back work old) }
    ensures reclaimed { (old : Core) → ClaimsFit old → ClaimsFit (with_reclaimed old) }
    ensures closed { (tasks failed : ℕ) (old new : Core) → ClaimsFit old →
        Closes tasks old new failed → ClaimsFit new }
    ensures flushed { (plan : Plan) (budget : ℕ) (old new : Core) → ClaimsFit old →
        FlushesState plan budget old new → ClaimsFit new }
{}
