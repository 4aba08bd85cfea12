//! What calls send.

ghost use Rattle.std.specs.Prelude.{◌≡◌, ℕ, List, []};
ghost use Rattle.settle_script.specs.declared.value.Entry.{Entry};
ghost use Rattle.settle_script.specs.declared.outcome.Outcome.{Outcome};
ghost use Rattle.fizz_piece.specs.declared.piece.Piece.{Piece};
ghost use Rattle.fizz_piece.specs.declared.plan.Plan.{Plan};
ghost use Rattle.fizz_piece.specs.declared.work.Work.{Work};
ghost use Rattle.request_state.specs.Core.{Core, free, new_core};
ghost use Rattle.request_state.specs.Claiming.{HandsOut, given_back};
ghost use Rattle.request_state.specs.Closing.{Closes};
ghost use Rattle.request_state.specs.Committing.{CommitsPiece};
ghost use Rattle.request_state.specs.Flushing.{FlushesState};
ghost use Rattle.request_state.specs.Reclaiming.{with_reclaimed};
ghost use Rattle.request_state.specs.Settling.{Settles};
ghost use Rattle.request_laws.specs.Transcripts.{Sends, SendsNothing};

/// Nothing is sent at first. A flush sends some bytes, and every other call sends nothing.
pub fn laws_of_transcripts()
    ensures first { (core : Core) → free core ≡ new_core → core.transcript ≡ [] }
    ensures settled { (outcomes : List (Entry Outcome)) (old new : Core) → Settles outcomes old new →
        SendsNothing old new }
    ensures claimed { (old new : Core) (work : Work) → HandsOut old new work → SendsNothing old new }
    ensures committed { (outcomes : List (Entry Outcome)) (piece : Piece) (old new : Core) →
        CommitsPiece outcomes piece old new → SendsNothing old new }
    ensures returned { (work : Work) (old : Core) → SendsNothing old (given_back work old) }
    ensures reclaimed { (old : Core) → SendsNothing old (with_reclaimed old) }
    ensures closed { (tasks failed : ℕ) (old new : Core) → Closes tasks old new failed →
        SendsNothing old new }
    ensures flushed { (plan : Plan) (budget : ℕ) (old new : Core) → FlushesState plan budget old new →
        (bytes : List ℕ) × Sends bytes old new }
{}
