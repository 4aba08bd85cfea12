//! The shell.

ghost use Rattle.std.specs.Prelude.{◌≡◌, ℕ, List, true};
ghost use Rattle.settle_script.specs.declared.value.Entry.{Entry};
ghost use Rattle.settle_script.specs.declared.outcome.Outcome.{Outcome};
ghost use Rattle.fizz_piece.specs.declared.piece.Piece.{Piece};
ghost use Rattle.fizz_piece.specs.declared.plan.Plan.{Plan};
ghost use Rattle.fizz_piece.specs.declared.work.Work.{Work};
ghost use Rattle.request_state.specs.Core.{Core, free, new_core};
ghost use Rattle.request_state.specs.Claiming.{HandsOut, given_back, keeps};
ghost use Rattle.request_state.specs.Closing.{Closes};
ghost use Rattle.request_state.specs.Committing.{CommitsPiece};
ghost use Rattle.request_state.specs.Flushing.{FlushesState};
ghost use Rattle.request_state.specs.Reclaiming.{with_reclaimed};
ghost use Rattle.request_state.specs.Settling.{Settles};
ghost use Rattle.state_laws.specs.Shell.{ShellHolds};

/// While the shell has a task nothing is sent, and where it has failed nothing was sent and no task is left: at first, and
/// after each call.
pub fn laws_of_shells()
    ensures first { (core : Core) → free core ≡ new_core → ShellHolds core }
    ensures settled { (outcomes : List (Entry Outcome)) (old new : Core) → ShellHolds old →
        Settles outcomes old new → ShellHolds new }
    ensures claimed { (old new : Core) (work : Work) → ShellHolds old → HandsOut old new work →
        ShellHolds new }
    ensures committed { (outcomes : List (Entry Outcome)) (piece : Piece) (old new : Core) →
        ShellHolds old → CommitsPiece outcomes piece old new → ShellHolds new }
    ensures returned { (work : Work) (old : Core) → ShellHolds old → keeps old work ≡ true →
        ShellHolds (given_back work old) }
    ensures reclaimed { (old : Core) → ShellHolds old → ShellHolds (with_reclaimed old) }
    ensures closed { (failed : ℕ) (old new : Core) → ShellHolds old →
        Closes old.shell_tasks old new failed → ShellHolds new }
    ensures flushed { (plan : Plan) (budget : ℕ) (old new : Core) → ShellHolds old →
        FlushesState plan budget old new → ShellHolds new }
{}
