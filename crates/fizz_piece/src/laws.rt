//! What holds of works. The function does nothing: it has its law as its contract.

ghost use Rattle.std.specs.Prelude.{◌≤◌, ℕ, length};
ghost use Rattle.fizz_piece.specs.declared.plan.Plan.{Plan};
ghost use Rattle.fizz_piece.specs.declared.work.Work.{Work};
ghost use Rattle.fizz_piece.specs.Pieces.{IsGoodWork};

use jsx_value::laws_of_settlements;

/// A good work stays good where more is settled.
pub fn laws_of_works()
    ensures { (plan : Plan) (work : Work) (settled : ℕ) → IsGoodWork plan work →
        work.settled ≤ settled → settled ≤ length plan.outcomes.now →
        IsGoodWork plan (record work { settled = settled }) }
{
    laws_of_settlements();
}
