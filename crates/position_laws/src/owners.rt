//! Who owns a position.

ghost use Rattle.std.specs.Prelude.{◌≡◌, ◌++◌, ℕ, Bool, List, Some, Contains};
ghost use Rattle.jsx_value.specs.Spots.{One, at, boundary, fails};
ghost use Rattle.fizz_piece.specs.Pieces.{FailsFirst};
ghost use Rattle.position_laws.specs.Formed.{FailsBelow, IsFormed};
ghost use Rattle.position_laws.specs.Later.{LaterOne};
ghost use Rattle.position_laws.specs.Owners.{own_failures, owner_below, owner_failures, owner_of};

/// The owner of what lies below a position is found below it, or else it is the position's own. It stays where more is
/// settled. A position that fails fails its owner, which has that failure from then on. A failure that an owner
/// has stands at a position that it owns.
pub fn laws_of_owners()
    ensures below { (root one : One) (path more : List ℕ) → at root path ≡ Some one →
        owner_of root (path ++ more) ≡ owner_below path (owner_of one more) (owner_of root path) }
    ensures later { (known : List ℕ → Bool) (before after one : One) (path : List ℕ) →
        LaterOne known before after → at before path ≡ Some one →
        owner_of before path ≡ owner_of after path }
    ensures fails { (known : List ℕ → Bool) (before after one : One) (path digest : List ℕ) →
        LaterOne known before after → at before path ≡ Some one → FailsFirst one digest →
        Contains (owner_failures after (owner_of before path)) digest }
    ensures own { (root one : One) (path digest : List ℕ) → at root path ≡ Some one → IsFormed one →
        Contains (own_failures one) digest → FailsBelow root path digest (owner_of root path) }
    ensures content { (root one : One) (path digest : List ℕ) → at root path ≡ Some one →
        one.label ≡ boundary → IsFormed one → Contains (fails one.kids) digest →
        FailsBelow root path digest (Some path) }
{}
