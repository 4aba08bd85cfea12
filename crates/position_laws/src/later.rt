//! Positions where more was settled.

ghost use Rattle.std.specs.Prelude.{◌≡◌, ◌≢◌, ℕ, Bool, false, true, List, Some};
ghost use Rattle.jsx_value.specs.Spots.{One, at, wait};
ghost use Rattle.position_laws.specs.Later.{Later, LaterOne, settled_one};

/// Where more was settled, a position that doesn't wait keeps what it is, and one that waits for a resource that isn't
/// known yet goes on waiting for it.
pub fn laws_of_later_positions()
    ensures grows { (known : List ℕ → Bool) (a b x : One) (path : List ℕ) →
        LaterOne known a b → at a path ≡ Some x →
        ((resource : List ℕ) → x.label ≢ wait resource) →
        (y : One) × (at b path ≡ Some y) × (x.label ≡ y.label) × Later known x.kids y.kids
        × Later known x.other y.other }
    ensures waits { (known : List ℕ → Bool) (a b x : One) (path resource : List ℕ) →
        LaterOne known a b → at a path ≡ Some x → x.label ≡ wait resource → known resource ≡ false →
        (y : One) × (at b path ≡ Some y) × (y.label ≡ wait resource) }
{}

/// Nothing has to settle, what is later than what is later is later, and the settled tree is later than all.
pub fn laws_of_settling()
    ensures same { (known : List ℕ → Bool) (one : One) → LaterOne known one one }
    ensures onward { (first second both : List ℕ → Bool) (a b c : One) →
        ((resource : List ℕ) → first resource ≡ true → both resource ≡ true) →
        ((resource : List ℕ) → second resource ≡ true → both resource ≡ true) →
        LaterOne first a b → LaterOne second b c → LaterOne both a c }
    ensures settled { (one : One) → LaterOne (λ resource. true) one (settled_one one) }
{}
