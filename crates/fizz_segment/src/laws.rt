//! Laws of kids, with no code.

ghost use Rattle.std.specs.Prelude.{◌≡◌, ◌==◌, ◌++◌, ◌∷◌, [], ℕ, List, Option, Some, None, not, if◌then◌else◌, filter, length, slice_set};
ghost use Rattle.fizz_segment.specs.declared.segment.Part.{Part};
ghost use Rattle.fizz_segment.specs.Calls.{with_bytes};
ghost use Rattle.fizz_segment.specs.Tree.{IsKidThere, is_parent, kids_of, part_at};

/// The kids of a segment when another one is added, completed or forgotten; and how a kid stands among them.
pub fn laws_of_kids()
    ensures added { (parts : List (Option Part)) (part : Part) (id : ℕ) → kids_of (parts ++ Some part ∷ []) id
        ≡ kids_of parts id ++ (if is_parent id part.parent then length parts ∷ [] else []) }
    ensures completed { (parts : List (Option Part)) (other id : ℕ) (bytes : List ℕ)
        → kids_of (slice_set parts other (with_bytes bytes (part_at parts other))) id ≡ kids_of parts id }
    ensures forgotten { (parts : List (Option Part)) (other id : ℕ)
        → kids_of (slice_set parts other None) id ≡ filter (λ k. not (k == other)) (kids_of parts id) }
    ensures stands { (parts : List (Option Part)) (kid id : ℕ) (part : Part) → part_at parts kid ≡ Some part
        → part.parent ≡ Some id → (before : List ℕ) × (later : List ℕ) × (kids_of parts id ≡ before ++ kid ∷ later) }
    ensures there { (parts : List (Option Part)) (id kid : ℕ) (before later : List ℕ)
        → kids_of parts id ≡ before ++ kid ∷ later → IsKidThere parts id kid (kids_of parts id) later }
{}
