//! Bytes split or have a fault, and a rest is a text or none.

ghost use Rattle.std.specs.Prelude.{◌⊎◌, ℕ, List};
ghost use Rattle.html_read.specs.Faults.{HasSplit, Splits};
ghost use Rattle.html_read.specs.Rests.{IsFaulty, IsWholeText};
ghost use Rattle.html_read.specs.declared.token.Token.{Token};

/// Any bytes split into tokens and a rest, or have a fault. The rest that a split leaves is a text by itself, or is none.
pub fn laws_of_rests()
    ensures decided { (bytes : List ℕ) → HasSplit bytes ⊎ IsFaulty bytes }
    ensures text { (bytes : List ℕ) (toks : List Token) (rest : List ℕ)
        → Splits bytes toks rest → IsWholeText rest ⊎ (¬ IsWholeText rest) }
{}
