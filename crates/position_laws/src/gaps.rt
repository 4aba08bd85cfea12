//! What is left out of a piece.

ghost use Rattle.std.specs.Prelude.{◌≡◌, ◌++◌, [], ℕ, Bool, List, Some, None, AllPairs, Contains};
ghost use Rattle.std.specs.List.{flat_map};
ghost use Rattle.html_print.specs.Sheets.{printed_of};
ghost use Rattle.jsx_value.specs.Spots.{Label, One, at};
ghost use Rattle.fizz_piece.specs.declared.work.Flags.{Flags};
ghost use Rattle.fizz_piece.specs.Pieces.{failures_of};
ghost use Rattle.fizz_piece.specs.Printing.{piece_sheet};
ghost use Rattle.position_laws.specs.Gaps.{Gap, IsGapIn, IsLeaf, LiesInGap, cut_gaps, failures_at, gap_path, gaps_of, own_resources, resources_at};
ghost use Rattle.position_laws.specs.Later.{LaterOne};
ghost use Rattle.position_laws.specs.Owners.{own_failures, owner_of};
ghost use Rattle.position_laws.specs.Paths.{Apart, label_at};

/// What is cut out of a piece are its gaps. They stand in the page with the piece's owner, and none leads to another.
/// Where more is settled, all leaves of the position lie at gaps, and its own failures and waits are those of what stands
/// at the gaps, in document order.
pub fn laws_of_gaps()
    ensures cuts { (flags : Flags) (path : List ℕ) (one : One) →
        cut_gaps (printed_of (piece_sheet flags path one)).cuts ≡ gaps_of path one }
    ensures stand { (root one : One) (path : List ℕ) (gap : Gap) → at root path ≡ Some one →
        Contains (gaps_of path one) gap → IsGapIn root path gap }
    ensures apart { (path : List ℕ) (one : One) →
        AllPairs (λ g h. Apart (gap_path g) (gap_path h)) (gaps_of path one) }
    ensures leaves { (known : List ℕ → Bool) (before after : One) (path rest : List ℕ)
        (label : Label) →
        LaterOne known before after → failures_of before ≡ [] →
        label_at after rest ≡ Some label → IsLeaf label →
        LiesInGap (gaps_of path before) (path ++ rest) (owner_of after rest ≡ None) }
    ensures failures { (known : List ℕ → Bool) (root before after : One) (path : List ℕ) →
        LaterOne known before after → at root path ≡ Some after → failures_of before ≡ [] →
        own_failures after ≡ flat_map (λ g. failures_at root (gap_path g)) (gaps_of path before) }
    ensures waits { (known : List ℕ → Bool) (root before after : One) (path : List ℕ) →
        LaterOne known before after → at root path ≡ Some after →
        own_resources after ≡ flat_map (λ g. resources_at root (gap_path g)) (gaps_of path before) }
{}
