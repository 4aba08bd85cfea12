//! How a piece is printed, alone and with what fills it.

ghost use Rattle.std.specs.Prelude.{◌≡◌, ◌++◌, ◌∷◌, [], ℕ, Bool, true, List, Some};
ghost use Rattle.html_print.specs.Sheets.{Sheet, done, printed_of};
ghost use Rattle.jsx_value.specs.Spots.{One, at};
ghost use Rattle.fizz_piece.specs.declared.work.Flags.{Flags};
ghost use Rattle.fizz_piece.specs.Printing.{Cut, piece_sheet};
ghost use Rattle.position_laws.specs.Gaps.{StillWait, gaps_of};
ghost use Rattle.position_laws.specs.Later.{LaterOne};
ghost use Rattle.position_laws.specs.Words.{FillsWith, PrintsFilling, Word, end_words, filled_sheet, filled_words, joint, piece_words, unjoined, words_of, words_sheet};

/// A piece is printed as its words are. It is the same as long as nothing that it waits for has settled. With what fills
/// its gaps it is printed as the filled words, which are those of the whole but for joints.
pub fn laws_of_words()
    ensures printed { (flags : Flags) (path : List ℕ) (one : One) →
        printed_of (piece_sheet flags path one)
        ≡ printed_of (words_sheet (piece_words flags path one) (λ after_text. done) flags.lead) }
    ensures same { (known : List ℕ → Bool) (flags : Flags) (before after : One) (path : List ℕ) →
        LaterOne known before after → StillWait known (gaps_of path before) →
        printed_of (piece_sheet flags path before) ≡ printed_of (piece_sheet flags path after) }
    ensures joined { (sheets : List ℕ → Bool → Sheet Cut) (filling : List ℕ → List Word)
        (flags : Flags) (path : List ℕ) (one : One) → PrintsFilling sheets filling →
        printed_of (filled_sheet sheets (piece_sheet flags path one))
        ≡ printed_of (words_sheet
        (filled_words filling (words_of path one) ++ end_words flags.embedded)
        (λ after_text. done) flags.lead) }
    ensures embedded { (sheets : List ℕ → Bool → Sheet Cut) (filling : List ℕ → List Word)
        (path : List ℕ) (one : One) (lead : Bool) → PrintsFilling sheets filling →
        filled_sheet sheets (piece_sheet (record { lead = lead; embedded = true }) path one)
        ≡ words_sheet (filled_words filling (words_of path one) ++ joint ∷ [])
        (λ after_text. done) lead }
    ensures whole { (known : List ℕ → Bool) (root before after : One)
        (filling : List ℕ → List Word) (path : List ℕ) →
        FillsWith root filling → LaterOne known before after → at root path ≡ Some after →
        unjoined (filled_words filling (words_of path before)) ≡ words_of path after }
{}
