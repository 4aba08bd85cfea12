//! Laws of scripts.

ghost use Rattle.std.specs.Prelude.{◌≡◌, ◌≢◌, ◌++◌, ◌⊎◌, ℕ, List, Bool, codes, not, slice_index};
ghost use Rattle.std.specs.Str.{IsUtf8};
ghost use Rattle.fizz_text.specs.Ascii.{less_than_sign};
ghost use Rattle.fizz_instructions.specs.Bodies.{IsInstruction, body_of, function_of, script_of};
ghost use Rattle.fizz_instructions.specs.Reading.{HasInstruction, IsNoBody, Says};
ghost use Rattle.fizz_instructions.specs.Sending.{has};
ghost use Rattle.fizz_instructions.specs.declared.instruction.Instruction.{Instruction};
ghost use Rattle.fizz_instructions.specs.declared.instruction.SentFunctions.{SentFunctions};

/// A body is an instruction's or none's. It is one instruction's, and defines its function or doesn't. The body that is written after these functions
/// says its instruction to a reader that knows them. Scripts of texts are texts. No `<` stands in a body, so that the
/// `</script>` behind it is the first one.
pub fn laws_of_instructions()
    ensures decided { (prefix body : List ℕ) → HasInstruction prefix body ⊎ IsNoBody prefix body }
    ensures one { (prefix : List ℕ) (i j : Instruction) (a b : Bool)
        → IsUtf8 prefix → IsInstruction i → IsInstruction j
        → body_of prefix i a ≡ body_of prefix j b → (i ≡ j) × (a ≡ b) }
    ensures reads_back { (prefix : List ℕ) (i : Instruction) (sent : SentFunctions)
        → IsInstruction i → Says prefix (body_of prefix i (not (has sent (function_of i)))) sent i }
    ensures utf8 { (prefix : List ℕ) (i : Instruction) (defines : Bool)
        → IsUtf8 prefix → IsInstruction i → IsUtf8 (script_of prefix i defines) }
    ensures no_mark { (prefix : List ℕ) (i : Instruction) (defines : Bool) (k : ℕ)
        → slice_index (body_of prefix i defines) k ≢ less_than_sign }
    ensures no_end { (prefix : List ℕ) (i : Instruction) (defines : Bool) (before after : List ℕ)
        → body_of prefix i defines ≢ before ++ (codes "</script>" ++ after) }
{}
