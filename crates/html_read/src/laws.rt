//! What holds of pages and of readings, whatever reader there is.

ghost use Rattle.std.specs.Prelude.{◌≡◌, ℕ, true, false, List, ◌++◌};
ghost use Rattle.html_read.specs.declared.token.Token.{Token};
ghost use Rattle.html_read.specs.Faults.{HasSplit, IsAlive, Splits, SplitsBefore, begins_tag, ends_in_text};
ghost use Rattle.html_read.specs.Tokens.{AreTokens, Tokenizes, spellings};

/// Two readings of one stream are one, and what has been read so far can go on to be a page. What has been read splits in
/// one way, and whatever tokens spell a prefix of it are the first ones. What can go on to be a page splits, and each prefix
/// of what splits does too, into the first of its tokens and a rest of its own.
pub fn laws_of_tokens()
    ensures one { (bytes : List ℕ) (a b : List Token)
        → Tokenizes bytes a → Tokenizes bytes b → a ≡ b }
    ensures alive { (bytes : List ℕ) (toks : List Token) (rest : List ℕ)
        → Splits bytes toks rest → IsAlive bytes }
    ensures first_tokens { (bytes : List ℕ) (first toks : List Token) (more rest : List ℕ)
        → AreTokens first → bytes ≡ spellings first ++ more
        → (ends_in_text false first ≡ true → begins_tag more ≡ true)
        → Splits bytes toks rest → (further : List Token) × (toks ≡ first ++ further) }
    ensures split { (bytes : List ℕ) (a b : List Token) (r s : List ℕ)
        → Splits bytes a r → Splits bytes b s → (a ≡ b) × (r ≡ s) }
    ensures splits { (bytes : List ℕ) → IsAlive bytes → HasSplit bytes }
    ensures alive_prefix { (prefix more : List ℕ) → IsAlive (prefix ++ more) → IsAlive prefix }
    ensures prefix { (prefix more : List ℕ) (toks : List Token) (rest : List ℕ)
        → Splits (prefix ++ more) toks rest → SplitsBefore prefix toks }
{}
