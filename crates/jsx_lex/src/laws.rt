//! What holds of the tokens and faults of every text. These functions do nothing: each has its law as its contract.

ghost use Rattle.std.specs.Prelude.{◌≡◌, ℕ, ◌⊎◌, List, length, All, IsUtf8, slice_range};
ghost use Rattle.jsx_lex.specs.TokenLists.{AreTokens, InOrder};
ghost use Rattle.jsx_lex.specs.TokenWords.{IsWord};
ghost use Rattle.jsx_lex.specs.FaultTable.{IsFaultAt};
ghost use Rattle.jsx_lex.specs.Meanings.{IsStringText};
ghost use Rattle.jsx_lex.specs.declared.token.Token.{Token};
ghost use Rattle.jsx_lex.specs.declared.fault.LexKind.{LexKind};

/// A text has one list of tokens at most.
pub fn one_token_list()
    ensures { (text : List ℕ) (tokens others : List Token) →
        AreTokens text tokens → AreTokens text others → tokens ≡ others }
{}

/// A text has one place and kind of a fault at most.
pub fn one_fault()
    ensures { (text : List ℕ) (at place : ℕ) (kind other : LexKind) →
        IsFaultAt text at kind → IsFaultAt text place other → (at ≡ place) × (kind ≡ other) }
{}

/// A text has tokens or a fault, and never both.
pub fn tokens_or_fault()
    ensures one { (text : List ℕ) → ((tokens : List Token) × AreTokens text tokens)
        ⊎ ((at : ℕ) × (kind : LexKind) × IsFaultAt text at kind) }
    ensures not_both { (text : List ℕ) (tokens : List Token) (at : ℕ) (kind : LexKind) →
        AreTokens text tokens → IsFaultAt text at kind → ⊥ }
{}

/// The tokens of a text stand in order within it. Each has the form of its kind, and is UTF-8 where the text is.
pub fn token_words()
    ensures in_order { (text : List ℕ) (tokens : List Token) →
        AreTokens text tokens → InOrder 0 (length text) tokens }
    ensures words { (text : List ℕ) (tokens : List Token) → AreTokens text tokens →
        All (λ t. IsWord t.kind (slice_range text t.from t.to)) tokens }
    ensures utf8 { (text : List ℕ) (tokens : List Token) → IsUtf8 text → AreTokens text tokens →
        All (λ t. IsUtf8 (slice_range text t.from t.to)) tokens }
{}

/// A `Str` has one text.
pub fn one_string_text()
    ensures { (word text other : List ℕ) →
        IsStringText word text → IsStringText word other → text ≡ other }
{}
