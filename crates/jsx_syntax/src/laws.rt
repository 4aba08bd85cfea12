//! What holds of the grammar. These functions do nothing: each has its law as its contract.

ghost use Rattle.std.specs.Prelude.{◌≡◌, ◌⊎◌, ℕ, true, List, [], ◌∷◌, codes, Some, None};
ghost use Rattle.jsx_lex.specs.declared.token.Token.{Token};
ghost use Rattle.jsx_lex.specs.declared.word.Word.{Word};
ghost use Rattle.jsx_syntax.specs.declared.fault.SyntaxFault.TheVariants.{Bad};
ghost use Rattle.jsx_syntax.specs.declared.fault.Wanted.{Wanted};
ghost use Rattle.jsx_syntax.specs.declared.file.File.{File};
ghost use Rattle.jsx_syntax.specs.Grammar.{SpellsFile};
ghost use Rattle.jsx_syntax.specs.Parsing.{HasCause};
ghost use Rattle.jsx_syntax.specs.Refusals.{IsFirstRefused};
ghost use Rattle.jsx_syntax.specs.Examples as example;

/// Words spell one file at most.
pub fn one_file()
    ensures { (words : List Word) (file other : File) →
        SpellsFile words file → SpellsFile words other → file ≡ other }
{}

/// Words spell a file, or one of them is the first that no file has after those before it.
pub fn file_or_first_refused()
    ensures { (words : List Word) →
        ((file : File) × SpellsFile words file)
        ⊎ ((before : List Word) × (after : List Word) × IsFirstRefused words before after) }
{}

/// A syntax fault of tokens has one place and one kind.
pub fn one_syntax_fault()
    ensures { (text : List ℕ) (tokens : List Token) (at_ other : ℕ) (v w : Wanted) →
        HasCause text tokens (Bad at_ v) → HasCause text tokens (Bad other w) →
        (at_ ≡ other) × (v ≡ w) }
{}

/// Worked texts with their trees.
pub fn worked_files()
    ensures empty_file { SpellsFile [] (example.file_of []) }
    ensures element { SpellsFile example.element_words example.element_file }
    ensures operators { SpellsFile example.operator_words example.operator_file }
    ensures map { SpellsFile example.map_words example.map_file }
    ensures statements { SpellsFile example.statement_words example.statement_file }
{}
