//! What holds of printed files. These functions do nothing: each has its law as its contract.

ghost use Rattle.jsx_syntax.specs.Grammar.{SpellsFile};
ghost use Rattle.jsx_syntax.specs.declared.file.File.{File};
ghost use Rattle.jsx_print.specs.Printed.{IsShallow, IsLexed, IsReread};
ghost use Rattle.jsx_print.specs.Printing.{file_words};

/// The words that are printed for a file spell this file. It is that of a text whose nesting is at most 199: a text
/// between tags stands in braces when it is printed, and those are one more.
pub fn printed_words()
    ensures { (file : File) → IsShallow file → SpellsFile (file_words file) file }
{}

/// The bytes that are printed for a file have tokens that say these words, with each name at its place.
pub fn printed_bytes()
    ensures { (file : File) → IsShallow file → IsLexed (file_words file) }
{}

/// Lexing and parsing what is printed for a file gives the file back, places aside.
pub fn printed_texts()
    ensures { (file : File) → IsShallow file → IsReread file }
{}
