//! What holds of files and of documents, whatever serves them.

ghost use Rattle.std.specs.Prelude.{◌≡◌, List, Option, ℕ};
ghost use Rattle.std.specs.Str.{IsUtf8};
ghost use Rattle.dom_forest.specs.declared.document.DocNode.{DocNode as Node};
ghost use Rattle.fizz_outside.specs.FileContents.{Contents};
ghost use Rattle.jsx_syntax.specs.declared.file.File.{File as Program};
ghost use Rattle.page_laws.specs.PrintedDocuments.{IsDocument};
ghost use Rattle.settle_script.specs.declared.event.Event.{Event};
ghost use Rattle.fizz_cli.specs.PageFiles.{RefusesPage, ShowsFile};
ghost use Rattle.fizz_cli.specs.ProgramFiles.{AcceptsProgram, RefusesProgram};
ghost use Rattle.fizz_cli.specs.Rendering.{AcceptsPage};
ghost use Rattle.fizz_cli.specs.ScriptFiles.{AcceptsScript, RefusesScript};
ghost use Rattle.fizz_cli.specs.Trees.{RefusesTree, ShowsTree};
ghost use Rattle.fizz_cli.specs.Serving.{Accepts, Refuses};
ghost use Rattle.fizz_cli.specs.declared.refusal.Refusal.{Refusal as Cause};
ghost use Rattle.fizz_cli.specs.declared.steps.sources.Sources.{Sources};

use document_machine::laws_of_documents;
use fizz_words::Command;
use jsx_check::one_check_fault;
use jsx_lex::{one_fault, one_token_list, tokens_or_fault};
use jsx_syntax::{one_file, one_syntax_fault};

/// A law of documents: bytes are one document at most.
pub fn one_document()
    ensures { (prefix bytes : List ℕ) (a b : List Node) → IsUtf8 prefix →
        IsDocument prefix bytes a → IsDocument prefix bytes b → a ≡ b }
{
    laws_of_documents();
}

/// Laws of the steps that read a file: what is accepted is not refused.
pub fn laws_of_steps()
    ensures program { (name : List ℕ) (file : Option (List ℕ)) (program : Program) (cause : Cause) →
        AcceptsProgram file program → RefusesProgram ⊥ name file cause → ⊥ }
    ensures script { (name : List ℕ) (file : Option (List ℕ)) (lines : List Event) (cause : Cause) →
        AcceptsScript file lines → RefusesScript ⊥ name file cause → ⊥ }
    ensures page { (prefix name : List ℕ) (file : Option (List ℕ)) (out : List ℕ) (cause : Cause) → IsUtf8 prefix →
        ShowsFile prefix file out → RefusesPage prefix ⊥ name file cause → ⊥ }
{
    one_token_list();
    one_fault();
    tokens_or_fault();
    one_file();
    one_syntax_fault();
    one_check_fault();
    laws_of_documents();
}

/// Laws of commands, by what files hold: an accepted command is not refused, and a command is refused for one thing at
/// most, so there is one note for it.
pub fn laws_of_refusals(command: &Command)
    ensures accepted { (at : Contents) (cause : Cause) → Accepts at command.now → Refuses at command.now ⊥ cause → ⊥ }
    ensures one { (at : Contents) (a b : Cause) →
        Refuses at command.now ⊥ a → Refuses at command.now ⊥ b → a ≡ b }
{
    match command {
        Command::Render { .. } => laws_of_programs(),
        Command::Show { prefix, .. } => laws_of_pages(prefix.as_str()),
        Command::Tree { .. } => laws_of_programs(),
        Command::Gen { .. } => laws_of_programs(),
    }
}

/// The same of `tree` and of `render`.
fn laws_of_programs()
    ensures shown { (at : Contents) (app script prefix out : List ℕ) (cause : Cause) →
        ShowsTree at app script prefix out → RefusesTree at app script prefix ⊥ cause → ⊥ }
    ensures one_tree { (at : Contents) (app script prefix : List ℕ) (a b : Cause) →
        RefusesTree at app script prefix ⊥ a → RefusesTree at app script prefix ⊥ b → a ≡ b }
    ensures accepted { (at : Contents) (app script prefix : List ℕ) (sources : Sources) (cause : Cause) →
        AcceptsPage at app script prefix sources → RefusesTree at app script prefix ⊥ cause → ⊥ }
{
    one_token_list();
    one_fault();
    tokens_or_fault();
    one_file();
    one_syntax_fault();
    one_check_fault();
}

/// The same of a page file.
fn laws_of_pages(prefix: &str)
    ensures accepted { (name : List ℕ) (file : Option (List ℕ)) (out : List ℕ) (cause : Cause) →
        ShowsFile prefix.now file out → RefusesPage prefix.now ⊥ name file cause → ⊥ }
    ensures one { (name : List ℕ) (file : Option (List ℕ)) (a b : Cause) →
        RefusesPage prefix.now ⊥ name file a → RefusesPage prefix.now ⊥ name file b → a ≡ b }
{
    laws_of_documents();
}
