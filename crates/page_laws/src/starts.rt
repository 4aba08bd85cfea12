//! Documents that a page leaves from nothing, and from a document where a resumption begins.

ghost use Rattle.std.specs.Prelude.{◌≡◌, ◌++◌, ℕ, List};
ghost use Rattle.std.specs.Str.{IsUtf8};
ghost use Rattle.dom_forest.specs.Edits.{DomState, IsNumbered};
ghost use Rattle.fizz_instructions.specs.declared.instruction.SentFunctions.{SentFunctions};
ghost use Rattle.document_machine.specs.Documents.{IsDocumentOf, Runs, Steps};
ghost use Rattle.document_machine.specs.Running.{PageState, ids_of, on_document};
ghost use Rattle.document_machine.specs.Paths.{IsOpenDocument};
ghost use Rattle.html_read.specs.Tokens.{Tokenizes};
ghost use Rattle.html_read.specs.declared.token.Token.{Token};
ghost use Rattle.page_laws.specs.Markup.{AreMarkup};
ghost use Rattle.page_laws.specs.NodeReveals.{IsPrefixOf};
ghost use Rattle.page_laws.specs.Nodes.{nodes_of};

use document_machine::{laws_of_documents, laws_of_runs};
use fizz_instructions::laws_of_instructions;
use html_read::laws_of_tokens;

/// Bytes leave one document from nothing, whose nodes are numbered; so are those that they leave from a numbered document.
pub fn laws_of_starts()
    ensures one { (prefix bytes : List ℕ) (a b : PageState) → IsUtf8 prefix →
        IsDocumentOf prefix bytes a → IsDocumentOf prefix bytes b → a ≡ b }
    ensures numbered { (prefix bytes : List ℕ) (end : PageState) →
        IsDocumentOf prefix bytes end → IsNumbered end.dom }
    ensures resumed { (prefix bytes : List ℕ) (dom : DomState) (known : SentFunctions)
        (end : PageState) →
        Runs prefix (on_document dom known) bytes end → IsNumbered dom → IsNumbered end.dom }
{
    laws_of_documents();
    laws_of_runs();
}

/// The first bytes of markup leave the first nodes of the document that all of it leaves: where the bytes are cut within a text,
/// a front of it stands there, and any other token that is cut leaves nothing.
pub fn laws_of_first_bytes()
    ensures { (prefix a b : List ℕ) (start front end : PageState) (toks : List Token) →
        IsUtf8 prefix → IsOpenDocument (ids_of start.opened) start.dom →
        Tokenizes (a ++ b) toks → AreMarkup toks → Steps prefix start toks end →
        Runs prefix start a front →
        IsPrefixOf (nodes_of front.dom.forest) (nodes_of end.dom.forest) }
{
    laws_of_tokens();
    laws_of_instructions();
}
