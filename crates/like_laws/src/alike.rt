//! Documents that are alike, what runs make of them, and what is seen of them.

ghost use Rattle.std.specs.Prelude.{◌≡◌, ◌++◌, ℕ, List, false};
ghost use Rattle.dom_forest.specs.Edits.{DomState, IsNumbered};
ghost use Rattle.dom_forest.specs.Forest.{Forest};
ghost use Rattle.fizz_instructions.specs.declared.instruction.SentFunctions.{SentFunctions};
ghost use Rattle.document_machine.specs.Documents.{Runs};
ghost use Rattle.document_machine.specs.Running.{PageState, on_document};
ghost use Rattle.document_machine.specs.Settled.{settled_of};
ghost use Rattle.document_machine.specs.Views.{view_of};
ghost use Rattle.page_laws.specs.DocumentEdits.{IsStreamed};
ghost use Rattle.page_laws.specs.Documents.{StreamedDocument, edited_pages};
ghost use Rattle.page_laws.specs.Nodes.{nodes_of};
ghost use Rattle.like_laws.specs.Alike.{AreAlike};
ghost use Rattle.like_laws.specs.Apart.{StandApart};
ghost use Rattle.like_laws.specs.LikePages.{AlikePages, IsOpenPage, MovesApart, RunsAlike};
ghost use Rattle.like_laws.specs.LikeViews.{without_digests};
ghost use Rattle.like_laws.specs.PlainPages.{plain_page};

/// Documents of the same nodes are alike, whatever the ids of these, and so are alike documents the other way round.
pub fn laws_of_likeness()
    ensures nodes { (f g : Forest) → nodes_of f ≡ nodes_of g → AreAlike f g }
    ensures turned { (f g : Forest) → AreAlike f g → AreAlike g f }
{}

/// Bytes that run from a page run from an alike one too, to a page that is alike to the one at which they end, if at each
/// script what instructions move stands apart from markers. A run goes from elements that are open in its document to such,
/// and none is open where a resumption begins.
pub fn laws_of_alike_runs()
    ensures runs { (prefix bytes : List ℕ) (a b end : PageState) (first : Runs prefix a bytes end) →
        IsOpenPage a → IsOpenPage b → AlikePages a b →
        MovesApart prefix a (first.toks ++ first.last) → RunsAlike prefix b bytes end a first }
    ensures open_page { (prefix bytes : List ℕ) (start end : PageState) →
        Runs prefix start bytes end → IsOpenPage start → IsOpenPage end }
    ensures resumed { (dom : DomState) (known : SentFunctions) → IsNumbered dom →
        IsOpenPage (on_document dom known) }
{}

/// Streamed documents are alike whose pages are equal without separators and digests, container by container.
pub fn laws_of_alike_documents()
    ensures { (prefix : List ℕ) (d e : StreamedDocument) (dom other : DomState) →
        IsStreamed prefix d dom → IsStreamed prefix e other →
        edited_pages plain_page d ≡ edited_pages plain_page e → AreAlike dom.forest other.forest }
{}

/// In a streamed document what instructions move stands apart from markers.
pub fn laws_of_apart_documents()
    ensures { (prefix : List ℕ) (d : StreamedDocument) (dom : DomState) → IsStreamed prefix d dom →
        StandApart prefix false dom.forest }
{}

/// The views of alike documents are the same but for the digests of their boundaries, and so their settled documents, where
/// they have them, are the same.
pub fn laws_of_alike_views()
    ensures views { (prefix : List ℕ) (f g : Forest) → AreAlike f g →
        without_digests (view_of prefix f) ≡ without_digests (view_of prefix g) }
    ensures settled { (prefix : List ℕ) (f g : Forest) → AreAlike f g →
        settled_of (view_of prefix f) ≡ settled_of (view_of prefix g) }
{}
