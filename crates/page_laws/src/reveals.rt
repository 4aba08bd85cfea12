//! Content that is shown whole.

ghost use Rattle.std.specs.Prelude.{ℕ, List};
ghost use Rattle.dom_forest.specs.Edits.{DomState, IsNumbered};
ghost use Rattle.document_machine.specs.Reveals.{RevealsWhole};
ghost use Rattle.page_laws.specs.DocumentEdits.{IsStreamed};
ghost use Rattle.page_laws.specs.Documents.{StreamedDocument};
ghost use Rattle.page_laws.specs.NodeReveals.{IsPrefixOf, RevealsWholeDocument, RevealsWholeNodes};
ghost use Rattle.page_laws.specs.Nodes.{Nodes, nodes_of};
ghost use Rattle.page_laws.specs.PageEdits.{with_boundary_completed, with_boundary_failed, with_placeholder_filled};
ghost use Rattle.page_laws.specs.Pages.{HasNoPlaceholder, Page, RevealsWholePage, joined_pages};

/// A numbered document reveals its boundaries whole where its nodes do, and a streamed document where its pages do. So do the
/// first nodes of a document that does.
pub fn laws_of_reveals()
    ensures forest { (prefix : List ℕ) (dom : DomState) → IsNumbered dom →
        RevealsWholeNodes prefix (nodes_of dom.forest) → RevealsWhole prefix dom.forest }
    ensures streamed { (prefix : List ℕ) (d : StreamedDocument) (dom : DomState) →
        IsStreamed prefix d dom →
        RevealsWholeDocument d → RevealsWholeNodes prefix (nodes_of dom.forest) }
    ensures first { (prefix : List ℕ) (front nodes : Nodes) → IsPrefixOf front nodes →
        RevealsWholeNodes prefix nodes → RevealsWholeNodes prefix front }
{}

/// A page goes on to reveal its boundaries whole after each edit: after `$RC` where the content that is put in has no
/// placeholder.
pub fn laws_of_kept_reveals()
    ensures joined { (a b : Page) → RevealsWholePage a → RevealsWholePage b →
        RevealsWholePage (joined_pages a b) }
    ensures fill { (h : ℕ) (content page : Page) → RevealsWholePage content →
        RevealsWholePage page →
        RevealsWholePage (with_placeholder_filled h content page) }
    ensures complete { (h : ℕ) (content page : Page) → HasNoPlaceholder content →
        RevealsWholePage content →
        RevealsWholePage page → RevealsWholePage (with_boundary_completed h content page) }
    ensures client { (h : ℕ) (error : List ℕ) (page : Page) → RevealsWholePage page →
        RevealsWholePage (with_boundary_failed h error page) }
{}
