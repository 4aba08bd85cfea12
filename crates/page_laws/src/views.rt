//! Views.

ghost use Rattle.std.specs.Prelude.{◌≡◌, ℕ, [], List, Bool, Some, true};
ghost use Rattle.fizz_text.specs.declared.attribute.Attr.{Attr};
ghost use Rattle.dom_forest.specs.Boundary.{closing_mark};
ghost use Rattle.dom_forest.specs.Edits.{DomState};
ghost use Rattle.dom_forest.specs.Forest.{Forest, empty, joined_forests, tree};
ghost use Rattle.dom_forest.specs.declared.node.Mark.{Mark};
ghost use Rattle.dom_forest.specs.declared.node.NewNode.TheVariants.{Comment, Element};
ghost use Rattle.document_machine.specs.Views.{boundary, joined_views, is_container, view_of};
ghost use Rattle.document_machine.specs.declared.status.BoundaryStatus.{BoundaryStatus};
ghost use Rattle.page_laws.specs.Balance.{IsBalanced};
ghost use Rattle.page_laws.specs.DocumentEdits.{IsStreamed};
ghost use Rattle.page_laws.specs.Documents.{StreamedDocument};
ghost use Rattle.page_laws.specs.Nodes.{nodes_of, forest_of_nodes};
ghost use Rattle.page_laws.specs.PageViews.{Begins, EndsAt, page_view, siblings_view};
ghost use Rattle.page_laws.specs.Pages.{IsCleanPage, Page, page_nodes};

use document_machine::laws_of_views;

/// A view says nothing of the ids of nodes. The view of balanced siblings before others is their view and then that of the
/// others. A hidden container of a segment at the end isn't seen.
pub fn laws_of_joined_views()
    ensures nodes { (prefix : List ℕ) (f g : Forest) → nodes_of f ≡ nodes_of g →
        view_of prefix f ≡ view_of prefix g }
    ensures joined { (prefix : List ℕ) (at_top : Bool) (a b : Forest) → IsBalanced (nodes_of a) →
        siblings_view prefix at_top (joined_forests a b)
        ≡ joined_views (siblings_view prefix at_top a) (siblings_view prefix at_top b) }
    ensures container { (prefix : List ℕ) (f : Forest) (i : ℕ) (name : List ℕ)
        (attributes : List Attr) (kids : Forest) →
        is_container prefix name attributes ≡ true →
        view_of prefix (joined_forests f (tree i (Element name attributes) kids empty))
        ≡ view_of prefix f }
{
    laws_of_views();
}

/// The end that is found for a marker is the one after balanced siblings, and the boundary that is seen is exactly these.
pub fn laws_of_ends()
    ensures found { (siblings : Forest) (end : ℕ) → closing_mark siblings 0 ≡ Some end →
        EndsAt siblings end }
    ensures ends { (siblings : Forest) (end : ℕ) → EndsAt siblings end →
        closing_mark siblings 0 ≡ Some end }
    ensures seen { (prefix : List ℕ) (at_top : Bool) (mark : Mark) (status : BoundaryStatus)
        (digest : List ℕ)
        (marker end : ℕ) (kids siblings : Forest) → Begins mark siblings status digest →
        (ends : EndsAt siblings end) →
        siblings_view prefix at_top (tree marker (Comment mark) kids siblings)
        ≡ boundary status digest (siblings_view prefix at_top ends.inside)
        (siblings_view prefix at_top ends.after) }
{}

/// The nodes of a page are balanced, and a clean page is seen as its elements, texts and boundaries, wherever it stands. Of a
/// streamed document the page that is shown is seen, and no container.
pub fn laws_of_page_views()
    ensures balanced { (prefix : List ℕ) (page : Page) → IsBalanced (page_nodes prefix page) }
    ensures page { (prefix : List ℕ) (at_top : Bool) (page : Page) → IsCleanPage prefix page →
        siblings_view prefix at_top (forest_of_nodes (page_nodes prefix page)) ≡ page_view page }
    ensures shown { (prefix : List ℕ) (d : StreamedDocument) (dom : DomState) →
        IsStreamed prefix d dom →
        view_of prefix dom.forest ≡ page_view d.shown }
{
    laws_of_views();
}
