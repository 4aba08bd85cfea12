//! The machine's edits as edits of pages.

ghost use Rattle.std.specs.Prelude.{◌≡◌, ◌≤◌, ◌+◌, ℕ, List, []};
ghost use Rattle.dom_forest.specs.Edits.{DomState};
ghost use Rattle.document_machine.specs.Edits.{client_render, complete_boundary, fill_placeholder};
ghost use Rattle.page_laws.specs.DocumentEdits.{HasContainer, IsStreamed, LeavesNodes};
ghost use Rattle.page_laws.specs.Documents.{StreamedDocument, document_nodes, edited_pages, sum_of_pages};
ghost use Rattle.page_laws.specs.PageEdits.{with_boundary_completed, with_boundary_failed, with_placeholder_filled};
ghost use Rattle.page_laws.specs.Pages.{IsCleanPage, Page, client_count, joined_pages, pending_count, placeholder_count, weight_of_ids};

/// Where the id stands once, each instruction leaves the document that its edit of the pages says: `$RS` puts the content of
/// the segment's container into the place of its placeholder, `$RC` makes it what the boundary shows, and `$RX` leaves the
/// boundary to the client.
pub fn laws_of_edits()
    ensures fill { (prefix : List ℕ) (h : ℕ) (content : Page) (left : StreamedDocument)
        (dom : DomState) →
        HasContainer prefix h content left dom → sum_of_pages (placeholder_count h) left ≡ 1 →
        placeholder_count h content ≡ 0 →
        LeavesNodes (fill_placeholder prefix [] h dom)
        (document_nodes prefix (edited_pages (with_placeholder_filled h content) left)) }
    ensures complete { (prefix : List ℕ) (h : ℕ) (content : Page) (left : StreamedDocument)
        (dom : DomState) →
        HasContainer prefix h content left dom →
        sum_of_pages (pending_count h) left ≡ 1 → sum_of_pages (client_count h) left ≡ 0 →
        LeavesNodes (complete_boundary prefix [] h h dom)
        (document_nodes prefix (edited_pages (with_boundary_completed h content) left)) }
    ensures client { (prefix : List ℕ) (h : ℕ) (error : List ℕ) (d : StreamedDocument)
        (dom : DomState) →
        IsStreamed prefix d dom → sum_of_pages (pending_count h) d ≡ 1 →
        sum_of_pages (client_count h) d ≡ 0 →
        LeavesNodes (client_render prefix h error dom)
        (document_nodes prefix (edited_pages (with_boundary_failed h error) d)) }
{}

/// A page without the id stays.
pub fn laws_of_absent_ids()
    ensures fill { (h : ℕ) (content page : Page) → placeholder_count h page ≡ 0 →
        with_placeholder_filled h content page ≡ page }
    ensures complete { (h : ℕ) (content page : Page) → pending_count h page ≡ 0 →
        with_boundary_completed h content page ≡ page }
    ensures client { (h : ℕ) (error : List ℕ) (page : Page) → pending_count h page ≡ 0 →
        with_boundary_failed h error page ≡ page }
{}

/// An edit of clean pages leaves clean pages.
pub fn laws_of_clean_pages()
    ensures joined { (prefix : List ℕ) (a b : Page) → IsCleanPage prefix a → IsCleanPage prefix b →
        IsCleanPage prefix (joined_pages a b) }
    ensures fill { (prefix : List ℕ) (h : ℕ) (content page : Page) → IsCleanPage prefix content →
        IsCleanPage prefix page →
        IsCleanPage prefix (with_placeholder_filled h content page) }
    ensures complete { (prefix : List ℕ) (h : ℕ) (content page : Page) →
        IsCleanPage prefix content →
        IsCleanPage prefix page → IsCleanPage prefix (with_boundary_completed h content page) }
    ensures client { (prefix : List ℕ) (h : ℕ) (error : List ℕ) (page : Page) →
        IsCleanPage prefix page →
        IsCleanPage prefix (with_boundary_failed h error page) }
{}

/// How an edit at the one place of an id changes the sum of any weights of ids: `$RS` takes the placeholder's and brings
/// those of the content, `$RX` turns a pending boundary's into one that is left to the client, and `$RC` takes the boundary's
/// with those of its fallback.
pub fn laws_of_weights()
    ensures joined { (p b c : ℕ → ℕ) (x y : Page) →
        weight_of_ids p b c (joined_pages x y) ≡ weight_of_ids p b c x + weight_of_ids p b c y }
    ensures fill { (p b c : ℕ → ℕ) (h : ℕ) (content page : Page) → placeholder_count h page ≡ 1 →
        weight_of_ids p b c (with_placeholder_filled h content page) + p h
        ≡ weight_of_ids p b c page + weight_of_ids p b c content }
    ensures complete { (p b c : ℕ → ℕ) (h : ℕ) (content page : Page) → pending_count h page ≡ 1 →
        weight_of_ids p b c (with_boundary_completed h content page) + b h
        ≤ weight_of_ids p b c page + weight_of_ids p b c content }
    ensures client { (p b c : ℕ → ℕ) (h : ℕ) (error : List ℕ) (page : Page) →
        pending_count h page ≡ 1 →
        weight_of_ids p b c (with_boundary_failed h error page) + b h
        ≡ weight_of_ids p b c page + c h }
{}
