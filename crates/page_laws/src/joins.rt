//! What is joined, and nodes without ids.

ghost use Rattle.std.specs.Prelude.{◌≡◌, ℕ, List, ◌++◌};
ghost use Rattle.dom_forest.specs.Edits.{numbered_from};
ghost use Rattle.dom_forest.specs.Forest.{Forest, joined_forests};
ghost use Rattle.document_machine.specs.Printing.{page_bytes, with_forest};
ghost use Rattle.document_machine.specs.Running.{PageState};
ghost use Rattle.page_laws.specs.Nodes.{Nodes, joined_nodes, nodes_of, none, forest_of_nodes};
ghost use Rattle.page_laws.specs.Pages.{Page, joined_pages, page_nodes};

/// Joining is associative. Other ids leave the same nodes. What is appended twice is appended joined, and the bytes of what
/// is joined are the bytes of the one and then of the other.
pub fn laws_of_joins()
    ensures assoc { (a b c : Nodes) →
        joined_nodes (joined_nodes a b) c ≡ joined_nodes a (joined_nodes b c) }
    ensures none { (a : Nodes) → joined_nodes a none ≡ a }
    ensures joined { (f g : Forest) →
        nodes_of (joined_forests f g) ≡ joined_nodes (nodes_of f) (nodes_of g) }
    ensures numbers { (n : ℕ) (f : Forest) → nodes_of (numbered_from n f) ≡ nodes_of f }
    ensures unnumbered { (n : Nodes) → nodes_of (forest_of_nodes n) ≡ n }
    ensures appended { (a b : Forest) (page : PageState) →
        with_forest b (with_forest a page) ≡ with_forest (joined_forests a b) page }
    ensures bytes { (a b : Forest) →
        page_bytes (joined_forests a b) ≡ page_bytes a ++ page_bytes b }
{}

/// The nodes of joined pages are the nodes of the one and then of the other.
pub fn laws_of_page_joins()
    ensures nodes { (prefix : List ℕ) (a b : Page) →
        page_nodes prefix (joined_pages a b)
        ≡ joined_nodes (page_nodes prefix a) (page_nodes prefix b) }
    ensures assoc { (a b c : Page) →
        joined_pages (joined_pages a b) c ≡ joined_pages a (joined_pages b c) }
{}
