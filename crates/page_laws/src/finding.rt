//! How often an id stands in a document, and what is found by it.

ghost use Rattle.std.specs.Prelude.{◌≡◌, ◌+◌, ℕ, List, None, Some, true};
ghost use Rattle.dom_forest.specs.Edits.{DomState, IsNumbered, with_change};
ghost use Rattle.dom_forest.specs.Forest.{Forest, content_of, from, joined_forests, or_id, tree};
ghost use Rattle.dom_forest.specs.Ids.{element_with, has_id};
ghost use Rattle.dom_forest.specs.declared.node.NewNode.{NewNode};
ghost use Rattle.fizz_instructions.specs.Bodies.{boundary_id, placeholder_id, segment_id};
ghost use Rattle.page_laws.specs.Documents.{Container, AreClean, container_count, container_nodes};
ghost use Rattle.page_laws.specs.Nodes.{Nodes, id_count, joined_nodes, nodes_of};
ghost use Rattle.page_laws.specs.Pages.{IsCleanPage, Page, client_count, page_nodes, pending_count, placeholder_count};

/// An id is found exactly where an element has it: the first of several, the only one where it stands once. A join has it
/// as often as its parts together, and an edit at one node changes the count by what it changes there.
pub fn laws_of_finding()
    ensures absent { (id : List ℕ) (f : Forest) → id_count id (nodes_of f) ≡ 0 →
        element_with id f ≡ None }
    ensures not_found { (id : List ℕ) (f : Forest) → element_with id f ≡ None →
        id_count id (nodes_of f) ≡ 0 }
    ensures first { (id : List ℕ) (f g : Forest) →
        element_with id (joined_forests f g) ≡ or_id (element_with id f) (element_with id g) }
    ensures one { (id : List ℕ) (n : ℕ) (content : NewNode) (dom : DomState) → IsNumbered dom →
        id_count id (nodes_of dom.forest) ≡ 1 → content_of n dom.forest ≡ Some content →
        has_id id content ≡ true →
        element_with id dom.forest ≡ Some n }
    ensures joined { (id : List ℕ) (a b : Nodes) →
        id_count id (joined_nodes a b) ≡ id_count id a + id_count id b }
    ensures changed { (id : List ℕ) (n : ℕ) (change : NewNode → Forest → Forest → Forest)
        (content : NewNode) (kids later : Forest) (dom : DomState) → IsNumbered dom →
        from n dom.forest ≡ tree n content kids later →
        id_count id (nodes_of (with_change n change dom.forest)) + id_count id (nodes_of (tree n content kids later))
        ≡ id_count id (nodes_of dom.forest) + id_count id (nodes_of (change content kids later)) }
{}

/// In the nodes of a clean page the id of a segment's placeholder stands as often as the page has that placeholder, the
/// id of a boundary as often as it has it pending or left to the client, and no container's. Each container has its own.
pub fn laws_of_page_ids()
    ensures placeholders { (prefix : List ℕ) (h : ℕ) (page : Page) → IsCleanPage prefix page →
        id_count (placeholder_id prefix h) (page_nodes prefix page) ≡ placeholder_count h page }
    ensures boundaries { (prefix : List ℕ) (h : ℕ) (page : Page) → IsCleanPage prefix page →
        id_count (boundary_id prefix h) (page_nodes prefix page)
        ≡ pending_count h page + client_count h page }
    ensures segments { (prefix : List ℕ) (h : ℕ) (page : Page) → IsCleanPage prefix page →
        id_count (segment_id prefix h) (page_nodes prefix page) ≡ 0 }
    ensures containers { (prefix : List ℕ) (h : ℕ) (cs : List Container) → AreClean prefix cs →
        id_count (segment_id prefix h) (container_nodes prefix cs) ≡ container_count h cs }
{}
