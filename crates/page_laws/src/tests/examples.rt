//! Worked examples of the definitions.

ghost use Rattle.std.specs.Prelude.{◌≡◌, ◌≢◌, ◌∷◌, [], ℕ, List, None, Some, codes, false, true};
ghost use Rattle.fizz_text.specs.declared.attribute.Attr.{Attr};
ghost use Rattle.dom_forest.specs.Edits.{digest_attribute};
ghost use Rattle.dom_forest.specs.declared.node.Mark.TheVariants.{Client, Complete, End, Pending, Space};
ghost use Rattle.dom_forest.specs.declared.node.NewNode.TheVariants.{Comment, Element, Text};
ghost use Rattle.document_machine.specs.Printing.{page_bytes};
ghost use Rattle.page_laws.specs.Balance.{closes_all};
ghost use Rattle.page_laws.specs.Documents.{document_nodes, edited_pages, sum_of_pages};
ghost use Rattle.page_laws.specs.Examples.{new_text, pending_and_placeholder, with_container};
ghost use Rattle.page_laws.specs.Nodes.{id_count, joined_nodes, node, none, forest_of_nodes};
ghost use Rattle.page_laws.specs.PageEdits.{with_boundary_completed, with_boundary_failed, with_placeholder_filled};
ghost use Rattle.page_laws.specs.Pages.{client, client_count, complete, element, id_attribute, is_reserved_id, nothing, page_nodes, pending, pending_count, placeholder, placeholder_count, text};

/// A boundary is its marker, its template directly after it, its nodes and `/$`, all of them siblings. A digest that is
/// empty has no attribute, and a boundary that was never pending no id.
pub(crate) fn nodes_of_pages()
    ensures pending { page_bytes (forest_of_nodes (page_nodes (codes "r-") pending_and_placeholder))
        ≡ codes "<!--$?--><template id=\"r-B:1\"></template>wait<!--/$--><p><template id=\"r-P:2\"></template></p>" }
    ensures complete { page_nodes [] (complete (text (codes "a") nothing) nothing)
        ≡ node (Comment Complete) none
        (node (Text (codes "a")) none (node (Comment End) none none)) }
    ensures digest { page_bytes
        (forest_of_nodes (page_nodes [] (client None (codes "e") nothing nothing)))
        ≡ codes "<!--$!--><template data-dgst=\"e\"></template><!--/$-->" }
    ensures no_digest { page_bytes
        (forest_of_nodes (page_nodes [] (client None [] nothing nothing)))
        ≡ codes "<!--$!--><template></template><!--/$-->" }
    ensures both { page_bytes
        (forest_of_nodes (page_nodes [] (client (Some 10) (codes "e") nothing nothing)))
        ≡ codes "<!--$!--><template id=\"B:a\" data-dgst=\"e\"></template><!--/$-->" }
{}

/// The containers stand after the page.
pub(crate) fn nodes_of_documents()
    ensures { page_bytes (forest_of_nodes (document_nodes [] with_container))
        ≡ codes "<!--$?--><template id=\"B:1\"></template>wait<!--/$--><p><template id=\"P:2\"></template></p><div hidden id=\"S:7\"><template id=\"P:2\"></template></div>" }
{}

/// What is replaced is the placeholder inside the element, and nothing of another id.
pub(crate) fn placeholders_that_are_filled()
    ensures inside { with_placeholder_filled 2 new_text pending_and_placeholder
        ≡ pending 1 (text (codes "wait") nothing) (element (codes "p") [] new_text nothing) }
    ensures other { with_placeholder_filled 1 new_text pending_and_placeholder
        ≡ pending_and_placeholder }
    ensures before_the_rest { with_placeholder_filled 2 new_text
        (placeholder 2 (text (codes "after") nothing))
        ≡ text (codes "new") (text (codes "after") nothing) }
    ensures each_page { edited_pages (with_placeholder_filled 2 new_text) with_container
        ≡ record { shown = with_placeholder_filled 2 new_text pending_and_placeholder; containers = record { id = 7; content = new_text } ∷ [] } }
{}

/// The fallback goes with the template and what stands after the boundary stays.
pub(crate) fn boundaries_that_are_completed()
    ensures content { with_boundary_completed 1 new_text pending_and_placeholder
        ≡ complete new_text (element (codes "p") [] (placeholder 2 nothing) nothing) }
    ensures other { with_boundary_completed 2 new_text pending_and_placeholder
        ≡ pending_and_placeholder }
    ensures failed { with_boundary_completed 1 new_text (client (Some 1) [] nothing nothing)
        ≡ client (Some 1) [] nothing nothing }
{}

/// The fallback and the id stay.
pub(crate) fn boundaries_that_fail()
    ensures fallback { with_boundary_failed 1 (codes "e") pending_and_placeholder
        ≡ client (Some 1) (codes "e") (text (codes "wait") nothing)
        (element (codes "p") [] (placeholder 2 nothing) nothing) }
{}

/// Counts go over all depths and all pages, each kind by itself.
pub(crate) fn counts_of_ids()
    ensures placeholder { placeholder_count 2 pending_and_placeholder ≡ 1 }
    ensures boundary { placeholder_count 1 pending_and_placeholder ≡ 0 }
    ensures pending { pending_count 1 pending_and_placeholder ≡ 1 }
    ensures client { client_count 1 pending_and_placeholder ≡ 0 }
    ensures failed { client_count 1 (with_boundary_failed 1 [] pending_and_placeholder) ≡ 1 }
    ensures gone { pending_count 1 (with_boundary_failed 1 [] pending_and_placeholder) ≡ 0 }
    ensures twice { sum_of_pages (placeholder_count 2) with_container ≡ 2 }
    ensures nodes { id_count (codes "P:2") (document_nodes [] with_container) ≡ 2 }
{}

/// A `/$` ends what a sibling before it began, and nothing else.
pub(crate) fn balanced_siblings()
    ensures pair { closes_all (node (Comment Pending) none (node (Comment End) none none)) 0
        ≡ true }
    ensures turned { closes_all (node (Comment End) none (node (Comment Pending) none none)) 0
        ≡ false }
    ensures below { closes_all
        (node (Comment Client) none
        (node (Element (codes "p") []) (node (Comment End) none none) none)) 0 ≡ false }
    ensures space { closes_all (node (Comment Space) none none) 0 ≡ true }
{}

/// An id is reserved for the page where it begins with the prefix and one of the three marks.
pub(crate) fn reserved_ids()
    ensures own { is_reserved_id (codes "r-") (id_attribute (codes "r-S:x")) ≡ true }
    ensures other_prefix { is_reserved_id (codes "r-") (id_attribute (codes "S:x")) ≡ false }
    ensures other_name { is_reserved_id [] (digest_attribute (codes "B:0")) ≡ false }
{}
