//! Worked examples of what is seen of pages, and of what is shown whole.

ghost use Rattle.std.specs.Prelude.{◌≡◌, ◌∷◌, [], None, Some, codes, false, true};
ghost use Rattle.dom_forest.specs.Boundary.{closing_mark};
ghost use Rattle.dom_forest.specs.Forest.{empty, joined_forests, tree};
ghost use Rattle.dom_forest.specs.declared.node.Mark.TheVariants.{Complete, End, Pending};
ghost use Rattle.dom_forest.specs.declared.node.NewNode.TheVariants.{Comment, Element, Text};
ghost use Rattle.html_read.specs.declared.token.Token.TheVariants as tok;
ghost use Rattle.document_machine.specs.Places.{IsClosedAt};
ghost use Rattle.document_machine.specs.Views.{boundary, element, end, joined_views, text as seen_text, view_of};
ghost use Rattle.document_machine.specs.declared.status.BoundaryStatus.TheVariants as status;
ghost use Rattle.page_laws.specs.Documents.{container_element, document_nodes};
ghost use Rattle.page_laws.specs.Examples.{pending_and_placeholder, with_container};
ghost use Rattle.page_laws.specs.NodeReveals.{IsPrefixOf, RevealsWholeDocument, has_placeholder};
ghost use Rattle.page_laws.specs.Nodes.{forest_of_nodes, node, none};
ghost use Rattle.page_laws.specs.PagePlaces.{AreOneItem};
ghost use Rattle.page_laws.specs.PageViews.{page_view, siblings_view};
ghost use Rattle.page_laws.specs.Pages.{RevealsWholePage, client, complete, hidden_attribute, id_attribute, nothing, page_nodes, pending, placeholder, separator, text};

/// Placeholders, templates and separators aren't seen, and a boundary is seen with its digest. What a container holds
/// isn't seen.
pub(crate) fn views_of_pages()
    ensures pending { page_view pending_and_placeholder
        ≡ boundary status.Pending [] (seen_text (codes "wait") end)
        (element (codes "p") [] end end) }
    ensures client { page_view
        (client (Some 1) (codes "e") (separator nothing) (text (codes "a") nothing))
        ≡ boundary status.Client (codes "e") end (seen_text (codes "a") end) }
    ensures nodes { siblings_view [] true
        (forest_of_nodes (page_nodes [] (client None (codes "e") nothing nothing)))
        ≡ boundary status.Client (codes "e") end end }
    ensures container { view_of [] (forest_of_nodes (document_nodes [] with_container))
        ≡ page_view pending_and_placeholder }
{}

/// Siblings that don't end what they begin take in what follows. A container inside an element is seen, and so is one of
/// another prefix.
pub(crate) fn views_of_others()
    ensures begun { siblings_view [] true
        (joined_forests (tree 0 (Comment Complete) empty empty)
        (tree 0 (Text (codes "a")) empty empty))
        ≡ boundary status.Complete [] (seen_text (codes "a") end) end }
    ensures apart { joined_views (siblings_view [] true (tree 0 (Comment Complete) empty empty))
        (siblings_view [] true (tree 0 (Text (codes "a")) empty empty))
        ≡ boundary status.Complete [] end (seen_text (codes "a") end) }
    ensures prefix { view_of (codes "r-") (tree 0 (container_element [] 7) empty empty)
        ≡ element (codes "div") (hidden_attribute ∷ id_attribute (codes "S:7") ∷ []) end end }
{}

/// The end of a boundary is past the ends of the boundaries in it, and not in an element.
pub(crate) fn ends_of_boundaries()
    ensures nested { closing_mark
        (tree 1 (Comment Pending) empty
        (tree 2 (Comment End) empty (tree 3 (Comment End) empty empty))) 0
        ≡ Some 3 }
    ensures below { closing_mark
        (tree 1 (Element (codes "p") []) (tree 2 (Comment End) empty empty) empty) 0 ≡ None }
{}

/// A placeholder may stand in a fallback, and after a boundary that shows its content, but not in that content, also not in
/// the fallback of a boundary there.
pub(crate) fn boundaries_shown_whole()
    ensures fallback { RevealsWholePage (pending 1 (placeholder 2 nothing) nothing) }
    ensures after { RevealsWholePage (complete (text (codes "a") nothing) (placeholder 2 nothing)) }
    ensures beside { RevealsWholeDocument with_container }
    ensures inside { has_placeholder []
        (page_nodes [] (pending 1 (placeholder 2 nothing) nothing)) ≡ true }
    ensures other_prefix { has_placeholder (codes "r-") (page_nodes [] (placeholder 2 nothing))
        ≡ false }
    ensures boundary_id { has_placeholder [] (page_nodes [] (pending 1 nothing nothing)) ≡ false }
{}

/// An element with what stands in it is one item, and a script is one; two tags beside each other are two, and a text, which
/// rests within, is none. Where an element is open its tokens' ends are no places of rest.
pub(crate) fn what_one_item_is()
    ensures element { AreOneItem
        (tok.Start (codes "p") [] 0 ∷ tok.Text (codes "ab") 3 ∷ tok.Void (codes "br") [] 5
        ∷ tok.End (codes "p") 10 ∷ []) }
    ensures script { AreOneItem (tok.Script (codes "x") 0 ∷ []) }
    ensures two { ¬ AreOneItem
        (tok.Void (codes "br") [] 0 ∷ tok.Void (codes "br") [] 5 ∷ []) }
    ensures open_still { ¬ AreOneItem (tok.Start (codes "p") [] 0 ∷ []) }
    ensures text { ¬ AreOneItem (tok.Text (codes "ab") 0 ∷ []) }
    ensures within_text { IsClosedAt (codes "ab") 1 }
{}

/// A cut behind `a` of `<p>ab<br/></p>` leaves the front of the text in the open element.
pub(crate) fn what_a_cut_leaves()
    ensures { IsPrefixOf (node (Element (codes "p") []) (node (Text (codes "a")) none none) none)
        (node (Element (codes "p") [])
        (node (Text (codes "ab")) none (node (Element (codes "br") []) none none)) none) }
{}
