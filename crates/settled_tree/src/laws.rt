//! What holds of forests. These functions do nothing: each has its laws as its contract.

ghost use Rattle.std.specs.Prelude.{◌≡◌, ◌∷◌, [], codes};
ghost use Rattle.dom_forest.specs.declared.document.DocNode.TheVariants as doc;
ghost use Rattle.jsx_value.specs.Positions.{Page};
ghost use Rattle.jsx_value.specs.Spots.{fails, settled};
ghost use Rattle.settled_tree.specs.declared.forest.FNode.TheVariants as f;
ghost use Rattle.settled_tree.specs.Examples as example;
ghost use Rattle.settled_tree.specs.Forests.{forest_of, nodes_at};
ghost use Rattle.settled_tree.specs.Final.{final_document, settled_nodes, settled_tree};

/// The forest of a page has the failures and the final document of its settled tree.
pub fn laws_of_forests()
    ensures failures { (page : Page)
        → fails (settled_nodes (forest_of page)) ≡ fails (settled_tree page) }
    ensures document { (page : Page)
        → final_document (settled_nodes (forest_of page)) ≡ final_document (settled_tree page) }
{}

/// Worked positions, with their failures, their nodes and their final documents.
pub fn worked_trees()
    ensures no_failure { fails (settled example.waiting) ≡ [] }
    ensures fallback { final_document (settled example.waiting) ≡ doc.Text (codes "w") ∷ [] }
    ensures mixed { final_document example.mixed
        ≡ doc.Text (codes "x") ∷ doc.Text (codes "w") ∷ [] }
    ensures content { final_document example.nested
        ≡ doc.Element (codes "p") [] (doc.Text (codes "x") ∷ doc.Text (codes "w") ∷ []) ∷ [] }
    ensures nodes { nodes_at [] example.mixed
        ≡ f.Text (codes "x")
        ∷ f.Boundary (2 ∷ 0 ∷ []) (f.Fail (codes "d") ∷ []) (f.Text (codes "w") ∷ []) ∷ [] }
{}
