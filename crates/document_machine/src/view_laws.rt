//! Laws of views.

ghost use Rattle.std.specs.Prelude.{◌≡◌, List, ℕ, Some, true};
ghost use Rattle.dom_forest.specs.Edits.{numbered_from};
ghost use Rattle.dom_forest.specs.Forest.{Forest};
ghost use Rattle.document_machine.specs.Plain.{IsPlain, plain_nodes, plain_view};
ghost use Rattle.document_machine.specs.Settled.{settled_of};
ghost use Rattle.document_machine.specs.Views.{view_of};

/// A view says nothing of the ids of nodes. A document without boundaries, templates and hidden containers is its own
/// view and its own settled document, save that its space comments are left out.
pub fn laws_of_views()
    ensures ids { (prefix : List ℕ) (first : ℕ) (forest : Forest) →
        view_of prefix (numbered_from first forest) ≡ view_of prefix forest }
    ensures plain { (prefix : List ℕ) (forest : Forest) → IsPlain prefix true forest →
        view_of prefix forest ≡ plain_view forest }
    ensures settled { (prefix : List ℕ) (forest : Forest) → IsPlain prefix true forest →
        settled_of (view_of prefix forest) ≡ Some (plain_nodes forest) }
{}
