//! Printed documents.

ghost use Rattle.std.specs.Prelude.{◌≡◌, ℕ, List};
ghost use Rattle.dom_forest.specs.Printing.{printed_nodes};
ghost use Rattle.dom_forest.specs.declared.document.DocNode.{DocNode};
ghost use Rattle.document_machine.specs.Printing.{page_bytes};
ghost use Rattle.page_laws.specs.PrintedDocuments.{IsDocument, IsPrintable, printed_forest};

use document_machine::{laws_of_printing, laws_of_views};

/// A printed document of elements and texts is a page, whose settled document it is.
pub fn laws_of_printed_documents()
    ensures bytes { (nodes : List DocNode) →
        page_bytes (printed_forest nodes) ≡ printed_nodes nodes }
    ensures document { (prefix : List ℕ) (nodes : List DocNode) → IsPrintable prefix nodes →
        IsDocument prefix (printed_nodes nodes) nodes }
{
    laws_of_printing();
    laws_of_views();
}
