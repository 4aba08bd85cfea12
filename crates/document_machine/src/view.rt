//! What is seen of a document.

ghost use Rattle.std.specs.Prelude.{◌≡◌, [], IfErr, IfOk, Some};
ghost use Rattle.dom_forest.specs.Documents.{nodes_in};
ghost use Rattle.document_machine.specs.declared.view.SettledRefused.TheVariants.{OutOfMemory as Memory};
ghost use Rattle.document_machine.specs.Settled.{IsSettledCause, counts_of, settled_of};
ghost use Rattle.document_machine.specs.Shown.{view_of_parts, view_parts};

use crate::settling::{counts_of, doc_of};
use crate::status::BoundaryStatus;
use dom_forest::Doc;
use fizz_text::{Attributes, OutOfMemory, Text};
use sqlite_items::Items;
use std::alloc::{AllocError, Global};

/// What counts of a document, as the list of its parts in their order. However deep it nests, nothing goes down it by
/// recursion.
#[derive(Debug, Drop)]
pub struct View {
    pub parts: Items<ViewPart>,
    ghost whole: { parts ≡ view_parts (view_of_parts parts) [] },
}

impl View {
    /// The elements and texts of the view, those of each boundary in its place; refused where a boundary is pending.
    pub fn settled(&self, alloc: Global) -> Result<Doc, SettledRefused>
        ensures settled { IfOk result
            (λ doc. settled_of (view_of_parts self.now.parts) ≡ Some (nodes_in doc.parts)) }
        ensures refused { IfErr result (IsSettledCause (view_of_parts self.now.parts)) }
    {
        let pending = self.counts().pending;
        if pending != 0 {
            return Err(SettledRefused::StillPending { count: pending });
        }
        Ok(doc_of(alloc, self.parts.as_slice())?)
    }

    /// How many boundaries there are.
    pub fn counts(&self) -> Counts
        ensures { result ≡ counts_of (view_of_parts self.now.parts) }
    {
        counts_of(self.parts.as_slice())
    }
}

/// A part of a view. Its text and the values of attributes are not escaped. What an element or a boundary holds stands
/// between it and its end.
#[derive(Debug, Drop)]
pub enum ViewPart {
    Element { name: Text, attributes: Attributes },
    Text(Text),
    /// A boundary with what it shows. The digest is that of the error for which the content failed, and else empty.
    Boundary { kind: BoundaryStatus, digest: Text },
    /// The innermost element ends.
    EndOfElement,
    /// The innermost boundary ends.
    EndOfBoundary,
}

/// How many boundaries a view has, nested ones included. A number that would be greater is 2^64 - 1.
#[derive(Clone, Copy, Debug, PartialEq, Eq)]
pub struct Counts {
    pub boundaries: u64,
    /// Those of kind `$!`.
    pub failed: u64,
    /// Those of kind `$?`.
    pub pending: u64,
}

/// Why a view has no settled document.
#[derive(Clone, Copy, Debug, PartialEq, Eq, Drop)]
pub enum SettledRefused {
    /// As many boundaries are pending, nested ones included. A number that would be greater is 2^64 - 1.
    StillPending { count: u64 },
    OutOfMemory,
}

impl From<OutOfMemory> for SettledRefused {
    ghost from_gives = { λ _ e. e ≡ Memory };

    fn from(_error: OutOfMemory) -> SettledRefused {
        SettledRefused::OutOfMemory
    }
}

impl From<AllocError> for SettledRefused {
    ghost from_gives = { λ _ e. e ≡ Memory };

    fn from(_error: AllocError) -> SettledRefused {
        SettledRefused::OutOfMemory
    }
}
