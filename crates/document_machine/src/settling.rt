//! The settled document of a view, and the counts of its boundaries.

ghost use Rattle.std.specs.Prelude.{◌≡◌, ◌++◌, [], IfOk, OnOk};
ghost use Rattle.dom_forest.specs.Documents.{nodes_in};
ghost use Rattle.document_machine.specs.Settled.{counts_of, nodes_of};
ghost use Rattle.document_machine.specs.Settling.{counts_with, counts_with_one, doc_part, doc_parts};
ghost use Rattle.document_machine.specs.Shown.{view_of_parts, view_parts};

use crate::status::BoundaryStatus;
use crate::view::{Counts, ViewPart};
use dom_forest::{Doc, DocPart};
use fizz_text::OutOfMemory;
use sqlite_items::Items;
use std::alloc::Global;

/// The boundaries of a view by its parts, nested ones included.
pub(crate) fn counts_of(parts: &[ViewPart]) -> Counts
    requires { parts.now ≡ view_parts (view_of_parts parts.now) [] }
    ensures { result ≡ counts_of (view_of_parts parts.now) }
{
    let mut counts = Counts {
        boundaries: 0,
        failed: 0,
        pending: 0,
    };
    add_counts(&mut counts, parts);
    counts
}

/// Adds the boundaries among parts.
fn add_counts(counts: &mut Counts, parts: &[ViewPart])
    ensures { counts.new ≡ counts_with parts.now counts.old }
{
    for part in parts {
        if let ViewPart::Boundary { kind, .. } = part {
            add_boundary(counts, *kind);
        }
    }
}

fn add_boundary(counts: &mut Counts, kind: BoundaryStatus)
    ensures { counts.new ≡ counts_with_one kind counts.old }
{
    counts.boundaries = counts.boundaries.saturating_add(1);
    match kind {
        BoundaryStatus::Complete => {}
        BoundaryStatus::Pending => counts.pending = counts.pending.saturating_add(1),
        BoundaryStatus::Client => counts.failed = counts.failed.saturating_add(1),
    }
}

/// The elements and texts of a view by its parts, those of each boundary in its place.
pub(crate) fn doc_of(alloc: Global, parts: &[ViewPart]) -> Result<Doc, OutOfMemory>
    requires { parts.now ≡ view_parts (view_of_parts parts.now) [] }
    ensures { IfOk result (λ doc. nodes_in doc.parts ≡ nodes_of (view_of_parts parts.now)) }
{
    let parts = kept_parts(alloc, parts)?;
    Ok(Doc { parts })
}

/// The parts without those of boundaries.
fn kept_parts(alloc: Global, parts: &[ViewPart]) -> Result<Items<DocPart>, OutOfMemory>
    ensures { IfOk result (λ kept. kept ≡ doc_parts parts.now) }
{
    let mut kept = Items::new(alloc);
    for part in parts {
        keep_part(alloc, &mut kept, part)?;
    }
    Ok(kept)
}

fn keep_part(alloc: Global, kept: &mut Items<DocPart>, part: &ViewPart) -> Result<(), OutOfMemory>
    ensures { OnOk result (kept.new ≡ kept.old ++ doc_part part.now) }
{
    match part {
        ViewPart::Element { name, attributes } => {
            let name = name.copy(alloc)?;
            let attributes = attributes.copy(alloc)?;
            kept.push(DocPart::Element { name, attributes })?;
        }
        ViewPart::Text(text) => kept.push(DocPart::Text(text.copy(alloc)?))?,
        ViewPart::EndOfElement => kept.push(DocPart::End)?,
        ViewPart::Boundary { .. } | ViewPart::EndOfBoundary => {}
    }
    Ok(())
}
