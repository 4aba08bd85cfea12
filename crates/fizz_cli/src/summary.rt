//! The line that says what a page shows.

ghost use Rattle.std.specs.Prelude.{◌≡◌, ◌≤◌, length, IfOk};
ghost use Rattle.document_machine.specs.Shown.{view_of_parts};
ghost use Rattle.fizz_cli.specs.Generating.{IsSummary, line_of, texts_in};
ghost use Rattle.fizz_cli.specs.Summaries.{text_count, text_parts};

use crate::steps::{run_page, settled_doc};
use document_machine::{Counts, View, ViewPart};
use dom_forest::print_doc;
use fizz_text::{OutOfMemory, Text};
use std::alloc::Global;

/// The line on a whole page. What is rendered is a page with a settled document, so nothing else is answered than where
/// memory runs out; that it always is one is seen by tests, and not proved.
pub(crate) fn summary_of(alloc: Global, page: &[u8]) -> Result<Vec<u8>, OutOfMemory>
    ensures { IfOk result (λ line. IsSummary page.now line.items) }
{
    let Ok(view) = run_page(alloc, &Text::fixed(""), page) else {
        return Err(OutOfMemory);
    };
    let Ok(doc) = settled_doc(alloc, &view) else {
        return Err(OutOfMemory);
    };
    let printed = print_doc(alloc, &doc)?;
    line_of(alloc, view.counts(), texts_in(&view), printed.len())
}

fn line_of(
    alloc: Global,
    counts: Counts,
    texts: usize,
    bytes: usize,
) -> Result<Vec<u8>, OutOfMemory>
    ensures { IfOk result (λ line.
        line.items ≡ line_of counts.boundaries counts.failed texts bytes) }
{
    let boundaries = counts.boundaries;
    let failed = counts.failed;
    let line = format!(in alloc;
        "boundaries {boundaries} failed {failed} texts {texts} document {bytes}\n"
    )?;
    Ok(line.into_bytes())
}

/// How many texts are seen.
fn texts_in(view: &View) -> usize
    ensures { result ≡ texts_in (view_of_parts view.now.parts) }
{
    text_parts(view.parts.as_slice())
}

/// How many texts are among parts.
fn text_parts(parts: &[ViewPart]) -> usize
    ensures { result ≡ text_parts parts.now }
{
    let mut texts = 0;
    for part in parts {
        texts += text_count(part);
    }
    texts
}

fn text_count(part: &ViewPart) -> usize
    ensures is { result ≡ text_count part.now }
    ensures one { result ≤ 1 }
{
    match part {
        ViewPart::Text(_) => 1,
        _ => 0,
    }
}
