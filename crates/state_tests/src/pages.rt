//! The final document of a page: by its settled tree, and by the bytes that were sent.

use document_machine::{Machine, View};
use dom_forest::print_doc;
use fizz_text::Text;
use settled_tree::{Forest, final_of, shell_failures};
use std::alloc::Global;
use std::test::Fail;

/// The final document of a forest, as it is printed.
pub(super) fn final_page(alloc: Global, forest: &Forest) -> Result<Vec<u8>, Fail> {
    let failures = shell_failures(alloc, forest)?;
    if failures.is_empty() {
        let doc = final_of(alloc, forest)?;
        return Ok(print_doc(alloc, &doc)?);
    }
    Err(Fail::from("the shell fails"))
}

/// What the machine sees of a whole page of fewer than 65,536 bytes.
pub(super) fn view_of(alloc: Global, page: &[u8]) -> Result<View, Fail> {
    let mut machine = Machine::new(alloc, Text::fixed(""));
    if page.len() >= 65_536 {
        return Err(Fail::from("the page is too long"));
    }
    machine.feed(page)?;
    Ok(machine.finish()?)
}

/// What the machine sees of the beginning of a page, of fewer than 65,536 bytes.
pub(super) fn seen_so_far(alloc: Global, page: &[u8]) -> Result<View, Fail> {
    let mut machine = Machine::new(alloc, Text::fixed(""));
    if page.len() >= 65_536 {
        return Err(Fail::from("the page is too long"));
    }
    machine.feed(page)?;
    Ok(machine.view()?)
}

/// The settled document of a page, as it is printed.
pub(super) fn settled_page(alloc: Global, page: &[u8]) -> Result<Vec<u8>, Fail> {
    let doc = view_of(alloc, page)?.settled(alloc)?;
    Ok(print_doc(alloc, &doc)?)
}
