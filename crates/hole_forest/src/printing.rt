//! The printing of forests.

ghost use Rattle.std.specs.Prelude.{◌≡◌, ◌++◌, ◌&&◌, map, OnOk, OnErr, IfOk};
ghost use Rattle.hole_forest.specs.Printing.{cut_of, cut_sheet, element_sheet, forest_printed, is_empty, node_sheet, nodes_sheet, text_sheet};
ghost use Rattle.hole_forest.specs.Prints.{Prints, printed_in};

use crate::forest::{Cut, Flags, HForest, HNode};
use crate::sheet::Sheet;
use fizz_text::{Attributes, OutOfMemory, Text};
use html_print::{
    is_void_name, push_end_tag, push_separator, push_start_tag, push_text, push_void_tag,
};
use sqlite_items::Items;
use std::alloc::Global;

/// Appends what is printed of a forest, and tells where each hole and each boundary stands in it, in document order. A
/// text that follows a text is kept apart by `<!-- -->`, and so is one at the end of a forest that stands in another.
pub fn push_printed(
    alloc: Global,
    out: &mut Vec<u8>,
    forest: &HForest,
    flags: Flags,
) -> Result<Items<Cut>, OutOfMemory>
    ensures printed { OnOk result (out.new.items
        ≡ out.old.items ++ (forest_printed flags forest.now.nodes).out) }
    ensures cuts { IfOk result (λ cuts. map cut_of cuts
        ≡ (forest_printed flags forest.now.nodes).cuts) }
    ensures memory { OnErr result (out.new.items ≡ out.old.items) }
{
    let sheet = forest_sheet(alloc, forest, flags)?;
    out.reserve(sheet.out.len())?;
    let mut printed = sheet.out;
    out.append(&mut printed).unwrap();
    Ok(sheet.cuts)
}

/// What is printed of a forest.
fn forest_sheet(alloc: Global, forest: &HForest, flags: Flags) -> Result<Sheet, OutOfMemory>
    ensures { IfOk result (λ sheet. printed_in sheet ≡ forest_printed flags forest.now.nodes) }
{
    let mut sheet = Sheet {
        out: Vec::new(alloc),
        cuts: Items::new(alloc),
        after_text: flags.lead,
    };
    print_nodes(&mut sheet, forest.nodes.as_slice())?;
    let ends_in_text = needs_separator(flags, sheet.after_text);
    push_separator(&mut sheet.out, ends_in_text)?;
    Ok(sheet)
}

/// Whether a text at the end is kept apart from what follows the forest.
fn needs_separator(flags: Flags, after_text: bool) -> bool
    ensures { result ≡ (flags.embedded && after_text) }
{
    flags.embedded && after_text
}

/// Prints a node. The recursion goes down the nodes.
#[cycle(print)]
fn print_node(sheet: &mut Sheet, node: &HNode) -> Result<(), OutOfMemory>
    ensures { OnOk result (Prints (node_sheet node.now) sheet.old sheet.new) }
{
    match node {
        HNode::Element {
            name,
            attributes,
            kids,
        } => print_element(sheet, name, attributes, kids.as_slice()),
        HNode::Text(text) => print_text(sheet, text),
        HNode::Hole(number) => push_cut(sheet, *number),
        HNode::Boundary(number) => push_cut(sheet, *number),
    }
}

/// Prints nodes beside each other.
#[cycle(print)]
fn print_nodes(sheet: &mut Sheet, nodes: &[HNode]) -> Result<(), OutOfMemory>
    ensures { OnOk result (Prints (nodes_sheet nodes.now) sheet.old sheet.new) }
{
    for node in nodes {
        print_node(sheet, node)?;
    }
    Ok(())
}

/// Prints an element with what is in it.
#[cycle(print)]
fn print_element(
    sheet: &mut Sheet,
    name: &Text,
    attributes: &Attributes,
    kids: &[HNode],
) -> Result<(), OutOfMemory>
    ensures { OnOk result (Prints (λ after_text. element_sheet name.now attributes.now (is_empty kids.now)
        (nodes_sheet kids.now)) sheet.old sheet.new) }
{
    if is_void_name(name) && kids.is_empty() {
        push_void_tag(&mut sheet.out, name, attributes.as_slice())?;
        sheet.after_text = false;
        return Ok(());
    }
    push_start_tag(&mut sheet.out, name, attributes.as_slice())?;
    sheet.after_text = false;
    print_nodes(sheet, kids)?;
    push_end_tag(&mut sheet.out, name)?;
    sheet.after_text = false;
    Ok(())
}

fn print_text(sheet: &mut Sheet, text: &Text) -> Result<(), OutOfMemory>
    ensures { OnOk result (Prints (text_sheet text.now) sheet.old sheet.new) }
{
    push_text(&mut sheet.out, sheet.after_text, text)?;
    sheet.after_text = true;
    Ok(())
}

/// Cuts out a hole or a boundary. What fills it is kept apart by itself, so that no text counts as printed last after it.
fn push_cut(sheet: &mut Sheet, number: u32) -> Result<(), OutOfMemory>
    ensures { OnOk result (Prints (cut_sheet number) sheet.old sheet.new) }
{
    sheet.cuts.push(Cut {
        at: sheet.out.len(),
        number,
        lead: sheet.after_text,
    })?;
    sheet.after_text = false;
    Ok(())
}
