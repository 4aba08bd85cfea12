//! Printed and filled forests.

use crate::{Cut, Flags, HForest, HNode, fill, push_printed};
use fizz_text::{Attributes, OutOfMemory, Text};
use sqlite_items::Items;
use std::alloc::Global;
use std::process::Abort;
use std::test::Fail;

fn three(
    alloc: Global,
    first: HNode,
    second: HNode,
    third: HNode,
) -> Result<Items<HNode>, OutOfMemory> {
    let mut nodes = Items::new(alloc);
    nodes.push(first)?;
    nodes.push(second)?;
    nodes.push(third)?;
    Ok(nodes)
}

fn text(words: &'static str) -> HNode {
    HNode::Text(Text::fixed(words))
}

/// `<p>`, `a`, the node, `b`, `</p>`
fn paragraph(alloc: Global, node: HNode) -> Result<HForest, OutOfMemory> {
    let mut nodes = Items::new(alloc);
    nodes.push(HNode::Element {
        name: Text::fixed("p"),
        attributes: Attributes::new(alloc),
        kids: three(alloc, text("a"), node, text("b"))?,
    })?;
    Ok(HForest { nodes })
}

static ALONE: Flags = Flags {
    lead: false,
    embedded: false,
};

#[test]
fn a_hole_between_texts_prints(rt: HostRuntime) -> Result<(), Fail> {
    let alloc = rt.alloc();
    let mut out = Vec::new(alloc);
    out.push(b'!')?;
    let forest = paragraph(alloc, HNode::Hole(7))?;
    let cuts = push_printed(alloc, &mut out, &forest, ALONE)?;
    assert_eq!(&rt; out.as_slice(), b"!<p>ab</p>".as_slice());
    let wanted = Cut {
        at: 4,
        number: 7,
        lead: true,
    };
    assert!(&rt; cuts.len() == 1);
    assert!(&rt; cuts.get(0).is_some_and(|cut| *cut == wanted));
    Ok(())
}

#[test]
fn a_filled_hole_prints(rt: HostRuntime) -> Result<(), Fail> {
    let alloc = rt.alloc();
    let mut part = Items::new(alloc);
    part.push(text("x"))?;
    let mut parts = Items::new(alloc);
    parts.push(HForest { nodes: part })?;
    let filled = fill(alloc, paragraph(alloc, HNode::Hole(0))?, parts)?;
    let mut out = Vec::new(alloc);
    let cuts = push_printed(alloc, &mut out, &filled, ALONE)?;
    assert!(&rt; cuts.is_empty());
    let wanted = "<p>a<!-- -->x<!-- -->b</p>";
    assert_eq!(&rt; out.as_slice(), wanted.as_bytes());
    Ok(())
}

#[test]
fn a_forest_in_another_ends_apart(rt: HostRuntime) -> Result<(), Fail> {
    let alloc = rt.alloc();
    let forest = HForest {
        nodes: three(alloc, HNode::Boundary(2), text("x"), text("y"))?,
    };
    let flags = Flags {
        lead: true,
        embedded: true,
    };
    let mut out = Vec::new(alloc);
    let cuts = push_printed(alloc, &mut out, &forest, flags)?;
    assert_eq!(&rt; out.as_slice(), b"x<!-- -->y<!-- -->".as_slice());
    let wanted = Cut {
        at: 0,
        number: 2,
        lead: true,
    };
    assert!(&rt; cuts.get(0).is_some_and(|cut| *cut == wanted));
    Ok(())
}
