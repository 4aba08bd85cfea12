use super::{EditFault, act, complete, fill};
use crate::building::OpenElement;
use dom_forest::{Dom, DomNode, Mark, NewNode, NodeId};
use fizz_instructions::Instruction;
use fizz_text::{Attr, Attributes, OutOfMemory, Text};
use std::alloc::Global;
use std::process::Abort;
use std::test::Fail;

/// A node of a document, under the last one that is less deep.
#[derive(Clone, Copy)]
enum Piece {
    Tag(usize, &'static str),
    Named(usize, &'static str, &'static str),
    Words(usize, &'static str),
    Says(usize, Mark),
}

#[derive(Clone, Copy)]
enum Call {
    Rc(u32, u32),
    Rs(u32),
    Rx(u32, &'static str),
}

use Call::{Rc, Rs, Rx};
use Piece::{Named, Says, Tag, Words};

fn id_attribute(value: &'static str) -> Attr {
    Attr {
        name: Text::fixed("id"),
        value: Some(Text::fixed(value)),
    }
}

fn named(
    alloc: Global,
    name: &'static str,
    id: Option<&'static str>,
) -> Result<NewNode, OutOfMemory> {
    let mut attributes = Attributes::new(alloc);
    if let Some(id) = id {
        attributes.push(id_attribute(id))?;
    }
    Ok(NewNode::Element {
        name: Text::fixed(name),
        attributes,
    })
}

fn node_of(alloc: Global, piece: Piece) -> Result<(usize, NewNode), OutOfMemory> {
    match piece {
        Tag(depth, name) => Ok((depth, named(alloc, name, None)?)),
        Named(depth, name, id) => Ok((depth, named(alloc, name, Some(id))?)),
        Words(depth, words) => Ok((depth, NewNode::Text(Text::fixed(words)))),
        Says(depth, mark) => Ok((depth, NewNode::Comment(mark))),
    }
}

/// Appends under an element, and fails where there is none.
fn add(dom: &mut Dom, parent: Option<NodeId>, node: NewNode) -> Result<NodeId, Fail> {
    match parent {
        Some(parent) => match dom.look(parent) {
            Some(DomNode::Element { .. }) => Ok(dom.append(Some(parent), node)?),
            _ => Err(Fail::from("no element")),
        },
        None => Ok(dom.append(None, node)?),
    }
}

fn build(alloc: Global, pieces: &[Piece]) -> Result<Dom, Fail> {
    let mut dom = Dom::new(alloc);
    let mut above: Vec<NodeId> = Vec::new(alloc);
    for piece in pieces {
        let (depth, node) = node_of(alloc, *piece)?;
        above.truncate(depth);
        let id = add(&mut dom, above.last().copied(), node)?;
        above.push(id)?;
    }
    Ok(dom)
}

/// The nodes in one line: siblings with a space between them, the values of attributes and then children in brackets.
fn outline(alloc: Global, dom: &Dom) -> Result<Vec<u8>, Fail> {
    let mut out = Vec::new(alloc);
    push_siblings(&mut out, dom, dom.first(None), 4)?;
    Ok(out)
}

fn push_siblings(
    out: &mut Vec<u8>,
    dom: &Dom,
    first: Option<NodeId>,
    levels: u8,
) -> Result<(), Fail> {
    let mut next = first;
    for place in 0..50 {
        let Some(node) = next else { break };
        if place != 0 {
            out.push(b' ')?;
        }
        push_label(out, dom.look(node))?;
        if let Some(kid) = dom.first(Some(node))
            && levels != 0
        {
            out.push(b'(')?;
            push_siblings(out, dom, Some(kid), levels - 1)?;
            out.push(b')')?;
        }
        next = dom.next(node);
    }
    Ok(())
}

fn push_label(out: &mut Vec<u8>, node: Option<DomNode<'_>>) -> Result<(), Fail> {
    match node {
        Some(DomNode::Element { name, attributes }) => {
            out.extend_from_slice(name.as_bytes())?;
            push_values(out, attributes)
        }
        Some(DomNode::Text(text)) => Ok(out.extend_from_slice(text.as_bytes())?),
        Some(DomNode::Comment(mark)) => Ok(out.extend_from_slice(mark_label(mark))?),
        None => Err(Fail::from("no node")),
    }
}

fn push_values(out: &mut Vec<u8>, attributes: &[Attr]) -> Result<(), Fail> {
    for attribute in attributes {
        if let Some(value) = &attribute.value {
            out.push(b'[')?;
            out.extend_from_slice(value.as_bytes())?;
            out.push(b']')?;
        }
    }
    Ok(())
}

fn mark_label(mark: Mark) -> &'static [u8] {
    match mark {
        Mark::Complete => b"$",
        Mark::Pending => b"$?",
        Mark::Client => b"$!",
        Mark::End => b"/$",
        Mark::Space => b"_",
    }
}

fn instruction_of(call: Call) -> Instruction {
    match call {
        Rc(boundary, segment) => Instruction::Complete { boundary, segment },
        Rs(segment) => Instruction::Segment { segment },
        Rx(boundary, digest) => Instruction::ClientRender {
            boundary,
            digest: Text::fixed(digest),
        },
    }
}

/// The outline after an instruction, or what the instruction misses.
fn seen(alloc: Global, dom: &Dom, edited: Result<(), EditFault>) -> Result<Vec<u8>, Fail> {
    match edited {
        Ok(()) => outline(alloc, dom),
        Err(EditFault::NoSuchId { id }) => {
            let mut out = Vec::from_slice(alloc, b"no id ")?;
            out.extend_from_slice(id.as_bytes())?;
            Ok(out)
        }
        Err(EditFault::NotBoundary) => Ok(Vec::from_slice(alloc, b"no boundary")?),
        Err(EditFault::OutOfMemory) => Err(Fail::from("no memory")),
    }
}

/// What an instruction makes of a document in which no element is open.
fn run(alloc: Global, prefix: &'static str, pieces: &[Piece], call: Call) -> Result<Vec<u8>, Fail> {
    let mut dom = build(alloc, pieces)?;
    let _root = dom.look(NodeId(0));
    let opened: [OpenElement; 0] = [];
    let prefix = Text::fixed(prefix);
    let edited = act(alloc, &mut dom, &prefix, &opened, &instruction_of(call));
    seen(alloc, &dom, edited)
}

/// A document, an instruction, and what that makes of it.
static EDITS: [(&[Piece], Call, &str); 13] = [
    (
        &[
            Tag(0, "main"),
            Words(1, "a"),
            Says(1, Mark::Pending),
            Named(1, "template", "B:0"),
            Tag(1, "p"),
            Words(2, "wait"),
            Says(1, Mark::Client),
            Tag(1, "template"),
            Says(1, Mark::End),
            Says(1, Mark::End),
            Words(1, "z"),
            Named(0, "div", "S:1f"),
            Tag(1, "b"),
            Words(2, "done"),
            Says(1, Mark::Pending),
            Named(1, "template", "B:1"),
            Says(1, Mark::End),
            Words(0, "end"),
        ],
        Rc(0, 31),
        "main(a $ b(done) $? template[B:1] /$ /$ z) end",
    ),
    (
        &[
            Says(0, Mark::Client),
            Named(0, "template", "B:0"),
            Says(0, Mark::End),
            Named(0, "div", "S:0"),
        ],
        Rc(0, 0),
        "$ /$",
    ),
    (
        &[Tag(0, "main"), Named(0, "div", "S:0"), Words(1, "x")],
        Rc(0, 0),
        "main",
    ),
    (
        &[
            Named(0, "div", "S:0"),
            Says(1, Mark::Pending),
            Named(1, "template", "B:0"),
            Says(1, Mark::End),
            Words(0, "x"),
        ],
        Rc(0, 0),
        "x",
    ),
    (
        &[
            Says(0, Mark::Pending),
            Named(0, "template", "B:0"),
            Says(0, Mark::End),
        ],
        Rc(0, 0),
        "no id S:0",
    ),
    (
        &[
            Says(0, Mark::Pending),
            Named(0, "template", "B:0"),
            Says(0, Mark::Complete),
            Says(0, Mark::End),
            Named(0, "div", "S:0"),
        ],
        Rc(0, 0),
        "no boundary",
    ),
    (
        &[
            Says(0, Mark::Complete),
            Named(0, "template", "B:0"),
            Says(0, Mark::End),
            Named(0, "div", "S:0"),
        ],
        Rc(0, 0),
        "no boundary",
    ),
    (
        &[
            Tag(0, "main"),
            Words(1, "a"),
            Named(1, "template", "P:3"),
            Words(1, "b"),
            Named(0, "div", "S:3"),
            Words(1, "x"),
            Tag(1, "i"),
            Words(2, "y"),
        ],
        Rs(3),
        "main(a x i(y) b)",
    ),
    (
        &[
            Named(0, "div", "S:3"),
            Named(1, "template", "P:3"),
            Words(0, "x"),
        ],
        Rs(3),
        "no id P:3",
    ),
    (&[Named(0, "template", "P:3")], Rs(3), "no id S:3"),
    (
        &[
            Says(0, Mark::Pending),
            Named(0, "template", "B:2"),
            Tag(0, "p"),
            Says(0, Mark::End),
        ],
        Rx(2, "d"),
        "$! template[B:2][d] p /$",
    ),
    (
        &[
            Says(0, Mark::Pending),
            Named(0, "template", "B:2"),
            Says(0, Mark::End),
        ],
        Rx(2, ""),
        "$! template[B:2] /$",
    ),
    (
        &[Words(0, "x"), Named(0, "template", "B:2")],
        Rx(2, "d"),
        "no boundary",
    ),
];

#[test]
fn documents_are_edited(rt: HostRuntime) -> Result<(), Fail> {
    let alloc = rt.alloc();
    for (pieces, call, wanted) in &EDITS {
        let found = run(alloc, "", pieces, *call)?;
        assert_eq!(rt; found.as_slice(), wanted.as_bytes());
    }
    Ok(())
}

#[test]
fn ids_have_the_prefix(rt: HostRuntime) -> Result<(), Fail> {
    let alloc = rt.alloc();
    let pieces = [
        Named(0, "template", "P:0"),
        Named(0, "template", "p-P:0"),
        Named(0, "div", "S:0"),
        Named(0, "div", "p-S:0"),
        Words(1, "x"),
    ];
    let found = run(alloc, "p-", &pieces, Rs(0))?;
    assert_eq!(rt; found.as_slice(), b"template[P:0] x div[S:0]".as_slice());
    let found = run(alloc, "", &pieces, Rx(0, "d"))?;
    assert_eq!(rt;
        found.as_slice(),
        b"template[P:0] template[p-P:0] div[S:0] div[p-S:0](x)".as_slice()
    );
    Ok(())
}

/// The element with an id, as one that is open.
fn open_element(alloc: Global, dom: &Dom, id: &[u8]) -> Result<Vec<OpenElement>, Fail> {
    let mut opened = Vec::new(alloc);
    let Some(node) = dom.find_id(id) else {
        return Err(Fail::from("no node"));
    };
    opened.push(OpenElement {
        id: node,
        name: Text::fixed("div"),
    })?;
    Ok(opened)
}

#[test]
fn open_elements_are_not_there(rt: HostRuntime) -> Result<(), Fail> {
    let alloc = rt.alloc();
    let prefix = Text::fixed("");
    let pieces = [
        Says(0, Mark::Pending),
        Named(0, "template", "B:0"),
        Says(0, Mark::End),
        Named(0, "div", "S:0"),
    ];
    let mut dom = build(alloc, &pieces)?;
    let opened = open_element(alloc, &dom, b"S:0")?;
    let _root = dom.look(NodeId(0));
    let edited = complete(alloc, &mut dom, &prefix, &opened, 0, 0);
    assert_eq!(rt;
        seen(alloc, &dom, edited)?.as_slice(),
        b"no id S:0".as_slice()
    );
    let pieces = [Named(0, "div", "S:0"), Named(0, "p", "P:0")];
    let mut dom = build(alloc, &pieces)?;
    let opened = open_element(alloc, &dom, b"P:0")?;
    let _root = dom.look(NodeId(0));
    let edited = fill(alloc, &mut dom, &prefix, &opened, 0);
    assert_eq!(rt;
        seen(alloc, &dom, edited)?.as_slice(),
        b"no id P:0".as_slice()
    );
    Ok(())
}
