use crate::viewing::view_of;
use crate::{BoundaryStatus, SettledRefused, View, ViewPart};
use dom_forest::{Dom, DomNode, Mark, NewNode, NodeId, print_doc};
use fizz_text::{Attr, Attributes, Text};
use std::alloc::Global;
use std::process::Abort;
use std::test::Fail;

/// How a document is built, one step after another.
enum Step {
    Open(&'static str),
    /// A hidden element, as `<div hidden id="S:0">`: its name and its id.
    Hidden(&'static str, &'static str),
    /// An element with the attribute `data-dgst`: its name and the digest.
    Digest(&'static str, &'static str),
    Close,
    Words(&'static str),
    Complete,
    Pending,
    Client,
    End,
    Space,
}

fn with(
    attributes: &mut Attributes,
    name: &'static str,
    value: Option<&'static str>,
) -> Result<(), Fail> {
    let value = match value {
        Some(value) => Some(Text::fixed(value)),
        None => None,
    };
    attributes.push(Attr {
        name: Text::fixed(name),
        value,
    })?;
    Ok(())
}

fn node_of(alloc: Global, step: &Step) -> Result<NewNode, Fail> {
    let mut attributes = Attributes::new(alloc);
    match step {
        Step::Hidden(_, id) => {
            with(&mut attributes, "hidden", None)?;
            with(&mut attributes, "id", Some(id))?;
        }
        Step::Digest(_, digest) => with(&mut attributes, "data-dgst", Some(digest))?,
        _ => {}
    }
    match step {
        Step::Open(name) | Step::Hidden(name, _) | Step::Digest(name, _) => Ok(NewNode::Element {
            name: Text::fixed(name),
            attributes,
        }),
        Step::Words(words) => Ok(NewNode::Text(Text::fixed(words))),
        Step::Complete => Ok(NewNode::Comment(Mark::Complete)),
        Step::Pending => Ok(NewNode::Comment(Mark::Pending)),
        Step::Client => Ok(NewNode::Comment(Mark::Client)),
        Step::End => Ok(NewNode::Comment(Mark::End)),
        Step::Space | Step::Close => Ok(NewNode::Comment(Mark::Space)),
    }
}

/// Appends under an element, and fails where there is none.
fn add(dom: &mut Dom, parent: Option<NodeId>, node: NewNode) -> Result<NodeId, Fail> {
    match parent {
        Some(parent) => match dom.look(parent) {
            Some(DomNode::Element { .. }) => Ok(dom.append(Some(parent), node)?),
            _ => Err(Fail::from("no element")),
        },
        None => Ok(dom.append(None, node)?),
    }
}

fn build(alloc: Global, steps: &[Step]) -> Result<Dom, Fail> {
    let mut dom = Dom::new(alloc);
    let mut open: Vec<NodeId> = Vec::new(alloc);
    for step in steps {
        match step {
            Step::Close => {
                open.pop();
            }
            _ => {
                let node = node_of(alloc, step)?;
                let parent = open.last().copied();
                let is_element = matches!(node, NewNode::Element { .. });
                let node = add(&mut dom, parent, node)?;
                if is_element {
                    open.push(node)?;
                }
            }
        }
    }
    Ok(dom)
}

/// The parts in one line: elements by their name with what they hold in parentheses, texts after `'`, and boundaries as
/// `$`, `?` or `!`, the digest, and what they hold in brackets.
pub(super) fn push_parts(out: &mut Vec<u8>, parts: &[ViewPart]) -> Result<(), Fail> {
    for part in parts {
        push_part(out, part)?;
    }
    Ok(())
}

fn push_part(out: &mut Vec<u8>, part: &ViewPart) -> Result<(), Fail> {
    match part {
        ViewPart::Element { name, .. } => {
            separate(out)?;
            out.extend_from_slice(name.as_bytes())?;
            out.push(b'(')?;
        }
        ViewPart::Text(text) => {
            separate(out)?;
            out.push(b'\'')?;
            out.extend_from_slice(text.as_bytes())?;
        }
        ViewPart::Boundary { kind, digest } => {
            separate(out)?;
            out.push(sign_of(*kind))?;
            out.extend_from_slice(digest.as_bytes())?;
            out.push(b'[')?;
        }
        ViewPart::EndOfElement => out.push(b')')?,
        ViewPart::EndOfBoundary => out.push(b']')?,
    }
    Ok(())
}

/// A space after a sibling.
fn separate(out: &mut Vec<u8>) -> Result<(), Fail> {
    match out.last() {
        None | Some(b'(' | b'[') => {}
        Some(_) => out.push(b' ')?,
    }
    Ok(())
}

fn sign_of(kind: BoundaryStatus) -> u8 {
    match kind {
        BoundaryStatus::Complete => b'$',
        BoundaryStatus::Pending => b'?',
        BoundaryStatus::Client => b'!',
    }
}

use Step::{Client, Close, Complete, Digest, End, Hidden, Open, Pending, Space, Words};

/// Each prefix and document with its view.
static VIEWS: [(&str, &[Step], &str); 31] = [
    ("", &[], ""),
    (
        "",
        &[
            Open("p"),
            Words("x"),
            Pending,
            Open("template"),
            Close,
            Open("i"),
            Words("wait"),
            Close,
            End,
            Words("y"),
            Close,
        ],
        "p('x ?[i('wait)] 'y)",
    ),
    (
        "",
        &[
            Complete,
            Open("div"),
            Pending,
            Open("template"),
            Close,
            Words("f"),
            End,
            Close,
            Complete,
            Words("a"),
            End,
            End,
            Words("z"),
        ],
        "$[div(?['f]) $['a]] 'z",
    ),
    // an end with no opening
    ("", &[Words("a"), End, Words("b")], "'a 'b"),
    (
        "",
        &[Complete, Words("a"), End, End, Words("b")],
        "$['a] 'b",
    ),
    (
        "",
        &[
            Complete,
            Open("p"),
            End,
            Words("a"),
            Close,
            Words("b"),
            End,
            Words("c"),
        ],
        "$[p('a) 'b] 'c",
    ),
    // an opening with no end
    (
        "",
        &[Open("p"), Complete, Words("a"), Close, Words("b")],
        "p($['a]) 'b",
    ),
    ("", &[Complete, Client, Words("a")], "$[!['a]]"),
    (
        "",
        &[Complete, Pending, Words("a"), End, Words("b")],
        "$[?['a] 'b]",
    ),
    ("", &[Client], "![]"),
    // the digest
    (
        "",
        &[Client, Digest("template", "d1"), Close, Words("f"), End],
        "!d1['f]",
    ),
    (
        "",
        &[Client, Words("x"), Digest("template", "d1"), Close, End],
        "!['x]",
    ),
    (
        "",
        &[Client, Space, Digest("template", "d1"), Close, End],
        "![]",
    ),
    (
        "",
        &[Client, Open("template"), Close, Words("f"), End],
        "!['f]",
    ),
    ("", &[Client, Words("f"), End], "!['f]"),
    ("", &[Client, Digest("b", "d1"), Close, End], "![b()]"),
    (
        "",
        &[Pending, Digest("template", "d1"), Close, Words("f"), End],
        "?['f]",
    ),
    (
        "",
        &[Client, Client, Digest("template", "d2"), Close, End, End],
        "![!d2[]]",
    ),
    // a space keeps two texts apart
    ("", &[Words("a"), Space, Words("b")], "'a 'b"),
    ("", &[Words("a"), Words("b")], "'a 'b"),
    // hidden containers
    (
        "",
        &[Hidden("div", "S:0"), Words("s"), Close, Words("t")],
        "'t",
    ),
    (
        "",
        &[Open("div"), Hidden("div", "S:0"), Words("s"), Close, Close],
        "div(div('s))",
    ),
    (
        "",
        &[Complete, Hidden("div", "S:0"), Words("s"), Close, End],
        "$[]",
    ),
    ("", &[Hidden("p", "S:0"), Words("s"), Close], "p('s)"),
    ("", &[Hidden("div", "P:0"), Words("s"), Close], "div('s)"),
    ("", &[Hidden("div", "a-S:0"), Words("s"), Close], "div('s)"),
    ("a-", &[Hidden("div", "a-S:0"), Words("s"), Close], ""),
    ("a-", &[Hidden("div", "S:0"), Words("s"), Close], "div('s)"),
    // templates
    ("", &[Open("template"), Words("t"), Close, Words("u")], "'u"),
    (
        "",
        &[
            Open("p"),
            Open("template"),
            Complete,
            Words("t"),
            Close,
            Words("u"),
            Close,
        ],
        "p('u)",
    ),
    (
        "",
        &[
            Hidden("div", "S:0"),
            Complete,
            Close,
            Open("b"),
            Words("x"),
            Close,
            Pending,
        ],
        "b('x) ?[]",
    ),
];

#[test]
fn documents_are_seen(rt: HostRuntime) -> Result<(), Fail> {
    check_views(&rt, rt.alloc(), &VIEWS)
}

fn check_views(
    rt: &impl Abort,
    alloc: Global,
    cases: &[(&'static str, &[Step], &str)],
) -> Result<(), Fail> {
    for (prefix, steps, outline) in cases {
        let view = view_of(alloc, &build(alloc, steps)?, &Text::fixed(prefix))?;
        let mut out = Vec::new(alloc);
        push_parts(&mut out, view.parts.as_slice())?;
        assert_eq!(rt; out.as_slice(), outline.as_bytes());
    }
    Ok(())
}

/// Each document with its boundaries, those that failed and those that are pending, and its settled document as it is
/// printed.
static SETTLED: [(&[Step], u64, u64, u64, &str); 8] = [
    (&[], 0, 0, 0, ""),
    (
        &[Open("p"), Words("a"), Space, Words("b"), Close],
        0,
        0,
        0,
        "<p>a<!-- -->b</p>",
    ),
    (
        &[
            Words("a"),
            Complete,
            Words("b"),
            Open("i"),
            Words("c"),
            Close,
            End,
            Words("d"),
        ],
        1,
        0,
        0,
        "a<!-- -->b<i>c</i>d",
    ),
    (
        &[
            Open("p"),
            Client,
            Digest("template", "d1"),
            Close,
            Words("f"),
            Complete,
            Words("g"),
            End,
            End,
            Close,
        ],
        2,
        1,
        0,
        "<p>f<!-- -->g</p>",
    ),
    (
        &[Digest("b", "x"), Close, Client, Complete],
        2,
        1,
        0,
        "<b data-dgst=\"x\"></b>",
    ),
    (&[Pending, Words("f"), End], 1, 0, 1, ""),
    (
        &[
            Complete,
            Open("p"),
            Pending,
            Open("b"),
            Pending,
            Close,
            End,
            Close,
            Client,
            Pending,
            End,
            End,
            End,
        ],
        5,
        1,
        3,
        "",
    ),
    (
        &[Open("template"), Pending, End, Close, Complete, End],
        1,
        0,
        0,
        "",
    ),
];

#[test]
fn documents_settle(rt: HostRuntime) -> Result<(), Fail> {
    check_settled(&rt, rt.alloc(), &SETTLED)
}

fn check_settled(
    rt: &impl Abort,
    alloc: Global,
    cases: &[(&[Step], u64, u64, u64, &str)],
) -> Result<(), Fail> {
    for (steps, boundaries, failed, pending, printed) in cases {
        let view = view_of(alloc, &build(alloc, steps)?, &Text::fixed(""))?;
        let counts = view.counts();
        assert_eq!(rt; counts.boundaries, *boundaries);
        assert_eq!(rt; counts.failed, *failed);
        assert_eq!(rt; counts.pending, *pending);
        check_document(rt, alloc, &view, *pending, printed)?;
    }
    Ok(())
}

fn check_document(
    rt: &impl Abort,
    alloc: Global,
    view: &View,
    pending: u64,
    printed: &str,
) -> Result<(), Fail> {
    match view.settled(alloc) {
        Ok(doc) => {
            assert_eq!(rt; pending, 0);
            assert_eq!(rt; print_doc(alloc, &doc)?.as_slice(), printed.as_bytes());
        }
        Err(SettledRefused::StillPending { count }) => {
            assert_eq!(rt; count, pending);
            assert!(rt; pending != 0);
        }
        Err(SettledRefused::OutOfMemory) => return Err(Fail::from("no memory")),
    }
    Ok(())
}
