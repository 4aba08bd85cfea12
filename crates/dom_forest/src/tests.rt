use crate::{Doc, DocPart, Dom, DomNode, InsertRefused, Mark, NewNode, NodeId, print_doc};
use fizz_text::{Attr, Attributes, OutOfMemory, Text};
use sqlite_items::Items;
use std::alloc::Global;
use std::process::Abort;
use std::test::Fail;

/// How a document is built, one step after another.
enum Step {
    Open(&'static str),
    With(&'static str, &'static str, &'static str),
    Alone(&'static str, &'static str),
    Close,
    Words(&'static str),
}

fn build(alloc: Global, steps: &[Step]) -> Result<Doc, OutOfMemory> {
    let mut parts = Items::new(alloc);
    for step in steps {
        parts.push(part_of(alloc, step)?)?;
    }
    Ok(Doc { parts })
}

fn part_of(alloc: Global, step: &Step) -> Result<DocPart, OutOfMemory> {
    match step {
        Step::Open(name) => begun(name, Attributes::new(alloc)),
        Step::With(tag, name, value) => {
            let mut attributes = Attributes::new(alloc);
            attributes.push(Attr {
                name: Text::fixed(name),
                value: Some(Text::fixed(value)),
            })?;
            begun(tag, attributes)
        }
        Step::Alone(tag, name) => {
            let mut attributes = Attributes::new(alloc);
            attributes.push(Attr {
                name: Text::fixed(name),
                value: None,
            })?;
            begun(tag, attributes)
        }
        Step::Close => Ok(DocPart::End),
        Step::Words(words) => Ok(DocPart::Text(Text::fixed(words))),
    }
}

fn begun(name: &'static str, attributes: Attributes) -> Result<DocPart, OutOfMemory> {
    Ok(DocPart::Element {
        name: Text::fixed(name),
        attributes,
    })
}

use Step::{Alone, Close, Open, With, Words};

/// Each document with its bytes.
static PRINTED: [(&[Step], &str); 22] = [
    (&[], ""),
    (&[Words("a")], "a"),
    (&[Words("a"), Words("b")], "a<!-- -->b"),
    (&[Words("a"), Words("b"), Words("c")], "a<!-- -->b<!-- -->c"),
    (&[Words(""), Words("b")], "<!-- -->b"),
    (&[Open("p"), Close], "<p></p>"),
    (&[Open("p"), Words("a"), Close], "<p>a</p>"),
    (
        &[Open("p"), Words("a"), Words("b"), Close],
        "<p>a<!-- -->b</p>",
    ),
    (
        &[Open("p"), Words("a"), Close, Open("p"), Words("b"), Close],
        "<p>a</p><p>b</p>",
    ),
    (&[Words("a"), Open("p"), Close, Words("b")], "a<p></p>b"),
    (&[Open("p"), Words("a"), Close, Words("b")], "<p>a</p>b"),
    (&[Words("a"), Open("p"), Words("b"), Close], "a<p>b</p>"),
    (&[Words("a"), Open("br"), Close, Words("b")], "a<br/>b"),
    (&[Open("br"), Words("x"), Close, Words("y")], "<br/>y"),
    (&[With("hr", "class", "x"), Close], "<hr class=\"x\"/>"),
    (
        &[
            Open("div"),
            Open("div"),
            Open("b"),
            Words("t"),
            Close,
            Close,
            Words("u"),
            Close,
        ],
        "<div><div><b>t</b></div>u</div>",
    ),
    (&[With("p", "class", "x"), Close], "<p class=\"x\"></p>"),
    (
        &[Alone("div", "hidden"), With("b", "title", ""), Close, Close],
        "<div hidden><b title=\"\"></b></div>",
    ),
    (&[Words("\"&'<>")], "&quot;&amp;&#x27;&lt;&gt;"),
    (
        &[With("p", "title", "a\"<b"), Close],
        "<p title=\"a&quot;&lt;b\"></p>",
    ),
    (
        &[With("template", "id", "B:0"), Close],
        "<template id=\"B:0\"></template>",
    ),
    (&[Words("Grüße")], "Grüße"),
];

#[test]
fn documents_print(rt: HostRuntime) -> Result<(), Fail> {
    check_printed(&rt, rt.alloc(), &PRINTED)
}

fn check_printed(rt: &impl Abort, alloc: Global, cases: &[(&[Step], &str)]) -> Result<(), Fail> {
    for (steps, bytes) in cases {
        let printed = print_doc(alloc, &build(alloc, steps)?)?;
        assert_eq!(rt; printed.as_slice(), bytes.as_bytes());
    }
    Ok(())
}

fn element_node(
    alloc: Global,
    name: &'static str,
    id: Option<&'static str>,
) -> Result<NewNode, OutOfMemory> {
    let mut attributes = Attributes::new(alloc);
    if let Some(id) = id {
        let name = Text::fixed("id");
        attributes.push(Attr {
            name,
            value: Some(Text::fixed(id)),
        })?;
    }
    Ok(NewNode::Element {
        name: Text::fixed(name),
        attributes,
    })
}

/// Appends under an element, and fails where there is none.
fn add(dom: &mut Dom, parent: Option<NodeId>, node: NewNode) -> Result<NodeId, Fail> {
    match parent {
        Some(parent) => match dom.look(parent) {
            Some(DomNode::Element { .. }) => Ok(dom.append(Some(parent), node)?),
            _ => Err(Fail::from("no element")),
        },
        None => Ok(dom.append(None, node)?),
    }
}

/// A `div` with a boundary of which the content is pending, and a text after it.
#[derive(Drop)]
struct Page {
    dom: Dom,
    root: NodeId,
    words: NodeId,
    mark: NodeId,
    template: NodeId,
    fallback: NodeId,
    end: NodeId,
    last: NodeId,
}

fn make_page(alloc: Global) -> Result<Page, Fail> {
    let mut dom = Dom::new(alloc);
    let root = add(&mut dom, None, element_node(alloc, "div", None)?)?;
    let words = add(&mut dom, Some(root), NewNode::Text(Text::fixed("x")))?;
    let mark = add(&mut dom, Some(root), NewNode::Comment(Mark::Pending))?;
    let template = add(
        &mut dom,
        Some(root),
        element_node(alloc, "template", Some("B:0"))?,
    )?;
    let fallback = add(&mut dom, Some(root), element_node(alloc, "p", None)?)?;
    add(&mut dom, Some(fallback), NewNode::Text(Text::fixed("wait")))?;
    let end = add(&mut dom, Some(root), NewNode::Comment(Mark::End))?;
    let last = add(&mut dom, None, NewNode::Text(Text::fixed("y")))?;
    Ok(Page {
        dom,
        root,
        words,
        mark,
        template,
        fallback,
        end,
        last,
    })
}

/// The nodes in one line: siblings with a space between them, children in brackets.
fn outline(alloc: Global, dom: &Dom) -> Result<Vec<u8>, Fail> {
    let mut out = Vec::new(alloc);
    push_siblings(&mut out, dom, dom.first(None), 4)?;
    Ok(out)
}

fn push_siblings(
    out: &mut Vec<u8>,
    dom: &Dom,
    first: Option<NodeId>,
    levels: u8,
) -> Result<(), Fail> {
    let mut next = first;
    for place in 0..50 {
        let Some(node) = next else { break };
        if place != 0 {
            out.push(b' ')?;
        }
        out.extend_from_slice(label(dom.look(node)))?;
        if let Some(kid) = dom.first(Some(node))
            && levels != 0
        {
            out.push(b'(')?;
            push_siblings(out, dom, Some(kid), levels - 1)?;
            out.push(b')')?;
        }
        next = dom.next(node);
    }
    Ok(())
}

fn label<'a>(node: Option<DomNode<'a>>) -> &'a [u8] {
    match node {
        Some(DomNode::Element { name, .. }) => name.as_bytes(),
        Some(DomNode::Text(text)) => text.as_bytes(),
        Some(DomNode::Comment(Mark::Complete)) => b"$",
        Some(DomNode::Comment(Mark::Pending)) => b"$?",
        Some(DomNode::Comment(Mark::Client)) => b"$!",
        Some(DomNode::Comment(Mark::End)) => b"/$",
        Some(DomNode::Comment(Mark::Space)) => b"_",
        None => b"none",
    }
}

#[test]
fn nodes_and_neighbours_are_found(rt: HostRuntime) -> Result<(), Fail> {
    let alloc = rt.alloc();
    let page = make_page(alloc)?;
    let dom = page.dom;
    assert_eq!(rt;
        outline(alloc, &dom)?.as_slice(),
        b"div(x $? template p(wait) /$) y".as_slice()
    );
    let neighbours = [
        (dom.parent(page.mark), Some(page.root)),
        (dom.parent(page.root), None),
        (dom.previous(page.template), Some(page.mark)),
        (dom.previous(page.end), Some(page.fallback)),
        (dom.previous(page.words), None),
        (dom.previous(page.last), Some(page.root)),
        (dom.next(page.fallback), Some(page.end)),
        (dom.next(page.end), None),
        (dom.next(page.root), Some(page.last)),
        (dom.first(None), Some(page.root)),
        (dom.first(Some(page.root)), Some(page.words)),
        (dom.first(Some(page.template)), None),
        (dom.find_id(b"B:0"), Some(page.template)),
        (dom.find_id(b"B:1"), None),
        (dom.end_of_boundary(page.template), Some(page.end)),
        (dom.end_of_boundary(page.end), None),
        (dom.parent(NodeId(99)), None),
        (dom.next(NodeId(99)), None),
    ];
    for (found, wanted) in neighbours.iter() {
        assert_eq!(rt; *found, *wanted);
    }
    Ok(())
}

#[test]
fn documents_are_copied(rt: HostRuntime) -> Result<(), Fail> {
    let alloc = rt.alloc();
    let page = make_page(alloc)?;
    let copy = page.dom.copy()?;
    assert_eq!(rt;
        outline(alloc, &copy)?.as_slice(),
        b"div(x $? template p(wait) /$) y".as_slice()
    );
    assert_eq!(rt; copy.parent(page.mark), Some(page.root));
    Ok(())
}

#[test]
fn parts_are_taken_out(rt: HostRuntime) -> Result<(), Fail> {
    let alloc = rt.alloc();
    let Page {
        mut dom,
        root,
        words,
        fallback,
        end,
        last,
        ..
    } = make_page(alloc)?;
    // in the middle, first, last, at the top
    let cuts = [
        (fallback, "p(wait)", "div(x $? template /$) y"),
        (words, "x", "div($? template /$) y"),
        (end, "/$", "div($? template) y"),
        (last, "y", "div($? template)"),
        (root, "div($? template)", ""),
    ];
    for (node, part, rest) in cuts.iter() {
        let taken = dom.remove(*node)?.ok_or("no part")?;
        assert_eq!(rt; outline(alloc, &taken)?.as_slice(), part.as_bytes());
        assert_eq!(rt; outline(alloc, &dom)?.as_slice(), rest.as_bytes());
        assert!(rt; dom.remove(*node)?.is_none());
    }
    Ok(())
}

#[test]
fn parts_are_put_in(rt: HostRuntime) -> Result<(), Fail> {
    let alloc = rt.alloc();
    let Page {
        mut dom,
        root,
        words,
        fallback,
        end,
        ..
    } = make_page(alloc)?;
    // first, in the middle, last, at the top
    let places = [
        (words, "div(b(c) x $? template p(wait) /$) y"),
        (fallback, "div(b(c) x $? template b(c) p(wait) /$) y"),
        (end, "div(b(c) x $? template b(c) p(wait) b(c) /$) y"),
        (root, "b(c) div(b(c) x $? template b(c) p(wait) b(c) /$) y"),
    ];
    for (place, whole) in places.iter() {
        insert(&mut dom, *place, small_part(alloc)?)?;
        assert_eq!(rt; outline(alloc, &dom)?.as_slice(), whole.as_bytes());
    }
    Ok(())
}

fn small_part(alloc: Global) -> Result<Dom, Fail> {
    let mut part = Dom::new(alloc);
    let outer = add(&mut part, None, element_node(alloc, "b", None)?)?;
    add(&mut part, Some(outer), NewNode::Text(Text::fixed("c")))?;
    Ok(part)
}

#[test]
fn children_are_left(rt: HostRuntime) -> Result<(), Fail> {
    let alloc = rt.alloc();
    let part = small_part(alloc)?;
    assert!(rt; part.is_one_element(), "one element");
    assert_eq!(rt; outline(alloc, &part.inner()?)?.as_slice(), b"c".as_slice());
    Ok(())
}

fn insert(dom: &mut Dom, place: NodeId, part: Dom) -> Result<(), Fail> {
    match dom.insert_before(place, part) {
        Ok(()) => Ok(()),
        Err(InsertRefused::NoPlace { .. }) => Err(Fail::from("no place")),
        Err(InsertRefused::OutOfMemory { .. }) => Err(Fail::from("no memory")),
    }
}

#[test]
fn refused_parts_come_back(rt: HostRuntime) -> Result<(), Fail> {
    let alloc = rt.alloc();
    let Page { mut dom, root, .. } = make_page(alloc)?;
    let part = dom.remove(root)?.ok_or("no part")?;
    match dom.insert_before(root, part) {
        Err(InsertRefused::NoPlace { part }) => {
            assert_eq!(rt;
                outline(alloc, &part)?.as_slice(),
                b"div(x $? template p(wait) /$)".as_slice()
            );
        }
        Err(InsertRefused::OutOfMemory { part: _part }) => assert!(rt; false, "memory"),
        Ok(()) => assert!(rt; false, "accepted"),
    }
    assert_eq!(rt; outline(alloc, &dom)?.as_slice(), b"y".as_slice());
    Ok(())
}

#[test]
fn the_first_of_equal_ids_is_found(rt: HostRuntime) -> Result<(), Fail> {
    let alloc = rt.alloc();
    let mut dom = Dom::new(alloc);
    let outer = add(&mut dom, None, element_node(alloc, "div", None)?)?;
    let inner = add(&mut dom, Some(outer), element_node(alloc, "p", Some("i"))?)?;
    let later = add(&mut dom, None, element_node(alloc, "p", Some("i"))?)?;
    add(&mut dom, Some(outer), element_node(alloc, "b", Some("i"))?)?;
    assert_eq!(rt; dom.find_id(b"i"), Some(inner));
    dom.remove(outer)?;
    assert_eq!(rt; dom.find_id(b"i"), Some(later));
    Ok(())
}

#[test]
fn inner_boundaries_are_counted(rt: HostRuntime) -> Result<(), Fail> {
    let alloc = rt.alloc();
    let mut dom = Dom::new(alloc);
    let marks = [
        Mark::Pending,
        Mark::Client,
        Mark::End,
        Mark::Space,
        Mark::Complete,
        Mark::End,
        Mark::End,
        Mark::End,
    ];
    let mut ids = Vec::new(alloc);
    for mark in marks.iter() {
        ids.push(add(&mut dom, None, NewNode::Comment(*mark))?)?;
    }
    assert_eq!(rt; ids.len(), 8);
    assert_eq!(rt; dom.end_of_boundary(ids[0]), Some(ids[6]));
    assert_eq!(rt; dom.end_of_boundary(ids[1]), Some(ids[2]));
    assert_eq!(rt; dom.end_of_boundary(ids[6]), Some(ids[7]));
    assert_eq!(rt; dom.end_of_boundary(ids[7]), None);
    Ok(())
}

/// Sets the mark of a comment, and fails where there is none.
fn set_mark(dom: &mut Dom, node: NodeId, mark: Mark) -> Result<(), Fail> {
    match dom.look(node) {
        Some(DomNode::Comment(_)) => Ok(dom.set_mark(node, mark)),
        _ => Err(Fail::from("no comment")),
    }
}

fn set_digest(dom: &mut Dom, node: NodeId, digest: Text) -> Result<(), Fail> {
    match dom.look(node) {
        Some(DomNode::Element { .. }) => Ok(dom.set_digest(node, digest)?),
        _ => Err(Fail::from("no element")),
    }
}

#[test]
fn marks_and_digests_are_set(rt: HostRuntime) -> Result<(), Fail> {
    let alloc = rt.alloc();
    let Page {
        mut dom,
        mark,
        template,
        ..
    } = make_page(alloc)?;
    set_mark(&mut dom, mark, Mark::Client)?;
    assert_eq!(rt;
        outline(alloc, &dom)?.as_slice(),
        b"div(x $! template p(wait) /$) y".as_slice()
    );
    set_digest(&mut dom, template, Text::fixed("d"))?;
    set_digest(&mut dom, template, Text::fixed("e"))?;
    match dom.look(template) {
        Some(DomNode::Element { attributes, .. }) => {
            assert_eq!(rt; attributes.len(), 2);
            assert_eq!(rt; attributes[1].name.as_bytes(), b"data-dgst".as_slice());
            assert_eq!(rt;
                attributes[1].value.as_ref().ok_or("no value")?.as_bytes(),
                b"e".as_slice()
            );
        }
        _ => assert!(rt; false, "element"),
    }
    Ok(())
}
