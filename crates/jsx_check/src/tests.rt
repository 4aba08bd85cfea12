//! Trees that meet the rules, and trees that are refused, each with its fault.

use crate::check;
use fizz_text::Text;
use jsx_syntax::{Component, Entry, Expr, File, Name, Node};
use sqlite_items::Items;
use std::alloc::Global;
use std::test::Fail;

fn name(text: &'static str, at: usize) -> Name {
    Name {
        text: Text::fixed(text),
        at,
    }
}

fn variable(text: &'static str, at: usize) -> Node {
    Node::Value(Expr::Name(name(text, at)))
}

fn number() -> Node {
    Node::Value(Expr::Int(1))
}

/// Attributes of these names and places, each with the value 1.
fn attributes(alloc: Global, names: &[(&'static str, usize)]) -> Result<Items<Entry<Node>>, Fail> {
    let mut entries = Items::new(alloc);
    for (text, at) in names {
        entries.push(Entry {
            name: name(text, *at),
            value: number(),
        })?;
    }
    Ok(entries)
}

/// `<p names/>`
fn paragraph(alloc: Global, names: &[(&'static str, usize)]) -> Result<Node, Fail> {
    Ok(Node::Host {
        name: name("p", 1),
        props: attributes(alloc, names)?,
        kids: Items::new(alloc),
    })
}

/// `<p attribute={value}/>`
fn labelled(alloc: Global, attribute: Name, value: Node) -> Result<Node, Fail> {
    let mut props = Items::new(alloc);
    props.push(Entry {
        name: attribute,
        value,
    })?;
    Ok(Node::Host {
        name: name("p", 1),
        props,
        kids: Items::new(alloc),
    })
}

fn call(alloc: Global, of: Name) -> Node {
    Node::Call {
        name: of,
        props: Items::new(alloc),
    }
}

/// `<Suspense fallback={node}/>`
fn waiting(alloc: Global, node: Node) -> Result<Node, Fail> {
    let mut props = Items::new(alloc);
    props.push(Entry {
        name: name("fallback", 2),
        value: node,
    })?;
    Ok(Node::Suspense {
        name: name("Suspense", 1),
        props,
        kids: Items::new(alloc),
    })
}

fn component(alloc: Global, of: Name, node: Node) -> Component {
    Component {
        name: of,
        properties: Items::new(alloc),
        stmts: Items::new(alloc),
        result: node,
    }
}

/// What becomes of a file: its fault as it is printed, or `accepted`.
fn outcome(alloc: Global, components: Items<Component>) -> Result<String, Fail> {
    match check(alloc, File { components }) {
        Ok(_) => Ok(format!(in alloc; "accepted")?),
        Err(fault) => Ok(format!(in alloc; "{fault:?}")?),
    }
}

/// What becomes of a file with a component `A`, which returns a number, and `App`.
fn app(alloc: Global, node: Node) -> Result<String, Fail> {
    let mut components = Items::new(alloc);
    components.push(component(alloc, name("A", 100), number()))?;
    components.push(component(alloc, name("App", 101), node))?;
    outcome(alloc, components)
}

/// The name of a component of a chain.
fn link(alloc: Global, number: usize) -> Result<Name, Fail> {
    let text = format!(in alloc; "A{number}")?;
    match Text::from_bytes(text.into_bytes()) {
        Ok(text) => Ok(Name { text, at: number }),
        Err(_) => Ok(name("App", 0)),
    }
}

/// What becomes of so many components, each but the first calls the one before it, and then `App`, which calls the last.
fn chained(alloc: Global, count: usize) -> Result<String, Fail> {
    let mut components = Items::new(alloc);
    let mut node = number();
    for number in 0..count {
        components.push(component(alloc, link(alloc, number)?, node))?;
        node = call(alloc, link(alloc, number)?);
    }
    components.push(component(alloc, name("App", count), node))?;
    outcome(alloc, components)
}

#[test]
fn files_that_meet_the_rules(rt: HostRuntime) -> Result<(), Fail> {
    let alloc = rt.alloc();
    let found = app(
        alloc,
        paragraph(alloc, &[("title", 2), ("lang", 3), ("data-a", 4)])?,
    )?;
    assert!(&rt; found.as_str() == "accepted", "{found}");
    let found = app(alloc, call(alloc, name("A", 2)))?;
    assert!(&rt; found.as_str() == "accepted", "{found}");
    let found = app(alloc, waiting(alloc, paragraph(alloc, &[("id", 3)])?)?)?;
    assert!(&rt; found.as_str() == "accepted", "{found}");
    Ok(())
}

#[test]
fn broken_rules(rt: HostRuntime) -> Result<(), Fail> {
    let alloc = rt.alloc();
    let found = app(alloc, variable("x", 24))?;
    assert!(&rt; found.as_str() == "UnknownName { at: 24 }", "{found}");
    let found = app(alloc, call(alloc, name("B", 25)))?;
    assert!(&rt; found.as_str() == "UnknownElement { at: 25 }", "{found}");
    let found = app(alloc, paragraph(alloc, &[("title", 2), ("class", 26)])?)?;
    assert!(&rt; found.as_str() == "UnknownAttribute { at: 26 }", "{found}");
    let found = app(
        alloc,
        paragraph(alloc, &[("title", 2), ("lang", 3), ("title", 27)])?,
    )?;
    assert!(&rt; found.as_str() == "TwiceDefined { at: 27 }", "{found}");
    let found = app(alloc, call(alloc, name("App", 28)))?;
    assert!(&rt; found.as_str() == "UsedBeforeDefined { at: 28 }", "{found}");
    let found = app(alloc, waiting(alloc, call(alloc, name("A", 29)))?)?;
    assert!(&rt; found.as_str() == "FallbackNotPlain { at: 29 }", "{found}");
    Ok(())
}

#[test]
fn two_faults(rt: HostRuntime) -> Result<(), Fail> {
    let alloc = rt.alloc();
    let found = app(alloc, labelled(alloc, name("class", 5), variable("x", 9))?)?;
    assert!(&rt; found.as_str() == "UnknownAttribute { at: 5 }", "{found}");
    let found = app(alloc, labelled(alloc, name("class", 9), variable("x", 5))?)?;
    assert!(&rt; found.as_str() == "UnknownName { at: 5 }", "{found}");
    let found = app(alloc, labelled(alloc, name("class", 5), variable("x", 5))?)?;
    assert!(&rt; found.as_str() == "UnknownName { at: 5 }", "{found}");
    let found = app(alloc, waiting(alloc, call(alloc, name("App", 7)))?)?;
    assert!(&rt; found.as_str() == "UsedBeforeDefined { at: 7 }", "{found}");
    Ok(())
}

#[test]
fn files_without_app(rt: HostRuntime) -> Result<(), Fail> {
    let alloc = rt.alloc();
    let found = outcome(alloc, Items::new(alloc))?;
    assert!(&rt; found.as_str() == "NoApp", "{found}");
    let mut components = Items::new(alloc);
    let mut properties = Items::new(alloc);
    properties.push(name("a", 1))?;
    components.push(Component {
        name: name("App", 0),
        properties,
        stmts: Items::new(alloc),
        result: variable("a", 2),
    })?;
    let found = outcome(alloc, components)?;
    assert!(&rt; found.as_str() == "NoApp", "{found}");
    Ok(())
}

#[test]
fn files_at_the_bounds(rt: HostRuntime) -> Result<(), Fail> {
    let found = chained(rt.alloc(), 255)?;
    assert!(&rt; found.as_str() == "accepted", "{found}");
    let found = chained(rt.alloc(), 256)?;
    assert!(&rt; found.as_str() == "TooDeep { depth: 257 }", "{found}");
    let found = chained(rt.alloc(), 999)?;
    assert!(&rt; found.as_str() == "TooDeep { depth: 1000 }", "{found}");
    let found = chained(rt.alloc(), 1_000)?;
    assert!(&rt;
        found.as_str() == "TooManyComponents { count: 1001 }",
        "{found}"
    );
    Ok(())
}
