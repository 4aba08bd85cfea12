//! Small component files as trees.

use fizz_text::Text;
use jsx_syntax::{Component, Entry, Expr, File, Name, Node, Stmt};
use sqlite_items::{Boxed, Items};
use std::alloc::Global;
use std::test::Fail;

fn name(text: &'static str) -> Name {
    Name {
        text: Text::fixed(text),
        at: 0,
    }
}

fn text(text: &'static str) -> Node {
    Node::Value(Expr::Text(Text::fixed(text)))
}

fn one<T: Drop>(alloc: Global, item: T) -> Result<Items<T>, Fail> {
    let mut items = Items::new(alloc);
    items.push(item)?;
    Ok(items)
}

fn three<T: Drop>(alloc: Global, first: T, second: T, third: T) -> Result<Items<T>, Fail> {
    let mut items = one(alloc, first)?;
    items.push(second)?;
    items.push(third)?;
    Ok(items)
}

fn element(alloc: Global, tag: &'static str, kids: Items<Node>) -> Node {
    Node::Host {
        name: name(tag),
        props: Items::new(alloc),
        kids,
    }
}

fn body(alloc: Global) -> Node {
    Node::Call {
        name: name("Body"),
        props: Items::new(alloc),
    }
}

/// `<Suspense fallback={<i>wait</i>}><Body/></Suspense>`
fn suspense(alloc: Global) -> Result<Node, Fail> {
    let fallback = Entry {
        name: name("fallback"),
        value: element(alloc, "i", one(alloc, text("wait"))?),
    };
    Ok(Node::Suspense {
        name: name("Suspense"),
        props: one(alloc, fallback)?,
        kids: one(alloc, body(alloc))?,
    })
}

/// `function Body() { const u = use("u"); if (u === 1) throw "one"; return u; }`
fn body_component(alloc: Global) -> Result<Component, Fail> {
    let mut stmts = one(
        alloc,
        Stmt::Fetch {
            name: name("u"),
            resource: Expr::Text(Text::fixed("u")),
        },
    )?;
    stmts.push(Stmt::Throw {
        test: Expr::Equal {
            left: Boxed::new(alloc, Expr::Name(name("u")))?,
            right: Boxed::new(alloc, Expr::Int(1))?,
            negated: false,
        },
        digest: Expr::Text(Text::fixed("one")),
    })?;
    Ok(Component {
        name: name("Body"),
        properties: Items::new(alloc),
        stmts,
        result: Node::Value(Expr::Name(name("u"))),
    })
}

/// What `App` returns, by its number.
fn app_node(alloc: Global, number: u32) -> Result<Node, Fail> {
    let node = match number {
        0 => body(alloc),
        1 => {
            let kids = three(alloc, text("a"), body(alloc), text("b"))?;
            element(alloc, "p", kids)
        }
        2 => {
            let kids = three(
                alloc,
                text("a"),
                suspense(alloc)?,
                element(alloc, "br", Items::new(alloc)),
            )?;
            element(alloc, "div", kids)
        }
        _ => text("a<b"),
    };
    Ok(node)
}

/// `App` that returns `<Body/>`, `<p>{"a"}<Body/>{"b"}</p>`,
/// `<div>{"a"}<Suspense fallback={<i>wait</i>}><Body/></Suspense><br/></div>` or `{"a<b"}`.
pub(super) fn page(alloc: Global, number: u32) -> Result<File, Fail> {
    let mut components = one(alloc, body_component(alloc)?)?;
    components.push(Component {
        name: name("App"),
        properties: Items::new(alloc),
        stmts: Items::new(alloc),
        result: app_node(alloc, number)?,
    })?;
    Ok(File { components })
}
