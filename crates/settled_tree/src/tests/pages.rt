//! Small component files as trees.

use fizz_text::Text;
use jsx_syntax::{Component, Entry, Expr, File, Name, Node, Stmt};
use sqlite_items::Items;
use std::alloc::Global;
use std::test::Fail;

fn name(text: &'static str) -> Name {
    Name {
        text: Text::fixed(text),
        at: 0,
    }
}

fn text(text: &'static str) -> Expr {
    Expr::Text(Text::fixed(text))
}

fn one<T: Drop>(alloc: Global, first: T) -> Result<Items<T>, Fail> {
    let mut items = Items::new(alloc);
    items.push(first)?;
    Ok(items)
}

fn two<T: Drop>(alloc: Global, first: T, second: T) -> Result<Items<T>, Fail> {
    let mut items = Items::new(alloc);
    items.push(first)?;
    items.push(second)?;
    Ok(items)
}

fn element(alloc: Global, tag: &'static str, kids: Items<Node>) -> Node {
    Node::Host {
        name: name(tag),
        props: Items::new(alloc),
        kids,
    }
}

fn call(alloc: Global, component: &'static str) -> Node {
    Node::Call {
        name: name(component),
        props: Items::new(alloc),
    }
}

/// `<Suspense fallback={<i>wait</i>}>..</Suspense>`
fn suspense(alloc: Global, kids: Items<Node>) -> Result<Node, Fail> {
    let words = one(alloc, Node::Value(text("wait")))?;
    let fallback = Entry {
        name: name("fallback"),
        value: element(alloc, "i", words),
    };
    Ok(Node::Suspense {
        name: name("Suspense"),
        props: one(alloc, fallback)?,
        kids,
    })
}

/// The component before `App`.
fn component(
    alloc: Global,
    own: &'static str,
    stmts: Items<Stmt>,
    node: Node,
) -> Result<Items<Component>, Fail> {
    one(
        alloc,
        Component {
            name: name(own),
            properties: Items::new(alloc),
            stmts,
            result: node,
        },
    )
}

/// `const u = use("u");`
fn fetch() -> Stmt {
    Stmt::Fetch {
        name: name("u"),
        resource: text("u"),
    }
}

/// `if (true) throw digest;`
fn throw(digest: &'static str) -> Stmt {
    Stmt::Throw {
        test: Expr::Bool(true),
        digest: text(digest),
    }
}

fn file(alloc: Global, first: Items<Component>, node: Node) -> Result<File, Fail> {
    let mut components = first;
    components.push(Component {
        name: name("App"),
        properties: Items::new(alloc),
        stmts: Items::new(alloc),
        result: node,
    })?;
    Ok(File { components })
}

/// `function Body() { const u = use("u"); return <p>{u}</p>; }` and
/// `function App() { return <Suspense fallback={<i>wait</i>}><Body/></Suspense>; }`
pub(super) fn one_boundary(alloc: Global) -> Result<File, Fail> {
    let stmts = one(alloc, fetch())?;
    let kids = one(alloc, Node::Value(Expr::Name(name("u"))))?;
    let first = component(alloc, "Body", stmts, element(alloc, "p", kids))?;
    let kids = one(alloc, call(alloc, "Body"))?;
    file(alloc, first, suspense(alloc, kids)?)
}

/// `function Bad() { const u = use("u"); if (true) throw "s1"; return null; }` and
/// `function App() { return <div><Suspense fallback={<i>wait</i>}><Bad/></Suspense><Bad/></div>; }`
pub(super) fn failing_shell(alloc: Global) -> Result<File, Fail> {
    let stmts = two(alloc, fetch(), throw("s1"))?;
    let first = component(alloc, "Bad", stmts, Node::Value(Expr::Null))?;
    let kids = one(alloc, call(alloc, "Bad"))?;
    let mut row = one(alloc, suspense(alloc, kids)?)?;
    row.push(call(alloc, "Bad"))?;
    file(alloc, first, element(alloc, "div", row))
}

/// `function Bad() { if (true) throw "s1"; const u = use("u"); return null; }` and
/// `function App() { return <Suspense fallback={<i>wait</i>}>
/// <Suspense fallback={<i>wait</i>}><Bad/></Suspense>{"a"}</Suspense>; }`
pub(super) fn nested_boundaries(alloc: Global) -> Result<File, Fail> {
    let stmts = two(alloc, throw("s1"), fetch())?;
    let first = component(alloc, "Bad", stmts, Node::Value(Expr::Null))?;
    let kids = one(alloc, call(alloc, "Bad"))?;
    let mut row = one(alloc, suspense(alloc, kids)?)?;
    row.push(Node::Value(text("a")))?;
    file(alloc, first, suspense(alloc, row)?)
}

/// `function Values() { const u = use("u"); return u; }` and `function App() { return <>{""}<Values/></>; }`
pub(super) fn values(alloc: Global) -> Result<File, Fail> {
    let stmts = one(alloc, fetch())?;
    let first = component(alloc, "Values", stmts, Node::Value(Expr::Name(name("u"))))?;
    let kids = two(alloc, Node::Value(text("")), call(alloc, "Values"))?;
    file(alloc, first, Node::Fragment(kids))
}
