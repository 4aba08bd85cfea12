use crate::expr::Expr;
use crate::name::{Entry, Name};
use sqlite_items::{Boxed, Items};

/// An attribute. Its value is a `Node::Value`, save for the `fallback` of `Suspense`.
pub type Prop = Entry<Node>;

/// What a component returns, and what stands between tags. One without elements, arrays and maps is a `Value`.
#[derive(Debug, Drop)]
pub enum Node {
    Value(Expr),
    /// `test ? yes : no`
    Choose {
        test: Expr,
        yes: Boxed<Node>,
        no: Boxed<Node>,
    },
    /// `a && b && last`: one value or more before the last operand.
    And {
        left: Items<Expr>,
        last: Boxed<Node>,
    },
    /// `a || b || last`: one value or more before the last operand.
    Or {
        left: Items<Expr>,
        last: Boxed<Node>,
    },
    /// `[a, b]`
    Array(Items<Node>),
    /// `list.map((item, number) => body)`
    Map {
        list: Expr,
        item: Name,
        number: Option<Name>,
        body: Boxed<Node>,
    },
    /// An element of HTML: its name begins with no upper-case letter.
    Host {
        name: Name,
        props: Items<Entry<Node>>,
        kids: Items<Node>,
    },
    /// An element that names a component. It has no children.
    Call {
        name: Name,
        props: Items<Entry<Node>>,
    },
    /// `<>..</>`
    Fragment(Items<Node>),
    /// The element `Suspense`.
    Suspense {
        name: Name,
        props: Items<Entry<Node>>,
        kids: Items<Node>,
    },
}
