//! What the parser has read so far. It keeps a stack of its own in place of recursion: a position says what may come
//! next, and a frame what is read around it.

use crate::expr::Expr;
use crate::file::{Component, Stmt};
use crate::name::{Entry, Name};
use crate::node::Node;
use crate::part::{Dotted, Part};
use crate::stack::Stack;
use sqlite_items::Items;

/// The components before a component, its name and its properties.
#[derive(Drop)]
pub(crate) struct Signature {
    pub(crate) components: Items<Component>,
    pub(crate) name: Name,
    pub(crate) properties: Items<Name>,
}

/// A component before its `return`.
#[derive(Drop)]
pub(crate) struct Draft {
    pub(crate) signature: Signature,
    pub(crate) stmts: Items<Stmt>,
}

/// The left side of `===`, or of `!==` where it is negated.
#[derive(Drop)]
pub(crate) struct Left {
    pub(crate) value: Expr,
    pub(crate) negated: bool,
}

/// What was read of an expression before the operand that comes next: `depth` are open around it.
#[derive(Drop)]
pub(crate) struct Pending {
    /// Whether it stands in a node place.
    pub(crate) place: bool,
    pub(crate) depth: usize,
    pub(crate) ors: Items<Expr>,
    pub(crate) ands: Items<Expr>,
    pub(crate) left: Option<Left>,
    pub(crate) sums: Items<Expr>,
    pub(crate) nots: usize,
}

/// A conditional after its test.
#[derive(Drop)]
pub(crate) struct Conditional {
    pub(crate) place: bool,
    pub(crate) depth: usize,
    pub(crate) test: Expr,
}

/// `list.map`, which is an operand.
#[derive(Drop)]
pub(crate) struct Mapping {
    pub(crate) pending: Pending,
    pub(crate) list: Expr,
}

/// An element before the end of its first tag.
#[derive(Drop)]
pub(crate) struct Tag {
    pub(crate) depth: usize,
    pub(crate) name: Name,
    pub(crate) props: Items<Entry<Node>>,
}

/// An element before its closing tag. A fragment has no name and no attributes.
#[derive(Drop)]
pub(crate) struct Opened {
    pub(crate) depth: usize,
    pub(crate) name: Option<Name>,
    pub(crate) props: Items<Entry<Node>>,
    pub(crate) kids: Items<Node>,
}

/// Outside the bodies of components: what comes next.
#[derive(Drop)]
pub(crate) enum Outside {
    /// `function`, or the end.
    File(Items<Component>),
    Name(Items<Component>),
    /// `(`
    Open(Signature),
    /// `{` or `)`
    Properties(Signature),
    /// A name or `}`.
    FirstProperty(Signature),
    /// A name.
    NextProperty(Signature),
    /// `,` or `}`
    PropertyEnd(Signature),
    /// `)`
    Close(Signature),
    /// `{`
    Body(Signature),
    /// `}`
    BodyEnd(Items<Component>),
}

/// Between the expressions of a component's body: what comes next.
#[derive(Drop)]
pub(crate) enum Within {
    /// A statement or `return`.
    Start(Draft),
    ConstName(Draft),
    /// `=`
    ConstEquals(Draft, Name),
    /// `use` or an expression.
    ConstValue(Draft, Name),
    /// `(`
    UseOpen(Draft, Name),
    /// `;`
    End(Draft),
    /// `(`
    IfOpen(Draft),
    /// `throw`
    ThrowWord(Draft, Expr),
}

/// Within an expression: what comes next.
#[derive(Drop)]
pub(crate) enum Inside {
    /// An operand.
    Operand(Pending),
    /// What goes on after a value.
    Value(Pending, Dotted),
    /// What goes on after an element, an array, a map or a node in parentheses.
    Node(Pending, Node),
    /// A name, after a dot.
    Dot(Pending, Dotted),
    /// A node or `]`.
    ArrayStart(Pending),
    /// A node or `]`, after a comma.
    ArrayNext(Pending, Items<Node>),
}

/// Between `list.map` and the body of a map: what comes next.
#[derive(Drop)]
pub(crate) enum InMap {
    /// `(`
    Open(Mapping),
    /// A name.
    Item(Mapping),
    /// `,` or `)`
    ItemEnd(Mapping, Name),
    /// A name.
    Number(Mapping, Name),
    /// `)`
    NumberEnd(Mapping, Name, Name),
    /// `=>`
    Arrow(Mapping, Name, Option<Name>),
}

/// Within an element: what comes next.
#[derive(Drop)]
pub(crate) enum InElement {
    /// A name or `>`. So many are open around the element.
    Start(usize),
    /// An attribute or the end of the tag.
    Attributes(Tag),
    /// `=`, or what comes after an attribute.
    Equals(Tag, Name),
    /// A string or `{`.
    Value(Tag, Name),
    /// A child or `</`.
    Children(Opened),
    /// A node or `}`.
    Braces(Opened),
    /// The name after `</`, or `>` after that of a fragment.
    CloseName(Opened),
    /// `>`
    CloseEnd(Opened),
}

/// What comes next.
#[derive(Drop)]
pub(crate) enum Position {
    Outside(Outside),
    Within(Within),
    Inside(Inside),
    InMap(InMap),
    InElement(InElement),
}

/// What is read around an expression or an element.
#[derive(Drop)]
pub(crate) enum Frame {
    /// `const name = use( · );`
    Use(Draft, Name),
    /// `const name = · ;`
    Bind(Draft, Name),
    /// `if ( · ) throw ..`
    If(Draft),
    /// `if (test) throw · ;`
    Throw(Draft, Expr),
    /// `return · ;`
    Return(Draft),
    /// `( · )`
    Parens(Pending),
    /// `test ? · : ..`
    Yes(Conditional),
    /// `test ? yes : ·`
    No(Conditional, Part),
    /// `[.., · ]`
    Item(Pending, Items<Node>),
    /// `list.map((item, number) => · )`
    MapBody(Mapping, Name, Option<Name>),
    /// `name={ · }`
    Attribute(Tag, Name),
    /// `{ · }` among children
    Child(Opened),
    /// An element that is an operand.
    Operand(Pending),
    /// An element that is a child.
    Kid(Opened),
}

/// A statement that an expression ends.
pub(crate) enum StatementEnd {
    Use(Draft, Name),
    Bind(Draft, Name),
    If(Draft),
    Throw(Draft, Expr),
    Return(Draft),
}

/// A part of an operand that an expression ends.
pub(crate) enum OperandEnd {
    Parens(Pending),
    Yes(Conditional),
    Item(Pending, Items<Node>),
    MapBody(Mapping, Name, Option<Name>),
}

/// A part of an element that an expression ends.
pub(crate) enum ElementEnd {
    Attribute(Tag, Name),
    Child(Opened),
}

/// What an expression ends, where it is not the last part of a conditional.
pub(crate) enum End {
    Statement(StatementEnd),
    Operand(OperandEnd),
    Element(ElementEnd),
    /// Nothing.
    Other(Frame),
}

/// The innermost frame, as what the end of an expression takes on with.
pub(crate) enum Top {
    Last(Conditional, Part),
    End(End),
}

/// The innermost frame, as what takes a whole element.
pub(crate) enum Host {
    Operand(Pending),
    Kid(Opened),
    Other(Frame),
}

/// Where the parser is in a text.
#[derive(Drop)]
pub(crate) struct State {
    pub(crate) position: Position,
    pub(crate) stack: Stack<Frame>,
}
