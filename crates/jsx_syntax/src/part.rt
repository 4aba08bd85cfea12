use crate::expr::Expr;
use crate::node::Node;
use fizz_text::Text;
use sqlite_items::Items;

/// What stands in a node place: a value, or a node with an element, an array or a map in it.
#[derive(Debug, Drop)]
pub(crate) enum Part {
    Value(Expr),
    Other(Node),
}

/// An operand with the names of the members that follow it.
#[derive(Debug, Drop)]
pub(crate) struct Dotted {
    pub(crate) of: Expr,
    pub(crate) names: Items<Text>,
}
