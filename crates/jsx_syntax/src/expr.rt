use crate::name::Name;
use fizz_text::Text;
use sqlite_items::{Boxed, Items};

/// An expression. A chain of one operator, and one of members, is one list, so a tree that was parsed is no deeper
/// than 200 levels of its text; dropping and printing one go down by recursion.
#[derive(Debug, Drop)]
pub enum Expr {
    /// `null` or `undefined`.
    Null,
    Bool(bool),
    Int(i64),
    Text(Text),
    Name(Name),
    /// `of.a.b`: one name or more.
    Member {
        of: Boxed<Expr>,
        names: Items<Text>,
    },
    /// `!a`
    Not(Boxed<Expr>),
    /// `a + b + c`: two operands or more.
    Sum(Items<Expr>),
    /// `left === right`, or `left !== right` where it is negated.
    Equal {
        left: Boxed<Expr>,
        right: Boxed<Expr>,
        negated: bool,
    },
    /// `a && b && c`: two operands or more.
    And(Items<Expr>),
    /// `a || b || c`: two operands or more.
    Or(Items<Expr>),
    /// `test ? yes : no`
    Choose {
        test: Boxed<Expr>,
        yes: Boxed<Expr>,
        no: Boxed<Expr>,
    },
}
