use crate::expr::Expr;
use crate::name::Name;
use crate::node::Node;
use sqlite_items::Items;

/// A file of the component language.
#[derive(Debug, Drop)]
pub struct File {
    pub components: Items<Component>,
}

/// `function name({ properties }) { stmts return result; }`
#[derive(Debug, Drop)]
pub struct Component {
    pub name: Name,
    pub properties: Items<Name>,
    pub stmts: Items<Stmt>,
    pub result: Node,
}

/// A statement before the `return` of a component.
#[derive(Debug, Drop)]
pub enum Stmt {
    /// `const name = use(resource);`
    Fetch { name: Name, resource: Expr },
    /// `const name = value;`
    Bind { name: Name, value: Expr },
    /// `if (test) throw digest;`
    Throw { test: Expr, digest: Expr },
}
