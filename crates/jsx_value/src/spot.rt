//! What stands at a position of a page.

use crate::scope::Scope;
use jsx_syntax::Node;
use settle_script::Value;

/// What stands at a position: the call of `App`, a node, nodes beside each other, or a value.
#[derive(Clone, Copy)]
pub enum Spot<'a> {
    Root,
    Node(&'a Node),
    Children(&'a [Node]),
    Value(&'a Value),
}

/// A position: what stands there, and the names in scope.
#[derive(Drop)]
pub struct Kin<'a> {
    pub spot: Spot<'a>,
    pub scope: Scope<'a>,
}
