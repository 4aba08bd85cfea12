//! Trees from those of their parts.

ghost use Rattle.std.specs.Prelude.{◌≡◌, ◌∷◌, ◌++◌, [], IfOk};
ghost use Rattle.jsx_syntax.specs.Trees as spec;
ghost use Rattle.jsx_syntax.specs.Steps as steps;
ghost use Rattle.jsx_syntax.specs.declared.expr.Expr.TheVariants as e;

use crate::expr::Expr;
use crate::name::{Entry, Name};
use crate::node::Node;
use crate::part::{Dotted, Part};
use crate::state::{Conditional, Left};
use sqlite_items::{Boxed, Items};
use std::alloc::{AllocError, Global};

/// An operand with its members.
pub(crate) fn members(alloc: Global, dotted: Dotted) -> Result<Expr, AllocError>
    ensures { IfOk result (λ x. x ≡ spec.member_of dotted) }
{
    let Dotted { of, names } = dotted;
    if names.len() == 0 {
        return Ok(of);
    }
    Ok(Expr::Member {
        of: Boxed::new(alloc, of)?,
        names,
    })
}

pub(crate) fn sum(mut operands: Items<Expr>) -> Expr
    ensures { result ≡ spec.sum_of operands }
{
    if operands.len() != 1 {
        return Expr::Sum(operands);
    }
    operands.remove(0)
}

pub(crate) fn all_of(mut operands: Items<Expr>) -> Expr
    ensures { result ≡ spec.and_of operands }
{
    if operands.len() != 1 {
        return Expr::And(operands);
    }
    operands.remove(0)
}

pub(crate) fn any_of(mut operands: Items<Expr>) -> Expr
    ensures { result ≡ spec.or_of operands }
{
    if operands.len() != 1 {
        return Expr::Or(operands);
    }
    operands.remove(0)
}

/// The operand after so many `!`.
pub(crate) fn negated(alloc: Global, nots: usize, operand: Expr) -> Result<Expr, AllocError>
    ensures { IfOk result (λ x. x ≡ steps.nots_of nots operand) }
{
    let mut built = operand;
    for done in 0..nots {
        built = Expr::Not(Boxed::new(alloc, built)?);
    }
    Ok(built)
}

pub(crate) fn equal(alloc: Global, left: Option<Left>, right: Expr) -> Result<Expr, AllocError>
    ensures { IfOk result (λ x. x ≡ steps.equal_of left right) }
{
    match left {
        None => Ok(right),
        Some(left) => Ok(Expr::Equal {
            left: Boxed::new(alloc, left.value)?,
            right: Boxed::new(alloc, right)?,
            negated: left.negated,
        }),
    }
}

pub(crate) fn node(part: Part) -> Node
    ensures { result ≡ spec.node_of part }
{
    match part {
        Part::Value(value) => Node::Value(value),
        Part::Other(node) => node,
    }
}

fn choice_of_values(alloc: Global, test: Expr, yes: Expr, no: Expr) -> Result<Part, AllocError>
    ensures { IfOk result (λ x. x ≡ spec.value_choice test yes no) }
{
    Ok(Part::Value(Expr::Choose {
        test: Boxed::new(alloc, test)?,
        yes: Boxed::new(alloc, yes)?,
        no: Boxed::new(alloc, no)?,
    }))
}

fn choice_of_nodes(alloc: Global, test: Expr, yes: Node, no: Node) -> Result<Part, AllocError>
    ensures { IfOk result (λ x. x ≡ spec.node_choice test yes no) }
{
    Ok(Part::Other(Node::Choose {
        test,
        yes: Boxed::new(alloc, yes)?,
        no: Boxed::new(alloc, no)?,
    }))
}

/// A conditional of values, or of nodes.
pub(crate) fn choice(alloc: Global, test: Expr, yes: Part, no: Part) -> Result<Part, AllocError>
    ensures { IfOk result (λ x. x ≡ spec.choose_part test yes no) }
{
    match yes {
        Part::Value(yes) => match no {
            Part::Value(no) => choice_of_values(alloc, test, yes, no),
            Part::Other(no) => choice_of_nodes(alloc, test, Node::Value(yes), no),
        },
        Part::Other(yes) => choice_of_nodes(alloc, test, yes, node(no)),
    }
}

/// The last operand of a chain of `&&` in a node place.
pub(crate) fn last_of_all(alloc: Global, left: Items<Expr>, last: Node) -> Result<Part, AllocError>
    ensures { IfOk result (λ x. x ≡ spec.and_part left (spec.other last)) }
{
    if left.len() == 0 {
        return Ok(Part::Other(last));
    }
    Ok(Part::Other(Node::And {
        left,
        last: Boxed::new(alloc, last)?,
    }))
}

/// The last operand of a chain of `||` in a node place, which may be a chain of `&&`.
pub(crate) fn last_of_any(
    alloc: Global,
    mut left: Items<Expr>,
    last: Part,
) -> Result<Part, AllocError>
    ensures { IfOk result (λ x. x ≡ spec.or_part left last) }
{
    match last {
        Part::Value(last) => {
            left.push(last)?;
            Ok(Part::Value(any_of(left)))
        }
        Part::Other(last) => last_node_of_any(alloc, left, last),
    }
}

fn last_node_of_any(alloc: Global, left: Items<Expr>, last: Node) -> Result<Part, AllocError>
    ensures { IfOk result (λ x. x ≡ spec.or_part left (spec.other last)) }
{
    if left.len() == 0 {
        return Ok(Part::Other(last));
    }
    Ok(Part::Other(Node::Or {
        left,
        last: Boxed::new(alloc, last)?,
    }))
}

/// An element by its name.
pub(crate) fn element(name: Name, props: Items<Entry<Node>>, kids: Items<Node>) -> Node
    ensures { result ≡ spec.element_of name props kids }
{
    if is_suspense(name.text.as_bytes()) {
        Node::Suspense { name, props, kids }
    } else if is_component_name(name.text.as_bytes()) {
        Node::Call { name, props }
    } else {
        Node::Host { name, props, kids }
    }
}

pub(crate) fn is_suspense(name: &[u8]) -> bool
    ensures { result ≡ spec.is_suspense name.now }
{
    name == b"Suspense".as_slice()
}

/// Whether the name begins with an upper-case letter.
pub(crate) fn is_component_name(name: &[u8]) -> bool
    ensures { result ≡ spec.is_component_name name.now }
{
    match name.split_first() {
        Some((first, _)) => 65 <= *first && *first <= 90,
        None => false,
    }
}
