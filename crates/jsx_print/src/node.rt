//! The printing of nodes.

ghost use Rattle.std.specs.Prelude.{◌≡◌, ◌∷◌, ◌++◌, [], map, OnOk};
ghost use Rattle.std.specs.List.{flat_map};
ghost use Rattle.std.specs.String.{string_bytes};
ghost use Rattle.jsx_lex.specs.declared.word.Punctuator.TheVariants as p;
ghost use Rattle.jsx_print.specs.Spelling.{spelled};
ghost use Rattle.jsx_print.specs.Printing as spec;
ghost use Rattle.jsx_print.specs.Seen.{printed_entry, printed_value};

use crate::expression::{
    CONJUNCTION, DISJUNCTION, EQUALITY, MEMBER, push_chain, push_expr, push_operand,
};
use crate::words::{push_name, push_sign};
use fizz_text::OutOfMemory;
use jsx_lex::Punctuator;
use jsx_syntax::{Entry, Expr, Name, Node};
use std::alloc::Global;

// How tight a node is, from the loosest on.
const NODE: u8 = 0;

const NODE_DISJUNCTION: u8 = 1;

const NODE_CONJUNCTION: u8 = 2;

const NODE_PRIMARY: u8 = 3;

const ELEMENT: u8 = 4;

/// How tight a node is.
fn tightness(node: &Node) -> u8
    ensures { result ≡ (spec.printed_node node.now).tightness }
{
    match node {
        Node::Value(_) | Node::Choose { .. } => NODE,
        Node::Or { .. } => NODE_DISJUNCTION,
        Node::And { .. } => NODE_CONJUNCTION,
        Node::Array(_) | Node::Map { .. } => NODE_PRIMARY,
        Node::Host { .. } | Node::Call { .. } | Node::Fragment(_) | Node::Suspense { .. } =>
            ELEMENT,
    }
}

/// Appends a node. It goes down with the node's nesting, at most 200 in a file that was parsed.
#[cycle(nodes)]
pub(crate) fn push_node(alloc: Global, out: &mut String, node: &Node) -> Result<(), OutOfMemory>
    ensures { OnOk result (string_bytes out.new
        ≡ string_bytes out.old ++ spelled (spec.printed_node node.now).words) }
{
    match node {
        Node::Value(expr) => push_expr(alloc, out, expr),
        Node::Choose { test, yes, no } => push_choice(alloc, out, test, yes.get(), no.get()),
        Node::And { left, last } => push_and(alloc, out, left.as_slice(), last.get()),
        Node::Or { left, last } => push_or(alloc, out, left.as_slice(), last.get()),
        Node::Array(items) => push_array(alloc, out, items.as_slice()),
        Node::Map {
            list,
            item,
            number,
            body,
        } => push_map(alloc, out, list, item, number, body.get()),
        Node::Host { name, props, kids } => {
            push_tag(alloc, out, name, props.as_slice())?;
            push_rest(alloc, out, name, kids.as_slice())
        }
        Node::Call { name, props } => {
            push_tag(alloc, out, name, props.as_slice())?;
            push_sign(out, Punctuator::SlashGreater)
        }
        Node::Fragment(kids) => push_fragment(alloc, out, kids.as_slice()),
        Node::Suspense { name, props, kids } => {
            push_tag(alloc, out, name, props.as_slice())?;
            push_rest(alloc, out, name, kids.as_slice())
        }
    }
}

/// Appends an operand, in parentheses where it isn't at least so tight.
#[cycle(nodes)]
fn push_last(alloc: Global, out: &mut String, least: u8, node: &Node) -> Result<(), OutOfMemory>
    ensures { OnOk result (string_bytes out.new
        ≡ string_bytes out.old ++ spelled (spec.operand least (spec.printed_node node.now))) }
{
    if least <= tightness(node) {
        return push_node(alloc, out, node);
    }
    push_sign(out, Punctuator::OpenParen)?;
    push_node(alloc, out, node)?;
    push_sign(out, Punctuator::CloseParen)
}

#[cycle(nodes)]
fn push_choice(
    alloc: Global,
    out: &mut String,
    test: &Expr,
    yes: &Node,
    no: &Node,
) -> Result<(), OutOfMemory>
    ensures { OnOk result (string_bytes out.new
        ≡ string_bytes out.old ++ spelled (spec.choice_words (spec.printed test.now)
        (spec.printed_node yes.now) (spec.printed_node no.now))) }
{
    push_operand(alloc, out, DISJUNCTION, test)?;
    push_sign(out, Punctuator::Question)?;
    push_node(alloc, out, yes)?;
    push_sign(out, Punctuator::Colon)?;
    push_node(alloc, out, no)
}

#[cycle(nodes)]
fn push_and(alloc: Global, out: &mut String, left: &[Expr], last: &Node) -> Result<(), OutOfMemory>
    ensures { OnOk result (string_bytes out.new
        ≡ string_bytes out.old ++ spelled (spec.last_words p.AndAnd spec.equality left.now
        spec.node_primary (spec.printed_node last.now))) }
{
    push_chain(alloc, out, Punctuator::AndAnd, EQUALITY, left)?;
    push_sign(out, Punctuator::AndAnd)?;
    push_last(alloc, out, NODE_PRIMARY, last)
}

#[cycle(nodes)]
fn push_or(alloc: Global, out: &mut String, left: &[Expr], last: &Node) -> Result<(), OutOfMemory>
    ensures { OnOk result (string_bytes out.new
        ≡ string_bytes out.old ++ spelled (spec.last_words p.OrOr spec.conjunction left.now
        spec.node_conjunction (spec.printed_node last.now))) }
{
    push_chain(alloc, out, Punctuator::OrOr, CONJUNCTION, left)?;
    push_sign(out, Punctuator::OrOr)?;
    push_last(alloc, out, NODE_CONJUNCTION, last)
}

#[cycle(nodes)]
fn push_array(alloc: Global, out: &mut String, items: &[Node]) -> Result<(), OutOfMemory>
    ensures { OnOk result (string_bytes out.new
        ≡ string_bytes out.old ++ spelled (spec.array_words (map spec.printed_node items.now))) }
{
    push_sign(out, Punctuator::OpenBracket)?;
    push_items(alloc, out, items)?;
    push_sign(out, Punctuator::CloseBracket)
}

/// Appends nodes with a comma between each two.
#[cycle(nodes)]
fn push_items(alloc: Global, out: &mut String, items: &[Node]) -> Result<(), OutOfMemory>
    ensures { OnOk result (string_bytes out.new
        ≡ string_bytes out.old ++ spelled (spec.items_words (map spec.printed_node items.now))) }
{
    let Some((first, others)) = items.split_first() else {
        return Ok(());
    };
    push_node(alloc, out, first)?;
    for item in others {
        push_sign(out, Punctuator::Comma)?;
        push_node(alloc, out, item)?;
    }
    Ok(())
}

#[cycle(nodes)]
fn push_map(
    alloc: Global,
    out: &mut String,
    list: &Expr,
    item: &Name,
    number: &Option<Name>,
    body: &Node,
) -> Result<(), OutOfMemory>
    ensures { OnOk result (string_bytes out.new
        ≡ string_bytes out.old ++ spelled (spec.map_words list.now item.now number.now
        (spec.printed_node body.now))) }
{
    push_operand(alloc, out, MEMBER, list)?;
    push_mapping(out, item, number)?;
    push_node(alloc, out, body)?;
    push_sign(out, Punctuator::CloseParen)
}

/// Appends what stands between the list of a map and its body.
fn push_mapping(out: &mut String, item: &Name, number: &Option<Name>) -> Result<(), OutOfMemory>
    ensures { OnOk result (string_bytes out.new
        ≡ string_bytes out.old ++ spelled (spec.mapping_words item.now number.now)) }
{
    push_sign(out, Punctuator::Dot)?;
    push_name(out, "map")?;
    push_sign(out, Punctuator::OpenParen)?;
    push_variables(out, item, number)
}

/// Appends the function of a map up to its body.
fn push_variables(out: &mut String, item: &Name, number: &Option<Name>) -> Result<(), OutOfMemory>
    ensures { OnOk result (string_bytes out.new
        ≡ string_bytes out.old ++ spelled (spec.variables_words item.now number.now)) }
{
    push_sign(out, Punctuator::OpenParen)?;
    push_name(out, item.text.as_str())?;
    push_number_name(out, number)?;
    push_sign(out, Punctuator::CloseParen)?;
    push_sign(out, Punctuator::Arrow)
}

fn push_number_name(out: &mut String, number: &Option<Name>) -> Result<(), OutOfMemory>
    ensures { OnOk result (string_bytes out.new
        ≡ string_bytes out.old ++ spelled (spec.number_words number.now)) }
{
    match number {
        None => Ok(()),
        Some(number) => {
            push_sign(out, Punctuator::Comma)?;
            push_name(out, number.text.as_str())
        }
    }
}

/// Appends an element up to the end of its attributes.
#[cycle(nodes)]
fn push_tag(
    alloc: Global,
    out: &mut String,
    name: &Name,
    props: &[Entry<Node>],
) -> Result<(), OutOfMemory>
    ensures { OnOk result (string_bytes out.new
        ≡ string_bytes out.old ++ spelled (spec.tag_words name.now (map printed_entry props.now))) }
{
    push_sign(out, Punctuator::Less)?;
    push_name(out, name.text.as_str())?;
    push_props(alloc, out, props)
}

/// Appends attributes.
#[cycle(nodes)]
fn push_props(alloc: Global, out: &mut String, props: &[Entry<Node>]) -> Result<(), OutOfMemory>
    ensures { OnOk result (string_bytes out.new ≡ string_bytes out.old
        ++ spelled (flat_map spec.attribute_words (map printed_entry props.now))) }
{
    for prop in props {
        push_prop(alloc, out, &prop.name, &prop.value)?;
    }
    Ok(())
}

#[cycle(nodes)]
fn push_prop(alloc: Global, out: &mut String, name: &Name, value: &Node) -> Result<(), OutOfMemory>
    ensures { OnOk result (string_bytes out.new ≡ string_bytes out.old
        ++ spelled (spec.attribute_words (printed_value name.now value.now))) }
{
    push_name(out, name.text.as_str())?;
    push_sign(out, Punctuator::Assign)?;
    push_sign(out, Punctuator::OpenBrace)?;
    push_node(alloc, out, value)?;
    push_sign(out, Punctuator::CloseBrace)
}

/// Appends the rest of an element after its attributes.
#[cycle(nodes)]
fn push_rest(alloc: Global, out: &mut String, name: &Name, kids: &[Node]) -> Result<(), OutOfMemory>
    ensures { OnOk result (string_bytes out.new ≡ string_bytes out.old
        ++ spelled (spec.rest_words name.now (map spec.printed_node kids.now))) }
{
    if kids.is_empty() {
        return push_sign(out, Punctuator::SlashGreater);
    }
    push_sign(out, Punctuator::Greater)?;
    push_kids(alloc, out, kids)?;
    push_sign(out, Punctuator::LessSlash)?;
    push_name(out, name.text.as_str())?;
    push_sign(out, Punctuator::Greater)
}

#[cycle(nodes)]
fn push_fragment(alloc: Global, out: &mut String, kids: &[Node]) -> Result<(), OutOfMemory>
    ensures { OnOk result (string_bytes out.new
        ≡ string_bytes out.old ++ spelled (spec.fragment_words (map spec.printed_node kids.now))) }
{
    push_sign(out, Punctuator::Less)?;
    push_sign(out, Punctuator::Greater)?;
    push_kids(alloc, out, kids)?;
    push_sign(out, Punctuator::LessSlash)?;
    push_sign(out, Punctuator::Greater)
}

/// Appends the children of an element.
#[cycle(nodes)]
fn push_kids(alloc: Global, out: &mut String, kids: &[Node]) -> Result<(), OutOfMemory>
    ensures { OnOk result (string_bytes out.new ≡ string_bytes out.old
        ++ spelled (flat_map spec.kid_words (map spec.printed_node kids.now))) }
{
    for kid in kids {
        push_kid(alloc, out, kid)?;
    }
    Ok(())
}

/// Appends a child, in braces unless it is an element.
#[cycle(nodes)]
fn push_kid(alloc: Global, out: &mut String, kid: &Node) -> Result<(), OutOfMemory>
    ensures { OnOk result (string_bytes out.new
        ≡ string_bytes out.old ++ spelled (spec.kid_words (spec.printed_node kid.now))) }
{
    if ELEMENT <= tightness(kid) {
        return push_node(alloc, out, kid);
    }
    push_sign(out, Punctuator::OpenBrace)?;
    push_node(alloc, out, kid)?;
    push_sign(out, Punctuator::CloseBrace)
}
