//! Attributes: the printed ones of an element, and what a component is called with.

ghost use Rattle.std.specs.Prelude.{◌≡◌, ◌∷◌, [], ◌++◌, map, IfOk, Some, None, option_map, option_and_then};
ghost use Rattle.std.specs.Option.{option_copied};
ghost use Rattle.settle_script.specs.declared.value.Value.{out-Value};
ghost use Rattle.html_names.specs.Rows.{meaning_of};
ghost use Rattle.html_names.specs.Attributes.{is_reserved};
ghost use Rattle.jsx_value.specs.PrintedAttributes.{printed_attribute, printed_value, plain_value, booleanish_value, unless_reserved};
ghost use Rattle.jsx_value.specs.Positions.{attributes_of, args_of, frame_of, node_value, prop_named};

use crate::eval;
use crate::scope::Scope;
use crate::val::{Face, Val};
use fizz_text::{Attr, Attributes, OutOfMemory, Text};
use html_names::{AttrKind, AttrName, attribute, is_reserved_id};
use jsx_syntax::{Entry, Name, Node};
use std::alloc::Global;

/// The printed attributes of an element, in the source's order.
pub(crate) fn printed<'a>(
    alloc: Global,
    prefix: &Text,
    props: &'a [Entry<Node>],
    scope: &Scope<'a>,
) -> Result<Attributes, OutOfMemory>
    ensures { IfOk result (λ attributes. attributes ≡ attributes_of prefix.now props.now scope.now) }
{
    let mut attributes = Attributes::new(alloc);
    for prop in props {
        if let Some(attribute) = printed_prop(alloc, prefix, prop, scope)? {
            attributes.push(attribute)?;
        }
    }
    Ok(attributes)
}

fn printed_prop<'a>(
    alloc: Global,
    prefix: &Text,
    prop: &'a Entry<Node>,
    scope: &Scope<'a>,
) -> Result<Option<Attr>, OutOfMemory>
    ensures { IfOk result (λ attribute. attribute ≡ printed_attribute prefix.now prop.now.name.text (node_value prop.now.value scope.now)) }
{
    let value = value_at(alloc, &prop.value, scope)?;
    printed_one(alloc, prefix, &prop.name.text, &value)
}

/// The value of an attribute.
pub(crate) fn value_at<'a>(
    alloc: Global,
    node: &'a Node,
    scope: &Scope<'a>,
) -> Result<Val<'a>, OutOfMemory>
    ensures { IfOk result (λ value. value ≡ node_value node.now scope.now) }
{
    match node {
        Node::Value(expr) => eval(alloc, expr, scope),
        _ => Ok(Val::null()),
    }
}

fn printed_one<'a>(
    alloc: Global,
    prefix: &Text,
    name: &Text,
    value: &Val<'a>,
) -> Result<Option<Attr>, OutOfMemory>
    ensures { IfOk result (λ attribute. attribute ≡ printed_attribute prefix.now name.now value.now) }
{
    let Some(meaning) = attribute(name.as_bytes()) else {
        return Ok(None);
    };
    let Some(value) = value_of_kind(alloc, prefix, meaning.kind, value)? else {
        return Ok(None);
    };
    let name = match meaning.printed {
        AttrName::Fixed(printed) => Text::fixed(printed),
        AttrName::Own => name.copy(alloc)?,
    };
    Ok(Some(Attr {
        name,
        value: Some(value),
    }))
}

fn value_of_kind<'a>(
    alloc: Global,
    prefix: &Text,
    kind: AttrKind,
    value: &Val<'a>,
) -> Result<Option<Text>, OutOfMemory>
    ensures { IfOk result (λ text. text ≡ printed_value prefix.now kind (out-Value value.now)) }
{
    match kind {
        AttrKind::Plain => plain(alloc, value),
        AttrKind::Boolean => Ok(if value.is_true() {
            Some(Text::fixed(""))
        } else {
            None
        }),
        AttrKind::Booleanish => booleanish(alloc, value),
        AttrKind::Id => Ok(not_reserved(prefix, plain(alloc, value)?)),
        AttrKind::Key => Ok(None),
    }
}

fn plain<'a>(alloc: Global, value: &Val<'a>) -> Result<Option<Text>, OutOfMemory>
    ensures { IfOk result (λ text. text ≡ plain_value (out-Value value.now)) }
{
    match value.face() {
        Face::Int(_) | Face::Text(_) => Ok(Some(value.text(alloc)?)),
        _ => Ok(None),
    }
}

fn booleanish<'a>(alloc: Global, value: &Val<'a>) -> Result<Option<Text>, OutOfMemory>
    ensures { IfOk result (λ text. text ≡ booleanish_value (out-Value value.now)) }
{
    match value.face() {
        Face::Bool(true) => Ok(Some(Text::fixed("true"))),
        Face::Bool(false) => Ok(Some(Text::fixed("false"))),
        _ => plain(alloc, value),
    }
}

fn not_reserved(prefix: &Text, value: Option<Text>) -> Option<Text>
    ensures { result ≡ option_and_then (unless_reserved prefix.now) value }
{
    match value {
        Some(value) if !is_reserved_id(prefix.as_bytes(), value.as_bytes()) => Some(value),
        _ => None,
    }
}

/// The values that a component is called with, by the names of the attributes.
pub(crate) fn args<'a>(
    alloc: Global,
    props: &'a [Entry<Node>],
    scope: &Scope<'a>,
) -> Result<Scope<'a>, OutOfMemory>
    ensures { IfOk result (λ args. args ≡ args_of props.now scope.now) }
{
    let mut args: Scope<'a> = Scope::empty(alloc);
    for prop in props {
        let value = value_at(alloc, &prop.value, scope)?;
        args.bind(&prop.name.text, value)?;
    }
    Ok(args)
}

/// The properties of a component with what it was called with.
pub(crate) fn frame<'a>(
    alloc: Global,
    properties: &'a [Name],
    args: &Scope<'a>,
) -> Result<Scope<'a>, OutOfMemory>
    ensures { IfOk result (λ frame. frame ≡ frame_of properties.now args.now) }
{
    let mut frame: Scope<'a> = Scope::empty(alloc);
    for property in properties {
        let value = crate::expression::named(args, &property.text)?;
        frame.bind(&property.text, value)?;
    }
    Ok(frame)
}

/// The first attribute of this name.
pub(crate) fn prop_of<'a>(props: &'a [Entry<Node>], name: &[u8]) -> Option<&'a Node>
    ensures { option_copied result ≡ prop_named name.now props.now }
{
    for prop in props {
        if name == prop.name.text.as_bytes() {
            return Some(&prop.value);
        }
    }
    None
}
