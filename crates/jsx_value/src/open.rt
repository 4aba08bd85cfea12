//! The shape of a position: opening what stands there, step by step, until a shape is reached.

ghost use Rattle.std.specs.Prelude.{◌≡◌, ◌+◌, ◌≤◌, ◌∷◌, [], ◌++◌, length, map, reverse, pos, codes, IfOk};
ghost use Rattle.std.specs.Fmt.{signed_decimal};
ghost use Rattle.settle_script.specs.declared.value.Value.{out-Value};
ghost use Rattle.settle_script.specs.Settlements.{known};
ghost use Rattle.jsx_syntax.specs.declared.node.Node.{out-Node};
ghost use Rattle.jsx_value.specs.declared.shape.Shape.TheVariants as s;
ghost use Rattle.jsx_value.specs.Values.{whole_or_null};
ghost use Rattle.jsx_value.specs.Expressions.{value_of};
ghost use Rattle.jsx_value.specs.Positions.{opened, open_node, places, text_shape, map_shape, each_item, item_scope, prop_named, calls_of, call_of};
ghost use Rattle.jsx_value.specs.SeenPlaces.{place_of, place_shape};
ghost use Rattle.jsx_value.specs.Layers.{layer_seen, calls_at, node_layer, value_layer, value_layer_shape, value_place, children_layer, node_place, nodes_place, fallback_place};

use crate::attributes::{args, frame, printed, prop_of};
use crate::component::component_of;
use crate::expression::{eval, eval_and, eval_or};
use crate::page::{Layer, Page};
use crate::scope::Scope;
use crate::shape::Shape;
use crate::spot::{Kin, Spot};
use crate::statements::{Ended, run};
use crate::val::{Face, Val, decimal};
use fizz_text::{OutOfMemory, Text};
use jsx_syntax::{Component, Entry, Expr, Name, Node};
use settle_script::Value;
use sqlite_items::{Boxed, Items};
use std::alloc::Global;

fn layer<'a>(shape: Shape<Kin<'a>>) -> Layer<'a>
    ensures layer { layer_seen result ≡ opened (place_shape shape.entry) }
    ensures calls { result.calls ≡ 0 }
{
    Layer { calls: 0, shape }
}

/// A node, with the components that it may call. The recursion goes down the source: at most 256 nodes lie in one
/// another once calls are opened.
#[cycle(open)]
pub(crate) fn open_node<'a>(
    alloc: Global,
    page: &Page<'a>,
    before: &'a [Component],
    node: &'a Node,
    scope: Scope<'a>,
) -> Result<Layer<'a>, OutOfMemory>
    ensures layer { IfOk result (λ layer. layer_seen layer
        ≡ open_node places page.now.prefix.now (calls_at page.now before.now) node.now scope.entry) }
    ensures few { IfOk result (λ layer. layer.calls ≤ length before.now) }
{
    node_layer(alloc, page, before, node, scope)
}

#[cycle(open)]
fn node_layer<'a>(
    alloc: Global,
    page: &Page<'a>,
    before: &'a [Component],
    node: &'a Node,
    scope: Scope<'a>,
) -> Result<Layer<'a>, OutOfMemory>
    ensures layer { IfOk result (λ layer. layer_seen layer
        ≡ node_layer page.now.prefix.now (calls_at page.now before.now) (out-Node node.now) scope.entry) }
    ensures few { IfOk result (λ layer. layer.calls ≤ length before.now) }
{
    match node {
        Node::Value(expr) => {
            let value = eval(alloc, expr, &scope)?;
            value_layer(alloc, &value)
        }
        Node::Choose { test, yes, no } => {
            if eval(alloc, test, &scope)?.is_true() {
                open_node(alloc, page, before, yes.get(), scope)
            } else {
                open_node(alloc, page, before, no.get(), scope)
            }
        }
        Node::And { left, last } => {
            let left = eval_and(alloc, left.as_slice(), &scope)?;
            if left.is_true() {
                open_node(alloc, page, before, last.get(), scope)
            } else {
                value_layer(alloc, &left)
            }
        }
        Node::Or { left, last } => {
            let left = eval_or(alloc, left.as_slice(), &scope)?;
            if left.is_true() {
                value_layer(alloc, &left)
            } else {
                open_node(alloc, page, before, last.get(), scope)
            }
        }
        Node::Array(nodes) => Ok(layer(Shape::Array {
            kids: kids_of(alloc, nodes.as_slice(), &scope)?,
        })),
        Node::Map {
            list,
            item,
            number,
            body,
        } => map_layer(alloc, list, item, number, body, &scope),
        Node::Host { name, props, kids } => Ok(layer(Shape::Element {
            name: name.text.copy(alloc)?,
            attributes: printed(alloc, page.prefix, props.as_slice(), &scope)?,
            kids: kids_of(alloc, kids.as_slice(), &scope)?,
        })),
        Node::Call { name, props } => {
            let args = args(alloc, props.as_slice(), &scope)?;
            open_call(alloc, page, before, name.text.as_bytes(), &args)
        }
        Node::Fragment(kids) => children_layer(alloc, page, before, kids.as_slice(), scope),
        Node::Suspense { props, kids, .. } => Ok(layer(Shape::Boundary {
            content: Boxed::new(alloc, children_at(kids.as_slice(), scope.copy(alloc)?))?,
            fallback: Boxed::new(alloc, fallback_at(props.as_slice(), kids.as_slice(), scope))?,
        })),
    }
}

/// Nodes beside each other.
#[cycle(open)]
pub(crate) fn children_layer<'a>(
    alloc: Global,
    page: &Page<'a>,
    before: &'a [Component],
    nodes: &'a [Node],
    scope: Scope<'a>,
) -> Result<Layer<'a>, OutOfMemory>
    ensures layer { IfOk result (λ layer. layer_seen layer
        ≡ children_layer page.now.prefix.now (calls_at page.now before.now) nodes.now scope.entry) }
    ensures few { IfOk result (λ layer. layer.calls ≤ length before.now) }
{
    match nodes.split_first() {
        None => Ok(layer(Shape::Nothing)),
        Some((only, others)) if others.is_empty() => open_node(alloc, page, before, only, scope),
        Some(_) => Ok(layer(Shape::Array {
            kids: kids_of(alloc, nodes, &scope)?,
        })),
    }
}

/// The call of a component with these values.
#[cycle(open)]
pub(crate) fn open_call<'a>(
    alloc: Global,
    page: &Page<'a>,
    components: &'a [Component],
    name: &[u8],
    args: &Scope<'a>,
) -> Result<Layer<'a>, OutOfMemory>
    ensures layer { IfOk result (λ layer. layer_seen layer ≡ calls_at page.now components.now name.now args.now) }
    ensures few { IfOk result (λ layer. layer.calls ≤ length components.now) }
{
    let Some(found) = component_of(components, name) else {
        return Ok(layer(Shape::Nothing));
    };
    let component = found.component;
    let scope = frame(alloc, component.properties.as_slice(), args)?;
    match run(alloc, page, component.stmts.as_slice(), scope)? {
        Ended::Stops(shape) => Ok(Layer { calls: 1, shape }),
        Ended::Goes(scope) => {
            let scope = scope.framed(alloc)?;
            let Layer { calls, shape } = open_node(
                alloc,
                page,
                found.before,
                &component.result,
                scope,
            )?;
            Ok(Layer {
                calls: calls + 1,
                shape,
            })
        }
    }
}

/// A value as a child.
pub(crate) fn value_layer<'a>(alloc: Global, value: &Val<'a>) -> Result<Layer<'a>, OutOfMemory>
    ensures layer { IfOk result (λ layer. layer_seen layer ≡ value_layer value.now) }
    ensures few { IfOk result (λ layer. layer.calls ≡ 0) }
{
    match value.face() {
        Face::Int(number) => Ok(layer(Shape::Text(decimal(alloc, number)?))),
        Face::Text(text) if text.as_bytes().is_empty() => Ok(layer(Shape::Nothing)),
        Face::Text(text) => Ok(layer(Shape::Text(text.copy(alloc)?))),
        Face::List(items) => Ok(layer(Shape::Array {
            kids: items_of(alloc, items)?,
        })),
        _ => Ok(layer(Shape::Nothing)),
    }
}

fn items_of<'a>(alloc: Global, items: &'a [Value]) -> Result<Items<Kin<'a>>, OutOfMemory>
    ensures { IfOk result (λ kids. map place_of kids ≡ map value_place items.now) }
{
    let mut kids = Items::new(alloc);
    for item in items {
        kids.push(Kin {
            spot: Spot::Value(item),
            scope: Scope::empty(alloc),
        })?;
    }
    Ok(kids)
}

fn kids_of<'a>(
    alloc: Global,
    nodes: &'a [Node],
    scope: &Scope<'a>,
) -> Result<Items<Kin<'a>>, OutOfMemory>
    ensures { IfOk result (λ kids. map place_of kids ≡ map (node_place scope.now) nodes.now) }
{
    let mut kids = Items::new(alloc);
    for node in nodes {
        kids.push(Kin {
            spot: Spot::Node(node),
            scope: scope.copy(alloc)?,
        })?;
    }
    Ok(kids)
}

fn children_at<'a>(nodes: &'a [Node], scope: Scope<'a>) -> Kin<'a>
    ensures { place_of result ≡ nodes_place scope.entry nodes.now }
{
    Kin {
        spot: Spot::Children(nodes),
        scope,
    }
}

fn fallback_at<'a>(props: &'a [Entry<Node>], kids: &'a [Node], scope: Scope<'a>) -> Kin<'a>
    ensures { place_of result ≡ fallback_place scope.entry (prop_named (codes "fallback") props.now) }
{
    match prop_of(props, b"fallback") {
        Some(node) => Kin {
            spot: Spot::Node(node),
            scope,
        },
        None => children_at(&kids[..0], scope),
    }
}

/// `list.map((item, number) => body)`
fn map_layer<'a>(
    alloc: Global,
    list: &'a Expr,
    item: &'a Name,
    number: &'a Option<Name>,
    body: &'a Boxed<Node>,
    scope: &Scope<'a>,
) -> Result<Layer<'a>, OutOfMemory>
    ensures layer { IfOk result (λ layer. layer_seen layer
        ≡ opened (map_shape (λ n x. node_place (item_scope item.now number.now scope.now n x) body.now)
        (out-Value (value_of list.now scope.now)))) }
    ensures few { IfOk result (λ layer. layer.calls ≡ 0) }
{
    let list = eval(alloc, list, scope)?;
    let shape = map_of(alloc, &list, item, number, body, scope)?;
    Ok(layer(shape))
}

fn map_of<'a>(
    alloc: Global,
    list: &Val<'a>,
    item: &'a Name,
    number: &'a Option<Name>,
    body: &'a Boxed<Node>,
    scope: &Scope<'a>,
) -> Result<Shape<Kin<'a>>, OutOfMemory>
    ensures { IfOk result (λ shape. place_shape shape
        ≡ map_shape (λ n x. node_place (item_scope item.now number.now scope.now n x) body.now) (out-Value list.now)) }
{
    match list.face() {
        Face::List(items) => Ok(Shape::Array {
            kids: mapped(alloc, items, item, number, body, scope)?,
        }),
        _ => Ok(Shape::Nothing),
    }
}

fn mapped<'a>(
    alloc: Global,
    items: &'a [Value],
    item: &'a Name,
    number: &'a Option<Name>,
    body: &'a Boxed<Node>,
    scope: &Scope<'a>,
) -> Result<Items<Kin<'a>>, OutOfMemory>
    ensures { IfOk result (λ kids. map place_of kids
        ≡ each_item (λ n x. node_place (item_scope item.now number.now scope.now n x) body.now) 0 items.now) }
{
    let mut kids = Items::new(alloc);
    for (n, value) in items.iter().enumerate() {
        kids.push(Kin {
            spot: Spot::Node(body.get()),
            scope: scope_of_item(alloc, item, number, scope, n, value)?,
        })?;
    }
    Ok(kids)
}

fn scope_of_item<'a>(
    alloc: Global,
    item: &'a Name,
    number: &'a Option<Name>,
    scope: &Scope<'a>,
    n: usize,
    value: &'a Value,
) -> Result<Scope<'a>, OutOfMemory>
    ensures { IfOk result (λ own. own ≡ item_scope item.now number.now scope.now n value.now) }
{
    let mut own = scope.copy(alloc)?;
    own.bind(&item.text, Val::given(value))?;
    if let Some(number) = number {
        own.bind(&number.text, number_of(n))?;
    }
    Ok(own)
}

fn number_of<'a>(n: usize) -> Val<'a>
    ensures { result ≡ whole_or_null (pos n) }
{
    match i64::try_from(n) {
        Ok(number) => Val::int(number),
        Err(_) => Val::null(),
    }
}
