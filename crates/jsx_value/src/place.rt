//! The shape at a position.

ghost use Rattle.std.specs.Prelude.{◌≡◌, [], map, codes, IfOk};
ghost use Rattle.jsx_value.specs.Positions.{open_children, open_value, places, shape_of};
ghost use Rattle.jsx_value.specs.SeenPlaces.{place_at, place_shape, page_with};
ghost use Rattle.jsx_value.specs.Layers.{layer_seen, calls_at, openable, page_of};

use crate::open::{children_layer, open_call, open_node, value_layer};
use crate::page::{Layer, Page};
use crate::scope::Scope;
use crate::shape::Shape;
use crate::spot::{Kin, Spot};
use crate::val::Val;
use fizz_text::{OutOfMemory, Text};
use jsx_syntax::{File, Node};
use settle_script::{Outcomes, Value};
use std::alloc::Global;

/// The shape at a position of the page that a file makes under the first `settled` outcomes, with ids under a prefix.
/// A name that isn't in scope is Null, and a component that isn't there is nothing.
pub fn shape_at<'a>(
    alloc: Global,
    file: &'a File,
    outcomes: &'a Outcomes,
    settled: u32,
    prefix: &'a Text,
    spot: Spot<'a>,
    scope: Scope<'a>,
) -> Result<Shape<Kin<'a>>, OutOfMemory>
    ensures { IfOk result (λ shape. place_shape shape
        ≡ (shape_of (page_with file.now outcomes.now settled prefix.now) (place_at spot.entry scope.entry)).shape) }
{
    let page = Page {
        components: file.components.as_slice(),
        outcomes,
        settled,
        prefix,
    };
    let Layer { shape, .. } = layer_at(alloc, &page, spot, scope)?;
    Ok(shape)
}

/// The same, with the number of calls that were opened.
pub(crate) fn layer_at<'a>(
    alloc: Global,
    page: &Page<'a>,
    spot: Spot<'a>,
    scope: Scope<'a>,
) -> Result<Layer<'a>, OutOfMemory>
    ensures { IfOk result (λ layer. layer_seen layer ≡ shape_of (page_of page.now) (place_at spot.entry scope.entry)) }
{
    match spot {
        Spot::Root => root_layer(alloc, page),
        Spot::Node(node) => open_node(alloc, page, page.components, node, scope),
        Spot::Children(nodes) => siblings_layer(alloc, page, nodes, scope),
        Spot::Value(value) => item_layer(alloc, value),
    }
}

fn root_layer<'a>(alloc: Global, page: &Page<'a>) -> Result<Layer<'a>, OutOfMemory>
    ensures { IfOk result (λ layer. layer_seen layer ≡ calls_at page.now page.now.components.now (codes "App") []) }
{
    let args: Scope<'a> = Scope::empty(alloc);
    open_call(alloc, page, page.components, b"App", &args)
}

fn siblings_layer<'a>(
    alloc: Global,
    page: &Page<'a>,
    nodes: &'a [Node],
    scope: Scope<'a>,
) -> Result<Layer<'a>, OutOfMemory>
    ensures { IfOk result (λ layer. layer_seen layer
        ≡ open_children places.node (map (openable page.now.prefix.now (calls_at page.now page.now.components.now)) nodes.now) scope.entry) }
{
    children_layer(alloc, page, page.components, nodes, scope)
}

fn item_layer<'a>(alloc: Global, value: &'a Value) -> Result<Layer<'a>, OutOfMemory>
    ensures { IfOk result (λ layer. layer_seen layer ≡ open_value places value.now) }
{
    let value = Val::given(value);
    value_layer(alloc, &value)
}
