//! How deep the nodes of components are when the components that they call are opened.

ghost use Rattle.std.specs.Prelude.{◌≡◌, ◌+◌, ◌∷◌, ℕ, List, map, max, IfOk, OnOk};
ghost use Rattle.jsx_syntax.specs.Rules.{app_depth, deepest, deepest_value, depth_of};
ghost use Rattle.jsx_syntax.specs.declared.file.Component.{Component};
ghost use Rattle.jsx_check.specs.Checks.{told_as};
ghost use Rattle.jsx_check.specs.Depths.{Tells, node_depth};
ghost use Rattle.jsx_check.specs.SeenEvents.{of_entry};

use fizz_text::OutOfMemory;
use jsx_syntax::{Component, Entry, File, Node};
use std::alloc::Global;
use std::collections::BTreeMap;

/// The depth of the node that `App` returns, or 0 where there is no `App`. It stays at the greatest of 32 bits.
///
/// The depth of each component is kept by its name and looked up where it is called.
pub fn app_depth(alloc: Global, file: &File) -> Result<u32, OutOfMemory>
    ensures { IfOk result (λ depth. depth ≡ told_as (app_depth file.now)) }
{
    let mut depths = BTreeMap::new(alloc);
    for component in file.components.as_slice() {
        add(&mut depths, component)?;
    }
    Ok(depth_at(&depths, "App"))
}

/// Adds the depth of the next component.
fn add<'a>(depths: &mut BTreeMap<&'a str, u32>, component: &'a Component) -> Result<(), OutOfMemory>
    ensures { (earlier : List Component) → Tells depths.old (depth_of earlier) →
        OnOk result (Tells depths.new (depth_of (component.now ∷ earlier))) }
{
    let depth = node_depth(depths, &component.result);
    depths.insert(component.name.text.as_str(), depth)?;
    Ok(())
}

/// The depth of the component of a name.
fn depth_at(depths: &BTreeMap<&str, u32>, name: &str) -> u32
    ensures { (called : List ℕ → ℕ) → Tells depths.now called →
        result ≡ told_as (called name.now) }
{
    depths.get(name).copied().unwrap_or(0)
}

/// The depth of a node. It goes down with the node's nesting, at most 200 in a file that was parsed.
#[cycle(depths)]
fn node_depth(depths: &BTreeMap<&str, u32>, node: &Node) -> u32
    ensures { (called : List ℕ → ℕ) → Tells depths.now called →
        result ≡ told_as (node_depth called node.now) }
{
    match node {
        Node::Value(_) => 1,
        Node::Choose { test: _, yes, no } => {
            let yes = node_depth(depths, yes.get());
            above(greater(yes, node_depth(depths, no.get())))
        },
        Node::And { left: _, last } => above(node_depth(depths, last.get())),
        Node::Or { left: _, last } => above(node_depth(depths, last.get())),
        Node::Array(items) => above(list_depth(depths, items.as_slice())),
        Node::Map {
            list: _,
            item: _,
            number: _,
            body,
        } => above(node_depth(depths, body.get())),
        Node::Host {
            name: _,
            props,
            kids,
        } => {
            let props = values_depth(depths, props.as_slice());
            above(greater(props, list_depth(depths, kids.as_slice())))
        },
        Node::Call { name, props: _ } => above(depth_at(depths, name.text.as_str())),
        Node::Fragment(kids) => above(list_depth(depths, kids.as_slice())),
        Node::Suspense {
            name: _,
            props,
            kids,
        } => {
            let props = values_depth(depths, props.as_slice());
            above(greater(props, list_depth(depths, kids.as_slice())))
        },
    }
}

/// The depth of the deepest of several nodes.
#[cycle(depths)]
fn list_depth(depths: &BTreeMap<&str, u32>, nodes: &[Node]) -> u32
    ensures { (called : List ℕ → ℕ) → Tells depths.now called →
        result ≡ told_as (deepest (map (node_depth called) nodes.now)) }
{
    let mut most = 0;
    for node in nodes {
        most = greater(most, node_depth(depths, node));
    }
    most
}

/// The depth of the deepest value of an element's attributes.
#[cycle(depths)]
fn values_depth(depths: &BTreeMap<&str, u32>, props: &[Entry<Node>]) -> u32
    ensures { (called : List ℕ → ℕ) → Tells depths.now called → result
        ≡ told_as (deepest_value (map (of_entry (node_depth called)) props.now)) }
{
    let mut most = 0;
    for prop in props {
        most = greater(most, node_depth(depths, &prop.value));
    }
    most
}

/// One more than a depth.
fn above(below: u32) -> u32
    ensures { (n : ℕ) → below ≡ told_as n → result ≡ told_as (1 + n) }
{
    below.saturating_add(1)
}

fn greater(a: u32, b: u32) -> u32
    ensures { (m n : ℕ) → a ≡ told_as m → b ≡ told_as n → result ≡ told_as (max m n) }
{
    if a < b { b } else { a }
}
