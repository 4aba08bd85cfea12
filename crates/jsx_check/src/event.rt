//! A file as events in the order of its text.

ghost use Rattle.std.specs.Prelude.{◌≡◌, [], ◌∷◌, ◌++◌, map, IfOk, OnOk};
ghost use Rattle.std.specs.List.{flat_map};
ghost use Rattle.jsx_syntax.specs.Rules.{is_fallback_of, names_of};
ghost use Rattle.jsx_check.specs.Events.{all_events, attribute_events, binds, component_events, node_events, statement_events, uses};
ghost use Rattle.jsx_check.specs.SeenEvents.{attribute_event, bind_events, event_of, of_entry, owner_of, unbind_events};

use crate::components::is_fallback;
use crate::names::Names;
use fizz_text::OutOfMemory;
use jsx_syntax::{Component, Entry, Expr, Name, Node, Stmt};
use std::alloc::Global;

/// Whose attribute it is.
#[derive(Clone, Copy, Drop)]
pub enum Owner<'a> {
    Html,
    Suspense,
    Component(&'a Name),
}

/// What happens where a name stands, and where a scope or a fallback ends.
#[derive(Clone, Copy, Drop)]
pub enum Event<'a> {
    /// A component begins.
    Defines(&'a Name),
    /// A component ends.
    Ends(&'a Name),
    /// A name in an expression.
    Uses(&'a Name),
    /// A property, a constant or a variable of a map comes into scope.
    Binds(&'a Name),
    /// The last of them goes out of scope.
    Unbinds,
    /// An element of HTML.
    Opens(&'a Name),
    /// The element of a component.
    Calls(&'a Name),
    /// `Suspense`.
    Bounds(&'a Name),
    /// An attribute, and whether one of its name stands before it.
    Gives {
        name: &'a Name,
        owner: Owner<'a>,
        twice: bool,
    },
    /// The value of `fallback` begins.
    Enters,
    /// It ends.
    Leaves,
}

/// Appends the names of an expression. It goes down with the expression's nesting, at most 200 in a file that was parsed.
#[cycle(names)]
pub fn push_names<'a>(out: &mut Vec<Event<'a>>, expr: &'a Expr) -> Result<(), OutOfMemory>
    ensures { OnOk result (map event_of out.new.items
        ≡ map event_of out.old.items ++ map uses (names_of expr.now)) }
{
    match expr {
        Expr::Null => Ok(()),
        Expr::Bool(_) => Ok(()),
        Expr::Int(_) => Ok(()),
        Expr::Text(_) => Ok(()),
        Expr::Name(name) => push_event(out, Event::Uses(name)),
        Expr::Member { of, names: _ } => push_names(out, of.get()),
        Expr::Not(operand) => push_names(out, operand.get()),
        Expr::Sum(operands) => push_all_names(out, operands.as_slice()),
        Expr::And(operands) => push_all_names(out, operands.as_slice()),
        Expr::Or(operands) => push_all_names(out, operands.as_slice()),
        Expr::Equal {
            left,
            right,
            negated: _,
        } => {
            push_names(out, left.get())?;
            push_names(out, right.get())
        }
        Expr::Choose { test, yes, no } => {
            push_names(out, test.get())?;
            push_names(out, yes.get())?;
            push_names(out, no.get())
        }
    }
}

/// The same of several expressions.
#[cycle(names)]
fn push_all_names<'a>(out: &mut Vec<Event<'a>>, exprs: &'a [Expr]) -> Result<(), OutOfMemory>
    ensures { OnOk result (map event_of out.new.items
        ≡ map event_of out.old.items ++ map uses (flat_map names_of exprs.now)) }
{
    for expr in exprs {
        push_names(out, expr)?;
    }
    Ok(())
}

/// The events of a file's components.
pub fn events_of<'a>(
    alloc: Global,
    components: &'a [Component],
) -> Result<Vec<Event<'a>>, OutOfMemory>
    ensures { IfOk result (λ events. map event_of events.items
        ≡ flat_map component_events components.now) }
{
    let mut events: Vec<Event<'a>> = Vec::new(alloc);
    push_components(alloc, &mut events, components)?;
    Ok(events)
}

/// Appends the events of a file's components.
fn push_components<'a>(
    alloc: Global,
    out: &mut Vec<Event<'a>>,
    components: &'a [Component],
) -> Result<(), OutOfMemory>
    ensures { OnOk result (map event_of out.new.items
        ≡ map event_of out.old.items ++ flat_map component_events components.now) }
{
    for component in components {
        push_component(alloc, out, component)?;
    }
    Ok(())
}

fn push_component<'a>(
    alloc: Global,
    out: &mut Vec<Event<'a>>,
    component: &'a Component,
) -> Result<(), OutOfMemory>
    ensures { OnOk result (map event_of out.new.items
        ≡ map event_of out.old.items ++ component_events component.now) }
{
    push_event(out, Event::Defines(&component.name))?;
    push_properties(out, component.properties.as_slice())?;
    push_stmts(out, component.stmts.as_slice())?;
    push_node(alloc, out, &component.result)?;
    push_event(out, Event::Ends(&component.name))
}

fn push_properties<'a>(out: &mut Vec<Event<'a>>, names: &'a [Name]) -> Result<(), OutOfMemory>
    ensures { OnOk result (map event_of out.new.items
        ≡ map event_of out.old.items ++ map binds names.now) }
{
    for name in names {
        push_event(out, Event::Binds(name))?;
    }
    Ok(())
}

fn push_stmts<'a>(out: &mut Vec<Event<'a>>, stmts: &'a [Stmt]) -> Result<(), OutOfMemory>
    ensures { OnOk result (map event_of out.new.items
        ≡ map event_of out.old.items ++ flat_map statement_events stmts.now) }
{
    for stmt in stmts {
        push_stmt(out, stmt)?;
    }
    Ok(())
}

fn push_stmt<'a>(out: &mut Vec<Event<'a>>, stmt: &'a Stmt) -> Result<(), OutOfMemory>
    ensures { OnOk result (map event_of out.new.items
        ≡ map event_of out.old.items ++ statement_events stmt.now) }
{
    match stmt {
        Stmt::Fetch { name, resource } => {
            push_names(out, resource)?;
            push_event(out, Event::Binds(name))
        }
        Stmt::Bind { name, value } => {
            push_names(out, value)?;
            push_event(out, Event::Binds(name))
        }
        Stmt::Throw { test, digest } => {
            push_names(out, test)?;
            push_names(out, digest)
        }
    }
}

/// Appends the events of a node. It goes down with the node's nesting, at most 200 in a file that was parsed.
#[cycle(nodes)]
pub fn push_node<'a>(
    alloc: Global,
    out: &mut Vec<Event<'a>>,
    node: &'a Node,
) -> Result<(), OutOfMemory>
    ensures { OnOk result (map event_of out.new.items
        ≡ map event_of out.old.items ++ node_events node.now) }
{
    match node {
        Node::Value(expr) => push_names(out, expr),
        Node::Choose { test, yes, no } => {
            push_names(out, test)?;
            push_node(alloc, out, yes.get())?;
            push_node(alloc, out, no.get())
        }
        Node::And { left, last } => {
            push_all_names(out, left.as_slice())?;
            push_node(alloc, out, last.get())
        }
        Node::Or { left, last } => {
            push_all_names(out, left.as_slice())?;
            push_node(alloc, out, last.get())
        }
        Node::Array(items) => push_nodes(alloc, out, items.as_slice()),
        Node::Map {
            list,
            item,
            number,
            body,
        } => {
            push_names(out, list)?;
            push_binds(out, item, number)?;
            push_node(alloc, out, body.get())?;
            push_unbinds(out, number)
        }
        Node::Host { name, props, kids } => {
            push_event(out, Event::Opens(name))?;
            push_props(alloc, out, Owner::Html, props.as_slice())?;
            push_nodes(alloc, out, kids.as_slice())
        }
        Node::Call { name, props } => {
            push_event(out, Event::Calls(name))?;
            push_props(alloc, out, Owner::Component(name), props.as_slice())
        }
        Node::Fragment(kids) => push_nodes(alloc, out, kids.as_slice()),
        Node::Suspense { name, props, kids } => {
            push_event(out, Event::Bounds(name))?;
            push_props(alloc, out, Owner::Suspense, props.as_slice())?;
            push_nodes(alloc, out, kids.as_slice())
        }
    }
}

/// The same of several nodes.
#[cycle(nodes)]
fn push_nodes<'a>(
    alloc: Global,
    out: &mut Vec<Event<'a>>,
    nodes: &'a [Node],
) -> Result<(), OutOfMemory>
    ensures { OnOk result (map event_of out.new.items
        ≡ map event_of out.old.items ++ all_events (map node_events nodes.now)) }
{
    for node in nodes {
        push_node(alloc, out, node)?;
    }
    Ok(())
}

/// The events of an element's attributes.
#[cycle(nodes)]
fn push_props<'a>(
    alloc: Global,
    out: &mut Vec<Event<'a>>,
    owner: Owner<'a>,
    props: &'a [Entry<Node>],
) -> Result<(), OutOfMemory>
    ensures { OnOk result (map event_of out.new.items ≡ map event_of out.old.items
        ++ attribute_events (owner_of owner.entry) [] (map (of_entry node_events) props.now)) }
{
    let mut earlier = Names::new(alloc);
    let mut left = props.len();
    for prop in props {
        let twice = earlier.has(&prop.name.text);
        push_prop(alloc, out, owner, twice, &prop.name, &prop.value)?;
        left -= 1;
        // Nothing is kept of the last, so that one attribute takes no memory.
        if left > 0 {
            earlier.push(&prop.name.text)?;
        }
    }
    Ok(())
}

/// The events of one attribute.
#[cycle(nodes)]
fn push_prop<'a>(
    alloc: Global,
    out: &mut Vec<Event<'a>>,
    owner: Owner<'a>,
    twice: bool,
    name: &'a Name,
    value: &'a Node,
) -> Result<(), OutOfMemory>
    ensures { OnOk result (map event_of out.new.items ≡ map event_of out.old.items
        ++ attribute_event (owner_of owner.entry) twice name.now value.now) }
{
    push_event(out, Event::Gives { name, owner, twice })?;
    if !holds_fallback(owner, name) {
        return push_node(alloc, out, value);
    }
    push_event(out, Event::Enters)?;
    push_node(alloc, out, value)?;
    push_event(out, Event::Leaves)
}

/// Whether the attribute's value is a fallback.
fn holds_fallback(owner: Owner, name: &Name) -> bool
    ensures { result ≡ is_fallback_of (owner_of owner.entry) name.now.text }
{
    match owner {
        Owner::Html => false,
        Owner::Suspense => is_fallback(&name.text),
        Owner::Component(_) => false,
    }
}

/// The variables of a map come into scope.
fn push_binds<'a>(
    out: &mut Vec<Event<'a>>,
    item: &'a Name,
    number: &'a Option<Name>,
) -> Result<(), OutOfMemory>
    ensures { OnOk result (map event_of out.new.items
        ≡ map event_of out.old.items ++ bind_events item.now number.now) }
{
    push_event(out, Event::Binds(item))?;
    match number {
        Some(number) => push_event(out, Event::Binds(number)),
        None => Ok(()),
    }
}

/// They go out of scope.
fn push_unbinds<'a>(out: &mut Vec<Event<'a>>, number: &Option<Name>) -> Result<(), OutOfMemory>
    ensures { OnOk result (map event_of out.new.items
        ≡ map event_of out.old.items ++ unbind_events number.now) }
{
    push_event(out, Event::Unbinds)?;
    match number {
        Some(_) => push_event(out, Event::Unbinds),
        None => Ok(()),
    }
}

fn push_event<'a>(out: &mut Vec<Event<'a>>, event: Event<'a>) -> Result<(), OutOfMemory>
    ensures { OnOk result (map event_of out.new.items
        ≡ map event_of out.old.items ++ event_of event.entry ∷ []) }
{
    out.push(event)?;
    Ok(())
}
