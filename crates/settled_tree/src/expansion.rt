//! The expansion of a page.

ghost use Rattle.std.specs.Prelude.{◌≡◌, ◌≤◌, ◌<◌, ◌++◌, ◌∷◌, [], map, IfOk, IfErr, OnOk};
ghost use Rattle.jsx_value.specs.Weights.{IsTooLarge, most_weight, page_weight};
ghost use Rattle.jsx_value.specs.SeenPlaces.{page_with, place_of};
ghost use Rattle.settled_tree.specs.Forests.{forest_of};
ghost use Rattle.settled_tree.specs.Layers.{Unfolds, page_of, kin_weight, kids_weight, place_nodes, nodes_in_row};

use crate::forest::{FNode, Forest};
use fizz_text::{OutOfMemory, Path, Text};
use jsx_syntax::{App, File};
use jsx_value::{
    Kin, Scope, Shape, Spot, WeighRefused, laws_of_apps, laws_of_expansions, shape_at, weigh,
};
use settle_script::Outcomes;
use sqlite_items::Items;
use std::alloc::Global;

/// What a page is made of.
#[derive(Clone, Copy)]
pub(crate) struct Page<'a> {
    pub(crate) file: &'a File,
    pub(crate) outcomes: &'a Outcomes,
    pub(crate) settled: u32,
    pub(crate) prefix: &'a Text,
}

/// The expansion of the page that an app makes under the first `settled` outcomes, with ids under a prefix. It is
/// refused where the page weighs more than 8,000,000.
pub fn expand(
    alloc: Global,
    app: &App,
    outcomes: &Outcomes,
    settled: u32,
    prefix: &Text,
) -> Result<Forest, WeighRefused>
    ensures nodes { IfOk result (λ forest. forest.nodes
        ≡ forest_of (page_with app.now outcomes.now settled prefix.now)) }
    ensures within { IfOk result (λ forest.
        page_weight (page_with app.now outcomes.now settled prefix.now) ≤ most_weight) }
    ensures refused { IfErr result
        (IsTooLarge (page_weight (page_with app.now outcomes.now settled prefix.now))) }
{
    laws_of_apps();
    laws_of_expansions();
    weigh(alloc, app, outcomes, settled, prefix)?;
    let page = Page {
        file: app.file(),
        outcomes,
        settled,
        prefix,
    };
    let nodes = root_nodes(alloc, &page)?;
    Ok(Forest { nodes })
}

fn root_nodes<'a>(alloc: Global, page: &Page<'a>) -> Result<Items<FNode>, OutOfMemory>
    requires unfolds { Unfolds (page_of page.now) }
    requires small { page_weight (page_of page.now) ≤ most_weight }
    ensures { IfOk result (λ nodes. nodes ≡ forest_of (page_of page.now)) }
{
    let root = Kin {
        spot: Spot::Root,
        scope: Scope::empty(alloc),
    };
    let mut steps = Items::new(alloc);
    let mut nodes = Items::new(alloc);
    push_position(alloc, page, root, &mut steps, &mut nodes)?;
    Ok(nodes)
}

/// The recursion goes down the positions: at most 256 nodes of the source and 100 lists of a value lie in one another.
#[cycle(expand)]
fn push_position<'a>(
    alloc: Global,
    page: &Page<'a>,
    kin: Kin<'a>,
    steps: &mut Items<u32>,
    nodes: &mut Items<FNode>,
) -> Result<(), OutOfMemory>
    requires unfolds { Unfolds (page_of page.now) }
    requires small { kin_weight (page_of page.now) kin ≤ most_weight }
    ensures nodes { OnOk result (nodes.new
        ≡ nodes.old ++ place_nodes (page_of page.now) steps.old (place_of kin.entry)) }
    ensures steps { OnOk result (steps.new ≡ steps.old) }
{
    let shape = shape_at(
        alloc,
        page.file,
        page.outcomes,
        page.settled,
        page.prefix,
        kin.spot,
        kin.scope,
    )?;
    match shape {
        Shape::Nothing => {}
        Shape::Text(text) => nodes.push(FNode::Text(text))?,
        Shape::Element {
            name,
            attributes,
            kids,
        } => {
            let mut inner = Items::new(alloc);
            push_positions(alloc, page, kids.as_slice(), steps, &mut inner)?;
            nodes.push(FNode::Element {
                name,
                attributes,
                kids: inner,
            })?;
        }
        Shape::Array { kids } => push_positions(alloc, page, kids.as_slice(), steps, nodes)?,
        Shape::Boundary { content, fallback } => {
            let content = nodes_of_child(alloc, page, content.get(), 0, steps)?;
            let fallback = nodes_of_child(alloc, page, fallback.get(), 1, steps)?;
            nodes.push(FNode::Boundary {
                path: path_of(alloc, steps.as_slice())?,
                content,
                fallback,
            })?;
        }
        Shape::Wait { resource } => nodes.push(FNode::Wait {
            resource,
            path: path_of(alloc, steps.as_slice())?,
        })?,
        Shape::Fail { digest } => nodes.push(FNode::Fail(digest))?,
    }
    Ok(())
}

/// The nodes of positions beside each other, inside the one at the path, numbered from 0.
#[cycle(expand)]
fn push_positions<'a>(
    alloc: Global,
    page: &Page<'a>,
    kids: &[Kin<'a>],
    steps: &mut Items<u32>,
    nodes: &mut Items<FNode>,
) -> Result<(), OutOfMemory>
    requires unfolds { Unfolds (page_of page.now) }
    requires small { kids_weight (page_of page.now) kids.now ≤ most_weight }
    ensures nodes { OnOk result (nodes.new
        ≡ nodes.old ++ nodes_in_row (page_of page.now) steps.old 0 (map place_of kids.now)) }
    ensures steps { OnOk result (steps.new ≡ steps.old) }
{
    let mut number: u32 = 0;
    for kin in kids {
        push_child(alloc, page, kin, number, steps, nodes)?;
        number += 1;
    }
    Ok(())
}

/// The nodes of the position of a number inside the one at the path.
#[cycle(expand)]
fn push_child<'a>(
    alloc: Global,
    page: &Page<'a>,
    kin: &Kin<'a>,
    number: u32,
    steps: &mut Items<u32>,
    nodes: &mut Items<FNode>,
) -> Result<(), OutOfMemory>
    requires unfolds { Unfolds (page_of page.now) }
    requires small { kin_weight (page_of page.now) kin.now ≤ most_weight }
    ensures nodes { OnOk result (nodes.new ≡ nodes.old
        ++ place_nodes (page_of page.now) (steps.old ++ number ∷ []) (place_of kin.now)) }
    ensures steps { OnOk result (steps.new ≡ steps.old) }
{
    let child = Kin {
        spot: kin.spot,
        scope: kin.scope.copy(alloc)?,
    };
    steps.push(number)?;
    push_position(alloc, page, child, steps, nodes)?;
    steps.pop();
    Ok(())
}

/// The content or the fallback of the boundary at the path.
#[cycle(expand)]
fn nodes_of_child<'a>(
    alloc: Global,
    page: &Page<'a>,
    kin: &Kin<'a>,
    number: u32,
    steps: &mut Items<u32>,
) -> Result<Items<FNode>, OutOfMemory>
    requires unfolds { Unfolds (page_of page.now) }
    requires small { kin_weight (page_of page.now) kin.now ≤ most_weight }
    ensures nodes { IfOk result (λ nodes. nodes
        ≡ place_nodes (page_of page.now) (steps.old ++ number ∷ []) (place_of kin.now)) }
    ensures steps { OnOk result (steps.new ≡ steps.old) }
{
    let mut nodes = Items::new(alloc);
    push_child(alloc, page, kin, number, steps, &mut nodes)?;
    Ok(nodes)
}

fn path_of(alloc: Global, steps: &[u32]) -> Result<Path, OutOfMemory>
    ensures { IfOk result (λ path. path ≡ steps.now) }
{
    let mut path = Path::new(alloc);
    for step in steps {
        path.push(*step)?;
    }
    Ok(path)
}
