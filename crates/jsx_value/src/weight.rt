//! The weight of a page.

ghost use Rattle.std.specs.Prelude.{◌≡◌, ◌≤◌, ◌<◌, ◌+◌, ◌++◌, length, sum_by, IfOk, IfErr, OnOk};
ghost use Rattle.jsx_value.specs.Spots.{attribute_weight};
ghost use Rattle.jsx_value.specs.Weights.{AddsUp, IsTooLarge, IsWithin, bytes_weight, inside_of, most_weight, page_weight};
ghost use Rattle.jsx_value.specs.Weighing.{kin_weight, layer_weight, stack_weight};
ghost use Rattle.jsx_value.specs.SeenPlaces.{page_with};
ghost use Rattle.jsx_value.specs.Layers.{page_of};

use crate::expansion_laws::{laws_of_apps, laws_of_expansions};
use crate::page::{Layer, Page};
use crate::place::layer_at;
use crate::scope::Scope;
use crate::shape::Shape;
use crate::spot::{Kin, Spot};
use fizz_text::{Attr, OutOfMemory, Text};
use jsx_syntax::App;
use settle_script::Outcomes;
use sqlite_items::Items;
use std::alloc::{AllocError, Global};

/// The most that a page may weigh.
const MOST_WEIGHT: u32 = 8_000_000;

/// Why a page isn't weighed or expanded.
#[derive(Clone, Copy, Debug, PartialEq, Eq)]
pub enum WeighRefused {
    /// It weighs more than `limit`, which is 8,000,000.
    TooLarge { limit: u32 },
    OutOfMemory,
}

impl From<AllocError> for WeighRefused {
    ghost use Rattle.std.specs.Prelude.{◌≡◌};
    ghost use Rattle.jsx_value.specs.declared.weight.WeighRefused.TheVariants.{OutOfMemory as Memory};

    ghost from_gives = { λ _ e. e ≡ Memory };

    fn from(_error: AllocError) -> WeighRefused {
        WeighRefused::OutOfMemory
    }
}

impl From<OutOfMemory> for WeighRefused {
    ghost use Rattle.std.specs.Prelude.{◌≡◌};
    ghost use Rattle.jsx_value.specs.declared.weight.WeighRefused.TheVariants.{OutOfMemory as Memory};

    ghost from_gives = { λ _ e. e ≡ Memory };

    fn from(_error: OutOfMemory) -> WeighRefused {
        WeighRefused::OutOfMemory
    }
}

/// The weight of the page that an app makes under the first `settled` outcomes: for each position 1, 1 for each call
/// that is opened on the way, and the bytes of its text, of its printed attributes, or of its digest. It stops once the
/// weight passes 8,000,000.
pub fn weigh(
    alloc: Global,
    app: &App,
    outcomes: &Outcomes,
    settled: u32,
    prefix: &Text,
) -> Result<u32, WeighRefused>
    ensures weight { IfOk result (λ weight. weight
        ≡ page_weight (page_with app.now outcomes.now settled prefix.now)) }
    ensures within { IfOk result (λ weight. weight ≤ most_weight) }
    ensures refused { IfErr result
        (IsTooLarge (page_weight (page_with app.now outcomes.now settled prefix.now))) }
{
    laws_of_apps();
    laws_of_expansions();
    let file = app.file();
    let page = Page {
        components: file.components.as_slice(),
        outcomes,
        settled,
        prefix,
    };
    weigh_page(alloc, &page)
}

fn weigh_page<'a>(alloc: Global, page: &Page<'a>) -> Result<u32, WeighRefused>
    requires { AddsUp (page_of page.now) }
    ensures weight { IfOk result (λ weight. weight ≡ page_weight (page_of page.now)) }
    ensures within { IfOk result (λ weight. weight ≤ most_weight) }
    ensures refused { IfErr result (IsTooLarge (page_weight (page_of page.now))) }
{
    let mut stack: Items<Kin<'a>> = Items::new(alloc);
    stack.push(Kin {
        spot: Spot::Root,
        scope: Scope::empty(alloc),
    })?;
    let mut total: u32 = 0;
    while let Some(kin) = stack.pop() {
        total = weigh_position(alloc, page, kin, &mut stack, total)?;
    }
    Ok(total)
}

/// Adds what a position weighs by itself, and puts the positions inside it on the stack.
fn weigh_position<'a>(
    alloc: Global,
    page: &Page<'a>,
    kin: Kin<'a>,
    stack: &mut Items<Kin<'a>>,
    total: u32,
) -> Result<u32, WeighRefused>
    requires { AddsUp (page_of page.now) }
    ensures same { IfOk result (λ sum. sum + stack_weight (page_of page.now) stack.new ≡ total
        + (stack_weight (page_of page.now) stack.old + kin_weight (page_of page.now) kin.entry)) }
    ensures within { IfOk result (λ sum. sum ≤ most_weight) }
    ensures smaller { OnOk result (stack_weight (page_of page.now) stack.new
        < stack_weight (page_of page.now) stack.old + kin_weight (page_of page.now) kin.entry) }
    ensures refused { IfErr result (IsTooLarge (total + kin_weight (page_of page.now) kin.entry)) }
{
    let layer = layer_at(alloc, page, kin.spot, kin.scope)?;
    let Some(sum) = layer_added(total, &layer) else {
        return Err(WeighRefused::TooLarge { limit: MOST_WEIGHT });
    };
    push_inside(stack, layer.shape)?;
    Ok(sum)
}

/// Puts the positions inside a shape on the stack.
fn push_inside<'a>(stack: &mut Items<Kin<'a>>, shape: Shape<Kin<'a>>) -> Result<(), AllocError>
    ensures { OnOk result (stack.new ≡ stack.old ++ inside_of shape.entry) }
{
    match shape {
        Shape::Element { kids, .. } => stack.append(kids),
        Shape::Array { kids } => stack.append(kids),
        Shape::Boundary { content, fallback } => {
            stack.push(content.into_inner())?;
            stack.push(fallback.into_inner())
        }
        _ => Ok(()),
    }
}

fn layer_added<'a>(total: u32, layer: &Layer<'a>) -> Option<u32>
    ensures { IsWithin (total + layer_weight layer.now) result }
{
    let Some(total) = added(total, layer.calls) else {
        return None;
    };
    let Some(total) = added(total, 1) else {
        return None;
    };
    shape_added(total, &layer.shape)
}

fn shape_added<'a>(total: u32, shape: &Shape<Kin<'a>>) -> Option<u32>
    ensures { IsWithin (total + bytes_weight shape.now) result }
{
    match shape {
        Shape::Text(text) => added(total, text.as_bytes().len() as u64),
        Shape::Element { attributes, .. } => attributes_added(total, attributes.as_slice()),
        Shape::Fail { digest } => added(total, digest.as_bytes().len() as u64),
        _ => added(total, 0),
    }
}

fn attributes_added(total: u32, attributes: &[Attr]) -> Option<u32>
    ensures { IsWithin (total + sum_by attribute_weight attributes.now) result }
{
    let Some(mut sum) = added(total, 0) else {
        return None;
    };
    for attribute in attributes {
        match attribute_added(sum, attribute) {
            Some(more) => sum = more,
            None => return None,
        }
    }
    Some(sum)
}

fn attribute_added(total: u32, attribute: &Attr) -> Option<u32>
    ensures { IsWithin (total + attribute_weight attribute.now) result }
{
    let Some(total) = added(total, attribute.name.as_bytes().len() as u64) else {
        return None;
    };
    match &attribute.value {
        Some(value) => added(total, value.as_bytes().len() as u64),
        None => Some(total),
    }
}

/// The sum, where it isn't more than a page may weigh.
fn added(total: u32, more: u64) -> Option<u32>
    ensures { IsWithin (total + more) result }
{
    let sum = u64::from(total).saturating_add(more);
    if sum <= u64::from(MOST_WEIGHT) {
        Some(sum as u32)
    } else {
        None
    }
}
