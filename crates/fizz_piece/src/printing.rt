//! The printing of positions, one shape after another.

ghost use Rattle.std.specs.Prelude.{◌≡◌, ◌≢◌, ◌++◌, ◌+◌, ◌∷◌, [], ℕ, Bool, false, IfOk, IfErr, OnOk, Some, List};
ghost use Rattle.html_print.specs.Sheets.{Sheet as SheetOf, cut};
ghost use Rattle.jsx_value.specs.Expansions.{IsUnfolded};
ghost use Rattle.jsx_value.specs.Positions.{Page as Spec, shape_of};
ghost use Rattle.jsx_value.specs.SeenPlaces.{place_at, place_of, place_shape};
ghost use Rattle.jsx_value.specs.Spots.{bare_fails, wait};
ghost use Rattle.jsx_value.specs.Weights.{AddsUp};
ghost use Rattle.fizz_piece.specs.Pieces.{failures_of};
ghost use Rattle.fizz_piece.specs.Places.{place_in, position_of};
ghost use Rattle.fizz_piece.specs.Printing.{Cut, element_sheet, hole, is_none, nest, position_sheet, positions_sheet};
ghost use Rattle.fizz_piece.specs.Shapes.{Prints, StandBelow, StandInside, StopsAt, label_of, one_of, page_of, places_of, row_of};

use crate::piece::Kid;
use crate::sheet::{Sheet, Stop};
use fizz_text::{Attributes, OutOfMemory, Path, Text};
use html_print::{is_void_name, push_end_tag, push_start_tag, push_text, push_void_tag};
use jsx_syntax::File;
use jsx_value::{Kin, Scope, Shape, Spot, shape_at};
use settle_script::Outcomes;
use std::alloc::Global;

/// A page, where so many outcomes are known.
#[derive(Clone, Copy)]
pub(crate) struct Page<'a> {
    pub(crate) file: &'a File,
    pub(crate) outcomes: &'a Outcomes,
    pub(crate) settled: u32,
    pub(crate) prefix: &'a Text,
}

/// The shape at a position.
pub(crate) fn shape_of<'a>(
    alloc: Global,
    page: Page<'a>,
    spot: Spot<'a>,
    scope: &Scope<'a>,
) -> Result<Shape<Kin<'a>>, OutOfMemory>
    ensures { IfOk result (λ shape. place_shape shape
        ≡ (shape_of (page_of page.entry) (place_at spot.entry scope.now)).shape) }
{
    let scope = scope.copy(alloc)?;
    shape_at(
        alloc,
        page.file,
        page.outcomes,
        page.settled,
        page.prefix,
        spot,
        scope,
    )
}

/// Prints a position. One that waits is cut out. The recursion goes down the positions.
#[cycle(print)]
fn print_position<'a>(
    alloc: Global,
    page: Page<'a>,
    sheet: &mut Sheet<'a>,
    path: &mut Vec<u32>,
    kin: &Kin<'a>,
) -> Result<(), Stop>
    requires unfolded { IsUnfolded (page_of page) }
    requires adds_up { AddsUp (page_of page) }
    requires stands { place_in (page_of page) path.old.items ≡ Some (place_of kin.now) }
    ensures path { OnOk result (path.new.items ≡ path.old.items) }
    ensures printed { OnOk result (Prints (page_of page.entry)
        (position_sheet path.old.items (position_of (page_of page.entry) (place_of kin.now))) sheet.old sheet.new) }
    ensures sound { OnOk result (failures_of (position_of (page_of page.entry) (place_of kin.now)) ≡ []) }
    ensures stopped { IfErr result (StopsAt (failures_of (position_of (page_of page.entry) (place_of kin.now)))) }
{
    match shape_of(alloc, page, kin.spot, &kin.scope)? {
        Shape::Wait { resource } => {
            push_hole(alloc, sheet, path, kin, resource)?;
            Ok(())
        }
        shape => print_shape(alloc, page, sheet, path, shape),
    }
}

/// Prints what a shape makes at a position that doesn't wait.
#[cycle(print)]
pub(crate) fn print_shape<'a>(
    alloc: Global,
    page: Page<'a>,
    sheet: &mut Sheet<'a>,
    path: &mut Vec<u32>,
    shape: Shape<Kin<'a>>,
) -> Result<(), Stop>
    requires unfolded { IsUnfolded (page_of page) }
    requires adds_up { AddsUp (page_of page) }
    requires waits_not { (resource : List ℕ) → label_of (place_shape shape) ≢ wait resource }
    requires inside { StandInside (page_of page) path.old.items (place_shape shape) }
    ensures path { OnOk result (path.new.items ≡ path.old.items) }
    ensures printed { OnOk result (Prints (page_of page.entry)
        (position_sheet path.old.items (one_of (page_of page.entry) (place_shape shape.entry))) sheet.old sheet.new) }
    ensures sound { OnOk result (failures_of (one_of (page_of page.entry) (place_shape shape.entry)) ≡ []) }
    ensures stopped { IfErr result (StopsAt (failures_of (one_of (page_of page.entry) (place_shape shape.entry)))) }
{
    match shape {
        Shape::Nothing => Ok(()),
        Shape::Text(text) => {
            push_text(&mut sheet.out, sheet.after_text, &text)?;
            sheet.after_text = true;
            Ok(())
        }
        Shape::Element {
            name,
            attributes,
            kids,
        } => print_element(
            alloc,
            page,
            sheet,
            path,
            &name,
            &attributes,
            kids.as_slice(),
        ),
        Shape::Array { kids } => print_kids(alloc, page, sheet, path, kids.as_slice()),
        Shape::Boundary { content, fallback } => {
            push_boundary(
                alloc,
                sheet,
                path,
                content.into_inner(),
                fallback.into_inner(),
            )?;
            Ok(())
        }
        Shape::Wait { .. } => Ok(()),
        Shape::Fail { digest } => Err(Stop::Failed(digest)),
    }
}

/// Prints an element with what is in it.
#[cycle(print)]
fn print_element<'a>(
    alloc: Global,
    page: Page<'a>,
    sheet: &mut Sheet<'a>,
    path: &mut Vec<u32>,
    name: &Text,
    attributes: &Attributes,
    kids: &[Kin<'a>],
) -> Result<(), Stop>
    requires unfolded { IsUnfolded (page_of page) }
    requires adds_up { AddsUp (page_of page) }
    requires below { StandBelow (page_of page) path.old.items (places_of kids.now) }
    ensures path { OnOk result (path.new.items ≡ path.old.items) }
    ensures printed { OnOk result (Prints (page_of page.entry)
        (λ after_text. element_sheet name.now attributes.now (is_none (row_of (page_of page.entry) (places_of kids.now)))
        (positions_sheet path.old.items 0 (row_of (page_of page.entry) (places_of kids.now)))) sheet.old sheet.new) }
    ensures sound { OnOk result (bare_fails (row_of (page_of page.entry) (places_of kids.now)) ≡ []) }
    ensures stopped { IfErr result (StopsAt (bare_fails (row_of (page_of page.entry) (places_of kids.now)))) }
{
    if is_void_name(name) && kids.is_empty() {
        push_void_tag(&mut sheet.out, name, attributes.as_slice())?;
        sheet.after_text = false;
        return Ok(());
    }
    push_start_tag(&mut sheet.out, name, attributes.as_slice())?;
    sheet.after_text = false;
    print_kids(alloc, page, sheet, path, kids)?;
    push_end_tag(&mut sheet.out, name)?;
    sheet.after_text = false;
    Ok(())
}

/// Prints positions beside each other.
#[cycle(print)]
fn print_kids<'a>(
    alloc: Global,
    page: Page<'a>,
    sheet: &mut Sheet<'a>,
    path: &mut Vec<u32>,
    kids: &[Kin<'a>],
) -> Result<(), Stop>
    requires unfolded { IsUnfolded (page_of page) }
    requires adds_up { AddsUp (page_of page) }
    requires below { StandBelow (page_of page) path.old.items (places_of kids.now) }
    ensures path { OnOk result (path.new.items ≡ path.old.items) }
    ensures printed { OnOk result (Prints (page_of page.entry)
        (positions_sheet path.old.items 0 (row_of (page_of page.entry) (places_of kids.now))) sheet.old sheet.new) }
    ensures sound { OnOk result (bare_fails (row_of (page_of page.entry) (places_of kids.now)) ≡ []) }
    ensures stopped { IfErr result (StopsAt (bare_fails (row_of (page_of page.entry) (places_of kids.now)))) }
{
    let depth = path.len();
    let mut number = 0;
    for kid in kids {
        path.push(number)?;
        print_position(alloc, page, sheet, path, kid)?;
        path.truncate(depth);
        number = next(number)?;
    }
    Ok(())
}

/// The number of the next position. As many as a `u32` counts fit into no page.
fn next(number: u32) -> Result<u32, OutOfMemory>
    ensures { IfOk result (λ next. next ≡ number + 1) }
{
    match number.checked_add(1) {
        Some(next) => Ok(next),
        None => Err(OutOfMemory),
    }
}

/// Cuts out a position that waits.
fn push_hole<'a>(
    alloc: Global,
    sheet: &mut Sheet<'a>,
    path: &[u32],
    kin: &Kin<'a>,
    resource: Text,
) -> Result<(), OutOfMemory>
    ensures { (page : Spec) → place_in page path.now ≡ Some (place_of kin.now) →
        OnOk result (Prints page (λ (after_text : Bool) (more : Bool → SheetOf Cut). cut (hole path.now resource after_text) (more false)) sheet.old sheet.new) }
{
    let at = sheet.out.len();
    let lead = sheet.after_text;
    let hole = Kid::Hole {
        at,
        path: path_of(alloc, path)?,
        spot: kin.spot,
        scope: kin.scope.copy(alloc)?,
        resource,
        lead,
    };
    sheet.push_kid(hole)
}

/// Cuts out a boundary.
fn push_boundary<'a>(
    alloc: Global,
    sheet: &mut Sheet<'a>,
    path: &[u32],
    content: Kin<'a>,
    fallback: Kin<'a>,
) -> Result<(), OutOfMemory>
    ensures { (page : Spec) → place_in page (path.now ++ 0 ∷ []) ≡ Some (place_of content.entry) →
        place_in page (path.now ++ 1 ∷ []) ≡ Some (place_of fallback.entry) →
        OnOk result (Prints page (λ (after_text : Bool) (more : Bool → SheetOf Cut). cut (nest path.now) (more false)) sheet.old sheet.new) }
{
    let place = sheet.out.len();
    let boundary = Kid::Boundary {
        at: place,
        path: path_of(alloc, path)?,
        content: content.spot,
        content_scope: content.scope,
        fallback: fallback.spot,
        fallback_scope: fallback.scope,
    };
    sheet.push_kid(boundary)
}

/// The path of these steps.
fn path_of(alloc: Global, steps: &[u32]) -> Result<Path, OutOfMemory>
    ensures { IfOk result (λ path. path ≡ steps.now) }
{
    let mut path = Path::new(alloc);
    for step in steps {
        path.push(*step)?;
    }
    Ok(path)
}
