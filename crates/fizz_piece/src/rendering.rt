//! The rendering of a piece.

ghost use Rattle.std.specs.Prelude.{◌≡◌, ◌≢◌, ◌&&◌, ℕ, List, Some, IfOk, IfErr};
ghost use Rattle.jsx_syntax.specs.Rules.{IsApp};
ghost use Rattle.jsx_value.specs.Expansions.{IsUnfolded};
ghost use Rattle.jsx_value.specs.SeenPlaces.{place_at, place_shape};
ghost use Rattle.jsx_value.specs.Spots.{wait};
ghost use Rattle.jsx_value.specs.Weights.{AddsUp};
ghost use Rattle.fizz_piece.specs.Pieces.{IsGoodWork, IsPieceOf, failures_of, page_under};
ghost use Rattle.fizz_piece.specs.Places.{place_in};
ghost use Rattle.fizz_piece.specs.Shapes.{IsOutcome, IsSheetOf, IsStopOf, StandInside, StopsAt, label_of, one_of, page_of};

use crate::piece::{Piece, PieceMemory};
use crate::plan::Plan;
use crate::printing::{Page, print_shape, shape_of};
use crate::sheet::{Sheet, Stop};
use crate::work::{Flags, Work};
use fizz_text::Text;
use html_print::push_separator;
use jsx_value::{Kin, Shape, laws_of_apps, laws_of_expansions};
use sqlite_items::Items;
use std::alloc::Global;

/// The piece of a work: `Blocked` exactly where its own position waits, `Failed` exactly where it doesn't and a failure
/// stands outside the boundaries inside, and else its bytes with what was cut out of them. The work comes back equal.
///
/// Goes once over the positions of the piece. The recursion is as deep as they nest: at most 256 nodes of the source and
/// 100 lists of a value.
pub fn render_piece<'a>(
    alloc: Global,
    plan: &Plan<'a>,
    work: Work<'a>,
) -> Result<Piece<'a>, PieceMemory<'a>>
    requires { IsGoodWork plan.now work }
    ensures piece { IfOk result (IsPieceOf plan.now work.entry) }
    ensures memory { IfErr result (λ refused. refused.work ≡ work.entry) }
{
    match outcome_of(alloc, plan, &work) {
        Ok(Outcome::Printed(sheet)) => Ok(Piece::Done {
            work,
            bytes: sheet.out,
            kids: sheet.kids,
        }),
        Ok(Outcome::Waits(resource)) => Ok(Piece::Blocked { work, resource }),
        Err(Stop::Failed(digest)) => Ok(Piece::Failed { work, digest }),
        Err(Stop::OutOfMemory) => Err(PieceMemory { work }),
    }
}

/// What the position of a work comes to, unless it fails.
#[derive(Drop)]
pub(crate) enum Outcome<'a> {
    Printed(Sheet<'a>),
    Waits(Text),
}

fn outcome_of<'a>(alloc: Global, plan: &Plan<'a>, work: &Work<'a>) -> Result<Outcome<'a>, Stop>
    requires { IsGoodWork plan.now work.now }
    ensures outcome { IfOk result (IsOutcome (page_under plan.now work.now.settled) work.now) }
    ensures stopped { IfErr result (IsStopOf (page_under plan.now work.now.settled) work.now) }
{
    laws_of_apps();
    laws_of_expansions();
    outcome_on(alloc, page_of(plan, work.settled), work)
}

/// The page of a plan, where so many of its outcomes are known.
fn page_of<'a>(plan: &Plan<'a>, settled: u32) -> Page<'a>
    ensures page { page_of result ≡ page_under plan.now settled }
    ensures app { IsApp plan.now.app.now }
{
    Page {
        file: plan.app.file(),
        outcomes: plan.outcomes,
        settled,
        prefix: &plan.options.prefix,
    }
}

fn outcome_on<'a>(alloc: Global, page: Page<'a>, work: &Work<'a>) -> Result<Outcome<'a>, Stop>
    requires unfolded { IsUnfolded (page_of page) }
    requires adds_up { AddsUp (page_of page) }
    requires stands { place_in (page_of page) work.now.path ≡ Some (place_at work.now.spot work.now.scope) }
    ensures outcome { IfOk result (IsOutcome (page_of page.entry) work.now) }
    ensures stopped { IfErr result (IsStopOf (page_of page.entry) work.now) }
{
    match shape_of(alloc, page, work.spot, &work.scope)? {
        Shape::Wait { resource } => Ok(Outcome::Waits(resource)),
        shape => {
            let sheet = sheet_of(alloc, page, work, shape)?;
            Ok(Outcome::Printed(sheet))
        }
    }
}

/// The sheet of a work whose position has this shape, which is no wait.
fn sheet_of<'a>(
    alloc: Global,
    page: Page<'a>,
    work: &Work<'a>,
    shape: Shape<Kin<'a>>,
) -> Result<Sheet<'a>, Stop>
    requires unfolded { IsUnfolded (page_of page) }
    requires adds_up { AddsUp (page_of page) }
    requires waits_not { (resource : List ℕ) → label_of (place_shape shape) ≢ wait resource }
    requires inside { StandInside (page_of page) work.now.path (place_shape shape) }
    ensures sheet { IfOk result (IsSheetOf (page_of page.entry) work.now (place_shape shape.entry)) }
    ensures stopped { IfErr result (StopsAt (failures_of (one_of (page_of page.entry) (place_shape shape.entry)))) }
{
    let mut sheet = Sheet {
        out: Vec::new(alloc),
        kids: Items::new(alloc),
        after_text: work.flags.lead,
    };
    let mut path = Vec::from_slice(alloc, work.path.steps())?;
    print_shape(alloc, page, &mut sheet, &mut path, shape)?;
    let ends_in_text = needs_separator(work.flags, sheet.after_text);
    push_separator(&mut sheet.out, ends_in_text)?;
    Ok(sheet)
}

/// Whether a text at the end is kept apart from what follows the piece.
fn needs_separator(flags: Flags, after_text: bool) -> bool
    ensures { result ≡ (flags.embedded && after_text) }
{
    flags.embedded && after_text
}
