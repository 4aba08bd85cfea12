//! The positions of a page, and of a page where more has settled.

ghost use Rattle.std.specs.Prelude.{◌≡◌, ℕ, List, Some, true};
ghost use Rattle.jsx_value.specs.Expansions.{is_ordered};
ghost use Rattle.jsx_value.specs.Positions.{Page, Place, root_place};
ghost use Rattle.jsx_value.specs.Settling.{Settles, settled_since};
ghost use Rattle.jsx_value.specs.Spots.{at};
ghost use Rattle.fizz_piece.specs.Places.{place_in, position_of};
ghost use Rattle.position_laws.specs.Formed.{IsFormed};
ghost use Rattle.position_laws.specs.Later.{LaterOne};

use jsx_value::{laws_of_expansions, laws_of_settlements};

/// The position of a place stands at the place's path. Where more has settled, the place stays, and its position is later. Each
/// boundary has one content and one fallback.
pub fn laws_of_pages()
    ensures stand { (page : Page) (place : Place) (path : List ℕ) →
        is_ordered page.components ≡ true → place_in page path ≡ Some place →
        at (position_of page root_place) path ≡ Some (position_of page place) }
    ensures stay { (first second : Page) (place : Place) (path : List ℕ) → Settles first second →
        place_in first path ≡ Some place → place_in second path ≡ Some place }
    ensures later { (first second : Page) (place : Place) → Settles first second →
        is_ordered first.components ≡ true →
        LaterOne (settled_since first second) (position_of first place) (position_of second place) }
    ensures formed { (page : Page) (place : Place) → is_ordered page.components ≡ true →
        IsFormed (position_of page place) }
{
    laws_of_expansions();
    laws_of_settlements();
}
