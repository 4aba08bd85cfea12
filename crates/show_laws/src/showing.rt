//! What is shown stays shown under the page's instructions.

ghost use Rattle.std.specs.Prelude.{◌≡◌, ℕ, ◌∷◌, ◌++◌, [], List, Contains, Some, true};
ghost use Rattle.jsx_value.specs.Spots.{Spots, fails};
ghost use Rattle.page_laws.specs.PageEdits.{with_boundary_completed, with_boundary_failed, with_placeholder_filled};
ghost use Rattle.page_laws.specs.Pages.{Page, nothing};
ghost use Rattle.show_laws.specs.Shows.{Drawn, Grows, Position, Shows, ShowsPosition};

/// Where more was drawn and more is revealed, what was shown is shown.
pub fn laws_of_growth()
    ensures { (old new : Drawn) → Grows old new → (above : List ℕ) (n : ℕ) (spots : Spots) (page rest : Page) →
        Shows old above n spots page rest → Shows new above n spots page rest }
{}

/// The page's instructions keep what is shown: `$RS`, where the content shows the position of the placeholder's segment;
/// `$RC`, where it shows the content of the boundary, of which nothing has failed, and which shows its content from then
/// on; and `$RX`, where the digest is one of the failures of the boundary's content.
pub fn laws_of_shown_edits()
    ensures fill { (drawn : Drawn) (id : ℕ) (content : Page) (p : Position) → drawn.segment id ≡ Some p →
        ShowsPosition drawn p content → (above : List ℕ) (n : ℕ) (spots : Spots) (page rest : Page) →
        Shows drawn above n spots page rest →
        Shows drawn above n spots (with_placeholder_filled id content page) (with_placeholder_filled id content rest) }
    ensures complete { (old new : Drawn) → Grows old new → (id : ℕ) (content : Page) (p : Position) →
        old.boundary id ≡ Some p → fails p.one.kids ≡ [] → new.is_revealed p.above p.number ≡ true →
        Shows new (p.above ++ p.number ∷ []) 0 p.one.kids content nothing →
        (above : List ℕ) (n : ℕ) (spots : Spots) (page rest : Page) → Shows old above n spots page rest →
        Shows new above n spots (with_boundary_completed id content page) (with_boundary_completed id content rest) }
    ensures client { (drawn : Drawn) (id : ℕ) (digest : List ℕ) (p : Position) → drawn.boundary id ≡ Some p →
        Contains (fails p.one.kids) digest →
        (above : List ℕ) (n : ℕ) (spots : Spots) (page rest : Page) → Shows drawn above n spots page rest →
        Shows drawn above n spots (with_boundary_failed id digest page) (with_boundary_failed id digest rest) }
{}
