//! What holds of expansions. These functions do nothing: each has its law as its contract.

ghost use Rattle.std.specs.Prelude.{◌≡◌, ◌≤◌, ℕ, List, true, reverse};
ghost use Rattle.settle_script.specs.declared.value.Entry.{Entry};
ghost use Rattle.settle_script.specs.declared.outcome.Outcome.{Outcome};
ghost use Rattle.jsx_syntax.specs.declared.file.File.{File};
ghost use Rattle.jsx_syntax.specs.Rules.{IsApp};
ghost use Rattle.jsx_value.specs.Positions.{Page, Place, shape_of};
ghost use Rattle.jsx_value.specs.SeenPlaces.{page_with};
ghost use Rattle.jsx_value.specs.Settling.{Settles, StaysOrOpens, settled_since};
ghost use Rattle.jsx_value.specs.Expansions.{IsUnfolded, is_ordered};
ghost use Rattle.jsx_value.specs.Weights.{AddsUp};

/// Where each component calls only those before it, an expansion unfolds by the shape at each place, and so weighs
/// what its places do.
pub fn laws_of_expansions()
    ensures unfolded { (page : Page) → is_ordered page.components ≡ true → IsUnfolded page }
    ensures weight { (page : Page) → is_ordered page.components ≡ true → AddsUp page }
{}

/// The components of an app call only those before them.
pub fn laws_of_apps()
    ensures { (file : File) → IsApp file → is_ordered (reverse file.components) ≡ true }
{}

/// Where more has settled, what stands at a place stays, but for what waited for a resource that has settled since.
pub fn laws_of_settlements()
    ensures places { (first second : Page) (place : Place) → Settles first second →
        StaysOrOpens (settled_since first second) (shape_of first place) (shape_of second place) }
    ensures numbers { (file : File) (outcomes : List (Entry Outcome)) (m n : ℕ)
        (prefix : List ℕ) → m ≤ n →
        Settles (page_with file outcomes m prefix) (page_with file outcomes n prefix) }
{}
