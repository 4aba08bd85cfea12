//! Worked examples of what draws and pages are.

ghost use Rattle.std.specs.Prelude.{◌≡◌, [], ◌∷◌, ◌++◌, codes};
ghost use Rattle.page_generator.specs.Draws.{drawn};
ghost use Rattle.page_generator.specs.Pages.{script_of};

/// The first three draws of two seeds, and the scripts of two small pages.
pub fn worked_examples()
    ensures zero { drawn 3 0 ≡ 167951807 ∷ 218396424 ∷ 1299921937 ∷ [] }
    ensures seven { drawn 3 7 ≡ 1059165278 ∷ 2052263231 ∷ 1946856753 ∷ [] }
    ensures one_leaf { script_of 0 1
        ≡ codes "[{\"resolve\":\"all\",\"value\":[{\"items\":[0]}]},{\"resolve\":\"r0\",\"value\":8}]" }
    ensures three_leaves { script_of 7 3
        ≡ codes "[{\"resolve\":\"all\",\"value\":[{\"items\":[0,1,2]}]},"
        ++ codes "{\"resolve\":\"r1\",\"value\":49},{\"resolve\":\"r2\",\"value\":17}]" }
{}
