ghost use Rattle.std.specs.Prelude.{◌≡◌};
ghost use Rattle.page_generator.specs.Draws.{draw_of, next_state};

use std::marker::Model;

/// The multiplier of Knuth's MMIX.
const MULTIPLIER: u64 = 6_364_136_223_846_793_005;

/// The increment of Knuth's MMIX.
const INCREMENT: u64 = 1_442_695_040_888_963_407;

/// Draws from a linear congruential generator. Contracts see them as the generator's state.
#[derive(Debug, Drop)]
pub(crate) struct Draws {
    state: u64,
}

impl Model for Draws {
    ghost use Rattle.std.specs.Prelude.{ℕ};

    ghost Value = { ℕ };

    ghost view = { λ d. d.state };
}

impl Draws {
    pub(crate) fn from_seed(seed: u64) -> Draws
        ensures { result ≡ seed }
    {
        Draws { state: seed }
    }

    /// The next draw, of 31 bits.
    pub(crate) fn next(&mut self) -> u64
        ensures value { result ≡ draw_of self.old }
        ensures state { self.new ≡ next_state self.old }
    {
        self.state = self.state.wrapping_mul(MULTIPLIER).wrapping_add(INCREMENT);
        self.state >> 33
    }
}
