//! Numbers that are drawn, the same at each run.

/// The multiplier of Knuth's MMIX.
const MULTIPLIER: u64 = 6_364_136_223_846_793_005;

/// The increment of Knuth's MMIX.
const INCREMENT: u64 = 1_442_695_040_888_963_407;

/// Draws from a linear congruential generator.
#[derive(Debug, Drop)]
pub(super) struct Draws {
    state: u64,
}

impl Draws {
    pub(super) fn from_seed(seed: u64) -> Draws {
        Draws { state: seed }
    }

    /// The next draw, of 31 bits.
    pub(super) fn next(&mut self) -> u64 {
        self.state = self.state.wrapping_mul(MULTIPLIER).wrapping_add(INCREMENT);
        self.state >> 33
    }

    /// A draw below a limit, or 0 where that is 0.
    pub(super) fn below(&mut self, limit: usize) -> usize {
        if limit == 0 {
            return 0;
        }
        self.next() as usize % limit
    }
}
