//! Numbers that look random.

/// What gives the numbers: those of a linear congruential generator.
#[derive(Drop)]
pub(crate) struct Dice {
    /// The seed, and then what is left of it.
    pub(crate) state: u64,
}

impl Dice {
    /// A number below the sides, 0 where there are none.
    pub(crate) fn roll(&mut self, sides: usize) -> usize {
        self.state = self
            .state
            .wrapping_mul(6364136223846793005)
            .wrapping_add(1442695040888963407);
        ((self.state >> 33) as usize)
            .checked_rem(sides)
            .unwrap_or(0)
    }
}
