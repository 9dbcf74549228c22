//! Numbers by chance.
ghost use Rattle.std.specs.Prelude.{◌≡◌, ◌<◌, ◌+◌, ◌*◌, ◌/◌, ◌%◌};

/// A source of numbers by chance, the same ones from the same state on: the linear congruential generator of 32 bits of
/// "Numerical Recipes", of whose bits the upper 16 are read, since the lower ones come back soon.
#[derive(Drop)]
pub struct Chance {
    /// What the next number is made of.
    pub state: u32,
}

impl Chance {
    /// The next number, below another one, which is positive. Above 65536 it reaches no number past 65535.
    pub fn below(&mut self, end: u32) -> u32
        requires { 0 < end }
        ensures state { self.new.state
            ≡ (self.old.state * 1664525 % 4294967296 + 1013904223) % 4294967296 }
        ensures number { result ≡ self.new.state / 65536 % end }
        ensures below { result < end }
    {
        self.state = self.state.wrapping_mul(1664525).wrapping_add(1013904223);
        self.state / 65536 % end
    }
}
