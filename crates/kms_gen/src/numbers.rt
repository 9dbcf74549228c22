//! The numbers of the generator, a linear congruential one modulo 2^64. (Knuth: the multiplier and the increment of
//! MMIX.)
ghost use Rattle.std.specs.Prelude.{◌≡◌, ◌/◌, ◌^◌};
ghost use Rattle.kms_model.specs.Script.Generated.{next_number};

const MULTIPLIER: u64 = 6364136223846793005;

const INCREMENT: u64 = 1442695040888963407;

/// The number after this one, modulo 2^64.
pub fn next_number(x: u64) -> u64
    ensures { result ≡ next_number x }
{
    x.wrapping_mul(MULTIPLIER).wrapping_add(INCREMENT)
}

/// What a commit is made of: the upper 31 bits of a number, since the lower ones repeat soon.
pub fn upper_bits(x: u64) -> u64
    ensures { result ≡ x / 2 ^ 33 }
{
    x >> 33
}
