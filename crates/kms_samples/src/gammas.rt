//! Gamma tables.
ghost use Rattle.std.specs.Prelude.{◌≡◌};
ghost use Rattle.kms_samples.specs.Samples.{mixed_gamma};

use kms_model::Gamma;

/// The table that shows every colour as one: each channel has one value, another one than the others.
pub const FLAT_GAMMA: Gamma = Gamma {
    red: [71; 256],
    green: [72; 256],
    blue: [73; 256],
};

/// A table whose channels differ: red inverts, green adds 1 and blue halves.
pub fn mixed_gamma() -> Gamma
    ensures { result ≡ mixed_gamma }
{
    let mut red = [0; 256];
    let mut green = [0; 256];
    let mut blue = [0; 256];
    for value in 0..256 {
        red[value] = 255 - value as u8;
        green[value] = (value as u8).wrapping_add(1);
        blue[value] = value as u8 / 2;
    }
    Gamma { red, green, blue }
}
