//! The bytes of a gamma table.
ghost use Rattle.std.specs.Prelude.{◌≡◌, ◌<◌, ◌/◌, length};
ghost use Rattle.kms_model.specs.Device.GammaBytes.{channel_values, gamma_held, gamma_of_bytes};

use crate::modes::half;
use kms_model::Gamma;

/// How many bytes a table has: 256 entries of red, green, blue and a reserved number, each of 16 bits. (Header:
/// `drm_mode.h`, `struct drm_color_lut`.)
pub const GAMMA_BYTES: usize = 2048;

/// How many bytes an entry has.
const ENTRY_BYTES: usize = 8;

/// The table that bytes hold; none where they are not 2048. The reserved numbers are not looked at. (Header:
/// `drm_mode.h`, `struct drm_color_lut`; kernel: `drm_color_lut_extract`, which rounds, while this device keeps the upper 8
/// bits.)
pub fn gamma_of_bytes(bytes: &[u8]) -> Option<Gamma>
    ensures { result ≡ gamma_of_bytes bytes.now }
{
    if bytes.len() != GAMMA_BYTES {
        return None;
    }
    Some(gamma_held(bytes))
}

// The table that 2048 bytes hold.
fn gamma_held(bytes: &[u8]) -> Gamma
    requires { length bytes.now ≡ 2048 }
    ensures { result ≡ gamma_held bytes.now }
{
    Gamma {
        red: channel_values(bytes, 0),
        green: channel_values(bytes, 1),
        blue: channel_values(bytes, 2),
    }
}

// What each value of a channel becomes: the upper 8 bits of the channel's number in the entry of the value. The channel is
// from 0 to 2.
fn channel_values(bytes: &[u8], channel: usize) -> [u8; 256]
    requires bytes { length bytes.now ≡ 2048 }
    requires channel { channel < 3 }
    ensures { result ≡ channel_values bytes.now channel }
{
    let mut values = [0; 256];
    for value in 0..256 {
        values[value] = upper(half(bytes, ENTRY_BYTES * value + 2 * channel));
    }
    values
}

// The upper 8 of 16 bits.
fn upper(number: u16) -> u8
    ensures { result ≡ number / 256 }
{
    (number >> 8) as u8
}
