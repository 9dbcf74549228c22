//! Gamma tables. (Kernel: "Color Management Properties", `GAMMA_LUT`.)
ghost use Rattle.std.specs.Prelude.{◌≡◌, ◌<◌, ◌≤◌, ℕ, length, slice_index, EachIndex};
ghost use Rattle.kms_model.specs.Frames.FrameBytes.{through};
ghost use Rattle.kms_compose.specs.Parts.{colour_at};

use crate::rows::Channels;
use kms_model::Gamma;

/// Takes each value of a channel through a list of what each value becomes.
fn take_through(list: &[u8; 256], channel: &mut [u8])
    ensures length { length channel.new ≡ length channel.old }
    ensures values { EachIndex channel.new (λ x. slice_index channel.new x
        ≡ slice_index list.now (slice_index channel.old x)) }
{
    for value in channel.iter_mut() {
        *value = list[usize::from(*value)];
    }
}

/// Takes so many pixels through a gamma table, if there is one.
pub fn through_gamma(gamma: &Option<Gamma>, count: usize, pixels: &mut Channels)
    requires few { count ≤ 256 }
    ensures { (x : ℕ) → x < count
        → colour_at pixels.new.red pixels.new.green pixels.new.blue x
        ≡ through gamma.now (colour_at pixels.old.red pixels.old.green pixels.old.blue x) }
{
    if let Some(gamma) = gamma {
        take_through(&gamma.red, &mut pixels.red[..count]);
        take_through(&gamma.green, &mut pixels.green[..count]);
        take_through(&gamma.blue, &mut pixels.blue[..count]);
    }
}
