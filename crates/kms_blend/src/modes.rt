//! The blend modes. (Kernel: "Plane Composition Properties", `pixel blend mode`.)
ghost use Rattle.std.specs.Prelude.{◌≡◌, ◌+◌, ◌-◌, ◌*◌, ◌/◌, ◌≤◌, ℕ, min, slice_index};
ghost use Rattle.kms_model.specs.Frames.FrameBytes.{blended, opaque};
ghost use Rattle.kms_blend.specs.Lanes.{HasLanes};

use crate::lanes::{
    AlphaHalf, distances, downwards, parts_of_bytes, parts_of_products, products, shift,
    short_distances, short_downwards, weighted_by_pixels, wholes,
};
use crate::quotients::over_opaque;
use std::simd::prelude::*;

/// An opaque plane's alpha with an opaque pixel's: 65535 * 255.
pub const OPAQUE: u32 = 16711425;

/// Half of `OPAQUE`, rounded down.
pub const HALF: u32 = 8355712;

/// The numerator of the brightest channel, 255 * `OPAQUE`: more shows as this.
pub const BRIGHTEST: u32 = 4261413375;

/// A blend mode, whose number is the property's value.
pub trait BlendMode {
    ghost number: { ℕ };

    /// The channel that shows, of the plane's alpha `a` (from 0 to 65535), the pixel's alpha `q`, the
    /// layer's channel `f` and the lower one `b` (each from 0 to 255).
    fn blend(a: u32, q: u32, f: u32, b: u32) -> u32
        requires a { a ≤ 65535 }
        requires q { q ≤ 255 }
        requires f { f ≤ 255 }
        requires b { b ≤ 255 }
        ensures { result ≡ blended number a q f b };

    /// The channels that show at 16 places.
    fn blend_lanes<H: AlphaHalf>(a: u32, q: u8x16, f: u8x16, b: u8x16) -> u8x16
        requires least { H.least ≤ a }
        requires most { a ≤ H.most }
        requires a { a ≤ 65535 }
        ensures { HasLanes result (λ i.
            blended number a (slice_index q i) (slice_index f i) (slice_index b i)) };

    /// The same where the plane is opaque.
    fn blend_opaque(q: u8x16, f: u8x16, b: u8x16) -> u8x16
        ensures { HasLanes result (λ i.
            blended number 65535 (slice_index q i) (slice_index f i) (slice_index b i)) };
}

/// Pre-multiplied: the layer's channels have its pixels' alpha in them already.
pub struct Premultiplied;

/// Coverage: the layer's channels are weighted by its pixels' alpha.
pub struct Coverage;

/// None: the pixels' alpha is ignored.
pub struct PlaneAlphaOnly;

impl BlendMode for Premultiplied {
    ghost number = { 0 };

    fn blend(a: u32, q: u32, f: u32, b: u32) -> u32 {
        weigh(a * 255, a * q, f, b)
    }

    fn blend_lanes<H: AlphaHalf>(a: u32, q: u8x16, f: u8x16, b: u8x16) -> u8x16 {
        let shown = wholes(a, f);
        let hidden = products(q, b);
        let by = parts_of_products::<H>(a, short_distances(shown, hidden));
        shift(short_downwards(shown, hidden), b, by)
    }

    fn blend_opaque(q: u8x16, f: u8x16, b: u8x16) -> u8x16 {
        weighted_by_pixels(u8x16::splat(255), q, f, b)
    }
}

impl BlendMode for Coverage {
    ghost number = { 1 };

    fn blend(a: u32, q: u32, f: u32, b: u32) -> u32 {
        weigh(a * q, a * q, f, b)
    }

    fn blend_lanes<H: AlphaHalf>(a: u32, q: u8x16, f: u8x16, b: u8x16) -> u8x16 {
        let by = parts_of_products::<H>(a, products(q, distances(f, b)));
        shift(downwards(f, b), b, by)
    }

    fn blend_opaque(q: u8x16, f: u8x16, b: u8x16) -> u8x16 {
        weighted_by_pixels(q, q, f, b)
    }
}

impl BlendMode for PlaneAlphaOnly {
    ghost number = { 2 };

    fn blend(a: u32, _q: u32, f: u32, b: u32) -> u32 {
        weigh(a * 255, a * 255, f, b)
    }

    fn blend_lanes<H: AlphaHalf>(a: u32, _q: u8x16, f: u8x16, b: u8x16) -> u8x16 {
        shift(downwards(f, b), b, parts_of_bytes(a, distances(f, b)))
    }

    fn blend_opaque(_q: u8x16, f: u8x16, _b: u8x16) -> u8x16 {
        f
    }
}

/// The channel that shows where a layer with the weight `shown` lies over a lower one of which it hides
/// the weight `hidden`, both out of `OPAQUE`. The sum is bounded before it is divided, so it needs no more
/// than 32 bits.
fn weigh(shown: u32, hidden: u32, f: u32, b: u32) -> u32
    requires shown { shown ≤ opaque }
    requires hidden { hidden ≤ opaque }
    requires f { f ≤ 255 }
    requires b { b ≤ 255 }
    ensures { result ≡ min 255 ((shown * f + (opaque - hidden) * b + 8355712) / opaque) }
{
    let layer = shown * f;
    let lower = (OPAQUE - hidden) * b;
    over_opaque(layer + lower.min(BRIGHTEST - layer) + HALF)
}
