//! Rectangles, layers at their places and rounded quotients.
//!
//! Nothing here takes memory, fails or uses floating point.
#![tactic(auto)]

ghost use Rattle.std.specs.Prelude.{◌≡◌, ◌+◌, ◌-◌, ◌*◌, ◌/◌, ◌%◌, ◌^◌, ◌<◌, ◌≤◌, ◌↔◌, ◌+ℤ◌, ◌-ℤ◌, ◌≤ℤ◌, ℤ, pos, FitsSigned, int_le, IsTrue, IsNone};
ghost use Rattle.std.specs.Int.{w64, int_max, int_min};
ghost use Rattle.kms_model.specs.Frames.Pictures.{between_edges, clip};
ghost use Rattle.kms_model.specs.Frames.Rectangles.{HasPixel, HasPixelIfAny, IsNear, IsNearRect, fits_source, is_scaled_little, rounded_quotient};
ghost use Rattle.kms_model.specs.Device.Sound.{IsBetween};

use kms_model::Rect;

mod placing;

pub use placing::{Placed, in_place, layer_of, put_placed};

/// The rectangle that `dst` and `area` have in common, in the unit of both; none where no pixel is in
/// both. A rectangle has the pixels from its left and upper edge up to, but not on, its right and lower
/// edge; so those that only touch have none in common, and one whose width or height is 0 or less has
/// none at all. Each number of both is from -4294967295 to 4294967295.
pub fn clip(dst: Rect, area: Rect) -> Option<Rect>
    requires dst { IsNearRect dst }
    requires area { IsNearRect area }
    ensures exact { result ≡ clip dst area }

    // What that means for a pixel.
    ensures common { (x y : ℤ) → HasPixelIfAny result x y ↔ (HasPixel dst x y × HasPixel area x y) }
    ensures none { IsNone result ↔ ((x y : ℤ) → HasPixel dst x y → HasPixel area x y → ⊥) }
{
    let (left, right) = common_edges(dst.x, dst.w, area.x, area.w);
    let (top, bottom) = common_edges(dst.y, dst.h, area.y, area.h);
    between_edges(left, top, right, bottom)
}

/// The two edges of what is common to two rectangles along one axis, of which the second may come first.
/// Each rectangle is given by its first edge and its size.
fn common_edges(first: i64, first_size: i64, second: i64, second_size: i64) -> (i64, i64)
    requires first { IsNear first }
    requires first_size { IsNear first_size }
    requires second { IsNear second }
    requires second_size { IsNear second_size }
    ensures start { result.0 ≡ int_max first second }
    ensures end { result.1 ≡ int_min (first +ℤ first_size) (second +ℤ second_size) }
    ensures size { FitsSigned w64 (result.1 -ℤ result.0) }
{
    (
        first.max(second),
        (first + first_size).min(second + second_size),
    )
}

/// The rectangle between four edges, where it has a pixel.
fn between_edges(left: i64, top: i64, right: i64, bottom: i64) -> Option<Rect>
    requires width { FitsSigned w64 (right -ℤ left) }
    requires height { FitsSigned w64 (bottom -ℤ top) }
    ensures { result ≡ between_edges left top right bottom }
{
    if left < right && top < bottom {
        Some(Rect {
            x: left,
            y: top,
            w: right - left,
            h: bottom - top,
        })
    } else {
        None
    }
}

/// Whether a source fits the framebuffer that it is taken from: whether its right edge is at most
/// `width` pixels and its lower edge at most `height`. `src` is in 16.16 fixed point, so that 65536 is one
/// pixel, and each of its numbers is from -4294967295 to 4294967295. (Kernel: `drm_atomic_plane_check`,
/// which refuses another with `ENOSPC`.)
pub fn fits_source(src: Rect, width: u32, height: u32) -> bool
    requires { IsNearRect src }
    ensures exact { result ≡ fits_source src width height }
    ensures fits { IsTrue result ↔ (((src.x +ℤ src.w) ≤ℤ pos (65536 * width))
        × ((src.y +ℤ src.h) ≤ℤ pos (65536 * height))) }
{
    ends_within(src.x, src.w, width) && ends_within(src.y, src.h, height)
}

/// Whether `start + size`, in 16.16 fixed point, is at most so many pixels.
fn ends_within(start: i64, size: i64, pixels: u32) -> bool
    requires start { IsNear start }
    requires size { IsNear size }
    ensures { result ≡ int_le (start +ℤ size) (pos (65536 * pixels)) }
{
    start + size <= 65536 * i64::from(pixels)
}

/// One pixel in 16.16 fixed point.
const PIXEL: i64 = 65536;

/// The greatest scale, of a source to its destination and the other way round.
const GREATEST_SCALE: i64 = 4;

/// Whether a size of a source and that of its destination along the same axis are near enough to be shown: neither is more
/// than four times the other. `long` is in 16.16 fixed point, from 0 to 4294967295, and `wide` in pixels, from 0 to
/// 2147483647. (Kernel: `drm_atomic_helper_check_plane_state`, which refuses others with `ERANGE`; the greatest scale is
/// this device's own.)
pub fn is_scaled_little(long: i64, wide: i64) -> bool
    requires long { IsBetween (pos 0) (pos 4294967295) long }
    requires wide { IsBetween (pos 0) (pos 2147483647) wide }
    ensures { result ≡ is_scaled_little long wide }
{
    PIXEL * wide <= GREATEST_SCALE * long && long <= GREATEST_SCALE * PIXEL * wide
}

/// The quotient of `n` by the odd number `d`, to the nearest number. `n + d` is below 2^64.
pub fn div_round(n: u64, d: u64) -> u64
    requires odd { d % 2 ≡ 1 }
    requires room { n + d < 2 ^ 64 }
    ensures exact { result ≡ rounded_quotient n d }

    // The product misses `n` by at most (d - 1) / 2, which is under half of `d`.
    ensures above { result * d ≤ n + (d - 1) / 2 }
    ensures below { n ≤ result * d + (d - 1) / 2 }
{
    (n + (d - 1) / 2) / d
}
