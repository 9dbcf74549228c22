//! Where the pixels of a destination lie in the source. (Kernel: "Plane Composition Properties"; the source is in 16.16 fixed
//! point.)
ghost use Rattle.std.specs.Prelude.{◌≡◌, ◌<◌, ◌≤◌, ◌≤ℤ◌, ◌-ℤ◌, ◌+◌, ◌*◌, ◌/◌, pos, IfOk, map};
ghost use Rattle.std.specs.List.{range_with_len};
ghost use Rattle.kms_model.specs.Device.States.{natural};
ghost use Rattle.kms_compose.specs.Sources.{IsReach, IsSeen, IsSeenAt, is_axis_unscaled, source_place};

use kms_model::NoMemory;
use std::alloc::Global;

/// One pixel in 16.16 fixed point.
const PIXEL: usize = 65536;

/// A layer's source and destination along one axis.
#[derive(Clone, Copy)]
pub struct Reach {
    /// Where the source begins, in 16.16 fixed point, from 0 on.
    pub src: i64,
    /// How long it is, in 16.16 fixed point, from 0 to 4294967295.
    pub long: i64,
    /// Where the destination begins, in pixels of the mode.
    pub dst: i64,
    /// How wide it is, in pixels of the mode, from 0 to 2147483647.
    pub wide: i64,
}

/// A number that is not negative.
pub fn natural(z: i64) -> usize
    requires { pos 0 ≤ℤ z }
    ensures { result ≡ natural z }
{
    z as usize
}

/// Whether a source has one pixel for each pixel of its destination, along one axis.
pub fn is_axis_unscaled(reach: &Reach) -> bool
    requires { IsReach reach.now }
    ensures { result ≡ is_axis_unscaled reach.now }
{
    natural(reach.long) == PIXEL * natural(reach.wide)
}

/// The place in the framebuffer of the middle of a pixel's part of a source that begins at `src` and is `long`, where the
/// destination is `wide` and this is its pixel, from 0 on. Each quotient is rounded down.
fn middle_of(src: usize, long: usize, wide: usize, pixel: usize) -> usize
    requires long { long ≤ 4294967295 }
    requires wide { wide ≤ 2147483647 }
    requires pixel { pixel < wide }
    requires room { src + (2 * pixel + 1) * long / (2 * wide) < 281474976645120 }
    ensures { result ≡ (src + (2 * pixel + 1) * long / (2 * wide)) / 65536 }
{
    let halves = 2 * pixel + 1;
    let middle = halves * long / (2 * wide);
    (src + middle) / PIXEL
}

/// Which pixel of the destination a pixel of the mode is, from 0 on.
fn pixel_of(reach: &Reach, at: usize) -> usize
    requires { IsSeenAt reach.now at }
    ensures { result ≡ natural (pos at -ℤ reach.now.dst) }
{
    (at as i64 - reach.dst) as usize
}

/// The pixel of the framebuffer that a pixel of the mode shows, along one axis: the middle of its part of the source, of as
/// many parts as the destination has pixels.
pub fn source_place(reach: &Reach, at: usize) -> usize
    requires { IsSeenAt reach.now at }
    ensures { result ≡ source_place reach.now at }
{
    let src = natural(reach.src);
    let long = natural(reach.long);
    let wide = natural(reach.wide);
    let pixel = pixel_of(reach, at);
    middle_of(src, long, wide, pixel)
}

/// The pixels of the framebuffer that so many pixels of the mode from a place on show, along one axis.
pub fn places(
    alloc: Global,
    reach: &Reach,
    start: usize,
    count: usize,
) -> Result<Vec<usize>, NoMemory>
    requires { IsSeen reach.now start count }
    ensures { IfOk result (λ places.
        places.items ≡ map (source_place reach.now) (range_with_len start count)) }
{
    let mut places = Vec::with_capacity(alloc, count)?;
    for at in start..start + count {
        places.push(source_place(reach, at))?;
    }
    Ok(places)
}
