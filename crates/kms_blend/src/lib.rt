//! Blending of a layer's channels with those below them.
//!
//! Nothing here takes memory, fails or uses floating point, and there is no division. A row is blended 16 places at a time, in
//! lanes of 16 bits, and the blend mode is chosen once for it.
#![tactic(auto)]

ghost use Rattle.std.specs.Prelude.{◌≡◌, ◌≤◌, ◌+◌, length, slice_index, EachIndex};
ghost use Rattle.kms_model.specs.Frames.FrameBytes.{blended};
ghost use Rattle.kms_blend.specs.Lanes.{AreBlended, HasLanes};

mod lanes;
mod modes;
mod quotients;

use lanes::{LowerHalf, UpperHalf};
use modes::{BlendMode, Coverage, PlaneAlphaOnly, Premultiplied};
use std::simd::prelude::*;

/// The channel that shows where a layer lies over a lower one, from 0 to 255: the nearest number to n /
/// 16711425, and 255 where that would be more. n is a * 255 * f + (16711425 - a * q) * b in Pre-multiplied,
/// a * q * f + (16711425 - a * q) * b in Coverage, and a * 255 * f + (16711425 - a * 255) * b in None.
/// (Kernel: "Plane Composition Properties". The rounding and the upper bound are this device's own.)
///
/// `mode` is the blend mode: 0 Pre-multiplied, 1 Coverage, 2 None. `a` is the plane's alpha, from 0 to
/// 65535; `q` is the pixel's alpha, `f` the layer's channel and `b` the lower one, each from 0 to 255.
pub fn blend(mode: u32, a: u32, q: u32, f: u32, b: u32) -> u32
    requires mode { mode ≤ 2 }
    requires a { a ≤ 65535 }
    requires q { q ≤ 255 }
    requires f { f ≤ 255 }
    requires b { b ≤ 255 }
    ensures { result ≡ blended mode a q f b }
{
    match mode {
        0 => Premultiplied::blend(a, q, f, b),
        1 => Coverage::blend(a, q, f, b),
        _ => PlaneAlphaOnly::blend(a, q, f, b),
    }
}

/// Puts into each place of `b` the channel that shows there, as [`blend`] gives it of the mode, the
/// plane's alpha and what `q`, `f` and `b` have at that place. All three have one length.
pub fn blend_row(mode: u32, a: u32, q: &[u8], f: &[u8], b: &mut [u8])
    requires mode { mode ≤ 2 }
    requires a { a ≤ 65535 }
    requires q { length q.now ≡ length b.old }
    requires f { length f.now ≡ length b.old }
    ensures places { EachIndex b.new (λ k. slice_index b.new k
        ≡ blended mode a (slice_index q.now k) (slice_index f.now k) (slice_index b.old k)) }
    ensures length { length b.new ≡ length b.old }
{
    match mode {
        0 => row_in::<Premultiplied>(a, q, f, b),
        1 => row_in::<Coverage>(a, q, f, b),
        _ => row_in::<PlaneAlphaOnly>(a, q, f, b),
    }
}

/// [`blend_row`] in one mode: 16 places at a time, four times a round, and then one place after the other.
fn row_in<M: BlendMode>(a: u32, q: &[u8], f: &[u8], b: &mut [u8])
    requires a { a ≤ 65535 }
    requires q { length q.now ≡ length b.old }
    requires f { length f.now ≡ length b.old }
    ensures places { EachIndex b.new (λ k. slice_index b.new k
        ≡ blended M.number a (slice_index q.now k) (slice_index f.now k) (slice_index b.old k)) }
    ensures length { length b.new ≡ length b.old }
{
    let rounds = b.len() / 64;
    for round in 0..rounds {
        for step in 0..4 {
            blend_block::<M>(a, q, f, b, 64 * round + 16 * step);
        }
    }
    let blocks = b.len() / 16;
    for block in 4 * rounds..blocks {
        blend_block::<M>(a, q, f, b, 16 * block);
    }
    for i in 16 * blocks..b.len() {
        let channel = M::blend(a, u32::from(q[i]), u32::from(f[i]), u32::from(b[i]));
        b[i] = channel as u8;
    }
}

/// [`blend_row`] in one mode, at 16 places from `at` on.
fn blend_block<M: BlendMode>(a: u32, q: &[u8], f: &[u8], b: &mut [u8], at: usize)
    requires a { a ≤ 65535 }
    requires q { length q.now ≡ length b.old }
    requires f { length f.now ≡ length b.old }
    requires room { at + 16 ≤ length b.old }
    ensures { AreBlended (blended M.number a) q.now f.now b.old b.new at }
{
    let q = u8x16::from_slice(&q[at..]);
    let f = u8x16::from_slice(&f[at..]);
    let lower = u8x16::from_slice(&b[at..]);
    blend_lanes::<M>(a, q, f, lower).copy_to_slice(&mut b[at..]);
}

/// The channels that show at 16 places. The alpha's half is read off its 16 bits, so that LLVM learns nothing of those above (`hide`).
fn blend_lanes<M: BlendMode>(a: u32, q: u8x16, f: u8x16, b: u8x16) -> u8x16
    requires { a ≤ 65535 }
    ensures { HasLanes result (λ i.
        blended M.number a (slice_index q i) (slice_index f i) (slice_index b i)) }
{
    if a == 65535 {
        M::blend_opaque(q, f, b)
    } else if (a as u16) < 32768 {
        M::blend_lanes::<LowerHalf>(a, q, f, b)
    } else {
        M::blend_lanes::<UpperHalf>(a, q, f, b)
    }
}
