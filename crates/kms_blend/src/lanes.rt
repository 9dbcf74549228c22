//! Blending of 16 places at once, lane by lane.
ghost use Rattle.std.specs.Prelude.{◌≡◌, ◌+◌, ◌-◌, ◌*◌, ◌/◌, ◌%◌, ◌<◌, ◌≤◌, ℕ, min, if◌then◌else◌, nat_eq, nat_lt, slice_index};
ghost use Rattle.kms_model.specs.Frames.FrameBytes.{opaque};
ghost use Rattle.kms_blend.specs.Lanes.{HasLanes, HasSmallProducts, IsAtMost, IsTest, apart, bounded, moved};

use std::simd::prelude::*;

/// The sums of two vectors, and 255 where that would be more.
fn add_saturating(v: u8x16, w: u8x16) -> u8x16
    ensures { HasLanes result (λ i. min 255 (slice_index v i + slice_index w i)) }
{
    v + w.simd_min(u8x16::splat(255) - v)
}

/// The same of 16 bits, and 65535.
fn add_short_saturating(v: u16x16, w: u16x16) -> u16x16
    ensures { HasLanes result (λ i. min 65535 (slice_index v i + slice_index w i)) }
{
    v + w.simd_min(u16x16::splat(65535) - v)
}

/// What each lane of one vector of 16 bits a lane is above the other's, and 0 where it is not.
fn subtract_saturating(v: u16x16, w: u16x16) -> u16x16
    ensures { HasLanes result (λ i. slice_index v i - slice_index w i) }
{
    v - v.simd_min(w)
}

/// How far two vectors are apart.
pub fn distances(v: u8x16, w: u8x16) -> u8x16
    ensures { HasLanes result (λ i. apart (slice_index v i) (slice_index w i)) }
{
    v.abs_diff(w)
}

/// How far two vectors of products of bytes are apart.
pub fn short_distances(v: u16x16, w: u16x16) -> u16x16
    requires v { IsAtMost 65025 v }
    requires w { IsAtMost 65025 w }
    ensures lanes { HasLanes result (λ i. apart (slice_index v i) (slice_index w i)) }
    ensures most { IsAtMost 65025 result }
{
    subtract_saturating(v, w) | subtract_saturating(w, v)
}

/// The products of two vectors of bytes.
pub fn products(v: u8x16, w: u8x16) -> u16x16
    ensures lanes { HasLanes result (λ i. slice_index v i * slice_index w i) }
    ensures most { IsAtMost 65025 result }
{
    v.cast::<u16>() * w.cast::<u16>()
}

/// 255 times each byte. The plane's alpha only hides the constant from LLVM (`hide`).
pub fn wholes(a: u32, v: u8x16) -> u16x16
    requires { a ≤ 65535 }
    ensures lanes { HasLanes result (λ i. 255 * slice_index v i) }
    ensures most { IsAtMost 65025 result }
{
    lower_products(hide(255, a), v.cast::<u16>())
}

/// `n`, in a form that LLVM does not see through. A product with a constant 255 it takes apart into three instructions, and one with a
/// constant 257 it narrows by masks.
fn hide(n: u32, a: u32) -> u32
    requires n { n ≤ 65535 }
    requires a { a ≤ 65535 }
    ensures { result ≡ n }
{
    n + (a >> 16)
}

/// The upper 16 bits of the products with `a`.
fn upper_products(a: u32, v: u16x16) -> u16x16
    requires { a ≤ 65535 }
    ensures { HasLanes result (λ i. a * slice_index v i / 65536) }
{
    let a = u16x16::splat(a as u16);
    as_shorts((a.cast::<u32>() * v.cast::<u32>()) >> 16)
}

/// Lanes of at most 65535 in 16 bits.
fn as_shorts(v: u32x16) -> u16x16
    requires { IsAtMost 65535 v }
    ensures { HasLanes result (λ i. slice_index v i) }
{
    v.cast::<u16>()
}

/// The lower 16 bits of the products with `a`.
fn lower_products(a: u32, v: u16x16) -> u16x16
    requires { a ≤ 65535 }
    ensures { HasLanes result (λ i. a * slice_index v i % 65536) }
{
    u16x16::splat(a as u16) * v
}

/// The nearest numbers to `a / 65535` of bytes.
pub fn parts_of_bytes(a: u32, v: u8x16) -> u8x16
    requires { a ≤ 65535 }
    ensures { HasLanes result (λ i. (a * slice_index v i + 32767) / 65535) }
{
    as_short_bytes(small_parts(a, v.cast::<u16>()))
}

/// The nearest numbers to `a / 65535` where no product needs more than 31 bits. A product whose upper 16 bits are u and whose lower ones
/// are l is 65535 * u + (u + l): so they are u, and u + 1 where u + l is more than half of 65535.
fn small_parts(a: u32, v: u16x16) -> u16x16
    requires a { a ≤ 65535 }
    requires small { HasSmallProducts a v }
    ensures { HasLanes result (λ i. (a * slice_index v i + 32767) / 65535) }
{
    let upper = upper_products(a, v);
    let lower = lower_products(a, v);
    upper + (add_short_saturating(upper, lower) >> 15)
}

/// A half of the plane's alphas, whose parts of numbers of 16 bits are taken in one way.
pub trait AlphaHalf {
    ghost least: { ℕ };

    ghost most: { ℕ };

    /// The nearest numbers to `a / 65535`.
    fn parts(a: u32, v: u16x16) -> u16x16
        requires least { least ≤ a }
        requires most { a ≤ most }
        ensures { HasLanes result (λ i. (a * slice_index v i + 32767) / 65535) };
}

/// The lower half, of which no product needs more than 31 bits.
pub struct LowerHalf;

/// The upper half: what an alpha lacks of 65535 is in the lower one, and so its parts are what those lack of the whole.
pub struct UpperHalf;

impl AlphaHalf for LowerHalf {
    ghost least = { 0 };

    ghost most = { 32767 };

    fn parts(a: u32, v: u16x16) -> u16x16 {
        small_parts(a, v)
    }
}

impl AlphaHalf for UpperHalf {
    ghost least = { 32768 };

    ghost most = { 65535 };

    fn parts(a: u32, v: u16x16) -> u16x16 {
        v - small_parts(65535 - a, v)
    }
}

/// The nearest numbers to `a / (65535 * 255)` of products of bytes.
pub fn parts_of_products<H: AlphaHalf>(a: u32, v: u16x16) -> u8x16
    requires least { H.least ≤ a }
    requires most { a ≤ H.most }
    requires a { a ≤ 65535 }
    requires products { IsAtMost 65025 v }
    ensures { HasLanes result (λ i. (a * slice_index v i + 8355712) / opaque) }
{
    let sums = H::parts(a, v) + u16x16::splat(128);
    pack(upper_products(hide(257, a), sums))
}

/// 0 where one vector is above another, else 255.
pub fn downwards(to: u8x16, from: u8x16) -> u8x16
    ensures { HasLanes result (λ i. if nat_lt (slice_index from i) (slice_index to i) then 0 else 255) }
{
    from.simd_lt(to).select(u8x16::splat(0), u8x16::splat(255))
}

/// The same of 16 bits.
pub fn short_downwards(to: u16x16, from: u16x16) -> u8x16
    ensures { HasLanes result (λ i. if nat_lt (slice_index from i) (slice_index to i) then 0 else 255) }
{
    find_zeros(subtract_saturating(to, from))
}

/// 255 where a lane is 0, else 0. The lanes are packed into signed bytes first, of which those alone are 0.
fn find_zeros(v: u16x16) -> u8x16
    ensures { HasLanes result (λ i. if nat_eq (slice_index v i) 0 then 255 else 0) }
{
    i16x16::from_le_bytes(v.to_le_bytes())
        .simd_clamp(i16x16::splat(-128), i16x16::splat(127))
        .cast::<i8>()
        .simd_eq(i8x16::splat(0))
        .select(u8x16::splat(255), u8x16::splat(0))
}

/// The channels `b`, moved so far: up where `down` is 0, to 255 at most, and down where it is 255. Downwards goes what a channel
/// lacks of 255 upwards.
pub fn shift(down: u8x16, b: u8x16, by: u8x16) -> u8x16
    requires { IsTest down }
    ensures { HasLanes result (λ i. moved 1 (slice_index down i) (slice_index b i) (slice_index by i)) }
{
    turn(down, add_saturating(turn(down, b), by))
}

/// The channels `b` where `down` is 0, and what they lack of 255 where it is 255.
fn turn(down: u8x16, b: u8x16) -> u8x16
    requires { IsTest down }
    ensures { HasLanes result (λ i. if nat_lt (slice_index down i) 1 then slice_index b i else 255 - slice_index b i) }
{
    b ^ down
}

/// The channels that show where an opaque plane's layer with the weights `shown` lies over a lower one of which it hides the weights
/// `hidden`, all out of 255.
pub fn weighted_by_pixels(shown: u8x16, hidden: u8x16, f: u8x16, b: u8x16) -> u8x16
    ensures { HasLanes result (λ i. min 255 ((slice_index shown i * slice_index f i
        + (255 - slice_index hidden i) * slice_index b i + 127) / 255)) }
{
    as_short_bytes(over_255(short_numerators(shown, hidden, f, b)))
}

/// The numerators of the channels that show, each with half of the denominator for the rounding.
fn short_numerators(shown: u8x16, hidden: u8x16, f: u8x16, b: u8x16) -> u16x16
    ensures { HasLanes result (λ i. bounded 65025 127
        (slice_index shown i * slice_index f i + (255 - slice_index hidden i) * slice_index b i)) }
{
    let layer = shown.cast::<u16>() * f.cast::<u16>();
    let lower = (u16x16::splat(255) - hidden.cast::<u16>()) * b.cast::<u16>();
    layer + lower.simd_min(u16x16::splat(65025) - layer) + u16x16::splat(127)
}

/// Each lane divided by 255.
fn over_255(n: u16x16) -> u16x16
    requires { IsAtMost 65152 n }
    ensures { HasLanes result (λ i. slice_index n i / 255) }
{
    (n + u16x16::splat(1) + (n >> 8)) >> 8
}

/// Lanes of at most 255 as bytes.
fn as_short_bytes(v: u16x16) -> u8x16
    requires { IsAtMost 255 v }
    ensures { HasLanes result (λ i. slice_index v i) }
{
    v.cast::<u8>()
}

/// The same where LLVM knows no bound of the lanes. Signed lanes that are bounded so are packed by one instruction.
fn pack(v: u16x16) -> u8x16
    requires { IsAtMost 255 v }
    ensures { HasLanes result (λ i. slice_index v i) }
{
    v.cast::<i16>()
        .simd_clamp(i16x16::splat(0), i16x16::splat(255))
        .cast::<u8>()
}
