//! What a buffer is filled with.
ghost use Rattle.std.specs.Prelude.{◌≡◌, ◌≤◌, ◌*◌, ℕ, IfOk, IfSome, length, option_map};
ghost use Rattle.kms_model.specs.Things.Kept.{Fills};
ghost use Rattle.kms_words.specs.Fitting.{IsOfPixels};
ghost use Rattle.kms_model.specs.Script.CommandLines.{pixels_at, solid_at, checker_at, ramp_at, each_pixel_at, pattern_at};

use crate::numbers::take_pixel;
use crate::words::{take_dec, take_end, take_field};
use kms_model::{Format, NoMemory, Pattern, Seq};
use std::alloc::Global;

#[tactic(auto, unfolding(kms_model::specs::Script::CommandLines::solid_at))]
fn take_solid(format: Format, bytes: &[u8]) -> Option<Pattern>
    ensures value { result ≡ solid_at format bytes.now }
    ensures fills { IfSome result (λ p. (w h : ℕ) → Fills p w h) }
{
    let (word, rest) = take_pixel(format, bytes)?;
    take_end(rest)?;
    Some(Pattern::Solid(word))
}

#[tactic(auto, unfolding(kms_model::specs::Script::CommandLines::checker_at))]
fn take_checker(format: Format, bytes: &[u8]) -> Option<Pattern>
    ensures value { result ≡ checker_at format bytes.now }
    ensures fills { IfSome result (λ p. (w h : ℕ) → Fills p w h) }
{
    let (p, rest) = take_pixel(format, bytes)?;
    let (q, rest) = take_pixel(format, rest)?;
    let (side, rest) = take_dec(rest, 4096)?;
    take_end(rest)?;
    if side == 0 {
        return None;
    }
    Some(Pattern::Checker {
        p,
        q,
        n: side as u32,
    })
}

fn take_ramp(bytes: &[u8]) -> Option<Pattern>
    ensures value { result ≡ ramp_at bytes.now }
    ensures fills { IfSome result (λ p. (w h : ℕ) → Fills p w h) }
{
    take_end(bytes)?;
    Some(Pattern::Ramp)
}

/// The words of exactly so many pixels, up to the end of the line.
fn take_pixels(
    alloc: Global,
    format: Format,
    count: u64,
    bytes: &[u8],
) -> Result<Option<Seq<u32>>, NoMemory>
    ensures value { IfOk result (λ words. words ≡ pixels_at format count bytes.now) }
    ensures all { IfOk result (λ words. IfSome words (λ w. length w ≡ count)) }
{
    let mut words = Seq::new(alloc);
    let mut rest = bytes;
    'reading: for _ in 0..count {
        let Some((word, after)) = take_pixel(format, rest) else {
            return Ok(None);
        };
        words.push(word)?;
        rest = after;
    }
    match rest {
        [] => Ok(Some(words)),
        [_, ..] => Ok(None),
    }
}

/// A word for each pixel, from 1 to 256 of them.
#[tactic(auto, unfolding(kms_model::specs::Script::CommandLines::each_pixel_at))]
fn take_each(
    alloc: Global,
    format: Format,
    count: u64,
    bytes: &[u8],
) -> Result<Option<Pattern>, NoMemory>
    ensures value { IfOk result (λ pattern. pattern ≡ each_pixel_at count format bytes.now) }
    ensures fills { IfOk result (λ pattern. IfSome pattern (λ p. IsOfPixels p count)) }
{
    if count < 1 || count > 256 {
        return Ok(None);
    }
    match take_pixels(alloc, format, count, bytes)? {
        Some(words) => Ok(Some(Pattern::Pixels(words))),
        None => Ok(None),
    }
}

/// The pattern of a buffer of a width, a height and a format, up to the end of the line.
#[tactic(auto, unfolding(kms_model::specs::Script::CommandLines::pattern_at))]
pub fn take_pattern(
    alloc: Global,
    width: u32,
    height: u32,
    format: Format,
    bytes: &[u8],
) -> Result<Option<Pattern>, NoMemory>
    ensures value { IfOk result (λ pattern. pattern ≡ pattern_at width height format bytes.now) }
    ensures fills { IfOk result (λ pattern. IfSome pattern (λ p. Fills p width height)) }
{
    let Some((word, rest)) = take_field(bytes) else {
        return Ok(None);
    };
    if word == b"solid".as_slice() {
        Ok(take_solid(format, rest))
    } else if word == b"checker".as_slice() {
        Ok(take_checker(format, rest))
    } else if word == b"ramp".as_slice() {
        Ok(take_ramp(rest))
    } else if word == b"pixels".as_slice() {
        take_each(alloc, format, u64::from(width) * u64::from(height), rest)
    } else {
        Ok(None)
    }
}
