//! The words of a pattern.
ghost use Rattle.std.specs.Prelude.{◌≡◌, ◌<◌, ◌≤◌, ◌*◌, ◌+◌, ◌/◌, ◌%◌, ◌==◌, ◌++◌, if◌then◌else◌, IfOk};
ghost use Rattle.kms_model.specs.Frames.FrameBytes.{word_in};
ghost use Rattle.kms_model.specs.Things.Kept.{Fills, buffer_words, row_words};
ghost use Rattle.kms_buffers.specs.Places.{HasWord, HasRow};

use kms_model::{Format, NoMemory, Pattern, Seq};
use std::alloc::Global;

/// The words of a pattern for a width and a height in pixels, row by row.
pub fn words(
    alloc: Global,
    pattern: &Pattern,
    format: Format,
    width: u32,
    height: u32,
) -> Result<Seq<u32>, NoMemory>
    requires wide { width ≤ 4096 }
    requires high { height ≤ 4096 }
    requires fills { Fills pattern.now width height }
    ensures { IfOk result (λ all. all ≡ buffer_words pattern.now format width height) }
{
    let mut all = Vec::with_capacity(alloc, (width * height) as usize)?;
    for y in 0..height {
        push_row(&mut all, pattern, format, width, y)?;
    }
    Ok(Seq::from_vec(all))
}

// Appends the words of a row.
fn push_row(
    all: &mut Vec<u32>,
    pattern: &Pattern,
    format: Format,
    width: u32,
    y: u32,
) -> Result<(), NoMemory>
    requires wide { width ≤ 4096 }
    requires low { y < 4096 }
    requires holds { HasRow pattern.now width y }
    ensures { IfOk result (λ u. all.new.items ≡ all.old.items
        ++ row_words pattern.now format width y) }
{
    for x in 0..width {
        all.push(word(pattern, format, width, x, y))?;
    }
    Ok(())
}

// The word of a pattern at a place.
fn word(pattern: &Pattern, format: Format, width: u32, x: u32, y: u32) -> u32
    requires left { x < 4096 }
    requires low { y < 4096 }
    requires wide { width ≤ 4096 }
    requires holds { HasWord pattern.now width x y }
    ensures { result ≡ word_in pattern.now format width x y }
{
    match pattern {
        Pattern::Solid(p) => *p,
        Pattern::Checker { p, q, n } => checker(*p, *q, *n, x, y),
        Pattern::Ramp => ramp(format, x, y),
        Pattern::Pixels(words) => words.as_slice()[(y * width + x) as usize],
    }
}

// The word of a checker at a place.
fn checker(p: u32, q: u32, n: u32, x: u32, y: u32) -> u32
    requires side { 0 < n }
    requires left { x < 4096 }
    requires low { y < 4096 }
    ensures { result ≡ (if (x / n + y / n) % 2 == 0 then p else q) }
{
    if (x / n + y / n) % 2 == 0 { p } else { q }
}

// The word of the ramp at a place.
fn ramp(format: Format, x: u32, y: u32) -> u32
    requires left { x < 4096 }
    requires low { y < 4096 }
    ensures { result ≡ word_in Pattern.Ramp format 0 x y }
{
    match format {
        Format::Xr24 | Format::Ar24 => {
            0xff000000 + x % 256 * 65536 + y % 256 * 256 + (x + y) % 256
        }
        Format::Rg16 => x % 32 * 2048 + y % 64 * 32 + (x + y) % 32,
    }
}
