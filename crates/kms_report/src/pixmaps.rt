//! Portable pixmaps in their plain form.
ghost use Rattle.std.specs.Prelude.{◌≡◌, ◌+◌, ◌*◌, ◌++◌, [], ◌∷◌, codes, map, length, IfOk, OnOk};
ghost use Rattle.std.specs.Fmt.{decimal};
ghost use Rattle.kms_model.specs.Report.TextLines.{line};
ghost use Rattle.kms_model.specs.Frames.Ppm.{number_lines, ppm};

use kms_model::NoMemory;
use std::alloc::Global;

/// The most bytes that a number takes, with what stands behind it.
const NUMBER_BYTES: usize = 4;

/// The most bytes of the lines before the first row.
const HEAD_BYTES: usize = 32;

/// The text of a frame of this size.
pub fn text_of(alloc: Global, frame: &[u8], width: u32, height: u32) -> Result<Vec<u8>, NoMemory>
    requires { length frame.now ≡ 3 * (width * height) }
    ensures { IfOk result (λ text. text.items ≡ ppm frame.now width height) }
{
    let room = frame.len().saturating_mul(NUMBER_BYTES);
    let mut text = Vec::with_capacity(alloc, room.saturating_add(HEAD_BYTES))?;
    push_pixmap(alloc, &mut text, frame, width, height)?;
    Ok(text)
}

/// Adds the text of a frame of this size.
pub fn push_pixmap(
    alloc: Global,
    text: &mut Vec<u8>,
    frame: &[u8],
    width: u32,
    height: u32,
) -> Result<(), NoMemory>
    requires { length frame.now ≡ 3 * (width * height) }
    ensures { OnOk result (text.new.items ≡ text.old.items ++ ppm frame.now width height) }
{
    let head = format!(in alloc; "P3\n{width} {height}\n255\n")?;
    text.extend_from_slice(head.as_bytes())?;
    push_rows(text, frame, 3 * width as usize, height)
}

/// Adds lines of so many numbers each.
fn push_rows(text: &mut Vec<u8>, numbers: &[u8], size: usize, count: u32) -> Result<(), NoMemory>
    requires { length numbers.now ≡ size * count }
    ensures { OnOk result (text.new.items ≡ text.old.items ++ number_lines count size numbers.now) }
{
    let mut rest = numbers;
    for _ in 0..count {
        let (row, below) = rest.split_at(size);
        push_row(text, row)?;
        rest = below;
    }
    Ok(())
}

/// Adds a line of numbers.
fn push_row(text: &mut Vec<u8>, numbers: &[u8]) -> Result<(), NoMemory>
    ensures { OnOk result (text.new.items ≡ text.old.items ++ line (map decimal numbers.now)) }
{
    let Some((last, others)) = numbers.split_last() else {
        text.push(b'\n')?;
        return Ok(());
    };
    for number in others {
        push_number(text, *number, b' ')?;
    }
    push_number(text, *last, b'\n')
}

/// Adds a number, and a mark behind it.
fn push_number(text: &mut Vec<u8>, number: u8, mark: u8) -> Result<(), NoMemory>
    ensures { OnOk result (text.new.items ≡ text.old.items ++ decimal number ++ mark ∷ []) }
{
    let ones = b'0' + number % 10;
    let tens = b'0' + number / 10 % 10;
    let hundreds = b'0' + number / 100;
    if number < 10 {
        text.extend_from_slice(&[ones, mark])?;
    } else if number < 100 {
        text.extend_from_slice(&[tens, ones, mark])?;
    } else {
        text.extend_from_slice(&[hundreds, tens, ones, mark])?;
    }
    Ok(())
}
