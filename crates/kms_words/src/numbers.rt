//! Numbers with a sign, flags, pixels and bytes.
ghost use Rattle.std.specs.Prelude.{◌≡◌, ◌≤◌, ◌<◌, ℕ, IfOk, IfSome, length, option_map};
ghost use Rattle.kms_model.specs.Script.Grammar.{negative, int, hex, hex_at, digits_of, pixel_number, pixel_at, hex_pair, hex_bytes, blob_bytes};

use crate::limits::MAX_BLOB;
use crate::words::{hex_value, is_hex, read_dec, read_digits, strip, take_field};
use kms_model::{Format, NoMemory, Seq};
use std::alloc::Global;

fn read_negative(digits: &[u8]) -> Option<i128>
    ensures { result ≡ negative digits.now }
{
    let number = read_dec(digits, 1 << 63)?;
    if number == 0 {
        return None;
    }
    Some(-i128::from(number))
}

/// The number of a word, from -9223372036854775808 to 18446744073709551615: `-` and a number that is not 0, or a
/// number. Each has one spelling: no leading zero, no `-0` and no `+`.
#[tactic(auto, unfolding(kms_model::specs::Script::Grammar::int))]
pub fn read_int(word: &[u8]) -> Option<i128>
    ensures { result ≡ int word.now }
{
    match strip(b"-", word) {
        Some(digits) => read_negative(digits),
        None => Some(i128::from(read_dec(word, u64::MAX)?)),
    }
}

/// The number of `0x` and `0`, or at most eight lower-case hexadecimal digits of which the first is not 0.
#[tactic(auto, unfolding(kms_model::specs::Script::Grammar::hex))]
fn read_hex(word: &[u8]) -> Option<u32>
    ensures { result ≡ hex word.now }
{
    let digits = strip(b"0x", word)?;
    if digits.len() > 8 {
        return None;
    }
    let [first, others @ ..] = digits else {
        return None;
    };
    if *first == b'0' {
        return if others.is_empty() { Some(0) } else { None };
    }
    read_digits(digits)
}

/// A hexadecimal number, and the bytes behind it.
pub fn take_hex(bytes: &[u8]) -> Option<(u32, &[u8])>
    ensures shorter { IfSome result (λ x. length x.1.now ≤ length bytes.now) }
    ensures value { option_map (λ x. (x.0, x.1.now)) result ≡ hex_at bytes.now }
{
    let (word, rest) = take_field(bytes)?;
    let number = read_hex(word)?;
    Some((number, rest))
}

/// How many hexadecimal digits the word of a pixel has.
fn digits_of(format: Format) -> usize
    ensures value { result ≡ digits_of format }
    ensures most { result ≤ 8 }
{
    match format {
        Format::Rg16 => 4,
        Format::Xr24 | Format::Ar24 => 8,
    }
}

#[tactic(auto, unfolding(kms_model::specs::Script::Grammar::pixel_number))]
fn read_pixel(format: Format, word: &[u8]) -> Option<u32>
    ensures { result ≡ pixel_number format word.now }
{
    if word.len() == digits_of(format) {
        read_digits(word)
    } else {
        None
    }
}

/// The word of a pixel in a format, and the bytes behind it.
#[tactic(auto, unfolding(kms_model::specs::Script::Grammar::pixel_at))]
pub fn take_pixel(format: Format, bytes: &[u8]) -> Option<(u32, &[u8])>
    ensures { option_map (λ x. (x.0, x.1.now)) result ≡ pixel_at format bytes.now }
{
    let (word, rest) = take_field(bytes)?;
    let number = read_pixel(format, word)?;
    Some((number, rest))
}

/// The byte of two hexadecimal digits.
#[tactic(auto, unfolding(kms_model::specs::Script::Grammar::hex_pair))]
fn read_pair(high: u8, low: u8) -> Option<u8>
    ensures { result ≡ hex_pair high low }
{
    if is_hex(high) && is_hex(low) {
        Some((hex_value(high) * 16 + hex_value(low)) as u8)
    } else {
        None
    }
}

fn read_bytes(alloc: Global, word: &[u8]) -> Result<Option<Seq<u8>>, NoMemory>
    ensures { IfOk result (λ bytes. bytes ≡ hex_bytes word.now) }
{
    let mut bytes = Seq::new(alloc);
    let mut rest = word;
    'reading: while let [high, low, after @ ..] = rest {
        let Some(byte) = read_pair(*high, *low) else {
            return Ok(None);
        };
        bytes.push(byte)?;
        rest = after;
    }
    match rest {
        [] => Ok(Some(bytes)),
        [_, ..] => Ok(None),
    }
}

/// The bytes of a word of two hexadecimal digits each, from 1 to 2048 of them.
pub fn read_blob(alloc: Global, word: &[u8]) -> Result<Option<Seq<u8>>, NoMemory>
    ensures { IfOk result (λ bytes. bytes ≡ blob_bytes word.now) }
{
    if word.len() < 2 || word.len() > 2 * MAX_BLOB {
        return Ok(None);
    }
    read_bytes(alloc, word)
}
