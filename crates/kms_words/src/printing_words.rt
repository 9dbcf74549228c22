//! The words that print a script's values.
ghost use Rattle.std.specs.Prelude.{◌≡◌, ◌<◌, ◌++◌, false, OnOk};
ghost use Rattle.std.specs.Fmt.{decimal, signed_decimal, digit_glyph};
ghost use Rattle.kms_words.specs.Printed.{bits_in, item_word};
ghost use Rattle.kms_model.specs.Report.Replies.{kind_name};
ghost use Rattle.kms_model.specs.Script.Spelling.{assign_word, blob_word, crtcs_word, format_at_bit, format_word, formats_word, hex_digits, hex_word, list_word, name_word, pixel_word, property_word, type_word, value_word};

use itoa::Buffer;
use kms_model::{Assign, Format, Kind, MAX_CRTCS, NoMemory, PropRef, Seq, Value, has_bit};
use kms_props::row_of;
use std::alloc::Global;

pub fn format_word(format: Format) -> &'static [u8]
    ensures { result.now ≡ format_word format }
{
    match format {
        Format::Xr24 => b"XR24",
        Format::Ar24 => b"AR24",
        Format::Rg16 => b"RG16",
    }
}

pub fn kind_word(kind: Kind) -> &'static [u8]
    ensures { result.now ≡ kind_name kind }
{
    match kind {
        Kind::Crtc => b"crtc",
        Kind::Plane => b"plane",
        Kind::Conn => b"conn",
        Kind::Enc => b"enc",
    }
}

/// The word of a value of the property `type`.
pub fn type_word(kind: u32) -> &'static [u8]
    ensures { result.now ≡ type_word kind }
{
    match kind {
        0 => b"overlay",
        1 => b"primary",
        _ => b"cursor",
    }
}

/// The name with a number: empty beyond the names.
pub fn name_word(names: &[Seq<u8>], number: u32) -> &[u8]
    ensures { result.now ≡ name_word names.now number }
{
    match names.get(number as usize) {
        Some(name) => name.as_slice(),
        None => &[],
    }
}

/// The name of a property: empty for an id beyond the table.
fn property_word(names: &[Seq<u8>], prop: PropRef) -> &[u8]
    ensures { result.now ≡ property_word names.now prop }
{
    match prop {
        PropRef::Known(id) => match row_of(id) {
            Some(row) => row.name,
            None => &[],
        },
        PropRef::Unknown(number) => name_word(names, number),
    }
}

/// Adds a number in decimal digits.
pub fn push_decimal(text: &mut Vec<u8>, number: u64) -> Result<(), NoMemory>
    ensures { OnOk result (text.new.items ≡ text.old.items ++ decimal number) }
{
    let mut buffer = Buffer::new();
    text.extend_from_slice(buffer.format(number).as_bytes())?;
    Ok(())
}

/// Adds a number that may be negative.
fn push_integer(text: &mut Vec<u8>, number: i128) -> Result<(), NoMemory>
    ensures { OnOk result (text.new.items ≡ text.old.items ++ signed_decimal number) }
{
    let mut buffer = Buffer::new();
    text.extend_from_slice(buffer.format(number).as_bytes())?;
    Ok(())
}

/// Adds `0x` and a number in hexadecimal digits.
pub fn push_hex(alloc: Global, text: &mut Vec<u8>, number: u32) -> Result<(), NoMemory>
    ensures { OnOk result (text.new.items ≡ text.old.items ++ hex_word number) }
{
    let word = format!(in alloc; "0x{number:x}")?;
    text.extend_from_slice(word.as_bytes())?;
    Ok(())
}

fn digit_glyph(digit: u8) -> u8
    requires { digit < 16 }
    ensures { result ≡ digit_glyph false digit }
{
    if digit < 10 {
        b'0' + digit
    } else {
        b'a' - 10 + digit
    }
}

/// Adds so many hexadecimal digits, the last ones of a number.
fn push_digits(text: &mut Vec<u8>, count: u32, number: u32) -> Result<(), NoMemory>
    ensures { OnOk result (text.new.items ≡ text.old.items ++ hex_digits count number) }
{
    if count == 0 {
        return Ok(());
    }
    push_digits(text, count - 1, number / 16)?;
    text.push(digit_glyph((number % 16) as u8))?;
    Ok(())
}

/// Adds a pixel in a format.
pub fn push_pixel(text: &mut Vec<u8>, format: Format, pixel: u32) -> Result<(), NoMemory>
    ensures { OnOk result (text.new.items ≡ text.old.items ++ pixel_word format pixel) }
{
    match format {
        Format::Xr24 | Format::Ar24 => push_digits(text, 8, pixel),
        Format::Rg16 => push_digits(text, 4, pixel),
    }
}

/// Adds two hexadecimal digits for each byte.
pub fn push_blob(text: &mut Vec<u8>, bytes: &[u8]) -> Result<(), NoMemory>
    ensures { OnOk result (text.new.items ≡ text.old.items ++ blob_word bytes.now) }
{
    for byte in bytes {
        push_digits(text, 2, u32::from(*byte))?;
    }
    Ok(())
}

/// What the bits of a set stand for.
#[derive(Clone, Copy)]
enum Items {
    Crtcs,
    Formats,
}

fn bits_in(items: Items) -> u32
    ensures value { result ≡ bits_in items }
    ensures few { result < 5 }
{
    match items {
        Items::Crtcs => MAX_CRTCS,
        Items::Formats => 3,
    }
}

fn format_at_bit(bit: u32) -> Format
    ensures { result ≡ format_at_bit bit }
{
    match bit {
        0 => Format::Xr24,
        1 => Format::Ar24,
        _ => Format::Rg16,
    }
}

/// Adds the word of a bit.
fn push_item(text: &mut Vec<u8>, items: Items, bit: u32) -> Result<(), NoMemory>
    ensures { OnOk result (text.new.items ≡ text.old.items ++ item_word items bit) }
{
    match items {
        Items::Crtcs => push_decimal(text, u64::from(bit)),
        Items::Formats => {
            text.extend_from_slice(format_word(format_at_bit(bit)))?;
            Ok(())
        }
    }
}

/// Adds the words of a set's bits from the lowest, parted by commas.
fn push_list(text: &mut Vec<u8>, items: Items, mask: u32) -> Result<(), NoMemory>
    ensures { OnOk result (text.new.items
        ≡ text.old.items ++ list_word (item_word items) (bits_in items) mask) }
{
    let mut separator: &[u8] = b"";
    for bit in 0..bits_in(items) {
        if !has_bit(mask, bit) {
            continue;
        }
        text.extend_from_slice(separator)?;
        push_item(text, items, bit)?;
        separator = b",";
    }
    Ok(())
}

/// Adds a set of CRTCs, by its mask.
pub fn push_crtcs(text: &mut Vec<u8>, mask: u32) -> Result<(), NoMemory>
    ensures { OnOk result (text.new.items ≡ text.old.items ++ crtcs_word mask) }
{
    push_list(text, Items::Crtcs, mask)
}

/// Adds a set of formats, by its mask.
pub fn push_formats(text: &mut Vec<u8>, mask: u32) -> Result<(), NoMemory>
    ensures { OnOk result (text.new.items ≡ text.old.items ++ formats_word mask) }
{
    push_list(text, Items::Formats, mask)
}

fn push_value(text: &mut Vec<u8>, names: &[Seq<u8>], value: Value) -> Result<(), NoMemory>
    ensures { OnOk result (text.new.items ≡ text.old.items ++ value_word names.now value) }
{
    match value {
        Value::Num(number) => push_integer(text, number),
        Value::Named(label) => push_after(text, b"@", name_word(names, label)),
        Value::New(label) => push_after(text, b"+", name_word(names, label)),
        Value::Crtc(index) => {
            text.extend_from_slice(b"crtc")?;
            push_decimal(text, u64::from(index))
        }
    }
}

/// Adds a mark, and a word behind it.
fn push_after(text: &mut Vec<u8>, mark: &[u8], word: &[u8]) -> Result<(), NoMemory>
    ensures { OnOk result (text.new.items ≡ text.old.items ++ mark.now ++ word.now) }
{
    text.extend_from_slice(mark)?;
    text.extend_from_slice(word)?;
    Ok(())
}

/// Adds `OBJ.PROP=VALUE`.
pub fn push_assign(text: &mut Vec<u8>, names: &[Seq<u8>], assign: &Assign) -> Result<(), NoMemory>
    ensures { OnOk result (text.new.items ≡ text.old.items ++ assign_word names.now assign.now) }
{
    text.extend_from_slice(kind_word(assign.kind))?;
    push_decimal(text, u64::from(assign.index))?;
    push_after(text, b".", property_word(names, assign.prop))?;
    text.push(b'=')?;
    push_value(text, names, assign.value)
}
