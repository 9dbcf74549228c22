//! The lines that print commands.
ghost use Rattle.std.specs.Prelude.{◌≡◌, ◌++◌, ◌∷◌, [], map, codes, OnOk};
ghost use Rattle.std.specs.Fmt.{decimal};
ghost use Rattle.std.specs.List.{flat_map};
ghost use Rattle.kms_model.specs.Device.Modes.{mode_numbers};
ghost use Rattle.kms_model.specs.Report.TextLines.{line};
ghost use Rattle.kms_words.specs.Printed.{fields};
ghost use Rattle.kms_model.specs.Script.Spelling.{assign_word, command_words, format_word, hex_word, spelt_mode, name_word, pattern_words, pixel_word};

use crate::printing_words::{
    format_word, name_word, push_assign, push_blob, push_decimal, push_hex, push_pixel,
};
use crate::words::split_at_byte;
use kms_model::{Assign, Command, Format, Mode, NoMemory, Pattern, Request, Seq};
use std::alloc::Global;

/// Adds a word with a blank before it.
pub fn push_word(text: &mut Vec<u8>, word: &[u8]) -> Result<(), NoMemory>
    ensures { OnOk result (text.new.items ≡ text.old.items ++ 32 ∷ word.now) }
{
    text.push(b' ')?;
    text.extend_from_slice(word)?;
    Ok(())
}

/// Adds a number with a blank before it.
pub fn push_number(text: &mut Vec<u8>, number: u64) -> Result<(), NoMemory>
    ensures { OnOk result (text.new.items ≡ text.old.items ++ 32 ∷ decimal number) }
{
    text.push(b' ')?;
    push_decimal(text, number)
}

fn push_pixel_word(text: &mut Vec<u8>, format: Format, pixel: u32) -> Result<(), NoMemory>
    ensures { OnOk result (text.new.items ≡ text.old.items ++ 32 ∷ pixel_word format pixel) }
{
    text.push(b' ')?;
    push_pixel(text, format, pixel)
}

fn push_pixels(text: &mut Vec<u8>, format: Format, pixels: &[u32]) -> Result<(), NoMemory>
    ensures { OnOk result (text.new.items
        ≡ text.old.items ++ flat_map (λ p. 32 ∷ pixel_word format p) pixels.now) }
{
    for pixel in pixels {
        push_pixel_word(text, format, *pixel)?;
    }
    Ok(())
}

fn push_pattern(text: &mut Vec<u8>, format: Format, pattern: &Pattern) -> Result<(), NoMemory>
    ensures { OnOk result (text.new.items
        ≡ text.old.items ++ fields (pattern_words format pattern.now)) }
{
    match pattern {
        Pattern::Solid(pixel) => {
            push_word(text, b"solid")?;
            push_pixel_word(text, format, *pixel)
        }
        Pattern::Checker { p, q, n } => {
            push_word(text, b"checker")?;
            push_pixel_word(text, format, *p)?;
            push_pixel_word(text, format, *q)?;
            push_number(text, u64::from(*n))
        }
        Pattern::Ramp => push_word(text, b"ramp"),
        Pattern::Pixels(pixels) => {
            push_word(text, b"pixels")?;
            push_pixels(text, format, pixels.as_slice())
        }
    }
}

/// The numbers of a mode, in the order of its line.
fn mode_numbers(mode: &Mode) -> [u32; 14]
    ensures { result ≡ mode_numbers mode.now }
{
    [
        mode.clock,
        u32::from(mode.hdisplay),
        u32::from(mode.hsync_start),
        u32::from(mode.hsync_end),
        u32::from(mode.htotal),
        u32::from(mode.hskew),
        u32::from(mode.vdisplay),
        u32::from(mode.vsync_start),
        u32::from(mode.vsync_end),
        u32::from(mode.vtotal),
        u32::from(mode.vscan),
        mode.vrefresh,
        mode.flags,
        mode.kind,
    ]
}

fn push_numbers(text: &mut Vec<u8>, numbers: &[u32]) -> Result<(), NoMemory>
    ensures { OnOk result (text.new.items
        ≡ text.old.items ++ flat_map (λ n. 32 ∷ decimal n) numbers.now) }
{
    for number in numbers {
        push_number(text, u64::from(*number))?;
    }
    Ok(())
}

/// Adds the 15 words of a mode: its name ends before its first zero.
fn push_mode(text: &mut Vec<u8>, mode: &Mode) -> Result<(), NoMemory>
    ensures { OnOk result (text.new.items ≡ text.old.items ++ fields (spelt_mode mode.now)) }
{
    push_numbers(text, &mode_numbers(mode))?;
    let (name, _) = split_at_byte(&mode.name, 0);
    push_word(text, name)
}

fn push_assigns(text: &mut Vec<u8>, names: &[Seq<u8>], assigns: &[Assign]) -> Result<(), NoMemory>
    ensures { OnOk result (text.new.items
        ≡ text.old.items ++ flat_map (λ a. 32 ∷ assign_word names.now a) assigns.now) }
{
    for assign in assigns {
        text.push(b' ')?;
        push_assign(text, names, assign)?;
    }
    Ok(())
}

/// Adds `atomic HEX DEC` and the assignments.
fn push_atomic(
    alloc: Global,
    text: &mut Vec<u8>,
    names: &[Seq<u8>],
    request: &Request,
) -> Result<(), NoMemory>
    ensures { OnOk result (text.new.items ≡ text.old.items ++ codes "atomic"
        ++ fields (hex_word request.now.flags ∷ decimal request.now.user_data
        ∷ map (assign_word names.now) request.now.assigns)) }
{
    text.extend_from_slice(b"atomic ")?;
    push_hex(alloc, text, request.flags)?;
    push_number(text, request.user_data)?;
    push_assigns(text, names, request.assigns.as_slice())
}

/// Adds a command's first word and the label behind it.
fn push_front(
    text: &mut Vec<u8>,
    keyword: &[u8],
    names: &[Seq<u8>],
    label: u32,
) -> Result<(), NoMemory>
    ensures { OnOk result (text.new.items
        ≡ text.old.items ++ keyword.now ++ 32 ∷ name_word names.now label) }
{
    text.extend_from_slice(keyword)?;
    push_word(text, name_word(names, label))
}

/// Adds ` W H FMT`.
fn push_size(text: &mut Vec<u8>, width: u32, height: u32, format: Format) -> Result<(), NoMemory>
    ensures { OnOk result (text.new.items
        ≡ text.old.items ++ fields (decimal width ∷ decimal height ∷ format_word format ∷ [])) }
{
    push_number(text, u64::from(width))?;
    push_number(text, u64::from(height))?;
    push_word(text, format_word(format))
}

/// Adds a command's words: its line, without its line feed.
pub fn push_command_words(
    alloc: Global,
    text: &mut Vec<u8>,
    names: &[Seq<u8>],
    command: &Command,
) -> Result<(), NoMemory>
    ensures { OnOk result (text.new.items ++ 10 ∷ []
        ≡ text.old.items ++ line (command_words names.now command.now)) }
{
    match command {
        Command::Buffer {
            label,
            width,
            height,
            format,
            pattern,
        } => {
            push_front(text, b"buffer", names, *label)?;
            push_size(text, *width, *height, *format)?;
            push_pattern(text, *format, pattern)
        }
        Command::AddFb { label, buffer } => {
            push_front(text, b"addfb", names, *label)?;
            push_word(text, name_word(names, *buffer))
        }
        Command::Mode { label, mode } => {
            push_front(text, b"mode", names, *label)?;
            push_mode(text, mode)
        }
        Command::Blob { label, bytes } => {
            push_front(text, b"blob", names, *label)?;
            text.push(b' ')?;
            push_blob(text, bytes.as_slice())
        }
        Command::Destroy { label } => push_front(text, b"destroy", names, *label),
        Command::CloseFb { label } => push_front(text, b"closefb", names, *label),
        Command::Fence { label } => push_front(text, b"fence", names, *label),
        Command::Signal { label } => push_front(text, b"signal", names, *label),
        Command::Atomic(request) => push_atomic(alloc, text, names, request),
        Command::Wait => {
            text.extend_from_slice(b"wait")?;
            Ok(())
        }
    }
}

/// Adds a command's line.
pub fn push_command(
    alloc: Global,
    text: &mut Vec<u8>,
    names: &[Seq<u8>],
    command: &Command,
) -> Result<(), NoMemory>
    ensures { OnOk result (text.new.items
        ≡ text.old.items ++ line (command_words names.now command.now)) }
{
    push_command_words(alloc, text, names, command)?;
    text.push(b'\n')?;
    Ok(())
}
