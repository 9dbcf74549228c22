//! The bytes that a text spells, and a text that spells bytes.
ghost use Rattle.std.specs.Prelude.{◌<◌, IfOk};

use std::alloc::{AllocError, AllocFailed, Global};

/// A text that spells no bytes, or no memory for them.
#[derive(Clone, Copy, Drop, PartialEq, Eq)]
pub(crate) enum Unspelled {
    Misspelt,
    NoMemory,
}

impl<T: Drop> From<AllocFailed<T>> for Unspelled {
    fn from(_e: AllocFailed<T>) -> Unspelled {
        Unspelled::NoMemory
    }
}

/// What the bytes so far have begun.
#[derive(Clone, Copy, Drop)]
enum Begun {
    Nothing,
    Escape,
    /// `\x` and no digit.
    Number,
    /// `\x` and one digit, of this value.
    Digit(u8),
}

/// The value of a lower-case hexadecimal digit.
fn hex_value(digit: u8) -> Result<u8, Unspelled>
    ensures { IfOk result (λ value. value < 16) }
{
    match digit {
        b'0'..=b'9' => Ok(digit - b'0'),
        b'a'..=b'f' => Ok(digit - b'a' + 10),
        _ => Err(Unspelled::Misspelt),
    }
}

/// Reads a byte behind what is begun: puts the byte that they spell behind others, or begins more.
fn read_byte(bytes: &mut Vec<u8>, begun: Begun, byte: u8) -> Result<Begun, Unspelled> {
    let spelled = match (begun, byte) {
        (Begun::Nothing, b'\\') => return Ok(Begun::Escape),
        (Begun::Escape, b'x') => return Ok(Begun::Number),
        (Begun::Number, digit) => return Ok(Begun::Digit(hex_value(digit)?)),
        (Begun::Digit(high), digit) => (high << 4) | hex_value(digit)?,
        (Begun::Nothing, _) | (Begun::Escape, b'\\') => byte,
        (Begun::Escape, _) => return Err(Unspelled::Misspelt),
    };
    bytes.push(spelled)?;
    Ok(Begun::Nothing)
}

/// The bytes that a text spells, and whether a lone backslash ends it. A byte stands for itself, `\\` for a backslash, and
/// `\xNN` for the byte of two lower-case hexadecimal digits.
fn spell(alloc: Global, text: &str) -> Result<(Vec<u8>, bool), Unspelled> {
    let mut bytes = Vec::new(alloc);
    let mut begun = Begun::Nothing;
    for byte in text.as_bytes() {
        begun = read_byte(&mut bytes, begun, *byte)?;
    }
    match begun {
        Begun::Nothing => Ok((bytes, false)),
        Begun::Escape => Ok((bytes, true)),
        Begun::Number | Begun::Digit(_) => Err(Unspelled::Misspelt),
    }
}

/// The bytes that a text spells, and a line feed behind them, but where a lone backslash ends the text.
pub(crate) fn spell_line(alloc: Global, text: &str) -> Result<Vec<u8>, Unspelled> {
    let (mut bytes, cut) = spell(alloc, text)?;
    if !cut {
        bytes.push(b'\n')?;
    }
    Ok(bytes)
}

/// The bytes that a text spells, which no lone backslash ends.
pub(crate) fn spell_word(alloc: Global, text: &str) -> Result<Vec<u8>, Unspelled> {
    match spell(alloc, text)? {
        (bytes, false) => Ok(bytes),
        (_, true) => Err(Unspelled::Misspelt),
    }
}

/// A text that spells these bytes, with no line feed behind them, but for the lone backslash at its end.
pub fn show(alloc: Global, bytes: &[u8]) -> Result<String, AllocError> {
    let mut text = String::new(alloc);
    for byte in bytes {
        match *byte {
            b'\\' => text.push_str("\\\\")?,
            b' '..=b'~' => text.push(char::from(*byte))?,
            _ => write!(text, "\\x{byte:02x}")?,
        }
    }
    Ok(text)
}
