//! Formats, and lists parted by commas.
ghost use Rattle.std.specs.Prelude.{◌≡◌, ◌≤◌, ◌<◌, ◌^◌, ℕ, IfSome, option_map};
ghost use Rattle.kms_model.specs.Script.Grammar.{parted, format_named, format_at, rising, crtc_list, format_list};
ghost use Rattle.kms_words.specs.Fitting.{IsFitCount, IsFitMask};
ghost use Rattle.kms_words.specs.Listed.{HasFew, bit_of, bit_count};

use crate::words::{read_dec, split_at_byte, take_field};
use kms_model::Format;

/// The format of a name.
fn format_named(word: &[u8]) -> Option<Format>
    ensures { result ≡ format_named word.now }
{
    if word == b"XR24".as_slice() {
        Some(Format::Xr24)
    } else if word == b"AR24".as_slice() {
        Some(Format::Ar24)
    } else if word == b"RG16".as_slice() {
        Some(Format::Rg16)
    } else {
        None
    }
}

/// A format, and the bytes behind it.
#[tactic(auto, unfolding(kms_model::specs::Script::Grammar::format_at))]
pub fn take_format(bytes: &[u8]) -> Option<(Format, &[u8])>
    ensures { option_map (λ x. (x.0, x.1.now)) result ≡ format_at bytes.now }
{
    let (word, rest) = take_field(bytes)?;
    let format = format_named(word)?;
    Some((format, rest))
}

/// What a list has: CRTC indices of a device with so many CRTCs, or formats.
#[derive(Clone, Copy)]
enum Listed {
    Crtcs(u32),
    Formats,
}

/// The bit that a word of a list stands for.
fn bit_of(listed: Listed, word: &[u8]) -> Option<u32>
    requires { HasFew listed }
    ensures value { result ≡ bit_of listed word.now }
    ensures most { IfSome result (λ bit. bit < 4) }
    ensures below { IfSome result (λ bit. bit < bit_count listed) }
{
    match listed {
        Listed::Crtcs(crtcs) => Some(read_dec(word, u64::from(crtcs.saturating_sub(1)))? as u32),
        Listed::Formats => Some(format_named(word)?.bit()),
    }
}

/// The mask of one bit.
fn mask_of(bit: u32) -> u32
    requires { bit < 4 }
    ensures { result ≡ 2 ^ bit }
{
    1 << bit
}

/// The mask of a list whose bits rise.
fn read_list(listed: Listed, word: &[u8]) -> Option<u32>
    requires { HasFew listed }
    ensures value { result ≡ rising (bit_of listed) 0 (parted 44 word.now) }
    ensures below { IfSome result (λ mask. mask < 2 ^ bit_count listed) }
{
    let mut mask = 0u32;
    let mut low = 0u32;
    let mut rest = word;
    'parts: loop {
        let (part, after) = split_at_byte(rest, b',');
        let bit = bit_of(listed, part)?;
        if bit < low {
            return None;
        }
        mask += mask_of(bit);
        low = bit + 1;
        let [_, more @ ..] = after else {
            return Some(mask);
        };
        rest = more;
    }
}

/// The mask of a list of CRTC indices, of a device with 1 to 4 CRTCs.
#[tactic(auto, unfolding(kms_model::specs::Script::Grammar::crtc_list))]
pub fn read_crtcs(crtcs: u32, word: &[u8]) -> Option<u32>
    requires { IsFitCount crtcs }
    ensures value { result ≡ crtc_list crtcs word.now }
    ensures below { IfSome result (IsFitMask crtcs) }
{
    read_list(Listed::Crtcs(crtcs), word)
}

/// The mask of a list of formats.
#[tactic(auto, unfolding(kms_model::specs::Script::Grammar::format_list))]
pub fn read_formats(word: &[u8]) -> Option<u32>
    ensures value { result ≡ format_list word.now }
    ensures below { IfSome result (λ mask. mask < 8) }
{
    read_list(Listed::Formats, word)
}
