//! The fields of a mode.
ghost use Rattle.std.specs.Prelude.{◌≡◌, ◌<◌, ◌≤◌, ◌^◌, ◌+◌, ◌++◌, ◌-◌, ℕ, List, option_map, length, replicate};
ghost use Rattle.std.specs.List.{list_all};
ghost use Rattle.kms_model.specs.Script.Words.{is_name_byte, name_at};
ghost use Rattle.kms_model.specs.Script.CommandLines.{five_at, mode_fields};

use crate::words::{MOST, take_dec, take_field};
use kms_model::Mode;

#[tactic(auto, unfolding(kms_model::specs::Script::CommandLines::five_at))]
fn take_five(bytes: &[u8]) -> Option<(u16, u16, u16, u16, u16, &[u8])>
    ensures { option_map (λ x. (x.0, x.1, x.2, x.3, x.4, x.5.now)) result ≡ five_at bytes.now }
{
    let (a, rest) = take_dec(bytes, 65535)?;
    let (b, rest) = take_dec(rest, 65535)?;
    let (c, rest) = take_dec(rest, 65535)?;
    let (d, rest) = take_dec(rest, 65535)?;
    let (e, rest) = take_dec(rest, 65535)?;
    Some((a as u16, b as u16, c as u16, d as u16, e as u16, rest))
}

fn is_name_byte(b: u8) -> bool
    ensures { result ≡ is_name_byte b }
{
    b.is_ascii_lowercase()
        || b.is_ascii_uppercase()
        || b.is_ascii_digit()
        || b == b'_'
        || b == b'.'
        || b == b'-'
}

fn all_name_bytes(word: &[u8]) -> bool
    ensures { result ≡ list_all is_name_byte word.now }
{
    word.iter().all(|b| is_name_byte(*b))
}

fn pad(word: &[u8]) -> [u8; 32]
    requires { length word.now < 32 }
    ensures { result ≡ word.now ++ replicate (32 - length word.now) 0 }
{
    let mut name = [0; 32];
    name[..word.len()].copy_from_slice(word);
    name
}

#[tactic(auto, unfolding(kms_model::specs::Script::Words::name_at))]
fn take_name(bytes: &[u8]) -> Option<([u8; 32], &[u8])>
    ensures { option_map (λ x. (x.0, x.1.now)) result ≡ name_at bytes.now }
{
    let (word, rest) = take_field(bytes)?;
    if !word.is_empty() && word.len() < 32 && all_name_bytes(word) {
        Some((pad(word), rest))
    } else {
        None
    }
}

/// The 15 words of a mode, and the bytes behind them.
#[tactic(auto, unfolding(kms_model::specs::Script::CommandLines::mode_fields))]
pub fn take_mode(bytes: &[u8]) -> Option<(Mode, &[u8])>
    ensures { option_map (λ x. (x.0, x.1.now)) result ≡ mode_fields bytes.now }
{
    let (clock, rest) = take_dec(bytes, MOST)?;
    let (hdisplay, hsync_start, hsync_end, htotal, hskew, rest) = take_five(rest)?;
    let (vdisplay, vsync_start, vsync_end, vtotal, vscan, rest) = take_five(rest)?;
    let (vrefresh, rest) = take_dec(rest, MOST)?;
    let (flags, rest) = take_dec(rest, MOST)?;
    let (kind, rest) = take_dec(rest, MOST)?;
    let (name, rest) = take_name(rest)?;
    let mode = Mode {
        clock: clock as u32,
        hdisplay,
        hsync_start,
        hsync_end,
        htotal,
        hskew,
        vdisplay,
        vsync_start,
        vsync_end,
        vtotal,
        vscan,
        vrefresh: vrefresh as u32,
        flags: flags as u32,
        kind: kind as u32,
        name,
    };
    Some((mode, rest))
}
