//! Words of a call's line: objects of the device, labels, and numbers in the ranges of their properties.
ghost use Rattle.std.specs.Prelude.{◌≡◌, IsTrue, option_map};
ghost use Rattle.kms_model.specs.Legacy.LegacyCalls.{corner_at, destination_at, event_word, index_at, is_number, is_off, named_at, part_at, ranged_at, rect_at};
ghost use Rattle.kms_model.specs.Request.Resolves.{IsSettableNumber};
ghost use Rattle.kms_model.specs.Script.Words.{read_at};

use kms_model::properties::{CRTC_H, CRTC_W, CRTC_X, CRTC_Y, SRC_H, SRC_W, SRC_X, SRC_Y};
use kms_model::{Kind, Range, Rect, Topology};
use kms_props::row_of;
use kms_request::exists;
use kms_words::{is_label, read_int, strip, take_dec, take_end, take_field};

/// The index of an object of a device, and the bytes behind it.
#[tactic(auto, unfolding(kms_model::specs::Legacy::LegacyCalls::index_at))]
pub fn take_index<'a>(topology: &Topology, kind: Kind, bytes: &'a [u8]) -> Option<(u32, &'a [u8])>
    ensures { option_map (λ x. (x.0, x.1.now)) result ≡ index_at topology.now kind bytes.now }
{
    let (index, rest) = take_dec(bytes, 255)?;
    let index = index as u32;
    if exists(topology, kind, index) {
        Some((index, rest))
    } else {
        None
    }
}

/// The label of `@LABEL`, and the bytes behind it.
#[tactic(auto, unfolding(kms_model::specs::Legacy::LegacyCalls::named_at))]
pub fn take_named(bytes: &[u8]) -> Option<(&[u8], &[u8])>
    ensures { option_map (λ x. (x.0.now, x.1.now)) result ≡ named_at bytes.now }
{
    let (word, rest) = take_field(bytes)?;
    let label = strip(b"@", word)?;
    if is_label(label) {
        Some((label, rest))
    } else {
        None
    }
}

/// Whether a number is among those of the property of an id.
fn is_number(prop: u32, number: i128) -> bool
    ensures is { result ≡ is_number prop number }
    ensures narrow { IsTrue result → IsSettableNumber number }
{
    let Some(row) = row_of(prop) else {
        return false;
    };
    match row.range {
        Range::Numbers { low, high } => low <= number && number <= high,
        Range::Thing { .. } | Range::CrtcName => false,
    }
}

/// A number from -2147483648 to 4294967295, in fewer bits.
fn narrow(number: i128) -> i64
    requires { IsSettableNumber number }
    ensures { result ≡ number }
{
    number as i64
}

/// A number of the property of an id, and the bytes behind it.
#[tactic(auto, unfolding(kms_model::specs::Legacy::LegacyCalls::ranged_at))]
fn take_ranged(prop: u32, bytes: &[u8]) -> Option<(i64, &[u8])>
    ensures { option_map (λ x. (x.0, x.1.now)) result ≡ ranged_at prop bytes.now }
{
    let (word, rest) = take_field(bytes)?;
    let number = read_int(word)?;
    if is_number(prop, number) {
        Some((narrow(number), rest))
    } else {
        None
    }
}

/// Four numbers of the properties of these ids, as a rectangle, and the bytes behind them.
#[tactic(auto, unfolding(kms_model::specs::Legacy::LegacyCalls::rect_at))]
fn take_rect(left: u32, top: u32, width: u32, height: u32, bytes: &[u8]) -> Option<(Rect, &[u8])>
    ensures { option_map (λ x. (x.0, x.1.now)) result ≡ rect_at left top width height bytes.now }
{
    let (x, rest) = take_ranged(left, bytes)?;
    let (y, rest) = take_ranged(top, rest)?;
    let (w, rest) = take_ranged(width, rest)?;
    let (h, rest) = take_ranged(height, rest)?;
    Some((Rect { x, y, w, h }, rest))
}

/// Where on a CRTC a plane is shown, and the bytes behind it.
pub fn take_destination(bytes: &[u8]) -> Option<(Rect, &[u8])>
    ensures { option_map (λ x. (x.0, x.1.now)) result ≡ destination_at bytes.now }
{
    take_rect(CRTC_X, CRTC_Y, CRTC_W, CRTC_H, bytes)
}

/// Which part of a framebuffer a plane shows, and the bytes behind it.
pub fn take_part(bytes: &[u8]) -> Option<(Rect, &[u8])>
    ensures { option_map (λ x. (x.0, x.1.now)) result ≡ part_at bytes.now }
{
    take_rect(SRC_X, SRC_Y, SRC_W, SRC_H, bytes)
}

/// The left and the upper edge of a destination, at the end of the line.
#[tactic(auto, unfolding(kms_model::specs::Legacy::LegacyCalls::corner_at))]
pub fn take_corner(bytes: &[u8]) -> Option<(i64, i64)>
    ensures { result ≡ corner_at bytes.now }
{
    let (x, rest) = take_ranged(CRTC_X, bytes)?;
    let (y, rest) = take_ranged(CRTC_Y, rest)?;
    take_end(rest)?;
    Some((x, y))
}

/// Whether `0x0` or `0x1` asks for an event; none for another word.
fn event_word(word: &[u8]) -> Option<bool>
    ensures { result ≡ event_word word.now }
{
    if word == b"0x0".as_slice() {
        Some(false)
    } else if word == b"0x1".as_slice() {
        Some(true)
    } else {
        None
    }
}

/// The flags of a flip, by which it asks for an event or not, and the bytes behind them.
pub fn take_event(bytes: &[u8]) -> Option<(bool, &[u8])>
    ensures { option_map (λ x. (x.0, x.1.now)) result ≡ read_at event_word bytes.now }
{
    let (word, rest) = take_field(bytes)?;
    let event = event_word(word)?;
    Some((event, rest))
}

/// Whether what is left of the line is the word `off`.
pub fn is_off(bytes: &[u8]) -> bool
    ensures { result ≡ is_off bytes.now }
{
    bytes == b" off".as_slice()
}
