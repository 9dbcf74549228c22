//! Rows of a frame.
ghost use Rattle.std.specs.Prelude.{◌≡◌, ◌<◌, ◌≤◌, ◌+◌, ◌-◌, ◌*◌, ◌&&◌, ◌==◌, ◌||◌, false, ℕ, List, length, slice_index, EachIndex, All};
ghost use Rattle.std.specs.List.{flat_map, range_with_len};
ghost use Rattle.kms_model.specs.Frames.FrameBytes.{black, blended, channels, colour_of, mixed};
ghost use Rattle.kms_compose.specs.Parts.{HasColumns, IsPart, channel_over, colour_at, shown_at, has_alpha, is_opaque, part_colour, parts_over, run_colour};

use crate::channels::{Alpha, Blue, Channel, Green, Red, unpack};
use crate::parts::{Places, VisiblePart, row_on};
use kms_blend::blend_row;
use kms_model::{Format, Layer};

/// How many pixels of a row are made at a time.
pub const RUN: usize = 256;

/// Pixels of a row side by side: so many, from `left` on.
#[derive(Clone, Copy)]
pub struct Piece {
    pub y: usize,
    pub left: usize,
    pub count: usize,
}

/// The channels of pixels that are made at a time, and room for those of a part: alpha, and one channel after the other.
#[derive(Drop)]
pub struct Channels {
    pub red: [u8; RUN],
    pub green: [u8; RUN],
    pub blue: [u8; RUN],
    alpha: [u8; RUN],
    own: [u8; RUN],
}

impl Channels {
    /// Those of black pixels.
    pub fn new() -> Channels {
        Channels {
            red: [0; RUN],
            green: [0; RUN],
            blue: [0; RUN],
            alpha: [0; RUN],
            own: [0; RUN],
        }
    }
}

/// Whether a layer hides what lies below it at each of its pixels, and shows its own channels as they are.
fn is_opaque(layer: &Layer) -> bool
    ensures { result ≡ is_opaque layer.now }
{
    layer.alpha == 65535 && (layer.blend == 2 || !has_alpha(layer.fb.format))
}

fn has_alpha(format: Format) -> bool
    ensures { result ≡ has_alpha format }
{
    match format {
        Format::Ar24 => true,
        Format::Xr24 | Format::Rg16 => false,
    }
}

/// The blend mode that a layer's pixels are blended in: None where its format has no alpha, since each mode gives the same there,
/// and None takes least.
fn blend_mode(layer: &Layer) -> u32
    requires { layer.now.blend ≤ 2 }
    ensures within { result ≤ 2 }
    ensures same { (a f b word : ℕ)
        → blended result a (colour_of layer.now.fb.format word).alpha f b
        ≡ blended layer.now.blend a (colour_of layer.now.fb.format word).alpha f b }
{
    if has_alpha(layer.fb.format) {
        layer.blend
    } else {
        2
    }
}

/// Puts a channel of words over that of a row, from `left` on. `alpha` has the words' alpha, and is not read where the
/// layer is opaque; `own` is room for as many numbers.
fn put_channel<C: Channel>(
    layer: &Layer,
    words: &[u32],
    left: usize,
    alpha: &[u8],
    own: &mut [u8],
    lower: &mut [u8],
)
    requires layer_alpha { layer.now.alpha ≤ 65535 }
    requires blend { layer.now.blend ≤ 2 }
    requires within { left + length words.now ≤ length lower.old }
    requires alpha { length words.now ≤ length alpha.now }
    requires alphas { is_opaque layer.now ≡ false → (k : ℕ) → k < length words.now
        → slice_index alpha.now k ≡ (colour_of layer.now.fb.format (slice_index words.now k)).alpha }
    requires own { length words.now ≤ length own.old }
    ensures { EachIndex lower.new (λ x. slice_index lower.new x
        ≡ channel_over layer.now C.channel (run_colour layer.now.fb.format words.now left x)
        (slice_index lower.old x)) }
{
    let end = left + words.len();
    let shown = &mut lower[left..end];
    if is_opaque(layer) {
        unpack::<C>(layer.fb.format, words, shown);
    } else {
        let alpha = &alpha[..words.len()];
        let own = &mut own[..words.len()];
        unpack::<C>(layer.fb.format, words, own);
        blend_row(blend_mode(layer), layer.alpha, alpha, own, shown);
    }
}

/// Reads the alpha of words, unless the layer is opaque.
fn read_alpha(layer: &Layer, words: &[u32], alpha: &mut [u8])
    requires { length words.now ≤ length alpha.old }
    ensures { is_opaque layer.now ≡ false → (k : ℕ) → k < length words.now
        → slice_index alpha.new k ≡ (colour_of layer.now.fb.format (slice_index words.now k)).alpha }
{
    if !is_opaque(layer) {
        unpack::<Alpha>(layer.fb.format, words, &mut alpha[..words.len()]);
    }
}

/// Reads the words at some columns of a row of an image.
fn gather(row: &[u32], columns: &[usize], out: &mut [u32])
    requires columns { All (λ column. column < length row.now) columns.now }
    requires out { length columns.now ≡ length out.old }
    ensures { EachIndex out.new (λ k.
        slice_index out.new k ≡ slice_index row.now (slice_index columns.now k)) }
{
    for (i, word) in out.iter_mut().enumerate() {
        *word = row[columns[i]];
    }
}

/// The words of a row of an image at some of the columns that a part shows, from the one of this number on, as many as there
/// is `room` for. Those that do not stand side by side are read into it.
fn words_of<'a>(part: &VisiblePart, row: &'a [u32], first: usize, room: &'a mut [u32]) -> &'a [u32]
    requires columns { HasColumns part.now }
    requires row { length row.now ≡ part.now.stride }
    requires within { first + length room.old ≤ part.now.width }
    ensures count { length result.now ≡ length room.old }
    ensures words { (k : ℕ) → k < length room.old
        → slice_index result.now k ≡ slice_index row.now (shown_at part.now.columns (first + k)) }
{
    match &part.columns {
        Places::From(column) => {
            let start = *column + first;
            &row[start..start + room.len()]
        }
        Places::At(columns) => {
            gather(row, &columns.as_slice()[first..first + room.len()], room);
            room
        }
    }
}

/// Puts words of a layer over some pixels of a row, from `left` of these on.
fn put_words(layer: &Layer, words: &[u32], left: usize, pixels: &mut Channels)
    requires layer_alpha { layer.now.alpha ≤ 65535 }
    requires blend { layer.now.blend ≤ 2 }
    requires within { left + length words.now ≤ 256 }
    ensures { (x : ℕ) → x < 256
        → colour_at pixels.new.red pixels.new.green pixels.new.blue x
        ≡ mixed layer.now (colour_at pixels.old.red pixels.old.green pixels.old.blue x)
        (run_colour layer.now.fb.format words.now left x) }
{
    let Channels {
        red,
        green,
        blue,
        alpha,
        own,
    } = pixels;
    read_alpha(layer, words, alpha);
    put_channel::<Red>(layer, words, left, alpha, own, red);
    put_channel::<Green>(layer, words, left, alpha, own, green);
    put_channel::<Blue>(layer, words, left, alpha, own, blue);
}

/// Puts a part on some pixels of a row. `shown` is room for a word of each.
fn put_part(part: &VisiblePart, piece: Piece, shown: &mut [u32], pixels: &mut Channels)
    requires part { IsPart part.now }
    requires narrow { piece.left + piece.count < 65536 }
    requires few { piece.count ≤ 256 }
    requires shown { length shown.old ≡ 256 }
    ensures { (x : ℕ) → x < piece.count
        → colour_at pixels.new.red pixels.new.green pixels.new.blue x
        ≡ mixed part.now.layer (colour_at pixels.old.red pixels.old.green pixels.old.blue x)
        (part_colour part.now (piece.left + x) piece.y) }
{
    let Piece { y, left, count } = piece;
    let from = part.left.max(left);
    let end = (part.left + part.width).min(left + count);
    if from >= end {
        return;
    }
    let Some(row) = row_on(part, y) else {
        return;
    };
    let words = &mut shown[..end - from];
    let words = words_of(part, row, from - part.left, words);
    put_words(&part.layer, words, from - left, pixels);
}

/// Makes some pixels of a row, of the parts over black. `shown` is room for a word of each.
pub fn make_run(parts: &[VisiblePart], piece: Piece, shown: &mut [u32], pixels: &mut Channels)
    requires parts { All IsPart parts.now }
    requires narrow { piece.left + piece.count < 65536 }
    requires few { piece.count ≤ 256 }
    requires shown { length shown.old ≡ 256 }
    ensures { (x : ℕ) → x < piece.count
        → colour_at pixels.new.red pixels.new.green pixels.new.blue x
        ≡ parts_over (piece.left + x) piece.y black parts.now }
{
    pixels.red.fill(0);
    pixels.green.fill(0);
    pixels.blue.fill(0);
    for part in parts {
        put_part(part, piece, shown, pixels);
    }
}

/// Puts the channels of a row side by side: red, green and blue of each pixel.
pub fn interleave(red: &[u8], green: &[u8], blue: &[u8], pixels: &mut [u8])
    requires green { length green.now ≡ length red.now }
    requires blue { length blue.now ≡ length red.now }
    requires room { length pixels.old ≡ 3 * length red.now }
    ensures { pixels.new
        ≡ flat_map (λ x. channels (colour_at red.now green.now blue.now x))
        (range_with_len 0 (length red.now)) }
{
    for (x, channel) in red.iter().enumerate() {
        let at = 3 * x;
        pixels[at] = *channel;
        pixels[at + 1] = green[x];
        pixels[at + 2] = blue[x];
    }
}
