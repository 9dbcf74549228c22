//! The channels of a word. (Header: `drm_fourcc.h`.)
ghost use Rattle.std.specs.Prelude.{◌≡◌, ◌<◌, ℕ, length, slice_index, EachIndex};
ghost use Rattle.kms_model.specs.declared.pictures.Colour.{Colour};
ghost use Rattle.kms_model.specs.Frames.FrameBytes.{colour_of, five_bits, six_bits};

use kms_model::Format;

/// A channel of a colour.
pub trait Channel {
    ghost channel: { Colour → ℕ };

    /// The channel of a word in a format.
    fn of_word(format: Format, word: u32) -> u8
        ensures { result ≡ channel (colour_of format word) };
}

/// Alpha, which is 255 in a format without one.
pub struct Alpha;

/// Red.
pub struct Red;

/// Green.
pub struct Green;

/// Blue.
pub struct Blue;

impl Channel for Alpha {
    ghost channel = { λ c. c.alpha };

    fn of_word(format: Format, word: u32) -> u8 {
        match format {
            Format::Xr24 | Format::Rg16 => 255,
            Format::Ar24 => (word / 16_777_216) as u8,
        }
    }
}

impl Channel for Red {
    ghost channel = { λ c. c.red };

    fn of_word(format: Format, word: u32) -> u8 {
        match format {
            Format::Xr24 | Format::Ar24 => (word / 65536 % 256) as u8,
            Format::Rg16 => five_bits(word / 2048 % 32),
        }
    }
}

impl Channel for Green {
    ghost channel = { λ c. c.green };

    fn of_word(format: Format, word: u32) -> u8 {
        match format {
            Format::Xr24 | Format::Ar24 => (word / 256 % 256) as u8,
            Format::Rg16 => six_bits(word / 32 % 64),
        }
    }
}

impl Channel for Blue {
    ghost channel = { λ c. c.blue };

    fn of_word(format: Format, word: u32) -> u8 {
        match format {
            Format::Xr24 | Format::Ar24 => (word % 256) as u8,
            Format::Rg16 => five_bits(word % 32),
        }
    }
}

// Five bits widened to eight.
fn five_bits(v: u32) -> u8
    requires { v < 32 }
    ensures { result ≡ five_bits v }
{
    (v * 8 + v / 4) as u8
}

// Six bits widened to eight.
fn six_bits(v: u32) -> u8
    requires { v < 64 }
    ensures { result ≡ six_bits v }
{
    (v * 4 + v / 16) as u8
}

/// Reads a channel of each word.
pub fn unpack<C: Channel>(format: Format, words: &[u32], out: &mut [u8])
    requires { length words.now ≡ length out.old }
    ensures { EachIndex out.new (λ k.
        slice_index out.new k ≡ C.channel (colour_of format (slice_index words.now k))) }
{
    for (i, place) in out.iter_mut().enumerate() {
        *place = C::of_word(format, words[i]);
    }
}
