//! The words of a plane and of a CRTC.
ghost use Rattle.std.specs.Prelude.{◌≡◌, ◌<◌, ◌≤◌, ◌≤ℤ◌, ◌+◌, ◌*◌, ◌++◌, ℤ, pos, negsuc, length, take, drop, slice_range, Some};
ghost use Rattle.std.specs.List.{flat_map};
ghost use Rattle.std.specs.Int.{w32, cast_unsigned, to_le_bytes};
ghost use Rattle.kms_model.specs.Device.Objects.{object_id};
ghost use Rattle.kms_model.specs.Device.Sound.{IsPlaneInRange};
ghost use Rattle.kms_model.specs.Device.States.{natural};
ghost use Rattle.kms_model.specs.Firsts.{one_if};
ghost use Rattle.kms_model.specs.declared.objects.Kind.TheVariants.{Plane};
ghost use Rattle.kms_model.specs.Frames.Pictures.{seen_on};
ghost use Rattle.kms_model.specs.Frames.Rectangles.{IsNearRect};
ghost use Rattle.kms_model.specs.Machine.Framebuffers.{is_fb};
ghost use Rattle.kms_model.specs.Machine.Registers.{bytes_of_words, code_of, crtc_words, fb_in, fb_number, first_crtc_words, first_plane_words, gamma_bytes, gamma_in_words, gamma_with, gamma_words, mode_in_words, mode_words, plane_in, plane_words, words_of_bytes};
ghost use Rattle.kms_regs.specs.Rewritten.{rewritten, rewritten_crtc, rewritten_plane, rewritten_words};

use kms_blobs::{encode_mode, mode_of};
use kms_model::{CrtcState, FbInfo, Format, Gamma, Mode, PlaneState, Rect};
use kms_props::{Register, code, first_word, fourcc};
use std::marker::Model;

/// How many words a mode has.
const MODE_WORDS: usize = 17;

/// How many words a gamma table has.
const GAMMA_WORDS: usize = 192;

/// How many bytes these words have: the values of its three channels, with no padding.
const GAMMA_VALUES: usize = 768;

/// The words of a plane, by the table of registers. Contracts see them as the definitions' words.
#[derive(Clone, Copy, PartialEq, Eq)]
pub struct PlaneWords {
    /// The CRTC's id, or 0.
    pub crtc: u32,
    /// The framebuffer's id, or 0.
    pub fb: u32,
    /// Its width in pixels.
    pub fb_width: u32,
    /// Its height in pixels.
    pub fb_height: u32,
    /// The code of its format.
    pub fb_format: u32,
    /// The destination's left edge in pixels, in two's complement.
    pub x: u32,
    /// The destination's upper edge in pixels, in two's complement.
    pub y: u32,
    /// The destination's width in pixels.
    pub w: u32,
    /// The destination's height in pixels.
    pub h: u32,
    /// The source's left edge in 16.16 fixed point.
    pub src_x: u32,
    /// The source's upper edge in 16.16 fixed point.
    pub src_y: u32,
    /// The source's width in 16.16 fixed point.
    pub src_w: u32,
    /// The source's height in 16.16 fixed point.
    pub src_h: u32,
    /// The alpha, a number from 0 to 65535.
    pub alpha: u32,
    /// The blend mode, a number from 0 to 2.
    pub blend: u32,
    /// The zpos, a number from 0 to 255.
    pub zpos: u32,
}

impl Model for PlaneWords {
    ghost use Rattle.kms_model.specs.Machine.Registers.{PlaneWords};

    ghost Value = { PlaneWords };

    ghost view = { λ s. record {
      crtc = s.crtc;
      fb = s.fb;
      fb_width = s.fb_width;
      fb_height = s.fb_height;
      fb_format = s.fb_format;
      x = s.x;
      y = s.y;
      w = s.w;
      h = s.h;
      src_x = s.src_x;
      src_y = s.src_y;
      src_w = s.src_w;
      src_h = s.src_h;
      alpha = s.alpha;
      blend = s.blend;
      zpos = s.zpos;
    } };

    ghost inverse = { λ s. record {
      crtc = s.crtc;
      fb = s.fb;
      fb_width = s.fb_width;
      fb_height = s.fb_height;
      fb_format = s.fb_format;
      x = s.x;
      y = s.y;
      w = s.w;
      h = s.h;
      src_x = s.src_x;
      src_y = s.src_y;
      src_w = s.src_w;
      src_h = s.src_h;
      alpha = s.alpha;
      blend = s.blend;
      zpos = s.zpos;
    } };
}

/// The words of a CRTC, by the table of registers. Contracts see them as the definitions' words.
#[derive(Clone, Copy, PartialEq, Eq)]
pub struct CrtcWords {
    /// 1 where it is on, else 0.
    pub active: u32,
    /// The connector's id, or 0.
    pub conn: u32,
    /// The bytes of its mode as little-endian words, 0 without a mode.
    pub mode: [u32; 17],
    /// 1 where it has a gamma table, else 0.
    pub gamma_on: u32,
    /// The values of red, of green and of blue of its table as little-endian words, 0 without a table.
    pub gamma: [u32; 192],
}

impl Model for CrtcWords {
    ghost use Rattle.kms_model.specs.Machine.Registers.{CrtcWords};

    ghost Value = { CrtcWords };

    ghost view = { λ s. record {
      active = s.active;
      conn = s.conn;
      mode = s.mode;
      gamma_on = s.gamma_on;
      gamma = s.gamma;
    } };

    ghost inverse = { λ s. record {
      active = s.active;
      conn = s.conn;
      mode = s.mode;
      gamma_on = s.gamma_on;
      gamma = s.gamma;
    } };
}

/// Writes a word where the new one differs from the old one.
fn write(word: &mut u32, old: u32, new: u32)
    ensures { word.new ≡ rewritten word.old old new }
{
    if old != new {
        *word = new;
    }
}

/// The word of a signed number, in two's complement.
fn signed_word(number: i64) -> u32
    requires low { negsuc 2147483647 ≤ℤ number }
    requires high { number ≤ℤ pos 2147483647 }
    ensures { result ≡ cast_unsigned w32 number }
{
    (number as i32).cast_unsigned()
}

/// The word of a number that is not negative.
fn natural_word(number: i64) -> u32
    requires low { pos 0 ≤ℤ number }
    requires high { number ≤ℤ pos 4294967295 }
    ensures { result ≡ natural number }
{
    number as u32
}

/// The id, the width, the height and the code of the format of a framebuffer, all 0 without one.
fn fb_words(fb: &Option<FbInfo>) -> (u32, u32, u32, u32)
    ensures id { result.0 ≡ fb_number (λ fb. fb.id) fb.now }
    ensures width { result.1 ≡ fb_number (λ fb. fb.width) fb.now }
    ensures height { result.2 ≡ fb_number (λ fb. fb.height) fb.now }
    ensures format { result.3 ≡ fb_number (λ fb. code_of fb.format) fb.now }
{
    match fb {
        Some(fb) => (fb.id, fb.width, fb.height, code(fb.format)),
        None => (0, 0, 0, 0),
    }
}

/// The word of a flag.
fn flag_word(flag: bool) -> u32
    ensures { result ≡ one_if flag }
{
    if flag { 1 } else { 0 }
}

impl PlaneWords {
    /// The words at the start of the plane with an index, from 0 to 15.
    pub fn first(index: u32) -> PlaneWords
        requires { index < 16 }
        ensures { result ≡ first_plane_words (object_id Plane index) }
    {
        PlaneWords {
            crtc: first_word(Register::PLANE_CRTC, index),
            fb: first_word(Register::FB, index),
            fb_width: first_word(Register::FB_WIDTH, index),
            fb_height: first_word(Register::FB_HEIGHT, index),
            fb_format: first_word(Register::FB_FORMAT, index),
            x: first_word(Register::X, index),
            y: first_word(Register::Y, index),
            w: first_word(Register::WIDTH, index),
            h: first_word(Register::HEIGHT, index),
            src_x: first_word(Register::SRC_X, index),
            src_y: first_word(Register::SRC_Y, index),
            src_w: first_word(Register::SRC_WIDTH, index),
            src_h: first_word(Register::SRC_HEIGHT, index),
            alpha: first_word(Register::ALPHA, index),
            blend: first_word(Register::BLEND, index),
            zpos: first_word(Register::ZPOS, index),
        }
    }

    /// The words of a plane in a state, whose numbers are in the ranges of their properties.
    pub fn of(state: &PlaneState) -> PlaneWords
        requires { IsPlaneInRange state.now }
        ensures { result ≡ plane_words state.now }
    {
        let (fb, fb_width, fb_height, fb_format) = fb_words(&state.fb);
        PlaneWords {
            crtc: state.crtc,
            fb,
            fb_width,
            fb_height,
            fb_format,
            x: signed_word(state.dst.x),
            y: signed_word(state.dst.y),
            w: natural_word(state.dst.w),
            h: natural_word(state.dst.h),
            src_x: natural_word(state.src.x),
            src_y: natural_word(state.src.y),
            src_w: natural_word(state.src.w),
            src_h: natural_word(state.src.h),
            alpha: state.alpha,
            blend: state.blend,
            zpos: state.zpos,
        }
    }

    /// Writes the words of a new state that differ from those of the old one, and no others.
    pub fn write(&mut self, old: &PlaneWords, new: &PlaneWords)
        ensures { self.new ≡ rewritten_plane self.old old.now new.now }
    {
        write(&mut self.crtc, old.crtc, new.crtc);
        write(&mut self.fb, old.fb, new.fb);
        write(&mut self.fb_width, old.fb_width, new.fb_width);
        write(&mut self.fb_height, old.fb_height, new.fb_height);
        write(&mut self.fb_format, old.fb_format, new.fb_format);
        write(&mut self.x, old.x, new.x);
        write(&mut self.y, old.y, new.y);
        write(&mut self.w, old.w, new.w);
        write(&mut self.h, old.h, new.h);
        write(&mut self.src_x, old.src_x, new.src_x);
        write(&mut self.src_y, old.src_y, new.src_y);
        write(&mut self.src_w, old.src_w, new.src_w);
        write(&mut self.src_h, old.src_h, new.src_h);
        write(&mut self.alpha, old.alpha, new.alpha);
        write(&mut self.blend, old.blend, new.blend);
        write(&mut self.zpos, old.zpos, new.zpos);
    }

    /// The state of a plane that has these words.
    pub fn state(&self) -> PlaneState
        ensures state { result ≡ plane_in self.now }
        ensures near { IsNearRect result.dst }
    {
        PlaneState {
            fb: self.fb_info(),
            crtc: self.crtc,
            dst: self.destination(),
            src: self.source(),
            alpha: self.alpha,
            blend: self.blend,
            zpos: self.zpos,
        }
    }

    /// The destination that the words tell of, in pixels.
    fn destination(&self) -> Rect
        ensures dst { result ≡ (plane_in self.now).dst }
        ensures near { IsNearRect result }
    {
        Rect {
            x: i64::from(self.x.cast_signed()),
            y: i64::from(self.y.cast_signed()),
            w: i64::from(self.w),
            h: i64::from(self.h),
        }
    }

    /// The source that they tell of, in 16.16 fixed point.
    fn source(&self) -> Rect
        ensures { result ≡ (plane_in self.now).src }
    {
        Rect {
            x: i64::from(self.src_x),
            y: i64::from(self.src_y),
            w: i64::from(self.src_w),
            h: i64::from(self.src_h),
        }
    }

    /// Whether they tell of the framebuffer with an id on the CRTC with an id.
    pub fn shows(&self, crtc: u32, fb: u32) -> bool
        ensures { result ≡ is_fb fb (seen_on crtc (plane_in self.now)) }
    {
        if self.crtc != crtc {
            return false;
        }
        self.fb != 0 && self.fb == fb
    }

    /// The framebuffer that they tell of, if any.
    fn fb_info(&self) -> Option<FbInfo>
        ensures { result ≡ fb_in self.now }
    {
        if self.fb == 0 {
            return None;
        }
        Some(FbInfo {
            id: self.fb,
            width: self.fb_width,
            height: self.fb_height,
            format: fourcc(self.fb_format).unwrap_or(Format::Xr24),
        })
    }
}

impl CrtcWords {
    /// The words at the start of any CRTC.
    pub fn first() -> CrtcWords
        ensures { result ≡ first_crtc_words }
    {
        CrtcWords {
            active: first_word(Register::ACTIVE, 0),
            conn: first_word(Register::CONNECTOR, 0),
            mode: [first_word(Register::MODE, 0); MODE_WORDS],
            gamma_on: first_word(Register::GAMMA_ON, 0),
            gamma: [first_word(Register::GAMMA, 0); GAMMA_WORDS],
        }
    }

    /// The words of a CRTC in a state, with the id of the connector whose CRTC it is, or 0.
    pub fn of(conn: u32, state: &CrtcState) -> CrtcWords
        ensures { result ≡ crtc_words conn state.now }
    {
        CrtcWords {
            active: flag_word(state.active),
            conn,
            mode: mode_words(&state.mode),
            gamma_on: flag_word(state.gamma.is_some()),
            gamma: gamma_words(&state.gamma),
        }
    }

    /// Writes the words of a new state that differ from those of the old one, and no others.
    pub fn write(&mut self, old: &CrtcWords, new: &CrtcWords)
        ensures { self.new ≡ rewritten_crtc self.old old.now new.now }
    {
        write(&mut self.active, old.active, new.active);
        write(&mut self.conn, old.conn, new.conn);
        write_mode(&mut self.mode, &old.mode, &new.mode);
        write(&mut self.gamma_on, old.gamma_on, new.gamma_on);
        write_gamma(&mut self.gamma, &old.gamma, &new.gamma);
    }

    /// The mode that the words hold.
    pub fn mode(&self) -> Mode
        ensures { result ≡ mode_in_words self.now }
    {
        mode_of(&mode_bytes(&self.mode))
    }

    /// The gamma table that the words hold, if any.
    pub fn gamma(&self) -> Option<Gamma>
        ensures { result ≡ gamma_in_words self.now }
    {
        if self.gamma_on != 1 {
            return None;
        }
        Some(gamma_with(&table_bytes(&self.gamma)))
    }
}

/// Writes the words of a mode that differ.
fn write_mode(words: &mut [u32; 17], old: &[u32; 17], new: &[u32; 17])
    ensures { words.new ≡ rewritten_words words.old old.now new.now }
{
    write_words(words, old, new);
}

/// Writes the words of a table that differ.
fn write_gamma(words: &mut [u32; 192], old: &[u32; 192], new: &[u32; 192])
    ensures { words.new ≡ rewritten_words words.old old.now new.now }
{
    write_words(words, old, new);
}

/// Writes the words that differ between an old and a new state, of as many words each.
fn write_words(words: &mut [u32], old: &[u32], new: &[u32])
    requires old { length old.now ≡ length words.old }
    requires new { length new.now ≡ length words.old }
    ensures { words.new ≡ rewritten_words words.old old.now new.now }
{
    for i in 0..words.len() {
        write(&mut words[i], old[i], new[i]);
    }
}

/// The words of a mode, 0 without one.
fn mode_words(mode: &Option<Mode>) -> [u32; 17]
    ensures { result ≡ mode_words mode.now }
{
    match mode {
        Some(mode) => mode_held(mode),
        None => [0; MODE_WORDS],
    }
}

/// The words of a mode that is there.
fn mode_held(mode: &Mode) -> [u32; 17]
    ensures { result ≡ mode_words (Some mode.now) }
{
    let mut words = [0; MODE_WORDS];
    put_words(&encode_mode(mode), &mut words);
    words
}

/// The words of a gamma table, 0 without one.
fn gamma_words(gamma: &Option<Gamma>) -> [u32; 192]
    ensures { result ≡ gamma_words gamma.now }
{
    match gamma {
        Some(gamma) => gamma_held(gamma),
        None => [0; GAMMA_WORDS],
    }
}

/// The words of a table that is there.
fn gamma_held(gamma: &Gamma) -> [u32; 192]
    ensures { result ≡ gamma_words (Some gamma.now) }
{
    let mut words = [0; GAMMA_WORDS];
    put_words(&gamma_bytes(gamma), &mut words);
    words
}

/// The values of red, then those of green, then those of blue.
fn gamma_bytes(gamma: &Gamma) -> [u8; 768]
    ensures { result ≡ gamma_bytes gamma.now }
{
    join(&gamma.red, &gamma.green, &gamma.blue)
}

/// The bytes of three channels, one behind the other.
fn join(red: &[u8; 256], green: &[u8; 256], blue: &[u8; 256]) -> [u8; 768]
    ensures { result ≡ red.now ++ (green.now ++ blue.now) }
{
    let mut bytes = [0; GAMMA_VALUES];
    put_values(&mut bytes, 0, red);
    put_values(&mut bytes, 256, green);
    put_values(&mut bytes, 512, blue);
    bytes
}

/// Puts the values of a channel at a place of these bytes.
fn put_values(bytes: &mut [u8; 768], start: usize, values: &[u8; 256])
    requires { start ≤ 512 }
    ensures { bytes.new ≡ take start bytes.old ++ (values.now ++ drop (start + 256) bytes.old) }
{
    bytes[start..start + 256].copy_from_slice(values);
}

/// The table that these bytes hold.
fn gamma_with(bytes: &[u8; 768]) -> Gamma
    ensures { result ≡ gamma_with bytes.now }
{
    Gamma {
        red: channel(bytes, 0),
        green: channel(bytes, 256),
        blue: channel(bytes, 512),
    }
}

/// The values of the channel that begins at a place of these bytes.
fn channel(bytes: &[u8; 768], start: usize) -> [u8; 256]
    requires { start ≤ 512 }
    ensures { result ≡ slice_range bytes.now start (start + 256) }
{
    let mut values = [0; 256];
    values.copy_from_slice(&bytes[start..start + 256]);
    values
}

/// The bytes of the words of a mode.
fn mode_bytes(words: &[u32; 17]) -> [u8; 68]
    ensures { result ≡ bytes_of_words words.now }
{
    let mut bytes = [0; 68];
    put_bytes(words, &mut bytes);
    bytes
}

/// The bytes of the words of a table.
fn table_bytes(words: &[u32; 192]) -> [u8; 768]
    ensures { result ≡ bytes_of_words words.now }
{
    let mut bytes = [0; GAMMA_VALUES];
    put_bytes(words, &mut bytes);
    bytes
}

/// Puts the little-endian words of bytes, four at a time.
fn put_words(bytes: &[u8], words: &mut [u32])
    requires { length bytes.now ≡ 4 * length words.old }
    ensures { words.new ≡ words_of_bytes bytes.now }
{
    for i in 0..words.len() {
        let at = 4 * i;
        words[i] = u32::from_le_bytes([bytes[at], bytes[at + 1], bytes[at + 2], bytes[at + 3]]);
    }
}

/// Puts the bytes of words, four of each.
fn put_bytes(words: &[u32], bytes: &mut [u8])
    requires { length bytes.old ≡ 4 * length words.now }
    ensures { bytes.new ≡ bytes_of_words words.now }
{
    for i in 0..words.len() {
        bytes[4 * i..4 * i + 4].copy_from_slice(&words[i].to_le_bytes());
    }
}
