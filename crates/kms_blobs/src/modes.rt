//! The bytes of a mode.
ghost use Rattle.std.specs.Prelude.{◌≡◌, ◌+◌, ◌≤◌, ◌++◌, length, IfOk, IsTrue, Ok, take, drop, slice_range};
ghost use Rattle.kms_model.specs.Device.Modes.{is_axis, is_legal_mode};
ghost use Rattle.kms_model.specs.Device.ModeBytes.{mode_bytes, mode_held, two_at, four_at, if_legal, decoded};
ghost use Rattle.kms_model.specs.Device.ModeRanges.{FitsBack, FitsFront, FitsMiddle, FitsTypes};
ghost use Rattle.kms_blobs.specs.Parts.{back_bytes, front_bytes, middle_bytes};

use kms_model::{BadMode, Mode};

/// How many bytes a mode has. (Header: `drm_mode.h`, `struct drm_mode_modeinfo`.)
pub const MODE_BYTES: usize = 68;

/// The largest side of a mode, in pixels.
const LARGEST_SIDE: u16 = 4096;

/// Reads a legal mode. Refused, with the first cause that holds: `Length` where the bytes are not 68,
/// `Horizontal` or `Vertical` where that axis is not in order, `Clock` where the clock is 0, `Size` where a side
/// is above 4096 pixels. (Header: `drm_mode.h`, `struct drm_mode_modeinfo`; kernel:
/// `drm_mode_validate_basic`. The order of the causes and the bound are this device's own, and the
/// refresh rate, the flags and the type may be anything.)
pub fn decode_mode(bytes: &[u8]) -> Result<Mode, BadMode>
    ensures decoded { result ≡ decoded bytes.now }
    ensures legal { IfOk result (λ m. IsTrue (is_legal_mode m)) }
    ensures written_back { IfOk result (λ m. mode_bytes m ≡ bytes.now) }
{
    if bytes.len() != MODE_BYTES {
        return Err(BadMode::Length);
    }
    legal(mode_of(bytes))
}

// The mode where it is legal, else the first cause that it is not.
fn legal(mode: Mode) -> Result<Mode, BadMode>
    ensures first { result ≡ if_legal mode }
    ensures legal { IfOk result (λ m. IsTrue (is_legal_mode m)) }
{
    if !is_in_order(mode.hdisplay, mode.hsync_start, mode.hsync_end, mode.htotal) {
        return Err(BadMode::Horizontal);
    }
    if !is_in_order(mode.vdisplay, mode.vsync_start, mode.vsync_end, mode.vtotal) {
        return Err(BadMode::Vertical);
    }
    if mode.clock == 0 {
        return Err(BadMode::Clock);
    }
    if mode.hdisplay > LARGEST_SIDE || mode.vdisplay > LARGEST_SIDE {
        return Err(BadMode::Size);
    }
    Ok(mode)
}

/// Whether a mode is legal: as `decode_mode` would read it. (Kernel: `drm_mode_validate_basic`.)
pub fn is_legal_mode(mode: &Mode) -> bool
    ensures { result ≡ is_legal_mode mode.now }
{
    is_in_order(mode.hdisplay, mode.hsync_start, mode.hsync_end, mode.htotal)
        && is_in_order(mode.vdisplay, mode.vsync_start, mode.vsync_end, mode.vtotal)
        && 0 < mode.clock
        && mode.hdisplay <= LARGEST_SIDE
        && mode.vdisplay <= LARGEST_SIDE
}

// Whether an axis is in order.
fn is_in_order(display: u16, start: u16, end: u16, total: u16) -> bool
    ensures { result ≡ is_axis display start end total }
{
    0 < display && display <= start && start <= end && end <= total
}

/// The mode, legal or not, that 68 bytes hold. (Header: `drm_mode.h`, `struct drm_mode_modeinfo`.)
pub fn mode_of(bytes: &[u8]) -> Mode
    requires { length bytes.now ≡ 68 }
    ensures { result ≡ mode_held bytes.now }
{
    let mut name = [0; 32];
    name.copy_from_slice(&bytes[36..68]);
    Mode {
        clock: word(bytes, 0),
        hdisplay: half(bytes, 4),
        hsync_start: half(bytes, 6),
        hsync_end: half(bytes, 8),
        htotal: half(bytes, 10),
        hskew: half(bytes, 12),
        vdisplay: half(bytes, 14),
        vsync_start: half(bytes, 16),
        vsync_end: half(bytes, 18),
        vtotal: half(bytes, 20),
        vscan: half(bytes, 22),
        vrefresh: word(bytes, 24),
        flags: word(bytes, 28),
        kind: word(bytes, 32),
        name,
    }
}

// The number of two bytes from a place on.
pub(crate) fn half(bytes: &[u8], at: usize) -> u16
    requires { at + 2 ≤ length bytes.now }
    ensures { result ≡ two_at bytes.now at }
{
    u16::from_le_bytes([bytes[at], bytes[at + 1]])
}

// The number of four bytes from a place on.
fn word(bytes: &[u8], at: usize) -> u32
    requires { at + 4 ≤ length bytes.now }
    ensures { result ≡ four_at bytes.now at }
{
    u32::from_le_bytes([bytes[at], bytes[at + 1], bytes[at + 2], bytes[at + 3]])
}

/// The bytes of a mode, legal or not. The bytes of a legal mode are read as that mode.
pub fn encode_mode(mode: &Mode) -> [u8; 68]
    ensures bytes { result ≡ mode_bytes mode.now }
    ensures read_back { IsTrue (is_legal_mode mode.now) → decoded result ≡ Ok mode.now }
{
    written(mode)
}

// The bytes of a mode, whose fields are within their types.
fn written(mode: &Mode) -> [u8; 68]
    ensures bytes { result ≡ mode_bytes mode.now }
    ensures fits { FitsTypes mode.now }
{
    let mut bytes = [0; 68];
    put(&mut bytes, 0, &front(mode));
    put(&mut bytes, 14, &middle(mode));
    put(&mut bytes, 24, &back(mode));
    bytes
}

// The clock and the columns: the first 14 bytes.
fn front(mode: &Mode) -> [u8; 14]
    ensures bytes { result ≡ front_bytes mode.now }
    ensures fits { FitsFront mode.now }
{
    let Mode {
        clock,
        hdisplay,
        hsync_start,
        hsync_end,
        htotal,
        hskew,
        ..
    } = *mode;
    let mut bytes = [0; 14];
    put(&mut bytes, 0, &clock.to_le_bytes());
    put(&mut bytes, 4, &hdisplay.to_le_bytes());
    put(&mut bytes, 6, &hsync_start.to_le_bytes());
    put(&mut bytes, 8, &hsync_end.to_le_bytes());
    put(&mut bytes, 10, &htotal.to_le_bytes());
    put(&mut bytes, 12, &hskew.to_le_bytes());
    bytes
}

// The rows: the next 10 bytes.
fn middle(mode: &Mode) -> [u8; 10]
    ensures bytes { result ≡ middle_bytes mode.now }
    ensures fits { FitsMiddle mode.now }
{
    let Mode {
        vdisplay,
        vsync_start,
        vsync_end,
        vtotal,
        vscan,
        ..
    } = *mode;
    let mut bytes = [0; 10];
    put(&mut bytes, 0, &vdisplay.to_le_bytes());
    put(&mut bytes, 2, &vsync_start.to_le_bytes());
    put(&mut bytes, 4, &vsync_end.to_le_bytes());
    put(&mut bytes, 6, &vtotal.to_le_bytes());
    put(&mut bytes, 8, &vscan.to_le_bytes());
    bytes
}

// The refresh rate, the flags, the type and the name: the last 44 bytes.
fn back(mode: &Mode) -> [u8; 44]
    ensures bytes { result ≡ back_bytes mode.now }
    ensures fits { FitsBack mode.now }
{
    let Mode {
        vrefresh,
        flags,
        kind,
        name,
        ..
    } = *mode;
    let mut bytes = [0; 44];
    put(&mut bytes, 0, &vrefresh.to_le_bytes());
    put(&mut bytes, 4, &flags.to_le_bytes());
    put(&mut bytes, 8, &kind.to_le_bytes());
    put(&mut bytes, 12, &name);
    bytes
}

// Writes a part from a place on.
fn put(bytes: &mut [u8], at: usize, part: &[u8])
    requires { at + length part.now ≤ length bytes.old }
    ensures { bytes.new ≡ take at bytes.old ++ part.now ++ drop (at + length part.now) bytes.old }
{
    bytes[at..at + part.len()].copy_from_slice(part);
}
