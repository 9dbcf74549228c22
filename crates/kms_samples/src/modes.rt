//! Modes. (Header: `drm_mode.h`, `struct drm_mode_modeinfo`.)
ghost use Rattle.std.specs.Prelude.{◌≡◌};
ghost use Rattle.kms_model.specs.Device.Modes.{full_hd};
ghost use Rattle.kms_samples.specs.Samples.{sized_mode, tiny};

use kms_model::Mode;

/// A mode of this many pixels in a row, and of this many rows, with nothing around them.
pub fn sized_mode(columns: u16, rows: u16) -> Mode
    ensures { result ≡ sized_mode columns rows }
{
    Mode {
        clock: 1,
        hdisplay: columns,
        hsync_start: columns,
        hsync_end: columns,
        htotal: columns,
        hskew: 0,
        vdisplay: rows,
        vsync_start: rows,
        vsync_end: rows,
        vtotal: rows,
        vscan: 0,
        vrefresh: 60,
        flags: 0,
        kind: 0,
        name: [0; 32],
    }
}

/// The mode of one pixel.
pub fn tiny() -> Mode
    ensures { result ≡ tiny }
{
    sized_mode(1, 1)
}

/// The 1920x1080 mode of CEA-861, at 60 Hz.
pub fn full_hd() -> Mode
    ensures { result ≡ full_hd }
{
    Mode {
        clock: 148500,
        hdisplay: 1920,
        hsync_start: 2008,
        hsync_end: 2052,
        htotal: 2200,
        hskew: 0,
        vdisplay: 1080,
        vsync_start: 1084,
        vsync_end: 1089,
        vtotal: 1125,
        vscan: 0,
        vrefresh: 60,
        flags: 5,
        kind: 64,
        name: [
            b'1', b'9', b'2', b'0', b'x', b'1', b'0', b'8', b'0', 0, 0, 0, 0, 0, 0, 0, 0, 0, 0, 0,
            0, 0, 0, 0, 0, 0, 0, 0, 0, 0, 0, 0,
        ],
    }
}
