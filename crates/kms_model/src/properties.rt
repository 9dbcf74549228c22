//! The ids of the properties. (The names are those of the kernel's "KMS Properties"; the numbers are this
//! device's own.)

/// `type` of a plane: 0 overlay, 1 primary, 2 cursor. It is immutable.
pub const TYPE: u32 = 1;

/// `FB_ID` of a plane: the framebuffer, or 0.
pub const FB_ID: u32 = 2;

/// `CRTC_ID` of a plane or a connector: the CRTC, or 0.
pub const CRTC_ID: u32 = 3;

/// `CRTC_X` of a plane: the left edge of its destination, in pixels, from -2147483648 to 2147483647.
pub const CRTC_X: u32 = 4;

/// `CRTC_Y` of a plane: the upper edge of its destination.
pub const CRTC_Y: u32 = 5;

/// `CRTC_W` of a plane: the width of its destination, in pixels, from 0 to 2147483647.
pub const CRTC_W: u32 = 6;

/// `CRTC_H` of a plane: the height of its destination.
pub const CRTC_H: u32 = 7;

/// `SRC_X` of a plane: the left edge of its source, in 16.16 fixed point, from 0 to 4294967295.
pub const SRC_X: u32 = 8;

/// `SRC_Y` of a plane: the upper edge of its source, in 16.16 fixed point.
pub const SRC_Y: u32 = 9;

/// `SRC_W` of a plane: the width of its source, in 16.16 fixed point.
pub const SRC_W: u32 = 10;

/// `SRC_H` of a plane: the height of its source, in 16.16 fixed point.
pub const SRC_H: u32 = 11;

/// `IN_FENCE_FD` of a plane: a fence that the commit waits for, or -1. It belongs to its request alone.
pub const IN_FENCE_FD: u32 = 12;

/// `alpha` of a plane: from 0 (transparent) to 65535 (opaque).
pub const ALPHA: u32 = 13;

/// `pixel blend mode` of a plane: 0 Pre-multiplied, 1 Coverage, 2 None.
pub const BLEND: u32 = 14;

/// `zpos` of a plane: its place in the order of layers, from 0 (lowest) to 255.
pub const ZPOS: u32 = 15;

/// `ACTIVE` of a CRTC: 1 where it is on, else 0.
pub const ACTIVE: u32 = 16;

/// `MODE_ID` of a CRTC: the blob of its mode, or 0.
pub const MODE_ID: u32 = 17;

/// `OUT_FENCE_PTR` of a CRTC: a fence that the commit makes, or 0. It belongs to its request alone.
pub const OUT_FENCE_PTR: u32 = 18;

/// `GAMMA_LUT` of a CRTC, in profile 2: the blob of its gamma table, or 0.
pub const GAMMA_LUT: u32 = 19;
