//! The bits of the flags of an atomic request. (Header: `drm_mode.h`.)

/// `DRM_MODE_PAGE_FLIP_EVENT`: an event for each CRTC that the request names.
pub const PAGE_FLIP_EVENT: u32 = 0x1;

/// `DRM_MODE_PAGE_FLIP_ASYNC`: this device refuses it.
pub const PAGE_FLIP_ASYNC: u32 = 0x2;

/// `DRM_MODE_ATOMIC_TEST_ONLY`: check and change nothing.
pub const TEST_ONLY: u32 = 0x100;

/// `DRM_MODE_ATOMIC_NONBLOCK`: do not wait for the commit.
pub const NONBLOCK: u32 = 0x200;

/// `DRM_MODE_ATOMIC_ALLOW_MODESET`: the commit may be a modeset.
pub const ALLOW_MODESET: u32 = 0x400;
