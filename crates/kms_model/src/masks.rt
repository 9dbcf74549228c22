//! Sets of objects as masks. (Kernel: `drm_crtc_mask`, `drm_plane_mask`, `drm_connector_mask`.)
ghost use Rattle.std.specs.Prelude.{◌≡◌};
ghost use Rattle.kms_model.specs.Device.Masks.{has_bit};

/// Whether a mask has the object with an index: bit i stands for index i. No mask has an index of 32 or more.
pub fn has_bit(mask: u32, index: u32) -> bool
    ensures { result ≡ has_bit mask index }
{
    index < 32 && mask & (1 << index) != 0
}
