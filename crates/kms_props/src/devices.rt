//! Which devices there are.
ghost use Rattle.std.specs.Prelude.{◌≡◌, ◌≤◌, IsTrue};
ghost use Rattle.std.specs.List.{list_all};
ghost use Rattle.kms_model.specs.Script.Words.{between};
ghost use Rattle.kms_model.specs.Device.Properties.{has_legal_masks, is_legal_device, is_mask_below, keeps_limits};

use kms_model::{MAX_CONNECTORS, MAX_CRTCS, MAX_PLANES, PlaneInfo, Topology};

/// How many formats a plane's mask of formats can name.
const FORMAT_COUNT: u32 = 3;

/// Whether no bit of a mask stands for an index that is not below `count`.
fn is_mask(mask: u32, count: u32) -> bool
    requires { count ≤ 4 }
    ensures { result ≡ is_mask_below count mask }
{
    mask < 1 << count
}

/// Whether a plane's masks name CRTCs of the device and known formats alone.
fn has_masks(plane: &PlaneInfo, crtcs: u32) -> bool
    requires { crtcs ≤ 4 }
    ensures { result ≡ has_legal_masks crtcs plane.now }
{
    is_mask(plane.crtcs, crtcs) && is_mask(plane.formats, FORMAT_COUNT)
}

/// Whether the masks of all planes do.
fn have_masks(planes: &[PlaneInfo], crtcs: u32) -> bool
    requires { crtcs ≤ 4 }
    ensures { result ≡ list_all (has_legal_masks crtcs) planes.now }
{
    planes.iter().all(|plane| has_masks(plane, crtcs))
}

/// Whether connectors name CRTCs of the device alone.
fn are_masks(conns: &[u32], crtcs: u32) -> bool
    requires { crtcs ≤ 4 }
    ensures { result ≡ list_all (is_mask_below crtcs) conns.now }
{
    conns.iter().all(|&mask| is_mask(mask, crtcs))
}

/// Whether there is at least one, and at most `most`.
fn is_count(count: usize, most: u32) -> bool
    ensures { result ≡ between 1 most count }
{
    1 <= count && count <= most as usize
}

/// Whether a topology has 1 to 4 CRTCs, 1 to 16 planes and 1 to 8 connectors.
fn has_counts(t: &Topology) -> bool
    ensures limits { result ≡ keeps_limits t.now }
    ensures few { IsTrue result → t.now.crtcs ≤ 4 }
{
    is_count(t.crtcs as usize, MAX_CRTCS)
        && is_count(t.planes.len(), MAX_PLANES)
        && is_count(t.conns.len(), MAX_CONNECTORS)
}

/// Whether a topology keeps the limits: 1 to 4 CRTCs, 1 to 16 planes and 1 to 8 connectors, and no mask has a bit
/// outside the device, that is, of a CRTC that it lacks or of a fourth format.
///
/// An empty mask has no such bit, and a plane's kind is neither a limit nor a mask; no script makes an empty mask or
/// a fourth kind. (The limits are this device's own; masks of possible CRTCs: `struct drm_plane`,
/// `struct drm_encoder`.)
pub fn check_topology(t: &Topology) -> bool
    ensures { result ≡ is_legal_device t.now }
{
    has_counts(t)
        && have_masks(t.planes.as_slice(), t.crtcs)
        && are_masks(t.conns.as_slice(), t.crtcs)
}
