//! The primary plane of a CRTC, and its cursor plane. (Header: `drm_crtc.h`, `struct drm_crtc`, `primary` and `cursor`; which
//! plane it is, is this project's own.)
ghost use Rattle.std.specs.Prelude.{◌≡◌, ◌≤◌, length};
ghost use Rattle.kms_model.specs.Legacy.Translation.{least_plane, special_plane, suits};
ghost use Rattle.kms_model.specs.Machine.Commits.{has_number};
ghost use Rattle.kms_legacy.specs.Asked.{IsWithin};

use kms_model::{MAX_CRTCS, Topology, has_bit};

/// The type of a primary plane. (Header: `drm_plane.h`, `enum drm_plane_type`.)
pub const PRIMARY: u32 = 1;

/// The type of a cursor plane.
pub const CURSOR: u32 = 2;

/// Whether a plane is of a type and may go on a CRTC.
fn suits(topology: &Topology, kind: u32, crtc: u32, plane: u32) -> bool
    ensures { result ≡ suits topology.now kind crtc plane }
{
    match topology.planes.get(plane as usize) {
        Some(info) => info.kind == kind && has_bit(info.crtcs, crtc),
        None => false,
    }
}

/// Whether a number is among numbers.
fn has_number(numbers: &[u32], number: u32) -> bool
    ensures { result ≡ has_number numbers.now number }
{
    numbers.iter().any(|m| *m == number)
}

/// The least plane of a type that may go on a CRTC and is none of these.
fn least_plane(topology: &Topology, kind: u32, taken: &[u32], crtc: u32) -> Option<u32>
    requires { length topology.now.planes ≤ 16 }
    ensures { result ≡ least_plane topology.now kind taken.now crtc }
{
    (0..topology.planes.len() as u32).find(|plane| suits(topology, kind, crtc, *plane)
        && !has_number(taken, *plane))
}

/// The plane of a type that a CRTC of the device has: the least that may go on it and is not that of a lower CRTC.
pub fn special_plane(topology: &Topology, kind: u32, crtc: u32) -> Option<u32>
    requires { IsWithin topology.now crtc }
    ensures { result ≡ special_plane topology.now kind crtc }
{
    // The planes of the lower CRTCs, from `left` on, the last one first.
    let mut taken = [0u32; MAX_CRTCS as usize];
    let mut left = MAX_CRTCS as usize;
    for lower in 0..crtc {
        let Some(plane) = least_plane(topology, kind, &taken[left..], lower) else {
            continue;
        };
        left -= 1;
        taken[left] = plane;
    }
    least_plane(topology, kind, &taken[left..], crtc)
}
