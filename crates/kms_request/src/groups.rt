//! The groups of objects that a request needs locked, as sets, requests and states tell them. (Kernel:
//! `drm_atomic_helper_check_modeset`, `drm_atomic_add_affected_planes`, `drm_atomic_add_affected_connectors`.)
ghost use Rattle.std.specs.Prelude.{◌≡◌, ◌≤◌, ◌==◌, ◌&&◌, All, filter};
ghost use Rattle.kms_model.specs.Device.Masks.{mask_below};
ghost use Rattle.kms_model.specs.Device.Objects.{most_of, object_id};
ghost use Rattle.kms_model.specs.Request.Groups.{no_objects, union};
ghost use Rattle.kms_model.specs.Request.Late.{duplicate_in};
ghost use Rattle.kms_model.specs.Request.Apply.{object_of};
ghost use Rattle.kms_request.specs.Whole.{IsSettableIf};
ghost use Rattle.kms_request.specs.Groups.{affected_below, affected_with, assigned_of, crtcs_fenced, objects_assigned, objects_set, only_of, set_of_kind};

use crate::duplicated::duplicate_in;
use crate::picking::Picker;
use crate::sets::object_of;
use crate::states::needs_modeset;
use kms_model::{
    Assign, Duplicates, Kind, MAX_CONNECTORS, MAX_CRTCS, MAX_PLANES, Mask, ObjId, Set,
};

/// The set of no object.
fn no_objects() -> Mask
    ensures { result ≡ no_objects }
{
    Mask {
        crtcs: 0,
        planes: 0,
        conns: 0,
    }
}

/// The objects of two sets.
pub fn union(a: &Mask, b: &Mask) -> Mask
    ensures { result ≡ union a.now b.now }
{
    Mask {
        crtcs: a.crtcs | b.crtcs,
        planes: a.planes | b.planes,
        conns: a.conns | b.conns,
    }
}

/// A mask of CRTCs as a set of objects.
pub fn only_crtcs(crtcs: u32) -> Mask
    ensures { result ≡ record { crtcs = crtcs; planes = 0; conns = 0 } }
{
    Mask {
        crtcs,
        planes: 0,
        conns: 0,
    }
}

/// The most objects of a kind that a device has; each connector has one encoder.
fn most_of(kind: Kind) -> u32
    ensures most { result ≡ most_of kind }
    ensures few { result ≤ 16 }
{
    match kind {
        Kind::Crtc => MAX_CRTCS,
        Kind::Plane => MAX_PLANES,
        Kind::Conn | Kind::Enc => MAX_CONNECTORS,
    }
}

/// The mask of one object by its id, where it is of a kind; else the empty one.
pub(crate) fn only_of(kind: Kind, id: u32) -> u32
    ensures { result ≡ only_of kind id }
{
    let first = kind.first_id();
    if first <= id && id - first < most_of(kind) {
        1 << (id - first)
    } else {
        0
    }
}

/// The mask of the objects of a kind that are set.
fn set_of_kind(sets: &[Set], kind: Kind) -> u32
    ensures { result ≡ set_of_kind sets.now kind }
{
    let mut set_so_far = 0;
    for set in sets {
        set_so_far |= only_of(kind, set.object.0);
    }
    set_so_far
}

/// The objects that are set.
pub fn objects_set(sets: &[Set]) -> Mask
    ensures { result ≡ objects_set sets.now }
{
    Mask {
        crtcs: set_of_kind(sets, Kind::Crtc),
        planes: set_of_kind(sets, Kind::Plane),
        conns: set_of_kind(sets, Kind::Conn),
    }
}

/// The mask of the object of a kind that an assignment sets, where it counts.
fn assigned_if<P: Picker>(picks: &P, a: &Assign, kind: Kind) -> u32
    requires { IsSettableIf (P.picked picks.now a.now) a.now }
    ensures { result ≡ mask_below
        (λ index. P.picked picks.now a.now && (object_of a.now == object_id kind index))
        (most_of kind) }
{
    if !picks.picks(a) {
        return 0;
    }
    only_of(kind, object_of(a))
}

/// The mask of the objects of a kind that those of some assignments set that count.
fn assigned_of<P: Picker>(picks: &P, assigns: &[Assign], kind: Kind) -> u32
    requires { All (λ a. IsSettableIf (P.picked picks.now a) a) assigns.now }
    ensures { result ≡ assigned_of (filter (P.picked picks.now) assigns.now) kind }
{
    let mut assigned = 0;
    for a in assigns {
        assigned |= assigned_if(picks, a, kind);
    }
    assigned
}

/// The objects that those of some assignments set that count.
pub(crate) fn objects_assigned<P: Picker>(picks: &P, assigns: &[Assign]) -> Mask
    requires { All (λ a. IsSettableIf (P.picked picks.now a) a) assigns.now }
    ensures { result ≡ objects_assigned (filter (P.picked picks.now) assigns.now) }
{
    Mask {
        crtcs: assigned_of(picks, assigns, Kind::Crtc),
        planes: assigned_of(picks, assigns, Kind::Plane),
        conns: assigned_of(picks, assigns, Kind::Conn),
    }
}

/// The planes and connectors that a CRTC of some, given by their mask, has before or after, where it needs a modeset.
fn affected_at(states: &Duplicates, crtcs: u32, index: u32) -> Mask
    ensures { result ≡ affected_with (duplicate_in crtcs states.now.crtcs index) }
{
    match duplicate_in(crtcs, &states.crtcs, index as usize) {
        Some(both) if needs_modeset(both) => Mask {
            crtcs: 0,
            planes: both.old.planes | both.new.planes,
            conns: both.old.conns | both.new.conns,
        },
        _ => no_objects(),
    }
}

/// The planes and connectors that those of some CRTCs, given by their mask, have before or after that need a modeset.
#[tactic(auto, unfolding(crate::specs::Groups::affected_below))]
pub fn affected(states: &Duplicates, crtcs: u32) -> Mask
    ensures { result ≡ affected_below states.now.crtcs crtcs 4 }
{
    let mut affected = no_objects();
    for index in 0..MAX_CRTCS {
        affected = union(&affected, &affected_at(states, crtcs, index));
    }
    affected
}

/// The mask of the CRTCs for which a request asks for an out-fence.
pub fn crtcs_fenced(out_fences: &[(ObjId, u32)]) -> u32
    ensures { result ≡ crtcs_fenced out_fences.now }
{
    let mut fenced = 0;
    for (crtc, _) in out_fences {
        fenced |= only_of(Kind::Crtc, crtc.0);
    }
    fenced
}
