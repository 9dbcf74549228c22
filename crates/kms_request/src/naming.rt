//! The CRTCs that a request names. (Kernel: "Atomic Mode Setting", `drm_atomic_get_crtc_state` and its callers.)
ghost use Rattle.std.specs.Prelude.{◌≡◌, ◌<◌, ◌^◌, ◌==◌, ◌||◌, ℕ, false, IsTrue};
ghost use Rattle.std.specs.List.{list_any};
ghost use Rattle.kms_model.specs.declared.objects.Topology.{Topology};
ghost use Rattle.kms_model.specs.declared.scripts.Request.{Request};
ghost use Rattle.kms_model.specs.declared.worlds.Look.{Look};
ghost use Rattle.kms_model.specs.declared.worlds.World.{World};
ghost use Rattle.kms_model.specs.Request.Touched.{named_by};
ghost use Rattle.kms_request.specs.Naming.{AreCrtcs, Covers, set_names, new_crtc_id, next_crtc, old_crtc_id};

use crate::duplicated::duplicate_at;
use crate::groups::only_of;
use kms_model::{Duplicates, Kind, ObjId, Resolved, Set, SetValue};

/// The mask of the CRTC with an id; it is empty for every other number.
pub fn only_crtc(id: u32) -> u32
    ensures { AreCrtcs (λ crtc. id == crtc) result }
{
    only_of(Kind::Crtc, id)
}

/// The ids of the CRTCs of a plane or a connector, given by its id, in its old and in its new state; each is 0 without
/// one.
pub fn crtcs_of(states: &Duplicates, object: u32) -> (u32, u32)
    ensures old { result.0 ≡ old_crtc_id states.now object }
    ensures new { result.1 ≡ next_crtc states.now object }
{
    let id = ObjId(object);
    let index = id.index() as usize;
    if id.is_plane() {
        match duplicate_at(&states.planes, index) {
            Some(both) => (both.old.crtc, both.new.crtc),
            None => (0, 0),
        }
    } else if id.is_connector() {
        match duplicate_at(&states.conns, index) {
            Some(both) => (both.old.crtc, both.new.crtc),
            None => (0, 0),
        }
    } else {
        (0, 0)
    }
}

/// The id of the CRTC that a plane or a connector is put on, or 0.
fn new_crtc_id(value: SetValue) -> u32
    ensures { result ≡ new_crtc_id value }
{
    match value {
        SetValue::Crtc(id) => id,
        _ => 0,
    }
}

/// The CRTCs that one set names.
fn named_by(states: &Duplicates, set: &Set) -> u32
    ensures { AreCrtcs (set_names states.now set.now) result }
{
    let object = set.object.0;
    let (old, _) = crtcs_of(states, object);
    only_crtc(object) | only_crtc(old) | only_crtc(new_crtc_id(set.value))
}

/// The CRTCs that some sets name.
fn all_named_by(states: &Duplicates, sets: &[Set]) -> u32
    ensures { AreCrtcs (λ crtc. list_any (λ s. set_names states.now s crtc) sets.now) result }
{
    let mut named = 0;
    for set in sets {
        named |= named_by(states, set);
    }
    named
}

/// The mask of the CRTCs that a request names: bit i stands for CRTC index i. A CRTC is named where the request sets it, or a
/// plane or a connector that is on it before or after the request. The old states tell which are on it before; what the
/// request sets tells which are on it after.
pub fn named(resolved: &Resolved, states: &Duplicates) -> u32
    ensures { (t : Topology) (w : World) (f : ℕ → Look) (r : Request)
        → Covers t w f r resolved.now states.now → result ≡ named_by t w r }
{
    all_named_by(states, resolved.sets.as_slice())
}
