//! What the assignments of an accepted request set. (Kernel: `drm_atomic_uapi.c`, `drm_atomic_plane_set_property`,
//! `drm_atomic_crtc_set_property`, `drm_atomic_connector_set_property`.)
ghost use Rattle.std.specs.Prelude.{◌≡◌, ◌<◌, ◌||◌, ℕ, All, IfOk, IsTrue};
ghost use Rattle.kms_model.specs.declared.objects.Topology.{Topology};
ghost use Rattle.kms_model.specs.Request.Apply.{is_kept, object_of, prop_of};
ghost use Rattle.kms_model.specs.Request.Resolves.{IsAllowed, IsSettable, IsSettableValue};
ghost use Rattle.kms_model.specs.Request.SetRanges.{may_set};
ghost use Rattle.kms_model.specs.Request.Sets.{crtc_value, fb_value, fence_of_look, gamma_value, last_sets, mode_value, number_value, set_of, set_value};

use crate::lookups::Looker;
use crate::targets::{mark, no_marks};
use kms_model::properties::{CRTC_ID, FB_ID, GAMMA_LUT, IN_FENCE_FD, MODE_ID, OUT_FENCE_PTR};
use kms_model::{
    Assign, FbInfo, Gamma, Kind, Look, Mode, NoMemory, ObjId, PropRef, Seq, Set, SetValue, Value,
};
use std::alloc::Global;

/// The id of the object that an assignment sets.
pub fn object_of(a: &Assign) -> u32
    requires { IsSettable a.now }
    ensures { result ≡ object_of a.now }
{
    ObjId::of(a.kind, a.index).0
}

/// The id of the property that an assignment sets, or 0 for a name that no property has.
pub fn prop_of(prop: PropRef) -> u32
    ensures { result ≡ prop_of prop }
{
    match prop {
        PropRef::Known(id) => id,
        PropRef::Unknown(_) => 0,
    }
}

/// The framebuffer that a value names.
fn fb_value<L: Looker>(found: &L, given: Value) -> Option<FbInfo>
    ensures { result ≡ fb_value (L.meaning found.now) given }
{
    let Value::Named(label) = given else {
        return None;
    };
    match found.look(label) {
        Look::Fb(info) => Some(info),
        _ => None,
    }
}

/// The mode that a value names.
fn mode_value<L: Looker>(found: &L, given: Value) -> Option<Mode>
    ensures { result ≡ mode_value (L.meaning found.now) given }
{
    let Value::Named(label) = given else {
        return None;
    };
    match found.look(label) {
        Look::Mode(mode, _) => Some(mode),
        _ => None,
    }
}

/// The gamma table that a value names.
fn gamma_value<L: Looker>(found: &L, given: Value) -> Option<Gamma>
    ensures { result ≡ gamma_value (L.meaning found.now) given }
{
    let Value::Named(label) = given else {
        return None;
    };
    match found.look(label) {
        Look::Gamma(gamma, _) => Some(gamma),
        _ => None,
    }
}

/// The id of the CRTC that a value names, or 0.
fn crtc_value(given: Value) -> u32
    requires { IsSettableValue given }
    ensures { result ≡ crtc_value given }
{
    match given {
        Value::Crtc(index) => ObjId::of(Kind::Crtc, index).0,
        _ => 0,
    }
}

/// The number that a value is, or 0.
fn number_value(given: Value) -> i64
    requires { IsSettableValue given }
    ensures { result ≡ number_value given }
{
    match given {
        Value::Num(n) => n as i64,
        _ => 0,
    }
}

/// What a property is set to by a value.
fn set_value<L: Looker>(found: &L, prop: u32, given: Value) -> SetValue
    requires { IsSettableValue given }
    ensures { result ≡ set_value (L.meaning found.now) prop given }
{
    match prop {
        FB_ID => SetValue::Fb(fb_value(found, given)),
        MODE_ID => SetValue::Mode(mode_value(found, given)),
        GAMMA_LUT => SetValue::Gamma(gamma_value(found, given)),
        CRTC_ID => SetValue::Crtc(crtc_value(given)),
        IN_FENCE_FD | OUT_FENCE_PTR => SetValue::Fence,
        _ => SetValue::Num(number_value(given)),
    }
}

/// What one assignment sets, over what labels name. Its object is one of 4 CRTCs, 16 planes and 8 connectors, its property
/// has an id to 19, a number is from -2147483648 to 4294967295, and a CRTC in its value has an index below 4: so is each
/// assignment of a request that [`early`] does not refuse.
///
/// [`early`]: crate::early
pub fn set_of<L: Looker>(found: &L, a: &Assign) -> Set
    requires { IsSettable a.now }
    ensures set { result ≡ set_of (L.meaning found.now) a.now }

    // What that means where the assignment is not refused.
    ensures among { (t : Topology) → IsAllowed t (L.meaning found.now) a.now
        → IsTrue (may_set a.now.kind result.prop result.value) }
{
    let prop = prop_of(a.prop);
    Set {
        object: ObjId(object_of(a)),
        prop,
        value: set_value(found, prop, a.value),
    }
}

/// What assignments set, each property of an object once, with its last value, in order of those last assignments.
pub fn last_sets<L: Looker>(
    alloc: Global,
    found: &L,
    assigns: &[Assign],
) -> Result<Seq<Set>, NoMemory>
    requires { All IsSettable assigns.now }
    ensures { IfOk result (λ sets. sets ≡ last_sets (L.meaning found.now) assigns.now) }
{
    let mut sets = Vec::with_capacity(alloc, assigns.len())?;
    let mut marks = no_marks();
    let mut left = assigns.len();
    while left > 0 {
        left -= 1;
        let a = &assigns[left];
        if mark(&mut marks, a) {
            sets.push(set_of(found, a))?;
        }
    }
    sets.reverse();
    Ok(Seq::from_vec(sets))
}
