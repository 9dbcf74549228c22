//! The early refusals. (Kernel: `drm_atomic_uapi.c`, `drm_mode_atomic_ioctl`, `drm_atomic_set_property`.)
ghost use Rattle.std.specs.Prelude.{◌≡◌, ◌<◌, ◌≤◌, ℕ, ◌&&◌, ◌==◌, List, [], ◌∷◌, All, IfSome, IsNone, IsTrue, Option, Some, None, is_some, option_map, slice_index_or, slice_set, false, if◌then◌else◌};
ghost use Rattle.std.specs.List.{list_any};
ghost use Rattle.kms_model.specs.Request.Apply.{prop_of};
ghost use Rattle.kms_model.specs.Firsts.{number_if, or_else};
ghost use Rattle.kms_model.specs.Device.Objects.{count_of, exists};
ghost use Rattle.kms_model.specs.Device.Properties.{are_flags, keeps_limits, property, property_in};
ghost use Rattle.kms_model.specs.Request.Refusals.{assigns_refusal, early_refusal, flags_refusal, has_property, is_in_range, is_of_kind, names_label, is_second_fence, own_refusal, takes};
ghost use Rattle.kms_model.specs.Request.Resolves.{IsAllowed, IsSettable};
ghost use Rattle.kms_props.specs.Rows.{property_of};
ghost use Rattle.kms_request.specs.Answers.{refusal_number};
ghost use Rattle.kms_request.specs.Fences.{SetsFenceOfPlane, TellFences};

use crate::lookups::Looker;
use kms_model::properties::{FB_ID, GAMMA_LUT, IN_FENCE_FD, MODE_ID, OUT_FENCE_PTR};
use kms_model::{Assign, Kind, Look, PropRef, Range, Refusal, Request, Topology, Value};
use kms_props::{AtomicFlags, PropertyRow, from_bits, row_in};

/// What is wrong with flags: `UNKNOWN_FLAG`, there is another bit; `ASYNC_FLIP`, PAGE_FLIP_ASYNC is set;
/// `TEST_WITH_EVENT`, TEST_ONLY and PAGE_FLIP_EVENT are set.
fn flags_refusal(flags: u32) -> Option<Refusal>
    ensures { refusal_number result ≡ flags_refusal flags }
{
    let Some(flags) = from_bits(flags) else {
        return Some(Refusal::UNKNOWN_FLAG);
    };
    if flags.contains(AtomicFlags::PAGE_FLIP_ASYNC) {
        return Some(Refusal::ASYNC_FLIP);
    }
    if flags.contains(AtomicFlags::TEST_ONLY) && flags.contains(AtomicFlags::PAGE_FLIP_EVENT) {
        return Some(Refusal::TEST_WITH_EVENT);
    }
    None
}

/// How many objects of a kind a device has.
pub fn count_of(topology: &Topology, kind: Kind) -> usize
    ensures { result ≡ count_of topology.now kind }
{
    match kind {
        Kind::Crtc => topology.crtcs as usize,
        Kind::Plane => topology.planes.len(),
        Kind::Conn | Kind::Enc => topology.conns.len(),
    }
}

/// Whether the object of a kind with an index is on a device.
pub fn exists(topology: &Topology, kind: Kind, index: u32) -> bool
    ensures { result ≡ exists topology.now kind index }
{
    (index as usize) < count_of(topology, kind)
}

/// The row of the property that an assignment names; `None` where no object of this kind has it on the device.
fn row_named(topology: &Topology, kind: Kind, prop: PropRef) -> Option<PropertyRow>
    ensures has { is_some result ≡ has_property topology.now kind prop }
    ensures row { IfSome result (λ row. Some (property_of row) ≡ property (prop_of prop)) }
{
    match prop {
        PropRef::Known(id) => row_of_kind(topology.profile, kind, id),
        PropRef::Unknown(_) => None,
    }
}

/// The row of the property of an id; `None` where no object of this kind has it on a device of this profile.
fn row_of_kind(profile: u32, kind: Kind, id: u32) -> Option<PropertyRow>
    ensures has { is_some result ≡ is_of_kind kind (property_in profile id) }
    ensures row { IfSome result (λ row. Some (property_of row) ≡ property id) }
{
    match row_in(profile, id) {
        Some(row) if row.kinds.contains(&kind) => Some(row),
        _ => None,
    }
}

/// Whether what a label names is what a property takes.
fn takes(prop: u32, look: Look) -> bool
    ensures { result ≡ takes prop look }
{
    match look {
        Look::Fb(_) => prop == FB_ID,
        Look::Mode(..) => prop == MODE_ID,
        Look::Gamma(..) => prop == GAMMA_LUT,
        Look::Fence(_) => prop == IN_FENCE_FD,
        Look::Blob(_) | Look::Buffer(_) | Look::Missing | Look::Closed => false,
    }
}

/// Whether a value is among those of a property's range.
fn is_in_range<L: Looker>(
    topology: &Topology,
    found: &L,
    prop: u32,
    range: Range,
    given: Value,
) -> bool
    ensures { result ≡ is_in_range topology.now (L.meaning found.now) prop range given }
{
    match (range, given) {
        (Range::Numbers { low, high }, Value::Num(n)) => low <= n && n <= high,
        (Range::CrtcName, Value::Num(n)) => n == 0,
        (Range::CrtcName, Value::Crtc(index)) => exists(topology, Kind::Crtc, index),
        (Range::Thing { none }, Value::Num(n)) => n == none,
        (Range::Thing { .. }, Value::Named(label)) => takes(prop, found.look(label)),
        (Range::Thing { .. }, Value::New(_)) => prop == OUT_FENCE_PTR,
        _ => false,
    }
}

/// What is wrong with an assignment by itself, whatever comes before it: `NO_OBJECT`, its object does not exist;
/// `NO_PROPERTY`, the object does not have the property, on a device of this profile; `IMMUTABLE_PROPERTY`, the property
/// is immutable; `INVALID_VALUE`, the value is not among the property's.
#[tactic(auto, unfolding(kms_model::specs::Request::Refusals::own_refusal))]
pub(crate) fn own_refusal<L: Looker>(topology: &Topology, found: &L, a: &Assign) -> Option<Refusal>
    ensures refusal { refusal_number result ≡ own_refusal topology.now (L.meaning found.now) a.now }
    ensures allowed { IsNone result → IsAllowed topology.now (L.meaning found.now) a.now }
{
    if !exists(topology, a.kind, a.index) {
        return Some(Refusal::NO_OBJECT);
    }
    let Some(row) = row_named(topology, a.kind, a.prop) else {
        return Some(Refusal::NO_PROPERTY);
    };
    if row.immutable {
        return Some(Refusal::IMMUTABLE_PROPERTY);
    }
    if !is_in_range(topology, found, row.id, row.range, a.value) {
        return Some(Refusal::INVALID_VALUE);
    }
    None
}

/// Whether an assignment sets the fence of a plane for which an earlier one named a fence.
fn is_second_fence(fenced: &[bool; 16], a: &Assign) -> bool
    requires { SetsFenceOfPlane a.now }
    ensures { (earlier : List Assign) → TellFences earlier fenced.now
        → result ≡ is_second_fence earlier a.now }
{
    a.prop == PropRef::Known(IN_FENCE_FD) && fenced[a.index as usize]
}

/// Notes the fence that an assignment names.
fn note_fence(fenced: &mut [bool; 16], a: &Assign)
    requires { SetsFenceOfPlane a.now }
    ensures { (earlier : List Assign) → TellFences earlier fenced.old
        → TellFences (a.now ∷ earlier) fenced.new }
{
    if a.prop == PropRef::Known(IN_FENCE_FD) && matches!(a.value, Value::Named(_)) {
        fenced[a.index as usize] = true;
    }
}

/// The first that is wrong with assignments, from `NO_OBJECT` to `SECOND_IN_FENCE`.
#[tactic(auto, unfolding(kms_model::specs::Request::Refusals::assigns_refusal, kms_model::specs::Request::Refusals::assign_refusal))]
fn first_refusal<L: Looker>(topology: &Topology, found: &L, assigns: &[Assign]) -> Option<Refusal>
    requires { IsTrue (keeps_limits topology.now) }
    ensures { refusal_number result
        ≡ assigns_refusal topology.now (L.meaning found.now) [] assigns.now }
{
    // For each plane, whether an assignment named a fence for it.
    let mut fenced = [false; 16];
    for a in assigns {
        if let Some(refusal) = own_refusal(topology, found, a) {
            return Some(refusal);
        }
        if is_second_fence(&fenced, a) {
            return Some(Refusal::SECOND_IN_FENCE);
        }
        note_fence(&mut fenced, a);
    }
    None
}

/// The first early refusal that is due to a request, over what its labels name; `None` where none of them is.
///
/// Of the device's 1 to 4 CRTCs, 1 to 16 planes and 1 to 8 connectors its assignments may name others. It takes no
/// memory.
#[tactic(auto, unfolding(kms_model::specs::Request::Refusals::early_refusal))]
pub fn early<L: Looker>(topology: &Topology, request: &Request, found: &L) -> Option<Refusal>
    requires { IsTrue (keeps_limits topology.now) }
    ensures first { refusal_number result
        ≡ early_refusal topology.now (L.meaning found.now) request.now }
    ensures allowed { IsNone result
        → All (IsAllowed topology.now (L.meaning found.now)) request.now.assigns }
    ensures settable { IsNone result → All IsSettable request.now.assigns }
{
    if let Some(refusal) = flags_refusal(request.flags) {
        return Some(refusal);
    }
    first_refusal(topology, found, request.assigns.as_slice())
}
