//! The late refusals of duplicated states. (Kernel: `drm_atomic_check_only`, `drm_atomic_helper_check_modeset`,
//! `drm_atomic_helper_check_planes`.)
ghost use Rattle.std.specs.Prelude.{◌≡◌, ◌<◌, ◌&&◌, ◌==◌, ℕ, Bool, not, IfSome, slice_get};
ghost use Rattle.std.specs.List.{list_any, range_with_len};
ghost use Rattle.std.specs.Option.{option_and_then};
ghost use Rattle.kms_model.specs.declared.objects.Kind.TheVariants.{Crtc, Plane};
ghost use Rattle.kms_model.specs.Firsts.{first_some, refused_if};
ghost use Rattle.kms_model.specs.Request.Flags.{allows_modeset, wants_event};
ghost use Rattle.kms_model.specs.Request.Late.{ArePlanesInRange, clone_refusal_of, conn_refusal_of, crtc_refusal_of, duplicate_in, late_of_states, members, needs_modeset_if, new_mode, plane_refusal_of, route_refusal_of, shown_refusal_of};
ghost use Rattle.kms_model.specs.Device.Objects.{count_of};
ghost use Rattle.kms_model.specs.Device.Sound.{IsPlaneInRange};
ghost use Rattle.kms_props.specs.Flags.{bits_of};
ghost use Rattle.kms_request.specs.Answers.{refusal_number};
ghost use Rattle.kms_request.specs.Order.{IsLookedAtInRange, conn_in_set, count_of_step, crtc_in_set, plane_in_set, refusal_at, some_needs_modeset};
ghost use Rattle.kms_model.specs.declared.replies.TheConstants.Refusal.{MODESET_NOT_ALLOWED};

use crate::duplicated::{duplicate_at, duplicate_in, is_in};
use crate::states::{conn_refusal, crtc_refusal, needs_modeset, plane_refusal, shown_refusal};
use kms_model::{Duplicates, Kind, Mask, Mode, Refusal, Topology};
use kms_props::AtomicFlags;

/// What a request asks for, besides what it sets.
#[derive(Clone, Copy)]
pub struct Asked {
    /// Its flags.
    pub flags: AtomicFlags,
    /// The mask of the CRTCs that it names: bit i stands for CRTC index i.
    pub named: u32,
    /// The mask of the CRTCs for which it asks for an out-fence.
    pub fenced: u32,
}

/// A step of the order in which refusals are tried; within a step, objects are looked at in order of their indices.
#[derive(Clone, Copy)]
enum OrderStep {
    /// `FRAMEBUFFER_XOR_CRTC` to `SWITCHES_CRTC`, of each plane.
    Planes,
    /// `ACTIVE_WITHOUT_MODE` and `SIGNAL_WHILE_OFF`, of each CRTC.
    Crtcs,
    /// `CONNECTOR_NOT_POSSIBLE`, of each connector.
    Conns,
    /// `CLONED_CONNECTORS`, of each CRTC.
    Clones,
    /// `MODE_XOR_CONNECTOR`, of each CRTC.
    Routes,
    /// `CRTC_NOT_ENABLED` to `FRACTIONAL_SOURCE`, of each plane.
    Shown,
}

/// The new mode of the CRTC with an id, if it is duplicated and has one.
fn new_mode(states: &Duplicates, crtc: u32) -> Option<Mode>
    ensures { result ≡ new_mode states.now.crtcs crtc }
{
    let index = crtc.saturating_sub(Kind::Crtc.first_id()) as usize;
    duplicate_at(&states.crtcs, index)?.new.mode
}

/// How many of the first objects are in a set.
fn members(mask: u32, count: usize) -> usize
    ensures { result ≡ members mask count }
{
    (0..count).filter(|&index| is_in(mask, index)).count()
}

/// What is wrong with a plane of a set, from `FRAMEBUFFER_XOR_CRTC` to `SWITCHES_CRTC`.
fn check_plane(
    topology: &Topology,
    states: &Duplicates,
    objects: &Mask,
    index: usize,
) -> Option<Refusal>
    requires { IfSome (plane_in_set states.now objects.now index)
        (λ both. IsPlaneInRange both.new) }
    ensures { refusal_number result ≡ option_and_then (plane_refusal_of topology.now index)
        (plane_in_set states.now objects.now index) }
{
    let both = duplicate_in(objects.planes, &states.planes, index)?;
    let info = topology.planes.as_slice().get(index)?;
    plane_refusal(info, &both.old, &both.new)
}

/// What is wrong with a CRTC of a set, `ACTIVE_WITHOUT_MODE` or `SIGNAL_WHILE_OFF`.
fn check_crtc(states: &Duplicates, objects: &Mask, asked: Asked, index: usize) -> Option<Refusal>
    ensures { refusal_number result
        ≡ option_and_then (crtc_refusal_of (bits_of asked.flags) asked.named asked.fenced index)
        (crtc_in_set states.now objects.now index) }
{
    let both = duplicate_in(objects.crtcs, &states.crtcs, index)?;
    let signals = asked.flags.contains(AtomicFlags::PAGE_FLIP_EVENT) || is_in(asked.fenced, index);
    let asks = is_in(asked.named, index) && signals;
    crtc_refusal(asks, both.old.active, both.new.active, both.new.mode)
}

/// What is wrong with a connector of a set, `CONNECTOR_NOT_POSSIBLE`.
fn check_conn(
    topology: &Topology,
    states: &Duplicates,
    objects: &Mask,
    index: usize,
) -> Option<Refusal>
    ensures { refusal_number result ≡ option_and_then (conn_refusal_of topology.now index)
        (conn_in_set states.now objects.now index) }
{
    let both = duplicate_in(objects.conns, &states.conns, index)?;
    let possible = topology.conns.as_slice().get(index)?;
    conn_refusal(*possible, both.new.crtc)
}

/// `CLONED_CONNECTORS`, where two or more connectors are on a CRTC of a set.
fn check_clones(
    topology: &Topology,
    states: &Duplicates,
    objects: &Mask,
    index: usize,
) -> Option<Refusal>
    ensures { refusal_number result ≡ option_and_then (λ both. clone_refusal_of topology.now both)
        (crtc_in_set states.now objects.now index) }
{
    let both = duplicate_in(objects.crtcs, &states.crtcs, index)?;
    if members(both.new.conns, topology.conns.len()) > 1 {
        Some(Refusal::CLONED_CONNECTORS)
    } else {
        None
    }
}

/// `MODE_XOR_CONNECTOR`, where a CRTC of a set has a mode and no connector, or a connector and no mode.
fn check_route(states: &Duplicates, objects: &Mask, index: usize) -> Option<Refusal>
    ensures { refusal_number result ≡ option_and_then (λ both. route_refusal_of both)
        (crtc_in_set states.now objects.now index) }
{
    let both = duplicate_in(objects.crtcs, &states.crtcs, index)?;
    if both.new.mode.is_some() != (both.new.conns != 0) {
        Some(Refusal::MODE_XOR_CONNECTOR)
    } else {
        None
    }
}

/// What is wrong with a plane of a set on its CRTC, from `CRTC_NOT_ENABLED` to `FRACTIONAL_SOURCE`.
fn check_shown(profile: u32, states: &Duplicates, objects: &Mask, index: usize) -> Option<Refusal>
    requires { IfSome (plane_in_set states.now objects.now index)
        (λ both. IsPlaneInRange both.new) }
    ensures { refusal_number result
        ≡ option_and_then (λ both. shown_refusal_of profile states.now.crtcs both)
        (plane_in_set states.now objects.now index) }
{
    let both = duplicate_in(objects.planes, &states.planes, index)?;
    shown_refusal(profile, new_mode(states, both.new.crtc), &both.new)
}

/// What a step finds wrong with an object of a set.
fn refusal_at(
    topology: &Topology,
    states: &Duplicates,
    objects: &Mask,
    asked: Asked,
    step: OrderStep,
    index: usize,
) -> Option<Refusal>
    requires { IsLookedAtInRange step (plane_in_set states.now objects.now index) }
    ensures { refusal_number result
        ≡ refusal_at topology.now states.now objects.now asked step index }
{
    match step {
        OrderStep::Planes => check_plane(topology, states, objects, index),
        OrderStep::Crtcs => check_crtc(states, objects, asked, index),
        OrderStep::Conns => check_conn(topology, states, objects, index),
        OrderStep::Clones => check_clones(topology, states, objects, index),
        OrderStep::Routes => check_route(states, objects, index),
        OrderStep::Shown => check_shown(topology.profile, states, objects, index),
    }
}

/// How many objects a step looks at.
fn count_of_step(topology: &Topology, step: OrderStep) -> usize
    ensures { result ≡ count_of_step topology.now step }
{
    match step {
        OrderStep::Planes | OrderStep::Shown => topology.planes.len(),
        OrderStep::Crtcs | OrderStep::Clones | OrderStep::Routes => topology.crtcs as usize,
        OrderStep::Conns => topology.conns.len(),
    }
}

/// The first that a step finds wrong with the objects of a set.
fn first_of(
    topology: &Topology,
    states: &Duplicates,
    objects: &Mask,
    asked: Asked,
    step: OrderStep,
) -> Option<Refusal>
    requires { ArePlanesInRange topology.now states.now objects.now.planes }
    ensures { refusal_number result
        ≡ first_some (refusal_at topology.now states.now objects.now asked step)
        (range_with_len 0 (count_of_step topology.now step)) }
{
    for index in 0..count_of_step(topology, step) {
        if let Some(refusal) = refusal_at(topology, states, objects, asked, step, index) {
            return Some(refusal);
        }
    }
    None
}

/// Whether a CRTC of a set needs a modeset.
fn some_needs_modeset(topology: &Topology, states: &Duplicates, objects: &Mask) -> bool
    ensures { result ≡ some_needs_modeset topology.now states.now objects.now }
{
    (0..topology.crtcs as usize).any(|index| duplicate_in(
        objects.crtcs,
        &states.crtcs,
        index,
    ).is_some_and(|both| needs_modeset(both)))
}

/// The first late refusal of a set of duplicated objects.
///
/// The numbers of the planes of the set are in the ranges of their properties.
#[tactic(auto, unfolding(kms_model::specs::Request::Late::late_of_states))]
pub fn late_refusal(
    topology: &Topology,
    states: &Duplicates,
    objects: &Mask,
    asked: Asked,
) -> Option<Refusal>
    requires { ArePlanesInRange topology.now states.now objects.now.planes }
    ensures { refusal_number result ≡ late_of_states topology.now states.now objects.now
        (bits_of asked.flags) asked.named asked.fenced }
{
    if asked.flags.contains(AtomicFlags::PAGE_FLIP_EVENT) && asked.named == 0 {
        return Some(Refusal::EVENT_WITHOUT_CRTC);
    }
    first_of(topology, states, objects, asked, OrderStep::Planes)
        .or_else(|| first_of(topology, states, objects, asked, OrderStep::Crtcs))
        .or_else(|| first_of(topology, states, objects, asked, OrderStep::Conns))
        .or_else(|| first_of(topology, states, objects, asked, OrderStep::Clones))
        .or_else(|| first_of(topology, states, objects, asked, OrderStep::Routes))
        .or_else(|| first_of(topology, states, objects, asked, OrderStep::Shown))
        .or_else(|| modeset_refusal(topology, states, objects, asked.flags))
}

/// `MODESET_NOT_ALLOWED`, where a CRTC of a set needs a modeset and ALLOW_MODESET is not set.
fn modeset_refusal(
    topology: &Topology,
    states: &Duplicates,
    objects: &Mask,
    flags: AtomicFlags,
) -> Option<Refusal>
    ensures { refusal_number result ≡ refused_if MODESET_NOT_ALLOWED
        (not (allows_modeset (bits_of flags))
        && some_needs_modeset topology.now states.now objects.now) }
{
    if !flags.contains(AtomicFlags::ALLOW_MODESET)
        && some_needs_modeset(topology, states, objects)
    {
        Some(Refusal::MODESET_NOT_ALLOWED)
    } else {
        None
    }
}
