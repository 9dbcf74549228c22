//! Which objects of a device are in use, and the labels of what they show.
ghost use Rattle.std.specs.Prelude.{◌≡◌, ◌<◌, ◌≤◌, length};
ghost use Rattle.kms_model.specs.declared.objects.Kind.TheVariants as kinds;
ghost use Rattle.kms_model.specs.declared.objects.Topology.{Topology};
ghost use Rattle.kms_model.specs.declared.properties.TheConstants as props;
ghost use Rattle.kms_model.specs.declared.worlds.World.{World};
ghost use Rattle.kms_model.specs.Device.Objects.{count_of, object_id};
ghost use Rattle.kms_model.specs.Device.Sound.{IsDevice};
ghost use Rattle.kms_model.specs.Device.States.{plane_at};
ghost use Rattle.kms_model.specs.Device.World.{value};
ghost use Rattle.kms_model.specs.Order.Suspending.{framebuffer_label, labelled, mode_label};
ghost use Rattle.kms_model.specs.Request.Agreement.{conn_state_at, crtc_state_at};
ghost use Rattle.kms_core.specs.Decisions.{world};
ghost use Rattle.kms_things.specs.Present.{IsPresent};
ghost use Rattle.kms_suspend.specs.Parts.{ArePresentOf, is_in_use, label_for};

use kms_core::Core;
use kms_model::{ConnState, CrtcState, Duplicates, Kind, PlaneState, Topology, Value};
use kms_state::Duplicating;

/// How many objects of a kind a device has.
pub fn count_of(topology: &Topology, kind: Kind) -> u32
    requires { IsDevice topology.now }
    ensures count { result ≡ count_of topology.now kind }
    ensures few { result ≤ 16 }
{
    match kind {
        Kind::Crtc => topology.crtcs,
        Kind::Plane => topology.planes.len() as u32,
        Kind::Conn | Kind::Enc => topology.conns.len() as u32,
    }
}

/// The present state of a CRTC, by its index.
fn crtc_state(states: &Duplicates, index: u32) -> CrtcState
    ensures { (t : Topology) (w : World) → IsPresent t w states.now → index < t.crtcs
        → result ≡ crtc_state_at t w.things w.values (object_id kinds.Crtc index) }
{
    states.new_crtc(index).unwrap_or(CrtcState::OFF)
}

/// The present state of a plane, by its index.
pub fn plane_state(states: &Duplicates, index: u32) -> PlaneState
    ensures { (t : Topology) (w : World) → IsPresent t w states.now → index < length t.planes
        → result ≡ plane_at w.things w.values (object_id kinds.Plane index) }
{
    states.new_plane(index).unwrap_or(PlaneState::OFF)
}

/// The present state of a connector, by its index.
pub fn conn_state(states: &Duplicates, index: u32) -> ConnState
    ensures { (t : Topology) (w : World) → IsPresent t w states.now → index < length t.conns
        → result ≡ conn_state_at w.values (object_id kinds.Conn index) }
{
    states.new_conn(index).unwrap_or(ConnState::OFF)
}

/// Whether an object of a kind, by its index, is in use: a plane or a connector is on a CRTC, a CRTC has a mode, whether it is
/// on or not. (Kernel: `drm_crtc_state.enable`.)
pub fn is_in_use(states: &Duplicates, kind: Kind, index: u32) -> bool
    ensures { (t : Topology) (w : World) → IsPresent t w states.now → index < count_of t kind
        → result ≡ is_in_use w kind index }
{
    match kind {
        Kind::Crtc => crtc_state(states, index).mode.is_some(),
        Kind::Plane => plane_state(states, index).crtc != 0,
        Kind::Conn => conn_state(states, index).crtc != 0,
        Kind::Enc => false,
    }
}

/// ACTIVE of a CRTC, by its index: 1 where it is on, else 0.
pub fn active_number(core: &Core, states: &Duplicates, index: u32) -> i128
    requires present { ArePresentOf core.now states.now }
    requires there { index < core.now.script.topology.crtcs }
    ensures { result ≡ value (world core.now).values (object_id kinds.Crtc index) props.ACTIVE }
{
    core.is_serial();
    if crtc_state(states, index).active {
        1
    } else {
        0
    }
}

/// A label for the mode of a CRTC, by its index, whichever blob MODE_ID names: that of the open blob of least id with that
/// mode.
fn mode_label(core: &Core, states: &Duplicates, index: u32) -> Option<u32>
    requires present { ArePresentOf core.now states.now }
    requires there { index < core.now.script.topology.crtcs }
    ensures { result ≡ mode_label (world core.now) (object_id kinds.Crtc index) }
{
    match crtc_state(states, index).mode {
        Some(mode) => core.mode_label(&mode),
        None => None,
    }
}

/// The label of the framebuffer of a plane, by its index, where it is open.
fn framebuffer_label(core: &Core, states: &Duplicates, index: u32) -> Option<u32>
    requires present { ArePresentOf core.now states.now }
    requires there { index < length core.now.script.topology.planes }
    ensures { result ≡ framebuffer_label (world core.now) (object_id kinds.Plane index) }
{
    match plane_state(states, index).fb {
        Some(fb) => core.label_of(fb.id),
        None => None,
    }
}

/// The label that brings back what an object of a kind, by its index, shows; connectors need none.
pub fn label_for(core: &Core, states: &Duplicates, kind: Kind, index: u32) -> Option<u32>
    requires present { ArePresentOf core.now states.now }
    requires there { index < count_of core.now.script.topology kind }
    ensures { result ≡ label_for (world core.now) kind index }
{
    match kind {
        Kind::Crtc => mode_label(core, states, index),
        Kind::Plane => framebuffer_label(core, states, index),
        Kind::Conn | Kind::Enc => None,
    }
}

/// A label as a value. Where there is none, something is closed, and nothing is brought back.
pub fn value_of_label(label: Option<u32>) -> Value
    ensures { result ≡ labelled label }
{
    Value::Named(label.unwrap_or(0))
}
