//! The parts of both requests: what is set of the objects of a kind that are in use, by index.
ghost use Rattle.std.specs.Prelude.{◌≡◌, ◌<◌, [], ◌∷◌, ◌++◌, OnOk};
ghost use Rattle.kms_model.specs.Device.Objects.{count_of};
ghost use Rattle.kms_core.specs.Decisions.{world};
ghost use Rattle.kms_suspend.specs.Parts.{ArePresentOf, assigns_at, back_of, off_of, part, part_at};

use crate::using::{
    active_number, conn_state, count_of, is_in_use, label_for, plane_state, value_of_label,
};
use kms_core::Core;
use kms_model::properties::{ACTIVE, CRTC_ID, FB_ID, MODE_ID};
use kms_model::{Assign, Duplicates, Kind, NoMemory, ObjId, Seq, Value};

/// Which of the two requests.
#[derive(Clone, Copy)]
pub enum Way {
    /// The one that turns a device off.
    Off,
    /// The one that brings it back.
    Back,
}

/// Adds an assignment.
fn push_one(assigns: &mut Seq<Assign>, assign: Assign) -> Result<(), NoMemory>
    ensures { OnOk result (assigns.new ≡ assigns.old ++ assign ∷ []) }
{
    assigns.push(assign)?;
    Ok(())
}

/// Adds two assignments.
fn push_two(assigns: &mut Seq<Assign>, first: Assign, second: Assign) -> Result<(), NoMemory>
    ensures { OnOk result (assigns.new ≡ assigns.old ++ first ∷ second ∷ []) }
{
    push_one(assigns, first)?;
    push_one(assigns, second)
}

/// Adds what turns an object of a kind off, by its index. (Kernel: `drm_atomic_helper_disable_all`.)
fn push_off(assigns: &mut Seq<Assign>, kind: Kind, index: u32) -> Result<(), NoMemory>
    ensures { OnOk result (assigns.new ≡ assigns.old ++ off_of kind index) }
{
    let none = Value::Num(0);
    match kind {
        Kind::Crtc => push_two(
            assigns,
            Assign::known(kind, index, ACTIVE, none),
            Assign::known(kind, index, MODE_ID, none),
        ),
        Kind::Plane => push_two(
            assigns,
            Assign::known(kind, index, FB_ID, none),
            Assign::known(kind, index, CRTC_ID, none),
        ),
        Kind::Conn => push_one(assigns, Assign::known(kind, index, CRTC_ID, none)),
        Kind::Enc => Ok(()),
    }
}

/// Adds what brings an object of a kind back, by its index, as it is on the device. (Kernel:
/// `drm_atomic_helper_commit_duplicated_state`.)
fn push_back(
    core: &Core,
    states: &Duplicates,
    assigns: &mut Seq<Assign>,
    kind: Kind,
    index: u32,
) -> Result<(), NoMemory>
    requires present { ArePresentOf core.now states.now }
    requires there { index < count_of core.now.script.topology kind }
    ensures { OnOk result (assigns.new ≡ assigns.old ++ back_of (world core.now) kind index) }
{
    match kind {
        Kind::Crtc => {
            let mode = value_of_label(label_for(core, states, kind, index));
            let active = Value::Num(active_number(core, states, index));
            push_two(
                assigns,
                Assign::known(kind, index, MODE_ID, mode),
                Assign::known(kind, index, ACTIVE, active),
            )
        }
        Kind::Plane => {
            let fb = value_of_label(label_for(core, states, kind, index));
            let crtc = Value::Crtc(ObjId(plane_state(states, index).crtc).index());
            push_two(
                assigns,
                Assign::known(kind, index, FB_ID, fb),
                Assign::known(kind, index, CRTC_ID, crtc),
            )
        }
        Kind::Conn => {
            let crtc = Value::Crtc(ObjId(conn_state(states, index).crtc).index());
            push_one(assigns, Assign::known(kind, index, CRTC_ID, crtc))
        }
        Kind::Enc => Ok(()),
    }
}

/// Adds what a request sets of an object of a kind, by its index; nothing of one that is not in use.
fn push_object(
    core: &Core,
    states: &Duplicates,
    way: Way,
    kind: Kind,
    index: u32,
    assigns: &mut Seq<Assign>,
) -> Result<(), NoMemory>
    requires present { ArePresentOf core.now states.now }
    requires there { index < count_of core.now.script.topology kind }
    ensures { OnOk result
        (assigns.new ≡ assigns.old ++ part_at way (world core.now) kind index) }
{
    if !is_in_use(states, kind, index) {
        return Ok(());
    }
    match way {
        Way::Off => push_off(assigns, kind, index),
        Way::Back => push_back(core, states, assigns, kind, index),
    }
}

/// Adds what a request sets of the objects of a kind, by index.
pub fn push_part(
    core: &Core,
    states: &Duplicates,
    way: Way,
    kind: Kind,
    assigns: &mut Seq<Assign>,
) -> Result<(), NoMemory>
    requires { ArePresentOf core.now states.now }
    ensures { OnOk result (assigns.new
        ≡ assigns.old ++ part way core.now.script.topology (world core.now) kind) }
{
    core.is_a_history();
    for index in 0..count_of(&core.script().topology, kind) {
        push_object(core, states, way, kind, index, assigns)?;
    }
    Ok(())
}
