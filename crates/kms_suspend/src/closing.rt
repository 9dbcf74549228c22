//! Objects that cannot be brought back.
ghost use Rattle.std.specs.Prelude.{◌≡◌, ◌<◌, find, option_map};
ghost use Rattle.kms_model.specs.Device.Objects.{count_of, indices_of};
ghost use Rattle.kms_model.specs.Order.Suspending.{closed_object};
ghost use Rattle.kms_core.specs.Decisions.{world};
ghost use Rattle.kms_suspend.specs.Parts.{ArePresentOf, id_of, lacks_label};

use crate::using::{count_of, is_in_use, label_for};
use kms_core::Core;
use kms_model::{Duplicates, Kind, ObjId};

/// Whether an object of a kind, by its index, is in use, and no label names what it shows.
fn lacks_label(core: &Core, states: &Duplicates, kind: Kind, index: u32) -> bool
    requires present { ArePresentOf core.now states.now }
    requires there { index < count_of core.now.script.topology kind }
    ensures { result ≡ lacks_label (world core.now) kind index }
{
    is_in_use(states, kind, index) && label_for(core, states, kind, index).is_none()
}

/// The first object of a kind that lacks a label.
fn first_closed(core: &Core, states: &Duplicates, kind: Kind) -> Option<ObjId>
    requires { ArePresentOf core.now states.now }
    ensures { result ≡ option_map (id_of kind) (find (lacks_label (world core.now) kind)
        (indices_of core.now.script.topology kind)) }
{
    core.is_a_history();
    for index in 0..count_of(&core.script().topology, kind) {
        if lacks_label(core, states, kind, index) {
            return Some(ObjId::of(kind, index));
        }
    }
    None
}

/// The object of least id that cannot be brought back, if any: a CRTC with a mode that no open blob holds, or a plane on a
/// CRTC whose framebuffer is closed. Ids of CRTCs are below those of planes.
pub fn closed_object(core: &Core, states: &Duplicates) -> Option<ObjId>
    requires { ArePresentOf core.now states.now }
    ensures { option_map (λ id. id.0) result
        ≡ closed_object core.now.script.topology (world core.now) }
{
    match first_closed(core, states, Kind::Crtc) {
        Some(id) => Some(id),
        None => first_closed(core, states, Kind::Plane),
    }
}
