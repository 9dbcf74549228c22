//! The groups of objects that a request needs locked.
ghost use Rattle.std.specs.Prelude.{◌≡◌, ◌<◌, All, true};
ghost use Rattle.kms_model.specs.declared.objects.Topology.{Topology};
ghost use Rattle.kms_model.specs.declared.worlds.World.{World};
ghost use Rattle.kms_model.specs.Device.Objects.{object_id};
ghost use Rattle.kms_model.specs.Machine.Steps.{is_lockable};
ghost use Rattle.kms_model.specs.Request.Resolves.{IsSettable};
ghost use Rattle.kms_model.specs.Request.Touched.{sets};
ghost use Rattle.kms_core.specs.Order.{AreNeeds, in_group};

use crate::next::judging::is_member;
use kms_model::{Assign, Kind, Mask, ObjId, Request};
use kms_request::object_of;

/// A group of the objects that a request needs locked. (Kernel: `drm_atomic_get_crtc_state`,
/// `drm_atomic_add_affected_planes`, `drm_atomic_add_affected_connectors`.)
#[derive(Clone, Copy)]
pub(crate) enum Group {
    /// Those that it sets.
    Set,
    /// The CRTCs that it names.
    Named,
    /// The planes and connectors of the CRTCs that need a modeset.
    Affected,
    /// All objects of the device.
    Any,
}

/// What a request needs locked, for which no early refusal is due.
#[derive(Clone, Copy)]
pub(crate) struct Needs<'a> {
    pub(crate) request: &'a Request,
    /// The CRTCs that it names.
    pub(crate) named: Mask,
    /// The planes and connectors of the CRTCs that need a modeset.
    pub(crate) affected: Mask,
    pub(crate) touched: Mask,
}

impl<'a> Needs<'a> {
    /// Whether an object of the device, no encoder, is in a group.
    pub(crate) fn has(&self, group: Group, kind: Kind, index: u32) -> bool
        requires index { index < 16 }
        requires settable { All IsSettable self.now.request.now.assigns }
        ensures { (t : Topology) (w : World) → AreNeeds t w self.now
            → is_lockable t kind index ≡ true
            → result ≡ in_group t w self.now.request.now group (object_id kind index) }
    {
        match group {
            Group::Set => sets(self.request.assigns.as_slice(), ObjId::of(kind, index)),
            Group::Named => is_member(&self.named, kind, index),
            Group::Affected => is_member(&self.affected, kind, index),
            Group::Any => true,
        }
    }
}

/// Whether some assignment sets an object.
fn sets(assigns: &[Assign], id: ObjId) -> bool
    requires { All IsSettable assigns.now }
    ensures { result ≡ sets assigns.now id.0 }
{
    for a in assigns {
        if object_of(a) == id.0 {
            return true;
        }
    }
    false
}
