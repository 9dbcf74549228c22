//! The present states of objects.
ghost use Rattle.std.specs.Prelude.{◌≡◌};
ghost use Rattle.kms_model.specs.Machine.Steps.{is_lockable};
ghost use Rattle.kms_core.specs.Locks.{has_lock, held_state};
ghost use Rattle.kms_core.specs.States.{stored_state};

use crate::machine::Core;
use kms_model::{Duplicates, Kind, ObjId, ObjState, Topology};
use kms_state::Duplicating;

impl Core {
    /// The present state of an object that the context of a client, by its number from 1, holds. None exactly where it holds no
    /// such object; any numbers may be asked for. (Kernel: `drm_modeset_is_locked`, and the states that `drm_state_dump`
    /// prints.)
    pub fn held_state(&self, client: u32, id: ObjId) -> Option<ObjState>
        ensures { result ≡ held_state self.now client id }
    {
        let stores = &*self.stores;
        if !has_lock(&stores.script.topology, id) || stores.clients.holder(id) != Some(client) {
            return None;
        }
        present_state(&stores.present, id)
    }
}

/// Whether an id is that of an object of a device which has a lock: a CRTC, a plane or a connector. (Kernel: "KMS Locking".)
pub fn has_lock(topology: &Topology, id: ObjId) -> bool
    ensures { result ≡ has_lock topology.now id.0 }
{
    id.kind().first_id() <= id.0 && is_lockable(topology, id.kind(), id.index())
}

/// Whether a device has the object of a kind with an index, and it has a lock.
fn is_lockable(topology: &Topology, kind: Kind, index: u32) -> bool
    ensures { result ≡ is_lockable topology.now kind index }
{
    match kind {
        Kind::Crtc => index < topology.crtcs,
        Kind::Plane => (index as usize) < topology.planes.len(),
        Kind::Conn => (index as usize) < topology.conns.len(),
        Kind::Enc => false,
    }
}

/// The present state of an object; none of an encoder, and none of an object that is not on the device.
pub(crate) fn present_state(present: &Duplicates, id: ObjId) -> Option<ObjState>
    ensures { result ≡ stored_state present.now id.0 }
{
    let index = id.index();
    match id.kind() {
        Kind::Crtc => present.new_crtc(index).map(ObjState::Crtc),
        Kind::Plane => present.new_plane(index).map(ObjState::Plane),
        Kind::Conn => present.new_conn(index).map(ObjState::Conn),
        Kind::Enc => None,
    }
}
