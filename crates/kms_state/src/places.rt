//! The calls of duplicates: duplicating states, finding them, and setting their properties.
ghost use Rattle.std.specs.Prelude.{◌≡◌, ◌==◌, ◌||◌, ℕ, IsTrue, List, is_some, option_map};
ghost use Rattle.kms_model.specs.Device.Places.{state_at};
ghost use Rattle.kms_model.specs.declared.objects.Topology.{Topology};
ghost use Rattle.kms_model.specs.declared.sets.SetValue.TheVariants as to;
ghost use Rattle.kms_model.specs.declared.states.Duplicates.{Duplicates};
ghost use Rattle.kms_model.specs.declared.worlds.Setting.{Setting};
ghost use Rattle.kms_model.specs.declared.worlds.Thing.{Thing};
ghost use Rattle.kms_model.specs.Request.Agreement.{AgreesNew, AgreesOld};
ghost use Rattle.kms_model.specs.Request.SetRanges.{may_set};
ghost use Rattle.kms_state.specs.Changes.{Sets, after_set};
ghost use Rattle.kms_model.specs.Device.Objects.{kind_of};
ghost use Rattle.kms_state.specs.Places.{duplicated, is_duplicated, may_duplicate, none_duplicated, old_states};
ghost use Rattle.kms_state.specs.StandsIn.{KeepsNew, KeepsOld};

use crate::sets::{move_conn, move_plane, set_active, set_fb, set_gamma, set_mode, set_number};
use kms_model::{
    Both, ConnState, CrtcState, Duplicates, FIRST_CONNECTOR_ID, FIRST_CRTC_ID, FIRST_PLANE_ID,
    Kind, ObjId, ObjState, PlaneState, Set, SetValue,
};

/// The calls of duplicated states. `Duplicates` has them; a type that keeps states otherwise would tell by
/// `duplicates` which states it has.
pub trait Duplicating {
    /// The states that it has.
    ghost duplicates: { Self → Duplicates };

    /// No duplicated state. (Kernel: `drm_atomic_state_alloc`.)
    fn empty() -> Self
        ensures states { duplicates result ≡ none_duplicated }
        ensures old { (t : Topology) (things : List Thing) (values : List Setting)
            → AgreesOld t things values (duplicates result) }
        ensures new { (t : Topology) (things : List Thing) (values : List Setting)
            → AgreesNew t things values (duplicates result) };

    /// Whether [`Duplicating::duplicate`] takes a state for an id: it is that of one of 4 CRTCs, 16 planes and 8
    /// connectors, of the state's kind, and the object is not duplicated yet.
    fn may_duplicate(&self, id: ObjId, state: &ObjState) -> bool
        ensures { result ≡ may_duplicate (duplicates self.now) id.0 state.now };

    /// Duplicates the state of an object that is not duplicated yet: its old and its new state are then `state`. The
    /// id is that of one of 4 CRTCs, 16 planes and 8 connectors, and of the state's kind. (Kernel:
    /// `drm_atomic_get_crtc_state` and its like.)
    fn duplicate(&mut self, id: ObjId, state: ObjState)
        requires { IsTrue (may_duplicate (duplicates self.old) id.0 state) }
        ensures states { duplicates self.new ≡ duplicated (duplicates self.old) id.0 state }
        ensures there { (o : ℕ) → is_duplicated (duplicates self.new) o
            ≡ ((o == id.0) || is_duplicated (duplicates self.old) o) }
        ensures old { KeepsOld (duplicates self.old) id.0 state (duplicates self.new) }
        ensures new { KeepsNew (duplicates self.old) id.0 state (duplicates self.new) };

    /// Sets a property of an object that is duplicated: its new state then has the value, and where that is a CRTC, the
    /// sets of planes and connectors of the CRTCs before and after are kept in step, as far as they are duplicated. The
    /// property is one of the object's kind that a request may set, and the value is among its values. `IN_FENCE_FD`
    /// and `OUT_FENCE_PTR` change nothing. (Kernel: `drm_atomic_set_property`, `drm_atomic_set_crtc_for_plane`,
    /// `drm_atomic_set_crtc_for_connector`.)
    fn set(&mut self, set: &Set)
        requires object { IsTrue (is_duplicated (duplicates self.old) set.now.object.0) }
        requires value { IsTrue (may_set (kind_of set.now.object.0) set.now.prop set.now.value) }
        ensures states { duplicates self.new ≡ after_set (duplicates self.old) set.now }
        ensures new { Sets (duplicates self.old) set.now (duplicates self.new) }
        ensures old { old_states (duplicates self.new) ≡ old_states (duplicates self.old) }
        ensures same { (o : ℕ) → is_duplicated (duplicates self.new) o
            ≡ is_duplicated (duplicates self.old) o }
        ensures fence { set.now.value ≡ to.Fence → duplicates self.new ≡ duplicates self.old };

    /// The states of the CRTC with an index, where they are duplicated.
    fn crtc(&self, index: u32) -> Option<Both<CrtcState>>
        ensures { result ≡ state_at (duplicates self.now).crtcs index };

    /// The states of the plane with an index, where they are duplicated.
    fn plane(&self, index: u32) -> Option<Both<PlaneState>>
        ensures { result ≡ state_at (duplicates self.now).planes index };

    /// The states of the connector with an index, where they are duplicated.
    fn conn(&self, index: u32) -> Option<Both<ConnState>>
        ensures { result ≡ state_at (duplicates self.now).conns index };

    /// The new state of the CRTC with an index, where it is duplicated.
    fn new_crtc(&self, index: u32) -> Option<CrtcState>
        ensures { result ≡ option_map (λ b. b.new) (state_at (duplicates self.now).crtcs index) };

    /// The new state of the plane with an index, where it is duplicated.
    fn new_plane(&self, index: u32) -> Option<PlaneState>
        ensures { result ≡ option_map (λ b. b.new) (state_at (duplicates self.now).planes index) };

    /// The new state of the connector with an index, where it is duplicated.
    fn new_conn(&self, index: u32) -> Option<ConnState>
        ensures { result ≡ option_map (λ b. b.new) (state_at (duplicates self.now).conns index) };

    /// Whether the states of an object are duplicated. No other id than those of 4 CRTCs, 16 planes and 8 connectors
    /// ever is.
    fn is_duplicated(&self, id: ObjId) -> bool
        ensures { result ≡ is_duplicated (duplicates self.now) id.0 };
}

impl Duplicating for Duplicates {
    ghost duplicates = { λ states. states };

    fn empty() -> Duplicates {
        Duplicates {
            crtcs: [None; 4],
            planes: [None; 16],
            conns: [None; 8],
        }
    }

    fn may_duplicate(&self, id: ObjId, state: &ObjState) -> bool {
        let id = id.0;
        match state {
            ObjState::Crtc(_) => {
                id >= FIRST_CRTC_ID
                    && matches!(self.crtcs.get((id - FIRST_CRTC_ID) as usize), Some(None))
            }
            ObjState::Plane(_) => {
                id >= FIRST_PLANE_ID
                    && matches!(self.planes.get((id - FIRST_PLANE_ID) as usize), Some(None))
            }
            ObjState::Conn(_) => {
                id >= FIRST_CONNECTOR_ID
                    && matches!(
                        self.conns.get((id - FIRST_CONNECTOR_ID) as usize),
                        Some(None)
                    )
            }
        }
    }

    fn duplicate(&mut self, id: ObjId, state: ObjState) {
        match state {
            ObjState::Crtc(s) => {
                self.crtcs[(id.0 - FIRST_CRTC_ID) as usize] = Some(Both { old: s, new: s });
            }
            ObjState::Plane(s) => {
                self.planes[(id.0 - FIRST_PLANE_ID) as usize] = Some(Both { old: s, new: s });
            }
            ObjState::Conn(s) => {
                self.conns[(id.0 - FIRST_CONNECTOR_ID) as usize] = Some(Both { old: s, new: s });
            }
        }
    }

    fn set(&mut self, set: &Set) {
        let id = set.object.0;
        match set.value {
            SetValue::Num(number) if id < FIRST_PLANE_ID => set_active(self, id, number),
            SetValue::Num(number) => set_number(self, id, set.prop, number),
            SetValue::Fb(fb) => set_fb(self, id, fb),
            SetValue::Mode(mode) => set_mode(self, id, mode),
            SetValue::Gamma(gamma) => set_gamma(self, id, gamma),
            SetValue::Crtc(crtc) if id < FIRST_CONNECTOR_ID => move_plane(self, id, crtc),
            SetValue::Crtc(crtc) => move_conn(self, id, crtc),
            SetValue::Fence => {}
        }
    }

    fn crtc(&self, index: u32) -> Option<Both<CrtcState>> {
        self.crtcs.get(index as usize).copied().flatten()
    }

    fn plane(&self, index: u32) -> Option<Both<PlaneState>> {
        self.planes.get(index as usize).copied().flatten()
    }

    fn conn(&self, index: u32) -> Option<Both<ConnState>> {
        self.conns.get(index as usize).copied().flatten()
    }

    fn new_crtc(&self, index: u32) -> Option<CrtcState> {
        new_at(&self.crtcs, index)
    }

    fn new_plane(&self, index: u32) -> Option<PlaneState> {
        new_at(&self.planes, index)
    }

    fn new_conn(&self, index: u32) -> Option<ConnState> {
        new_at(&self.conns, index)
    }

    fn is_duplicated(&self, id: ObjId) -> bool {
        match id.kind() {
            Kind::Crtc => id.0 >= FIRST_CRTC_ID && is_at(&self.crtcs, id.0 - FIRST_CRTC_ID),
            Kind::Plane => is_at(&self.planes, id.0 - FIRST_PLANE_ID),
            Kind::Conn => is_at(&self.conns, id.0 - FIRST_CONNECTOR_ID),
            Kind::Enc => false,
        }
    }
}

/// Whether the states of the object with an index are there, which copies neither.
fn is_at<S: Copy>(states: &[Option<Both<S>>], index: u32) -> bool
    ensures { result ≡ is_some (state_at states.now index) }
{
    matches!(states.get(index as usize), Some(Some(_)))
}

/// The new state of the object with an index, where its states are there, which copies no old one.
fn new_at<S: Copy>(states: &[Option<Both<S>>], index: u32) -> Option<S>
    ensures { result ≡ option_map (λ b. b.new) (state_at states.now index) }
{
    match states.get(index as usize) {
        Some(Some(both)) => Some(both.new),
        _ => None,
    }
}
