//! Setting properties of duplicated states.
ghost use Rattle.std.specs.Prelude.{◌≡◌, ◌<◌, IsTrue, is_some};
ghost use Rattle.kms_model.specs.declared.objects.Kind.TheVariants.{Crtc, Plane, Conn};
ghost use Rattle.kms_model.specs.declared.properties.TheConstants.{ACTIVE, CRTC_ID, FB_ID, GAMMA_LUT, MODE_ID};
ghost use Rattle.kms_model.specs.declared.sets.SetValue.TheVariants as to;
ghost use Rattle.kms_model.specs.Request.SetRanges.{may_set};
ghost use Rattle.kms_state.specs.Places.{state_of};
ghost use Rattle.kms_state.specs.Changes.{IsSet, changed, plane_after_set, rerouted, set_to, with_member, with_routed};

use crate::places::Duplicating;
use kms_model::properties::{
    ALPHA, BLEND, CRTC_H, CRTC_W, CRTC_X, CRTC_Y, SRC_H, SRC_W, SRC_X, SRC_Y, ZPOS,
};
use kms_model::{
    CrtcState, Duplicates, FIRST_CONNECTOR_ID, FIRST_CRTC_ID, FIRST_PLANE_ID, FbInfo, Gamma, Kind,
    Mode, PlaneState,
};

/// `ACTIVE` of a CRTC, by its id.
pub(crate) fn set_active(states: &mut Duplicates, id: u32, number: i64)
    requires { IsTrue (is_some (state_of Crtc states.old.crtcs id)) }
    ensures { IsSet states.old (set_to id ACTIVE (to.Num number)) states.new }
{
    let index = id - FIRST_CRTC_ID;
    if let Some(mut both) = states.crtc(index) {
        both.new.active = number != 0;
        states.crtcs[index as usize] = Some(both);
    }
}

/// `MODE_ID` of a CRTC, by its id.
pub(crate) fn set_mode(states: &mut Duplicates, id: u32, mode: Option<Mode>)
    requires { IsTrue (is_some (state_of Crtc states.old.crtcs id)) }
    ensures { IsSet states.old (set_to id MODE_ID (to.Mode mode)) states.new }
{
    let index = id - FIRST_CRTC_ID;
    if let Some(mut both) = states.crtc(index) {
        both.new.mode = mode;
        states.crtcs[index as usize] = Some(both);
    }
}

/// `GAMMA_LUT` of a CRTC, by its id.
pub(crate) fn set_gamma(states: &mut Duplicates, id: u32, gamma: Option<Gamma>)
    requires { IsTrue (is_some (state_of Crtc states.old.crtcs id)) }
    ensures { IsSet states.old (set_to id GAMMA_LUT (to.Gamma gamma)) states.new }
{
    let index = id - FIRST_CRTC_ID;
    if let Some(mut both) = states.crtc(index) {
        both.new.gamma = gamma;
        states.crtcs[index as usize] = Some(both);
    }
}

/// The number that a property, by its id, of a plane, by its id, is set to.
pub(crate) fn set_number(states: &mut Duplicates, id: u32, prop: u32, number: i64)
    requires there { IsTrue (is_some (state_of Plane states.old.planes id)) }
    requires value { IsTrue (may_set Plane prop (to.Num number)) }
    ensures { IsSet states.old (set_to id prop (to.Num number)) states.new }
{
    let index = id - FIRST_PLANE_ID;
    if let Some(mut both) = states.plane(index) {
        set_plane_number(&mut both.new, prop, number);
        states.planes[index as usize] = Some(both);
    }
}

/// `FB_ID` of a plane, by its id.
pub(crate) fn set_fb(states: &mut Duplicates, id: u32, fb: Option<FbInfo>)
    requires { IsTrue (is_some (state_of Plane states.old.planes id)) }
    ensures { IsSet states.old (set_to id FB_ID (to.Fb fb)) states.new }
{
    let index = id - FIRST_PLANE_ID;
    if let Some(mut both) = states.plane(index) {
        both.new.fb = fb;
        states.planes[index as usize] = Some(both);
    }
}

/// `CRTC_ID` of a plane, by its id: the id of a CRTC, or 0.
pub(crate) fn move_plane(states: &mut Duplicates, id: u32, crtc: u32)
    requires { IsTrue (is_some (state_of Plane states.old.planes id)) }
    ensures { IsSet states.old (set_to id CRTC_ID (to.Crtc crtc)) states.new }
{
    let index = id - FIRST_PLANE_ID;
    if let Some(mut both) = states.plane(index) {
        let from = both.new.crtc;
        both.new.crtc = crtc;
        states.planes[index as usize] = Some(both);
        put_routed(states, from, Kind::Plane, index, false);
        put_routed(states, crtc, Kind::Plane, index, true);
    }
}

/// `CRTC_ID` of a connector, by its id: the id of a CRTC, or 0.
pub(crate) fn move_conn(states: &mut Duplicates, id: u32, crtc: u32)
    requires { IsTrue (is_some (state_of Conn states.old.conns id)) }
    ensures { IsSet states.old (set_to id CRTC_ID (to.Crtc crtc)) states.new }
{
    let index = id - FIRST_CONNECTOR_ID;
    if let Some(mut both) = states.conn(index) {
        let from = both.new.crtc;
        both.new.crtc = crtc;
        states.conns[index as usize] = Some(both);
        put_routed(states, from, Kind::Conn, index, false);
        put_routed(states, crtc, Kind::Conn, index, true);
    }
}

/// Puts a plane or a connector on a CRTC, or takes it off, where the CRTC is duplicated.
fn put_routed(states: &mut Duplicates, id: u32, kind: Kind, index: u32, is_there: bool)
    requires { index < 32 }
    ensures { states.new ≡ record states.old {
      crtcs = changed Crtc states.old.crtcs id (with_routed kind index is_there);
    } }
{
    if id < FIRST_CRTC_ID {
        return;
    }
    let place = id - FIRST_CRTC_ID;
    if let Some(mut both) = states.crtc(place) {
        change_routed(&mut both.new, kind, index, is_there);
        states.crtcs[place as usize] = Some(both);
    }
}

fn change_routed(state: &mut CrtcState, kind: Kind, index: u32, is_there: bool)
    requires { index < 32 }
    ensures { state.new ≡ with_routed kind index is_there state.old }
{
    match kind {
        Kind::Plane => state.planes = with_member(state.planes, index, is_there),
        Kind::Conn => state.conns = with_member(state.conns, index, is_there),
        _ => {}
    }
}

fn with_member(mask: u32, index: u32, is_there: bool) -> u32
    requires { index < 32 }
    ensures { result ≡ with_member mask index is_there }
{
    if is_there {
        mask | (1 << index)
    } else {
        mask & !(1 << index)
    }
}

/// Sets a number of a plane's state.
fn set_plane_number(plane: &mut PlaneState, prop: u32, number: i64)
    requires { IsTrue (may_set Plane prop (to.Num number)) }
    ensures { plane.new ≡ plane_after_set prop number plane.old }
{
    match prop {
        CRTC_X => plane.dst.x = number,
        CRTC_Y => plane.dst.y = number,
        CRTC_W => plane.dst.w = number,
        CRTC_H => plane.dst.h = number,
        SRC_X => plane.src.x = number,
        SRC_Y => plane.src.y = number,
        SRC_W => plane.src.w = number,
        SRC_H => plane.src.h = number,
        ALPHA => plane.alpha = number as u32,
        BLEND => plane.blend = number as u32,
        ZPOS => plane.zpos = number as u32,
        _ => {}
    }
}
