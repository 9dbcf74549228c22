//! The assignments that put objects on a CRTC and take them off. (Kernel: `drm_atomic.c`, `__drm_atomic_helper_set_config`;
//! `drm_atomic_helper.c`, `drm_atomic_helper_update_plane`, `drm_atomic_helper_disable_plane`.)
ghost use Rattle.std.specs.Prelude.{◌≡◌, ◌≤◌, ◌*◌, ◌++◌, ◌∷◌, [], if◌then◌else◌, OnOk, map, pos};
ghost use Rattle.kms_model.specs.declared.objects.Kind.TheVariants as kinds;
ghost use Rattle.kms_model.specs.declared.scripts.Value.TheVariants as value;
ghost use Rattle.kms_model.specs.Legacy.Translation.{conns_now, crtc_on, in_fixed, plane_on, present_of, sized_at};
ghost use Rattle.kms_model.specs.Script.Assigning.{conn_off, crtc_off, plane_off};
ghost use Rattle.kms_model.specs.Script.Generated.{assigns_to};
ghost use Rattle.kms_legacy.specs.Asked.{IsWithin, all_but, goes_off, is_other};

use crate::present::is_conn_on;
use kms_model::properties::{
    ACTIVE, CRTC_H, CRTC_ID, CRTC_W, CRTC_X, CRTC_Y, FB_ID, MODE_ID, SRC_H, SRC_W, SRC_X, SRC_Y,
};
use kms_model::{Assign, Duplicates, Kind, NoMemory, Rect, Topology, Value};

/// No framebuffer, no mode, no CRTC, not active.
const UNSET: Value = Value::Num(0);

/// A width and a height in pixels.
#[derive(Clone, Copy)]
pub struct Size {
    pub width: u32,
    pub height: u32,
}

/// What `setcrtc` shows on a CRTC, by labels and indices, and where in the framebuffer it begins, in pixels.
#[derive(Clone, Copy)]
pub struct Lighting {
    pub crtc: u32,
    pub fb: u32,
    pub x: u32,
    pub y: u32,
    pub mode: u32,
    pub conn: u32,
}

/// A plane is on no CRTC, and has no framebuffer.
pub fn plane_off(plane: u32) -> [Assign; 2]
    ensures { result ≡ plane_off plane }
{
    [
        Assign::known(Kind::Plane, plane, FB_ID, UNSET),
        Assign::known(Kind::Plane, plane, CRTC_ID, UNSET),
    ]
}

/// A connector is on no CRTC.
fn conn_off(conn: u32) -> Assign
    ensures { result ≡ conn_off conn }
{
    Assign::known(Kind::Conn, conn, CRTC_ID, UNSET)
}

/// A CRTC is off, and has no mode.
pub fn crtc_off(crtc: u32) -> [Assign; 2]
    ensures { result ≡ crtc_off crtc }
{
    [
        Assign::known(Kind::Crtc, crtc, ACTIVE, UNSET),
        Assign::known(Kind::Crtc, crtc, MODE_ID, UNSET),
    ]
}

/// A property of a plane is a number.
pub fn number_on(plane: u32, prop: u32, number: i64) -> Assign
    ensures { result ≡ assigns_to kinds.Plane plane prop (value.Num number) }
{
    Assign::known(Kind::Plane, plane, prop, Value::Num(i128::from(number)))
}

/// A plane shows a part of a framebuffer at a place of a CRTC.
pub fn plane_on(plane: u32, crtc: u32, fb: u32, dst: Rect, src: Rect) -> [Assign; 10]
    ensures { result ≡ plane_on plane crtc fb dst src }
{
    [
        Assign::known(Kind::Plane, plane, FB_ID, Value::Named(fb)),
        Assign::known(Kind::Plane, plane, CRTC_ID, Value::Crtc(crtc)),
        number_on(plane, CRTC_X, dst.x),
        number_on(plane, CRTC_Y, dst.y),
        number_on(plane, CRTC_W, dst.w),
        number_on(plane, CRTC_H, dst.h),
        number_on(plane, SRC_X, src.x),
        number_on(plane, SRC_Y, src.y),
        number_on(plane, SRC_W, src.w),
        number_on(plane, SRC_H, src.h),
    ]
}

/// A destination at a place, of a size.
pub fn sized_at(x: i64, y: i64, size: Size) -> Rect
    ensures { result ≡ sized_at x y (size.width, size.height) }
{
    Rect {
        x,
        y,
        w: i64::from(size.width),
        h: i64::from(size.height),
    }
}

/// A number of pixels in 16.16 fixed point.
fn to_fixed(pixels: u32) -> i64
    ensures { result ≡ pos (65536 * pixels) }
{
    65536 * i64::from(pixels)
}

/// A source in 16.16 fixed point, from a pixel on and of a size.
pub fn source_at(x: u32, y: u32, size: Size) -> Rect
    ensures { result ≡ in_fixed x y (size.width, size.height) }
{
    Rect {
        x: to_fixed(x),
        y: to_fixed(y),
        w: to_fixed(size.width),
        h: to_fixed(size.height),
    }
}

/// Whether an index is none that stays.
fn is_other(but: Option<u32>, index: u32) -> bool
    ensures { result ≡ is_other but index }
{
    match but {
        Some(one) => index != one,
        None => true,
    }
}

/// Whether a connector is on a CRTC, and none that stays.
fn goes_off(states: &Duplicates, crtc: u32, but: Option<u32>, conn: u32) -> bool
    requires { crtc ≤ 255 }
    ensures { result ≡ goes_off (present_of states.now) crtc but conn }
{
    is_conn_on(states, conn, crtc) && is_other(but, conn)
}

/// Adds an assignment where it is wanted.
fn push_where(assigns: &mut Vec<Assign>, is_wanted: bool, assign: Assign) -> Result<(), NoMemory>
    ensures { OnOk result (assigns.new.items
        ≡ assigns.old.items ++ (if is_wanted then assign ∷ [] else [])) }
{
    if is_wanted {
        assigns.push(assign)?;
        Ok(())
    } else {
        Ok(())
    }
}

/// Takes the connectors that are on a CRTC off it, by index, but one that stays.
pub fn push_conns_off(
    assigns: &mut Vec<Assign>,
    topology: &Topology,
    states: &Duplicates,
    crtc: u32,
    but: Option<u32>,
) -> Result<(), NoMemory>
    requires { IsWithin topology.now crtc }
    ensures { OnOk result (assigns.new.items ≡ assigns.old.items
        ++ map conn_off (all_but but (conns_now topology.now (present_of states.now) crtc))) }
{
    for conn in 0..topology.conns.len() as u32 {
        push_where(assigns, goes_off(states, crtc, but, conn), conn_off(conn))?;
    }
    Ok(())
}

/// Turns a CRTC on in a mode, with one connector: the others that are on it now go off it.
pub fn push_crtc_on(
    assigns: &mut Vec<Assign>,
    topology: &Topology,
    states: &Duplicates,
    lit: &Lighting,
) -> Result<(), NoMemory>
    requires { IsWithin topology.now lit.now.crtc }
    ensures { OnOk result (assigns.new.items ≡ assigns.old.items
        ++ crtc_on lit.now.crtc lit.now.mode lit.now.conn
        (conns_now topology.now (present_of states.now) lit.now.crtc)) }
{
    let crtc = lit.crtc;
    assigns.push(Assign::known(Kind::Crtc, crtc, ACTIVE, Value::Num(1)))?;
    assigns.push(Assign::known(Kind::Crtc, crtc, MODE_ID, Value::Named(lit.mode)))?;
    push_conns_off(assigns, topology, states, crtc, Some(lit.conn))?;
    assigns.push(Assign::known(Kind::Conn, lit.conn, CRTC_ID, Value::Crtc(crtc)))?;
    Ok(())
}
