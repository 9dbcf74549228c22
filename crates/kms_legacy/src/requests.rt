//! The requests of calls, on the plane that a call needs.
ghost use Rattle.std.specs.Prelude.{◌≡◌, ◌+◌, ◌++◌, ◌∷◌, [], IfOk, Ok, if◌then◌else◌, map, pos};
ghost use Rattle.kms_model.specs.declared.flags.TheConstants.{ALLOW_MODESET, NONBLOCK, PAGE_FLIP_EVENT};
ghost use Rattle.kms_model.specs.declared.objects.Kind.TheVariants as kind;
ghost use Rattle.kms_model.specs.declared.properties.TheConstants as props;
ghost use Rattle.kms_model.specs.declared.scripts.Value.TheVariants as value;
ghost use Rattle.kms_model.specs.Legacy.Translation.{asks, conns_now, crtc_on, in_fixed, plane_on, present_of, sized_at};
ghost use Rattle.kms_model.specs.Script.Assigning.{conn_off, crtc_off, plane_off};
ghost use Rattle.kms_model.specs.Script.Generated.{assigns_to};
ghost use Rattle.kms_legacy.specs.Asked.{IsWithin};

use crate::setting::{
    Lighting, Size, crtc_off, number_on, plane_off, plane_on, push_conns_off, push_crtc_on,
    sized_at, source_at,
};
use kms_model::flags::{ALLOW_MODESET, NONBLOCK, PAGE_FLIP_EVENT};
use kms_model::properties::{CRTC_X, CRTC_Y, FB_ID};
use kms_model::{Assign, Duplicates, Kind, NoMemory, Rect, Request, Seq, Topology, Value};
use std::alloc::Global;

/// A request without user data.
fn plain_request(flags: u32, assigns: Vec<Assign>) -> Request
    ensures { asks flags 0 assigns.items ≡ Ok result }
{
    Request {
        flags,
        user_data: 0,
        assigns: Seq::from_vec(assigns),
    }
}

/// What shows a framebuffer on a CRTC, in a mode of a size.
pub fn light(
    alloc: Global,
    topology: &Topology,
    states: &Duplicates,
    plane: u32,
    size: Size,
    lit: &Lighting,
) -> Result<Request, NoMemory>
    requires { IsWithin topology.now lit.now.crtc }
    ensures { IfOk result (λ r. asks ALLOW_MODESET 0
        (crtc_on lit.now.crtc lit.now.mode lit.now.conn
        (conns_now topology.now (present_of states.now) lit.now.crtc)
        ++ plane_on plane lit.now.crtc lit.now.fb
        (sized_at (pos 0) (pos 0) (size.width, size.height))
        (in_fixed lit.now.x lit.now.y (size.width, size.height))) ≡ Ok r) }
{
    let mut assigns = Vec::new(alloc);
    push_crtc_on(&mut assigns, topology, states, lit)?;
    let dst = sized_at(0, 0, size);
    let src = source_at(lit.x, lit.y, size);
    assigns.extend_from_slice(&plane_on(plane, lit.crtc, lit.fb, dst, src))?;
    Ok(plain_request(ALLOW_MODESET, assigns))
}

/// What turns a CRTC off, and takes its primary plane away.
pub fn darken(
    alloc: Global,
    topology: &Topology,
    states: &Duplicates,
    plane: u32,
    crtc: u32,
) -> Result<Request, NoMemory>
    requires { IsWithin topology.now crtc }
    ensures { IfOk result (λ r. asks ALLOW_MODESET 0 (crtc_off crtc
        ++ (map conn_off (conns_now topology.now (present_of states.now) crtc) ++ plane_off plane))
        ≡ Ok r) }
{
    let mut assigns = Vec::from_array(alloc, crtc_off(crtc))?;
    push_conns_off(&mut assigns, topology, states, crtc, None)?;
    assigns.extend_from_slice(&plane_off(plane))?;
    Ok(plain_request(ALLOW_MODESET, assigns))
}

/// What puts a plane on a CRTC.
pub fn place(
    alloc: Global,
    plane: u32,
    crtc: u32,
    fb: u32,
    dst: Rect,
    src: Rect,
) -> Result<Request, NoMemory>
    ensures { IfOk result (λ r. asks 0 0 (plane_on plane crtc fb dst src) ≡ Ok r) }
{
    let assigns = Vec::from_array(alloc, plane_on(plane, crtc, fb, dst, src))?;
    Ok(plain_request(0, assigns))
}

/// What takes a plane away.
pub fn take_away(alloc: Global, plane: u32) -> Result<Request, NoMemory>
    ensures { IfOk result (λ r. asks 0 0 (plane_off plane) ≡ Ok r) }
{
    let assigns = Vec::from_array(alloc, plane_off(plane))?;
    Ok(plain_request(0, assigns))
}

/// What moves a plane.
pub fn shift(alloc: Global, plane: u32, x: i64, y: i64) -> Result<Request, NoMemory>
    ensures { IfOk result (λ r. asks 0 0
        (assigns_to kind.Plane plane props.CRTC_X (value.Num x)
        ∷ assigns_to kind.Plane plane props.CRTC_Y (value.Num y) ∷ []) ≡ Ok r) }
{
    let assigns = Vec::from_array(
        alloc,
        [number_on(plane, CRTC_X, x), number_on(plane, CRTC_Y, y)],
    )?;
    Ok(plain_request(0, assigns))
}

/// The flags of a flip, which asks for an event or not.
fn flip_flags(event: bool) -> u32
    ensures { result ≡ (if event then NONBLOCK + PAGE_FLIP_EVENT else NONBLOCK) }
{
    if event {
        NONBLOCK + PAGE_FLIP_EVENT
    } else {
        NONBLOCK
    }
}

/// What shows another framebuffer on a plane, without waiting.
pub fn flip(
    alloc: Global,
    plane: u32,
    fb: u32,
    event: bool,
    user_data: u64,
) -> Result<Request, NoMemory>
    ensures { IfOk result (λ r. asks (if event then NONBLOCK + PAGE_FLIP_EVENT else NONBLOCK)
        user_data (assigns_to kind.Plane plane props.FB_ID (value.Named fb) ∷ []) ≡ Ok r) }
{
    let assign = Assign::known(Kind::Plane, plane, FB_ID, Value::Named(fb));
    let assigns = Vec::from_array(alloc, [assign])?;
    Ok(Request {
        flags: flip_flags(event),
        user_data,
        assigns: Seq::from_vec(assigns),
    })
}
