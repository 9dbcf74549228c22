//! What a call asks for. (Kernel: `drm_mode_setcrtc`, `drm_mode_setplane`, `drm_mode_page_flip_ioctl`, `drm_mode_cursor_common`
//! and the helpers of `drm_atomic_helper.c` behind them.)
ghost use Rattle.std.specs.Prelude.{◌≡◌, Option, true};
ghost use Rattle.kms_model.specs.declared.legacy.LegacyCall.TheVariants as calls;
ghost use Rattle.kms_model.specs.declared.objects.Mode.{Mode};
ghost use Rattle.kms_model.specs.declared.pictures.FbInfo.{FbInfo};
ghost use Rattle.kms_model.specs.Device.Sound.{IsDevice};
ghost use Rattle.kms_model.specs.Legacy.LegacyCalls.{call_may_stand};
ghost use Rattle.kms_model.specs.Legacy.Translation.{Present, call_request, fb_size, mode_size, present_of};
ghost use Rattle.kms_legacy.specs.Asked.{GivesRequest, IsNoSetCrtc, IsWithin};

use crate::errors::{LegacyError, refuse};
use crate::present::{changes_format, fb_of_plane, is_plane_on};
use crate::requests::{darken, flip, light, place, shift, take_away};
use crate::setting::{Lighting, Size, sized_at, source_at};
use crate::special::{CURSOR, PRIMARY, special_plane};
use kms_model::{Duplicates, FbInfo, LegacyCall, LegacyRefusal, Mode, Request, Topology};
use std::alloc::Global;

/// What `pageflip` shows on a CRTC, by the framebuffer's label, and whether it asks for an event.
#[derive(Clone, Copy)]
struct Flipping {
    crtc: u32,
    fb: u32,
    event: bool,
    user_data: u64,
}

/// What `cursor` shows on a CRTC, by the framebuffer's label, and where.
#[derive(Clone, Copy)]
struct CursorShown {
    crtc: u32,
    fb: u32,
    x: i64,
    y: i64,
}

/// The size of a mode; 0 by 0 of one that is not there.
fn mode_size(mode: Option<Mode>) -> Size
    ensures { (result.width, result.height) ≡ mode_size mode }
{
    match mode {
        Some(mode) => Size {
            width: u32::from(mode.hdisplay),
            height: u32::from(mode.vdisplay),
        },
        None => Size {
            width: 0,
            height: 0,
        },
    }
}

/// The size of a framebuffer; 0 by 0 of one that is not there.
fn fb_size(fb: Option<FbInfo>) -> Size
    ensures { (result.width, result.height) ≡ fb_size fb }
{
    match fb {
        Some(fb) => Size {
            width: fb.width,
            height: fb.height,
        },
        None => Size {
            width: 0,
            height: 0,
        },
    }
}

/// `setcrtc`, which shows a framebuffer in a mode.
#[tactic(auto, unfolding(kms_model::specs::Legacy::Translation::call_request))]
fn set_crtc(
    alloc: Global,
    topology: &Topology,
    states: &Duplicates,
    mode: Option<Mode>,
    lit: &Lighting,
) -> Result<Request, LegacyError>
    requires { IsWithin topology.now lit.now.crtc }
    ensures { (fb : Option FbInfo) → GivesRequest result
        (call_request topology.now (present_of states.now) mode fb
        (calls.SetCrtc lit.now.crtc lit.now.fb lit.now.x lit.now.y lit.now.mode lit.now.conn)) }
{
    let Some(plane) = special_plane(topology, PRIMARY, lit.crtc) else {
        return Err(refuse(LegacyRefusal::NO_PLANE));
    };
    Ok(light(alloc, topology, states, plane, mode_size(mode), lit)?)
}

/// `setcrtc` with `off`.
#[tactic(auto, unfolding(kms_model::specs::Legacy::Translation::call_request))]
fn set_crtc_off(
    alloc: Global,
    topology: &Topology,
    states: &Duplicates,
    crtc: u32,
) -> Result<Request, LegacyError>
    requires { IsWithin topology.now crtc }
    ensures { (mode : Option Mode) (fb : Option FbInfo) → GivesRequest result
        (call_request topology.now (present_of states.now) mode fb (calls.CrtcOff crtc)) }
{
    let Some(plane) = special_plane(topology, PRIMARY, crtc) else {
        return Err(refuse(LegacyRefusal::NO_PLANE));
    };
    Ok(darken(alloc, topology, states, plane, crtc)?)
}

/// `pageflip`, by what it shows there: a plane that is not on the CRTC is not flipped, and no flip changes the format.
#[tactic(auto, unfolding(kms_model::specs::Legacy::Translation::call_request))]
fn page_flip(
    alloc: Global,
    topology: &Topology,
    states: &Duplicates,
    shown: Option<FbInfo>,
    asked: Flipping,
) -> Result<Request, LegacyError>
    requires { IsWithin topology.now asked.crtc }
    ensures { (mode : Option Mode) → GivesRequest result
        (call_request topology.now (present_of states.now) mode shown
        (calls.PageFlip asked.crtc asked.fb asked.event asked.user_data)) }
{
    let Flipping {
        crtc,
        fb,
        event,
        user_data,
    } = asked;
    let Some(plane) = special_plane(topology, PRIMARY, crtc) else {
        return Err(refuse(LegacyRefusal::NO_PLANE));
    };
    if !is_plane_on(states, plane, crtc) {
        return Err(refuse(LegacyRefusal::NOT_SHOWN));
    }
    if changes_format(shown, fb_of_plane(states, plane)) {
        return Err(refuse(LegacyRefusal::FORMAT_CHANGES));
    }
    Ok(flip(alloc, plane, fb, event, user_data)?)
}

/// `cursor`, which shows a whole framebuffer.
#[tactic(auto, unfolding(kms_model::specs::Legacy::Translation::call_request))]
fn cursor(
    alloc: Global,
    topology: &Topology,
    shown: Option<FbInfo>,
    asked: CursorShown,
) -> Result<Request, LegacyError>
    requires { IsWithin topology.now asked.crtc }
    ensures { (now : Present) (mode : Option Mode) → GivesRequest result
        (call_request topology.now now mode shown
        (calls.Cursor asked.crtc asked.fb asked.x asked.y)) }
{
    let CursorShown { crtc, fb, x, y } = asked;
    let Some(plane) = special_plane(topology, CURSOR, crtc) else {
        return Err(refuse(LegacyRefusal::NO_PLANE));
    };
    let size = fb_size(shown);
    let dst = sized_at(x, y, size);
    let src = source_at(0, 0, size);
    Ok(place(alloc, plane, crtc, fb, dst, src)?)
}

/// `cursor` with `move`.
#[tactic(auto, unfolding(kms_model::specs::Legacy::Translation::call_request))]
fn cursor_move(
    alloc: Global,
    topology: &Topology,
    crtc: u32,
    x: i64,
    y: i64,
) -> Result<Request, LegacyError>
    requires { IsWithin topology.now crtc }
    ensures { (now : Present) (mode : Option Mode) (fb : Option FbInfo) → GivesRequest result
        (call_request topology.now now mode fb (calls.CursorMove crtc x y)) }
{
    let Some(plane) = special_plane(topology, CURSOR, crtc) else {
        return Err(refuse(LegacyRefusal::NO_PLANE));
    };
    Ok(shift(alloc, plane, x, y)?)
}

/// `cursor` with `off`.
#[tactic(auto, unfolding(kms_model::specs::Legacy::Translation::call_request))]
fn cursor_off(alloc: Global, topology: &Topology, crtc: u32) -> Result<Request, LegacyError>
    requires { IsWithin topology.now crtc }
    ensures { (now : Present) (mode : Option Mode) (fb : Option FbInfo) → GivesRequest result
        (call_request topology.now now mode fb (calls.CursorOff crtc)) }
{
    let Some(plane) = special_plane(topology, CURSOR, crtc) else {
        return Err(refuse(LegacyRefusal::NO_PLANE));
    };
    Ok(take_away(alloc, plane)?)
}

/// A call that is no `setcrtc`.
#[tactic(auto, unfolding(kms_model::specs::Legacy::Translation::call_request))]
fn translate_other(
    alloc: Global,
    topology: &Topology,
    states: &Duplicates,
    shown: Option<FbInfo>,
    call: &LegacyCall,
) -> Result<Request, LegacyError>
    requires device { IsDevice topology.now }
    requires stands { call_may_stand topology.now call.now ≡ true }
    requires other { IsNoSetCrtc call.now }
    ensures { (mode : Option Mode) → GivesRequest result
        (call_request topology.now (present_of states.now) mode shown call.now) }
{
    match *call {
        LegacyCall::SetPlane {
            plane,
            crtc,
            fb,
            dst,
            src,
        } => Ok(place(alloc, plane, crtc, fb, dst, src)?),
        LegacyCall::PlaneOff { plane } => Ok(take_away(alloc, plane)?),
        LegacyCall::PageFlip {
            crtc,
            fb,
            event,
            user_data,
        } => {
            let asked = Flipping {
                crtc,
                fb,
                event,
                user_data,
            };
            page_flip(alloc, topology, states, shown, asked)
        }
        LegacyCall::Cursor { crtc, fb, x, y } => {
            cursor(alloc, topology, shown, CursorShown { crtc, fb, x, y })
        }
        LegacyCall::CursorMove { crtc, x, y } => cursor_move(alloc, topology, crtc, x, y),
        LegacyCall::CursorOff { crtc } => cursor_off(alloc, topology, crtc),
        LegacyCall::SetCrtc { .. } | LegacyCall::CrtcOff { .. } => unreachable!(),
    }
}

/// The request that a call asks for, with the call's labels, by the states of a device's objects before it; or the number of
/// the rule that refuses it: `NO_PLANE`, where the call needs the primary plane of its CRTC, or the cursor plane, and there is
/// none; then, of `pageflip`, `NOT_SHOWN`, where the primary plane is not on the CRTC, and `FORMAT_CHANGES`, where the
/// framebuffer is there and has another format than the one that is shown. Want of memory comes where none of these does.
///
/// `mode` and `fb` are what the call's labels name, an open legal mode and an open framebuffer; each is none where the label
/// names anything else, or nothing. A size of what is not there is 0, and the device then refuses the request. The call is
/// one that may stand in a script over the device.
pub fn translate(
    alloc: Global,
    topology: &Topology,
    states: &Duplicates,
    mode: Option<Mode>,
    fb: Option<FbInfo>,
    call: &LegacyCall,
) -> Result<Request, LegacyError>
    requires device { IsDevice topology.now }
    requires stands { call_may_stand topology.now call.now ≡ true }
    ensures { GivesRequest result
        (call_request topology.now (present_of states.now) mode fb call.now) }
{
    match *call {
        LegacyCall::SetCrtc {
            crtc,
            fb,
            x,
            y,
            mode: label,
            conn,
        } => {
            let lit = Lighting {
                crtc,
                fb,
                x,
                y,
                mode: label,
                conn,
            };
            set_crtc(alloc, topology, states, mode, &lit)
        }
        LegacyCall::CrtcOff { crtc } => set_crtc_off(alloc, topology, states, crtc),
        _ => translate_other(alloc, topology, states, fb, call),
    }
}
