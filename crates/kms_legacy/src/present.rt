//! What a call reads of the states of a device's objects, before what a request has set.
ghost use Rattle.std.specs.Prelude.{◌≡◌, ◌≤◌, ◌==◌};
ghost use Rattle.kms_model.specs.declared.objects.Kind.TheVariants as kind;
ghost use Rattle.kms_model.specs.Device.Objects.{object_id};
ghost use Rattle.kms_model.specs.Legacy.Translation.{changes_format, present_of};

use kms_model::{Duplicates, FbInfo, Kind, ObjId};
use kms_state::Duplicating;

/// The id of a connector's CRTC, by the connector's index; 0 without one.
fn crtc_of_conn(states: &Duplicates, conn: u32) -> u32
    ensures { result ≡ (present_of states.now).conn_crtc conn }
{
    match states.conn(conn) {
        Some(both) => both.old.crtc,
        None => 0,
    }
}

/// The id of a plane's CRTC, by the plane's index; 0 without one.
fn crtc_of_plane(states: &Duplicates, plane: u32) -> u32
    ensures { result ≡ (present_of states.now).plane_crtc plane }
{
    match states.plane(plane) {
        Some(both) => both.old.crtc,
        None => 0,
    }
}

/// A plane's framebuffer, by the plane's index.
pub fn fb_of_plane(states: &Duplicates, plane: u32) -> Option<FbInfo>
    ensures { result ≡ (present_of states.now).plane_fb plane }
{
    match states.plane(plane) {
        Some(both) => both.old.fb,
        None => None,
    }
}

/// Whether a connector is on a CRTC.
pub fn is_conn_on(states: &Duplicates, conn: u32, crtc: u32) -> bool
    requires { crtc ≤ 255 }
    ensures { result ≡ ((present_of states.now).conn_crtc conn == object_id kind.Crtc crtc) }
{
    crtc_of_conn(states, conn) == ObjId::of(Kind::Crtc, crtc).0
}

/// Whether a plane is on a CRTC.
pub fn is_plane_on(states: &Duplicates, plane: u32, crtc: u32) -> bool
    requires { crtc ≤ 255 }
    ensures { result ≡ ((present_of states.now).plane_crtc plane == object_id kind.Crtc crtc) }
{
    crtc_of_plane(states, plane) == ObjId::of(Kind::Crtc, crtc).0
}

/// Whether one framebuffer has another format than the other; where one is not there, nothing changes.
pub fn changes_format(a: Option<FbInfo>, b: Option<FbInfo>) -> bool
    ensures { result ≡ changes_format a b }
{
    match (a, b) {
        (Some(a), Some(b)) => a.format.bit() != b.format.bit(),
        _ => false,
    }
}
