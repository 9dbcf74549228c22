//! Assignments and requests.
ghost use Rattle.std.specs.Prelude.{◌≡◌, ◌++◌, IfOk};
ghost use Rattle.kms_model.specs.declared.objects.Kind.TheVariants.{Crtc, Plane};
ghost use Rattle.kms_model.specs.Script.Generated.{assigns_to};
ghost use Rattle.kms_samples.specs.Samples.{light, request};

use kms_model::properties::{ACTIVE, CRTC_H, CRTC_ID, CRTC_W, FB_ID, MODE_ID, SRC_H, SRC_W};
use kms_model::{Assign, Kind, NoMemory, Request, Seq, Value};
use std::alloc::Global;

/// Sets a property, by its id, of the object of a kind with an index.
pub fn set(kind: Kind, index: u32, prop: u32, value: Value) -> Assign
    ensures { result ≡ assigns_to kind index prop value }
{
    Assign::known(kind, index, prop, value)
}

/// Sets a property, by its id, of the first plane.
pub fn on_plane(prop: u32, value: Value) -> Assign
    ensures { result ≡ assigns_to Plane 0 prop value }
{
    set(Kind::Plane, 0, prop, value)
}

/// Sets a property, by its id, of the first CRTC.
pub fn on_crtc(prop: u32, value: Value) -> Assign
    ensures { result ≡ assigns_to Crtc 0 prop value }
{
    set(Kind::Crtc, 0, prop, value)
}

/// What lights the first CRTC: the framebuffer and the mode of these labels, by their numbers from 0, are of one pixel.
/// The first three assignments are to the CRTC and its connector, the others to its plane.
pub fn light(fb: u32, mode: u32) -> [Assign; 9]
    ensures { result ≡ light fb mode }
{
    [
        on_crtc(ACTIVE, Value::Num(1)),
        on_crtc(MODE_ID, Value::Named(mode)),
        set(Kind::Conn, 0, CRTC_ID, Value::Crtc(0)),
        on_plane(FB_ID, Value::Named(fb)),
        on_plane(CRTC_ID, Value::Crtc(0)),
        on_plane(CRTC_W, Value::Num(1)),
        on_plane(CRTC_H, Value::Num(1)),
        on_plane(SRC_W, Value::Num(65536)),
        on_plane(SRC_H, Value::Num(65536)),
    ]
}

/// A request with these flags, a set of bits, that sets what `first` and then `more` say.
pub fn request(
    alloc: Global,
    flags: u32,
    first: &[Assign],
    more: &[Assign],
) -> Result<Request, NoMemory>
    ensures { IfOk result (λ r. r ≡ request flags (first.now ++ more.now)) }
{
    let mut assigns = first.to_vec(alloc)?;
    assigns.extend_from_slice(more)?;
    Ok(Request {
        flags,
        user_data: 7,
        assigns: Seq::from_vec(assigns),
    })
}
