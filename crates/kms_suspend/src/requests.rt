//! The two requests.
ghost use Rattle.std.specs.Prelude.{◌≡◌, ◌++◌, IfErr, IfOk, None, OnOk, true};
ghost use Rattle.kms_model.specs.declared.objects.Kind.TheVariants as kinds;
ghost use Rattle.kms_model.specs.Machine.Histories.{is_drained};
ghost use Rattle.kms_model.specs.Order.Suspending.{closed_object, modeset, off_request, on_request};
ghost use Rattle.kms_core.specs.Decisions.{world};
ghost use Rattle.kms_core.specs.Run.{machine};
ghost use Rattle.kms_suspend.specs.Parts.{IsRefused, part};

use crate::closing::closed_object;
use crate::parts::{Way, push_part};
use kms_core::Core;
use kms_model::flags::ALLOW_MODESET;
use kms_model::{Assign, Kind, NoMemory, ObjId, Request, Seq};
use std::alloc::Global;

/// Why a device is not brought back.
#[derive(Clone, Copy, Debug, PartialEq, Eq)]
pub enum ResumeError {
    /// What an object shows cannot be named: the framebuffer of a plane is closed, or no open blob decodes to a CRTC's mode.
    /// It is the object of least id of which this holds.
    Closed { object: ObjId },
    /// Memory ran out.
    NoMemory,
}

impl From<NoMemory> for ResumeError {
    ghost use Rattle.std.specs.Prelude.{◌≡◌};
    ghost use Rattle.kms_suspend.specs.declared.requests.ResumeError.TheVariants as error;

    ghost from_gives = { λ _ e. e ≡ error.NoMemory };

    fn from(_e: NoMemory) -> ResumeError {
        ResumeError::NoMemory
    }
}

/// A request of these assignments, with leave for a modeset and user data 0.
fn modeset(assigns: Seq<Assign>) -> Request
    ensures { result ≡ modeset assigns }
{
    Request {
        flags: ALLOW_MODESET,
        user_data: 0,
        assigns,
    }
}

/// One of the two requests: what it sets of the objects of a first kind, then of the connectors, and then of those of a last
/// kind.
fn request_of(
    alloc: Global,
    core: &Core,
    way: Way,
    first: Kind,
    last: Kind,
) -> Result<Request, NoMemory>
    ensures { IfOk result (λ r. r ≡ modeset (
        part way core.now.script.topology (world core.now) first
        ++ (part way core.now.script.topology (world core.now) kinds.Conn
        ++ part way core.now.script.topology (world core.now) last))) }
{
    let states = core.states();
    let mut assigns = Seq::new(alloc);
    push_part(core, &states, way, first, &mut assigns)?;
    push_part(core, &states, way, Kind::Conn, &mut assigns)?;
    push_part(core, &states, way, last, &mut assigns)?;
    Ok(modeset(assigns))
}

/// The request that turns a device off: `FB_ID=0` and `CRTC_ID=0` of each plane on a CRTC, `CRTC_ID=0` of each connector on
/// one, and `ACTIVE=0` and `MODE_ID=0` of each CRTC with a mode, each group by index. It may take a modeset, and has user
/// data 0. Sizes, alpha, zpos and tables of colour values stay. The only error is want of memory. (Kernel:
/// `drm_atomic_helper_suspend`.)
pub fn suspend(alloc: Global, core: &Core) -> Result<Request, NoMemory>
    requires drained { is_drained core.now.script (machine core.now) ≡ true }
    ensures { IfOk result (λ r.
        r ≡ off_request core.now.script.topology (world core.now)) }
{
    request_of(alloc, core, Way::Off, Kind::Plane, Kind::Crtc)
}

/// The request that brings a device back as it is, once `suspend`'s request has turned it off: `MODE_ID` and `ACTIVE` of each
/// CRTC with a mode, `CRTC_ID` of each connector on a CRTC, and `FB_ID` and `CRTC_ID` of each plane on one, each group by
/// index, with the same flags and user data. A framebuffer is named by its label, a mode by that of the open blob of least id
/// that decodes to it. Where one cannot be named, the object of least id is told; that is found without memory, so
/// want of memory is told only where all can be named. (Kernel: `drm_atomic_helper_resume`.)
pub fn resume(alloc: Global, core: &Core) -> Result<Request, ResumeError>
    requires drained { is_drained core.now.script (machine core.now) ≡ true }
    ensures back { IfOk result (λ r.
        r ≡ on_request core.now.script.topology (world core.now)) }
    ensures open { OnOk result
        (closed_object core.now.script.topology (world core.now) ≡ None) }
    ensures refused { IfErr result
        (IsRefused core.now.script.topology (world core.now)) }
{
    if let Some(object) = closed_object(core, &core.states()) {
        return Err(ResumeError::Closed { object });
    }
    Ok(request_of(alloc, core, Way::Back, Kind::Crtc, Kind::Plane)?)
}
