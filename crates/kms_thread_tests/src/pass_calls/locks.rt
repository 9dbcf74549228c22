//! Calls of the client of a pass on its context and its locks, which are made where it stands at them.
ghost use Rattle.std.specs.Prelude.{◌≡◌, ◌==◌, true, IfOk, IsTrue};
ghost use Rattle.kms_histlock.specs.Passes.{IsSamePass};
ghost use Rattle.kms_model.specs.Device.Properties.{keeps_limits};
ghost use Rattle.kms_model.specs.Request.Apply.{object_of};
ghost use Rattle.kms_model.specs.Request.Sets.{look_in};
ghost use Rattle.kms_model.specs.Request.Touched.{sets};
ghost use Rattle.kms_thread_tests.specs.Resolving.{Resolves};

use crate::pass_calls::places::at_request;
use kms_core::{Locked, has_lock};
use kms_device::{Device, Pass};
use kms_model::{Assign, Doing, Lookups, NoMemory, ObjId, Request, Ticket, Topology};
use kms_request::{RequestError, resolve};
use std::alloc::Global;
use std::sync::Wait;

/// Begins a context for the client of a pass, as the device's `begin` does. None, where it is idle at no request.
pub fn begin<W: Wait>(
    rt: &W,
    alloc: Global,
    device: &Device,
    pass: &mut Pass,
) -> Result<Option<Ticket>, NoMemory>
    requires own { pass.old.lock ≡ device.now.lock }
    ensures same { IsSamePass pass.old pass.new }
{
    let Some((Doing::Idle, _request)) = at_request(rt, device, pass) else {
        return Ok(None);
    };
    let client = pass.rank();
    let ticket = device.begin(rt, alloc, pass, client)?;
    Ok(Some(ticket))
}

/// Asks for an object, as the device's `lock` does. None, where the client of the pass takes no locks, or the object has no lock,
/// or the request does not set it, or is refused by itself.
pub fn lock<W: Wait>(
    rt: &W,
    alloc: Global,
    device: &Device,
    pass: &mut Pass,
    id: ObjId,
) -> Result<Option<Locked>, NoMemory>
    requires own { pass.old.lock ≡ device.now.lock }
    ensures same { IsSamePass pass.old pass.new }
{
    let Some((Doing::Taking(t), request)) = at_request(rt, device, pass) else {
        return Ok(None);
    };
    let topology = &device.script().topology;
    if !has_lock(topology, id) || !sets(request, id) {
        return Ok(None);
    }
    let looks = device.lookups(rt, alloc, pass, request)?;
    if !resolves(alloc, topology, request, &looks)? {
        return Ok(None);
    }
    let answer = device.lock(rt, pass, t, id)?;
    Ok(Some(answer))
}

/// Drops the locks of the client of a pass, as the device's `backoff` does. False, where its context need not back off.
pub fn back_off<W: Wait>(rt: &W, device: &Device, pass: &mut Pass) -> Result<bool, NoMemory>
    requires own { pass.old.lock ≡ device.now.lock }
    ensures same { IsSamePass pass.old pass.new }
{
    let Some((Doing::MustBackOff(t, _object), _request)) = at_request(rt, device, pass) else {
        return Ok(false);
    };
    device.backoff(rt, pass, t)?;
    Ok(true)
}

/// Asks again for the object that the client of a pass backed off for, as the device's `relock` does. None, where it did not
/// back off.
pub fn relock<W: Wait>(rt: &W, device: &Device, pass: &mut Pass) -> Result<Option<Locked>, NoMemory>
    requires own { pass.old.lock ≡ device.now.lock }
    ensures same { IsSamePass pass.old pass.new }
{
    let Some((Doing::BackedOff(t, _object), _request)) = at_request(rt, device, pass) else {
        return Ok(None);
    };
    let answer = device.relock(rt, pass, t)?;
    Ok(Some(answer))
}

/// Whether a request is not refused by itself, with what its labels named.
fn resolves(
    alloc: Global,
    topology: &Topology,
    request: &Request,
    looks: &Lookups,
) -> Result<bool, NoMemory>
    requires { IsTrue (keeps_limits topology.now) }
    ensures { IfOk result (λ fine. fine ≡ true
        → Resolves topology.now (look_in looks.now) request.now) }
{
    match resolve(alloc, topology, request, looks) {
        Ok(_resolved) => Ok(true),
        Err(RequestError::Of(_why)) => Ok(false),
        Err(RequestError::NoMemory) => Err(NoMemory),
    }
}

/// Whether a request sets an object.
fn sets(request: &Request, id: ObjId) -> bool
    ensures { result ≡ sets request.now.assigns id.0 }
{
    request
        .assigns
        .as_slice()
        .iter()
        .any(|assign| is_of(assign, id))
}

/// Whether an assignment is one to an object.
fn is_of(assign: &Assign, id: ObjId) -> bool
    ensures { result ≡ (object_of assign.now == id.0) }
{
    assign.kind.first_id().checked_add(assign.index) == Some(id.0)
}
