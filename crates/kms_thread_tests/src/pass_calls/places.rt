//! Where the client of a pass stands.
ghost use Rattle.std.specs.Prelude.{◌≡◌, ◌≤◌, length, Some, IfSome};
ghost use Rattle.kms_histlock.specs.Passes.{IsSamePass};
ghost use Rattle.kms_model.specs.Machine.State.{doing_at, request_at};
ghost use Rattle.kms_core.specs.Run.{machine};
ghost use Rattle.kms_device.specs.Attempts.{no_findings};
ghost use Rattle.kms_device.specs.Trying.{IsReady};
ghost use Rattle.kms_device.specs.Turns.{run_seen};

use kms_device::{Device, Pass};
use kms_model::{Doing, Request, request_of};
use std::sync::Wait;

/// The client of a pass, which is the rank of the pass, where the script has such a client.
pub(crate) fn client_of(device: &Device, pass: &Pass) -> Option<u32>
    ensures whose { IfSome result (λ client. client ≡ pass.now.rank) }
    ensures low { IfSome result (λ client. 1 ≤ client) }
    ensures high { IfSome result (λ client. client ≤ length device.now.script.clients) }
{
    let client = pass.rank();
    if client == 0 || client as usize > device.script().clients.len() {
        return None;
    }
    Some(client)
}

/// What the client of a pass does that stands at a request and does not wait for a commit of its own, with the request.
pub(crate) fn at_request<'a, W: Wait>(
    rt: &W,
    device: &'a Device,
    pass: &mut Pass,
) -> Option<(Doing, &'a Request)>
    requires own { pass.old.lock ≡ device.now.lock }
    ensures same { IsSamePass pass.old pass.new }
    ensures ready { IfSome result (λ at. IsReady device.now.script pass.new no_findings) }
    ensures doing { IfSome result (λ at.
        doing_at (machine (run_seen device.now.script pass.new)) pass.new.rank ≡ at.0) }
    ensures request { IfSome result (λ at.
        request_at device.now.script (machine (run_seen device.now.script pass.new)) pass.new.rank
        ≡ Some at.1.now) }
{
    let client = client_of(device, pass)?;
    let place = device.place(rt, pass, client);
    if let Doing::Returning(_commit) = place.doing {
        return None;
    }
    let request = request_of(device.script(), client, place.command)?;
    Some((place.doing, request))
}
