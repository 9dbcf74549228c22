//! Calls of the client of a pass, which are made where it stands at them.
ghost use Rattle.std.specs.Prelude.{◌≡◌, true, IfSome};
ghost use Rattle.kms_histlock.specs.Passes.{IsSamePass};
ghost use Rattle.kms_core.specs.Calls.{MayMake, MayReturn};
ghost use Rattle.kms_device.specs.Turns.{run_seen};

use crate::pass_calls::places::{at_request, client_of};
use kms_device::{Device, Pass};
use kms_io::NoGate;
use kms_model::{Command, Doing, NoMemory, Reply, command_of};
use std::alloc::Global;
use std::sync::Wait;

/// Commits the request at which the client of a pass stands, as the device's `commit` does. None, where it stands at none or
/// waits for its last commit.
pub fn commit<W: Wait>(
    rt: &W,
    alloc: Global,
    device: &Device,
    pass: &mut Pass,
) -> Result<Option<Reply>, NoMemory>
    requires own { pass.old.lock ≡ device.now.lock }
    ensures same { IsSamePass pass.old pass.new }
{
    if at_request(rt, device, pass).is_none() {
        return Ok(None);
    }
    let client = pass.rank();
    let reply = device.commit(rt, alloc, pass, client, &NoGate)?;
    Ok(Some(reply))
}

/// Executes the command at which the client of a pass is idle, as the device's `make` does. None, where it is idle at none that
/// makes or closes a thing.
pub fn make<W: Wait>(
    rt: &W,
    alloc: Global,
    device: &Device,
    pass: &mut Pass,
) -> Result<Option<Reply>, NoMemory>
    requires own { pass.old.lock ≡ device.now.lock }
    ensures same { IsSamePass pass.old pass.new }
{
    let Some(client) = at_making(rt, device, pass) else {
        return Ok(None);
    };
    let reply = device.make(rt, alloc, pass, client)?;
    Ok(Some(reply))
}

/// Lets the client of a pass go on whose commit is cleaned up, as the device's `return_from` does. False, where it waits for
/// none, or that is not cleaned up yet.
pub fn return_from<W: Wait>(rt: &W, device: &Device, pass: &mut Pass) -> Result<bool, NoMemory>
    requires own { pass.old.lock ≡ device.now.lock }
    ensures same { IsSamePass pass.old pass.new }
{
    let Some(client) = at_return(rt, device, pass) else {
        return Ok(false);
    };
    device.return_from(rt, pass, client)
}

/// The client of a pass, where it is idle at a command that makes or closes a thing.
fn at_making<W: Wait>(rt: &W, device: &Device, pass: &mut Pass) -> Option<u32>
    requires own { pass.old.lock ≡ device.now.lock }
    ensures same { IsSamePass pass.old pass.new }
    ensures whose { IfSome result (λ client. pass.new.rank ≡ client) }
    ensures may { IfSome result (MayMake (run_seen device.now.script pass.new)) }
{
    let client = client_of(device, pass)?;
    let place = device.place(rt, pass, client);
    let Doing::Idle = place.doing else {
        return None;
    };
    match command_of(device.script(), client, place.command)? {
        Command::Atomic(_) | Command::Signal { .. } | Command::Wait => None,
        _ => Some(client),
    }
}

/// The client of a pass, where it waits for its commit.
fn at_return<W: Wait>(rt: &W, device: &Device, pass: &mut Pass) -> Option<u32>
    requires own { pass.old.lock ≡ device.now.lock }
    ensures same { IsSamePass pass.old pass.new }
    ensures whose { IfSome result (λ client. pass.new.rank ≡ client) }
    ensures may { IfSome result (MayReturn (run_seen device.now.script pass.new)) }
{
    let client = client_of(device, pass)?;
    let place = device.place(rt, pass, client);
    let Doing::Returning(_commit) = place.doing else {
        return None;
    };
    Some(client)
}
