//! Two clients, each in a thread of its own.
ghost use Rattle.std.specs.Prelude.{◌≡◌};
ghost use Rattle.kms_histlock.specs.Passes.{IsSamePass};

use crate::opening::{assert_again, close_device, open_device};
use crate::pass_calls::{Call, Told, make_call};
use crate::texts::{MAKING, TURNING_OFF};
use kms_core::Core;
use kms_device::{Device, Pass};
use kms_model::{NoMemory, Reply};
use std::alloc::Global;
use std::process::Abort;
use std::sync::Wait;
use std::thread::{Threads, join};

/// What a thread gives back: its pass, and what its call was answered.
type Called = (Pass, Result<Told, NoMemory>);

/// Makes a call, and gives the pass back.
fn call<W: Wait>(rt: &W, alloc: Global, device: &Device, mut pass: Pass, what: Call) -> Called
    requires own { pass.lock ≡ device.now.lock }
    ensures same { IsSamePass pass result.0 }
{
    let told = make_call(rt, alloc, device, &mut pass, what);
    (pass, told)
}

/// Makes the same call through two passes, each in a thread of its own.
fn both<R: Threads + Wait + Sync>(
    rt: &R,
    alloc: Global,
    device: &Device,
    one: Pass,
    other: Pass,
    what: Call,
) -> (Called, Called)
    requires own { (one.lock ≡ device.now.lock) × (other.lock ≡ device.now.lock) }
    ensures same { IsSamePass one result.0.0 × IsSamePass other result.1.0 }
{
    join(
        rt,
        || call(rt, alloc, device, one, what),
        || call(rt, alloc, device, other, what),
    )
}

/// Whether two calls were told these, in either order.
fn are_told(calls: (Result<Told, NoMemory>, Result<Told, NoMemory>), a: Told, b: Told) -> bool {
    match calls {
        (Ok(x), Ok(y)) => (x == a && y == b) || (x == b && y == a),
        _ => false,
    }
}

/// Asserts that a machine has so many steps and commands in its journal.
fn assert_went(rt: &(impl Abort + AllocGlobal), core: &Core, steps: usize, commands: usize) {
    assert!(rt; core.history().len() == steps && core.journal().len() == commands);
    assert_again(rt, core);
}

#[test]
fn two_clients_in_two_threads_make_a_thing_each(rt: HostRuntime) {
    let (device, one, other) = open_device(&rt, MAKING);
    let ((one, first), (other, second)) = both(&rt, rt.alloc(), &device, one, other, Call::Make);
    let made = |id| Told::Replied(Reply::Made { id });
    assert!(rt; are_told((first, second), made(1000), made(1001)));
    let core = close_device(&rt, device, one, other);
    assert_went(&rt, &core, 2, 2);
}

#[test]
fn two_clients_in_two_threads_commit(rt: HostRuntime) {
    let (device, one, other) = open_device(&rt, TURNING_OFF);
    let ((one, first), (other, second)) = both(&rt, rt.alloc(), &device, one, other, Call::Commit);
    let committed = |commit| Told::Replied(Reply::Commit { commit });
    assert!(rt; are_told((first, second), committed(0), committed(1)));
    let core = close_device(&rt, device, one, other);
    assert_went(&rt, &core, 6, 2);
}
