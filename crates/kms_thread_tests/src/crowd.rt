//! Eight clients in four threads.
ghost use Rattle.std.specs.Prelude.{◌≡◌};
ghost use Rattle.kms_model.specs.Script.WellFormed.{IsWellFormed};
ghost use Rattle.kms_thread_tests.specs.Pairs.{AreOf, AreSame};

use crate::pass_calls::{Two, commit_and_finish, prepare};
use crate::scripts::{CLIENTS, COMMITS, script};
use kms_core::Core;
use kms_course::{do_again, tells_same};
use kms_device::Device;
use kms_model::{Part, Reply, Script, Seq};
use kms_script::parse;
use std::alloc::Global;
use std::process::Abort;
use std::sync::Wait;
use std::test::Fail;
use std::thread::{Threads, join};

/// The script that a text spells.
fn parse_script(rt: &(impl Abort + AllocGlobal), text: &str) -> Script
    ensures { IsWellFormed result }
{
    let Ok(parsed) = parse(rt.alloc(), text.as_bytes(), Part::Script) else {
        panic!(rt; "it is a script")
    };
    parsed.script
}

/// The passes of two threads.
type Four = (Two, Two);

/// The device, with the passes of four threads.
fn open_device(rt: &(impl Abort + AllocGlobal), text: &str) -> (Device, Four, Four)
    ensures seats { result.0.seats ≡ 8 }
    ensures first { result.1.0.one.rank ≡ 1 }
    ensures a { AreOf result.0 result.1.0 }
    ensures b { AreOf result.0 result.1.1 }
    ensures c { AreOf result.0 result.2.0 }
    ensures d { AreOf result.0 result.2.1 }
{
    let script = parse_script(rt, text);
    assert!(rt; script.clients.len() == CLIENTS as usize);
    let Ok((device, passes)) = Device::new(rt.alloc(), script, CLIENTS) else {
        panic!(rt; "there is memory")
    };
    let mut passes = passes.into_vec();
    let (Some(d_other), Some(d_one)) = (passes.pop(), passes.pop()) else {
        panic!(rt; "there are more passes")
    };
    let (Some(c_other), Some(c_one)) = (passes.pop(), passes.pop()) else {
        panic!(rt; "there are more passes")
    };
    let (Some(b_other), Some(b_one)) = (passes.pop(), passes.pop()) else {
        panic!(rt; "there are more passes")
    };
    let (Some(a_other), Some(a_one)) = (passes.pop(), passes.pop()) else {
        panic!(rt; "there are more passes")
    };
    let front = (Two::new(a_one, a_other), Two::new(b_one, b_other));
    let back = (Two::new(c_one, c_other), Two::new(d_one, d_other));
    (device, front, back)
}

/// Two threads drive.
fn drive_two<R: Threads + Wait + Sync>(
    rt: &R,
    alloc: Global,
    device: &Device,
    a: Two,
    b: Two,
) -> Four
    requires a { AreOf device.now a }
    requires b { AreOf device.now b }
    ensures a { AreSame a result.0 }
    ensures b { AreSame b result.1 }
{
    join(
        rt,
        || a.commit(rt, alloc, device, COMMITS),
        || b.commit(rt, alloc, device, COMMITS),
    )
}

/// Four threads drive.
fn drive<R: AllocGlobal + Threads + Wait + Sync>(
    rt: &R,
    device: &Device,
    a: Two,
    b: Two,
    c: Two,
    d: Two,
) -> (Four, Four)
    requires a { AreOf device.now a }
    requires b { AreOf device.now b }
    requires c { AreOf device.now c }
    requires d { AreOf device.now d }
    ensures a { AreSame a result.0.0 }
    ensures b { AreSame b result.0.1 }
    ensures c { AreSame c result.1.0 }
    ensures d { AreSame d result.1.1 }
{
    let alloc = rt.alloc();
    join(
        rt,
        || -> Four
            requires { AreOf device.now a × AreOf device.now b }
            ensures { AreSame a result.0 × AreSame b result.1 }
        { drive_two(rt, alloc, device, a, b) },
        || -> Four
            requires { AreOf device.now c × AreOf device.now d }
            ensures { AreSame c result.0 × AreSame d result.1 }
        { drive_two(rt, alloc, device, c, d) },
    )
}

/// Ends the device, and gives its machine.
fn close_device(
    rt: &(impl Abort + AllocGlobal),
    device: Device,
    a: Two,
    b: Two,
    c: Two,
    d: Two,
) -> Core
    requires seats { device.seats ≡ 8 }
    requires first { a.one.rank ≡ 1 }
    requires a { AreOf device a }
    requires b { AreOf device b }
    requires c { AreOf device c }
    requires d { AreOf device d }
{
    let passes = [
        a.one, a.other, b.one, b.other, c.one, c.other, d.one, d.other,
    ];
    let Ok(passes) = Vec::from_array(rt.alloc(), passes) else {
        panic!(rt; "there is memory")
    };
    device.close(Seq::from_vec(passes))
}

/// The first client makes its things and lights everything.
fn light(rt: &(impl Abort + AllocGlobal + Wait), device: &Device, two: &mut Two)
    requires own { AreOf device.now two.old }
    ensures same { AreSame two.old two.new }
{
    let prepared = prepare(rt, rt.alloc(), device, &mut two.one, 10);
    let over = commit_and_finish(rt, rt.alloc(), device, &mut two.one);
    assert!(rt; prepared.is_ok() && over == Ok(true));
}

/// How many commits a client made, as the replies tell.
fn commits_of(core: &Core, client: u32) -> usize {
    core.replies()
        .iter()
        .filter(|a| a.client == client && matches!(a.reply, Reply::Commit { .. }))
        .count()
}

/// Asserts that each client made all its commits, and that the history can be done again on a new machine, which tells the
/// same then.
fn assert_all(rt: &(impl Abort + AllocGlobal), core: &Core) {
    assert!(rt; core.drained());
    for client in 1..CLIENTS + 1 {
        assert!(rt; commits_of(core, client) == COMMITS as usize);
    }
    let Ok(new) = do_again(rt.alloc(), core) else {
        panic!(rt; "each step is legal")
    };
    assert!(rt; tells_same(core, &new));
}

/// Eight clients in four threads make their commits over one device. No client's commit waits for one that nobody
/// works on, so all come to their end.
#[test]
fn eight_clients_in_four_threads_commit(rt: HostRuntime) -> Result<(), Fail> {
    let text = script(rt.alloc())?;
    let (device, (mut a, b), (c, d)) = open_device(&rt, text.as_str());
    light(&rt, &device, &mut a);
    let ((a, b), (c, d)) = drive(&rt, &device, a, b, c, d);
    let core = close_device(&rt, device, a, b, c, d);
    assert_all(&rt, &core);
    Ok(())
}
