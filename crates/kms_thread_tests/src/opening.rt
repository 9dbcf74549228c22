//! Devices of two passes, and what is left of them.
ghost use Rattle.std.specs.Prelude.{◌≡◌};
ghost use Rattle.kms_histlock.specs.Passes.{IsSamePass, new_pass};

use crate::pass_calls::{Call, Told, make_call};
use kms_core::Core;
use kms_course::{do_again, start_anew, tells_same};
use kms_device::{Device, Pass};
use kms_model::{NoMemory, Part, Seq};
use kms_script::parse;
use std::process::Abort;
use std::sync::Wait;

/// The device of the script of two clients at most that a text spells, and its two passes.
pub(crate) fn open_device(rt: &(impl Abort + AllocGlobal), text: &str) -> (Device, Pass, Pass)
    ensures seats { result.0.seats ≡ 2 }
    ensures one { result.1 ≡ new_pass result.0.lock 1 }
    ensures other { result.2 ≡ new_pass result.0.lock 2 }
{
    let Ok(parsed) = parse(rt.alloc(), text.as_bytes(), Part::Script) else {
        panic!(rt; "it is a script")
    };
    assert!(rt;
        parsed.script.clients.len() <= 2,
        "there are passes for two clients"
    );
    let Ok((device, passes)) = Device::new(rt.alloc(), parsed.script, 2) else {
        panic!(rt; "there is memory")
    };
    let mut passes = passes.into_vec();
    let (Some(other), Some(one)) = (passes.pop(), passes.pop()) else {
        panic!(rt; "there are two passes")
    };
    (device, one, other)
}

/// Ends a device, and gives its machine.
pub(crate) fn close_device(
    rt: &(impl Abort + AllocGlobal),
    device: Device,
    one: Pass,
    other: Pass,
) -> Core
    requires own { (one.lock ≡ device.lock) × (other.lock ≡ device.lock) }
    requires seats { device.seats ≡ 2 }
    requires first { one.rank ≡ 1 }
{
    let Ok(passes) = Vec::from_array(rt.alloc(), [one, other]) else {
        panic!(rt; "there is memory")
    };
    device.close(Seq::from_vec(passes))
}

/// Asserts that a history can be done again on a new machine, which tells the same then, and not before.
pub(crate) fn assert_again(rt: &(impl Abort + AllocGlobal), core: &Core) {
    assert_differs(rt, core);
    let Ok(new) = do_again(rt.alloc(), core) else {
        panic!(rt; "each step is legal")
    };
    assert!(rt; tells_same(core, &new));
}

/// Asserts that a new machine of the same script, on which nothing was done, does not tell the same.
fn assert_differs(rt: &(impl Abort + AllocGlobal), core: &Core) {
    let Ok(new) = start_anew(rt.alloc(), core) else {
        panic!(rt; "there is memory")
    };
    assert!(rt; !tells_same(core, &new));
}

/// Makes a call through one of two passes: the first, or any other number for the other.
fn call_at(
    rt: &(impl AllocGlobal + Wait),
    device: &Device,
    one: &mut Pass,
    other: &mut Pass,
    seat: u32,
    what: Call,
) -> Result<Told, NoMemory>
    requires one { one.old.lock ≡ device.now.lock }
    requires other { other.old.lock ≡ device.now.lock }
    ensures one { IsSamePass one.old one.new }
    ensures other { IsSamePass other.old other.new }
{
    if seat == 1 {
        make_call(rt, rt.alloc(), device, one, what)
    } else {
        make_call(rt, rt.alloc(), device, other, what)
    }
}

/// Makes calls, each through the pass of a seat, and asserts that each is answered as it says.
pub(crate) fn assert_calls(
    rt: &(impl Abort + AllocGlobal + Wait),
    device: &Device,
    one: &mut Pass,
    other: &mut Pass,
    calls: &[(u32, Call, Told)],
)
    requires one { one.old.lock ≡ device.now.lock }
    requires other { other.old.lock ≡ device.now.lock }
    ensures one { IsSamePass one.old one.new }
    ensures other { IsSamePass other.old other.new }
{
    let mut number = 0u32;
    for (seat, what, want) in calls {
        number = number.saturating_add(1);
        let told = call_at(rt, device, one, other, *seat, *what);
        assert!(rt; told == Ok(*want), "call {number}, at {seat}");
    }
}
