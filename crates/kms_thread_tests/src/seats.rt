//! What is seen from a seat that makes no steps.
ghost use Rattle.std.specs.Prelude.{◌≡◌};
ghost use Rattle.kms_histlock.specs.Passes.{IsSamePass};

use crate::opening::{assert_again, assert_calls, close_device, open_device};
use crate::pass_calls::{Call, Told};
use crate::texts::{LIGHTING, MAKING};
use kms_core::Core;
use kms_device::{Device, Pass};
use kms_model::{Kind, Reply, Step};
use kms_samples::{CRTC, PLANE};
use std::process::Abort;
use std::sync::Wait;

/// The calls by which the client lights the CRTC, all through the first pass.
fn lighting() -> [(u32, Call, Told); 13] {
    let made = |id| Told::Replied(Reply::Made { id });
    let committed = Told::Replied(Reply::Commit { commit: 0 });
    [
        (1, Call::Make, made(1000)),
        (1, Call::Make, made(1001)),
        (1, Call::Make, made(1002)),
        (1, Call::Commit, committed),
        (1, Call::Claim, Told::Claimed(0)),
        (1, Call::Write(0, CRTC), Told::Did),
        (1, Call::Write(0, PLANE), Told::Did),
        (1, Call::Flush(0, 0), Told::Did),
        (1, Call::HwDone(0), Told::Did),
        (1, Call::Cleanup(0), Told::Nothing),
        (1, Call::Vblank(0), Told::Did),
        (1, Call::Cleanup(0), Told::Did),
        (1, Call::Return, Told::Did),
    ]
}

/// The steps that they make.
fn lit() -> [Step; 16] {
    let lock = |kind| Step::Lock {
        client: 1,
        kind,
        index: 0,
    };
    let write = |kind| Step::Write {
        commit: 0,
        kind,
        index: 0,
    };
    let (kind, index) = (Kind::Crtc, 0);
    [
        Step::Make { client: 1 },
        Step::Make { client: 1 },
        Step::Make { client: 1 },
        Step::Begin { client: 1 },
        lock(Kind::Crtc),
        lock(Kind::Plane),
        lock(Kind::Conn),
        Step::Swap { client: 1 },
        Step::Claim { commit: 0 },
        write(Kind::Crtc),
        write(Kind::Plane),
        Step::Flush {
            commit: 0,
            kind,
            index,
        },
        Step::HwDone { commit: 0 },
        Step::Vblank { kind, index },
        Step::Cleanup { commit: 0 },
        Step::Return { client: 1 },
    ]
}

/// The calls of a worker and of a vblank player that find nothing to do.
fn idling() -> [(u32, Call, Told); 7] {
    [
        (2, Call::Claim, Told::Nothing),
        (2, Call::Write(0, CRTC), Told::Nothing),
        (2, Call::Flush(0, 0), Told::Nothing),
        (2, Call::HwDone(0), Told::Nothing),
        (2, Call::Cleanup(0), Told::Nothing),
        (2, Call::Vblank(0), Told::Nothing),
        (2, Call::Vblank(9), Told::Nothing),
    ]
}

/// How many vblanks the first CRTC had, and how long the history is, as a pass reads them.
fn read(device: &Device, pass: &mut Pass) -> (u64, u64)
    requires own { pass.old.lock ≡ device.now.lock }
    ensures same { IsSamePass pass.old pass.new }
{
    let count = device.vblank_count(pass, 0);
    (count, device.history_len(pass))
}

/// Asserts that a machine has lit the CRTC by these steps alone.
fn assert_lit(rt: &(impl Abort + AllocGlobal), core: &Core) {
    assert!(rt; core.history() == lit().as_slice());
    assert!(rt; core.drained() && core.replies().len() == 4);
    assert_again(rt, core);
}

/// A seat that was not used reads how far another brought the device.
#[test]
fn another_seat_reads_the_count_and_the_length(rt: HostRuntime) {
    let (device, mut one, mut other) = open_device(&rt, LIGHTING);
    assert_calls(&rt, &device, &mut one, &mut other, &lighting());
    assert!(rt; read(&device, &mut other) == (1, 16));
    let core = close_device(&rt, device, one, other);
    assert_lit(&rt, &core);
}

/// Before the first commit workers find nothing to do, nor does a CRTC go.
#[test]
fn workers_find_nothing_before_the_first_commit(rt: HostRuntime) {
    let (device, mut one, mut other) = open_device(&rt, MAKING);
    assert_calls(&rt, &device, &mut one, &mut other, &idling());
    assert!(rt; read(&device, &mut other) == (0, 0));
    let core = close_device(&rt, device, one, other);
    assert!(rt; core.history().is_empty());
}
