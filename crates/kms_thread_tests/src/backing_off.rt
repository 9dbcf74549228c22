//! Contexts that meet, through two passes.
use crate::opening::{assert_again, assert_calls, close_device, open_device};
use crate::pass_calls::{Call, Told};
use crate::texts::TESTING;
use kms_core::Core;
use kms_model::{Answered, Kind, Reply, Step, Ticket};
use kms_samples::{CRTC, PLANE};
use std::process::Abort;

/// Two clients that take the same objects in opposite orders, with what each is told. The second is the younger.
fn meeting() -> [(u32, Call, Told); 20] {
    let tested = Told::Replied(Reply::Tested);
    [
        (1, Call::Begin, Told::Began(Ticket(0))),
        (2, Call::Begin, Told::Began(Ticket(1))),
        (2, Call::Begin, Told::Nothing),
        (1, Call::Lock(PLANE), Told::Got),
        (2, Call::Lock(CRTC), Told::Got),
        (1, Call::Lock(CRTC), Told::Younger(Ticket(1))),
        (2, Call::BackOff, Told::Nothing),
        (2, Call::Lock(PLANE), Told::Older(Ticket(0))),
        (2, Call::Lock(PLANE), Told::Nothing),
        (1, Call::Lock(CRTC), Told::Younger(Ticket(1))),
        (2, Call::Relock, Told::Nothing),
        (2, Call::BackOff, Told::Did),
        (2, Call::Relock, Told::Held(Ticket(0))),
        (1, Call::Lock(CRTC), Told::Got),
        (1, Call::Commit, tested),
        (2, Call::Relock, Told::Got),
        (2, Call::Lock(CRTC), Told::Got),
        (2, Call::Lock(PLANE), Told::Own),
        (2, Call::Commit, tested),
        (2, Call::Begin, Told::Nothing),
    ]
}

/// The steps that they make.
fn met() -> [Step; 11] {
    let lock = |client, kind| Step::Lock {
        client,
        kind,
        index: 0,
    };
    [
        Step::Begin { client: 1 },
        Step::Begin { client: 2 },
        lock(1, Kind::Plane),
        lock(2, Kind::Crtc),
        lock(2, Kind::Plane),
        Step::BackOff { client: 2 },
        lock(1, Kind::Crtc),
        Step::Test { client: 1 },
        Step::Relock { client: 2 },
        lock(2, Kind::Crtc),
        Step::Test { client: 2 },
    ]
}

/// Asserts that a machine has these steps alone, and a reply to each client.
fn assert_met(rt: &(impl Abort + AllocGlobal), core: &Core) {
    let tested = |client| Answered {
        client,
        command: 1,
        place: 0,
        reply: Reply::Tested,
    };
    assert!(rt; core.history() == met().as_slice());
    assert!(rt; core.replies() == [tested(1), tested(2)].as_slice());
    assert!(rt; core.drained() && core.journal().is_empty());
    assert_again(rt, core);
}

/// Of two contexts that take the same objects in opposite orders, the younger backs off and the older waits.
#[test]
fn the_younger_context_backs_off(rt: HostRuntime) {
    let (device, mut one, mut other) = open_device(&rt, TESTING);
    assert_calls(&rt, &device, &mut one, &mut other, &meeting());
    let core = close_device(&rt, device, one, other);
    assert_met(&rt, &core);
}
