//! Two machines that are told apart by what a label names, and a request whose look-ups grew old.
use crate::following::{follow_all, holds};
use kms_core::{Core, Decided};
use kms_course::{call_step, context_with, decide, looks_same, start_machine, tells_same};
use kms_model::{Command, Look, Lookups, NoMemory, Step};
use kms_samples::{CONN, CRTC, PLANE, script};
use std::alloc::Global;
use std::test::Fail;

/// A client shows the framebuffer of another, which closes it.
pub(crate) const CLOSING: &str = script!(
    single "client\n" tiny("m") lights "client\n" pixel("b", "f", "00616263") "closefb f\n"
);

/// What the labels of the request name at which a client is idle.
fn look_up(core: &Core, alloc: Global, client: u32) -> Result<Lookups, Fail> {
    let Some(Command::Atomic(request)) = core.idle_command(client) else {
        return Err(Fail::new("the client is at a request"));
    };
    Ok(core.lookups(alloc, request)?)
}

/// Decides the request of the first client with what its labels named.
fn decide_with(
    core: &mut Core,
    alloc: Global,
    used: &Lookups,
) -> Result<Option<Decided>, NoMemory> {
    match context_with(core, alloc, 1, &[CRTC, PLANE, CONN])? {
        Some(context) => decide(core, alloc, &context, used),
        None => Ok(None),
    }
}

/// Whether a decision is to be made again, since a label named the second thing and names one that is closed.
fn is_closed(decided: Option<Decided>) -> bool {
    match decided {
        Some(
            Decided::Again {
                label: 1,
                was: Look::Fb(framebuffer),
                now: Look::Closed,
            },
        ) => framebuffer.id == 1001,
        _ => false,
    }
}

/// Another client closes its framebuffer, and the request is not decided with what its labels named before.
fn close_and_decide(core: &mut Core, alloc: Global, used: &Lookups) -> Result<(), Fail> {
    let closes = call_step(core, alloc, &Step::Make { client: 2 })?;
    holds(closes, "the framebuffer is closed")?;
    let again = decide_with(core, alloc, used)?;
    holds(is_closed(again), "the framebuffer was closed")
}

/// The client looks its labels up before that. It may not be committed then, and is refused.
fn decide_late(core: &mut Core, alloc: Global) -> Result<(), Fail> {
    follow_all(core, alloc, "T make 2\nT make 2\nT make 1")?;
    let used = look_up(core, alloc, 1)?;
    follow_all(
        core,
        alloc,
        "T begin 1\nT lock 1 crtc0\nT lock 1 plane0\nT lock 1 conn0",
    )?;
    close_and_decide(core, alloc, &used)?;
    follow_all(
        core,
        alloc,
        "count T 8\nno T swap 1: it is closed\nT refuse 1\nD drained",
    )
}

/// A label that names something else than it did is told, and nothing is decided.
#[test]
fn look_ups_that_grew_old_are_told(rt: HostRuntime) -> Result<(), Fail> {
    let mut core = start_machine(rt.alloc(), CLOSING)?;
    decide_late(&mut core, rt.alloc())
}

/// Two machines that did the same are told apart once a framebuffer is made on one of them.
fn tell_apart(one: &mut Core, other: &Core, alloc: Global) -> Result<(), Fail> {
    let same = tells_same(one, other) && looks_same(one, other, alloc)?;
    holds(same, "both tell the same")?;
    follow_all(one, alloc, "T make 2\nT make 2")?;
    let differ = !tells_same(one, other) && !looks_same(one, other, alloc)?;
    holds(differ, "a label names a framebuffer")
}

/// The same for one of them beside a new machine.
fn tell_from_new(one: &mut Core, alloc: Global) -> Result<(), Fail> {
    let other = start_machine(alloc, CLOSING)?;
    tell_apart(one, &other, alloc)
}

#[test]
fn machines_are_told_apart(rt: HostRuntime) -> Result<(), Fail> {
    let mut one = start_machine(rt.alloc(), CLOSING)?;
    tell_from_new(&mut one, rt.alloc())
}
