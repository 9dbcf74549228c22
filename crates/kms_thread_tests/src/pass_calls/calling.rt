//! The calls of a device as values, so that tests are tables of them.
ghost use Rattle.std.specs.Prelude.{◌≡◌};
ghost use Rattle.kms_histlock.specs.Passes.{IsSamePass};
ghost use Rattle.kms_thread_tests.specs.Told.{told_of_lock};

use crate::pass_calls::calls::{commit, make, return_from};
use crate::pass_calls::locks::{back_off, begin, lock, relock};
use kms_core::Locked;
use kms_device::{Device, Pass};
use kms_model::{NoMemory, ObjId, Reply, Ticket};
use std::alloc::Global;
use std::sync::Wait;

/// A call of a device through a pass.
#[derive(Clone, Copy, PartialEq, Eq)]
pub enum Call {
    /// `make` for the client of the pass.
    Make,
    /// `commit` for it.
    Commit,
    /// `return_from` for it.
    Return,
    /// `begin` for it.
    Begin,
    /// `lock` of an object for it.
    Lock(ObjId),
    /// `backoff` of its context.
    BackOff,
    /// `relock` of its context.
    Relock,
    /// `claim`.
    Claim,
    /// `write` of an object for a commit, by its number from 0.
    Write(u32, ObjId),
    /// `flush` of the CRTC with an index, which comes second, for a commit, by its number from 0.
    Flush(u32, u32),
    /// `hw_done` of a commit, by its number from 0.
    HwDone(u32),
    /// `cleanup` of a commit, by its number from 0.
    Cleanup(u32),
    /// `vblank` of the CRTC with an index.
    Vblank(u32),
}

/// What a call is answered.
#[derive(Clone, Copy, PartialEq, Eq)]
pub enum Told {
    /// No, or nothing; also where the client of the pass stands at no such call.
    Nothing,
    /// Yes.
    Did,
    /// A reply.
    Replied(Reply),
    /// The ticket of a context that began.
    Began(Ticket),
    /// The number of a commit that was claimed.
    Claimed(u32),
    /// The object is locked now.
    Got,
    /// It was locked already.
    Own,
    /// A context with this ticket, an older one, holds it.
    Older(Ticket),
    /// One with this ticket, a younger one, holds it.
    Younger(Ticket),
    /// One with this ticket holds what was backed off for.
    Held(Ticket),
}

/// Makes a call through a pass. The only error is want of memory.
pub fn make_call<W: Wait>(
    rt: &W,
    alloc: Global,
    device: &Device,
    pass: &mut Pass,
    call: Call,
) -> Result<Told, NoMemory>
    requires own { pass.old.lock ≡ device.now.lock }
    ensures same { IsSamePass pass.old pass.new }
{
    match call {
        Call::Make => Ok(told_of_reply(make(rt, alloc, device, pass)?)),
        Call::Commit => Ok(told_of_reply(commit(rt, alloc, device, pass)?)),
        Call::Return => Ok(told_of_test(return_from(rt, device, pass)?)),
        Call::Begin => Ok(match begin(rt, alloc, device, pass)? {
            Some(ticket) => Told::Began(ticket),
            None => Told::Nothing,
        }),
        Call::Lock(id) => Ok(told_of_lock(lock(rt, alloc, device, pass, id)?)),
        Call::BackOff => Ok(told_of_test(back_off(rt, device, pass)?)),
        Call::Relock => Ok(told_of_lock(relock(rt, device, pass)?)),
        _ => Ok(work(rt, device, pass, call)),
    }
}

/// Makes a call of workers or of a vblank; no other.
fn work<W: Wait>(rt: &W, device: &Device, pass: &mut Pass, call: Call) -> Told
    requires own { pass.old.lock ≡ device.now.lock }
    ensures same { IsSamePass pass.old pass.new }
{
    match call {
        Call::Claim => match device.claim(rt, pass) {
            Some(commit) => Told::Claimed(commit),
            None => Told::Nothing,
        },
        Call::Write(commit, id) => told_of_test(device.write(rt, pass, commit, id)),
        Call::Flush(commit, crtc) => told_of_test(device.flush(rt, pass, commit, crtc)),
        Call::HwDone(commit) => told_of_test(device.hw_done(rt, pass, commit)),
        Call::Cleanup(commit) => told_of_test(device.cleanup(rt, pass, commit)),
        Call::Vblank(crtc) => told_of_test(device.vblank(rt, pass, crtc)),
        _ => Told::Nothing,
    }
}

/// What a reply, or none, tells.
fn told_of_reply(reply: Option<Reply>) -> Told {
    match reply {
        Some(reply) => Told::Replied(reply),
        None => Told::Nothing,
    }
}

/// What yes or no tells.
fn told_of_test(did: bool) -> Told {
    if did { Told::Did } else { Told::Nothing }
}

/// What the answer to a lock, or none, tells.
fn told_of_lock(answer: Option<Locked>) -> Told
    ensures { result ≡ told_of_lock answer }
{
    match answer {
        Some(Locked::Got { .. }) => Told::Got,
        Some(Locked::Own { .. }) => Told::Own,
        Some(Locked::Older { holder }) => Told::Older(holder),
        Some(Locked::Younger { holder }) => Told::Younger(holder),
        Some(Locked::Held { holder }) => Told::Held(holder),
        None => Told::Nothing,
    }
}
