//! A client's request, one step at a time, and whole.
ghost use Rattle.std.specs.Prelude.{◌≡◌, ℕ, [], Some, true, false, IfOk, IfSome, OnErr, is_some};
ghost use Rattle.kms_core.specs.Run.{Run};
ghost use Rattle.kms_device.specs.Attempts.{BrokenOff, Committed, GoesOnAt, IsAttempt, MayAttempt, Serves, StandsAt, StaysAt, Went, gives_reply, new_attempt, no_findings};
ghost use Rattle.kms_device.specs.Turns.{run_seen};

use crate::device::Device;
use crate::kernel::Pass;
use kms_io::Gate;
use kms_model::{Duplicates, Lookups, NoMemory, Place, Reply};
use kms_state::Duplicating;
use std::alloc::Global;
use std::sync::Wait;

/// What a client keeps of its request between two attempts at it, and where the last one left it.
#[derive(Drop)]
pub struct Attempt {
    /// What it found out for the request.
    pub kept: Findings,
    /// Where it stands; none where that is to be looked up.
    pub place: Option<Place>,
}

/// What a client found out for its request. (Kernel: `struct drm_atomic_state`, and what drm_mode_atomic_ioctl looked up.)
#[derive(Drop)]
pub struct Findings {
    /// What the labels of the request named when they were looked up; none before they are.
    pub looks: Option<Lookups>,
    /// The states that the locks of the client's context gave, as they are in the device, each with itself as the new state.
    pub states: Duplicates,
}

/// The answer of an attempt.
#[derive(Clone, Copy, PartialEq, Eq)]
pub enum Attempted {
    /// A step was made that records no reply; or an object that was held already gave its state; or a label names something else
    /// than it did, and all look-ups were made anew.
    Did,
    /// The client's next step is not legal in the history that was found.
    NotYet {
        /// How long that history was, a count of steps.
        length: u64,
    },
    /// The step was made that decides the request, with this reply.
    Answered(Reply),
}

impl Attempt {
    /// One that serves wherever a client stands, in each history.
    pub fn new() -> Attempt
        ensures anew { result ≡ new_attempt }
        ensures serves { (r : Run) (client : ℕ) → Serves r client result.kept }
    {
        Attempt {
            kept: Findings::new(),
            place: None,
        }
    }

    /// A new one of a client that stands at a place.
    pub fn at(place: Place) -> Attempt
        ensures { result ≡ record new_attempt { place = Some place } }
    {
        Attempt {
            kept: Findings::new(),
            place: Some(place),
        }
    }
}

impl Findings {
    /// None yet.
    pub(crate) fn new() -> Findings
        ensures none { result ≡ no_findings }
        ensures serves { (r : Run) (client : ℕ) → Serves r client result }
    {
        Findings {
            looks: None,
            states: Duplicates::empty(),
        }
    }
}

impl Device {
    /// One step of the request of a client, by its number from 1, from the beginning of its context to the reply. Where the
    /// client stands tells which call comes next: `begin`, `backoff` or `relock`; or, while it takes locks, the call that
    /// resolving the request with the look-ups that were kept and a check of the states that were kept ask for, which is
    /// `refuse`, the `lock` of the least object that is lacking, `test` or `swap`. Resolving and checking are done outside of
    /// every turn; the gate is called before. `work` is new, or what the client's last attempt left. Where that tells no place, the
    /// place is looked up, in a turn of its own. The only error is want of memory: then no step was made. Behind that, and behind a
    /// reply, `work` is new.
    pub fn attempt<W: Wait, G: Gate>(
        &self,
        rt: &W,
        alloc: Global,
        pass: &mut Pass,
        client: u32,
        gate: &G,
        work: &mut Attempt,
    ) -> Result<Attempted, NoMemory>
        requires own { pass.old.lock ≡ self.now.lock }
        requires whose { pass.old.rank ≡ client }
        requires may { MayAttempt (run_seen self.now.script pass.old) client }
        requires serves { Serves (run_seen self.now.script pass.old) client work.old.kept }
        requires stands { IfSome work.old.place
            (StandsAt (run_seen self.now.script pass.old) client) }
        ensures did { IfOk result
            (IsAttempt self.now.script client pass.old work.old.kept pass.new work.new.kept) }
        ensures goes_on { IfOk result (GoesOnAt (run_seen self.now.script pass.old)
            (run_seen self.now.script pass.new) client) }
        ensures serves { Serves (run_seen self.now.script pass.new) client work.new.kept }
        ensures stands { IfSome work.new.place
            (StandsAt (run_seen self.now.script pass.new) client) }
        ensures keeps { IfOk result (λ did. gives_reply did ≡ false
            → is_some work.new.place ≡ true) }
        ensures ends { IfOk result (λ did. gives_reply did ≡ true → work.new ≡ new_attempt) }
        ensures no_step { OnErr result (Went [] pass.old pass.new) }
        ensures stays { OnErr result (StaysAt (run_seen self.now.script pass.old)
            (run_seen self.now.script pass.new) client) }
        ensures anew { OnErr result (work.new ≡ new_attempt) }
    {
        let answer = self.try_step(rt, alloc, pass, client, gate, work);
        if answer.is_err() {
            *work = Attempt::new();
        }
        answer
    }

    /// The next command of a client, by its number from 1, which is a request, from the beginning of its context to the reply. It
    /// makes attempts until one gives the reply; how many is not bounded. The only error is want of memory: then the client may
    /// have begun, hold locks or have backed off, and `commit` may be called again for it.
    pub fn commit<W: Wait, G: Gate>(
        &self,
        rt: &W,
        alloc: Global,
        pass: &mut Pass,
        client: u32,
        gate: &G,
    ) -> Result<Reply, NoMemory>
        requires own { pass.old.lock ≡ self.now.lock }
        requires whose { pass.old.rank ≡ client }
        requires may { MayAttempt (run_seen self.now.script pass.old) client }
        ensures committed { IfOk result
            (λ reply. Committed self.now.script client reply pass.old pass.new) }
        ensures broken_off { OnErr result (BrokenOff self.now.script client pass.old pass.new) }
    {
        let mut work = Attempt::new();
        for _ in rt.forever() {
            if let Attempted::Answered(reply) = self.attempt(
                rt, alloc, pass, client, gate, &mut work,
            )? {
                return Ok(reply);
            }
        }
        unreachable!()
    }
}
