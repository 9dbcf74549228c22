//! Calls of a client on its acquire context and its locks. Each goes through the pass of the client's number.
ghost use Rattle.std.specs.Prelude.{◌≡◌, ◌∷◌, [], IfOk, ⊤};
ghost use Rattle.kms_model.specs.declared.replies.Step.TheVariants as step;
ghost use Rattle.kms_core.specs.Locks.{MayBegin, lock_steps, locked_answer, relock_steps, relocked_answer};
ghost use Rattle.kms_core.specs.Run.{if_ok, machine};
ghost use Rattle.kms_device.specs.Asking.{ContextBackedOff, MayLockNext, ContextMustBackOff};
ghost use Rattle.kms_device.specs.Turns.{DeviceTurn, run_seen};

use crate::device::Device;
use crate::kernel::Pass;
use kms_core::{Core, Locked};
use kms_model::{NoMemory, ObjId, Ticket};
use std::alloc::Global;
use std::sync::Wait;

impl Device {
    /// Begins an acquire context for a client, by its number from 1, that is idle at an atomic request, as the machine's
    /// `begin` does, and gives its ticket. Want of memory makes no step.
    pub fn begin<W: Wait>(
        &self,
        rt: &W,
        alloc: Global,
        pass: &mut Pass,
        client: u32,
    ) -> Result<Ticket, NoMemory>
        requires own { pass.old.lock ≡ self.now.lock }
        requires whose { pass.old.rank ≡ client }
        requires may { MayBegin (run_seen self.now.script pass.old) client }
        ensures { DeviceTurn self.now.script
            (λ found. IfOk result (λ t. t.0 ≡ (machine found).contexts.tickets))
            (if_ok result (λ t. step.Begin client ∷ [])) pass.old pass.new }
    {
        self.turn(rt, pass, |core: &mut Core| core.begin(alloc, client))
    }

    /// Asks for an object in the context of a ticket, which takes locks, as the machine's `lock` does. The context is that of the
    /// client of the pass. Either each label of the request is made, the object is in its reach, and the context holds the groups
    /// of objects before that of the object; or a check of states that its locks gave has asked for the object. Then it is in the
    /// reach of the request, whatever others did since. `Own` and `Younger` make no step, nor does want of memory.
    pub fn lock<W: Wait>(
        &self,
        rt: &W,
        pass: &mut Pass,
        t: Ticket,
        id: ObjId,
    ) -> Result<Locked, NoMemory>
        requires own { pass.old.lock ≡ self.now.lock }
        requires may { MayLockNext (run_seen self.now.script pass.old) pass.old.rank t id }
        ensures { DeviceTurn self.now.script
            (λ found. IfOk result (λ a. a ≡ locked_answer found pass.old.rank id))
            (if_ok result (lock_steps pass.old.rank id)) pass.old pass.new }
    {
        self.turn(rt, pass, |core: &mut Core| core.lock(t, id))
    }

    /// Drops all locks of the context of a ticket, which must back off, as the machine's `backoff` does. The context is that of the
    /// client of the pass. Want of memory makes no step.
    pub fn backoff<W: Wait>(&self, rt: &W, pass: &mut Pass, t: Ticket) -> Result<(), NoMemory>
        requires own { pass.old.lock ≡ self.now.lock }
        requires must { ContextMustBackOff (run_seen self.now.script pass.old) pass.old.rank t }
        ensures { DeviceTurn self.now.script (λ found. ⊤)
            (if_ok result (λ u. step.BackOff pass.old.rank ∷ [])) pass.old pass.new }
    {
        self.turn(rt, pass, |core: &mut Core| core.backoff(t))
    }

    /// Asks, in the context of a ticket, which backed off, for the object that it backed off for, as the machine's `relock` does.
    /// The context is that of the client of the pass. `Held` makes no step, nor does want of memory.
    pub fn relock<W: Wait>(&self, rt: &W, pass: &mut Pass, t: Ticket) -> Result<Locked, NoMemory>
        requires own { pass.old.lock ≡ self.now.lock }
        requires off { ContextBackedOff (run_seen self.now.script pass.old) pass.old.rank t }
        ensures { DeviceTurn self.now.script
            (λ found. IfOk result (λ a. a ≡ relocked_answer found pass.old.rank))
            (if_ok result (relock_steps pass.old.rank)) pass.old pass.new }
    {
        self.turn(rt, pass, |core: &mut Core| core.relock(t))
    }
}
