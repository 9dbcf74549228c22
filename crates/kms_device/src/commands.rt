//! Calls of a client that is idle or waits for its commit. Each goes through the pass of the client's number.
ghost use Rattle.std.specs.Prelude.{◌≡◌, ◌∷◌, [], IfOk};
ghost use Rattle.kms_model.specs.declared.replies.Step.TheVariants as step;
ghost use Rattle.kms_model.specs.Request.Lookups.{lookups};
ghost use Rattle.kms_core.specs.Calls.{MayMake, MayRead, MayReturn, MaySignal, is_over_at, read_reply_at, read_step, reply_at, return_step};
ghost use Rattle.kms_core.specs.Decisions.{world};
ghost use Rattle.kms_core.specs.Run.{if_ok};
ghost use Rattle.kms_device.specs.Turns.{DeviceTurn, run_seen};

use crate::device::Device;
use crate::kernel::Pass;
use kms_core::Core;
use kms_model::{Lookups, NoMemory, Reply, Request};
use std::alloc::Global;
use std::sync::Wait;

impl Device {
    /// For each label that a request names, what it names in the history that was found. The only error is want of memory.
    pub fn lookups<W: Wait>(
        &self,
        rt: &W,
        alloc: Global,
        pass: &mut Pass,
        request: &Request,
    ) -> Result<Lookups, NoMemory>
        requires own { pass.old.lock ≡ self.now.lock }
        ensures { DeviceTurn self.now.script
            (λ found. IfOk result (λ told. told ≡ lookups (world found) request.now)) []
            pass.old pass.new }
    {
        self.turn(rt, pass, |core: &mut Core| core.lookups(alloc, request))
    }

    /// Executes the command of a client, by its number from 1, that is idle at one which makes or closes a thing, as the
    /// machine's `make` does. Want of memory makes no step.
    pub fn make<W: Wait>(
        &self,
        rt: &W,
        alloc: Global,
        pass: &mut Pass,
        client: u32,
    ) -> Result<Reply, NoMemory>
        requires own { pass.old.lock ≡ self.now.lock }
        requires whose { pass.old.rank ≡ client }
        requires may { MayMake (run_seen self.now.script pass.old) client }
        ensures { DeviceTurn self.now.script
            (λ found. IfOk result (λ reply. reply ≡ reply_at found client))
            (if_ok result (λ reply. step.Make client ∷ [])) pass.old pass.new }
    {
        self.turn(rt, pass, |core: &mut Core| core.make(alloc, client))
    }

    /// Signals the fence of a client, by its number from 1, that is idle at a `signal`, as the machine's `signal` does. Want
    /// of memory makes no step.
    pub fn signal<W: Wait>(&self, rt: &W, pass: &mut Pass, client: u32) -> Result<Reply, NoMemory>
        requires own { pass.old.lock ≡ self.now.lock }
        requires whose { pass.old.rank ≡ client }
        requires may { MaySignal (run_seen self.now.script pass.old) client }
        ensures { DeviceTurn self.now.script
            (λ found. IfOk result (λ reply. reply ≡ reply_at found client))
            (if_ok result (λ reply. step.Signal client ∷ [])) pass.old pass.new }
    {
        self.turn(rt, pass, |core: &mut Core| core.signal(client))
    }

    /// Reads the oldest unread event for a client, by its number from 1, that is idle at a `wait`, as the machine's `read` does.
    /// None, and no step, where one is still to come in the history that was found. Want of memory makes no step.
    pub fn read_event<W: Wait>(
        &self,
        rt: &W,
        pass: &mut Pass,
        client: u32,
    ) -> Result<Option<Reply>, NoMemory>
        requires own { pass.old.lock ≡ self.now.lock }
        requires whose { pass.old.rank ≡ client }
        requires may { MayRead (run_seen self.now.script pass.old) client }
        ensures { DeviceTurn self.now.script
            (λ found. IfOk result (λ reply. reply ≡ read_reply_at found client))
            (if_ok result (read_step client)) pass.old pass.new }
    {
        self.turn(rt, pass, |core: &mut Core| core.read(client))
    }

    /// Lets a client, by its number from 1, that waits for its commit go on, as the machine's `return_from` does. False, and no
    /// step, where the commit is not cleaned up in the history that was found. Want of memory makes no step.
    pub fn return_from<W: Wait>(
        &self,
        rt: &W,
        pass: &mut Pass,
        client: u32,
    ) -> Result<bool, NoMemory>
        requires own { pass.old.lock ≡ self.now.lock }
        requires whose { pass.old.rank ≡ client }
        requires may { MayReturn (run_seen self.now.script pass.old) client }
        ensures { DeviceTurn self.now.script
            (λ found. IfOk result (λ over. over ≡ is_over_at found client))
            (if_ok result (return_step client)) pass.old pass.new }
    {
        self.turn(rt, pass, |core: &mut Core| core.return_from(client))
    }
}
