//! Decisions on the request of a client. Each goes through the pass of the client's number, with duplicates that its locks gave:
//! while it holds their objects they are the present states, whatever others do.
ghost use Rattle.std.specs.Prelude.{◌≡◌, IfOk};
ghost use Rattle.kms_model.specs.declared.replies.Reply.TheVariants as reply;
ghost use Rattle.kms_model.specs.declared.replies.Step.TheVariants as step;
ghost use Rattle.kms_model.specs.Request.Lookups.{look_up};
ghost use Rattle.kms_core.specs.declared.stores.looking.Decided.TheVariants as decided;
ghost use Rattle.kms_core.specs.Decisions.{IsDecided, steps_of, world};
ghost use Rattle.kms_core.specs.Run.{if_ok};
ghost use Rattle.kms_core.specs.Swaps.{swap_answer};
ghost use Rattle.kms_device.specs.Asking.{MayBeRefused, MayBeSwapped, MayBeTested};
ghost use Rattle.kms_device.specs.Turns.{DeviceTurn, run_seen};

use crate::device::Device;
use crate::kernel::Pass;
use kms_core::{Core, Decided};
use kms_model::{Checked, Lookups, NoMemory, Refusal, Resolved, Ticket};
use std::alloc::Global;
use std::boxed::Box;
use std::sync::Wait;

/// An accepted request: what its check gave, and what its labels name.
#[derive(Drop)]
pub struct Accepted {
    /// What its check gave.
    pub checked: Box<Checked>,
    /// What its labels name.
    pub resolved: Resolved,
}

impl Device {
    /// Refuses the request of the client of the pass, whose context has the ticket and takes locks, as the machine's `refuse` does.
    /// `Again` makes no step, nor does want of memory.
    pub fn refuse<W: Wait>(
        &self,
        rt: &W,
        pass: &mut Pass,
        t: Ticket,
        used: &Lookups,
        why: Refusal,
    ) -> Result<Decided, NoMemory>
        requires own { pass.old.lock ≡ self.now.lock }
        requires may { MayBeRefused (run_seen self.now.script pass.old) pass.old.rank t
            used.now why }
        ensures { DeviceTurn self.now.script
            (λ found. IfOk result (IsDecided (look_up (world found)) used.now
            (decided.Done (reply.Refused why))))
            (if_ok result (steps_of pass.old.rank (step.Refuse pass.old.rank)))
            pass.old pass.new }
    {
        self.turn(rt, pass, |core: &mut Core| core.refuse(t, used, why))
    }

    /// Tells that the request of the client of the pass, whose context has the ticket and takes locks, would be accepted, as the
    /// machine's `test` does. `Again` makes no step, nor does want of memory.
    pub fn test<W: Wait>(
        &self,
        rt: &W,
        pass: &mut Pass,
        t: Ticket,
        used: &Lookups,
        checked: &Checked,
    ) -> Result<Decided, NoMemory>
        requires own { pass.old.lock ≡ self.now.lock }
        requires may { MayBeTested (run_seen self.now.script pass.old) pass.old.rank t used.now
            checked.now }
        ensures { DeviceTurn self.now.script
            (λ found. IfOk result (IsDecided (look_up (world found)) used.now
            (decided.Done reply.Tested)))
            (if_ok result (steps_of pass.old.rank (step.Test pass.old.rank)))
            pass.old pass.new }
    {
        self.turn(rt, pass, |core: &mut Core| core.test(t, used, checked))
    }

    /// Commits the request of the client of the pass, whose context has the ticket and takes locks, or refuses it for want of space
    /// for its events or for being busy, as the machine's `swap` does. `Again` and `NotYet` make no step, nor does want of memory.
    pub fn swap<W: Wait>(
        &self,
        rt: &W,
        alloc: Global,
        pass: &mut Pass,
        t: Ticket,
        used: &Lookups,
        accepted: &Accepted,
    ) -> Result<Decided, NoMemory>
        requires own { pass.old.lock ≡ self.now.lock }
        requires may { MayBeSwapped (run_seen self.now.script pass.old) pass.old.rank t used.now
            accepted.now.checked.value accepted.now.resolved }
        ensures { DeviceTurn self.now.script
            (λ found. IfOk result (IsDecided (look_up (world found)) used.now
            (swap_answer found pass.old.rank)))
            (if_ok result (steps_of pass.old.rank (step.Swap pass.old.rank)))
            pass.old pass.new }
    {
        let checked = &*accepted.checked;
        let resolved = &accepted.resolved;
        self.turn(rt, pass, |core: &mut Core| {
            core.swap(alloc, t, used, checked, resolved)
        })
    }
}
