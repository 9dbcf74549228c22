//! Requests that are committed.
ghost use Rattle.std.specs.Prelude.{◌≡◌, length, IfOk, None, Some};
ghost use Rattle.kms_model.specs.declared.replies.Reply.TheVariants as reply;
ghost use Rattle.kms_model.specs.declared.replies.Step.TheVariants as step;
ghost use Rattle.kms_model.specs.Request.Lookups.{look_up};
ghost use Rattle.kms_core.specs.declared.stores.looking.Decided.TheVariants as decided;
ghost use Rattle.kms_core.specs.Decisions.{IsDecided, steps_of, taker, world};
ghost use Rattle.kms_core.specs.Run.{gains, if_ok, machine};
ghost use Rattle.kms_core.specs.Swaps.{hindered_steps, or_answer};
ghost use Rattle.kms_core.specs.Swaps.{IsReadyToCommit, MaySwap, MaySwapUnless, swap_answer};

use crate::deciding::committing::commit;
use crate::deciding::decide;
use crate::machine::Core;
use crate::stores::{Decided, Stores, first_stale, late_reply, taker};
use kms_model::{Checked, Lookups, NoMemory, Reply, Resolved, Step, Ticket};
use std::alloc::Global;

impl Core {
    /// Commits the request of the client whose context has a ticket and takes locks, or refuses it for want of space for its
    /// events or for being busy. `used` tells what the request's labels named; `resolved` is what it asks for with that,
    /// and `checked` what a check gives with that and with present states, with the objects that it touches duplicated; the
    /// context holds them. `Again` comes exactly where a label names something else now, with the first. `NotYet` comes
    /// where the commit has to wait for another at a CRTC, with the first. A commit that blocks makes its client wait until
    /// its tail is over; the other goes on. Want of memory leaves all as it was. (Kernel: `drm_atomic_helper_commit`.)
    pub fn swap(
        &mut self,
        alloc: Global,
        t: Ticket,
        used: &Lookups,
        checked: &Checked,
        resolved: &Resolved,
    ) -> Result<Decided, NoMemory>
        requires { MaySwap self.old t.0 used.now checked.now resolved.now }
        ensures answer { IfOk result (IsDecided (look_up (world self.old)) used.now
            (swap_answer self.old (taker (machine self.old) t.0))) }
        ensures history { self.new ≡ gains self.old (if_ok result
            (steps_of (taker (machine self.old) t.0)
            (step.Swap (taker (machine self.old) t.0)))) }
    {
        let stores = &mut *self.stores;
        if let Some(stale) = first_stale(&stores.things, used) {
            return Ok(stale.again());
        }
        let client = taker(&stores.clients, t);
        if let Some(decided) = refuse_or_put_off(stores, client, checked, resolved.flags)? {
            return Ok(decided);
        }
        let commit = commit(stores, alloc, client, checked, resolved)?;
        Ok(Decided::Done {
            reply: Reply::Commit { commit },
        })
    }
}

/// Refuses an accepted request of a client, for want of space for its events or for being busy, or tells the first CRTC
/// at which its commit has to wait for another. None exactly where it may be committed. Nothing changes but where it is
/// refused.
fn refuse_or_put_off(
    stores: &mut Stores,
    client: u32,
    checked: &Checked,
    flags: u32,
) -> Result<Option<Decided>, NoMemory>
    requires { IsReadyToCommit stores.old client checked.now flags }
    ensures answer { IfOk result (λ d. or_answer d
        (decided.Done (reply.Commit (length (machine stores.old).device.commits)))
        ≡ swap_answer stores.old client) }
    ensures may { IfOk result (MaySwapUnless stores.old client) }
    ensures history { stores.new ≡ gains stores.old (if_ok result (hindered_steps client)) }
{
    let queue = &stores.queues[(client - 1) as usize];
    if let Some(reply) = late_reply(
        queue,
        &stores.tracker,
        checked.named,
        &checked.touched,
        flags,
    ) {
        decide(stores, client, Step::Refuse { client }, reply)?;
        return Ok(Some(Decided::Refused { reply }));
    }
    if let Some((object, commit)) = stores.tracker.not_yet(checked.named) {
        return Ok(Some(Decided::NotYet { object, commit }));
    }
    Ok(None)
}
