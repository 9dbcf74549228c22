//! Requests that are refused, tested and committed.
ghost use Rattle.std.specs.Prelude.{◌≡◌, ◌<◌, [], ◌∷◌, IfOk, None};
ghost use Rattle.kms_model.specs.Request.Lookups.{look_up};
ghost use Rattle.kms_model.specs.declared.replies.Reply.TheVariants as reply;
ghost use Rattle.kms_model.specs.declared.replies.Step.TheVariants as step;
ghost use Rattle.kms_core.specs.declared.stores.looking.Decided.TheVariants as decided;
ghost use Rattle.kms_core.specs.Decisions.{Decides, IsDecided, IsFirstStale, MayRefuse, MayTest};
ghost use Rattle.kms_core.specs.Decisions.{steps_of, taker, world};
ghost use Rattle.kms_core.specs.Run.{gains, if_ok, machine};

mod committing;
mod present;
mod swapping;

use crate::machine::Core;
use crate::stores::{Decided, Stores, first_stale, make_step_room, taker};
pub use committing::commit;
use kms_model::{Answered, Checked, Lookups, NoMemory, Refusal, Reply, Step, Ticket};

impl Core {
    /// Refuses the request of the client whose context has a ticket and takes locks. `used` tells what the request's labels
    /// named. `why` is the first early refusal with that; or the first late refusal, as a check of present
    /// states gives it, and then the context holds what the request touches. `Again` comes exactly where a label names
    /// something else now, with the first. Want of memory leaves all as it was. (Kernel: `drm_atomic_check_only`.)
    pub fn refuse(&mut self, t: Ticket, used: &Lookups, why: Refusal) -> Result<Decided, NoMemory>
        requires { MayRefuse self.old t.0 used.now why }
        ensures answer { IfOk result (IsDecided (look_up (world self.old)) used.now
            (decided.Done (reply.Refused why))) }
        ensures history { self.new ≡ gains self.old (if_ok result
            (steps_of (taker (machine self.old) t.0)
            (step.Refuse (taker (machine self.old) t.0)))) }
    {
        let stores = &mut *self.stores;
        let client = taker(&stores.clients, t);
        decide_fresh(
            stores,
            used,
            client,
            Step::Refuse { client },
            Reply::Refused(why),
        )
    }

    /// Tells that the request of the client whose context has a ticket and takes locks would be accepted. It is tested
    /// only. `used` tells what the request's labels named, `checked` is what a check gives with that and with present
    /// states, and the context holds what the request touches. `Again` comes exactly where a label names something else
    /// now, with the first. Nothing of the device changes. Want of memory leaves all as it was. (Kernel:
    /// `drm_mode_atomic_ioctl`, `DRM_MODE_ATOMIC_TEST_ONLY`.)
    pub fn test(
        &mut self,
        t: Ticket,
        used: &Lookups,
        checked: &Checked,
    ) -> Result<Decided, NoMemory>
        requires { MayTest self.old t.0 used.now checked.now }
        ensures answer { IfOk result (IsDecided (look_up (world self.old)) used.now
            (decided.Done reply.Tested)) }
        ensures history { self.new ≡ gains self.old (if_ok result
            (steps_of (taker (machine self.old) t.0)
            (step.Test (taker (machine self.old) t.0)))) }
    {
        let stores = &mut *self.stores;
        let client = taker(&stores.clients, t);
        decide_fresh(stores, used, client, Step::Test { client }, Reply::Tested)
    }
}

/// Decides a client's request by a step with a reply, where its labels name what `used` tells that they named; else `Again`
/// comes, with the first that does not, and nothing changes.
fn decide_fresh(
    stores: &mut Stores,
    used: &Lookups,
    client: u32,
    step: Step,
    reply: Reply,
) -> Result<Decided, NoMemory>
    requires { IsFirstStale (look_up (world stores.old)) used.now None
        → Decides stores.old client step reply }
    ensures answer { IfOk result (IsDecided (look_up (world stores.old)) used.now
        (decided.Done reply)) }
    ensures history { stores.new ≡ gains stores.old (if_ok result (steps_of client step)) }
{
    if let Some(stale) = first_stale(&stores.things, used) {
        return Ok(stale.again());
    }
    decide(stores, client, step, reply)?;
    Ok(Decided::Done { reply })
}

/// Decides the request of a client, by its number from 1, by a step with a reply: it drops its locks and goes on to its
/// next command.
pub fn decide(stores: &mut Stores, client: u32, step: Step, reply: Reply) -> Result<(), NoMemory>
    requires { Decides stores.old client step reply }
    ensures { stores.new ≡ gains stores.old (if_ok result (λ done. step ∷ [])) }
{
    make_step_room(&mut stores.steps, &stores.tracker)?;
    stores.replies.make_room(1)?;
    let command = stores.clients.place(client).command;
    let place = stores.journal.as_slice().len() as u64;
    stores.steps.push(step);
    stores.replies.push(Answered {
        client,
        command,
        place,
        reply,
    });
    stores.clients.decide(client);
    Ok(())
}
