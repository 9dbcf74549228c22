//! Commands that are executed at once: those that make and close things, and those that signal a fence.
ghost use Rattle.std.specs.Prelude.{◌≡◌, ◌<◌, IfOk, [], ◌∷◌};
ghost use Rattle.kms_model.specs.declared.replies.Step.TheVariants as step;
ghost use Rattle.kms_model.specs.Things.Tables.{AreBelow};
ghost use Rattle.kms_core.specs.Calls.{MayMake, MaySignal, fence_of, reply_at, with_fence_of};
ghost use Rattle.kms_core.specs.Run.{gains, if_ok};

use crate::freeing::{InUse, account};
use crate::machine::Core;
use crate::stores::{answer, join, make_room, signal_fence};
use kms_model::{Command, NoMemory, Reply, Step, command_of};
use kms_signal::Fences;
use kms_things::Things;
use std::alloc::Global;

impl Core {
    /// Executes the command of a client, by its number from 1, that is idle at one which makes or closes a thing, and lets
    /// the client go on. The reply tells what was made, or why the command is refused; refusals 31 to 34 change no thing.
    /// Want of memory leaves all as it was. (Kernel: "Dumb Buffer Objects", "Frame Buffer Abstraction", "KMS Properties",
    /// "DMA Fences".)
    pub fn make(&mut self, alloc: Global, client: u32) -> Result<Reply, NoMemory>
        requires { MayMake self.old client }
        ensures reply { IfOk result (λ reply. reply ≡ reply_at self.old client) }
        ensures history { self.new
            ≡ gains self.old (if_ok result (λ reply. step.Make client ∷ [])) }
    {
        let stores = &mut *self.stores;
        make_room(
            &mut stores.steps,
            &mut stores.journal,
            &mut stores.replies,
            &stores.tracker,
        )?;
        stores.fences.make_room(alloc, 1)?;
        stores.freed.make_room()?;
        let crtcs = stores.script.topology.crtcs;
        let number = stores.clients.place(client).command;
        let command = command_of(&stores.script, client, number).unwrap();
        let id = stores.things.next_id();
        let reply = stores.things.execute(alloc, client, command)?;
        make_fence(alloc, &mut stores.fences, command, id);
        account(
            &mut stores.freed,
            &mut stores.things,
            &InUse {
                present: &stores.present,
                registers: &stores.registers,
                tracker: &stores.tracker,
                crtcs,
            },
            command,
            &reply,
        );
        answer(&stores.journal, &mut stores.replies, client, number, reply);
        join(&mut stores.journal, client, number, &reply);
        stores.clients.go_on(client);
        stores.steps.push(Step::Make { client });
        Ok(reply)
    }

    /// Signals the fence of a client, by its number from 1, that is idle at a `signal`, and lets the client go on. A
    /// refusal, `NOT_SIGNALLABLE`, where no `fence` made the fence, signals nothing. Want of memory leaves all as it was.
    /// (Kernel: "DMA Fences", `dma_fence_signal`.)
    pub fn signal(&mut self, client: u32) -> Result<Reply, NoMemory>
        requires { MaySignal self.old client }
        ensures reply { IfOk result (λ reply. reply ≡ reply_at self.old client) }
        ensures history { self.new
            ≡ gains self.old (if_ok result (λ reply. step.Signal client ∷ [])) }
    {
        let stores = &mut *self.stores;
        make_room(
            &mut stores.steps,
            &mut stores.journal,
            &mut stores.replies,
            &stores.tracker,
        )?;
        let number = stores.clients.place(client).command;
        let Some(command) = command_of(&stores.script, client, number) else {
            unreachable!();
        };
        let reply = stores.things.preview(client, command);
        signal_fence(
            &mut stores.fences,
            fence_of(&stores.things, command, &reply),
        );
        answer(&stores.journal, &mut stores.replies, client, number, reply);
        stores.clients.go_on(client);
        stores.steps.push(Step::Signal { client });
        Ok(reply)
    }
}

/// Makes the fence of a `fence`, with the id of its thing, for which there is room. Other commands make none.
fn make_fence(alloc: Global, fences: &mut Fences, command: &Command, id: u32)
    requires below { AreBelow id fences.old.slots }
    requires room { 0 < fences.old.room }
    ensures { fences.new.slots ≡ with_fence_of command.now id fences.old.slots }
{
    let Command::Fence { .. } = command else {
        return;
    };
    let Ok(()) = fences.make(alloc, id) else {
        unreachable!();
    };
}

/// The fence that a `signal` signals, where it is answered that this is done.
fn fence_of(things: &Things, command: &Command, reply: &Reply) -> Option<u32>
    ensures { result ≡ fence_of things.now.things command.now reply.now }
{
    match (command, reply) {
        (Command::Signal { label }, Reply::Done) => Some(things.thing_labelled(*label)?.id),
        _ => None,
    }
}
