//! Events that clients read, and commits that they wait for.
ghost use Rattle.std.specs.Prelude.{◌≡◌, IfOk};
ghost use Rattle.kms_core.specs.Calls.{MayRead, MayReturn, is_over_at, read_reply_at, read_step, return_step};
ghost use Rattle.kms_core.specs.Run.{gains, if_ok};

use crate::machine::Core;
use crate::stores::{answer, make_room, make_step_room, next_reply};
use kms_model::{Doing, NoMemory, Reply, Step};

impl Core {
    /// Reads the oldest unread event for a client, by its number from 1, that is idle at a `wait`, or answers that none
    /// will come where none is reserved, and lets the client go on. None exactly where nothing is unread and something is
    /// reserved, or the history was ended: then nothing changes. Want of memory leaves all as it was. (Kernel:
    /// `drm_file.c`, `drm_read`.)
    pub fn read(&mut self, client: u32) -> Result<Option<Reply>, NoMemory>
        requires { MayRead self.old client }
        ensures reply { IfOk result (λ reply. reply ≡ read_reply_at self.old client) }
        ensures history { self.new ≡ gains self.old (if_ok result (read_step client)) }
    {
        let stores = &mut *self.stores;
        if stores.stalled {
            return Ok(None);
        }
        let Some(reply) = next_reply(&stores.queues[(client - 1) as usize]) else {
            return Ok(None);
        };
        make_room(
            &mut stores.steps,
            &mut stores.journal,
            &mut stores.replies,
            &stores.tracker,
        )?;
        let number = stores.clients.place(client).command;
        let _event = stores.queues[(client - 1) as usize].read();
        answer(&stores.journal, &mut stores.replies, client, number, reply);
        stores.clients.go_on(client);
        stores.steps.push(Step::Read { client });
        Ok(Some(reply))
    }

    /// Lets a client that waits for its commit go on, where the commit is cleaned and the history was not ended; else nothing
    /// changes. The client has a number from 1 to that of the clients. Want of memory leaves all as it was. (Kernel:
    /// `drm_atomic_helper_commit` of a commit that blocks, which returns after its commit tail.)
    pub fn return_from(&mut self, client: u32) -> Result<bool, NoMemory>
        requires { MayReturn self.old client }
        ensures answer { IfOk result (λ over. over ≡ is_over_at self.old client) }
        ensures history { self.new ≡ gains self.old (if_ok result (return_step client)) }
    {
        let stores = &mut *self.stores;
        if stores.stalled {
            return Ok(false);
        }
        let Doing::Returning(commit) = stores.clients.place(client).doing else {
            unreachable!();
        };
        if !stores.tracker.is_cleaned(commit) {
            return Ok(false);
        }
        make_step_room(&mut stores.steps, &stores.tracker)?;
        stores.clients.go_on(client);
        stores.steps.push(Step::Return { client });
        Ok(true)
    }
}
