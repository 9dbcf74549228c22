//! Acquire contexts and their locks.
ghost use Rattle.std.specs.Prelude.{ℕ, ◌≡◌, IfOk, OnErr, [], ◌∷◌};
ghost use Rattle.kms_model.specs.declared.replies.Step.TheVariants as step;
ghost use Rattle.kms_model.specs.Order.Turns.{lock_step};
ghost use Rattle.kms_core.specs.Run.{machine, gains, if_ok};
ghost use Rattle.kms_core.specs.Locks.{MayBegin, MayLock, IsTaking, locked_answer, locked_as, lock_steps, is_step, HasContext, MayBackOff, MayRelock, relocked_answer, relock_steps};

use crate::calls::states::present_state;
use crate::machine::Core;
use crate::stores::make_step_room;
use kms_model::{Doing, NoMemory, ObjId, ObjState, Step, Ticket};
use kms_wwlock::{Lock, Relock};
use std::alloc::Global;

/// What is answered where a lock is asked for.
#[derive(Clone, Copy, PartialEq, Eq)]
pub enum Locked {
    /// The object was free, and the context holds it now.
    Got {
        /// The object's present state.
        state: ObjState,
    },
    /// The context holds it already.
    Own {
        /// The object's present state.
        state: ObjState,
    },
    /// An older context holds it, and this one must back off.
    Older {
        /// The ticket of the context that holds it, a lower number than the asker's.
        holder: Ticket,
    },
    /// A younger context holds it, and this one may ask again later.
    Younger {
        /// The ticket of the context that holds it, a higher number than the asker's.
        holder: Ticket,
    },
    /// Another context holds the object that this one backed off for, and this one may ask again later.
    Held {
        /// The ticket of the context that holds it.
        holder: Ticket,
    },
}

impl Core {
    /// Begins an acquire context for a client, by its number from 1, that is idle at an atomic request, and gives its
    /// ticket. Want of memory leaves all as it was. (Kernel: "KMS Locking", `drm_modeset_acquire_init`.)
    pub fn begin(&mut self, alloc: Global, client: u32) -> Result<Ticket, NoMemory>
        requires { MayBegin self.old client }
        ensures ticket { IfOk result (λ t. t.0 ≡ (machine self.old).contexts.tickets) }
        ensures history { self.new ≡ gains self.old (if_ok result (λ t. step.Begin client ∷ [])) }
    {
        let stores = &mut *self.stores;
        make_step_room(&mut stores.steps, &stores.tracker)?;
        let ticket = stores.clients.begin(alloc, client)?;
        stores.steps.push(Step::Begin { client });
        Ok(ticket)
    }

    /// Asks for an object in the context of a ticket, which takes locks. The object is in the reach of the request. `Got`
    /// and `Own` tell its present state. After `Older` the context must back off; `Own` and `Younger` change nothing. Want
    /// of memory leaves all as it was. (Kernel: `drm_modeset_lock`.)
    pub fn lock(&mut self, t: Ticket, id: ObjId) -> Result<Locked, NoMemory>
        requires { MayLock self.old t id }
        ensures answer { (client : ℕ) → IsTaking self.old client t
            → IfOk result (λ a. a ≡ locked_answer self.old client id) }
        ensures history { (client : ℕ) → IsTaking self.old client t
            → self.new ≡ gains self.old (if_ok result (lock_steps client id)) }
        ensures unchanged { OnErr result (self.new ≡ self.old) }
    {
        let stores = &mut *self.stores;
        make_step_room(&mut stores.steps, &stores.tracker)?;
        let Some(client) = stores.clients.with_ticket(t) else {
            unreachable!();
        };
        let Some(state) = present_state(&stores.present, id) else {
            unreachable!();
        };
        let answer = stores.clients.lock(client, id);
        if !is_step(answer) {
            return Ok(answer_with_state(state, answer));
        }
        stores.steps.push(lock_step(client, id));
        Ok(answer_with_state(state, answer))
    }

    /// Drops all locks of the context of a ticket, which must back off. Want of memory leaves all as it was. (Kernel:
    /// `drm_modeset_backoff`.)
    pub fn backoff(&mut self, t: Ticket) -> Result<(), NoMemory>
        requires { MayBackOff self.old t }
        ensures history { (client : ℕ) → HasContext self.old client t
            → self.new ≡ gains self.old (if_ok result (λ u. step.BackOff client ∷ [])) }
        ensures unchanged { OnErr result (self.new ≡ self.old) }
    {
        let stores = &mut *self.stores;
        make_step_room(&mut stores.steps, &stores.tracker)?;
        let Some(client) = stores.clients.with_ticket(t) else {
            unreachable!();
        };
        stores.clients.backoff(client);
        stores.steps.push(Step::BackOff { client });
        Ok(())
    }

    /// Asks, in the context of a ticket, which backed off, for the object that it backed off for. `Got` tells the object's
    /// present state, and the context takes locks again. `Held` changes nothing. No other answer comes. Want of memory
    /// leaves all as it was. (Kernel: `drm_modeset_backoff`, which waits for the object.)
    pub fn relock(&mut self, t: Ticket) -> Result<Locked, NoMemory>
        requires { MayRelock self.old t }
        ensures answer { (client : ℕ) → HasContext self.old client t
            → IfOk result (λ a. a ≡ relocked_answer self.old client) }
        ensures history { (client : ℕ) → HasContext self.old client t
            → self.new ≡ gains self.old (if_ok result (relock_steps client)) }
        ensures unchanged { OnErr result (self.new ≡ self.old) }
    {
        let stores = &mut *self.stores;
        make_step_room(&mut stores.steps, &stores.tracker)?;
        let Some(client) = stores.clients.with_ticket(t) else {
            unreachable!();
        };
        let Doing::BackedOff(_ticket, id) = stores.clients.place(client).doing else {
            unreachable!();
        };
        let Some(state) = present_state(&stores.present, id) else {
            unreachable!();
        };
        match stores.clients.relock(client) {
            Relock::Held { holder } => Ok(Locked::Held { holder }),
            Relock::Got => {
                stores.steps.push(Step::Relock { client });
                Ok(Locked::Got { state })
            }
        }
    }
}

/// The step of a client that asks for an object.
fn lock_step(client: u32, id: ObjId) -> Step
    ensures { result ≡ lock_step client id.0 }
{
    Step::Lock {
        client,
        kind: id.kind(),
        index: id.index(),
    }
}

/// Whether an answer is an event: the object was taken, or the context must back off.
fn is_step(answer: Lock) -> bool
    ensures { result ≡ is_step answer }
{
    matches!(answer, Lock::Got | Lock::Older { .. })
}

/// The answer with the object's state.
fn answer_with_state(state: ObjState, answer: Lock) -> Locked
    ensures { result ≡ locked_as state answer }
{
    match answer {
        Lock::Got => Locked::Got { state },
        Lock::Own => Locked::Own { state },
        Lock::Older { holder } => Locked::Older { holder },
        Lock::Younger { holder } => Locked::Younger { holder },
    }
}
