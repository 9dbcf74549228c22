//! The table of modeset locks.
ghost use Rattle.std.specs.Prelude.{◌≡◌, ◌<◌, [], map, replicate, Option, Some, None, OnErr, IfOk};
ghost use Rattle.kms_wwlock.specs.Objects.{IsLockable};

use crate::contexts::{Context, ContextDoing, doing_of, set_doing};
use crate::holders::{LOCKABLE, free_all, place_of};
use kms_model::{NoMemory, ObjId, Ticket};
use std::alloc::Global;
use std::marker::Model;

/// What `LockTable::lock` answers.
#[derive(Clone, Copy, PartialEq, Eq)]
pub enum Lock {
    /// The object was free, and the context holds it now.
    Got,
    /// The context holds it already.
    Own,
    /// An older context holds it, and this one has to back off.
    Older {
        /// The ticket of the context that holds it, a lower number than the asker's.
        holder: Ticket,
    },
    /// A younger context holds it, and this one may ask again later.
    Younger {
        /// The ticket of the context that holds it, a higher number than the asker's.
        holder: Ticket,
    },
}

/// What `LockTable::relock` answers.
#[derive(Clone, Copy, PartialEq, Eq)]
pub enum Relock {
    /// The object was free. The context holds it now and may take locks.
    Got,
    /// Another context holds it, and this one may ask again later.
    Held {
        /// The ticket of the context that holds it.
        holder: Ticket,
    },
}

/// Who holds the modeset lock of each object, and the contexts that have begun and are not over. The cost of
/// a call grows with the open contexts alone, and not with those that are over.
#[derive(Drop)]
pub struct LockTable {
    holders: [Option<Ticket>; LOCKABLE],
    contexts: Vec<Context>,
    drawn: u32,
}

impl Model for LockTable {
    ghost use Rattle.kms_wwlock.specs.Table.{Table, AreOfTable};

    ghost Value = { Table };

    ghost view = { λ s. record {
      holders = s.holders;
      contexts = s.contexts.items;
      drawn = s.drawn;
    } };

    ghost invariant = { λ s. AreOfTable s.contexts.items s.drawn };
}

impl LockTable {
    ghost use Rattle.kms_wwlock.specs.Table.{doing_of, holder_of};
    ghost use Rattle.kms_wwlock.specs.Calls.{IsTakenBy, IsRelocked, AreUnlocked, IsDoing, IsBackedOff, IfOlder, MayBegin, next_ticket, after_begin, MayLock, lock_answer, after_lock, MayBackOff, after_backoff, MayRelock, relock_answer, after_relock, MayDropAll, after_drop_all};
    ghost use Rattle.kms_wwlock.specs.Waits.{empty_table};

    /// The table in which every object is free and no context has begun. It takes no memory.
    pub fn new(alloc: Global) -> LockTable
        ensures { result ≡ empty_table }
    {
        LockTable {
            holders: [None; LOCKABLE],
            contexts: Vec::new(alloc),
            drawn: 0,
        }
    }

    /// Begins a context for a client, by its number from 1, and gives its ticket: 0 for the first context, 1 for the
    /// second, and so on. The client has no context, and fewer than 4294967295 tickets were drawn. For want of memory
    /// nothing changes.
    pub fn begin(&mut self, _alloc: Global, client: u32) -> Result<Ticket, NoMemory>
        requires { MayBegin self.old client }
        ensures ticket { IfOk result (λ t. t ≡ next_ticket self.old) }
        ensures after { IfOk result (λ _. self.new ≡ after_begin self.old client) }
        ensures fresh { IfOk result (λ t. doing_of self.old t ≡ None) }
        ensures taking { IfOk result (λ t. IsDoing self.old self.new t (Some ContextDoing.Taking)) }
        ensures err { OnErr result (self.new ≡ self.old) }
    {
        // The list of contexts keeps the allocator that it was made with.
        let ticket = Ticket(self.drawn);
        self.contexts.push(Context {
            ticket,
            client,
            doing: ContextDoing::Taking,
        })?;
        self.drawn += 1;
        Ok(ticket)
    }

    /// Asks for an object. The context has begun and is not over, and neither has to back off nor has backed
    /// off without a `relock` that answered `Got` since. The object is a CRTC, a plane or a connector of the
    /// largest device.
    ///
    /// `Got` comes exactly where the object is free; the context then holds it. `Own`, `Older` and `Younger`
    /// come exactly where this, an older or a younger context holds it. After `Older` the context has to back
    /// off. `Own` and `Younger` change nothing.
    pub fn lock(&mut self, t: Ticket, id: ObjId) -> Lock
        requires { MayLock self.old t id }
        ensures answer { result ≡ lock_answer t (holder_of self.old id) }
        ensures after { self.new ≡ after_lock self.old t id result }
        ensures got { result ≡ Lock.Got → IsTakenBy self.old self.new t id }
        ensures older { IfOlder result
            (IsDoing self.old self.new t (Some (ContextDoing.MustBackOff id))) }
    {
        match self.holder(id) {
            None => {
                self.holders[place_of(id)] = Some(t);
                Lock::Got
            }
            Some(holder) if holder == t => Lock::Own,
            Some(holder) if holder.0 < t.0 => {
                set_doing(&mut self.contexts, t, ContextDoing::MustBackOff(id));
                Lock::Older { holder }
            }
            Some(holder) => Lock::Younger { holder },
        }
    }

    /// Frees all locks of a context whose last `lock` answered `Older`. It keeps its ticket.
    pub fn backoff(&mut self, t: Ticket)
        requires { MayBackOff self.old t }
        ensures after { self.new ≡ after_backoff self.old t }
        ensures freed { AreUnlocked self.old self.new t }
        ensures backed_off { IsBackedOff self.old self.new t }
    {
        let Some(ContextDoing::MustBackOff(id)) = doing_of(&self.contexts, t) else {
            unreachable!();
        };
        set_doing(&mut self.contexts, t, ContextDoing::BackedOff(id));
        free_all(&mut self.holders, t);
    }

    /// Asks, for a context that has backed off, for the object that it backed off for. `Got` comes exactly
    /// where the object is free; the context then holds it and may take locks. `Held` comes exactly where it
    /// is not free, and changes nothing.
    pub fn relock(&mut self, t: Ticket) -> Relock
        requires { MayRelock self.old t }
        ensures answer { result ≡ relock_answer self.old t }
        ensures after { self.new ≡ after_relock self.old t result }
        ensures got { result ≡ Relock.Got → IsRelocked self.old self.new t }
    {
        let Some(ContextDoing::BackedOff(id)) = doing_of(&self.contexts, t) else {
            unreachable!();
        };
        match self.holder(id) {
            None => {
                self.holders[place_of(id)] = Some(t);
                set_doing(&mut self.contexts, t, ContextDoing::Taking);
                Relock::Got
            }
            Some(holder) => Relock::Held { holder },
        }
    }

    /// Frees all locks of a context that has begun and is not over. It is over then.
    pub fn drop_all(&mut self, t: Ticket)
        requires { MayDropAll self.old t }
        ensures after { self.new ≡ after_drop_all self.old t }
        ensures freed { AreUnlocked self.old self.new t }
        ensures over { IsDoing self.old self.new t None }
    {
        self.contexts.retain(|context| context.ticket != t);
        free_all(&mut self.holders, t)
    }

    /// The context that holds an object, none exactly where it is free. The object is a CRTC, a plane or a
    /// connector of the largest device.
    pub fn holder(&self, id: ObjId) -> Option<Ticket>
        requires { IsLockable id }
        ensures { result ≡ holder_of self.now id }
    {
        self.holders[place_of(id)]
    }
}
