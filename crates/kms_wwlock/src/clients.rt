//! The clients with the table of locks.
ghost use Rattle.std.specs.Prelude.{ℕ, ◌≡◌, ◌≢◌, ◌<◌, IfNone, IfOk, IfSome, OnErr, OnOk, Some, length};
ghost use Rattle.kms_model.specs.declared.objects.Topology.{Topology};
ghost use Rattle.kms_model.specs.declared.runs.Doing.TheVariants as doing;
ghost use Rattle.kms_model.specs.Machine.Effects.{begun, goes_on};
ghost use Rattle.kms_model.specs.Machine.State.{Machine, holder_at, doing_at, first_machine};
ghost use Rattle.kms_model.specs.Machine.Steps.{contended, is_free_for, is_free_or_older, ticket_of};
ghost use Rattle.kms_wwlock.specs.Objects.{IsLockable};
ghost use Rattle.kms_wwlock.specs.Standing.{Standing, IsClient, no_clients, place_of, place_in, put_doing, put_next, ticket_in, HasTicket};
ghost use Rattle.kms_wwlock.specs.InStep.{AreClientsOf, IsTaking, MustBackOff, HasBackedOff, HasNoContext, lock_answer, relock_answer, holder_of_contended};
ghost use Rattle.kms_wwlock.specs.InStep.{after_lock, after_backoff, after_relock, after_decision, after_swap};

use crate::table::{Lock, LockTable, Relock};
use kms_model::{Doing, MAX_CLIENTS, NoMemory, ObjId, Place, Ticket};
use std::alloc::Global;
use std::marker::Model;

/// The places of up to 16 clients and the locks that their contexts hold. Contracts tell, for each machine whose contexts
/// these clients stand for, what is answered and that they stand for its contexts after the step.
#[derive(Drop)]
pub struct Clients {
    places: [Place; MAX_CLIENTS as usize],
    table: LockTable,
}

impl Model for Clients {
    ghost use Rattle.kms_wwlock.specs.Standing.{Standing, AreTied};

    ghost Value = { Standing };

    ghost view = { λ s. record { places = s.places; table = s.table } };

    ghost invariant = { λ s. AreTied s.places s.table.contexts };
}

impl Clients {
    /// Each client is idle at its first command, and every object is free. It takes no memory.
    pub fn new(alloc: Global) -> Clients
        ensures value { result ≡ no_clients }
        ensures stands { (t : Topology) → AreClientsOf (first_machine t).contexts result }
    {
        Clients {
            places: [Place {
                command: 1,
                doing: Doing::Idle,
            }; MAX_CLIENTS as usize],
            table: LockTable::new(alloc),
        }
    }

    /// Where the client with a number, from 1 to 16, stands.
    pub fn place(&self, client: u32) -> Place
        requires { IsClient client }
        ensures { result ≡ place_of self.now client }
    {
        self.places[(client - 1) as usize]
    }

    /// The client, by its number from 1, whose context has a ticket; none where no context of these clients has it.
    pub fn with_ticket(&self, t: Ticket) -> Option<u32>
        ensures some { IfSome result (HasTicket self.now t) }
        ensures none { IfNone result ((client : ℕ) → IsClient client
            → ticket_in (place_of self.now client).doing ≢ Some t) }
    {
        for client in 1..=MAX_CLIENTS {
            if ticket_in(self.place(client).doing) == Some(t) {
                return Some(client);
            }
        }
        None
    }

    /// The client, by its number from 1, that holds the lock of an object, a CRTC, a plane or a connector; none where
    /// the object is free.
    pub fn holder(&self, id: ObjId) -> Option<u32>
        requires { IsLockable id }
        ensures holder { (m : Machine) → AreClientsOf m.contexts self.now
            → result ≡ holder_at m id.0 }
        ensures client { IfSome result IsClient }
    {
        let ticket = self.table.holder(id)?;
        self.with_ticket(ticket)
    }

    /// Whether the lock of an object, a CRTC, a plane or a connector, is free, or an older context than that of a
    /// client, by its number from 1, holds it.
    pub fn is_free_or_older(&self, client: u32, id: ObjId) -> bool
        requires client { IsClient client }
        requires lockable { IsLockable id }
        ensures { (m : Machine) → AreClientsOf m.contexts self.now
            → result ≡ is_free_or_older m (ticket_of (doing_at m client)) (holder_at m id.0) }
    {
        match self.holder(id) {
            None => true,
            Some(holder) => ticket_of(self.place(holder).doing)
                < ticket_of(self.place(client).doing),
        }
    }

    /// Whether a client, by its number from 1, backed off and the object that it backed off for is free.
    pub fn may_relock(&self, client: u32) -> bool
        requires { IsClient client }
        ensures { (m : Machine) → AreClientsOf m.contexts self.now
            → result ≡ is_free_for m (contended (doing_at m client)) }
    {
        match self.place(client).doing {
            Doing::BackedOff(_, object) => self.table.holder(object).is_none(),
            _ => false,
        }
    }

    /// Begins a context for an idle client, by its number from 1, and gives its ticket, which counts the contexts before.
    /// Fewer than 4294967295 have begun. Want of memory leaves all as it was. (Kernel: `drm_modeset_acquire_init`.)
    pub fn begin(&mut self, alloc: Global, client: u32) -> Result<Ticket, NoMemory>
        requires client { IsClient client }
        requires idle { (place_of self.old client).doing ≡ doing.Idle }
        requires ticket_left { self.old.table.drawn < 4294967295 }
        ensures ticket { IfOk result (λ t. t.0 ≡ self.old.table.drawn) }
        ensures stands { OnOk result ((m : Machine) → AreClientsOf m.contexts self.old
            → AreClientsOf (begun m client).contexts self.new) }
        ensures err { OnErr result (self.new ≡ self.old) }
    {
        let ticket = self.table.begin(alloc, client)?;
        set_doing(&mut self.places, client, Doing::Taking(ticket));
        Ok(ticket)
    }

    /// Asks for an object, a CRTC, a plane or a connector, for a client, by its number from 1, that takes locks. `Got`:
    /// it was free, and the client holds it. `Own`: the client holds it already. `Older`: an older context holds it, and
    /// the client must back off. `Younger`: a younger one holds it. (Kernel: `drm_modeset_lock`.)
    pub fn lock(&mut self, client: u32, id: ObjId) -> Lock
        requires client { IsClient client }
        requires taking { IsTaking (place_of self.old client).doing }
        requires lockable { IsLockable id }
        ensures answer { (m : Machine) → AreClientsOf m.contexts self.old
            → result ≡ lock_answer m client (holder_at m id.0) }
        ensures stands { (m : Machine) → AreClientsOf m.contexts self.old
            → AreClientsOf (after_lock m client id.0 result) self.new }
    {
        let Doing::Taking(ticket) = self.place(client).doing else {
            unreachable!();
        };
        let answer = self.table.lock(ticket, id);
        if let Lock::Older { .. } = answer {
            set_doing(&mut self.places, client, Doing::MustBackOff(ticket, id));
        }
        answer
    }

    /// Frees all locks of a client, by its number from 1, that must back off. (Kernel: `drm_modeset_backoff`.)
    pub fn backoff(&mut self, client: u32)
        requires client { IsClient client }
        requires must { MustBackOff (place_of self.old client).doing }
        ensures { (m : Machine) → AreClientsOf m.contexts self.old
            → AreClientsOf (after_backoff m client) self.new }
    {
        let Doing::MustBackOff(ticket, object) = self.place(client).doing else {
            unreachable!();
        };
        self.table.backoff(ticket);
        set_doing(&mut self.places, client, Doing::BackedOff(ticket, object));
    }

    /// Asks, for a client, by its number from 1, that backed off, for the object that it backed off for. `Got`: it was
    /// free, the client holds it, and takes locks again. `Held`: another context holds it. (Kernel: `drm_modeset_backoff`,
    /// which waits for it.)
    pub fn relock(&mut self, client: u32) -> Relock
        requires client { IsClient client }
        requires off { HasBackedOff (place_of self.old client).doing }
        ensures answer { (m : Machine) → AreClientsOf m.contexts self.old
            → result ≡ relock_answer m (holder_of_contended m (contended (doing_at m client))) }
        ensures stands { (m : Machine) → AreClientsOf m.contexts self.old
            → AreClientsOf (after_relock m client result) self.new }
    {
        let Doing::BackedOff(ticket, _) = self.place(client).doing else {
            unreachable!();
        };
        let answer = self.table.relock(ticket);
        if let Relock::Got = answer {
            set_doing(&mut self.places, client, Doing::Taking(ticket));
        }
        answer
    }

    /// Drops all locks of a client, by its number from 1, that takes locks, whose request is decided. It goes on to its
    /// next command, which has a number of 32 bits. (Kernel: `drm_modeset_drop_locks`, `drm_modeset_acquire_fini`.)
    pub fn decide(&mut self, client: u32)
        requires client { IsClient client }
        requires taking { IsTaking (place_of self.old client).doing }
        requires command { (place_of self.old client).command < 4294967295 }
        ensures { (m : Machine) → AreClientsOf m.contexts self.old
            → AreClientsOf (after_decision m client) self.new }
    {
        let Doing::Taking(ticket) = self.place(client).doing else {
            unreachable!();
        };
        self.table.drop_all(ticket);
        set_next(&mut self.places, client);
    }

    /// Drops all locks of a client, by its number from 1, that takes locks, whose request is committed. It waits for
    /// the commit with a number, counted from 0.
    pub fn wait_for(&mut self, client: u32, commit: u32)
        requires client { IsClient client }
        requires taking { IsTaking (place_of self.old client).doing }
        ensures { (m : Machine) → AreClientsOf m.contexts self.old
            → AreClientsOf (after_swap m client commit) self.new }
    {
        let Doing::Taking(ticket) = self.place(client).doing else {
            unreachable!();
        };
        self.table.drop_all(ticket);
        set_doing(&mut self.places, client, Doing::Returning(commit));
    }

    /// Lets a client, by its number from 1, that has no context go on to its next command, which has a number of 32
    /// bits.
    pub fn go_on(&mut self, client: u32)
        requires client { IsClient client }
        requires no_context { HasNoContext (place_of self.old client).doing }
        requires command { (place_of self.old client).command < 4294967295 }
        ensures { (m : Machine) → AreClientsOf m.contexts self.old
            → AreClientsOf (goes_on m client).contexts self.new }
    {
        set_next(&mut self.places, client);
    }
}

/// The number of the ticket of the context of a client that does this; 0 where it has none.
fn ticket_of(doing: Doing) -> u32
    ensures { result ≡ ticket_of doing }
{
    ticket_in(doing).map_or(0, |t| t.0)
}

/// The ticket of the context of a client that does this, where it has one.
fn ticket_in(doing: Doing) -> Option<Ticket>
    ensures { result ≡ ticket_in doing }
{
    match doing {
        Doing::Idle | Doing::Returning(_) => None,
        Doing::Taking(t) | Doing::MustBackOff(t, _) | Doing::BackedOff(t, _) => Some(t),
    }
}

/// Lets a client do something else where it stands.
fn set_doing(places: &mut [Place], client: u32, doing: Doing)
    requires client { IsClient client }
    requires places { length places.old ≡ 16 }
    ensures { places.new ≡ put_doing places.old client doing }
{
    places[(client - 1) as usize].doing = doing;
}

/// Lets a client be idle at its next command.
fn set_next(places: &mut [Place], client: u32)
    requires client { IsClient client }
    requires places { length places.old ≡ 16 }
    requires command { (place_in places.old client).command < 4294967295 }
    ensures { places.new ≡ put_next places.old client }
{
    let place = &mut places[(client - 1) as usize];
    place.command += 1;
    place.doing = Doing::Idle;
}
