//! Where clients stand, and the locks of their contexts.
ghost use Rattle.kms_wwlock.specs.Objects.{IsLockable};
ghost use Rattle.kms_wwlock.specs.Standing.{IsClient};

use crate::rows::assert_row;
use kms_model::{Doing, NoMemory, ObjId, Place, Ticket};
use kms_samples::{CRTC, PLANE};
use kms_wwlock::{Clients, Lock, Relock};
use std::alloc::Global;
use std::process::Abort;

/// An object that has a lock.
#[derive(Clone, Copy)]
enum Object {
    Crtc,
    Plane,
}

/// What a client asks for, and what it is told. Contexts are given by their tickets.
#[derive(Clone, Copy)]
enum Call {
    Lock(Object, Lock),
    BackOff,
    Relock(Relock),
    /// Its request is decided.
    Decide,
    /// Its request is committed, as a commit with this number.
    WaitFor(u32),
    /// It goes on without a context.
    GoOn,
    /// It holds an object.
    Holds(Object),
    /// Nobody holds it.
    IsFree(Object),
    /// Whether nobody or an older context holds it.
    IsFreeOrOlder(Object, bool),
    /// Whether it backed off, and what it backed off for is free.
    MayRelock(bool),
    /// It has the context of this ticket.
    Has(u32),
    /// Nobody has.
    IsOver(u32),
    /// It is at a command, and does this there.
    IsAt(u32, Doing),
}

/// Client 16 begins a context, and its request is decided.
const ALONE: [(u32, Call); 13] = [
    (16, Call::Lock(Object::Plane, Lock::Got)),
    (16, Call::Lock(Object::Plane, Lock::Own)),
    (16, Call::Holds(Object::Plane)),
    (16, Call::IsFree(Object::Crtc)),
    (16, Call::IsFreeOrOlder(Object::Crtc, true)),
    (16, Call::IsFreeOrOlder(Object::Plane, false)),
    (16, Call::Lock(Object::Crtc, Lock::Got)),
    (16, Call::Has(0)),
    (16, Call::Decide),
    (16, Call::IsAt(2, Doing::Idle)),
    (16, Call::IsOver(0)),
    (1, Call::IsAt(1, Doing::Idle)),
    (16, Call::MayRelock(false)),
];

/// Client 3 goes on without a context.
const WITHOUT: [(u32, Call); 3] = [
    (3, Call::GoOn),
    (3, Call::IsAt(2, Doing::Idle)),
    (4, Call::IsAt(1, Doing::Idle)),
];

const FIRST: Ticket = Ticket(0);

const SECOND: Ticket = Ticket(1);

/// Clients 1 and 2 have begun contexts, in this order: the older one waits, and the younger one backs off.
const MEETING: [(u32, Call); 22] = [
    (1, Call::Has(0)),
    (2, Call::Has(1)),
    (1, Call::Lock(Object::Plane, Lock::Got)),
    (2, Call::Lock(Object::Crtc, Lock::Got)),
    (
        1,
        Call::Lock(Object::Crtc, Lock::Younger { holder: SECOND }),
    ),
    (1, Call::IsFreeOrOlder(Object::Crtc, false)),
    (2, Call::IsFreeOrOlder(Object::Plane, true)),
    (2, Call::Lock(Object::Plane, Lock::Older { holder: FIRST })),
    (2, Call::IsAt(1, Doing::MustBackOff(SECOND, PLANE))),
    (2, Call::BackOff),
    (2, Call::IsFree(Object::Crtc)),
    (1, Call::Lock(Object::Crtc, Lock::Got)),
    (1, Call::Lock(Object::Crtc, Lock::Own)),
    (2, Call::MayRelock(false)),
    (2, Call::Relock(Relock::Held { holder: FIRST })),
    (1, Call::Decide),
    (2, Call::MayRelock(true)),
    (2, Call::Relock(Relock::Got)),
    (2, Call::Holds(Object::Plane)),
    (2, Call::IsFree(Object::Crtc)),
    (2, Call::WaitFor(5)),
    (2, Call::IsAt(1, Doing::Returning(5))),
];

fn id_of(object: Object) -> ObjId
    ensures { IsLockable result }
{
    match object {
        Object::Crtc => CRTC,
        Object::Plane => PLANE,
    }
}

/// Asks for an object for a client that takes locks.
fn locks(clients: &mut Clients, client: u32, object: Object, want: Lock) -> bool
    requires { IsClient client }
{
    let Doing::Taking(_ticket) = clients.place(client).doing else {
        return false;
    };
    clients.lock(client, id_of(object)) == want
}

/// Frees the locks of a client that must back off.
fn backs_off(clients: &mut Clients, client: u32) -> bool
    requires { IsClient client }
{
    let Doing::MustBackOff(_ticket, _object) = clients.place(client).doing else {
        return false;
    };
    clients.backoff(client);
    true
}

/// Asks again for a client that backed off.
fn relocks(clients: &mut Clients, client: u32, want: Relock) -> bool
    requires { IsClient client }
{
    let Doing::BackedOff(_ticket, _object) = clients.place(client).doing else {
        return false;
    };
    clients.relock(client) == want
}

/// Decides the request of a client that takes locks; it is committed where a number is given.
fn is_decided(clients: &mut Clients, client: u32, commit: Option<u32>) -> bool
    requires { IsClient client }
{
    let place = clients.place(client);
    let Doing::Taking(_ticket) = place.doing else {
        return false;
    };
    if place.command == u32::MAX {
        return false;
    }
    match commit {
        Some(commit) => clients.wait_for(client, commit),
        None => clients.decide(client),
    }
    true
}

/// Lets an idle client go on.
fn goes_on(clients: &mut Clients, client: u32) -> bool
    requires { IsClient client }
{
    let place = clients.place(client);
    let Doing::Idle = place.doing else {
        return false;
    };
    if place.command == u32::MAX {
        return false;
    }
    clients.go_on(client);
    true
}

/// Whether clients answer what a row says.
fn tells(clients: &Clients, client: u32, call: Call) -> bool
    requires { IsClient client }
{
    match call {
        Call::Holds(object) => clients.holder(id_of(object)) == Some(client),
        Call::IsFree(object) => clients.holder(id_of(object)).is_none(),
        Call::IsFreeOrOlder(object, want) => {
            clients.is_free_or_older(client, id_of(object)) == want
        }
        Call::MayRelock(want) => clients.may_relock(client) == want,
        Call::Has(ticket) => clients.with_ticket(Ticket(ticket)) == Some(client),
        Call::IsOver(ticket) => clients.with_ticket(Ticket(ticket)).is_none(),
        Call::IsAt(command, doing) => clients.place(client) == Place { command, doing },
        _ => false,
    }
}

/// Makes a call of a client. True where it is told what the row says.
fn answers(clients: &mut Clients, client: u32, call: Call) -> bool
    requires { IsClient client }
{
    match call {
        Call::Lock(object, want) => locks(clients, client, object, want),
        Call::BackOff => backs_off(clients, client),
        Call::Relock(want) => relocks(clients, client, want),
        Call::Decide => is_decided(clients, client, None),
        Call::WaitFor(commit) => is_decided(clients, client, Some(commit)),
        Call::GoOn => goes_on(clients, client),
        other => tells(clients, client, other),
    }
}

/// Makes the calls of a table.
fn follow(rt: &impl Abort, clients: &mut Clients, table: &str, calls: &[(u32, Call)]) {
    for (row, (client, call)) in calls.iter().enumerate() {
        let client = *client;
        let holds = 1 <= client && client <= 16 && answers(clients, client, *call);
        assert_row(rt, holds, table, row);
    }
}

/// Clients of which one has begun a context.
fn with_context(alloc: Global, client: u32) -> Result<Clients, NoMemory>
    requires { IsClient client }
{
    let mut clients = Clients::new(alloc);
    clients.begin(alloc, client)?;
    Ok(clients)
}

/// Clients of which 1 and then 2 have begun a context.
fn with_two_contexts(alloc: Global) -> Result<Clients, NoMemory> {
    let mut clients = Clients::new(alloc);
    clients.begin(alloc, 1)?;
    clients.begin(alloc, 2)?;
    Ok(clients)
}

#[test]
fn a_client_takes_locks_and_goes_on(rt: HostRuntime) -> Result<(), NoMemory> {
    let mut clients = with_context(rt.alloc(), 16)?;
    follow(&rt, &mut clients, "client 16", &ALONE);
    Ok(())
}

#[test]
fn a_client_without_a_context_goes_on(rt: HostRuntime) {
    let mut clients = Clients::new(rt.alloc());
    follow(&rt, &mut clients, "client 3", &WITHOUT);
}

#[test]
fn an_older_context_waits_and_a_younger_one_backs_off(rt: HostRuntime) -> Result<(), NoMemory> {
    let mut clients = with_two_contexts(rt.alloc())?;
    follow(&rt, &mut clients, "clients 1 and 2", &MEETING);
    Ok(())
}
