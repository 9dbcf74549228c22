//! What a request that is decided rests on: the client of a ticket, and what labels name now.
ghost use Rattle.std.specs.Prelude.{◌≡◌, ◌<◌, ◌↔◌, IfOk, IsTrue};
ghost use Rattle.kms_model.specs.Device.World.{thing_labelled};
ghost use Rattle.kms_model.specs.Request.Lookups.{look_of};
ghost use Rattle.kms_core.specs.declared.stores.looking.Decided.TheVariants as decided;
ghost use Rattle.kms_core.specs.Decisions.{IsFirstStale, labels_of, looks_at, taker_at, taker_in};
ghost use Rattle.kms_wwlock.specs.Standing.{doing_in};

use kms_model::{Assign, Doing, Look, Lookups, MAX_CLIENTS, NoMemory, ObjId, Reply, Ticket, Value};
use kms_things::Things;
use kms_wwlock::Clients;
use std::alloc::Global;

/// What a call that decides about a request answers.
#[derive(Clone, Copy, PartialEq, Eq)]
pub enum Decided {
    /// The request is decided.
    Done {
        /// The reply: tested, or the commit's number, or a refusal.
        reply: Reply,
    },
    /// An accepted request is refused: there is no space for its events, or it does not wait and is busy.
    Refused {
        /// The reply: the space that is used, or the object and the commit that it is busy for.
        reply: Reply,
    },
    /// A commit has to wait for one before it on a CRTC. Nothing changed.
    NotYet {
        /// The CRTC.
        object: ObjId,
        /// The number of the commit before, counted from 0.
        commit: u32,
    },
    /// A label of the request names something else than it did. Nothing changed.
    Again {
        /// The label, by its number from 0.
        label: u32,
        /// What it named.
        was: Look,
        /// What it names now.
        now: Look,
    },
}

/// A label that names something else than it did.
#[derive(Clone, Copy)]
pub struct Stale {
    /// The label, by its number from 0.
    pub label: u32,
    /// What it named.
    pub was: Look,
    /// What it names now.
    pub now: Look,
}

impl Stale {
    /// What is answered where it is the first.
    pub fn again(self) -> Decided
        ensures { result ≡ decided.Again self.label self.was self.now }
    {
        Decided::Again {
            label: self.label,
            was: self.was,
            now: self.now,
        }
    }
}

/// For each label that assignments name, what it names among things. The only error is want of memory.
pub fn look_ups(alloc: Global, things: &Things, assigns: &[Assign]) -> Result<Lookups, NoMemory>
    ensures { IfOk result (λ found. found ≡ looks_at things.now.things (labels_of assigns.now)) }
{
    let mut found = Lookups::new(alloc);
    for a in assigns {
        let Value::Named(label) = a.value else {
            continue;
        };
        found.push((label, things.look(label)))?;
    }
    Ok(found)
}

/// Whether two look-ups tell the same.
fn is_same(was: &Look, now: &Look) -> bool
    ensures { IsTrue result ↔ (was.now ≡ now.now) }
{
    *was == *now
}

/// The first look-up that does not tell what its label names among things.
pub fn first_stale(things: &Things, used: &Lookups) -> Option<Stale>
    ensures { IsFirstStale (λ label. look_of (thing_labelled things.now.things label)) used.now
        result }
{
    for (label, was) in used.as_slice() {
        let now = things.look(*label);
        if !is_same(was, &now) {
            return Some(Stale {
                label: *label,
                was: *was,
                now,
            });
        }
    }
    None
}

/// The client at an index, from 0 to 15, where its context has a ticket and takes locks.
fn taker_at(clients: &Clients, t: Ticket, index: u32) -> Option<u32>
    requires { index < 16 }
    ensures { result ≡ taker_at (doing_in clients.now.places) t.0 index }
{
    match clients.place(index + 1).doing {
        Doing::Taking(ticket) if ticket.0 == t.0 => Some(index + 1),
        _ => None,
    }
}

/// The client, by its number from 1, whose context has a ticket and takes locks; 0 where there is none.
pub fn taker(clients: &Clients, t: Ticket) -> u32
    ensures { result ≡ taker_in (doing_in clients.now.places) t.0 }
{
    for index in 0..MAX_CLIENTS {
        if let Some(client) = taker_at(clients, t, index) {
            return client;
        }
    }
    0
}
