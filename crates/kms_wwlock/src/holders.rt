//! Who holds each object's lock, in the order of the objects' ids.
ghost use Rattle.std.specs.Prelude.{◌≡◌, ◌<◌, map};
ghost use Rattle.kms_wwlock.specs.Objects.{IsLockable, lock_place, locks_before};
ghost use Rattle.kms_wwlock.specs.Calls.{holder_without};

use kms_model::{Kind, MAX_CRTCS, MAX_LOCKABLE, MAX_PLANES, ObjId, Ticket};

/// How many objects can have a lock, a count.
pub const LOCKABLE: usize = MAX_LOCKABLE as usize;

/// How many objects that can have a lock come before those of a kind.
fn locks_before(kind: Kind) -> u32
    ensures { result ≡ locks_before kind }
{
    match kind {
        Kind::Crtc => 0,
        Kind::Plane => MAX_CRTCS,
        Kind::Conn => MAX_CRTCS + MAX_PLANES,
        Kind::Enc => MAX_LOCKABLE,
    }
}

/// The place, an index from 0 to 27, of an object among all that can have a lock.
#[tactic(auto, unfolding(crate::specs::Objects::lock_place))]
pub fn place_of(id: ObjId) -> usize
    requires { IsLockable id }
    ensures place { result ≡ lock_place id }
    ensures within { result < LOCKABLE }
{
    (locks_before(id.kind()) + id.index()) as usize
}

/// Frees all objects that the context of a ticket holds.
pub fn free_all(holders: &mut [Option<Ticket>], t: Ticket)
    ensures { holders.new ≡ map (holder_without t) holders.old }
{
    for holder in holders.iter_mut() {
        *holder = without(*holder, t);
    }
}

/// The holder that an object has once the locks of a ticket are free.
fn without(holder: Option<Ticket>, t: Ticket) -> Option<Ticket>
    ensures { result ≡ holder_without t holder }
{
    holder.filter(|other| *other != t)
}
