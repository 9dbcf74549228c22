//! The next move of a client that takes locks for a request. (Kernel: `drm_mode_atomic_ioctl`, "KMS Locking".)
ghost use Rattle.std.specs.Prelude.{IfOk, List, ℕ};
ghost use Rattle.kms_model.specs.declared.objects.Topology.{Topology};
ghost use Rattle.kms_model.specs.declared.scripts.Request.{Request};
ghost use Rattle.kms_model.specs.declared.sets.Resolved.{Resolved};
ghost use Rattle.kms_model.specs.declared.worlds.Look.{Look};
ghost use Rattle.kms_model.specs.Device.Sound.{IsDevice};
ghost use Rattle.kms_model.specs.Request.Deciding.{AreFresh, AreOfSoundWorld, IsAskedFor};
ghost use Rattle.kms_model.specs.Request.Resolves.{IsResolved};
ghost use Rattle.kms_model.specs.Request.Sets.{look_in};
ghost use Rattle.kms_check.specs.Moves.{IsMove, IsRefused};

use crate::checking::{Refused, check};
use crate::lacking::have_places;
use crate::least::least_of;
use kms_model::{
    Checked, Duplicates, Lookups, NoMemory, ObjId, Refusal, Request, Resolved, Topology,
};
use kms_request::{RequestError, resolve};
use kms_track::object_at_place;
use std::alloc::Global;
use std::boxed::Box;

/// What a client that takes locks for a request does next.
#[derive(Drop)]
pub enum Move {
    /// The request is refused, with an early or a late refusal.
    Refuse(Refusal),
    /// This object is to be locked, and its state duplicated.
    Lock(ObjId),
    /// The request is accepted: what was checked of it, in a box since it takes a few kilobytes, and what it asks for.
    Accept(Box<Checked>, Resolved),
}

/// What a client that takes locks for a request does next.
///
/// `looks` has what each label of the request named at some time, and `states` has the states of the objects that the
/// client locked for the request, which are those of a device that holds what is accepted; each new state is the old
/// one. The request is refused by itself, with an early refusal, or by the state after it, with a late
/// one; it is accepted; or the least object is locked of the first group of objects that is not duplicated whole. It is
/// refused by the state after it, and accepted, only where all that it touches is duplicated. The only error is want of
/// memory.
pub fn next_move(
    alloc: Global,
    topology: &Topology,
    request: &Request,
    looks: &Lookups,
    states: &Duplicates,
) -> Result<Move, NoMemory>
    requires device { IsDevice topology.now }
    requires held { AreOfSoundWorld topology.now states.now }
    requires fresh { AreFresh states.now }
    ensures { IfOk result (IsMove topology.now request.now looks.now states.now) }
{
    match resolve(alloc, topology, request, looks) {
        Ok(resolved) => move_of_resolved(alloc, topology, states, resolved),
        Err(RequestError::Of(why)) => Ok(Move::Refuse(why)),
        Err(RequestError::NoMemory) => Err(NoMemory),
    }
}

/// The next move for a request that is resolved.
fn move_of_resolved(
    alloc: Global,
    topology: &Topology,
    states: &Duplicates,
    resolved: Resolved,
) -> Result<Move, NoMemory>
    requires device { IsDevice topology.now }
    requires asked { IsAskedFor topology.now resolved }
    requires held { AreOfSoundWorld topology.now states.now }
    requires fresh { AreFresh states.now }
    ensures { IfOk result (λ next. (r : Request) (used : List (ℕ × Look))
        → IsResolved topology.now (look_in used) r resolved
        → IsMove topology.now r used states.now next) }
{
    have_places(*states);
    match check(topology, states, &resolved) {
        Ok(checked) => {
            let boxed = Box::new(alloc, checked)?;
            Ok(Move::Accept(boxed, resolved))
        }
        Err(refused) => Ok(move_of_refused(states, refused)),
    }
}

/// The next move for a request that a check over these states does not accept.
fn move_of_refused(states: &Duplicates, refused: Refused) -> Move
    ensures { (t : Topology) (r : Request) (used : List (ℕ × Look)) (resolved : Resolved)
        → IsResolved t (look_in used) r resolved → IsRefused t r resolved states.now refused
        → IsMove t r used states.now result }
{
    have_places(*states);
    match refused {
        Refused::Of(why) => Move::Refuse(why),
        Refused::MoreLocks { locks } => match least_of(&locks) {
            Some(id) => Move::Lock(id),
            // In each world that the request and the states are of the set has an object; where there is no such world,
            // any object will do.
            None => Move::Lock(object_at_place(0)),
        },
    }
}
