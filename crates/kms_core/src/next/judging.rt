//! Which steps of a client that takes locks may follow. None of these calls takes memory.
ghost use Rattle.std.specs.Prelude.{◌≡◌, ◌<◌, ◌&&◌, ◌||◌, IfOk, None, Some, option_copied, true};
ghost use Rattle.kms_model.specs.declared.replies.Step.TheVariants as step;
ghost use Rattle.kms_model.specs.Machine.Effects.{refusal_reply};
ghost use Rattle.kms_model.specs.Machine.State.{Machine};
ghost use Rattle.kms_model.specs.Machine.Steps.{is_lockable, may};
ghost use Rattle.kms_model.specs.Request.Flags.{is_test};
ghost use Rattle.kms_model.specs.Request.Deciding.{IsChecked};
ghost use Rattle.kms_model.specs.Request.Lookups.{look_up};
ghost use Rattle.kms_model.specs.Request.Resolves.{IsResolved};
ghost use Rattle.kms_model.specs.Request.Verdict.{early_in, verdict};
ghost use Rattle.kms_wwlock.specs.InStep.{AreClientsOf};
ghost use Rattle.kms_request.specs.Whole.{is_member};
ghost use Rattle.kms_track.specs.Places.{all_below};
ghost use Rattle.kms_core.specs.Decisions.{world};
ghost use Rattle.kms_track.specs.InStep.{HasStates};
ghost use Rattle.kms_core.specs.Judging.{IsJudged, request_taken};
ghost use Rattle.kms_core.specs.Decisions.{held_at};
ghost use Rattle.kms_core.specs.Run.{machine};

use crate::machine::Core;
use crate::next::has_client;
use crate::next::judgement::Judged;
use crate::next::lookers::{Ever, Now};
use crate::stores::late_reply;
use kms_model::{
    Checked, Command, Doing, Kind, MAX_LOCKABLE, Mask, NoMemory, ObjId, Reply, Request, Resolved,
    Topology, command_of, has_bit,
};
use kms_props::is_test;
use kms_request::{RequestError, changed, early, exists, full_check, reach, resolve, spans};
use kms_state::InPlace;
use kms_track::{has_object, object_at_place};
use kms_wwlock::Clients;
use std::alloc::Global;

/// Whether a client, by its number from 1, may ask for the object of a kind with an index: it takes locks for a request
/// that reaches the object, which is free, or which an older context holds. Any numbers may be asked for. (Kernel: "KMS
/// Locking", `drm_modeset_lock`.)
pub(crate) fn may_lock(core: &Core, client: u32, kind: Kind, index: u32) -> bool
    ensures { result ≡ may core.now.script (machine core.now) (step.Lock client kind index) }
{
    let stores = &*core.stores;
    let Some(request) = request_taken(core, client) else {
        return false;
    };
    let topology = &stores.script.topology;
    if !is_lockable(topology, kind, index) {
        return false;
    }
    let reached = reach(
        topology,
        request,
        &Ever(&stores.things),
        &stores.present,
        &InPlace,
    );
    is_member(&reached, kind, index)
        && stores
            .clients
            .is_free_or_older(client, ObjId::of(kind, index))
}

/// Whether the request of a client, by its number from 1, that takes locks may be refused: an early refusal is
/// due; or the client holds what the request touches, and a late refusal is due, or it is no test, and there
/// is no space for its events or it is busy. Any number may be asked for. (Kernel: `drm_atomic_check_only`,
/// `drm_event_reserve_init`, `drm_atomic_helper_setup_commit`.)
pub(crate) fn may_refuse(core: &Core, client: u32) -> bool
    ensures { result ≡ may core.now.script (machine core.now) (step.Refuse client) }
{
    let Some(request) = request_taken(core, client) else {
        return false;
    };
    match judge(core, client, request) {
        None => true,
        Some(judged) => judged.is_refused(is_test(request.flags)),
    }
}

/// Whether the request of a client, by its number from 1, that takes locks may be told to be accepted: it is a test,
/// the client holds what it touches, and no early or late refusal is due. Any number may be asked for. (Kernel:
/// `drm_mode_atomic_ioctl`, `DRM_MODE_ATOMIC_TEST_ONLY`.)
pub(crate) fn may_test(core: &Core, client: u32) -> bool
    ensures { result ≡ may core.now.script (machine core.now) (step.Test client) }
{
    let Some(request) = request_taken(core, client) else {
        return false;
    };
    match judge(core, client, request) {
        None => false,
        Some(judged) => judged.is_accepted(is_test(request.flags)),
    }
}

/// Whether the request of a client, by its number from 1, that takes locks may be committed: it is no test, the client
/// holds what it touches, no early or late refusal is due, there is space for its events, it is not busy, and its
/// commit waits for no other. Any number may be asked for. (Kernel: `drm_atomic_helper_commit`,
/// `drm_atomic_helper_swap_state`.)
pub(crate) fn may_swap(core: &Core, client: u32) -> bool
    ensures { result ≡ may core.now.script (machine core.now) (step.Swap client) }
{
    let Some(request) = request_taken(core, client) else {
        return false;
    };
    match judge(core, client, request) {
        None => false,
        Some(judged) => judged.is_committed(is_test(request.flags)),
    }
}

/// Judges the request for which a client, by its number from 1, takes locks; none where an early refusal is due.
pub(crate) fn judge(core: &Core, client: u32, request: &Request) -> Option<Judged>
    requires { Some request.now ≡ request_taken core.now.script (machine core.now) client }
    ensures { IsJudged core.now.script.topology (machine core.now) client request.now result }
{
    let stores = &*core.stores;
    let topology = &stores.script.topology;
    let found = Now(&stores.things);
    if early(topology, request, &found).is_some() {
        return None;
    }
    let after = changed(topology, request, &found, &stores.present, &InPlace);
    let (named, touched) = spans(&after, request);
    let queue = &stores.queues[(client - 1) as usize];
    Some(Judged {
        holds: holds_all(&stores.clients, client, &touched),
        late: full_check(topology, &after, request),
        hindered: late_reply(queue, &stores.tracker, named, &touched, request.flags),
        ready: stores.tracker.not_yet(named).is_none(),
    })
}

/// The reply that refuses the request for which a client, by its number from 1, takes locks, where it may be refused.
pub fn refusal_reply(core: &Core, client: u32, request: &Request) -> Reply
    requires taken { Some request.now
        ≡ request_taken core.now.script (machine core.now) client }
    requires refused { may core.now.script (machine core.now) (step.Refuse client) ≡ true }
    ensures { result
        ≡ refusal_reply core.now.script.topology (machine core.now) client request.now
        (verdict core.now.script.topology (machine core.now).device.world request.now) }
{
    let stores = &*core.stores;
    if let Some(why) = early(&stores.script.topology, request, &Now(&stores.things)) {
        return Reply::Refused(why);
    }
    let Some(judged) = judge(core, client, request) else {
        unreachable!();
    };
    match (judged.late, judged.hindered) {
        (Some(why), _) => Reply::Refused(why),
        (None, Some(reply)) => reply,
        (None, None) => unreachable!(),
    }
}

/// Checks a request for which no early or late refusal is due: the states of all objects before it and after it, and
/// what it names and touches.
pub fn check_request(core: &Core, request: &Request) -> Checked
    requires { early_in core.now.script.topology (world core.now) request.now ≡ None }
    ensures checked { IsChecked core.now.script.topology (world core.now) request.now result }
    ensures states { HasStates result }
{
    let stores = &*core.stores;
    let states = changed(
        &stores.script.topology,
        request,
        &Now(&stores.things),
        &stores.present,
        &InPlace,
    );
    let (named, touched) = spans(&states, request);
    Checked {
        states,
        named,
        touched,
    }
}

/// Resolves what such a request asks for.
pub fn resolve_request(core: &Core, alloc: Global, request: &Request) -> Result<Resolved, NoMemory>
    requires { early_in core.now.script.topology (world core.now) request.now ≡ None }
    ensures { IfOk result
        (IsResolved core.now.script.topology (look_up (world core.now)) request.now) }
{
    core.is_a_history();
    let found = core.lookups(alloc, request)?;
    match resolve(alloc, &core.script().topology, request, &found) {
        Ok(resolved) => Ok(resolved),
        Err(RequestError::NoMemory) => Err(NoMemory),
        Err(RequestError::Of(_why)) => unreachable!(),
    }
}

/// The request for which a client, by its number from 1, takes locks; none where it takes none.
pub fn request_taken(core: &Core, client: u32) -> Option<&Request>
    ensures { option_copied result ≡ request_taken core.now.script (machine core.now) client }
{
    let stores = &*core.stores;
    if !has_client(core, client) {
        return None;
    }
    let place = stores.clients.place(client);
    let Doing::Taking(_ticket) = place.doing else {
        return None;
    };
    match command_of(&stores.script, client, place.command) {
        Some(Command::Atomic(request)) => Some(request),
        _ => None,
    }
}

/// Whether a client's context holds each object of a set.
fn holds_all(clients: &Clients, client: u32, objects: &Mask) -> bool
    ensures { (m : Machine) → AreClientsOf m.contexts clients.now
        → result ≡ all_below (held_at m client objects.now) 28 }
{
    let mut held = true;
    for place in 0..MAX_LOCKABLE {
        held = held && holds_at(clients, client, objects, place);
    }
    held
}

/// Whether a client's context holds the object at a place, from 0 to 27, where the object is in a set.
fn holds_at(clients: &Clients, client: u32, objects: &Mask, place: u32) -> bool
    requires { place < 28 }
    ensures { (m : Machine) → AreClientsOf m.contexts clients.now
        → result ≡ held_at m client objects.now place }
{
    !has_object(objects, place) || clients.holder(object_at_place(place)) == Some(client)
}

/// Whether the object of a kind with an index has a lock: it is on the device, and is no encoder.
fn is_lockable(topology: &Topology, kind: Kind, index: u32) -> bool
    ensures { result ≡ is_lockable topology.now kind index }
{
    kind != Kind::Enc && exists(topology, kind, index)
}

/// Whether an object is in a set; no encoder is.
pub(crate) fn is_member(objects: &Mask, kind: Kind, index: u32) -> bool
    ensures { result ≡ is_member objects.now kind index }
{
    match kind {
        Kind::Crtc => has_bit(objects.crtcs, index),
        Kind::Plane => has_bit(objects.planes, index),
        Kind::Conn => has_bit(objects.conns, index),
        Kind::Enc => false,
    }
}
