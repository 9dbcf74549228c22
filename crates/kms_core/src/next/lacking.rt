//! The lock that a client takes next for its request. None of these calls takes memory.
ghost use Rattle.std.specs.Prelude.{◌≡◌, ◌<◌, ◌≢◌, IfSome, Some, None, find, true};
ghost use Rattle.std.specs.List.{range_with_len};
ghost use Rattle.std.specs.Option.{option_map};
ghost use Rattle.kms_model.specs.declared.objects.Kind.TheVariants.{Enc};
ghost use Rattle.kms_model.specs.Device.Objects.{count_of, object_id};
ghost use Rattle.kms_model.specs.Machine.Commits.{lockable};
ghost use Rattle.kms_model.specs.Machine.State.{Machine, holds};
ghost use Rattle.kms_model.specs.Machine.Steps.{is_lockable, may_lock};
ghost use Rattle.kms_model.specs.Order.Turns.{lock_step, next_lock};
ghost use Rattle.kms_model.specs.Request.Verdict.{early_in};
ghost use Rattle.kms_wwlock.specs.InStep.{AreClientsOf};
ghost use Rattle.kms_wwlock.specs.Objects.{IsLockable};
ghost use Rattle.kms_core.specs.Decisions.{world};
ghost use Rattle.kms_core.specs.Judging.{request_taken};
ghost use Rattle.kms_core.specs.Order.{NeedsLocks, first_lacked, is_missing, is_open, lacks, lacks_some};
ghost use Rattle.kms_core.specs.Run.{machine};

use crate::machine::Core;
use crate::next::groups::{Group, Needs};
use crate::next::judging::{check_request, is_member};
use crate::next::moving::objects;
use kms_model::{Kind, ObjId, Request, Step};
use kms_request::{affected, only_crtcs};
use kms_wwlock::Clients;

/// The lock that a client, by its number from 1, takes next for a request.
pub(crate) fn lock_step(core: &Core, client: u32, request: &Request) -> Option<Step>
    requires taken { Some request.now
        ≡ request_taken core.now.script (machine core.now) client }
    requires none { early_in core.now.script.topology (world core.now) request.now ≡ None }
    ensures { result ≡ option_map (lock_step client)
        (next_lock core.now.script (machine core.now) client request.now) }
{
    core.is_a_history();
    let checked = check_request(core, request);
    let needs = Needs {
        request,
        named: only_crtcs(checked.named),
        affected: affected(&checked.states, checked.named),
        touched: checked.touched,
    };
    let id = next_lock(core, client, &needs)?;
    Some(Step::Lock {
        client,
        kind: id.kind(),
        index: id.index(),
    })
}

/// The object that a client asks for next: one that it lacks, or else the first that it may ask for.
fn next_lock(core: &Core, client: u32, needs: &Needs) -> Option<ObjId>
    requires { NeedsLocks core.now client needs.now }
    ensures { option_map (λ id. id.0) result
        ≡ next_lock core.now.script (machine core.now) client needs.now.request.now }
{
    let group = first_lacked(core, client, needs);
    match first_open(core, client, needs, group) {
        Some(id) => Some(id),
        None => first_open(core, client, needs, Group::Any),
    }
}

/// The first group that a client does not hold whole; the last one where it holds the first two.
fn first_lacked(core: &Core, client: u32, needs: &Needs) -> Group
    requires { NeedsLocks core.now client needs.now }
    ensures { result ≡ first_lacked core.now.script.topology (machine core.now) client
        needs.now.request.now }
{
    if lacks(core, client, needs, Group::Set) {
        Group::Set
    } else if lacks(core, client, needs, Group::Named) {
        Group::Named
    } else {
        Group::Affected
    }
}

/// Whether a client does not hold some object of a group.
fn lacks(core: &Core, client: u32, needs: &Needs, group: Group) -> bool
    requires { NeedsLocks core.now client needs.now }
    ensures { result ≡ lacks core.now.script.topology (machine core.now) client
        needs.now.request.now group }
{
    lacks_kind(core, client, needs, group, Kind::Crtc)
        || lacks_kind(core, client, needs, group, Kind::Plane)
        || lacks_kind(core, client, needs, group, Kind::Conn)
}

/// Whether a client does not hold some object of a kind in a group.
fn lacks_kind(core: &Core, client: u32, needs: &Needs, group: Group, kind: Kind) -> bool
    requires needs { NeedsLocks core.now client needs.now }
    requires kind { kind ≢ Enc }
    ensures { result ≡ lacks_some core.now.script.topology (machine core.now) client
        needs.now.request.now group kind }
{
    (0..objects(core, kind)).any(|index| is_missing(core, client, needs, group, kind, index))
}

/// The first object of a group that a client does not hold and may ask for.
fn first_open(core: &Core, client: u32, needs: &Needs, group: Group) -> Option<ObjId>
    requires { NeedsLocks core.now client needs.now }
    ensures { option_map (λ id. id.0) result ≡ find (is_open core.now.script (machine core.now)
        client needs.now.request.now group) (lockable core.now.script.topology) }
{
    if let Some(index) = first_of_kind(core, client, needs, group, Kind::Crtc) {
        return Some(ObjId::of(Kind::Crtc, index));
    }
    if let Some(index) = first_of_kind(core, client, needs, group, Kind::Plane) {
        return Some(ObjId::of(Kind::Plane, index));
    }
    let index = first_of_kind(core, client, needs, group, Kind::Conn)?;
    Some(ObjId::of(Kind::Conn, index))
}

/// The index of the first such object of a kind.
fn first_of_kind(core: &Core, client: u32, needs: &Needs, group: Group, kind: Kind) -> Option<u32>
    requires needs { NeedsLocks core.now client needs.now }
    requires kind { kind ≢ Enc }
    ensures first { result ≡ find (λ index. is_open core.now.script (machine core.now) client
        needs.now.request.now group (object_id kind index))
        (range_with_len 0 (count_of core.now.script.topology kind)) }
    ensures few { IfSome result (λ index. index < 16) }
{
    (0..objects(core, kind)).find(|index| is_open(core, client, needs, group, kind, *index))
}

/// Whether an object of the device is in a group, and a client does not hold it.
fn is_missing(core: &Core, client: u32, needs: &Needs, group: Group, kind: Kind, index: u32) -> bool
    requires needs { NeedsLocks core.now client needs.now }
    requires lockable { is_lockable core.now.script.topology kind index ≡ true }
    ensures { result ≡ is_missing core.now.script.topology (machine core.now) client
        needs.now.request.now group (object_id kind index) }
{
    let stores = &*core.stores;
    needs.has(group, kind, index) && !holds(&stores.clients, client, ObjId::of(kind, index))
}

/// Whether a client may moreover ask for it.
fn is_open(core: &Core, client: u32, needs: &Needs, group: Group, kind: Kind, index: u32) -> bool
    requires needs { NeedsLocks core.now client needs.now }
    requires lockable { is_lockable core.now.script.topology kind index ≡ true }
    ensures { result ≡ is_open core.now.script (machine core.now) client
        needs.now.request.now group (object_id kind index) }
{
    is_missing(core, client, needs, group, kind, index)
        && is_allowed(core, client, needs, kind, index)
}

/// Whether a client may ask for an object of the device: its request touches it, and it is free, or an older context
/// holds it.
fn is_allowed(core: &Core, client: u32, needs: &Needs, kind: Kind, index: u32) -> bool
    requires needs { NeedsLocks core.now client needs.now }
    requires lockable { is_lockable core.now.script.topology kind index ≡ true }
    ensures { result
        ≡ may_lock core.now.script (machine core.now) client (object_id kind index) }
{
    let stores = &*core.stores;
    is_member(&needs.touched, kind, index)
        && stores
            .clients
            .is_free_or_older(client, ObjId::of(kind, index))
}

/// Whether a client's context holds an object, a CRTC, a plane or a connector.
fn holds(clients: &Clients, client: u32, id: ObjId) -> bool
    requires { IsLockable id }
    ensures { (m : Machine) → AreClientsOf m.contexts clients.now → result ≡ holds m client id.0 }
{
    clients.holder(id) == Some(client)
}
