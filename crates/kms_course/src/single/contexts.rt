//! A client's acquire context, found again from what its client does and from the locks that it holds.
ghost use Rattle.std.specs.Prelude.{◌≡◌, IfOk, IfSome, true, if◌then◌else◌};
ghost use Rattle.std.specs.Bool.{then_some};
ghost use Rattle.kms_course.specs.Taking.{HasTaken, bare_context_at, context_with, may_take_up, taken_up, with_state};

use kms_core::Core;
use kms_model::{Doing, Duplicate, Duplicates, NoMemory, ObjId, Request, Ticket, request_of};
use kms_state::Duplicating;
use std::alloc::Global;

/// A client that takes locks for its request.
#[derive(Drop)]
pub struct RequestContext {
    /// The client, counted from 1.
    pub client: u32,
    /// Its ticket.
    pub ticket: Ticket,
    /// Its request.
    pub request: Request,
    /// The states of objects that it holds.
    pub states: Duplicates,
}

/// The context of a client that takes locks for a request, with no states. None exactly where it takes none.
fn bare_context(core: &Core, alloc: Global, client: u32) -> Result<Option<RequestContext>, NoMemory>
    ensures context { IfOk result (λ found. found ≡ bare_context_at core.now client) }
    ensures taken { IfOk result (λ found. IfSome found (HasTaken core.now)) }
{
    core.is_a_history();
    if client < 1 || client as usize > core.script().clients.len() {
        return Ok(None);
    }
    let place = core.place(client);
    let Doing::Taking(ticket) = place.doing else {
        return Ok(None);
    };
    let Some(request) = request_of(core.script(), client, place.command) else {
        return Ok(None);
    };
    let request = request.copy(alloc)?;
    Ok(Some(RequestContext {
        client,
        ticket,
        request,
        states: Duplicates::empty(),
    }))
}

/// Duplicates the state of an object that a context holds. True exactly where it holds the object, whose state is not
/// duplicated yet; else the context stays as it was.
fn take_up(core: &Core, context: &mut RequestContext, id: ObjId) -> bool
    requires { HasTaken core.now context.old }
    ensures held { result ≡ may_take_up core.now context.old id }
    ensures context { context.new
        ≡ (if result then with_state core.now context.old id else context.old) }
    ensures taken { HasTaken core.now context.new }
{
    let Some(state) = core.held_state(context.client, id) else {
        return false;
    };
    if !context.states.may_duplicate(id, &state) {
        return false;
    }
    context.states.duplicate(id, state);
    true
}

/// Duplicates the states of objects that a context holds, up to the first that it does not hold or that stands twice. True
/// exactly where there is no such object.
fn take_up_all(core: &Core, context: &mut RequestContext, objects: &[ObjId]) -> bool
    requires { HasTaken core.now context.old }
    ensures all { taken_up core.now context.old objects.now ≡ then_some result context.new }
    ensures taken { HasTaken core.now context.new }
{
    for object in objects {
        if !take_up(core, context, *object) {
            return false;
        }
    }
    true
}

/// The context of a client, by its number from 1, that takes locks for a request, with the present states of objects that
/// it holds. None exactly where the client takes none, and where it does not hold one of the objects, or one stands twice.
/// The only error is want of memory.
pub fn context_with(
    core: &Core,
    alloc: Global,
    client: u32,
    objects: &[ObjId],
) -> Result<Option<RequestContext>, NoMemory>
    ensures context { IfOk result (λ found. found ≡ context_with core.now client objects.now) }
    ensures taken { IfOk result (λ found. IfSome found (HasTaken core.now)) }
{
    let Some(mut context) = bare_context(core, alloc, client)? else {
        return Ok(None);
    };
    if !take_up_all(core, &mut context, objects) {
        return Ok(None);
    }
    Ok(Some(context))
}
