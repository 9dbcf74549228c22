//! Steps that are done where they are legal, and questions on clients and CRTCs that may not be there.
ghost use Rattle.std.specs.Prelude.{◌≡◌, ◌≤◌, [], ◌∷◌, ◌&&◌, IfOk, IfSome, IsSome, is_some, length, nat_lt, if◌then◌else◌};
ghost use Rattle.kms_model.specs.declared.objects.Kind.TheVariants.{Crtc};
ghost use Rattle.kms_model.specs.Device.Objects.{object_id};
ghost use Rattle.kms_model.specs.Machine.Histories.{legal};
ghost use Rattle.kms_model.specs.Machine.State.{go_at, place_at};
ghost use Rattle.kms_model.specs.Order.Turns.{client_step};
ghost use Rattle.kms_core.specs.Run.{gains, if_ok, machine};

use kms_core::Core;
use kms_model::{NoMemory, Place, Step};
use std::alloc::Global;

/// Does a step where it is legal, and tells whether it is. Want of memory leaves all as it was.
pub fn do_step(core: &mut Core, alloc: Global, step: &Step) -> Result<bool, NoMemory>
    ensures legal { IfOk result (λ done. done ≡ legal core.old.script (machine core.old) step.now) }
    ensures history { core.new ≡ gains core.old
        (if_ok result (λ done. if done then step.now ∷ [] else [])) }
{
    if !core.legal(step) {
        return Ok(false);
    }
    core.apply(alloc, step)?;
    Ok(true)
}

/// Where a client, by its number from 1, stands, if the script has it.
pub fn place_of(core: &Core, client: u32) -> Option<Place>
    ensures there { 1 ≤ client → client ≤ length core.now.script.clients → IsSome result }
    ensures place { IfSome result (λ place. place ≡ place_at (machine core.now) client) }
{
    if client == 0 || client as usize > core.script().clients.len() {
        return None;
    }
    Some(core.place(client))
}

/// What is next for a client, by its number from 1, in the order of one thread. None for one that the script does not have.
pub fn next_of(core: &Core, client: u32) -> Option<Step>
    ensures { 1 ≤ client → client ≤ length core.now.script.clients
        → result ≡ client_step core.now.script (machine core.now) client }
{
    if client == 0 || client as usize > core.script().clients.len() {
        return None;
    }
    core.client_step(client)
}

/// Whether one of the first four CRTCs, by its index, latches at its next vblank. Others do not.
pub fn goes(core: &Core, crtc: u32) -> bool
    ensures { result ≡ (nat_lt crtc 4
        && is_some (go_at (machine core.now).device (object_id Crtc crtc))) }
{
    crtc < 4 && core.has_go(crtc)
}
