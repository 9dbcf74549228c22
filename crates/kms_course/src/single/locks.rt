//! Locks by their single calls, each made once it is found out that it may be made.
ghost use Rattle.std.specs.Prelude.{◌≡◌, IfOk};
ghost use Rattle.std.specs.Bool.{then_some};
ghost use Rattle.kms_core.specs.Locks.{locked_answer, relock_steps, relocked_answer};
ghost use Rattle.kms_core.specs.Run.{gains, if_ok};
ghost use Rattle.kms_course.specs.Calls.{asked_steps, may_ask, may_ask_again, steps_if};

use kms_core::{Core, Locked};
use kms_model::{Doing, FIRST_CRTC_ID, NoMemory, ObjId, Step};

/// Whether a client that takes locks may ask for an object, and it is free or an older context holds it.
fn may_ask(core: &Core, client: u32, id: ObjId) -> bool
    ensures { result ≡ may_ask core.now client id }
{
    let step = Step::Lock {
        client,
        kind: id.kind(),
        index: id.index(),
    };
    id.0 >= FIRST_CRTC_ID && core.legal(&step)
}

/// Asks for an object for a client, by its number from 1, that takes locks. None exactly where it may not ask for it, and
/// where a younger context or the client itself holds it: each answer is a step. Want of memory leaves all as it was.
pub fn call_lock(core: &mut Core, client: u32, id: ObjId) -> Result<Option<Locked>, NoMemory>
    ensures answer { IfOk result (λ answer.
        answer ≡ then_some (may_ask core.old client id) (locked_answer core.old client id)) }
    ensures history { core.new ≡ gains core.old
        (if_ok result (λ answer. asked_steps core.old client id)) }
{
    core.is_a_history();
    if !may_ask(core, client, id) {
        return Ok(None);
    }
    let Doing::Taking(ticket) = core.doing(client) else {
        unreachable!();
    };
    Ok(Some(core.lock(ticket, id)?))
}

/// Asks again for the object that a client, by its number from 1, backed off for. None exactly where it did not back off,
/// and after the end of the history. Want of memory leaves all as it was.
pub fn call_relock(core: &mut Core, client: u32) -> Result<Option<Locked>, NoMemory>
    ensures answer { IfOk result (λ answer.
        answer ≡ then_some (may_ask_again core.old client) (relocked_answer core.old client)) }
    ensures history { core.new ≡ gains core.old
        (if_ok result (steps_if (relock_steps client))) }
{
    if core.is_stalled() {
        return Ok(None);
    }
    let Doing::BackedOff(ticket, _object) = core.doing(client) else {
        return Ok(None);
    };
    Ok(Some(core.relock(ticket)?))
}
