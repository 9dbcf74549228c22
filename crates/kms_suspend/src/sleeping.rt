//! A machine whose device is turned off and brought back.
ghost use Rattle.std.specs.Prelude.{◌≡◌, [], IfErr, IfOk, OnOk, true};
ghost use Rattle.kms_model.specs.Machine.Histories.{is_history};
ghost use Rattle.kms_model.specs.Order.Rounds.{IsFinished};
ghost use Rattle.kms_model.specs.Script.WellFormed.{IsWellFormed};
ghost use Rattle.kms_core.specs.Decisions.{world};
ghost use Rattle.kms_suspend.specs.Parts.{IsRefused};
ghost use Rattle.kms_suspend.specs.Sleeping.{HasWoken, MaySleep};

use crate::laws::{devices_sleep_and_wake, longer_scripts_are_well_formed};
use crate::longer::{Longer, give_up};
use crate::requests::ResumeError;
use kms_core::Core;
use kms_model::{NoMemory, Step};
use kms_one_thread::{ReplayError, finish, replay};
use std::alloc::Global;

/// Does the steps of a history on a machine before its first step, and goes on behind them to the end.
fn go_on(alloc: Global, core: &mut Core, steps: &[Step]) -> Result<(), NoMemory>
    requires start { core.old.steps ≡ [] }
    requires history { is_history core.old.script steps.now ≡ true }
    ensures script { core.new.script ≡ core.old.script }
    ensures finished { OnOk result (IsFinished core.old.script steps.now core.new.steps) }
{
    match replay(alloc, core, steps) {
        Ok(()) => finish(alloc, core),
        Err(ReplayError::NoMemory) => Err(NoMemory),
        Err(ReplayError::Illegal { .. }) => unreachable!(),
    }
}

/// The machine of a longer script behind a history of it, gone on with to the end.
fn wake(alloc: Global, longer: Longer) -> Result<Core, NoMemory>
    requires formed { IsWellFormed longer.script }
    requires history { is_history longer.script longer.steps ≡ true }
    ensures script { IfOk result (λ core. core.script ≡ longer.script) }
    ensures finished { IfOk result (λ core.
        IsFinished longer.script longer.steps core.steps) }
{
    let mut core = Core::new(alloc, longer.script)?;
    go_on(alloc, &mut core, longer.steps.as_slice())?;
    Ok(core)
}

/// Turns the device of a machine off behind its history, which is that of one thread and is drained, and brings it back: its
/// script gets two commands more of its last client, or of a client that is added where there is none, and the history goes
/// on with them to its end. What the device shows is as before. Where the framebuffer of a plane is closed, or no open blob
/// holds the mode of a CRTC, nothing is done but that the machine is given up, and the object of least id is told.
///
/// The old machine is given up before the new one is made, so there is one at a time, and its steps are done once more: this
/// costs as much as the history did.
pub fn sleep_and_wake(alloc: Global, core: Core) -> Result<Core, ResumeError>
    requires { MaySleep core }
    ensures woken { IfOk result (HasWoken core) }
    ensures refused { IfErr result (IsRefused core.script.topology (world core)) }
{
    core.is_a_history();
    let longer = give_up(alloc, core)?;
    longer_scripts_are_well_formed();
    kms_laws::histories_stay();
    devices_sleep_and_wake();
    Ok(wake(alloc, longer)?)
}
