//! Schedules, replayed.
ghost use Rattle.std.specs.Prelude.{◌≡◌, None, OnErr, OnOk, IfErr};
ghost use Rattle.kms_core.specs.Run.{Run, gains};
ghost use Rattle.kms_one_thread.specs.Replays.{Stops, illegal_behind};

use kms_core::Core;
use kms_model::{NoMemory, Step};
use std::alloc::Global;

/// Why a schedule is not replayed.
#[derive(Clone, Copy, PartialEq, Eq)]
pub enum ReplayError {
    /// A step is not legal after those before it: the first such, by its place in the schedule, counted from 1.
    Illegal { at: u64 },
    /// Memory ran out.
    NoMemory,
}

impl From<NoMemory> for ReplayError {
    ghost use Rattle.std.specs.Prelude.{◌≡◌};
    ghost use Rattle.kms_one_thread.specs.declared.replaying.ReplayError.TheVariants as error;

    ghost from_gives = { λ _ e. e ≡ error.NoMemory };

    fn from(_e: NoMemory) -> ReplayError {
        ReplayError::NoMemory
    }
}

/// Does the steps of a schedule, one after the other, behind the history so far. The first that is not legal after those
/// before it is refused by its place, and they are done. Where memory ran out, some steps from the schedule's front are
/// done. Costs one step after the other, none more for those that are over.
pub fn replay(alloc: Global, core: &mut Core, steps: &[Step]) -> Result<(), ReplayError>
    ensures history { OnOk result (core.new ≡ gains core.old steps.now) }
    ensures legal { OnOk result (illegal_behind core.old steps.now ≡ None) }
    ensures stops { IfErr result (λ e. Stops core.old steps.now core.new e) }
{
    let mut at: u64 = 0;
    for step in steps {
        at += 1;
        if !core.legal(step) {
            return Err(ReplayError::Illegal { at });
        }
        core.apply(alloc, step)?;
    }
    Ok(())
}
