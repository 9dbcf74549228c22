//! Rounds, in which each client has its turn, until one has no step.
ghost use Rattle.std.specs.Prelude.{◌≡◌, ◌<◌, IfOk, OnOk, false, not, true};
ghost use Rattle.kms_model.specs.Order.Rounds as order;
ghost use Rattle.kms_laws.specs.Ends.{EndsOver};
ghost use Rattle.kms_one_thread.specs.Rounds.{ExtendsRun, moves_left, progress};

use crate::turns::{settle, turn};
use kms_core::Core;
use kms_model::{NoMemory, Step};
use std::alloc::Global;

/// Continues a history to its end, in the order in which one thread does the steps of all actors: in rounds until one has
/// no step, and by `stall` where it is dead then. In a round each client, in order of number, does its steps until its
/// command is answered or it can do none, then the tails of commits do theirs, and the client goes on after a commit
/// that it waited for; after the last client the tails do theirs once more. So the history is drained or dead, and one
/// that starts empty is the one history that one thread makes of the script. The only error is want of memory: the
/// history has then become a longer one, or stayed. A round costs no more than its steps and its clients.
pub fn finish(alloc: Global, core: &mut Core) -> Result<(), NoMemory>
    ensures on { ExtendsRun core.old core.new }
    ensures finished { OnOk result
        (order.IsFinished core.old.script core.old.steps core.new.steps) }
    ensures over { OnOk result (EndsOver core.old.script core.old.steps core.new.steps) }
{
    core.is_a_history();
    kms_laws::rounds_end();
    kms_laws::finished_histories_are_over();
    'rounds: while round(alloc, core)? {}
    end(core)
}

/// A round. Tells whether it had a step.
fn round(alloc: Global, core: &mut Core) -> Result<bool, NoMemory>
    ensures on { ExtendsRun core.old core.new }
    ensures round { OnOk result (progress core.new
        ≡ order.round core.old.script (progress core.old)) }
    ensures moved { IfOk result (λ moved. moved
        ≡ not (order.is_still core.old.script (progress core.old))) }
    ensures stays { IfOk result (λ moved. moved ≡ false → core.new ≡ core.old) }
    ensures less { IfOk result (λ moved. moved ≡ true
        → moves_left core.new < moves_left core.old) }
{
    core.is_a_history();
    let before = core.history().len();
    for client in 0..core.script().clients.len() as u32 {
        turn(alloc, core, client + 1)?;
    }
    settle(alloc, core);
    Ok(core.history().len() != before)
}

/// Ends a history that is dead.
fn end(core: &mut Core) -> Result<(), NoMemory>
    ensures on { ExtendsRun core.old core.new }
    ensures ended { OnOk result (progress core.new
        ≡ order.ends core.old.script (progress core.old)) }
{
    if core.legal(&Step::Stall) {
        core.stall()?;
    }
    Ok(())
}
