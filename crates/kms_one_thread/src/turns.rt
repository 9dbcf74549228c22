//! The turn of a client in the order of one thread: its steps until its command is answered, then those of the tails of
//! commits, and its way back from a blocking commit that is cleaned. No step takes longer for those that are over.
ghost use Rattle.std.specs.Prelude.{◌≡◌, ◌≤◌, OnOk, length};
ghost use Rattle.kms_model.specs.Order.Turns as order;
ghost use Rattle.kms_one_thread.specs.Rounds.{ExtendsRun, progress};

use kms_core::Core;
use kms_model::{NoMemory, Step};
use std::alloc::Global;

/// The turn of a client, from 1 to their number. One that is at its end does nothing.
pub(crate) fn turn(alloc: Global, core: &mut Core, client: u32) -> Result<(), NoMemory>
    requires low { 1 ≤ client }
    requires high { client ≤ length core.old.script.clients }
    ensures on { ExtendsRun core.old core.new }
    ensures turn { OnOk result (progress core.new
        ≡ order.turn core.old.script (progress core.old) client) }
{
    if core.is_at_end(client) {
        return Ok(());
    }
    go(alloc, core, client)?;
    settle(alloc, core);
    go_back(alloc, core, client)
}

/// The tails of commits settle: their steps are done, the least commit first, as long as one has any or a CRTC goes. They
/// take no memory: the machine has it for them since the commits were made.
pub(crate) fn settle(alloc: Global, core: &mut Core)
    ensures on { ExtendsRun core.old core.new }
    ensures settled { progress core.new ≡ order.settles core.old.script (progress core.old) }
{
    'settling: while let Some(step) = core.tail_step() {
        core.is_a_history();
        let Ok(()) = core.apply(alloc, &step) else {
            unreachable!();
        };
    }
}

/// A client does its steps until its command is answered, or until it can do none.
fn go(alloc: Global, core: &mut Core, client: u32) -> Result<(), NoMemory>
    requires low { 1 ≤ client }
    requires high { client ≤ length core.old.script.clients }
    ensures on { ExtendsRun core.old core.new }
    ensures gone { OnOk result (progress core.new ≡ order.client_goes core.old.script
        (order.most_of_turn core.old.script.topology) client (progress core.old)) }
{
    for _done in 0..most_of_turn(core) {
        let Some(step) = core.client_step(client) else {
            return Ok(());
        };
        core.is_a_history();
        core.apply(alloc, &step)?;
        if is_answering(&step) {
            return Ok(());
        }
    }
    Ok(())
}

/// The most steps of a client in a turn: a begin, a relock, a lock of each object, a backoff and an answer.
fn most_of_turn(core: &Core) -> usize
    ensures { result ≡ order.most_of_turn core.now.script.topology }
{
    core.is_a_history();
    let topology = &core.script().topology;
    topology.crtcs as usize + topology.planes.len() + topology.conns.len() + 4
}

/// Whether a step answers its client's command.
fn is_answering(step: &Step) -> bool
    ensures { result ≡ order.is_answering step.now }
{
    matches!(
        step,
        Step::Refuse { .. }
            | Step::Test { .. }
            | Step::Swap { .. }
            | Step::Make { .. }
            | Step::Signal { .. }
            | Step::Read { .. }
    )
}

/// A client goes on after its blocking commit, where that is cleaned.
fn go_back(alloc: Global, core: &mut Core, client: u32) -> Result<(), NoMemory>
    ensures on { ExtendsRun core.old core.new }
    ensures back { OnOk result (progress core.new
        ≡ order.returns core.old.script client (progress core.old)) }
{
    let step = Step::Return { client };
    if core.legal(&step) {
        core.apply(alloc, &step)?;
    }
    Ok(())
}
