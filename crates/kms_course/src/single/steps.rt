//! Steps done by the single calls: each is one call of a client, a worker or a CRTC. Locks and decisions stand elsewhere.
ghost use Rattle.std.specs.Prelude.{◌≡◌, ◌&&◌, ◌∷◌, [], IfOk, true, if◌then◌else◌};
ghost use Rattle.kms_model.specs.declared.replies.Step.TheVariants as step;
ghost use Rattle.kms_model.specs.Machine.Histories.{legal};
ghost use Rattle.kms_core.specs.Next.{IsLegal, is_of_worker};
ghost use Rattle.kms_core.specs.Run.{gains, if_ok, machine};
ghost use Rattle.kms_course.specs.Calls.{is_single};

use kms_core::Core;
use kms_model::{Doing, NoMemory, ObjId, Step};
use std::alloc::Global;

/// Does a step by its call. True exactly where it is legal, and is none of a context's locks and decision and no claim: a claim
/// finds its commit itself. Want of memory leaves all as it was.
pub fn call_step(core: &mut Core, alloc: Global, step: &Step) -> Result<bool, NoMemory>
    ensures done { IfOk result (λ done.
        done ≡ (is_single step.now && legal core.old.script (machine core.old) step.now)) }
    ensures history { core.new ≡ gains core.old
        (if_ok result (λ done. if done then step.now ∷ [] else [])) }
{
    if !is_single(step) || !core.legal(step) {
        return Ok(false);
    }
    make_call(core, alloc, step)?;
    Ok(true)
}

/// Whether a call does a step by itself.
fn is_single(step: &Step) -> bool
    ensures { result ≡ is_single step.now }
{
    !matches!(
        step,
        Step::Lock { .. }
            | Step::Relock { .. }
            | Step::Refuse { .. }
            | Step::Test { .. }
            | Step::Swap { .. }
            | Step::Claim { .. }
    )
}

/// Makes the call of a step.
fn make_call(core: &mut Core, alloc: Global, step: &Step) -> Result<(), NoMemory>
    requires single { is_single step.now ≡ true }
    requires legal { IsLegal core.old step.now }
    ensures { core.new ≡ gains core.old (if_ok result (λ u. step.now ∷ [])) }
{
    core.is_a_history();
    match *step {
        Step::Begin { client } => {
            let _ticket = core.begin(alloc, client)?;
            Ok(())
        }
        Step::Make { client } => {
            let _reply = core.make(alloc, client)?;
            Ok(())
        }
        Step::Signal { client } => {
            let _reply = core.signal(client)?;
            Ok(())
        }
        Step::Read { client } => {
            let _reply = core.read(client)?;
            Ok(())
        }
        Step::Return { client } => {
            let _over = core.return_from(client)?;
            Ok(())
        }
        Step::Vblank { index, .. } => {
            let _went = core.vblank(index)?;
            Ok(())
        }
        Step::BackOff { client } => back_off(core, client),
        Step::Stall => core.stall(),
        _ => {
            make_call_of_worker(core, step);
            Ok(())
        }
    }
}

/// Drops the locks of a client that must back off.
fn back_off(core: &mut Core, client: u32) -> Result<(), NoMemory>
    requires { IsLegal core.old (step.BackOff client) }
    ensures { core.new ≡ gains core.old (if_ok result (λ u. step.BackOff client ∷ [])) }
{
    match core.doing(client) {
        Doing::MustBackOff(ticket, _object) => core.backoff(ticket),
        _ => unreachable!(),
    }
}

/// Makes the call of a worker's step, which takes no memory.
fn make_call_of_worker(core: &mut Core, step: &Step)
    requires worker { is_of_worker step.now ≡ true }
    requires single { is_single step.now ≡ true }
    requires legal { IsLegal core.old step.now }
    ensures { core.new ≡ gains core.old (step.now ∷ []) }
{
    core.is_a_history();
    match *step {
        Step::Write {
            commit,
            kind,
            index,
        } => core.write(commit, ObjId::of(kind, index)),
        Step::Flush { commit, index, .. } => core.flush(commit, index),
        Step::HwDone { commit } => core.hw_done(commit),
        Step::Cleanup { commit } => {
            let _over = core.cleanup(commit);
        }
        _ => unreachable!(),
    }
}
