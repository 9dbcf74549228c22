//! Steps that are legal are done.
ghost use Rattle.std.specs.Prelude.{ℕ, ◌≡◌, ◌∷◌, [], IsOk, Some, true};
ghost use Rattle.kms_laws.specs.TailsLeft.{commit_of_step};
ghost use Rattle.kms_model.specs.declared.replies.Step.TheVariants as step;
ghost use Rattle.kms_core.specs.Next.{IsLegal, is_of_worker};
ghost use Rattle.kms_core.specs.Run.{gains, if_ok, machine};

use crate::deciding::{commit, decide};
use crate::machine::Core;
use crate::next::{check_request, refusal_reply, request_taken, resolve_request};
use crate::tails::claim_commit;
use kms_model::{Doing, Kind, NoMemory, ObjId, Reply, Step};
use std::alloc::Global;

impl Core {
    /// Does a step that is legal next, as `legal` tells. A request is decided by the plain check of the whole device. Want of
    /// memory leaves all as it was. A step of a commit's tail takes none: a claim, a write, a flush, a commit that is done or
    /// cleaned up, and the vblank of a CRTC that goes.
    pub fn apply(&mut self, alloc: Global, step: &Step) -> Result<(), NoMemory>
        requires { IsLegal self.old step.now }
        ensures history { self.new ≡ gains self.old (if_ok result (λ u. step.now ∷ [])) }
        ensures no_memory { (k : ℕ) → commit_of_step (machine self.old) step.now ≡ Some k
            → IsOk result }
    {
        match *step {
            Step::Begin { client } => do_begin(self, alloc, client),
            Step::Lock {
                client,
                kind,
                index,
            } => do_lock(self, client, kind, index),
            Step::BackOff { client } => do_back_off(self, client),
            Step::Relock { client } => do_relock(self, client),
            Step::Refuse { client } => do_refuse(self, client),
            Step::Test { client } => do_test(self, client),
            Step::Swap { client } => do_swap(self, alloc, client),
            Step::Make { client } => do_make(self, alloc, client),
            Step::Signal { client } => do_signal(self, client),
            Step::Claim { .. }
            | Step::Write { .. }
            | Step::Flush { .. }
            | Step::HwDone { .. }
            | Step::Cleanup { .. } => {
                do_of_tail(self, step);
                Ok(())
            }
            Step::Vblank { kind, index } => do_vblank(self, kind, index),
            Step::Read { client } => do_read(self, client),
            Step::Return { client } => do_return(self, client),
            Step::Stall => self.stall(),
        }
    }
}

/// Does a step of a worker, which takes no memory.
fn do_of_tail(core: &mut Core, step: &Step)
    requires legal { IsLegal core.old step.now }
    requires worker { is_of_worker step.now ≡ true }
    ensures history { core.new ≡ gains core.old (step.now ∷ []) }
{
    match *step {
        Step::Claim { commit } => claim_commit(&mut core.stores, commit),
        Step::Write {
            commit,
            kind,
            index,
        } => do_write(core, commit, kind, index),
        Step::Flush {
            commit,
            kind,
            index,
        } => do_flush(core, commit, kind, index),
        Step::HwDone { commit } => core.hw_done(commit),
        Step::Cleanup { commit } => do_cleanup(core, commit),
        _ => unreachable!(),
    }
}

/// Begins the context of a client.
fn do_begin(core: &mut Core, alloc: Global, client: u32) -> Result<(), NoMemory>
    requires { IsLegal core.old (step.Begin client) }
    ensures history { core.new ≡ gains core.old (if_ok result (λ u. step.Begin client ∷ [])) }
{
    let _ticket = core.begin(alloc, client)?;
    Ok(())
}

/// Asks for an object for a client that takes locks: it is free, or an older context holds it.
fn do_lock(core: &mut Core, client: u32, kind: Kind, index: u32) -> Result<(), NoMemory>
    requires { IsLegal core.old (step.Lock client kind index) }
    ensures history { core.new
        ≡ gains core.old (if_ok result (λ u. step.Lock client kind index ∷ [])) }
{
    core.is_a_history();
    let Doing::Taking(ticket) = core.doing(client) else {
        unreachable!();
    };
    let _answer = core.lock(ticket, ObjId::of(kind, index))?;
    Ok(())
}

/// Drops the locks of a client that must back off.
fn do_back_off(core: &mut Core, client: u32) -> Result<(), NoMemory>
    requires { IsLegal core.old (step.BackOff client) }
    ensures history { core.new ≡ gains core.old (if_ok result (λ u. step.BackOff client ∷ [])) }
{
    let Doing::MustBackOff(ticket, _object) = core.doing(client) else {
        unreachable!();
    };
    core.backoff(ticket)
}

/// Takes the object that a client backed off for, which is free.
fn do_relock(core: &mut Core, client: u32) -> Result<(), NoMemory>
    requires { IsLegal core.old (step.Relock client) }
    ensures history { core.new ≡ gains core.old (if_ok result (λ u. step.Relock client ∷ [])) }
{
    let Doing::BackedOff(ticket, _object) = core.doing(client) else {
        unreachable!();
    };
    let _answer = core.relock(ticket)?;
    Ok(())
}

/// Refuses the request for which a client takes locks.
fn do_refuse(core: &mut Core, client: u32) -> Result<(), NoMemory>
    requires { IsLegal core.old (step.Refuse client) }
    ensures history { core.new ≡ gains core.old (if_ok result (λ u. step.Refuse client ∷ [])) }
{
    core.is_a_history();
    let Some(request) = request_taken(core, client) else {
        unreachable!();
    };
    let reply = refusal_reply(core, client, request);
    decide(&mut core.stores, client, Step::Refuse { client }, reply)
}

/// Tells that the request for which a client takes locks is accepted.
fn do_test(core: &mut Core, client: u32) -> Result<(), NoMemory>
    requires { IsLegal core.old (step.Test client) }
    ensures history { core.new ≡ gains core.old (if_ok result (λ u. step.Test client ∷ [])) }
{
    core.is_a_history();
    decide(
        &mut core.stores,
        client,
        Step::Test { client },
        Reply::Tested,
    )
}

/// Commits the request for which a client takes locks.
fn do_swap(core: &mut Core, alloc: Global, client: u32) -> Result<(), NoMemory>
    requires { IsLegal core.old (step.Swap client) }
    ensures history { core.new ≡ gains core.old (if_ok result (λ u. step.Swap client ∷ [])) }
{
    core.is_a_history();
    let Some(request) = request_taken(core, client) else {
        unreachable!();
    };
    let checked = check_request(core, request);
    let resolved = resolve_request(core, alloc, request)?;
    let _commit = commit(&mut core.stores, alloc, client, &checked, &resolved)?;
    Ok(())
}

/// Makes or closes a thing for a client.
fn do_make(core: &mut Core, alloc: Global, client: u32) -> Result<(), NoMemory>
    requires { IsLegal core.old (step.Make client) }
    ensures history { core.new ≡ gains core.old (if_ok result (λ u. step.Make client ∷ [])) }
{
    let _reply = core.make(alloc, client)?;
    Ok(())
}

/// Signals a fence for a client.
fn do_signal(core: &mut Core, client: u32) -> Result<(), NoMemory>
    requires { IsLegal core.old (step.Signal client) }
    ensures history { core.new ≡ gains core.old (if_ok result (λ u. step.Signal client ∷ [])) }
{
    let _reply = core.signal(client)?;
    Ok(())
}

/// Writes the registers of the object that a commit writes next.
fn do_write(core: &mut Core, commit: u32, kind: Kind, index: u32)
    requires { IsLegal core.old (step.Write commit kind index) }
    ensures history { core.new ≡ gains core.old (step.Write commit kind index ∷ []) }
{
    core.is_a_history();
    core.write(commit, ObjId::of(kind, index));
}

/// Flushes the CRTC that a commit flushes next.
fn do_flush(core: &mut Core, commit: u32, kind: Kind, index: u32)
    requires { IsLegal core.old (step.Flush commit kind index) }
    ensures history { core.new ≡ gains core.old (step.Flush commit kind index ∷ []) }
{
    core.is_a_history();
    let Kind::Crtc = kind else {
        unreachable!();
    };
    core.flush(commit, index);
}

/// A CRTC that goes or is on has a vblank.
fn do_vblank(core: &mut Core, kind: Kind, index: u32) -> Result<(), NoMemory>
    requires { IsLegal core.old (step.Vblank kind index) }
    ensures history { core.new
        ≡ gains core.old (if_ok result (λ u. step.Vblank kind index ∷ [])) }
    ensures no_memory { (k : ℕ)
        → commit_of_step (machine core.old) (step.Vblank kind index) ≡ Some k
        → IsOk result }
{
    let Kind::Crtc = kind else {
        unreachable!();
    };
    let _went = core.vblank(index)?;
    Ok(())
}

/// Cleans a commit up, which is done and has latched.
fn do_cleanup(core: &mut Core, commit: u32)
    requires { IsLegal core.old (step.Cleanup commit) }
    ensures history { core.new ≡ gains core.old (step.Cleanup commit ∷ []) }
{
    core.is_a_history();
    let _over = core.cleanup(commit);
}

/// Answers the `wait` of a client.
fn do_read(core: &mut Core, client: u32) -> Result<(), NoMemory>
    requires { IsLegal core.old (step.Read client) }
    ensures history { core.new ≡ gains core.old (if_ok result (λ u. step.Read client ∷ [])) }
{
    let _reply = core.read(client)?;
    Ok(())
}

/// Lets a client go on whose commit is cleaned.
fn do_return(core: &mut Core, client: u32) -> Result<(), NoMemory>
    requires { IsLegal core.old (step.Return client) }
    ensures history { core.new ≡ gains core.old (if_ok result (λ u. step.Return client ∷ [])) }
{
    core.is_a_history();
    let _over = core.return_from(client)?;
    Ok(())
}
