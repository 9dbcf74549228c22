//! The script that has both requests behind the commands of its last client.
ghost use Rattle.std.specs.Prelude.{◌≡◌, List, [], ◌∷◌, ◌++◌, IfErr, IfOk, None, OnOk, true};
ghost use Rattle.kms_model.specs.declared.scripts.Command.{Command};
ghost use Rattle.kms_model.specs.declared.scripts.Command.TheVariants.{Atomic};
ghost use Rattle.kms_model.specs.Machine.Histories.{is_drained};
ghost use Rattle.kms_model.specs.Order.Suspending.{closed_object};
ghost use Rattle.kms_model.specs.Script.Longer.{at_last, extended_after, with_commands};
ghost use Rattle.kms_core.specs.Decisions.{world};
ghost use Rattle.kms_core.specs.Run.{machine};
ghost use Rattle.kms_suspend.specs.Parts.{IsRefused};

use crate::requests::{ResumeError, resume, suspend};
use kms_core::Core;
use kms_model::{Command, Duplicate, NoMemory, Request, Script, Seq, Step};
use std::alloc::Global;

/// The longer script of a machine, with the machine's steps: all that is kept of the machine.
#[derive(Drop)]
pub struct Longer {
    pub script: Script,
    pub steps: Seq<Step>,
}

/// Takes the last client's commands out of the clients', where there is one, else none: more of them are the last client's,
/// or a client of their own.
fn take_last(alloc: Global, clients: &mut Vec<Seq<Command>>) -> Seq<Command>
    ensures { (more : List Command)
        → clients.new.items ++ (result ++ more) ∷ [] ≡ at_last more clients.old.items }
{
    match clients.pop() {
        Some(commands) => commands,
        None => Seq::new(alloc),
    }
}

/// The commands of clients with two requests more behind those of the last client, or with a client of these two where there
/// is none.
fn with_both(
    alloc: Global,
    clients: Seq<Seq<Command>>,
    first: Request,
    second: Request,
) -> Result<Seq<Seq<Command>>, NoMemory>
    ensures { IfOk result (λ all.
        all ≡ at_last (Atomic first ∷ Atomic second ∷ []) clients) }
{
    let mut clients = clients.into_vec();
    let mut last = take_last(alloc, &mut clients);
    last.push(Command::Atomic(first))?;
    last.push(Command::Atomic(second))?;
    clients.push(last)?;
    Ok(Seq::from_vec(clients))
}

/// A script with two requests more of its last client, or with a client of these two where it has none.
fn with_requests(
    alloc: Global,
    script: Script,
    first: Request,
    second: Request,
) -> Result<Script, NoMemory>
    ensures { IfOk result (λ longer.
        longer ≡ with_commands (Atomic first ∷ Atomic second ∷ []) script) }
{
    Ok(Script {
        version: script.version,
        topology: script.topology,
        names: script.names,
        clients: with_both(alloc, script.clients, first, second)?,
    })
}

/// A copy of steps.
fn copy_of(alloc: Global, steps: &[Step]) -> Result<Seq<Step>, NoMemory>
    ensures { IfOk result (λ copy. copy ≡ steps.now) }
{
    Ok(Seq::from_vec(Vec::from_slice(alloc, steps)?))
}

/// The script of a machine whose history is drained, with both requests behind it, and a copy of the machine's steps. Both
/// requests are made for the device as it is: the second is made before the first is done. Where what an object shows cannot
/// be named, the object of least id is told.
fn longer_of(alloc: Global, core: &Core) -> Result<Longer, ResumeError>
    requires drained { is_drained core.now.script (machine core.now) ≡ true }
    ensures script { IfOk result (λ longer.
        longer.script ≡ extended_after core.now.script core.now.steps) }
    ensures steps { IfOk result (λ longer. longer.steps ≡ core.now.steps) }
    ensures open { OnOk result
        (closed_object core.now.script.topology (world core.now) ≡ None) }
    ensures refused { IfErr result
        (IsRefused core.now.script.topology (world core.now)) }
{
    let back = resume(alloc, core)?;
    let off = suspend(alloc, core)?;
    let script = core.script().copy(alloc)?;
    Ok(Longer {
        script: with_requests(alloc, script, off, back)?,
        steps: copy_of(alloc, core.history())?,
    })
}

/// Gives a machine up, whose history is drained, and tells what is kept of it. Behind this call nobody has the machine, also
/// where it fails.
pub fn give_up(alloc: Global, core: Core) -> Result<Longer, ResumeError>
    requires drained { is_drained core.script (machine core) ≡ true }
    ensures script { IfOk result (λ longer.
        longer.script ≡ extended_after core.script core.steps) }
    ensures steps { IfOk result (λ longer. longer.steps ≡ core.steps) }
    ensures open { OnOk result (closed_object core.script.topology (world core) ≡ None) }
    ensures refused { IfErr result (IsRefused core.script.topology (world core)) }
{
    longer_of(alloc, &core)
}
