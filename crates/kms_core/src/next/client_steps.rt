//! Which steps of clients are legal while the history goes on, but for locks and decisions on requests.
ghost use Rattle.std.specs.Prelude.{◌≡◌, ◌≤◌, ◌==◌, ◌||◌, false, length, nat_lt, true};
ghost use Rattle.kms_model.specs.declared.replies.Step.TheVariants as step;
ghost use Rattle.kms_model.specs.Machine.State.{reserved_at, unread_at};
ghost use Rattle.kms_model.specs.Machine.Steps.{is_atomic, is_making, is_signal, is_wait, may};
ghost use Rattle.kms_core.specs.Next.{IsOutside};
ghost use Rattle.kms_core.specs.Run.{machine};

use crate::machine::Core;
use crate::stores::next_reply;
use kms_model::{Command, Doing};

/// Whether the script has a client with a number: they have those from 1 on.
pub fn has_client(core: &Core, client: u32) -> bool
    ensures yes { result ≡ true → (1 ≤ client) × (client ≤ length core.now.script.clients) }
    ensures no { result ≡ false → IsOutside core.now.script client }
{
    client != 0 && client as usize <= core.script().clients.len()
}

/// Whether a client, by its number from 1, may begin an acquire context: it is idle at an atomic request.
pub(crate) fn may_begin(core: &Core, client: u32) -> bool
    ensures { result ≡ may core.now.script (machine core.now) (step.Begin client) }
{
    match core.idle_command(client) {
        Some(command) => is_atomic(command),
        None => false,
    }
}

/// Whether a client, by its number from 1, must drop its locks.
pub(crate) fn may_back_off(core: &Core, client: u32) -> bool
    ensures { result ≡ may core.now.script (machine core.now) (step.BackOff client) }
{
    matches!(core.doing(client), Doing::MustBackOff(..))
}

/// Whether a client, by its number from 1, backed off, and the object that it backed off for is free.
pub(crate) fn may_relock(core: &Core, client: u32) -> bool
    ensures { result ≡ may core.now.script (machine core.now) (step.Relock client) }
{
    let stores = &*core.stores;
    has_client(core, client) && stores.clients.may_relock(client)
}

/// Whether a client, by its number from 1, is idle at a command that makes or closes a thing.
pub(crate) fn may_make(core: &Core, client: u32) -> bool
    ensures { result ≡ may core.now.script (machine core.now) (step.Make client) }
{
    match core.idle_command(client) {
        Some(command) => is_making(command),
        None => false,
    }
}

/// Whether a client, by its number from 1, is idle at a `signal`.
pub(crate) fn may_signal(core: &Core, client: u32) -> bool
    ensures { result ≡ may core.now.script (machine core.now) (step.Signal client) }
{
    match core.idle_command(client) {
        Some(command) => is_signal(command),
        None => false,
    }
}

/// Whether a client, by its number from 1, is idle at a `wait` that is answered: an event is unread, or none is
/// reserved.
pub(crate) fn may_read(core: &Core, client: u32) -> bool
    ensures { result ≡ may core.now.script (machine core.now) (step.Read client) }
{
    match core.idle_command(client) {
        Some(command) => is_wait(command) && is_answered(core, client),
        None => false,
    }
}

/// Whether a `wait` of a client, from 1 to their number, is answered: an event is unread, or none is reserved.
fn is_answered(core: &Core, client: u32) -> bool
    requires low { 1 ≤ client }
    requires high { client ≤ length core.now.script.clients }
    ensures { result ≡ (nat_lt 0 (length (unread_at (machine core.now).events client))
        || (reserved_at (machine core.now).events client == 0)) }
{
    let stores = &*core.stores;
    next_reply(&stores.queues[(client - 1) as usize]).is_some()
}

/// Whether the commit that a client, by its number from 1, waits for is cleaned.
pub(crate) fn may_return(core: &Core, client: u32) -> bool
    ensures { result ≡ may core.now.script (machine core.now) (step.Return client) }
{
    let stores = &*core.stores;
    match core.doing(client) {
        Doing::Returning(commit) => stores.tracker.is_cleaned(commit),
        _ => false,
    }
}

/// Whether a command is an atomic request.
fn is_atomic(command: &Command) -> bool
    ensures { result ≡ is_atomic command.now }
{
    matches!(command, Command::Atomic(_))
}

/// Whether a command is a `signal`.
fn is_signal(command: &Command) -> bool
    ensures { result ≡ is_signal command.now }
{
    matches!(command, Command::Signal { .. })
}

/// Whether a command is a `wait`.
fn is_wait(command: &Command) -> bool
    ensures { result ≡ is_wait command.now }
{
    matches!(command, Command::Wait)
}

/// Whether a command makes or closes a thing.
fn is_making(command: &Command) -> bool
    ensures { result ≡ is_making command.now }
{
    !is_atomic(command) && !is_signal(command) && !is_wait(command)
}
