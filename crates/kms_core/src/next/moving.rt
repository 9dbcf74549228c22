//! Whether a history goes on: whether a client, the tail of a commit or a CRTC that goes has a step.
ghost use Rattle.std.specs.Prelude.{◌≡◌, ◌≤◌, ◌||◌};
ghost use Rattle.std.specs.List.{flat_map, list_any};
ghost use Rattle.kms_model.specs.declared.objects.Kind.TheVariants.{Crtc};
ghost use Rattle.kms_model.specs.declared.replies.Step.TheVariants as step;
ghost use Rattle.kms_model.specs.Device.Objects.{count_of};
ghost use Rattle.kms_model.specs.Machine.Histories.{client_numbers, commit_numbers, steps_of_client, steps_of_commit, steps_with_go};
ghost use Rattle.kms_model.specs.Machine.Steps.{may};
ghost use Rattle.kms_core.specs.Next.{client_moves, context_steps, decision_steps, flushes_some, locks_one, locks_some, moves, other_steps, tail_moves, writes_some};
ghost use Rattle.kms_core.specs.Run.{machine};

use crate::machine::Core;
use crate::next::client_steps::{
    may_back_off, may_begin, may_make, may_read, may_relock, may_return, may_signal,
};
use crate::next::judging::{may_lock, may_refuse, may_swap, may_test};
use crate::next::tail_steps::{may_be_done, may_claim, may_clean_up, may_flush, may_write};
use kms_model::Kind;
use kms_request::count_of;

/// Whether a step is legal, while the history goes on, other than `stall` and a vblank of a CRTC that does not
/// go.
pub(crate) fn can_move(core: &Core) -> bool
    ensures { result ≡ moves core.now.script (machine core.now) }
{
    has_client_step(core) || has_tail_step(core) || has_any_go(core)
}

/// Whether a client has a step.
fn has_client_step(core: &Core) -> bool
    ensures { result ≡ list_any (may core.now.script (machine core.now))
        (flat_map (steps_of_client core.now.script.topology) (client_numbers core.now.script)) }
{
    let stores = &*core.stores;
    for client in 0..stores.script.clients.len() as u32 {
        if client_moves(core, client + 1) {
            return true;
        }
    }
    false
}

/// Whether a client has a step.
fn client_moves(core: &Core, client: u32) -> bool
    ensures { result ≡ client_moves core.now.script (machine core.now) client }
{
    enters(core, client) || decides(core, client) || goes_on(core, client) || locks(core, client)
}

/// Whether a client may begin a context, drop its locks, or take the object that it backed off for.
fn enters(core: &Core, client: u32) -> bool
    ensures { result ≡ list_any (may core.now.script (machine core.now))
        (context_steps client) }
{
    may_begin(core, client) || may_back_off(core, client) || may_relock(core, client)
}

/// Whether the request of a client may be decided.
fn decides(core: &Core, client: u32) -> bool
    ensures { result ≡ list_any (may core.now.script (machine core.now))
        (decision_steps client) }
{
    may_refuse(core, client) || may_test(core, client) || may_swap(core, client)
}

/// Whether a client without a context may go on to its next command.
fn goes_on(core: &Core, client: u32) -> bool
    ensures { result ≡ list_any (may core.now.script (machine core.now))
        (other_steps client) }
{
    may_make(core, client)
        || may_signal(core, client)
        || may_read(core, client)
        || may_return(core, client)
}

/// Whether a client may ask for some object.
fn locks(core: &Core, client: u32) -> bool
    ensures { result ≡ locks_one core.now.script (machine core.now) client }
{
    locks_any(core, client, Kind::Crtc)
        || locks_any(core, client, Kind::Plane)
        || locks_any(core, client, Kind::Conn)
}

/// Whether a client may ask for an object of a kind.
fn locks_any(core: &Core, client: u32, kind: Kind) -> bool
    ensures { result ≡ locks_some core.now.script (machine core.now) client kind }
{
    (0..objects(core, kind)).any(|index| may_lock(core, client, kind, index))
}

/// How many objects of a kind the device has.
pub(crate) fn objects(core: &Core, kind: Kind) -> u32
    ensures number { result ≡ count_of core.now.script.topology kind }
    ensures few { result ≤ 16 }
{
    let stores = &*core.stores;
    count_of(&stores.script.topology, kind) as u32
}

/// Whether the tail of a commit has a step. Those that are cleaned have none.
fn has_tail_step(core: &Core) -> bool
    ensures { result ≡ list_any (may core.now.script (machine core.now))
        (flat_map (steps_of_commit core.now.script.topology)
        (commit_numbers (machine core.now))) }
{
    let stores = &*core.stores;
    let mut from = 0;
    'seeking: while let Some(commit) = stores.tracker.first_from(from) {
        if tail_moves(core, commit) {
            return true;
        }
        from = commit + 1;
    }
    false
}

/// Whether the tail of a commit has a step.
fn tail_moves(core: &Core, commit: u32) -> bool
    ensures { result ≡ tail_moves core.now.script (machine core.now) commit }
{
    may_claim(core, commit)
        || writes_any(core, commit, Kind::Crtc)
        || writes_any(core, commit, Kind::Plane)
        || flushes_any(core, commit)
        || ends(core, commit)
}

/// Whether a commit may write an object of a kind.
fn writes_any(core: &Core, commit: u32, kind: Kind) -> bool
    ensures { result ≡ writes_some core.now.script (machine core.now) commit kind }
{
    (0..objects(core, kind)).any(|index| may_write(core, commit, kind, index))
}

/// Whether a commit may flush a CRTC.
fn flushes_any(core: &Core, commit: u32) -> bool
    ensures { result ≡ flushes_some core.now.script (machine core.now) commit }
{
    (0..objects(core, Kind::Crtc)).any(|index| may_flush(core, commit, Kind::Crtc, index))
}

/// Whether a commit may tell the end of its writing, or be cleaned up.
fn ends(core: &Core, commit: u32) -> bool
    ensures { result ≡ (may core.now.script (machine core.now) (step.HwDone commit)
        || may core.now.script (machine core.now) (step.Cleanup commit)) }
{
    may_be_done(core, commit) || may_clean_up(core, commit)
}

/// Whether a CRTC goes.
fn has_any_go(core: &Core) -> bool
    ensures { result ≡ list_any (may core.now.script (machine core.now))
        (steps_with_go core.now.script.topology (machine core.now)) }
{
    let stores = &*core.stores;
    for crtc in 0..stores.script.topology.crtcs {
        if core.has_go(crtc) {
            return true;
        }
    }
    false
}
