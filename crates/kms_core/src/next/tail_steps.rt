//! Which steps of tails, and which vblanks, are legal while the history goes on.
ghost use Rattle.std.specs.Prelude.{◌≡◌, ◌<◌, ◌||◌, is_some};
ghost use Rattle.std.specs.Option.{option_map};
ghost use Rattle.kms_model.specs.declared.objects.Kind.TheVariants.{Crtc};
ghost use Rattle.kms_model.specs.declared.replies.Step.TheVariants as step;
ghost use Rattle.kms_model.specs.Device.Objects.{object_id};
ghost use Rattle.kms_model.specs.Machine.Registers.{is_on_in};
ghost use Rattle.kms_model.specs.Machine.State.{go_at, has_value};
ghost use Rattle.kms_model.specs.Machine.Steps.{is_crtc_of, may};
ghost use Rattle.kms_track.specs.Tails.{next_flush_of};
ghost use Rattle.kms_core.specs.Next.{ends_next, flushes_next, is_over_tail, writes_next};
ghost use Rattle.kms_core.specs.Run.{machine};

use crate::machine::Core;
use kms_model::{Kind, ObjId, Topology};
use kms_request::exists;
use kms_track::Tail;

/// Whether the tail of a commit, by its number from 0, may begin: it is not claimed, the fences that it waits for are
/// signalled, and the commit before it on each object that it touches is done and has flipped there.
pub(crate) fn may_claim(core: &Core, commit: u32) -> bool
    ensures { result ≡ may core.now.script (machine core.now) (step.Claim commit) }
{
    let stores = &*core.stores;
    stores.tracker.ready(commit, &stores.fences)
}

/// Whether the object is the CRTC or the plane that a claimed commit, by its number from 0, writes next.
pub(crate) fn may_write(core: &Core, commit: u32, kind: Kind, index: u32) -> bool
    ensures { result ≡ may core.now.script (machine core.now) (step.Write commit kind index) }
{
    let stores = &*core.stores;
    match stores.tracker.get(commit) {
        Some(tail) => writes_next(tail, &stores.script.topology, kind, index),
        None => false,
    }
}

/// Whether the object is the CRTC that a commit, by its number from 0, which has written all its registers, flushes
/// next.
pub(crate) fn may_flush(core: &Core, commit: u32, kind: Kind, index: u32) -> bool
    ensures { result ≡ may core.now.script (machine core.now) (step.Flush commit kind index) }
{
    let stores = &*core.stores;
    match stores.tracker.get(commit) {
        Some(tail) => flushes_next(tail, &stores.script.topology, kind, index),
        None => false,
    }
}

/// Whether a claimed commit, by its number from 0, has written and flushed all its registers, and this was not told.
pub(crate) fn may_be_done(core: &Core, commit: u32) -> bool
    ensures { result ≡ may core.now.script (machine core.now) (step.HwDone commit) }
{
    let stores = &*core.stores;
    match stores.tracker.get(commit) {
        Some(tail) => ends_next(tail),
        None => false,
    }
}

/// Whether a commit, by its number from 0, is done, has latched at each CRTC that it names, and is not cleaned.
pub(crate) fn may_clean_up(core: &Core, commit: u32) -> bool
    ensures { result ≡ may core.now.script (machine core.now) (step.Cleanup commit) }
{
    let stores = &*core.stores;
    match stores.tracker.get(commit) {
        Some(tail) => is_over_tail(tail),
        None => false,
    }
}

/// Whether the object is a CRTC of the device that goes, or that is on in its live registers.
pub(crate) fn may_blank(core: &Core, kind: Kind, index: u32) -> bool
    ensures { result ≡ may core.now.script (machine core.now) (step.Vblank kind index) }
{
    let stores = &*core.stores;
    is_crtc_of(&stores.script.topology, kind, index) && is_running(core, index)
}

/// Whether the CRTC with an index, from 0 to 3, goes, or is on in its live registers.
fn is_running(core: &Core, crtc: u32) -> bool
    requires { crtc < 4 }
    ensures { result ≡ (is_some (go_at (machine core.now).device (object_id Crtc crtc))
        || is_on_in (machine core.now).device.live (object_id Crtc crtc)) }
{
    let stores = &*core.stores;
    core.has_go(crtc) || stores.registers.is_on(crtc)
}

/// Whether the object of a kind with an index is a CRTC of a device.
fn is_crtc_of(topology: &Topology, kind: Kind, index: u32) -> bool
    ensures { result ≡ is_crtc_of topology.now kind index }
{
    match kind {
        Kind::Crtc => exists(topology, kind, index),
        Kind::Plane | Kind::Conn | Kind::Enc => false,
    }
}

/// Whether the object of a kind with an index is on a device, and is the one that a claimed commit writes next.
fn writes_next(tail: &Tail, topology: &Topology, kind: Kind, index: u32) -> bool
    ensures { result ≡ writes_next topology.now tail.now kind index }
{
    tail.progress.claimed && exists(topology, kind, index) && is_id(tail.next_write(), kind, index)
}

/// Whether the object of a kind with an index is on a device, and is the CRTC that a commit which is written flushes next.
fn flushes_next(tail: &Tail, topology: &Topology, kind: Kind, index: u32) -> bool
    ensures { result ≡ flushes_next topology.now tail.now kind index }
{
    tail.is_written() && exists(topology, kind, index) && is_id(next_flush(tail), kind, index)
}

/// The CRTC that a commit flushes next.
fn next_flush(tail: &Tail) -> Option<ObjId>
    ensures { option_map (λ id. id.0) result
        ≡ option_map (object_id Crtc) (next_flush_of tail.now) }
{
    let crtc = tail.next_flush()?;
    Some(ObjId::of(Kind::Crtc, crtc))
}

/// Whether a claimed commit is written and flushed, and this was not told.
fn ends_next(tail: &Tail) -> bool
    ensures { result ≡ ends_next tail.now }
{
    tail.progress.claimed && tail.is_written() && tail.is_flushed() && !tail.progress.done
}

/// Whether a commit is done and has latched at each CRTC that it names.
fn is_over_tail(tail: &Tail) -> bool
    ensures { result ≡ is_over_tail tail.now }
{
    tail.progress.done && tail.is_latched()
}

/// Whether an id that was found is that of the object of a kind with an index, of whatever size.
fn is_id(found: Option<ObjId>, kind: Kind, index: u32) -> bool
    ensures { result ≡ has_value (object_id kind index) (option_map (λ id. id.0) found) }
{
    match found {
        Some(id) => u64::from(id.0) == u64::from(kind.first_id()) + u64::from(index),
        None => false,
    }
}
