//! The calls of workers, which do the tails of commits. They take no memory: `swap` took it.
ghost use Rattle.std.specs.Prelude.{◌≡◌, ◌<◌, [], ◌∷◌, slice_index_or, None};
ghost use Rattle.kms_model.specs.declared.replies.Step.TheVariants as step;
ghost use Rattle.kms_model.specs.Device.Objects.{index_of, kind_of};
ghost use Rattle.kms_track.specs.Tracking.{ready_of};
ghost use Rattle.kms_core.specs.Run.{gains};
ghost use Rattle.kms_core.specs.Work.{AreFewCommits, FindsFirstWhere, HoldsCrtc, HoldsOld, HoldsPlane, IsCrtcWritten, IsPlaneWritten, IsWritten, MayBeDone, MayClaim, MayCleanUp, MayWrite, TellsOver, claim_steps, cleanup_steps, first_claim, is_commit_over, write_step};

use crate::freeing::{InUse, free, kept_ids};
use crate::machine::Core;
use crate::stores::Stores;
use kms_model::{Kind, ObjId, Step};
use kms_regs::RegFile;
use kms_signal::Fences;
use kms_track::{Tail, Tracker};

impl Core {
    /// Claims the least commit whose tail may begin: the fences that it waits for are signalled, and the commit before it
    /// on each object that it touches is done and has flipped there. It gives the commit's number, counted from 0; none
    /// exactly where there is no such commit, as after the end of the history. (Kernel: `drm_atomic_helper.c`,
    /// `commit_work`, `drm_atomic_helper_wait_for_fences`, `drm_atomic_helper_wait_for_dependencies`.)
    pub fn claim(&mut self) -> Option<u32>
        ensures answer { result ≡ first_claim self.old }
        ensures history { self.new ≡ gains self.old (claim_steps result) }
    {
        let stores = &mut *self.stores;
        if stores.stalled {
            return None;
        }
        let Some(commit) = first_ready(&stores.tracker, &stores.fences) else {
            return None;
        };
        claim_commit(stores, commit);
        Some(commit)
    }

    /// Writes the registers of the CRTC or the plane that a commit, by its number from 0, writes next: the words of its old
    /// state become those of the new one. (Kernel: `drm_atomic_helper.c`, `drm_atomic_helper_commit_modeset_enables`,
    /// `drm_atomic_helper_commit_planes`.)
    pub fn write(&mut self, commit: u32, id: ObjId)
        requires { MayWrite self.old commit id }
        ensures history { self.new ≡ gains self.old (write_step commit id ∷ []) }
    {
        let stores = &mut *self.stores;
        let Some(tail) = stores.tracker.get(commit) else {
            unreachable!();
        };
        write_registers(&mut stores.registers, tail, id);
        stores.tracker.mark_written(commit, id);
        stores.steps.push(write_step(commit, id));
    }

    /// Tells that all registers of a commit, by its number from 0, are written and flushed. (Kernel: `drm_atomic_helper.c`,
    /// `drm_atomic_helper_commit_hw_done`.)
    pub fn hw_done(&mut self, commit: u32)
        requires { MayBeDone self.old commit }
        ensures history { self.new ≡ gains self.old (step.HwDone commit ∷ []) }
    {
        let stores = &mut *self.stores;
        stores.tracker.hw_done(commit);
        stores.steps.push(Step::HwDone { commit });
    }

    /// Cleans up a commit, by its number from 0, whose old states are then given up. It answers false, and changes nothing,
    /// exactly where its registers are not all written and flushed, or it has not latched at a CRTC that it names. (Kernel:
    /// `drm_atomic_helper.c`, `drm_atomic_helper_wait_for_flip_done`, `drm_atomic_helper_commit_cleanup_done`.)
    pub fn cleanup(&mut self, commit: u32) -> bool
        requires { MayCleanUp self.old commit }
        ensures answer { result ≡ is_commit_over self.old commit }
        ensures history { self.new ≡ gains self.old (cleanup_steps commit result) }
    {
        let stores = &mut *self.stores;
        if !is_commit_over(&stores.tracker, commit) {
            return false;
        }
        let kept_ids = kept_ids(stores.tracker.get(commit).unwrap());
        stores.tracker.cleanup(commit);
        free(
            &mut stores.freed,
            &mut stores.things,
            &InUse {
                present: &stores.present,
                registers: &stores.registers,
                tracker: &stores.tracker,
                crtcs: stores.script.topology.crtcs,
            },
            kept_ids.as_slice(),
        );
        stores.steps.push(Step::Cleanup { commit });
        true
    }
}

/// Claims a commit, by its number from 0, whose tail may begin.
pub fn claim_commit(stores: &mut Stores, commit: u32)
    requires { MayClaim stores.old commit }
    ensures history { stores.new ≡ gains stores.old (step.Claim commit ∷ []) }
{
    stores.tracker.claim(commit);
    stores.steps.push(Step::Claim { commit });
}

/// The least commit that is not cleaned and may be claimed.
fn first_ready(tracker: &Tracker, fences: &Fences) -> Option<u32>
    requires { AreFewCommits tracker.now }
    ensures { FindsFirstWhere tracker.now (ready_of tracker.now fences.now) result }
{
    let mut from = 0;
    'seeking: while let Some(commit) = tracker.first_from(from) {
        if tracker.ready(commit, fences) {
            return Some(commit);
        }
        from = commit + 1;
    }
    None
}

/// The step of a commit that writes an object.
fn write_step(commit: u32, id: ObjId) -> Step
    ensures { result ≡ write_step commit id }
{
    Step::Write {
        commit,
        kind: id.kind(),
        index: id.index(),
    }
}

/// Writes the registers of a CRTC or a plane that a commit touches.
fn write_registers(registers: &mut RegFile, tail: &Tail, id: ObjId)
    requires { HoldsOld registers.old tail.now (kind_of id.0) (index_of id.0) }
    ensures { IsWritten registers.old registers.new tail.now (kind_of id.0) (index_of id.0) }
{
    match id.kind() {
        Kind::Crtc => write_crtc(registers, tail, id.index()),
        Kind::Plane => write_plane(registers, tail, id.index()),
        Kind::Conn | Kind::Enc => unreachable!(),
    }
}

/// Writes those of the CRTC with an index, from 0 to 3.
fn write_crtc(registers: &mut RegFile, tail: &Tail, index: u32)
    requires index { index < 4 }
    requires holds { HoldsCrtc registers.old index
        (slice_index_or tail.now.checked.states.crtcs index None) }
    ensures { IsCrtcWritten registers.old registers.new index
        (slice_index_or tail.now.checked.states.crtcs index None) }
{
    let Some(both) = tail.crtc(index) else {
        unreachable!();
    };
    registers.write_crtc(index, tail.connector(index), &both.old, &both.new);
}

/// Writes those of the plane with an index, from 0 to 15.
fn write_plane(registers: &mut RegFile, tail: &Tail, index: u32)
    requires index { index < 16 }
    requires holds { HoldsPlane registers.old index
        (slice_index_or tail.now.checked.states.planes index None) }
    ensures { IsPlaneWritten registers.old registers.new index
        (slice_index_or tail.now.checked.states.planes index None) }
{
    let Some(both) = tail.plane(index) else {
        unreachable!();
    };
    registers.write_plane(index, &both.old, &both.new);
}

/// Whether all registers of a commit are written and flushed, and it has latched at each CRTC that it names.
fn is_commit_over(tracker: &Tracker, commit: u32) -> bool
    ensures { TellsOver tracker.now commit result }
{
    match tracker.get(commit) {
        Some(tail) => tail.progress.done && tail.is_latched(),
        None => false,
    }
}
