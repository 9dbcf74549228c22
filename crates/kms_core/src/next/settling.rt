//! The order in which one thread lets the tails of commits settle. It takes no memory.
ghost use Rattle.std.specs.Prelude.{◌≡◌, [], ◌∷◌, find};
ghost use Rattle.kms_model.specs.declared.objects.Kind.TheVariants.{Crtc};
ghost use Rattle.kms_model.specs.declared.replies.Step.TheVariants as step;
ghost use Rattle.std.specs.List.{range_with_len};
ghost use Rattle.kms_model.specs.Device.Objects.{count_of};
ghost use Rattle.kms_model.specs.Firsts.{first_some};
ghost use Rattle.kms_model.specs.Machine.Histories.{commit_numbers, steps_of_commit, steps_with_go};
ghost use Rattle.kms_model.specs.Machine.Steps.{may};
ghost use Rattle.kms_model.specs.Order.Turns.{tail_step};
ghost use Rattle.kms_core.specs.Run.{machine};

use crate::machine::Core;
use crate::next::moving::objects;
use crate::next::tail_steps::{may_be_done, may_claim, may_clean_up, may_flush, may_write};
use kms_model::{Kind, Step};

impl Core {
    /// The next step of a tail in the order of one thread: the first that is legal of the least commit that has one, or else
    /// the vblank of the first CRTC that has GO. None where there is none, and where the history was ended.
    pub fn tail_step(&self) -> Option<Step>
        ensures { result ≡ tail_step self.now.script (machine self.now) }
    {
        let stores = &*self.stores;
        if stores.stalled {
            return None;
        }
        match first_of_tails(self) {
            Some(step) => Some(step),
            None => first_blanking(self),
        }
    }
}

/// The first step of the least commit that has one. Those that are cleaned have none.
fn first_of_tails(core: &Core) -> Option<Step>
    ensures { result ≡ first_some (λ k. find (may core.now.script (machine core.now))
        (steps_of_commit core.now.script.topology k)) (commit_numbers (machine core.now)) }
{
    let stores = &*core.stores;
    let mut from = 0;
    'seeking: while let Some(commit) = stores.tracker.first_from(from) {
        if let Some(step) = first_of_tail(core, commit) {
            return Some(step);
        }
        from = commit + 1;
    }
    None
}

/// The first step of the tail of a commit: its claim, the writes of its CRTCs and then of its planes, its flushes, and
/// then the end of writing, or the clean-up.
fn first_of_tail(core: &Core, commit: u32) -> Option<Step>
    ensures { result ≡ find (may core.now.script (machine core.now))
        (steps_of_commit core.now.script.topology commit) }
{
    if may_claim(core, commit) {
        return Some(Step::Claim { commit });
    }
    if let Some(index) = first_write(core, commit, Kind::Crtc) {
        return Some(write(commit, Kind::Crtc, index));
    }
    if let Some(index) = first_write(core, commit, Kind::Plane) {
        return Some(write(commit, Kind::Plane, index));
    }
    if let Some(index) = first_flush(core, commit) {
        return Some(Step::Flush {
            commit,
            kind: Kind::Crtc,
            index,
        });
    }
    end_of_tail(core, commit)
}

/// The index of the first object of a kind that a commit may write.
fn first_write(core: &Core, commit: u32, kind: Kind) -> Option<u32>
    ensures { result ≡ find
        (λ index. may core.now.script (machine core.now) (step.Write commit kind index))
        (range_with_len 0 (count_of core.now.script.topology kind)) }
{
    (0..objects(core, kind)).find(|index| may_write(core, commit, kind, *index))
}

/// The index of the first CRTC that a commit may flush.
fn first_flush(core: &Core, commit: u32) -> Option<u32>
    ensures { result ≡ find
        (λ index. may core.now.script (machine core.now) (step.Flush commit Crtc index))
        (range_with_len 0 (count_of core.now.script.topology Crtc)) }
{
    (0..objects(core, Kind::Crtc)).find(|index| may_flush(core, commit, Kind::Crtc, *index))
}

/// The end of writing, or the clean-up, of a commit.
fn end_of_tail(core: &Core, commit: u32) -> Option<Step>
    ensures { result ≡ find (may core.now.script (machine core.now))
        (step.HwDone commit ∷ step.Cleanup commit ∷ []) }
{
    if may_be_done(core, commit) {
        Some(Step::HwDone { commit })
    } else if may_clean_up(core, commit) {
        Some(Step::Cleanup { commit })
    } else {
        None
    }
}

/// The vblank of the first CRTC that has GO.
fn first_blanking(core: &Core) -> Option<Step>
    ensures { result ≡ find (may core.now.script (machine core.now))
        (steps_with_go core.now.script.topology (machine core.now)) }
{
    let stores = &*core.stores;
    for index in 0..stores.script.topology.crtcs {
        if core.has_go(index) {
            return Some(Step::Vblank {
                kind: Kind::Crtc,
                index,
            });
        }
    }
    None
}

/// The write of an object by a commit.
fn write(commit: u32, kind: Kind, index: u32) -> Step
    ensures { result ≡ step.Write commit kind index }
{
    Step::Write {
        commit,
        kind,
        index,
    }
}
