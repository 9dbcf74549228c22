//! The calls of workers and of vblanks. They take no memory, and ask for nothing of what the pass has seen.
ghost use Rattle.std.specs.Prelude.{◌≡◌, ◌&&◌, ◌∷◌, [], find, not, true};
ghost use Rattle.std.specs.List.{range_with_len};
ghost use Rattle.std.specs.Option.{option_to_list};
ghost use Rattle.kms_model.specs.declared.objects.Kind.TheVariants.{Crtc};
ghost use Rattle.kms_model.specs.declared.replies.Step.TheVariants as step;
ghost use Rattle.kms_model.specs.Machine.Histories.{is_drained};
ghost use Rattle.kms_core.specs.Run.{Run, gains, machine};
ghost use Rattle.kms_core.specs.Work.{claim_steps, first_claim, write_step};
ghost use Rattle.kms_device.specs.Steps.{blanks_at, is_legal, may_write, rests_in, step_if, tail_of, write_or_flush};
ghost use Rattle.kms_device.specs.Turns.{DeviceTurn};

use crate::device::Device;
use crate::kernel::{Kernel, Pass};
use kms_core::Core;
use kms_model::{Kind, ObjId, Step};
use std::sync::Wait;

impl Device {
    /// Claims the least commit whose tail may begin, as the machine's `claim` does, and gives its number, counted from 0; none
    /// exactly where there is none in the history that was found.
    pub fn claim<W: Wait>(&self, rt: &W, pass: &mut Pass) -> Option<u32>
        requires own { pass.old.lock ≡ self.now.lock }
        ensures { DeviceTurn self.now.script (λ found. result ≡ first_claim found)
            (claim_steps result) pass.old pass.new }
    {
        self.turn(rt, pass, |core: &mut Core| core.claim())
    }

    /// Claims as `claim` does. Where there is nothing to claim, the same turn tells whether the history is drained.
    pub fn claim_or_rest<W: Wait>(&self, rt: &W, pass: &mut Pass) -> (Option<u32>, bool)
        requires own { pass.old.lock ≡ self.now.lock }
        ensures { DeviceTurn self.now.script
            (λ found. (result.0 ≡ first_claim found) × (result.1 ≡ rests_in result.0 found))
            (claim_steps result.0) pass.old pass.new }
    {
        self.turn(rt, pass, |core: &mut Core| claim_or_rest(core))
    }

    /// Writes the registers of the CRTC or the plane that a commit, by its number from 0, writes next, as the machine's `write`
    /// does. False, and no step, exactly where it is not the next in the history that was found.
    pub fn write<W: Wait>(&self, rt: &W, pass: &mut Pass, commit: u32, id: ObjId) -> bool
        requires own { pass.old.lock ≡ self.now.lock }
        ensures { DeviceTurn self.now.script (λ found. result ≡ may_write found commit id)
            (step_if result (write_step commit id)) pass.old pass.new }
    {
        self.turn(rt, pass, |core: &mut Core| write(core, commit, id))
    }

    /// Flushes the CRTC with an index for a commit, by its number from 0, as the machine's `flush` does. False, and no
    /// step, exactly where the commit does not flush it next in the history that was found.
    pub fn flush<W: Wait>(&self, rt: &W, pass: &mut Pass, commit: u32, crtc: u32) -> bool
        requires own { pass.old.lock ≡ self.now.lock }
        ensures { DeviceTurn self.now.script
            (λ found. result ≡ is_legal found (step.Flush commit Crtc crtc))
            (step_if result (step.Flush commit Crtc crtc)) pass.old pass.new }
    {
        self.turn(rt, pass, |core: &mut Core| flush(core, commit, crtc))
    }

    /// Tells that all registers of a commit, by its number from 0, are written and flushed, as the machine's `hw_done` does.
    /// False, and no step, exactly where they are not, or `hw_done` came before, in the history that was found.
    pub fn hw_done<W: Wait>(&self, rt: &W, pass: &mut Pass, commit: u32) -> bool
        requires own { pass.old.lock ≡ self.now.lock }
        ensures { DeviceTurn self.now.script (λ found. result ≡ is_legal found (step.HwDone commit))
            (step_if result (step.HwDone commit)) pass.old pass.new }
    {
        self.turn(rt, pass, |core: &mut Core| hw_done(core, commit))
    }

    /// Cleans up a commit, by its number from 0, as the machine's `cleanup` does. False, and no step, exactly where its tail is
    /// not over, or it is cleaned up, in the history that was found.
    pub fn cleanup<W: Wait>(&self, rt: &W, pass: &mut Pass, commit: u32) -> bool
        requires own { pass.old.lock ≡ self.now.lock }
        ensures { DeviceTurn self.now.script
            (λ found. result ≡ is_legal found (step.Cleanup commit))
            (step_if result (step.Cleanup commit)) pass.old pass.new }
    {
        self.turn(rt, pass, |core: &mut Core| clean_up(core, commit))
    }

    /// Does the first of a commit's write, flush, hwdone and cleanup steps that is left, and gives it; the commit is given by its
    /// number from 0. None, and no step, exactly where it is not legal in the history that was found, or none is left. (Kernel:
    /// `drm_atomic_helper.c`, `commit_tail`.)
    pub fn work_on<W: Wait>(&self, rt: &W, pass: &mut Pass, commit: u32) -> Option<Step>
        requires own { pass.old.lock ≡ self.now.lock }
        ensures { DeviceTurn self.now.script
            (λ found. result ≡ find (is_legal found) (tail_of found.script.topology commit))
            (option_to_list result) pass.old pass.new }
    {
        self.turn(rt, pass, |core: &mut Core| work_on(core, commit))
    }

    /// Does what `work_on` does. Where nothing is done, the same turn tells whether the history is drained.
    pub fn work_or_rest<W: Wait>(
        &self,
        rt: &W,
        pass: &mut Pass,
        commit: u32,
    ) -> (Option<Step>, bool)
        requires own { pass.old.lock ≡ self.now.lock }
        ensures { DeviceTurn self.now.script (λ found.
            (result.0 ≡ find (is_legal found) (tail_of found.script.topology commit))
            × (result.1 ≡ rests_in result.0 found))
            (option_to_list result.0) pass.old pass.new }
    {
        self.turn(rt, pass, |core: &mut Core| work_or_rest(core, commit))
    }

    /// Has a vblank as `vblank` does. Where there is none, the same turn tells whether the history is drained.
    pub fn vblank_or_rest<W: Wait>(&self, rt: &W, pass: &mut Pass, crtc: u32) -> (bool, bool)
        requires own { pass.old.lock ≡ self.now.lock }
        ensures { DeviceTurn self.now.script (λ found. (result.0 ≡ blanks_at found crtc)
            × (result.1 ≡ (not result.0 && is_drained found.script (machine found))))
            (step_if result.0 (step.Vblank Crtc crtc)) pass.old pass.new }
    {
        self.lock.with(rt, pass, |kernel: &mut Kernel| kernel.vblank_or_rest(crtc))
    }

    /// The CRTC with an index has a vblank at which it latches a commit, as the machine's `vblank` does. False, and no
    /// step, exactly where it latches none then in the history that was found, or the device has no such CRTC.
    pub fn vblank<W: Wait>(&self, rt: &W, pass: &mut Pass, crtc: u32) -> bool
        requires own { pass.old.lock ≡ self.now.lock }
        ensures { DeviceTurn self.now.script (λ found. result ≡ blanks_at found crtc)
            (step_if result (step.Vblank Crtc crtc)) pass.old pass.new }
    {
        self.lock
            .with(rt, pass, |kernel: &mut Kernel| kernel.vblank(crtc))
    }
}

/// Claims the least commit whose tail may begin. Where there is none it tells whether the history is drained.
fn claim_or_rest(core: &mut Core) -> (Option<u32>, bool)
    ensures claimed { result.0 ≡ first_claim core.old }
    ensures rests { result.1 ≡ rests_in result.0 core.old }
    ensures history { core.new ≡ gains core.old (claim_steps result.0) }
{
    match core.claim() {
        Some(commit) => (Some(commit), false),
        None => (None, core.drained()),
    }
}

/// Does the first step of a commit's tail that is legal. Where there is none it tells whether the history is drained.
fn work_or_rest(core: &mut Core, commit: u32) -> (Option<Step>, bool)
    ensures step { result.0 ≡ find (is_legal core.old) (tail_of core.old.script.topology commit) }
    ensures rests { result.1 ≡ rests_in result.0 core.old }
    ensures history { core.new ≡ gains core.old (option_to_list result.0) }
{
    match work_on(core, commit) {
        Some(step) => (Some(step), false),
        None => (None, core.drained()),
    }
}

/// Writes an object for a commit, where it is the one that the commit writes next.
fn write(core: &mut Core, commit: u32, id: ObjId) -> bool
    ensures answer { result ≡ may_write core.old commit id }
    ensures history { core.new ≡ gains core.old (step_if result (write_step commit id)) }
{
    let step = Step::Write {
        commit,
        kind: id.kind(),
        index: id.index(),
    };
    if id.0 < id.kind().first_id() || !core.legal(&step) {
        return false;
    }
    core.write(commit, id);
    true
}

/// Flushes a CRTC for a commit, where it is the one that the commit flushes next.
fn flush(core: &mut Core, commit: u32, crtc: u32) -> bool
    ensures answer { result ≡ is_legal core.old (step.Flush commit Crtc crtc) }
    ensures history { core.new ≡ gains core.old (step_if result (step.Flush commit Crtc crtc)) }
{
    let step = Step::Flush {
        commit,
        kind: Kind::Crtc,
        index: crtc,
    };
    if !core.legal(&step) {
        return false;
    }
    core.flush(commit, crtc);
    true
}

/// Tells that a commit is written and flushed, where it is so and was not told.
fn hw_done(core: &mut Core, commit: u32) -> bool
    ensures answer { result ≡ is_legal core.old (step.HwDone commit) }
    ensures history { core.new ≡ gains core.old (step_if result (step.HwDone commit)) }
{
    if !core.legal(&Step::HwDone { commit }) {
        return false;
    }
    core.hw_done(commit);
    true
}

/// Cleans a commit up, where its tail is over.
fn clean_up(core: &mut Core, commit: u32) -> bool
    ensures answer { result ≡ is_legal core.old (step.Cleanup commit) }
    ensures history { core.new ≡ gains core.old (step_if result (step.Cleanup commit)) }
{
    core.is_a_history();
    core.legal(&Step::Cleanup { commit }) && core.cleanup(commit)
}

/// Does the first step of a commit's tail that is legal.
fn work_on(core: &mut Core, commit: u32) -> Option<Step>
    ensures answer { result ≡ find (is_legal core.old) (tail_of core.old.script.topology commit) }
    ensures history { core.new ≡ gains core.old (option_to_list result) }
{
    core.is_a_history();
    let crtcs = core.script().topology.crtcs;
    let planes = core.script().topology.planes.len() as u32;
    if let Some(index) = first_left(core, commit, Kind::Crtc, crtcs, false) {
        return Some(write_object(core, commit, Kind::Crtc, index));
    }
    if let Some(index) = first_left(core, commit, Kind::Plane, planes, false) {
        return Some(write_object(core, commit, Kind::Plane, index));
    }
    if let Some(index) = first_left(core, commit, Kind::Crtc, crtcs, true) {
        flush(core, commit, index);
        return Some(Step::Flush {
            commit,
            kind: Kind::Crtc,
            index,
        });
    }
    if core.legal(&Step::HwDone { commit }) {
        hw_done(core, commit);
        return Some(Step::HwDone { commit });
    }
    if clean_up(core, commit) {
        return Some(Step::Cleanup { commit });
    }
    None
}

/// The index of the first object of a kind, of so many, that a commit may flush, or else write.
fn first_left(core: &Core, commit: u32, kind: Kind, count: u32, flushes: bool) -> Option<u32>
    ensures { result ≡ find (λ index. is_legal core.now (write_or_flush flushes commit kind index))
        (range_with_len 0 count) }
{
    (0..count).find(|index| core.legal(&part(flushes, commit, kind, *index)))
}

/// The step of a commit that flushes an object, or else writes it.
fn part(flushes: bool, commit: u32, kind: Kind, index: u32) -> Step
    ensures { result ≡ write_or_flush flushes commit kind index }
{
    if flushes {
        return Step::Flush {
            commit,
            kind,
            index,
        };
    }
    Step::Write {
        commit,
        kind,
        index,
    }
}

/// Writes the object of a kind with an index, which a commit writes next, and gives the step.
fn write_object(core: &mut Core, commit: u32, kind: Kind, index: u32) -> Step
    requires { is_legal core.old (step.Write commit kind index) ≡ true }
    ensures answer { result ≡ step.Write commit kind index }
    ensures history { core.new ≡ gains core.old (step.Write commit kind index ∷ []) }
{
    core.is_a_history();
    write(core, commit, ObjId::of(kind, index));
    Step::Write {
        commit,
        kind,
        index,
    }
}
