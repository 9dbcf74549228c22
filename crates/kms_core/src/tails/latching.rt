//! Flushes and vblanks, at which commits latch.
ghost use Rattle.std.specs.Prelude.{◌≡◌, ◌<◌, ◌≤◌, IfOk, IsOk, [], ◌∷◌, length, true};
ghost use Rattle.kms_model.specs.declared.objects.Kind.TheVariants.{Crtc};
ghost use Rattle.kms_model.specs.declared.objects.Topology.{Topology};
ghost use Rattle.kms_model.specs.declared.replies.Step.TheVariants as step;
ghost use Rattle.kms_model.specs.Device.Objects.{object_id};
ghost use Rattle.kms_model.specs.Machine.State.{DeviceState, count_at};
ghost use Rattle.kms_regs.specs.File.{StandsForDevice};
ghost use Rattle.kms_core.specs.Latching.{IsLatching, LatchIsTold, MayBlank, MayFlush, event_told, goes_at, told_if};
ghost use Rattle.kms_core.specs.Run.{gains, if_ok};
ghost use Rattle.kms_core.specs.Stands.{queue_of};

use crate::freeing::{InUse, free, shown_ids};
use crate::machine::Core;
use crate::stores::{make_step_room, signal_fence};
use kms_model::{Kind, Latch, NoMemory, ObjId, Picture, Step};
use kms_regs::RegFile;
use kms_signal::{EventQueue, Fences, flip_event};
use kms_track::{Tail, Tracker};

/// Latches, at a CRTC, the picture of a commit that the registers tell at a flush or a vblank, and frees what only the picture
/// before needed. It is no function: between these calls the stores stand for no history, so that none can take them.
macro_rules! latch_picture {
    ($stores:ident, $call:ident, $crtc:ident, $commit:ident) => {{
        let before = $stores.registers.live_layers($crtc);
        let ids_before = shown_ids(before.as_slice());
        let picture = $stores.registers.$call($crtc).unwrap();
        let shown = latch_of(&$stores.registers, $crtc, $commit, picture);
        latch(
            &mut $stores.tracker,
            &mut $stores.fences,
            &mut $stores.queues,
            &shown,
        );
        free(
            &mut $stores.freed,
            &mut $stores.things,
            &InUse {
                present: &$stores.present,
                registers: &$stores.registers,
                tracker: &$stores.tracker,
                crtcs: $stores.script.topology.crtcs,
            },
            ids_before.as_slice(),
        );
        $stores.latches.push(shown);
    }};
}

impl Core {
    /// Flushes the CRTC with an index, from 0 to 3, for the commit, by its number from 0, that flushes it next. A CRTC that
    /// is on after the commit then goes: it latches at its next vblank. One that is off latches at once. It
    /// takes no memory. (Kernel: `drm_atomic_helper.c`, `drm_atomic_helper_commit_planes`, `atomic_flush`.)
    pub fn flush(&mut self, commit: u32, crtc: u32)
        requires { MayFlush self.old commit crtc }
        ensures history { self.new ≡ gains self.old (step.Flush commit Crtc crtc ∷ []) }
    {
        let stores = &mut *self.stores;
        stores.steps.push(Step::Flush {
            commit,
            kind: Kind::Crtc,
            index: crtc,
        });
        stores.tracker.mark_flushed(commit, crtc);
        if stores.registers.is_on_in_shadow(crtc) {
            let _none = stores.registers.flush(crtc);
            stores.goes[crtc as usize] = Some(commit);
            return;
        }
        latch_picture!(stores, flush, crtc, commit);
    }

    /// The CRTC with an index, from 0 to 3, has a vblank, which is counted. True exactly where it goes: the
    /// commit that flushed it last then latches, which takes no memory. Want of memory comes only where it does not go, and
    /// leaves all as it was. (Kernel: `drm_vblank.c`, `drm_crtc_handle_vblank`.)
    pub fn vblank(&mut self, crtc: u32) -> Result<bool, NoMemory>
        requires { MayBlank self.old crtc }
        ensures answer { IfOk result (λ went. went ≡ goes_at self.old crtc) }
        ensures history { self.new ≡ gains self.old
            (if_ok result (λ went. step.Vblank Crtc crtc ∷ [])) }
        ensures no_memory { goes_at self.old crtc ≡ true → IsOk result }
    {
        let stores = &mut *self.stores;
        let step = Step::Vblank {
            kind: Kind::Crtc,
            index: crtc,
        };
        let Some(commit) = stores.goes[crtc as usize] else {
            make_step_room(&mut stores.steps, &stores.tracker)?;
            stores.steps.push(step);
            let _none = stores.registers.vblank(crtc);
            return Ok(false);
        };
        stores.steps.push(step);
        stores.goes[crtc as usize] = None;
        latch_picture!(stores, vblank, crtc, commit);
        Ok(true)
    }
}

/// What the CRTC with an index, from 0 to 3, latches: a picture of a commit, with its count of vblanks so far.
fn latch_of(registers: &RegFile, crtc: u32, commit: u32, picture: Picture) -> Latch
    requires { crtc < 4 }
    ensures shown { result ≡ record {
      crtc = crtc;
      commit = commit;
      count = result.count;
      picture = picture;
    } }
    ensures count { (t : Topology) (d : DeviceState) → StandsForDevice t d registers.now
        → result.count ≡ count_at d (object_id Crtc crtc) }
{
    Latch {
        crtc,
        commit,
        count: registers.count(crtc),
        picture,
    }
}

/// A commit latches at a CRTC: its event for the CRTC is delivered if it asks for one, and its out-fence there is
/// signalled if it has one. (Kernel: `drm_vblank.c`, `drm_crtc_send_vblank_event`.)
fn latch(tracker: &mut Tracker, fences: &mut Fences, queues: &mut Vec<EventQueue>, shown: &Latch)
    requires crtc { shown.now.crtc < 4 }
    requires there { IsLatching tracker.old queues.old.items shown.now }
    ensures { LatchIsTold tracker.old tracker.new fences.old fences.new
        queues.old.items queues.new.items shown.now }
{
    let Some(tail) = tracker.get(shown.commit) else {
        unreachable!();
    };
    deliver(queues, tail, shown);
    signal_fence(fences, tail.out_fence(shown.crtc));
    tracker.flip_done(shown.commit, shown.crtc);
}

/// Delivers the event of a commit that latches to its client, if it asks for one.
fn deliver(queues: &mut Vec<EventQueue>, tail: &Tail, shown: &Latch)
    requires low { 1 ≤ tail.now.signals.client }
    requires high { tail.now.signals.client ≤ length queues.old.items }
    requires reserved { tail.now.signals.wants_event ≡ true
        → 0 < (queue_of queues.old.items tail.now.signals.client).reserved }
    requires crtc { shown.now.crtc < 4 }
    ensures { queues.new.items ≡ told_if tail.now.signals.wants_event tail.now.signals.client
        (event_told tail.now shown.now) queues.old.items }
{
    if !tail.signals.wants_event {
        return;
    }
    let crtc = ObjId::of(Kind::Crtc, shown.crtc).0;
    let event = flip_event(tail.signals.user_data, shown.count, crtc);
    queues[(tail.signals.client - 1) as usize].deliver(event);
}
