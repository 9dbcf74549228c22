//! What lies under the lock.
ghost use Rattle.std.specs.Prelude.{◌≡◌, ◌&&◌, ◌∷◌, [], IfOk, not};
ghost use Rattle.std.specs.Fn.{FnOnceReturnsAtMut, FnOnceTakesAtMut};
ghost use Rattle.kms_model.specs.declared.objects.Kind.TheVariants.{Crtc};
ghost use Rattle.kms_model.specs.declared.replies.Step.TheVariants as step;
ghost use Rattle.kms_model.specs.Script.WellFormed.{IsWellFormed};
ghost use Rattle.kms_model.specs.Machine.Histories.{is_drained};
ghost use Rattle.kms_core.specs.Run.{Run, gains, machine};
ghost use Rattle.kms_device.specs.Kernels.{AddsPlain};
ghost use Rattle.kms_device.specs.Steps.{blanks_at, step_if};

use kms_core::Core;
use kms_histlock::Kept;
use kms_model::{NoMemory, Script, Step};
use std::alloc::Global;
use std::marker::Model;

/// The machine, as the lock keeps it. Its history was not ended: the device has no call for that. Contracts see the machine's
/// script and history.
#[derive(Drop)]
pub struct Kernel {
    core: Core,
    // How many vblanks each CRTC had.
    counts: [u64; 4],
}

/// A place at a device, for one thread at a time. The steps of a client are made through the pass whose rank is the client's
/// number.
pub type Pass = kms_histlock::Pass<Kernel>;

impl Model for Kernel {
    ghost use Rattle.kms_core.specs.Run.{Run};
    ghost use Rattle.kms_device.specs.Kernels.{AreBlankingCounts};
    ghost use Rattle.kms_device.specs.Steps.{NeverEnds};

    ghost Value = { Run };

    ghost view = { λ k. k.core };

    ghost invariant = { λ k. NeverEnds k.core.steps × AreBlankingCounts k.counts k.core.steps };
}

impl Kept for Kernel {
    ghost use Rattle.kms_core.specs.Run.{Run};
    ghost use Rattle.kms_laws.specs.Blankings.{blankings};
    ghost use Rattle.kms_device.specs.Steps.{blankings-grow, owner};
    ghost use Rattle.kms_device.specs.Turns.{IsOpen};

    type Entry = Step;

    type Fixed = Script;

    ghost entries = { λ k. k.steps };

    ghost owner = { owner };

    ghost counted = { blankings };

    ghost fixed = { λ k. k.script };

    ghost sound = { IsOpen };

    fn shows(&self) {
        self.core.is_a_history();
    }

    fn length(&self) -> u64 {
        self.core.history().len() as u64
    }

    fn count(&self, k: u32) -> u64 {
        self.counts.get(k as usize).copied().unwrap_or(0)
    }

    ghost grows = { blankings-grow };
}

impl Kernel {
    /// The machine of a script before the first step. The only error is want of memory.
    pub(crate) fn new(alloc: Global, script: Script) -> Result<Kernel, NoMemory>
        requires { IsWellFormed script }
        ensures { IfOk result (λ k. k ≡ record { script = script; steps = [] }) }
    {
        Ok(Kernel {
            core: Core::new(alloc, script)?,
            counts: [0; 4],
        })
    }

    /// A call of the machine that neither ends the history nor makes a vblank.
    pub(crate) fn call<R, F: FnOnce(&mut Core) -> R>(&mut self, call: F) -> R
        requires callable { FnOnceTakesAtMut F.FnOnce call self.old }
        requires plain { (left : Run) (r : R) → FnOnceReturnsAtMut F.FnOnce call self.old r left
            → AddsPlain self.old left }
        ensures called { FnOnceReturnsAtMut F.FnOnce call self.old result self.new }
    {
        call(&mut self.core)
    }

    /// The vblank of the CRTC with an index, where it latches a commit then; false, and nothing changes, exactly where
    /// it does not, or the device has no such CRTC.
    pub(crate) fn vblank(&mut self, crtc: u32) -> bool
        ensures answer { result ≡ blanks_at self.old crtc }
        ensures history { self.new ≡ gains self.old (step_if result (step.Vblank Crtc crtc)) }
    {
        self.core.is_a_history();
        if !blanks(&self.core, crtc) {
            return false;
        }
        prove!(self.counts[crtc as usize] <= self.core.history().len() as u64);
        let Ok(_went) = self.core.vblank(crtc) else {
            unreachable!();
        };
        self.counts[crtc as usize] += 1;
        true
    }

    /// Has the vblank where the CRTC latches a commit then. Where not, it tells whether the history is drained.
    pub(crate) fn vblank_or_rest(&mut self, crtc: u32) -> (bool, bool)
        ensures answer { result.0 ≡ blanks_at self.old crtc }
        ensures rests { result.1 ≡ (not result.0 && is_drained self.old.script (machine self.old)) }
        ensures history { self.new ≡ gains self.old (step_if result.0 (step.Vblank Crtc crtc)) }
    {
        if self.vblank(crtc) {
            return (true, false);
        }
        (false, self.core.drained())
    }

    /// The machine.
    pub(crate) fn into_core(self) -> Core
        ensures { result ≡ self }
    {
        self.core
    }
}

/// Whether the device has the CRTC with an index, and it latches a commit at its next vblank.
fn blanks(core: &Core, crtc: u32) -> bool
    ensures { result ≡ blanks_at core.now crtc }
{
    core.is_a_history();
    crtc < core.script().topology.crtcs && core.has_go(crtc)
}
