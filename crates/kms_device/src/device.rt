//! The device, and what it tells of itself.
ghost use Rattle.std.specs.Prelude.{◌≡◌, ℕ, ◌≤◌, ◌<◌, [], length, slice_index, slice_set, All, Any, IfOk};
ghost use Rattle.std.specs.List.{sum_by};
ghost use Rattle.std.specs.Fn.{FnOnceReturnsAtMut, FnOnceTakesAtMut};
ghost use Rattle.kms_histlock.specs.Passes.{IsReached, new_passes};
ghost use Rattle.kms_model.specs.Machine.Histories.{is_drained};
ghost use Rattle.kms_model.specs.Machine.State.{place_at};
ghost use Rattle.kms_model.specs.Script.WellFormed.{IsWellFormed};
ghost use Rattle.kms_core.specs.Run.{Run, machine};
ghost use Rattle.kms_device.specs.Kernels.{AddsPlainOf};
ghost use Rattle.kms_laws.specs.Blankings.{blankings};
ghost use Rattle.kms_device.specs.Turns.{Called, MayBeFound, DeviceTurn};

use crate::kernel::{Kernel, Pass};
use kms_core::Core;
use kms_histlock::HistLock;
use kms_model::{Duplicate, NoMemory, Place, Script, Seq};
use std::alloc::Global;
use std::boxed::Box;
use std::marker::Model;
use std::sync::Wait;

/// A machine that threads share. Each thread has a pass, and each call takes a turn of its own: its step stands once in the one
/// history, behind all that the pass has seen. Nothing is claimed of when a turn comes.
#[derive(Drop)]
pub struct Device {
    // In a box, since who owns a device gives it up at each end.
    script: Box<Script>,
    pub(crate) lock: HistLock<Kernel>,
}

impl Model for Device {
    ghost use Rattle.std.specs.Prelude.{◌≡◌};
    ghost use Rattle.kms_device.specs.Turns.{SharedDevice};

    ghost Value = { SharedDevice };

    ghost view = { λ d. record { lock = d.lock.lock; seats = d.lock.seats; script = d.script.value } };

    ghost invariant = { λ d. d.script.value ≡ d.lock.fixed };
}

impl Device {
    /// The device of a script before the first step, and its passes, whose ranks go from 1 on. There are from 1 to 64 of them, and
    /// at least one for each client. The only error is want of memory.
    pub fn new(alloc: Global, script: Script, seats: u32) -> Result<(Device, Seq<Pass>), NoMemory>
        requires formed { IsWellFormed script }
        requires seats { (0 < seats) × (seats ≤ 64) }
        requires clients { length script.clients ≤ seats }
        ensures script { IfOk result (λ made. made.0.script ≡ script) }
        ensures seats { IfOk result (λ made. made.0.seats ≡ seats) }
        ensures passes { IfOk result (λ made. made.1 ≡ new_passes made.0.lock seats) }
    {
        let kernel = Kernel::new(alloc, script.copy(alloc)?)?;
        let script = Box::new(alloc, script)?;
        let (lock, passes) = HistLock::new(alloc, kernel, seats)?;
        Ok((Device { script, lock }, passes))
    }

    /// Ends the device, with all its passes in any order, and gives the machine. Its history has as many steps as all passes have
    /// made together, begins with what each has seen, and reaches each number that one has read.
    pub fn close(self, passes: Seq<Pass>) -> Core
        requires own { All (λ p. p.lock ≡ self.lock) passes }
        requires all { length passes ≡ self.seats }
        requires first { Any (λ p. p.rank ≡ 1) passes }
        ensures script { result.script ≡ self.script }
        ensures made { length result.steps ≡ sum_by (λ p. p.made) passes }
        ensures reached { All (λ p. IsReached blankings p result.steps) passes }
    {
        self.lock.close(passes).into_core()
    }

    /// The script. It waits for nobody.
    pub fn script(&self) -> &Script
        ensures { result.now ≡ self.now.script }
    {
        &self.script
    }

    /// How long the history is, as far as one load tells: at least as long as what the pass has seen, and as what it has read
    /// before. The pass keeps the number. It waits for nobody.
    pub fn history_len(&self, pass: &mut Pass) -> u64
        requires own { pass.old.lock ≡ self.now.lock }
        ensures seen { length pass.old.seen ≤ result }
        ensures before { pass.old.length_read ≤ result }
        ensures read { pass.new ≡ record pass.old { length_read = result } }
    {
        self.lock.length(pass)
    }

    /// How many vblanks the CRTC with an index, from 0 to 3, had, as far as one load tells: at least as many as in what
    /// the pass has seen, and as it has read before. The pass keeps the number. It waits for nobody.
    pub fn vblank_count(&self, pass: &mut Pass, crtc: u32) -> u64
        requires own { pass.old.lock ≡ self.now.lock }
        requires crtc { crtc < 4 }
        ensures seen { blankings crtc pass.old.seen ≤ result }
        ensures before { slice_index pass.old.counts_read crtc ≤ result }
        ensures read { pass.new
            ≡ record pass.old { counts_read = slice_set pass.old.counts_read crtc result } }
    {
        self.lock.count(pass, crtc)
    }

    /// Where a client, by its number from 1, stands, as the machine's `place` tells.
    pub fn place<W: Wait>(&self, rt: &W, pass: &mut Pass, client: u32) -> Place
        requires own { pass.old.lock ≡ self.now.lock }
        requires low { 1 ≤ client }
        requires high { client ≤ length self.now.script.clients }
        ensures { DeviceTurn self.now.script (λ found. result ≡ place_at (machine found) client) []
            pass.old pass.new }
    {
        self.turn(rt, pass, |core: &mut Core| core.place(client))
    }

    /// Whether every client is at its end, with no command left, and every commit is cleaned.
    pub fn ended<W: Wait>(&self, rt: &W, pass: &mut Pass) -> bool
        requires own { pass.old.lock ≡ self.now.lock }
        ensures { DeviceTurn self.now.script
            (λ found. result ≡ is_drained found.script (machine found)) [] pass.old pass.new }
    {
        self.turn(rt, pass, |core: &mut Core| core.drained())
    }

    /// Takes the turn once for a call of the machine that neither ends the history nor makes a vblank. The steps that it
    /// makes are nobody's, or the client's whose number is the pass's rank.
    pub(crate) fn turn<R, W: Wait, F: FnOnce(&mut Core) -> R>(
        &self,
        rt: &W,
        pass: &mut Pass,
        call: F,
    ) -> R
        requires own { pass.old.lock ≡ self.now.lock }
        requires callable { (found : Run) → MayBeFound self.now.script pass.old found
            → FnOnceTakesAtMut F.FnOnce call found }
        requires steps { (found left : Run) (r : R) → MayBeFound self.now.script pass.old found
            → FnOnceReturnsAtMut F.FnOnce call found r left → AddsPlainOf pass.old.rank found left }
        ensures { Called self.now.script F.FnOnce call result pass.old pass.new }
    {
        self.lock
            .with(rt, pass, |kernel: &mut Kernel| kernel.call(call))
    }
}
