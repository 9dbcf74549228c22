//! How a history ended.
ghost use Rattle.std.specs.Prelude.{◌≡◌, false, true};
ghost use Rattle.kms_model.specs.Machine.Histories as told;
ghost use Rattle.kms_core.specs.Run.{machine};
ghost use Rattle.kms_one_thread.specs.Over as over;

use kms_core::Core;

/// How a history ended, or that it did not.
#[derive(Clone, Copy, PartialEq, Eq)]
pub enum End {
    /// Every client is at its end, and every commit is cleaned.
    Drained,
    /// Not drained, and no step may be done but vblanks of CRTCs that do not go; `stall` ends such a history,
    /// and no step follows it.
    Dead,
    /// A step may still be done.
    Open,
}

/// How a history ended: drained, dead, or not at all. It is never both drained and dead.
pub fn end_of(core: &Core) -> End
    ensures end { result ≡ over.end_of core.now.script (machine core.now) }
    ensures apart { told.is_drained core.now.script (machine core.now) ≡ true
        → told.is_dead core.now.script (machine core.now) ≡ false }
{
    core.is_a_history();
    if core.drained() {
        End::Drained
    } else if core.is_dead() {
        End::Dead
    } else {
        End::Open
    }
}
