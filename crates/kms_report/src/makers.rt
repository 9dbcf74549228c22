//! Who makes a report: one thread, or several that only compute.
ghost use Rattle.std.specs.Prelude.{◌≡◌, IfOk};
ghost use Rattle.kms_model.specs.Report.History as history;
ghost use Rattle.kms_report.specs.Telling.{history_options};

use crate::histories::{Options, report, report_with};
use kms_core::Core;
use kms_kept_frames::{OneThread, SeveralThreads};
use kms_model::{NoMemory, Script, Seq};
use std::alloc::Global;
use std::thread::Threads;

/// Who makes the report of a history. All make the same one.
pub trait MakesReports {
    // They may be at work in several threads.
    ghost can_make: { Self → Type 0 };

    /// The report, as `report` tells of it. The only error is want of memory.
    fn report(
        &self,
        alloc: Global,
        script: &Script,
        core: &Core,
        options: Options,
    ) -> Result<Seq<u8>, NoMemory>
        requires maker { can_make self.now }
        requires script { script.now ≡ core.now.script }
        ensures { IfOk result (λ text. text
            ≡ history.text core.now.script core.now.steps (history_options options)) };
}

impl MakesReports for OneThread {
    ghost use Rattle.std.specs.Prelude.{⊤};

    ghost can_make = { λ _. ⊤ };

    fn report(
        &self,
        alloc: Global,
        script: &Script,
        core: &Core,
        options: Options,
    ) -> Result<Seq<u8>, NoMemory> {
        report(alloc, script, core, options)
    }
}

impl<'a, R: Threads + Sync> MakesReports for SeveralThreads<'a, R> {
    ghost use Rattle.std.specs.Thread.{IsSync};

    ghost can_make = { λ _. IsSync R.row };

    fn report(
        &self,
        alloc: Global,
        script: &Script,
        core: &Core,
        options: Options,
    ) -> Result<Seq<u8>, NoMemory> {
        report_with(self.rt, alloc, script, core, options)
    }
}
