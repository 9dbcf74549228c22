//! The replies alone.
ghost use Rattle.std.specs.Prelude.{IfOk};
ghost use Rattle.kms_laws.specs.Ends.{IsOver};
ghost use Rattle.kms_model.specs.Order.Rounds.{IsOne};
ghost use Rattle.kms_c.specs.Answered.{AreVerdictsOf, VerdictAnswers};

use kms_core::Core;
use kms_model::{NoMemory, Part};
use kms_one_thread::{end_of, finish};
use kms_report::replies_text;
use kms_run::{FullReport, NoAnswer};
use kms_script::parse;
use std::alloc::Global;

/// The replies of the history of one thread.
fn replies_of(alloc: Global, core: &Core) -> Result<FullReport, NoMemory>
    requires one { IsOne core.now.script core.now.steps }
    requires over { IsOver core.now.script core.now.steps }
    ensures { IfOk result (λ r. AreVerdictsOf core.now.script r.ended r.text) }
{
    core.is_a_history();
    core.shows_its_journal();
    Ok(FullReport {
        text: replies_text(alloc, core.script(), core)?,
        ended: end_of(core),
    })
}

/// The replies to the script that an input spells, whose steps one thread does; or the input's first fault.
pub(crate) fn verdict_answer(alloc: Global, input: &[u8]) -> Result<FullReport, NoAnswer>
    ensures { VerdictAnswers input.now result }
{
    let parsed = parse(alloc, input, Part::Script)?;
    let mut core = Core::new(alloc, parsed.script)?;
    finish(alloc, &mut core)?;
    Ok(replies_of(alloc, &core)?)
}
