//! What the program says to an input.
ghost use Rattle.std.specs.Prelude.{◌≡◌, [], false, IfErr, IfOk, OnOk};
ghost use Rattle.kms_model.specs.Script.WellFormed.{IsWellFormed};
ghost use Rattle.kms_run.specs.Answers.{Answers, IsMade, IsReportOf};
ghost use Rattle.kms_run.specs.Executing.{IsStopped, MayEnd, TellsReport};
ghost use Rattle.kms_run.specs.Words.{needs_threads};

use crate::words::{Action, Execution};
use kms_core::Core;
use kms_model::{NoMemory, Seq, Step, Why};
use kms_one_thread::{End, ReplayError, end_of, finish, replay};
use kms_report::MakesReports;
use kms_script::{ParseError, Parsed, parse};
use std::alloc::Global;

/// A report, and how the history ended that it tells.
#[derive(Drop)]
pub struct FullReport {
    pub text: Seq<u8>,
    pub ended: End,
}

/// Why there is no report.
#[derive(Clone, Copy, PartialEq, Eq)]
pub enum NoAnswer {
    /// The first line that may not stand where it stands, counted from 1, and why; line 0 is the whole input.
    Fault { line: u32, why: Why },
    /// A step of the schedule, counted from 1, is the first that is not legal.
    Illegal { at: u64 },
    /// Memory ran out.
    NoMemory,
}

impl From<ParseError> for NoAnswer {
    ghost use Rattle.kms_run.specs.Executing.{unparsed};
    ghost use Rattle.std.specs.Prelude.{◌≡◌};

    ghost from_gives = { λ e stop. stop ≡ unparsed e };

    fn from(e: ParseError) -> NoAnswer {
        match e {
            ParseError::Fault { line, why } => NoAnswer::Fault { line, why },
            ParseError::NoMemory => NoAnswer::NoMemory,
        }
    }
}

impl From<NoMemory> for NoAnswer {
    ghost use Rattle.kms_run.specs.declared.answers.NoAnswer.TheVariants as stops;
    ghost use Rattle.std.specs.Prelude.{◌≡◌};

    ghost from_gives = { λ _ stop. stop ≡ stops.NoMemory };

    fn from(_e: NoMemory) -> NoAnswer {
        NoAnswer::NoMemory
    }
}

/// Does the steps of a schedule on a machine before its first step.
fn replay_all(alloc: Global, core: &mut Core, schedule: &[Step]) -> Result<(), NoAnswer>
    requires { core.old.steps ≡ [] }
    ensures done { OnOk result (core.new
        ≡ record { script = core.old.script; steps = schedule.now }) }
    ensures script { core.new.script ≡ core.old.script }
    ensures stopped { IfErr result (IsStopped Action.Replay core.old.script schedule.now) }
{
    match replay(alloc, core, schedule) {
        Ok(()) => Ok(()),
        Err(ReplayError::Illegal { at }) => Err(NoAnswer::Illegal { at }),
        Err(ReplayError::NoMemory) => Err(NoAnswer::NoMemory),
    }
}

/// Does what is asked for on a machine before its first step, which is no run.
fn execute(
    alloc: Global,
    core: &mut Core,
    action: Action,
    schedule: &[Step],
) -> Result<(), NoAnswer>
    requires start { core.old.steps ≡ [] }
    requires alone { needs_threads action ≡ false }
    ensures script { core.new.script ≡ core.old.script }
    ensures made { OnOk result
        (IsMade action core.old.script schedule.now core.new.steps) }
    ensures over { OnOk result (MayEnd action core.new) }
    ensures stopped { IfErr result (IsStopped action core.old.script schedule.now) }
{
    match action {
        Action::One => finish(alloc, core)?,
        Action::Replay => replay_all(alloc, core, schedule)?,
        Action::Run { .. } => unreachable!(),
    }
    Ok(())
}

/// The report of the history that was made of a script and a schedule as was asked for.
pub(crate) fn full_report<M: MakesReports>(
    maker: &M,
    alloc: Global,
    core: &Core,
    asked: &Execution,
    schedule: &[Step],
) -> Result<FullReport, NoMemory>
    requires maker { M.can_make maker.now }
    requires made { IsMade asked.now.action core.now.script schedule.now core.now.steps }
    requires over { MayEnd asked.now.action core.now }
    ensures { IfOk result (λ answer.
        IsReportOf asked.now core.now.script schedule.now answer.ended answer.text) }
{
    core.is_a_history();
    core.shows_its_journal();
    Ok(FullReport {
        text: maker.report(alloc, core.script(), core, asked.options)?,
        ended: end_of(core),
    })
}

/// Does what is asked for on a machine before its first step, and reports it.
fn execute_and_report<M: MakesReports>(
    maker: &M,
    alloc: Global,
    core: &mut Core,
    asked: &Execution,
    schedule: &[Step],
) -> Result<FullReport, NoAnswer>
    requires maker { M.can_make maker.now }
    requires start { core.old.steps ≡ [] }
    requires alone { needs_threads asked.now.action ≡ false }
    ensures { TellsReport asked.now core.old.script schedule.now result }
{
    execute(alloc, core, asked.action, schedule)?;
    Ok(full_report(maker, alloc, core, asked, schedule)?)
}

/// The report of what is asked for, but a run, with a script and a schedule that were read.
fn parts_answer<M: MakesReports>(
    maker: &M,
    alloc: Global,
    parsed: Parsed,
    asked: &Execution,
) -> Result<FullReport, NoAnswer>
    requires maker { M.can_make maker.now }
    requires formed { IsWellFormed parsed.script }
    requires alone { needs_threads asked.now.action ≡ false }
    ensures { TellsReport asked.now parsed.script parsed.steps result }
{
    let steps = parsed.steps;
    let mut core = Core::new(alloc, parsed.script)?;
    execute_and_report(maker, alloc, &mut core, asked, steps.as_slice())
}

/// The report of what is asked for, but a run, with the script that an input spells; or the input's first fault, or the first
/// step of its schedule that is not legal. The input's bytes are given up before anything is executed.
pub fn answer<M: MakesReports>(
    maker: &M,
    alloc: Global,
    input: Vec<u8>,
    asked: &Execution,
) -> Result<FullReport, NoAnswer>
    requires maker { M.can_make maker.now }
    requires alone { needs_threads asked.now.action ≡ false }
    ensures { Answers asked.now input.items result }
{
    let parsed = parse(alloc, &input, asked.action.part())?;
    drop(input);
    parts_answer(maker, alloc, parsed, asked)
}

/// The same of an input that its owner keeps.
pub fn answer_to<M: MakesReports>(
    maker: &M,
    alloc: Global,
    input: &[u8],
    asked: &Execution,
) -> Result<FullReport, NoAnswer>
    requires maker { M.can_make maker.now }
    requires alone { needs_threads asked.now.action ≡ false }
    ensures { Answers asked.now input.now result }
{
    let parsed = parse(alloc, input, asked.action.part())?;
    parts_answer(maker, alloc, parsed, asked)
}
