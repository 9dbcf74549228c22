//! What `suspend` says to an input.
ghost use Rattle.std.specs.Prelude.{◌≡◌, IfOk, false, true};
ghost use Rattle.kms_model.specs.Machine.Histories.{is_dead, is_drained};
ghost use Rattle.kms_model.specs.Order.Rounds.{IsOne};
ghost use Rattle.kms_model.specs.Script.Longer.{HasRoomForTwo};
ghost use Rattle.kms_model.specs.Script.WellFormed.{IsWellFormed};
ghost use Rattle.kms_laws.specs.Ends.{IsOver};
ghost use Rattle.kms_core.specs.Run.{machine};
ghost use Rattle.kms_suspend.specs.Sleeping.{MaySleep};
ghost use Rattle.kms_run.specs.Slept.{IsReportByEnd, SleepAnswers, TellsOfSleep};

use crate::answers::FullReport;
use crate::words::NO_OPTIONS;
use kms_core::Core;
use kms_model::{NoMemory, ObjId, Part, Script, Why};
use kms_one_thread::{End, finish};
use kms_report::MakesReports;
use kms_script::{ParseError, parse_within};
use kms_suspend::{ResumeError, sleep_and_wake};
use std::alloc::Global;

/// The most commands of a client, so that two more fit behind the last one's.
const MOST_BEFORE_TWO: usize = 4094;

/// Why there is no report.
#[derive(Clone, Copy, PartialEq, Eq)]
pub enum NoSleep {
    /// The first line that may not stand where it stands, counted from 1, and why; line 0 is the whole input.
    Fault { line: u32, why: Why },
    /// What this object shows cannot be brought back, and it is the one of least id.
    Closed { object: ObjId },
    /// Memory ran out.
    NoMemory,
}

impl From<ParseError> for NoSleep {
    ghost use Rattle.kms_run.specs.Slept.{unread};
    ghost use Rattle.std.specs.Prelude.{◌≡◌};

    ghost from_gives = { λ e stop. stop ≡ unread e };

    fn from(e: ParseError) -> NoSleep {
        match e {
            ParseError::Fault { line, why } => NoSleep::Fault { line, why },
            ParseError::NoMemory => NoSleep::NoMemory,
        }
    }
}

impl From<ResumeError> for NoSleep {
    ghost use Rattle.kms_run.specs.Slept.{unwoken};
    ghost use Rattle.std.specs.Prelude.{◌≡◌};

    ghost from_gives = { λ e stop. stop ≡ unwoken e };

    fn from(e: ResumeError) -> NoSleep {
        match e {
            ResumeError::Closed { object } => NoSleep::Closed { object },
            ResumeError::NoMemory => NoSleep::NoMemory,
        }
    }
}

impl From<NoMemory> for NoSleep {
    ghost use Rattle.kms_run.specs.declared.slept.NoSleep.TheVariants as stops;
    ghost use Rattle.std.specs.Prelude.{◌≡◌};

    ghost from_gives = { λ _ stop. stop ≡ stops.NoMemory };

    fn from(_e: NoMemory) -> NoSleep {
        NoSleep::NoMemory
    }
}

/// The report of a dead history, without options.
fn dead_report<M: MakesReports>(
    maker: &M,
    alloc: Global,
    core: &Core,
) -> Result<FullReport, NoMemory>
    requires maker { M.can_make maker.now }
    requires one { IsOne core.now.script core.now.steps }
    requires undrained { is_drained core.now.script (machine core.now) ≡ false }
    requires dead { is_dead core.now.script (machine core.now) ≡ true }
    ensures { IfOk result (λ answer.
        IsReportByEnd core.now.script answer.ended answer.text) }
{
    core.is_a_history();
    core.shows_its_journal();
    Ok(FullReport {
        text: maker.report(alloc, core.script(), core, NO_OPTIONS)?,
        ended: End::Dead,
    })
}

/// The report without options of a machine that is drained, whose device was turned off and brought back before.
fn woken_report<M: MakesReports>(
    maker: &M,
    alloc: Global,
    core: Core,
) -> Result<FullReport, NoSleep>
    requires maker { M.can_make maker.now }
    requires sleep { MaySleep core }
    ensures { TellsOfSleep core.script result }
{
    let woken = sleep_and_wake(alloc, core)?;
    woken.shows_its_journal();
    Ok(FullReport {
        text: maker.report(alloc, woken.script(), &woken, NO_OPTIONS)?,
        ended: End::Drained,
    })
}

/// The report without options of a machine whose history is that of one thread: as it is where it is dead, and else of what
/// it is once its device was turned off and brought back.
fn sleep_and_report<M: MakesReports>(
    maker: &M,
    alloc: Global,
    core: Core,
) -> Result<FullReport, NoSleep>
    requires maker { M.can_make maker.now }
    requires one { IsOne core.script core.steps }
    requires over { IsOver core.script core.steps }
    requires room { HasRoomForTwo core.script }
    ensures { TellsOfSleep core.script result }
{
    if core.drained() {
        woken_report(maker, alloc, core)
    } else {
        Ok(dead_report(maker, alloc, &core)?)
    }
}

/// The report without options of what `suspend` makes of a script that was read.
fn suspend_script<M: MakesReports>(
    maker: &M,
    alloc: Global,
    script: Script,
) -> Result<FullReport, NoSleep>
    requires maker { M.can_make maker.now }
    requires formed { IsWellFormed script }
    requires room { HasRoomForTwo script }
    ensures { TellsOfSleep script result }
{
    let mut core = Core::new(alloc, script)?;
    finish(alloc, &mut core)?;
    sleep_and_report(maker, alloc, core)
}

/// The report without options of what `suspend` makes of the script that an input spells, with clients of at most 4094
/// commands; or the input's first fault, or the first object that cannot be brought back. The input's bytes are given up
/// before anything is executed.
pub fn answer_suspend<M: MakesReports>(
    maker: &M,
    alloc: Global,
    input: Vec<u8>,
) -> Result<FullReport, NoSleep>
    requires { M.can_make maker.now }
    ensures { SleepAnswers input.items result }
{
    let parsed = parse_within(alloc, &input, Part::Script, MOST_BEFORE_TWO)?;
    drop(input);
    suspend_script(maker, alloc, parsed.script)
}

/// The same of an input that its owner keeps.
pub fn answer_suspend_to<M: MakesReports>(
    maker: &M,
    alloc: Global,
    input: &[u8],
) -> Result<FullReport, NoSleep>
    requires { M.can_make maker.now }
    ensures { SleepAnswers input.now result }
{
    let parsed = parse_within(alloc, input, Part::Script, MOST_BEFORE_TWO)?;
    suspend_script(maker, alloc, parsed.script)
}
