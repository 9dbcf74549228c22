//! What a C program calls.
ghost use Rattle.std.specs.Prelude.{◌≡◌, ◌↔◌, ◌≤◌, ◌<◌, false};
ghost use Rattle.kms_run.specs.Answers.{Answers};
ghost use Rattle.kms_run.specs.Slept.{SleepAnswers};
ghost use Rattle.kms_run.specs.Translation.{TellsTranslation};
ghost use Rattle.kms_run.specs.Words.{needs_threads};
ghost use Rattle.kms_run.specs.declared.status.Status.TheVariants.{Usage};
ghost use Rattle.kms_run.specs.declared.words.Action.TheVariants as Action;
ghost use Rattle.kms_c.specs.Answered.{IsAnswered, IsAudited, IsSlept, IsTranslated, VerdictAnswers, asks_for, options_of};
ghost use Rattle.kms_c.specs.Told.{status_told};

use crate::put::{put_answer, put_slept, put_translation, tell_audit};
use crate::told::Told;
use crate::verdicts::verdict_answer;
use kms_report::{OneThread, Options};
use kms_run::{
    Action, Execution, Status, answer_audit, answer_legacy_to, answer_suspend_to, answer_to,
};
use std::alloc::Global;

/// The first number that asks for no options.
const UNKNOWN_OPTIONS: u32 = 4;

/// The options that a number asks for.
fn options_of(number: u32) -> Options
    ensures { result ≡ options_of number }
{
    Options {
        trace: number == 1 || number == 3,
        ppm: number == 2 || number == 3,
    }
}

/// What `one` and `replay` do.
fn execute(alloc: Global, action: Action, script: &[u8], options: u32, out: &mut [u8]) -> Told
    requires { needs_threads action ≡ false }
    ensures unknown { (result.status ≡ 3) ↔ (4 ≤ options) }
    ensures usage { 4 ≤ options → result ≡ status_told Usage }
    ensures kept { 4 ≤ options → out.new ≡ out.old }
    ensures answered { options < 4
        → IsAnswered (Answers (asks_for action options) script.now) out.old out.new result }
{
    if options >= UNKNOWN_OPTIONS {
        return Told::of_status(Status::Usage);
    }
    let asks = Execution {
        action,
        options: options_of(options),
    };
    put_answer(out, answer_to(&OneThread, alloc, script, &asks))
}

/// Executes a script by one thread, as `kms one` does, and puts its report at the front of the caller's memory. Of the options
/// 1 adds the steps and 2 the frames as pixmaps; 3 adds both, and any other number but 0 ends with status 3 and nothing else.
/// Where the memory has too little room, the status is 2, nothing is put there, and `length` tells how much the report needs: a
/// second call with so much gives the same report.
#[unsafe(no_mangle)]
pub extern "C" fn kms_one(
    alloc: Global,
    script: &[u8],
    options: u32,
    out: &mut [u8],
    told: &mut Told,
)
    ensures unknown { (told.new.status ≡ 3) ↔ (4 ≤ options) }
    ensures usage { 4 ≤ options → told.new ≡ status_told Usage }
    ensures kept { 4 ≤ options → out.new ≡ out.old }
    ensures answered { options < 4
        → IsAnswered (Answers (asks_for Action.One options) script.now) out.old out.new told.new }
{
    *told = execute(alloc, Action::One, script, options, out);
}

/// Executes a script by the schedule behind it, as `kms replay` does; else as `kms_one`. Status 7 tells the first step that is
/// not legal, and 8 that the schedule leaves the history open.
#[unsafe(no_mangle)]
pub extern "C" fn kms_replay(
    alloc: Global,
    script: &[u8],
    options: u32,
    out: &mut [u8],
    told: &mut Told,
)
    ensures unknown { (told.new.status ≡ 3) ↔ (4 ≤ options) }
    ensures usage { 4 ≤ options → told.new ≡ status_told Usage }
    ensures kept { 4 ≤ options → out.new ≡ out.old }
    ensures answered { options < 4
        → IsAnswered (Answers (asks_for Action.Replay options) script.now) out.old out.new told.new }
{
    *told = execute(alloc, Action::Replay, script, options, out);
}

/// Puts the replies to a script's commands: the lines of the report of `kms one` that begin with `R`. No frame is made.
#[unsafe(no_mangle)]
pub extern "C" fn kms_verdicts(alloc: Global, script: &[u8], out: &mut [u8], told: &mut Told)
    ensures { IsAnswered (VerdictAnswers script.now) out.old out.new told.new }
{
    *told = put_answer(out, verdict_answer(alloc, script));
}

/// Turns a script's device off behind its history and brings it back, as `kms suspend` does. Status 10 tells the first object
/// that cannot be brought back.
#[unsafe(no_mangle)]
pub extern "C" fn kms_suspend(alloc: Global, script: &[u8], out: &mut [u8], told: &mut Told)
    ensures { IsSlept (SleepAnswers script.now) out.old out.new told.new }
{
    *told = put_slept(out, answer_suspend_to(&OneThread, alloc, script));
}

/// Translates a script with older calls into one with requests alone, as `kms legacy` does.
#[unsafe(no_mangle)]
pub extern "C" fn kms_legacy(alloc: Global, script: &[u8], out: &mut [u8], told: &mut Told)
    ensures { IsTranslated (TellsTranslation script.now) out.old out.new told.new }
{
    *told = put_translation(out, answer_legacy_to(alloc, script));
}

/// Says whether a report is right, as `kms audit` does: the input is a script, a line `report` and a report without pixmaps.
/// Status 0 says that each line of the report is right, and 9 tells in `line` the first that is not, counted from 1 in the
/// report. Status 4 tells the script's first fault; a missing line `report` is one, at the line behind the last. Status 6 is
/// want of memory. There is no text: besides these numbers nothing is told, and all others are 0.
#[unsafe(no_mangle)]
pub extern "C" fn kms_audit(alloc: Global, input: &[u8], told: &mut Told)
    ensures { IsAudited input.now told.new }
{
    *told = tell_audit(answer_audit(alloc, input));
}
