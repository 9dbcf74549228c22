//! The top calls.
ghost use Rattle.std.specs.Prelude.{◌≡◌, ◌≢◌, ℕ, List, Err, IfErr, IfOk, OnErr, Option, false, map, string_bytes};
ghost use Rattle.std.specs.Io.KnownBytes.{Consumes};
ghost use Rattle.kms_io.specs.Causes.{Rose};
ghost use Rattle.kms_io.specs.Bytes.{Moved};
ghost use Rattle.kms_run.specs.declared.words.Execution.{Execution};
ghost use Rattle.kms_run.specs.Answers.{Answers};
ghost use Rattle.kms_run.specs.Auditing.{SaysOf};
ghost use Rattle.kms_run.specs.Outcome.{HasEnded, IsSilent, Meets, MeetsAudit, MeetsGenerated, MeetsSleep, MeetsTranslation, ReadsAll, TellsFaults, Wrote};
ghost use Rattle.kms_run.specs.Slept.{SleepAnswers};
ghost use Rattle.kms_run.specs.Translation.{TellsTranslation};
ghost use Rattle.kms_run.specs.Words.{AreFewThreads, HasFewCommits, is_run, needs_threads, run_execution};

use crate::answers::{FullReport, NoAnswer, answer};
use crate::auditing::{NoYes, answer_audit};
use crate::generated::generate_text;
use crate::running::run_answer;
use crate::slept::{NoSleep, answer_suspend};
use crate::status::Status;
use crate::stream::{ReadError, read_all, write_all};
use crate::translated::answer_legacy;
use crate::words::{Action, Execution, Generation, Task, ThreadedRun, read_words};
use kms_io::{Gate, Sink, Source};
use kms_model::Seq;
use kms_report::SeveralThreads;
use kms_script::{MAX_INPUT, ParseError};
use std::alloc::Global;
use std::sync::Wait;
use std::thread::Threads;

/// Reads the input to its end, or to one byte more than it may have. The error is the status that comes of it.
fn read_input<S: Source>(alloc: Global, source: &mut S) -> Result<Vec<u8>, Status>
    ensures taken { IfOk result (λ bytes.
        Consumes (S.left source.old) (S.left source.new) bytes.items) }
    ensures whole { IfOk result (λ bytes. ReadsAll (S.left source.new) bytes.items) }
    ensures some { OnErr result ((bytes : List ℕ)
        × Consumes (S.left source.old) (S.left source.new) bytes) }
    ensures silent { IfErr result IsSilent }
    ensures cause { result ≡ Err Status.ReadFault
        → Rose (S.faults source.old) (S.faults source.new) }
    ensures quiet { result ≢ Err Status.ReadFault
        → S.faults source.new ≡ S.faults source.old }
{
    match read_all(alloc, source, MAX_INPUT + 1) {
        Ok(input) => Ok(input),
        Err(ReadError::Failed) => Err(Status::ReadFault),
        Err(ReadError::Memory) => Err(Status::NoMemory),
    }
}

/// Writes the report of an input, where it has one. Gives the status that comes of it.
fn write_answer<K: Sink>(sink: &mut K, answer: Result<FullReport, NoAnswer>) -> Status
    ensures put { (asks : Execution) (left : Option (List ℕ)) (input : List ℕ)
        → ReadsAll left input → Answers asks input answer
        → Wrote (K.written sink.old) (K.written sink.new) (Meets asks result left input) }
    ensures cause { result ≡ Status.WriteFault
        → Rose (K.faults sink.old) (K.faults sink.new) }
    ensures quiet { result ≢ Status.WriteFault
        → K.faults sink.new ≡ K.faults sink.old }
    ensures read { result ≢ Status.ReadFault }
{
    let report = match answer {
        Ok(report) => report,
        Err(NoAnswer::Fault { line, why }) => return Status::Script { line, why },
        Err(NoAnswer::Illegal { at }) => return Status::Illegal { at },
        Err(NoAnswer::NoMemory) => return Status::NoMemory,
    };
    match write_all(sink, report.text.as_slice()) {
        Ok(()) => Status::of_end(report.ended),
        Err(_) => Status::WriteFault,
    }
}

/// What `one` and `replay` do, with all that is promised of the bytes in one clause by the status.
fn execute_input<R: Threads + Sync, S: Source, K: Sink>(
    rt: &R,
    alloc: Global,
    asks: &Execution,
    source: &mut S,
    sink: &mut K,
) -> Status
    requires { needs_threads asks.now.action ≡ false }
    ensures moved { Moved
        (S.left source.old) (S.left source.new) (K.written sink.old) (K.written sink.new)
        (Meets asks.now result (S.left source.new)) }
    ensures faults { TellsFaults result (S.faults source.old) (S.faults source.new)
        (K.faults sink.old) (K.faults sink.new) }
{
    match read_input(alloc, source) {
        Ok(input) => write_answer(sink, answer(&SeveralThreads { rt }, alloc, input, asks)),
        Err(status) => status,
    }
}

/// What `run` does, by so many threads, with the same promise.
fn run_input<R: Threads + Wait + Sync, S: Source, K: Sink, G: Gate + Sync>(
    rt: &R,
    alloc: Global,
    asks: ThreadedRun,
    source: &mut S,
    sink: &mut K,
    gate: &G,
) -> Status
    requires { AreFewThreads asks.threads }
    ensures moved { Moved
        (S.left source.old) (S.left source.new) (K.written sink.old) (K.written sink.new)
        (Meets (run_execution asks) result (S.left source.new)) }
    ensures faults { TellsFaults result (S.faults source.old) (S.faults source.new)
        (K.faults sink.old) (K.faults sink.new) }
{
    match read_input(alloc, source) {
        Ok(input) => {
            let answer = run_answer(rt, alloc, input, asks, gate);
            write_answer(sink, answer)
        }
        Err(status) => status,
    }
}

/// Writes the report of an input under `suspend`, where it has one. Gives the status that comes of it.
fn write_slept<K: Sink>(sink: &mut K, answer: Result<FullReport, NoSleep>) -> Status
    ensures put { (left : Option (List ℕ)) (input : List ℕ)
        → ReadsAll left input → SleepAnswers input answer
        → Wrote (K.written sink.old) (K.written sink.new) (MeetsSleep result left input) }
    ensures cause { result ≡ Status.WriteFault
        → Rose (K.faults sink.old) (K.faults sink.new) }
    ensures quiet { result ≢ Status.WriteFault
        → K.faults sink.new ≡ K.faults sink.old }
    ensures read { result ≢ Status.ReadFault }
{
    let told = match answer {
        Ok(told) => told,
        Err(NoSleep::Fault { line, why }) => return Status::Script { line, why },
        Err(NoSleep::Closed { object }) => return Status::Closed { object },
        Err(NoSleep::NoMemory) => return Status::NoMemory,
    };
    match write_all(sink, told.text.as_slice()) {
        Ok(()) => Status::of_end(told.ended),
        Err(_) => Status::WriteFault,
    }
}

/// What `suspend` does, with all that is promised of the bytes in one clause by the status.
fn suspend_input<R: Threads + Sync, S: Source, K: Sink>(
    rt: &R,
    alloc: Global,
    source: &mut S,
    sink: &mut K,
) -> Status
    ensures moved { Moved
        (S.left source.old) (S.left source.new) (K.written sink.old) (K.written sink.new)
        (MeetsSleep result (S.left source.new)) }
    ensures faults { TellsFaults result (S.faults source.old) (S.faults source.new)
        (K.faults sink.old) (K.faults sink.new) }
{
    match read_input(alloc, source) {
        Ok(input) => write_slept(sink, answer_suspend(&SeveralThreads { rt }, alloc, input)),
        Err(status) => status,
    }
}

/// What `gen` does, which has no source to read.
fn write_generation<R: Threads + Sync, K: Sink>(
    rt: &R,
    alloc: Global,
    asks: &Generation,
    sink: &mut K,
) -> Status
    requires { HasFewCommits asks.now }
    ensures put { Wrote (K.written sink.old) (K.written sink.new) (MeetsGenerated asks.now result) }
    ensures write_fault { result ≡ Status.WriteFault
        → Rose (K.faults sink.old) (K.faults sink.new) }
    ensures no_write_fault { result ≢ Status.WriteFault
        → K.faults sink.new ≡ K.faults sink.old }
{
    let Ok(text) = generate_text(rt, alloc, asks) else {
        return Status::NoMemory;
    };
    match write_all(sink, text.as_slice()) {
        Ok(()) => Status::Ok,
        Err(_) => Status::WriteFault,
    }
}

/// Writes the translation of an input, where it has one. Gives the status that comes of it.
fn write_translation<K: Sink>(sink: &mut K, answer: Result<Seq<u8>, ParseError>) -> Status
    ensures put { (left : Option (List ℕ)) (input : List ℕ)
        → ReadsAll left input → TellsTranslation input answer
        → Wrote (K.written sink.old) (K.written sink.new) (MeetsTranslation result left input) }
    ensures cause { result ≡ Status.WriteFault
        → Rose (K.faults sink.old) (K.faults sink.new) }
    ensures quiet { result ≢ Status.WriteFault
        → K.faults sink.new ≡ K.faults sink.old }
    ensures read { result ≢ Status.ReadFault }
{
    let text = match answer {
        Ok(text) => text,
        Err(ParseError::Fault { line, why }) => return Status::Script { line, why },
        Err(ParseError::NoMemory) => return Status::NoMemory,
    };
    match write_all(sink, text.as_slice()) {
        Ok(()) => Status::Ok,
        Err(_) => Status::WriteFault,
    }
}

/// What `legacy` does, which executes nothing.
fn translate_input<S: Source, K: Sink>(alloc: Global, source: &mut S, sink: &mut K) -> Status
    ensures moved { Moved
        (S.left source.old) (S.left source.new) (K.written sink.old) (K.written sink.new)
        (MeetsTranslation result (S.left source.new)) }
    ensures faults { TellsFaults result (S.faults source.old) (S.faults source.new)
        (K.faults sink.old) (K.faults sink.new) }
{
    match read_input(alloc, source) {
        Ok(input) => write_translation(sink, answer_legacy(alloc, input)),
        Err(status) => status,
    }
}

/// Writes what is said of a report that is right. Gives the status that comes of it.
fn write_yes<K: Sink>(sink: &mut K, answer: Result<(), NoYes>) -> Status
    ensures put { (left : Option (List ℕ)) (input : List ℕ)
        → ReadsAll left input → SaysOf input answer
        → Wrote (K.written sink.old) (K.written sink.new) (MeetsAudit result left input) }
    ensures cause { result ≡ Status.WriteFault
        → Rose (K.faults sink.old) (K.faults sink.new) }
    ensures quiet { result ≢ Status.WriteFault
        → K.faults sink.new ≡ K.faults sink.old }
    ensures read { result ≢ Status.ReadFault }
{
    match answer {
        Ok(()) => {}
        Err(NoYes::Fault { line, why }) => return Status::Script { line, why },
        Err(NoYes::Wrong { line }) => return Status::AuditNo { line },
        Err(NoYes::NoMemory) => return Status::NoMemory,
    }
    match write_all(sink, b"audit yes\n") {
        Ok(()) => Status::Ok,
        Err(_) => Status::WriteFault,
    }
}

/// What `audit` does, which executes nothing.
fn audit_input<S: Source, K: Sink>(alloc: Global, source: &mut S, sink: &mut K) -> Status
    ensures moved { Moved
        (S.left source.old) (S.left source.new) (K.written sink.old) (K.written sink.new)
        (MeetsAudit result (S.left source.new)) }
    ensures faults { TellsFaults result (S.faults source.old) (S.faults source.new)
        (K.faults sink.old) (K.faults sink.new) }
{
    match read_input(alloc, source) {
        Ok(input) => write_yes(sink, answer_audit(alloc, &input)),
        Err(status) => status,
    }
}

/// All that the program does for words that are no legal words of `run`. It waits for nobody. `rt` is for threads that
/// only compute: they make the frames of a report, and their digests.
///
/// The words are tried first. For `one`, `replay` and `suspend` the input is read to its end (or to one byte more than it may
/// have), then the script is read and executed, and only then is the report written. For `gen` nothing is read; the generated
/// script, or the six lines of its run, is written when it is whole. For `legacy` the input is read as for `one`, and its
/// translation is written when it is whole; nothing is executed but on the device of one thread. For `audit` the input is
/// read likewise, and `audit yes` is written where each line of the report behind the script is right, and else nothing.
pub fn kms_plain<R: Threads + Sync, S: Source, K: Sink>(
    rt: &R,
    alloc: Global,
    words: &[String],
    source: &mut S,
    sink: &mut K,
) -> Status
    requires alone { is_run (map string_bytes words.now) ≡ false }
    ensures ended { HasEnded (map string_bytes words.now) result
        (S.left source.old) (S.left source.new) (K.written sink.old) (K.written sink.new)
        (S.faults source.old) (S.faults source.new) (K.faults sink.old) (K.faults sink.new) }
{
    match read_words(words) {
        None => Status::Usage,
        Some(Task::Execute(asks)) => execute_input(rt, alloc, &asks, source, sink),
        Some(Task::Generate(asks)) => write_generation(rt, alloc, &asks, sink),
        Some(Task::Translate) => translate_input(alloc, source, sink),
        Some(Task::Suspend) => suspend_input(rt, alloc, source, sink),
        Some(Task::Audit) => audit_input(alloc, source, sink),
    }
}

/// All that the program does. For legal words of `run` it makes the run itself: the input is read as for `one`, then
/// players in as many threads as are asked for execute the script on one device, and wait for one another; once all have
/// come to rest, the device is closed, its history is continued to its end by one thread, and the report is written. The
/// players come to the gate. For all other words it is `kms_plain`, which waits for nobody. That a run comes to rest is not
/// promised.
pub fn kms_main<R: Threads + Wait + Sync, S: Source, K: Sink, G: Gate + Sync>(
    rt: &R,
    alloc: Global,
    words: &[String],
    source: &mut S,
    sink: &mut K,
    gate: &G,
) -> Status
    ensures ended { HasEnded (map string_bytes words.now) result
        (S.left source.old) (S.left source.new) (K.written sink.old) (K.written sink.new)
        (S.faults source.old) (S.faults source.new) (K.faults sink.old) (K.faults sink.new) }
{
    match read_words(words) {
        Some(
            Task::Execute(
                Execution {
                    action: Action::Run { threads },
                    options,
                },
            ),
        ) => {
            let asks = ThreadedRun { threads, options };
            run_input(rt, alloc, asks, source, sink, gate)
        }
        _ => kms_plain(rt, alloc, words, source, sink),
    }
}
