//! What `gen` writes: a generated script, or the summary of the history that one thread makes of it.
ghost use Rattle.std.specs.Prelude.{◌≡◌, ◌≤◌, ◌∷◌, IfOk, [], codes, length, string_bytes, true};
ghost use Rattle.std.specs.List.{count_by};
ghost use Rattle.kms_core.specs.Run.{machine};
ghost use Rattle.kms_model.specs.Machine.Histories.{is_drained};
ghost use Rattle.kms_model.specs.Script.Generated.{generated};
ghost use Rattle.kms_model.specs.Script.Spelling.{Spells};
ghost use Rattle.kms_model.specs.Script.WellFormed.{IsWellFormed};
ghost use Rattle.kms_run.specs.Counting.{tells};
ghost use Rattle.kms_run.specs.Summary as said;
ghost use Rattle.kms_run.specs.Words.{HasFewCommits};

use crate::words::{Generation, NO_OPTIONS};
use kms_core::Core;
use kms_gen::generate;
use kms_kept_frames::digest_of;
use kms_model::{Answered, NoMemory, Reply, Script, Seq};
use kms_one_thread::finish;
use kms_report::report_with;
use kms_script::print;
use std::alloc::{AllocError, Global};
use std::thread::Threads;

/// How many entries the journal has, and how many latches, events read and framebuffers freed there are.
#[derive(Clone, Copy)]
struct Counts {
    journal: usize,
    latches: usize,
    events: usize,
    freed: usize,
}

/// Whether a reply tells a client an event.
fn tells_event(answer: &Answered, client: u32) -> bool
    ensures { result ≡ tells client answer.now }
{
    answer.client == client && matches!(answer.reply, Reply::Event(_))
}

/// How many of these replies tell a client an event.
fn count_events_told(answers: &[Answered], client: u32) -> usize
    ensures exact { result ≡ count_by (tells client) answers.now }
    ensures within { result ≤ length answers.now }
{
    answers
        .iter()
        .filter(|answer| tells_event(answer, client))
        .count()
}

/// How many events the clients have read.
fn count_events_read(core: &Core) -> usize
    ensures { result ≡ said.events_read core.now.script (machine core.now) }
{
    core.is_a_history();
    kms_laws::numbers_fit_their_types();
    kms_laws::events_read_are_replies();
    let mut count = 0;
    for client in 0..core.script().clients.len() as u32 {
        count += count_events_told(core.replies(), client + 1);
    }
    count
}

/// How many things of each kind a history has.
fn count_all(core: &Core) -> Counts
    ensures { result ≡ said.counts core.now.script core.now.steps }
{
    Counts {
        journal: core.journal().len(),
        latches: core.latched().len(),
        events: count_events_read(core),
        freed: core.freed().len(),
    }
}

/// The SHA-256 (FIPS 180-4) of the report without options, in lower-case hexadecimal.
fn report_digest<R: Threads + Sync>(rt: &R, alloc: Global, core: &Core) -> Result<String, NoMemory>
    ensures { IfOk result (λ text. string_bytes text
        ≡ said.report_digest core.now.script core.now.steps) }
{
    let report = report_with(rt, alloc, core.script(), core, NO_OPTIONS)?;
    Ok(hex::encode(alloc, digest_of(report.as_slice()).as_slice())?)
}

/// The six lines of a history that is drained.
fn six_lines(alloc: Global, counts: &Counts, digest: &str) -> Result<String, AllocError>
    ensures { IfOk result (λ text. string_bytes text
        ≡ said.six_lines counts.now digest.now (codes "drained" ∷ [])) }
{
    let Counts {
        journal,
        latches,
        events,
        freed,
    } = *counts;
    let mut text = String::new(alloc);
    write!(
        text,
        "journal {journal}\nlatches {latches}\nevents {events}\nfreed {freed}\nreport {digest}\ndrained\n"
    )?;
    Ok(text)
}

/// The summary of a history that is drained.
fn summary<R: Threads + Sync>(rt: &R, alloc: Global, core: &Core) -> Result<Seq<u8>, NoMemory>
    requires { is_drained core.now.script (machine core.now) ≡ true }
    ensures { IfOk result (λ text. text ≡ said.summary core.now.script core.now.steps) }
{
    let counts = count_all(core);
    let digest = report_digest(rt, alloc, core)?;
    let text = six_lines(alloc, &counts, digest.as_str())?;
    Ok(Seq::from_vec(text.into_bytes()))
}

/// The generated script that is asked for, of which a machine can be made.
fn asked_script(alloc: Global, asks: &Generation) -> Result<Script, NoMemory>
    requires { HasFewCommits asks.now }
    ensures exact { IfOk result (λ s. s ≡ generated asks.now.seed asks.now.commits) }
    ensures formed { IfOk result IsWellFormed }
{
    generate(alloc, asks.seed, asks.commits)
}

/// The text of a generated script.
fn script_text(alloc: Global, asks: &Generation) -> Result<Seq<u8>, NoMemory>
    requires { HasFewCommits asks.now }
    ensures { IfOk result (λ text. Spells text (generated asks.now.seed asks.now.commits)) }
{
    let script = asked_script(alloc, asks)?;
    print(alloc, &script)
}

/// Runs a generated script on a machine before its first step, and sums it up.
fn run_with<R: Threads + Sync>(
    rt: &R,
    alloc: Global,
    core: &mut Core,
    asks: &Generation,
) -> Result<Seq<u8>, NoMemory>
    requires script { core.old.script ≡ generated asks.now.seed asks.now.commits }
    requires start { core.old.steps ≡ [] }
    ensures { IfOk result (said.IsSummaryOf (generated asks.now.seed asks.now.commits)) }
{
    finish(alloc, core)?;
    core.is_a_history();
    core.shows_its_journal();
    kms_laws::generated_scripts_drain();
    summary(rt, alloc, core)
}

/// The summary of a generated script that one thread runs.
fn run_summary<R: Threads + Sync>(
    rt: &R,
    alloc: Global,
    asks: &Generation,
) -> Result<Seq<u8>, NoMemory>
    requires { HasFewCommits asks.now }
    ensures { IfOk result (said.IsSummaryOf (generated asks.now.seed asks.now.commits)) }
{
    let script = asked_script(alloc, asks)?;
    let mut core = Core::new(alloc, script)?;
    run_with(rt, alloc, &mut core, asks)
}

/// What `gen` writes: the text of a generated script; or, where the script is run, how many entries the journal has, how many
/// latches, events read and framebuffers freed there are, the digest of the report, and that the history is drained, as that
/// of each generated script is. The only error is want of memory.
pub fn generate_text<R: Threads + Sync>(
    rt: &R,
    alloc: Global,
    asks: &Generation,
) -> Result<Seq<u8>, NoMemory>
    requires { HasFewCommits asks.now }
    ensures { IfOk result (said.IsGenerated asks.now) }
{
    if asks.run {
        run_summary(rt, alloc, asks)
    } else {
        script_text(alloc, asks)
    }
}
